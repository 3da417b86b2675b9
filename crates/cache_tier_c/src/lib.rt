//! A cache tier for programs that aren't written in Rattle, as a static library. `embed/cache_tier.h` has the declarations, and what each call is
//! for; `embed/cache_gateway.h` has those of a gateway. All that is done here is that the caller's memory is taken as a held tier, or as a gateway, and
//! given back.
//!
//! Its contract: a whole tier, or gateway, lies at the handle before and after each export, each call of an event of a tier is that event, and nothing is
//! read or written outside what was given.
//! Programs in C, C++, Rust and Python call it (`docs/embedding.md`).
#![tactic(auto)]

pub mod exchanges;
pub mod gateway_made;
pub mod gateway_starting;
pub mod rules;
pub mod shows;

ghost use Rattle.std.specs.Prelude.{◌≡◌, ◌++◌, ◌≤◌, length, take, drop, min};
ghost use Rattle.std.specs.Borrow.{full_share, sem};
ghost use Rattle.std.specs.Ptr.{lies_at, room_at};
ghost use Rattle.cache_words.specs.Blake.{blake2b_128};
ghost use Rattle.tier_calls.specs.Called.{IsBegin, IsDrop, IsFinish, IsGiveUp, IsMade, IsOpen, IsPiece, IsPoll, IsPurge, IsPut, IsRevalidate};
ghost use Rattle.tier_calls.specs.declared.held.TierHandle.{TierHandle};
ghost use Rattle.tier_calls.specs.declared.keeps.Keep.{Keep};
ghost use Rattle.tier_calls.specs.contracts.held.TierHandle.{the_row};
ghost use Rattle.tier_calls.specs.contracts.keeps.Keep.{the_row as keep_row};

use cache_words::key::hash_key;
use std::alloc::Global;
use tier_calls::held::{TierHandle, end};
use tier_calls::keeps::{Keep, release};
use tier_calls::made::make;
use tier_calls::statuses::VERSION;
use tier_calls::structs::{CallAnswer, MetaWords, Options};

#[unsafe(no_mangle)]
pub extern "C" fn cache_tier1_version() -> u64
    ensures { result ≡ 1000 }
{
    VERSION
}

#[unsafe(no_mangle)]
pub extern "C" fn cache_tier1_sizeof() -> usize {
    std::mem::size_of::<TierHandle>().div_ceil(16) * 16
}

#[unsafe(no_mangle)]
pub extern "C" fn cache_tier1_digest(name: &[u8], out: &mut [u8])
    ensures { let n = min (length out.old) 16 in out.new ≡ take n (blake2b_128 name.now) ++ drop n out.old }
{
    let digest = hash_key(name);
    let count = out.len().min(16);
    out[..count].copy_from_slice(&digest[..count]);
}

#[unsafe(no_mangle)]
pub unsafe extern "C" fn cache_tier1_init(
    alloc: Global,
    at: *mut u8,
    options: &Options,
    out: &mut CallAnswer,
)
    requires* { sem 𝓛 (room_at the_row at) }
    ensures* { ∃ₛ λ (h : TierHandle). ⌜ IsMade options.now out.new h ⌝ ∗ sem 𝓛 (lies_at the_row full_share at h) }
{
    let held = make(alloc, options, out);
    unsafe { std::ptr::write(at as *mut TierHandle, held) };
}

#[unsafe(no_mangle)]
pub unsafe extern "C" fn cache_tier1_end(at: *mut u8)
    ghost h: { TierHandle }
    requires* { sem 𝓛 (lies_at the_row full_share at h) }
{
    let held = unsafe { std::ptr::read(at as *mut TierHandle) };
    end(held)
}

#[unsafe(no_mangle)]
pub unsafe extern "C" fn cache_tier1_release(at: *mut u8)
    ghost k: { Keep }
    requires* { sem 𝓛 (lies_at keep_row full_share at k) }
{
    let keep = unsafe { std::ptr::read(at as *mut Keep) };
    release(keep)
}

#[unsafe(no_mangle)]
pub unsafe extern "C" fn cache_tier1_open(
    at: *mut u8,
    id: u64,
    lock: u64,
    digested: u64,
    key: &[u8],
    tag: &[u8],
    out: &mut CallAnswer,
)
    ghost h: { TierHandle }
    requires* { sem 𝓛 (lies_at the_row full_share at h) }
    ensures* { ∃ₛ λ (h' : TierHandle). ⌜ IsOpen h id lock digested key.now tag.now out.new h' ⌝ ∗ sem 𝓛 (lies_at the_row full_share at h') }
{
    let held = unsafe { &mut *(at as *mut TierHandle) };
    held.open(id, lock, digested, key, tag, out)
}

#[unsafe(no_mangle)]
pub unsafe extern "C" fn cache_tier1_poll(
    at: *mut u8,
    seconds: u64,
    nanoseconds: u64,
    id: u64,
    out: &mut CallAnswer,
)
    ghost h: { TierHandle }
    requires* { sem 𝓛 (lies_at the_row full_share at h) }
    ensures* { ∃ₛ λ (h' : TierHandle). ⌜ IsPoll h seconds nanoseconds id out.new h' ⌝ ∗ sem 𝓛 (lies_at the_row full_share at h') }
{
    let held = unsafe { &mut *(at as *mut TierHandle) };
    held.poll(seconds, nanoseconds, id, out)
}

#[unsafe(no_mangle)]
pub unsafe extern "C" fn cache_tier1_begin(
    at: *mut u8,
    seconds: u64,
    nanoseconds: u64,
    id: u64,
    head: &[u8],
    given: u64,
    meta: &MetaWords,
    out: &mut CallAnswer,
)
    ghost h: { TierHandle }
    requires* { sem 𝓛 (lies_at the_row full_share at h) }
    ensures* { ∃ₛ λ (h' : TierHandle). ⌜ IsBegin h seconds nanoseconds id head.now given meta.now out.new h' ⌝ ∗ sem 𝓛 (lies_at the_row full_share at h') }
{
    let held = unsafe { &mut *(at as *mut TierHandle) };
    held.begin(seconds, nanoseconds, id, head, given, meta, out)
}

#[unsafe(no_mangle)]
pub unsafe extern "C" fn cache_tier1_revalidate(
    at: *mut u8,
    seconds: u64,
    nanoseconds: u64,
    id: u64,
    head: &[u8],
    given: u64,
    meta: &MetaWords,
    out: &mut CallAnswer,
)
    ghost h: { TierHandle }
    requires* { sem 𝓛 (lies_at the_row full_share at h) }
    ensures* { ∃ₛ λ (h' : TierHandle). ⌜ IsRevalidate h seconds nanoseconds id head.now given meta.now out.new h' ⌝ ∗ sem 𝓛 (lies_at the_row full_share at h') }
{
    let held = unsafe { &mut *(at as *mut TierHandle) };
    held.revalidate(seconds, nanoseconds, id, head, given, meta, out)
}

#[unsafe(no_mangle)]
pub unsafe extern "C" fn cache_tier1_write(
    at: *mut u8,
    id: u64,
    last: u64,
    bytes: &[u8],
    out: &mut CallAnswer,
)
    ghost h: { TierHandle }
    requires* { sem 𝓛 (lies_at the_row full_share at h) }
    ensures* { ∃ₛ λ (h' : TierHandle). ⌜ IsPiece h id last bytes.now out.new h' ⌝ ∗ sem 𝓛 (lies_at the_row full_share at h') }
{
    let held = unsafe { &mut *(at as *mut TierHandle) };
    held.piece(id, last, bytes, out)
}

#[unsafe(no_mangle)]
pub unsafe extern "C" fn cache_tier1_finish(at: *mut u8, id: u64, out: &mut CallAnswer)
    ghost h: { TierHandle }
    requires* { sem 𝓛 (lies_at the_row full_share at h) }
    ensures* { ∃ₛ λ (h' : TierHandle). ⌜ IsFinish h id out.new h' ⌝ ∗ sem 𝓛 (lies_at the_row full_share at h') }
{
    let held = unsafe { &mut *(at as *mut TierHandle) };
    held.finish(id, out)
}

#[unsafe(no_mangle)]
pub unsafe extern "C" fn cache_tier1_close(at: *mut u8, id: u64, out: &mut CallAnswer)
    ghost h: { TierHandle }
    requires* { sem 𝓛 (lies_at the_row full_share at h) }
    ensures* { ∃ₛ λ (h' : TierHandle). ⌜ IsDrop h id out.new h' ⌝ ∗ sem 𝓛 (lies_at the_row full_share at h') }
{
    let held = unsafe { &mut *(at as *mut TierHandle) };
    held.drop_request(id, out)
}

#[unsafe(no_mangle)]
pub unsafe extern "C" fn cache_tier1_give_up(at: *mut u8, id: u64, out: &mut CallAnswer)
    ghost h: { TierHandle }
    requires* { sem 𝓛 (lies_at the_row full_share at h) }
    ensures* { ∃ₛ λ (h' : TierHandle). ⌜ IsGiveUp h id out.new h' ⌝ ∗ sem 𝓛 (lies_at the_row full_share at h') }
{
    let held = unsafe { &mut *(at as *mut TierHandle) };
    held.give_up(id, out)
}

#[unsafe(no_mangle)]
pub unsafe extern "C" fn cache_tier1_purge(
    at: *mut u8,
    digested: u64,
    key: &[u8],
    tag: &[u8],
    out: &mut CallAnswer,
)
    ghost h: { TierHandle }
    requires* { sem 𝓛 (lies_at the_row full_share at h) }
    ensures* { ∃ₛ λ (h' : TierHandle). ⌜ IsPurge h digested key.now tag.now out.new h' ⌝ ∗ sem 𝓛 (lies_at the_row full_share at h') }
{
    let held = unsafe { &mut *(at as *mut TierHandle) };
    held.purge(digested, key, tag, out)
}

#[unsafe(no_mangle)]
pub unsafe extern "C" fn cache_tier1_put(
    at: *mut u8,
    seconds: u64,
    nanoseconds: u64,
    digested: u64,
    key: &[u8],
    tag: &[u8],
    head: &[u8],
    body: &[u8],
    given: u64,
    meta: &MetaWords,
    out: &mut CallAnswer,
)
    ghost h: { TierHandle }
    requires* { sem 𝓛 (lies_at the_row full_share at h) }
    ensures* { ∃ₛ λ (h' : TierHandle). ⌜ IsPut h seconds nanoseconds digested key.now tag.now head.now body.now given meta.now out.new h' ⌝ ∗ sem 𝓛 (lies_at the_row full_share at h') }
{
    let held = unsafe { &mut *(at as *mut TierHandle) };
    held.put(
        seconds,
        nanoseconds,
        digested,
        key,
        tag,
        head,
        body,
        given,
        meta,
        out,
    )
}
