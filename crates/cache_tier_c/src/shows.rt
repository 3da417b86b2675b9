//! Exports that hand over what a tier has: what was found or read, its entries, its files and its counts.
ghost use Rattle.std.specs.Borrow.{full_share, sem};
ghost use Rattle.std.specs.Ptr.{lies_at, room_at};
ghost use Rattle.tier_calls.specs.Called.{IsEvicted, IsFile, IsFind, IsHandFile, IsHit, IsKept, IsList, IsListed, IsLookUpStale, IsRead, IsReported, IsSave, IsStart, IsWeight};
ghost use Rattle.tier_calls.specs.declared.held.TierHandle.{TierHandle};
ghost use Rattle.tier_calls.specs.declared.keeps.Keep.{Keep};
ghost use Rattle.tier_calls.specs.contracts.held.TierHandle.{the_row};
ghost use Rattle.tier_calls.specs.contracts.keeps.Keep.{the_row as keep_row};

use tier_calls::held::TierHandle;
use tier_calls::keeps::Keep;
use tier_calls::structs::{CallAnswer, Counts, EntryShown, FileShown, FoundShown};

#[unsafe(no_mangle)]
pub unsafe extern "C" fn cache_tier1_get(
    at: *mut u8,
    seconds: u64,
    nanoseconds: u64,
    digested: u64,
    key: &[u8],
    tag: &[u8],
    out: &mut FoundShown,
    keep: *mut u8,
)
    ghost h: { TierHandle }
    requires* { sem 𝓛 (lies_at the_row full_share at h) ∗ sem 𝓛 (room_at keep_row keep) }
    ensures* { ∃ₛ λ (h' : TierHandle). ∃ₛ λ (k : Keep). ⌜ IsHit h seconds nanoseconds digested key.now tag.now out.new h' k ⌝
        ∗ sem 𝓛 (lies_at the_row full_share at h') ∗ sem 𝓛 (lies_at keep_row full_share keep k) }
{
    let held = unsafe { &mut *(at as *mut TierHandle) };
    let kept = held.hit(seconds, nanoseconds, digested, key, tag, out);
    unsafe { std::ptr::write(keep as *mut Keep, kept) };
}

#[unsafe(no_mangle)]
pub unsafe extern "C" fn cache_tier1_lookup(
    at: *mut u8,
    seconds: u64,
    nanoseconds: u64,
    id: u64,
    out: &mut FoundShown,
    keep: *mut u8,
)
    ghost h: { TierHandle }
    requires* { sem 𝓛 (lies_at the_row full_share at h) ∗ sem 𝓛 (room_at keep_row keep) }
    ensures* { ∃ₛ λ (h' : TierHandle). ∃ₛ λ (k : Keep). ⌜ IsFind h seconds nanoseconds id out.new h' k ⌝
        ∗ sem 𝓛 (lies_at the_row full_share at h') ∗ sem 𝓛 (lies_at keep_row full_share keep k) }
{
    let held = unsafe { &mut *(at as *mut TierHandle) };
    let kept = held.find(seconds, nanoseconds, id, out);
    unsafe { std::ptr::write(keep as *mut Keep, kept) };
}

#[unsafe(no_mangle)]
pub unsafe extern "C" fn cache_tier1_lookup_stale(
    at: *mut u8,
    id: u64,
    out: &mut FoundShown,
    keep: *mut u8,
)
    ghost h: { TierHandle }
    requires* { sem 𝓛 (lies_at the_row full_share at h) ∗ sem 𝓛 (room_at keep_row keep) }
    ensures* { ∃ₛ λ (h' : TierHandle). ∃ₛ λ (k : Keep). ⌜ IsLookUpStale h id out.new h' k ⌝
        ∗ sem 𝓛 (lies_at the_row full_share at h') ∗ sem 𝓛 (lies_at keep_row full_share keep k) }
{
    let held = unsafe { &mut *(at as *mut TierHandle) };
    let kept = held.lookup_stale(id, out);
    unsafe { std::ptr::write(keep as *mut Keep, kept) };
}

#[unsafe(no_mangle)]
pub unsafe extern "C" fn cache_tier1_read(at: *mut u8, id: u64, out: &mut FoundShown, keep: *mut u8)
    ghost h: { TierHandle }
    requires* { sem 𝓛 (lies_at the_row full_share at h) ∗ sem 𝓛 (room_at keep_row keep) }
    ensures* { ∃ₛ λ (h' : TierHandle). ∃ₛ λ (k : Keep). ⌜ IsRead h id out.new h' k ⌝
        ∗ sem 𝓛 (lies_at the_row full_share at h') ∗ sem 𝓛 (lies_at keep_row full_share keep k) }
{
    let held = unsafe { &mut *(at as *mut TierHandle) };
    let kept = held.read(id, out);
    unsafe { std::ptr::write(keep as *mut Keep, kept) };
}

#[unsafe(no_mangle)]
pub unsafe extern "C" fn cache_tier1_peek(
    at: *mut u8,
    digested: u64,
    key: &[u8],
    out: &mut FoundShown,
    keep: *mut u8,
)
    ghost h: { TierHandle }
    requires* { sem 𝓛 (lies_at the_row full_share at h) ∗ sem 𝓛 (room_at keep_row keep) }
    ensures* { ∃ₛ λ (h' : TierHandle). ∃ₛ λ (k : Keep). ⌜ IsKept h digested key.now out.new h' k ⌝
        ∗ sem 𝓛 (lies_at the_row full_share at h') ∗ sem 𝓛 (lies_at keep_row full_share keep k) }
{
    let held = unsafe { &mut *(at as *mut TierHandle) };
    let kept = held.kept(digested, key, out);
    unsafe { std::ptr::write(keep as *mut Keep, kept) };
}

#[unsafe(no_mangle)]
pub unsafe extern "C" fn cache_tier1_evicted_entry(at: *mut u8, place: u64, out: &mut EntryShown)
    ghost h: { TierHandle }
    requires* { sem 𝓛 (lies_at the_row full_share at h) }
    ensures* { ∃ₛ λ (h' : TierHandle). ⌜ IsEvicted h place out.new h' ⌝ ∗ sem 𝓛 (lies_at the_row full_share at h') }
{
    let held = unsafe { &mut *(at as *mut TierHandle) };
    held.evicted(place, out)
}

#[unsafe(no_mangle)]
pub unsafe extern "C" fn cache_tier1_lru_snapshot(at: *mut u8, shard: u64, out: &mut CallAnswer)
    ghost h: { TierHandle }
    requires* { sem 𝓛 (lies_at the_row full_share at h) }
    ensures* { ∃ₛ λ (h' : TierHandle). ⌜ IsList h shard out.new h' ⌝ ∗ sem 𝓛 (lies_at the_row full_share at h') }
{
    let held = unsafe { &mut *(at as *mut TierHandle) };
    held.list(shard, out)
}

#[unsafe(no_mangle)]
pub unsafe extern "C" fn cache_tier1_lru_entry(at: *mut u8, place: u64, out: &mut EntryShown)
    ghost h: { TierHandle }
    requires* { sem 𝓛 (lies_at the_row full_share at h) }
    ensures* { ∃ₛ λ (h' : TierHandle). ⌜ IsListed h place out.new h' ⌝ ∗ sem 𝓛 (lies_at the_row full_share at h') }
{
    let held = unsafe { &mut *(at as *mut TierHandle) };
    held.listed(place, out)
}

#[unsafe(no_mangle)]
pub unsafe extern "C" fn cache_tier1_lru_save(at: *mut u8, out: &mut CallAnswer)
    ghost h: { TierHandle }
    requires* { sem 𝓛 (lies_at the_row full_share at h) }
    ensures* { ∃ₛ λ (h' : TierHandle). ⌜ IsSave h out.new h' ⌝ ∗ sem 𝓛 (lies_at the_row full_share at h') }
{
    let held = unsafe { &mut *(at as *mut TierHandle) };
    held.save(out)
}

#[unsafe(no_mangle)]
pub unsafe extern "C" fn cache_tier1_lru_file(at: *mut u8, shard: u64, out: &mut FileShown)
    ghost h: { TierHandle }
    requires* { sem 𝓛 (lies_at the_row full_share at h) }
    ensures* { ∃ₛ λ (h' : TierHandle). ⌜ IsFile h shard out.new h' ⌝ ∗ sem 𝓛 (lies_at the_row full_share at h') }
{
    let held = unsafe { &mut *(at as *mut TierHandle) };
    held.file(shard, out)
}

#[unsafe(no_mangle)]
pub unsafe extern "C" fn cache_tier1_lru_load(
    at: *mut u8,
    shard: u64,
    bytes: &[u8],
    out: &mut CallAnswer,
)
    ghost h: { TierHandle }
    requires* { sem 𝓛 (lies_at the_row full_share at h) }
    ensures* { ∃ₛ λ (h' : TierHandle). ⌜ IsHandFile h shard bytes.now out.new h' ⌝ ∗ sem 𝓛 (lies_at the_row full_share at h') }
{
    let held = unsafe { &mut *(at as *mut TierHandle) };
    held.hand_file(shard, bytes, out)
}

#[unsafe(no_mangle)]
pub unsafe extern "C" fn cache_tier1_lru_restore(at: *mut u8, out: &mut CallAnswer)
    ghost h: { TierHandle }
    requires* { sem 𝓛 (lies_at the_row full_share at h) }
    ensures* { ∃ₛ λ (h' : TierHandle). ⌜ IsStart h out.new h' ⌝ ∗ sem 𝓛 (lies_at the_row full_share at h') }
{
    let held = unsafe { &mut *(at as *mut TierHandle) };
    held.start(out)
}

#[unsafe(no_mangle)]
pub unsafe extern "C" fn cache_tier1_get_stats(at: *mut u8, out: &mut Counts)
    ghost h: { TierHandle }
    requires* { sem 𝓛 (lies_at the_row full_share at h) }
    ensures* { ∃ₛ λ (h' : TierHandle). ⌜ IsReported h out.new h' ⌝ ∗ sem 𝓛 (lies_at the_row full_share at h') }
{
    let held = unsafe { &mut *(at as *mut TierHandle) };
    held.report(out)
}

#[unsafe(no_mangle)]
pub unsafe extern "C" fn cache_tier1_weight(at: *mut u8, out: &mut CallAnswer)
    ghost h: { TierHandle }
    requires* { sem 𝓛 (lies_at the_row full_share at h) }
    ensures* { ∃ₛ λ (h' : TierHandle). ⌜ IsWeight h out.new h' ⌝ ∗ sem 𝓛 (lies_at the_row full_share at h') }
{
    let held = unsafe { &mut *(at as *mut TierHandle) };
    held.weight(out)
}
