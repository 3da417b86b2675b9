//! Exports that make a gateway, end it, purge, and count.
ghost use Rattle.std.specs.Borrow.{full_share, sem};
ghost use Rattle.std.specs.Ptr.{lies_at, room_at};
ghost use Rattle.gateway_calls.specs.Told.{IsCounted, IsMade, IsPurge, IsPurgeOfAll, IsStopped};
ghost use Rattle.gateway_calls.specs.declared.held.GatewayHandle.{GatewayHandle};
ghost use Rattle.gateway_calls.specs.declared.answers.HeldOut.{HeldOut};
ghost use Rattle.gateway_calls.specs.contracts.held.GatewayHandle.{the_row};
ghost use Rattle.gateway_calls.specs.contracts.answers.HeldOut.{the_row as out_row};

use gateway_calls::answers::HeldOut;
use gateway_calls::held::{GatewayHandle, end, make};
use gateway_calls::requests::HeldRequest;
use gateway_calls::structs::{GatewayCounts, GatewayOptions, OutShown};
use std::alloc::Global;

#[unsafe(no_mangle)]
pub extern "C" fn cache_gateway1_request_sizeof() -> usize {
    std::mem::size_of::<HeldRequest>()
}

#[unsafe(no_mangle)]
pub extern "C" fn cache_gateway1_out_sizeof() -> usize {
    std::mem::size_of::<HeldOut>()
}

#[unsafe(no_mangle)]
pub extern "C" fn cache_gateway1_sizeof() -> usize {
    std::mem::size_of::<GatewayHandle>().div_ceil(16) * 16
}

#[unsafe(no_mangle)]
pub unsafe extern "C" fn cache_gateway1_init(
    alloc: Global,
    at: *mut u8,
    seconds: u64,
    nanoseconds: u64,
    options: &GatewayOptions,
    numbers: &rules_ffi_arguments::shapes::OptionNumbers,
    words: &[u8],
    secret: &[u8],
    out: &mut GatewayCounts,
)
    requires* { sem 𝓛 (room_at the_row at) }
    ensures* { ∃ₛ λ (h : GatewayHandle). ⌜ IsMade out.new h ⌝ ∗ sem 𝓛 (lies_at the_row full_share at h) }
{
    let held = make(
        alloc,
        seconds,
        nanoseconds,
        options,
        numbers,
        words,
        secret,
        out,
    );
    unsafe { std::ptr::write(at as *mut GatewayHandle, held) };
}

#[unsafe(no_mangle)]
pub unsafe extern "C" fn cache_gateway1_end(at: *mut u8)
    ghost h: { GatewayHandle }
    requires* { sem 𝓛 (lies_at the_row full_share at h) }
{
    let held = unsafe { std::ptr::read(at as *mut GatewayHandle) };
    end(held)
}

#[unsafe(no_mangle)]
pub unsafe extern "C" fn cache_gateway1_purge(
    at: *mut u8,
    url: &[u8],
    out: &mut OutShown,
    keep: *mut u8,
)
    ghost h: { GatewayHandle }
    requires* { sem 𝓛 (lies_at the_row full_share at h) ∗ sem 𝓛 (room_at out_row keep) }
    ensures* { ∃ₛ λ (h' : GatewayHandle). ∃ₛ λ (k : HeldOut). ⌜ IsPurge h out.new h' k ⌝
        ∗ sem 𝓛 (lies_at the_row full_share at h') ∗ sem 𝓛 (lies_at out_row full_share keep k) }
{
    let held = unsafe { &mut *(at as *mut GatewayHandle) };
    let kept = held.purge(url, out);
    unsafe { std::ptr::write(keep as *mut HeldOut, kept) };
}

#[unsafe(no_mangle)]
pub unsafe extern "C" fn cache_gateway1_purge_key(
    at: *mut u8,
    key: &[u8],
    out: &mut OutShown,
    keep: *mut u8,
)
    ghost h: { GatewayHandle }
    requires* { sem 𝓛 (lies_at the_row full_share at h) ∗ sem 𝓛 (room_at out_row keep) }
    ensures* { ∃ₛ λ (h' : GatewayHandle). ∃ₛ λ (k : HeldOut). ⌜ IsPurge h out.new h' k ⌝
        ∗ sem 𝓛 (lies_at the_row full_share at h') ∗ sem 𝓛 (lies_at out_row full_share keep k) }
{
    let held = unsafe { &mut *(at as *mut GatewayHandle) };
    let kept = held.purge_key(key, out);
    unsafe { std::ptr::write(keep as *mut HeldOut, kept) };
}

#[unsafe(no_mangle)]
pub unsafe extern "C" fn cache_gateway1_purge_all(
    at: *mut u8,
    seconds: u64,
    nanoseconds: u64,
    out: &mut OutShown,
    keep: *mut u8,
)
    ghost h: { GatewayHandle }
    requires* { sem 𝓛 (lies_at the_row full_share at h) ∗ sem 𝓛 (room_at out_row keep) }
    ensures* { ∃ₛ λ (h' : GatewayHandle). ∃ₛ λ (k : HeldOut). ⌜ IsPurgeOfAll h seconds nanoseconds out.new h' k ⌝
        ∗ sem 𝓛 (lies_at the_row full_share at h') ∗ sem 𝓛 (lies_at out_row full_share keep k) }
{
    let held = unsafe { &mut *(at as *mut GatewayHandle) };
    let kept = held.purge_all(seconds, nanoseconds, out);
    unsafe { std::ptr::write(keep as *mut HeldOut, kept) };
}

#[unsafe(no_mangle)]
pub unsafe extern "C" fn cache_gateway1_stop(at: *mut u8)
    ghost h: { GatewayHandle }
    requires* { sem 𝓛 (lies_at the_row full_share at h) }
    ensures* { ∃ₛ λ (h' : GatewayHandle). ⌜ IsStopped h h' ⌝ ∗ sem 𝓛 (lies_at the_row full_share at h') }
{
    let held = unsafe { &mut *(at as *mut GatewayHandle) };
    held.stop()
}

#[unsafe(no_mangle)]
pub unsafe extern "C" fn cache_gateway1_get_counts(at: *mut u8, out: &mut GatewayCounts)
    ghost h: { GatewayHandle }
    requires* { sem 𝓛 (lies_at the_row full_share at h) }
    ensures* { ∃ₛ λ (h' : GatewayHandle). ⌜ IsCounted h h' out.new ⌝ ∗ sem 𝓛 (lies_at the_row full_share at h') }
{
    let held = unsafe { &mut *(at as *mut GatewayHandle) };
    held.counts(out)
}
