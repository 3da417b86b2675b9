//! Exports that read a request, begin its exchange, and hand over what a call answered.
ghost use Rattle.std.specs.Prelude.{◌≡◌};
ghost use Rattle.std.specs.Borrow.{full_share, sem};
ghost use Rattle.std.specs.Ptr.{lies_at, room_at};
ghost use Rattle.gateway_calls.specs.Told.{IsRead, IsStarted};
ghost use Rattle.gateway_calls.specs.declared.held.GatewayHandle.{GatewayHandle};
ghost use Rattle.gateway_calls.specs.contracts.held.GatewayHandle.{the_row};
ghost use Rattle.gateway_calls.specs.declared.answers.HeldOut.{HeldOut};
ghost use Rattle.gateway_calls.specs.contracts.answers.HeldOut.{the_row as out_row};
ghost use Rattle.gateway_calls.specs.declared.requests.HeldRequest.{HeldRequest};
ghost use Rattle.gateway_calls.specs.contracts.requests.HeldRequest.{the_row as request_row};

use gateway_calls::answers::{HeldOut, free_out};
use gateway_calls::held::GatewayHandle;
use gateway_calls::requests::{HeldRequest, free_request, parse};
use gateway_calls::structs::{ItemShown, OutShown, RequestShown};
use std::alloc::Global;

#[unsafe(no_mangle)]
pub unsafe extern "C" fn cache_gateway1_parse_request(
    alloc: Global,
    numbers: &rules_ffi_arguments::shapes::OptionNumbers,
    words: &[u8],
    data: &[u8],
    looked: u64,
    out: &mut RequestShown,
    keep: *mut u8,
)
    requires* { sem 𝓛 (room_at request_row keep) }
    ensures* { ∃ₛ λ (q : HeldRequest). ⌜ IsRead out.new q ⌝ ∗ sem 𝓛 (lies_at request_row full_share keep q) }
{
    let read = parse(alloc, numbers, words, data, looked, out);
    unsafe { std::ptr::write(keep as *mut HeldRequest, read) };
}

#[unsafe(no_mangle)]
pub unsafe extern "C" fn cache_gateway1_request_free(keep: *mut u8)
    ghost q: { HeldRequest }
    requires* { sem 𝓛 (lies_at request_row full_share keep q) }
{
    let read = unsafe { std::ptr::read(keep as *mut HeldRequest) };
    free_request(read)
}

#[unsafe(no_mangle)]
pub unsafe extern "C" fn cache_gateway1_start(
    at: *mut u8,
    seconds: u64,
    nanoseconds: u64,
    request: *mut u8,
    peer: &[u8],
    out: &mut OutShown,
    keep: *mut u8,
)
    ghost both: { GatewayHandle × HeldRequest }
    requires* { sem 𝓛 (lies_at the_row full_share at both.0) ∗ (sem 𝓛 (lies_at request_row full_share request both.1) ∗ sem 𝓛 (room_at out_row keep)) }
    ensures* { ∃ₛ λ (h' : GatewayHandle). ∃ₛ λ (k : HeldOut). ⌜ IsStarted both.0 seconds nanoseconds both.1 out.new h' k ⌝
        ∗ sem 𝓛 (lies_at the_row full_share at h') ∗ sem 𝓛 (lies_at out_row full_share keep k) }
{
    let read = unsafe { std::ptr::read(request as *mut HeldRequest) };
    let held = unsafe { &mut *(at as *mut GatewayHandle) };
    let kept = held.start(seconds, nanoseconds, read, peer, out);
    unsafe { std::ptr::write(keep as *mut HeldOut, kept) };
}

#[unsafe(no_mangle)]
pub unsafe extern "C" fn cache_gateway1_out_item(
    keep: *mut u8,
    list: u64,
    index: u64,
    out: &mut ItemShown,
)
    ghost k: { HeldOut }
    requires* { sem 𝓛 (lies_at out_row full_share keep k) }
    ensures* { ∃ₛ λ (k' : HeldOut). ⌜ k' ≡ k ⌝ ∗ sem 𝓛 (lies_at out_row full_share keep k') }
{
    let kept = unsafe { &mut *(keep as *mut HeldOut) };
    kept.item(list, index, out)
}

#[unsafe(no_mangle)]
pub unsafe extern "C" fn cache_gateway1_out_free(keep: *mut u8)
    ghost k: { HeldOut }
    requires* { sem 𝓛 (lies_at out_row full_share keep k) }
{
    let kept = unsafe { std::ptr::read(keep as *mut HeldOut) };
    free_out(kept)
}
