//! Exports about an exchange: what comes on either connection, and what is sent next.
ghost use Rattle.std.specs.Borrow.{full_share, sem};
ghost use Rattle.std.specs.Ptr.{lies_at, room_at};
ghost use Rattle.gateway_steps.specs.declared.state.Call.{Call};
ghost use Rattle.gateway_calls.specs.Told.{IsCallOf, IsClosed};
ghost use Rattle.gateway_calls.specs.declared.held.GatewayHandle.{GatewayHandle};
ghost use Rattle.gateway_calls.specs.contracts.held.GatewayHandle.{the_row};
ghost use Rattle.gateway_calls.specs.declared.answers.HeldOut.{HeldOut};
ghost use Rattle.gateway_calls.specs.contracts.answers.HeldOut.{the_row as out_row};

use gateway_calls::answers::HeldOut;
use gateway_calls::held::GatewayHandle;
use gateway_calls::structs::OutShown;

#[unsafe(no_mangle)]
pub unsafe extern "C" fn cache_gateway1_poll(
    at: *mut u8,
    seconds: u64,
    nanoseconds: u64,
    exchange: u64,
    out: &mut OutShown,
    keep: *mut u8,
)
    ghost h: { GatewayHandle }
    requires* { sem 𝓛 (lies_at the_row full_share at h) ∗ sem 𝓛 (room_at out_row keep) }
    ensures* { ∃ₛ λ (h' : GatewayHandle). ∃ₛ λ (k : HeldOut). ⌜ IsCallOf Call.Poll h seconds nanoseconds exchange out.new h' k ⌝
        ∗ sem 𝓛 (lies_at the_row full_share at h') ∗ sem 𝓛 (lies_at out_row full_share keep k) }
{
    let held = unsafe { &mut *(at as *mut GatewayHandle) };
    let kept = held.poll(seconds, nanoseconds, exchange, out);
    unsafe { std::ptr::write(keep as *mut HeldOut, kept) };
}

#[unsafe(no_mangle)]
pub unsafe extern "C" fn cache_gateway1_client_closed(
    at: *mut u8,
    seconds: u64,
    nanoseconds: u64,
    exchange: u64,
    out: &mut OutShown,
    keep: *mut u8,
)
    ghost h: { GatewayHandle }
    requires* { sem 𝓛 (lies_at the_row full_share at h) ∗ sem 𝓛 (room_at out_row keep) }
    ensures* { ∃ₛ λ (h' : GatewayHandle). ∃ₛ λ (k : HeldOut). ⌜ IsCallOf Call.ClientClosed h seconds nanoseconds exchange out.new h' k ⌝
        ∗ sem 𝓛 (lies_at the_row full_share at h') ∗ sem 𝓛 (lies_at out_row full_share keep k) }
{
    let held = unsafe { &mut *(at as *mut GatewayHandle) };
    let kept = held.client_closed(seconds, nanoseconds, exchange, out);
    unsafe { std::ptr::write(keep as *mut HeldOut, kept) };
}

#[unsafe(no_mangle)]
pub unsafe extern "C" fn cache_gateway1_request_data(
    at: *mut u8,
    seconds: u64,
    nanoseconds: u64,
    exchange: u64,
    data: &[u8],
    out: &mut OutShown,
    keep: *mut u8,
)
    ghost h: { GatewayHandle }
    requires* { sem 𝓛 (lies_at the_row full_share at h) ∗ sem 𝓛 (room_at out_row keep) }
    ensures* { ∃ₛ λ (h' : GatewayHandle). ∃ₛ λ (k : HeldOut). ⌜ IsCallOf Call.RequestData h seconds nanoseconds exchange out.new h' k ⌝
        ∗ sem 𝓛 (lies_at the_row full_share at h') ∗ sem 𝓛 (lies_at out_row full_share keep k) }
{
    let held = unsafe { &mut *(at as *mut GatewayHandle) };
    let kept = held.request_data(seconds, nanoseconds, exchange, data, out);
    unsafe { std::ptr::write(keep as *mut HeldOut, kept) };
}

#[unsafe(no_mangle)]
pub unsafe extern "C" fn cache_gateway1_response_head(
    at: *mut u8,
    seconds: u64,
    nanoseconds: u64,
    exchange: u64,
    data: &[u8],
    out: &mut OutShown,
    keep: *mut u8,
)
    ghost h: { GatewayHandle }
    requires* { sem 𝓛 (lies_at the_row full_share at h) ∗ sem 𝓛 (room_at out_row keep) }
    ensures* { ∃ₛ λ (h' : GatewayHandle). ∃ₛ λ (k : HeldOut). ⌜ IsCallOf Call.ResponseHead h seconds nanoseconds exchange out.new h' k ⌝
        ∗ sem 𝓛 (lies_at the_row full_share at h') ∗ sem 𝓛 (lies_at out_row full_share keep k) }
{
    let held = unsafe { &mut *(at as *mut GatewayHandle) };
    let kept = held.response_head(seconds, nanoseconds, exchange, data, out);
    unsafe { std::ptr::write(keep as *mut HeldOut, kept) };
}

#[unsafe(no_mangle)]
pub unsafe extern "C" fn cache_gateway1_response_data(
    at: *mut u8,
    seconds: u64,
    nanoseconds: u64,
    exchange: u64,
    data: &[u8],
    out: &mut OutShown,
    keep: *mut u8,
)
    ghost h: { GatewayHandle }
    requires* { sem 𝓛 (lies_at the_row full_share at h) ∗ sem 𝓛 (room_at out_row keep) }
    ensures* { ∃ₛ λ (h' : GatewayHandle). ∃ₛ λ (k : HeldOut). ⌜ IsCallOf Call.ResponseData h seconds nanoseconds exchange out.new h' k ⌝
        ∗ sem 𝓛 (lies_at the_row full_share at h') ∗ sem 𝓛 (lies_at out_row full_share keep k) }
{
    let held = unsafe { &mut *(at as *mut GatewayHandle) };
    let kept = held.response_data(seconds, nanoseconds, exchange, data, out);
    unsafe { std::ptr::write(keep as *mut HeldOut, kept) };
}

#[unsafe(no_mangle)]
pub unsafe extern "C" fn cache_gateway1_origin_closed(
    at: *mut u8,
    seconds: u64,
    nanoseconds: u64,
    exchange: u64,
    closed: u64,
    out: &mut OutShown,
    keep: *mut u8,
)
    ghost h: { GatewayHandle }
    requires* { sem 𝓛 (lies_at the_row full_share at h) ∗ sem 𝓛 (room_at out_row keep) }
    ensures* { ∃ₛ λ (h' : GatewayHandle). ∃ₛ λ (k : HeldOut). ⌜ IsClosed h seconds nanoseconds exchange closed out.new h' k ⌝
        ∗ sem 𝓛 (lies_at the_row full_share at h') ∗ sem 𝓛 (lies_at out_row full_share keep k) }
{
    let held = unsafe { &mut *(at as *mut GatewayHandle) };
    let kept = held.origin_closed(seconds, nanoseconds, exchange, closed, out);
    unsafe { std::ptr::write(keep as *mut HeldOut, kept) };
}
