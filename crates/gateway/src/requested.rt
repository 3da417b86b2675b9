//! A client's request: how it begins, and its body.
ghost use Rattle.std.specs.Prelude.{◌≡◌, true, false, is_some, IfOk, OnOk, option_map};
ghost use Rattle.rules_ffi_arguments.specs.Moments.{nanoseconds_of};
ghost use Rattle.gateway_rules.specs.Bodies.{body_of, decoding_of};
ghost use Rattle.gateway_steps.specs.Phases.{is_undecided};
ghost use Rattle.gateway.specs.Requested.{text_to_origin, ForwardsBody};

use crate::lookups::begin_exchange;
use crate::sending::send_to_client;
use crate::waiting::poll_wait;
use gateway_exchanges::exchange::{Exchange, nanoseconds};
use gateway_exchanges::outs::{OriginAction, Out};
use gateway_frames::chunks::{Framing, add_end, add_framed};
use gateway_rules::bodies::Decoded;
use gateway_rules::moments::Moment;
use gateway_rules::values::CHUNKED;
use gateway_sides::client_side::generate;
use gateway_sides::tails::end_tail;
use gateway_state::state::Gateway;
use gateway_steps::state::{Ending, Source};
use gateway_tier::at_tier::release;
use rules_ffi_arguments::bad::Bad;
use std::alloc::AllocError;

/// It begins, and what its client is sent at once.
pub fn start_exchange(
    g: &mut Gateway,
    e: &mut Exchange,
    now: Moment,
    out: &mut Out,
) -> Result<(), Bad>
    requires undecided { is_undecided e.old.steps.state ≡ true }
    requires without { is_some e.old.steps.state.tier.permit ≡ false }
    ensures { OnOk result (is_undecided e.new.steps.state ≡ false) }
{
    begin_exchange(g, e, now, out)?;
    if e.is_waiting() {
        poll_wait(g, e, now, out)?;
    }
    send_to_client(g, e, now, out)?;
    out.body_follows = e.taking.is_some();
    Ok(())
}

/// Bytes of its body came.
pub fn take_request_body(
    g: &mut Gateway,
    e: &mut Exchange,
    now: Moment,
    bytes: &[u8],
    out: &mut Out,
) -> Result<(), Bad>
    requires { e.old.steps.state.client.owes_body ≡ true }
{
    let Some(body) = &mut e.taking else {
        return Ok(());
    };
    let found = g.rules.decoded(body, bytes)?;
    if found.bad != 0 {
        return bad_body(g, e, now, found.bad, out);
    }
    forward_body(g, e, now, &found, out)
}

// What was read of it goes to the origin, where that wants it.
fn forward_body(
    g: &Gateway,
    e: &mut Exchange,
    now: Moment,
    found: &Decoded,
    out: &mut Out,
) -> Result<(), Bad>
    requires { e.old.steps.state.client.owes_body ≡ true }
    ensures { OnOk result (ForwardsBody (nanoseconds_of now) (decoding_of found.now) (option_map body_of e.old.taking) e.old e.new out.old out.new) }
{
    let text = framed_piece(g, e, found)?;
    if found.over {
        e.taking = None;
    }
    out.used = found.used;
    out.last = found.over;
    let has_bytes = !text.is_empty();
    if e.steps
        .forward_body(nanoseconds(now), has_bytes, found.over)
    {
        out.origin = OriginAction::SendData;
        out.to_origin = text;
    }
    Ok(())
}

// A request's body goes to the origin as it comes, framed.
fn framed_piece(g: &Gateway, e: &Exchange, found: &Decoded) -> Result<Vec<u8>, AllocError>
    ensures { IfOk result (λ text. text.items ≡ text_to_origin e.now.taking_framing (decoding_of found.now)) }
{
    let framing = if e.taking_framing == CHUNKED {
        Framing::Chunked
    } else {
        Framing::Length
    };
    let mut text = Vec::new(g.alloc);
    add_framed(&mut text, framing, found.piece.as_slice())?;
    if found.over {
        add_end(&mut text, framing, &[])?;
    }
    Ok(text)
}

// Where the rest of what is stored for it still comes, nobody gets more of that.
fn break_off_tail(g: &mut Gateway, e: &Exchange, out: &mut Out) -> Result<(), AllocError> {
    if e.steps.state.origin.tailed && e.is_relaying() {
        return end_tail(g, e, Ending::Truncated, out);
    }
    Ok(())
}

// A request's body that doesn't read: the origin's side is given up, and the connection ends.
fn bad_body(
    g: &mut Gateway,
    e: &mut Exchange,
    now: Moment,
    reason: u64,
    out: &mut Out,
) -> Result<(), Bad>
    requires { e.old.steps.state.client.owes_body ≡ true }
{
    e.taking = None;
    out.last = true;
    if !e.is_idle() {
        out.origin = OriginAction::CloseOrigin;
    }
    break_off_tail(g, e, out)?;
    let breaks = e.is_sending() && e.is_from(Source::Relay) && e.goes_on();
    let reads = e.reads(e.x);
    let released = e.steps.break_request(reads);
    release(g, e, released, out)?;
    if e.is_awaiting() {
        return generate(g, e, 400, reason, now, out);
    }
    if breaks {
        out.wake(e.x)?;
    }
    Ok(())
}
