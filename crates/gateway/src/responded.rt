//! What comes from the origin.
ghost use Rattle.std.specs.Prelude.{◌≡◌, true, IfOk};
ghost use Rattle.gateway_rows.specs.Bodies.{is_awaiting};
ghost use Rattle.gateway_steps.specs.Phases.{has_body_coming};
ghost use Rattle.gateway.specs.Calls.{is_taken};

use gateway_exchanges::exchange::{Exchange, nanoseconds};
use gateway_exchanges::outs::{OriginAction, Out, Status};
use gateway_responses::origin_body::receive_body;
use gateway_responses::origin_head::receive_head;
use gateway_rules::moments::Moment;
use gateway_sides::origin_side::is_blocked;
use gateway_state::state::Gateway;
use rules_ffi::reading::head_end;
use rules_ffi_arguments::bad::Bad;

/// Bytes from a response's head on. How it ended: whether they were taken, and whether more are needed.
pub fn take_head(
    g: &mut Gateway,
    e: &mut Exchange,
    now: Moment,
    bytes: &[u8],
    out: &mut Out,
) -> Result<Status, Bad>
    requires { is_awaiting e.old.steps.state.origin.phase ≡ true }
    ensures { IfOk result (λ status. is_taken status ≡ true) }
{
    if is_blocked(g, e) {
        e.steps.block();
        return Ok(Status::Blocked);
    }
    if bytes.is_empty() {
        return Ok(Status::More);
    }
    e.steps.hear_head(nanoseconds(now));
    let is_short = bytes.len() as u64 <= g.rules.max_head_bytes();
    if head_end(bytes, e.asks.looked) == 0 && is_short {
        e.asks.looked = bytes.len() as u64;
        return Ok(Status::More);
    }
    e.asks.looked = 0;
    receive_head(g, e, now, bytes, out)?;
    if e.is_storing() || e.is_relaying() {
        out.origin = OriginAction::ReceiveBody;
    }
    if out.origin == OriginAction::Reusable && out.used < bytes.len() as u64 {
        // More than a response came.
        out.origin = OriginAction::CloseOrigin;
    }
    Ok(Status::Done)
}

/// Bytes of its body. How it ended: whether they were taken.
pub fn take_body(
    g: &mut Gateway,
    e: &mut Exchange,
    now: Moment,
    bytes: &[u8],
    out: &mut Out,
) -> Result<Status, Bad>
    requires { has_body_coming e.old.steps.state ≡ true }
    ensures { IfOk result (λ status. is_taken status ≡ true) }
{
    if is_blocked(g, e) {
        e.steps.block();
        return Ok(Status::Blocked);
    }
    e.steps.hear_body(nanoseconds(now));
    receive_body(g, e, bytes, out)?;
    Ok(Status::Done)
}
