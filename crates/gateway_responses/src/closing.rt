//! How the connection to the origin ended, and what comes of it.
ghost use Rattle.std.specs.Prelude.{◌≡◌, true, false, OnOk};
ghost use Rattle.gateway_rows.specs.Bodies.{closed_row, is_idle};
ghost use Rattle.gateway_steps.specs.Phases.{awaits_answer, has_body_coming};
ghost use Rattle.rules_ffi_arguments.specs.Moments.{nanoseconds_of};
ghost use Rattle.gateway_rules.specs.Values.{is_idempotent, method_of, request_of};
ghost use Rattle.gateway_steps.specs.Questions.{closed_of};
ghost use Rattle.gateway_exchanges.specs.Exchanges.{lacks_bytes_of};
ghost use Rattle.gateway_responses.specs.Bodies.{ComesToRest, IsClosedBy};

use crate::origin_body::{break_off, done_or_broken_off, end_response_body, lacks};
use gateway_exchanges::exchange::{Exchange, Shared, nanoseconds};
use gateway_exchanges::outs::{Event, OriginAction, Out};
use gateway_rules::moments::Moment;
use gateway_rules::values::NO_ANSWER;
use gateway_sides::origin_side::end_failed;
use gateway_state::state::Gateway;
use gateway_steps::state::Released;
use gateway_types::bodies::{ClosedVerdict, Why};
use rules_ffi_arguments::bad::Bad;

/// The origin's connection ended.
pub fn close_origin_side(
    g: &mut Gateway,
    e: &mut Exchange,
    why: Why,
    now: Moment,
    out: &mut Out,
) -> Result<(), Bad>
    requires { is_idle e.old.steps.state.origin.phase ≡ false }
    ensures { OnOk result (IsClosedBy (closed_row (closed_of why (is_idempotent (method_of (request_of e.old.request))) e.old.steps.state)) (nanoseconds_of now) (lacks_bytes_of e.old.x e.old) e.old.steps.state e.new.steps.state) }
{
    let had_permit = e.has_permit();
    let reads = e.reads(e.x);
    let lacked = lacks(e, reads);
    let idempotent = e.request.is_idempotent();
    let (does, released) = e
        .steps
        .close_origin(why, idempotent, nanoseconds(now), reads);
    match does {
        ClosedVerdict::SendAgain => send_again(g, e, out),
        ClosedVerdict::Timeout => fail(g, e, now, 504, had_permit, released, out),
        ClosedVerdict::NoAnswer => fail(g, e, now, 502, had_permit, released, out),
        ClosedVerdict::End => end_with_connection(g, e, out),
        ClosedVerdict::Truncate => break_off_closed(g, e, released, lacked, out),
    }
}

// No response came: who has no answer yet is given one.
fn fail(
    g: &mut Gateway,
    e: &mut Exchange,
    now: Moment,
    code: u64,
    had_permit: bool,
    released: Released,
    out: &mut Out,
) -> Result<(), Bad>
    requires { is_idle e.old.steps.state.origin.phase ≡ true }
    ensures { OnOk result ((is_idle e.new.steps.state.origin.phase ≡ true) × (awaits_answer e.new.steps.state.client.phase ≡ false)) }
{
    end_failed(g, e, now, no_response(code), had_permit, released, out)?;
    out.origin = OriginAction::Nothing;
    Ok(())
}

// The body ended with its connection.
fn end_with_connection(g: &mut Gateway, e: &mut Exchange, out: &mut Out) -> Result<(), Bad>
    requires { has_body_coming e.old.steps.state ≡ true }
    ensures { ComesToRest e.old.steps.state e.new.steps.state }
{
    e.answer.trailers.clear();
    let outcome = match end_response_body(g, e, out) {
        Ok(_is_whole) => Ok(()),
        Err(bad) => Err(bad),
    };
    let outcome = done_or_broken_off(g, e, outcome, out);
    out.origin = OriginAction::Nothing;
    outcome
}

// The body broke off with it.
fn break_off_closed(
    g: &mut Gateway,
    e: &mut Exchange,
    released: Released,
    lacked: bool,
    out: &mut Out,
) -> Result<(), Bad>
    ensures { e.new.steps ≡ e.old.steps }
{
    break_off(g, e, released, lacked, out)?;
    out.origin = OriginAction::Nothing;
    Ok(())
}

fn no_response(code: u64) -> Shared
    ensures { result ≡ record { status = 0; is_response = false; code = code; reason = NO_ANSWER } }
{
    Shared {
        status: 0,
        is_response: false,
        code,
        reason: NO_ANSWER,
    }
}

fn send_again(g: &Gateway, e: &Exchange, out: &mut Out) -> Result<(), Bad> {
    out.origin = OriginAction::SendRequest;
    out.to_origin = Vec::from_slice(g.alloc, e.asks.head.as_slice())?;
    out.tell(Event::Requested {
        fetch: e.fetch(),
        key: e.key,
        leads: e.steps.state.origin.leads,
    })?;
    Ok(())
}
