//! What the client is sent next, and how its side ends.
ghost use Rattle.std.specs.Prelude.{◌≡◌, true, false, OnOk};
ghost use Rattle.rules_ffi_arguments.specs.Moments.{nanoseconds_of};
ghost use Rattle.gateway_rows.specs.Bodies.{client_row, is_idle};
ghost use Rattle.gateway_steps.specs.Phases.{is_done, is_sending, is_undecided, lacks_end};
ghost use Rattle.gateway_steps.specs.Questions.{leaving_of};
ghost use Rattle.gateway_steps.specs.Steps.{leaves};
ghost use Rattle.gateway_sides.specs.Answers.{KeepsSides};
ghost use Rattle.gateway.specs.Sends.{IsSent};

use crate::waiting::poll_wait;
use bytes::Bytes;
use gateway_exchanges::exchange::{Exchange, nanoseconds};
use gateway_exchanges::outs::{ClientEnd, OriginAction, Out};
use gateway_responses::origin_body::truncate;
use gateway_rules::moments::Moment;
use gateway_rules::values::NO_ANSWER;
use gateway_sides::origin_side::{fail_origin, is_blocked};
use gateway_sides::parts::{send_buffer, send_parts};
use gateway_sides::tails::leave_write;
use gateway_state::state::Gateway;
use gateway_steps::state::{AnswerEnd, Source};
use gateway_tier::at_tier::release;
use gateway_types::bodies::ClientVerdict;
use rules_ffi_arguments::bad::Bad;
use std::alloc::AllocError;

/// What is due on either side, and what the client is sent.
pub fn poll_exchange(
    g: &mut Gateway,
    e: &mut Exchange,
    now: Moment,
    out: &mut Out,
) -> Result<(), Bad> {
    if e.steps.is_late(nanoseconds(now), &g.timeouts) {
        if e.awaits_head() {
            out.origin = OriginAction::CloseOrigin;
            fail_origin(g, e, now, 504, NO_ANSWER, 0, out)?;
        } else {
            truncate(g, e, out)?;
        }
    }
    if e.is_waiting() {
        poll_wait(g, e, now, out)?;
    }
    send_to_client(g, e, now, out)
}

/// The pieces that are there, and what comes behind them.
pub fn send_to_client(
    g: &mut Gateway,
    e: &mut Exchange,
    now: Moment,
    out: &mut Out,
) -> Result<(), Bad>
    ensures sent { OnOk result (IsSent e.old.steps.state e.new.steps.state) }
    ensures decided { OnOk result (is_undecided e.old.steps.state ≡ false → is_undecided e.new.steps.state ≡ false) }
{
    if e.is_done() {
        return Ok(());
    }
    out.client = ClientEnd::Wait;
    if e.is_waiting() {
        return Ok(());
    }
    send_pieces(g, e, out)?;
    continue_if_taken(g, e, now, out);
    if e.is_awaiting() {
        return Ok(());
    }
    end_if_sent(g, e, out)
}

// What is made for it, and then of what is stored.
fn send_pieces(g: &mut Gateway, e: &mut Exchange, out: &mut Out) -> Result<(), AllocError>
    ensures { KeepsSides e.old.steps.state e.new.steps.state }
{
    send_buffer(g, e, out)?;
    if e.is_sending() && (e.is_from(Source::Body) || e.is_from(Source::Write)) {
        send_parts(g, e, out)?;
    }
    Ok(())
}

// Its client took enough that the origin may go on.
fn continue_if_taken(g: &Gateway, e: &mut Exchange, now: Moment, out: &mut Out)
    ensures { KeepsSides e.old.steps.state e.new.steps.state }
{
    if e.steps.state.origin.blocked && !is_blocked(g, e) {
        e.steps.read_on(nanoseconds(now));
        out.origin = OriginAction::Continue;
    }
}

// Where all of its answer was sent its side ends.
#[tactic(auto, using(crate::proofs::Decided::sending_decided, crate::proofs::Decided::done_decided))]
fn end_if_sent(g: &mut Gateway, e: &mut Exchange, out: &mut Out) -> Result<(), Bad>
    requires { is_sending e.old.steps.state.client.phase ≡ true }
    ensures sent { OnOk result (IsSent e.old.steps.state e.new.steps.state) }
    ensures decided { OnOk result (is_undecided e.new.steps.state ≡ false) }
{
    if e.steps.lacks_end() {
        return Ok(());
    }
    let passed = leave_write(g, e, out);
    let ended = end_client(g, e, out);
    let over = break_off_tail(g, e, out);
    passed?;
    ended?;
    over
}

// Its side ends, by how its answer did.
fn end_client(g: &mut Gateway, e: &mut Exchange, out: &mut Out) -> Result<(), AllocError>
    requires sending { is_sending e.old.steps.state.client.phase ≡ true }
    requires whole { lacks_end e.old.steps.state.client ≡ false }
    ensures { is_done e.new.steps.state.client.phase ≡ true }
{
    let (end, released) = e.steps.end_answer();
    out.client = match end {
        AnswerEnd::GoesOn => return Ok(()),
        AnswerEnd::Truncated => ClientEnd::Truncated,
        AnswerEnd::Close => ClientEnd::Close,
        AnswerEnd::End => ClientEnd::End,
    };
    e.answer.whole = Bytes::new();
    release(g, e, released, out)
}

// What comes past what is stored is for its own client: without that it breaks off.
fn break_off_tail(g: &mut Gateway, e: &mut Exchange, out: &mut Out) -> Result<(), Bad>
    ensures phase { OnOk result (e.new.steps.state.client.phase ≡ e.old.steps.state.client.phase) }
    ensures untailed { e.old.steps.state.origin.tailed ≡ false → e.new.steps.state ≡ e.old.steps.state }
{
    if e.steps.state.origin.tailed && e.is_relaying() {
        return truncate(g, e, out);
    }
    Ok(())
}

/// The client went away.
pub fn leave(g: &mut Gateway, e: &mut Exchange, now: Moment, out: &mut Out) -> Result<(), Bad>
    requires { is_done e.old.steps.state.client.phase ≡ false }
    ensures gone { OnOk result (is_done e.new.steps.state.client.phase ≡ true) }
    ensures untailed { e.old.steps.state.tier.passing ≡ false → e.old.steps.state.origin.tailed ≡ false
        → e.new.steps.state ≡ leaves (client_row (leaving_of e.old.steps.state)) (nanoseconds_of now) e.old.steps.state }
{
    let passed = leave_write(g, e, out);
    let was_blocked = e.steps.state.origin.blocked;
    let dropped = leave_sides(g, e, now, was_blocked, out);
    let over = break_off_tail(g, e, out);
    passed?;
    dropped?;
    over
}

// What becomes of each side.
#[tactic(auto, using(crate::proofs::Ends::leaves_done, crate::proofs::Ends::leaves_tailed))]
fn leave_sides(
    g: &mut Gateway,
    e: &mut Exchange,
    now: Moment,
    was_blocked: bool,
    out: &mut Out,
) -> Result<(), AllocError>
    requires { is_done e.old.steps.state.client.phase ≡ false }
    ensures left { e.new.steps.state ≡ leaves (client_row (leaving_of e.old.steps.state)) (nanoseconds_of now) e.old.steps.state }
    ensures gone { is_done e.new.steps.state.client.phase ≡ true }
    ensures tailed { e.new.steps.state.origin.tailed ≡ e.old.steps.state.origin.tailed }
{
    e.answer.whole = Bytes::new();
    e.taking = None;
    e.answer.buffer.clear();
    let (does, released) = e.steps.leave(nanoseconds(now));
    match does {
        ClientVerdict::CloseOrigin => out.origin = OriginAction::CloseOrigin,
        ClientVerdict::GoesOn if was_blocked => out.origin = OriginAction::Continue,
        ClientVerdict::GoesOn | ClientVerdict::Truncate | ClientVerdict::Nothing => {}
    }
    release(g, e, released, out)
}

/// What was begun without memory to go on is given up: nothing of it stays, and it may be asked anew.
pub fn abandon(g: &mut Gateway, e: &mut Exchange, now: Moment, out: &mut Out) {
    if !e.is_done() {
        let _left = leave(g, e, now, out);
    }
    let _stopped = stop_origin(g, e, out);
    let released = e.steps.end_tailed_write();
    let _dropped = release(g, e, released, out);
}

// Nothing more is asked of the origin, and nothing of it comes.
fn stop_origin(g: &mut Gateway, e: &mut Exchange, out: &mut Out) -> Result<(), AllocError>
    ensures client { e.new.steps.state.client.phase ≡ e.old.steps.state.client.phase }
    ensures idle { is_idle e.new.steps.state.origin.phase ≡ true }
{
    if e.is_idle() {
        return Ok(());
    }
    let released = e.steps.stop(false);
    release(g, e, released, out)
}
