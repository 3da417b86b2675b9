//! The body of a response: decoded once, and stored, relayed or kept in a tail; how it ends, and how it breaks off.
ghost use Rattle.std.specs.Prelude.{◌≡◌, ◌⊎◌, Bool, true, false, length, MatchOption, OnErr, OnOk, Some};
ghost use Rattle.gateway_rules.specs.Bodies.{Coming, Decoding, body_of, decoded_in, decoding_of};
ghost use Rattle.gateway_rows.specs.Bodies.{end_row, is_idle, is_relaying, is_storing};
ghost use Rattle.gateway_steps.specs.Phases.{has_body_coming};
ghost use Rattle.gateway_steps.specs.Questions.{end_of};
ghost use Rattle.gateway_steps.specs.Steps.{stops};
ghost use Rattle.gateway_types.specs.declared.bodies.EndVerdict.{EndVerdict};
ghost use Rattle.gateway_steps.specs.declared.state.Ending.{Ending};
ghost use Rattle.gateway_exchanges.specs.Exchanges.{lacks_bytes_of};
ghost use Rattle.gateway_responses.specs.Bodies.{breaks_off, growth_of, lacks, tails_ended, ComesToRest, GoesOn, IsEnded, IsReceived};

use crate::taking::{count_written, take_piece};
use bytes::Bytes;
use gateway_exchanges::exchange::Exchange;
use gateway_exchanges::outs::{Event, OriginAction, Out};
use gateway_rules::bodies::Decoded;
use gateway_sides::origin_side::action_at_end;
use gateway_sides::parts::end_relay;
use gateway_sides::tails::end_tail;
use gateway_state::state::Gateway;
use gateway_steps::state::{Ending, Released, Source};
use gateway_tier::at_tier::release;
use gateway_types::bodies::EndVerdict;
use rules_ffi_arguments::bad::Bad;
use std::alloc::AllocError;
use std::mem;

/// Decodes, and stores, relays or keeps in a tail. No bytes are decoded twice, nor lost: where there is no memory, either nothing has happened, or the body
/// breaks off.
pub fn receive_body(
    g: &mut Gateway,
    e: &mut Exchange,
    given: &[u8],
    out: &mut Out,
) -> Result<(), Bad>
    requires { has_body_coming e.old.steps.state ≡ true }
    ensures goes_on { OnOk result (GoesOn e.old.steps.state e.new.steps.state) }
    ensures lacks_memory { OnErr result ((e.new ≡ e.old) ⊎ ComesToRest e.old.steps.state e.new.steps.state) }
{
    let Some(body) = &mut e.asks.body else {
        return Ok(());
    };
    let decoded = g.rules.decoded(body, given)?;
    let left = decoded.used < given.len() as u64;
    let outcome = take_decoded(g, e, decoded, left, out);
    done_or_broken_off(g, e, outcome, out)
}

/// What couldn't be done breaks the body off.
pub(crate) fn done_or_broken_off(
    g: &mut Gateway,
    e: &mut Exchange,
    outcome: Result<(), Bad>,
    out: &mut Out,
) -> Result<(), Bad>
    ensures done { OnOk outcome ((e.new ≡ e.old) × (result ≡ outcome)) }
    ensures broken { OnErr outcome (ComesToRest e.old.steps.state e.new.steps.state) }
{
    let Err(bad) = outcome else {
        return Ok(());
    };
    if e.is_idle() {
        out.origin = OriginAction::CloseOrigin;
        return Err(bad);
    }
    truncate(g, e, out)
}

// What bytes have of a body; `left`: there are more behind them.
fn take_decoded(
    g: &mut Gateway,
    e: &mut Exchange,
    decoded: Decoded,
    left: bool,
    out: &mut Out,
) -> Result<(), Bad>
    requires { has_body_coming e.old.steps.state ≡ true }
    ensures goes_on { GoesOn e.old.steps.state e.new.steps.state }
    ensures received { OnOk result (IsReceived (decoding_of decoded) (growth_of g.old e.old (length decoded.piece.items)) e.old.steps.state e.new.steps.state) }
{
    let Decoded {
        piece,
        used,
        over,
        bad,
    } = decoded;
    let goes_on = piece.is_empty() || take_piece(g, e, piece, out)?;
    if !goes_on || bad != 0 {
        return truncate(g, e, out);
    }
    out.used = out.used.saturating_add(used);
    if e.is_idle() || !over {
        return Ok(());
    }
    take_trailers(g, e);
    if end_response_body(g, e, out)? {
        out.origin = action_at_end(e, true, left);
    }
    Ok(())
}

// They came with its end.
fn take_trailers(g: &Gateway, e: &mut Exchange)
    ensures { e.new.steps ≡ e.old.steps }
{
    if let Some(body) = &mut e.asks.body {
        e.answer.trailers = mem::replace(&mut body.trailers, Vec::new(g.alloc));
    }
}

// ==== how it ends

/// The body is over. Whether it is whole where it was to be.
pub(crate) fn end_response_body(
    g: &mut Gateway,
    e: &mut Exchange,
    out: &mut Out,
) -> Result<bool, Bad>
    requires { has_body_coming e.old.steps.state ≡ true }
    ensures goes_on { GoesOn e.old.steps.state e.new.steps.state }
    ensures rests { OnOk result (ComesToRest e.old.steps.state e.new.steps.state) }
    ensures ended { OnOk result ((refused : Bool) × IsEnded (end_row (end_of refused e.old.steps.state)) e.old.steps.state e.new.steps.state) }
{
    let refused = is_end_refused(g, e, out)?;
    match e.steps.end_verdict(refused) {
        EndVerdict::Truncate => {
            truncate(g, e, out)?;
            return Ok(false);
        }
        EndVerdict::Complete => end_relayed(e, out)?,
        EndVerdict::EndTail => end_kept(g, e, out)?,
        EndVerdict::Finish => finish_write(g, e, out)?,
    }
    Ok(true)
}

// Whether it is stored, and the tier has no memory for its end.
fn is_end_refused(g: &mut Gateway, e: &Exchange, out: &mut Out) -> Result<bool, AllocError> {
    if !e.is_storing() {
        return Ok(false);
    }
    let (done, lacks_memory) = g.write_at(e.x, &Bytes::new(), true, out)?;
    Ok(!done && lacks_memory)
}

// All came that its client gets.
fn end_relayed(e: &mut Exchange, out: &mut Out) -> Result<(), AllocError>
    requires { is_relaying e.old.steps.state.origin.phase ≡ true }
    ensures goes_on { GoesOn e.old.steps.state e.new.steps.state }
    ensures ended { OnOk result (IsEnded EndVerdict.Complete e.old.steps.state e.new.steps.state) }
{
    if e.goes_on() {
        end_relay(e, out)?;
    }
    e.steps.complete();
    Ok(())
}

// All came that is kept for who reads on in a tail.
fn end_kept(g: &mut Gateway, e: &mut Exchange, out: &mut Out) -> Result<(), AllocError>
    requires relaying { is_relaying e.old.steps.state.origin.phase ≡ true }
    requires tailed { e.old.steps.state.origin.tailed ≡ true }
    ensures goes_on { GoesOn e.old.steps.state e.new.steps.state }
    ensures ended { OnOk result (IsEnded EndVerdict.EndTail e.old.steps.state e.new.steps.state) }
    ensures tails { g.new.tails ≡ tails_ended Ending.Whole e.old g.old.tails }
{
    e.steps.end_tail();
    end_tail(g, e, Ending::Whole, out)
}

// All came that is stored. A purge may have taken the write away: the body is whole all the same.
fn finish_write(g: &mut Gateway, e: &mut Exchange, out: &mut Out) -> Result<(), AllocError>
    requires { is_storing e.old.steps.state.origin.phase ≡ true }
    ensures goes_on { GoesOn e.old.steps.state e.new.steps.state }
    ensures ended { OnOk result (IsEnded EndVerdict.Finish e.old.steps.state e.new.steps.state) }
{
    let done = g.finish_at(e.x, out)?;
    let released = e.steps.finish(done);
    let told = tell_completed(e, done, out);
    let counted = count_written(g, e, out);
    release(g, e, released, out)?;
    counted?;
    told
}

fn tell_completed(e: &Exchange, done: bool, out: &mut Out) -> Result<(), AllocError> {
    match e.key {
        Some(key) if done => out.tell(Event::Completed(key)),
        _ => Ok(()),
    }
}

// ==== how it breaks off

/// The body broke off: nobody is told that it ended. Where all that its client gets of it had come, no more is done.
pub fn truncate(g: &mut Gateway, e: &mut Exchange, out: &mut Out) -> Result<(), Bad>
    ensures state { e.new.steps.state ≡ breaks_off (lacks_bytes_of e.old.x e.old) e.old.steps.state }
    ensures tails { is_idle e.old.steps.state.origin.phase ≡ false → g.new.tails ≡ tails_ended Ending.Truncated e.old g.old.tails }
    ensures rests { ComesToRest e.old.steps.state e.new.steps.state }
{
    let reads = e.reads(e.x);
    truncate_for(g, e, reads, out)
}

/// The same; `reads`: its own client lacks bytes of what is stored for it.
pub(crate) fn truncate_for(
    g: &mut Gateway,
    e: &mut Exchange,
    reads: bool,
    out: &mut Out,
) -> Result<(), Bad>
    ensures state { e.new.steps.state ≡ breaks_off reads e.old.steps.state }
    ensures tails { is_idle e.old.steps.state.origin.phase ≡ false → g.new.tails ≡ tails_ended Ending.Truncated e.old g.old.tails }
    ensures rests { ComesToRest e.old.steps.state e.new.steps.state }
{
    out.origin = OriginAction::CloseOrigin;
    if e.is_idle() {
        out.tell(Event::Truncated)?;
        return Ok(());
    }
    let lacked = lacks(e, reads);
    let released = stop(e, reads);
    break_off(g, e, released, lacked, out)?;
    Ok(())
}

// No more comes of what was asked.
fn stop(e: &mut Exchange, reads: bool) -> Released
    requires { is_idle e.old.steps.state.origin.phase ≡ false }
    ensures state { e.new.steps.state ≡ stops reads e.old.steps.state }
    ensures rest { e.new ≡ record e.old { steps = e.new.steps } }
{
    e.steps.stop(reads)
}

/// The body broke off, as its steps say: who reads on in its tail finds that, what it held at the tier ends, and its own client is woken where it lacked
/// bytes. All of that is done also where there is no memory to say who is woken.
pub(crate) fn break_off(
    g: &mut Gateway,
    e: &mut Exchange,
    released: Released,
    lacked: bool,
    out: &mut Out,
) -> Result<(), AllocError>
    ensures steps { e.new.steps ≡ e.old.steps }
    ensures tails { g.new.tails ≡ tails_ended Ending.Truncated e.old g.old.tails }
{
    let told = out.tell(Event::Truncated);
    let woken = if lacked { out.wake(e.x) } else { Ok(()) };
    let ended = end_tail_if_any(g, e, out);
    release(g, e, released, out)?;
    ended?;
    woken?;
    told
}

fn end_tail_if_any(g: &mut Gateway, e: &Exchange, out: &mut Out) -> Result<(), AllocError>
    ensures { g.new ≡ record g.old { tails = tails_ended Ending.Truncated e.now g.old.tails } }
{
    if e.steps.state.origin.tailed {
        end_tail(g, e, Ending::Truncated, out)
    } else {
        Ok(())
    }
}

/// Whether its client lacks bytes of what broke off.
pub(crate) fn lacks(e: &Exchange, reads: bool) -> bool
    ensures { result ≡ lacks reads e.now.steps.state }
{
    e.is_sending() && (e.is_from(Source::Relay) || reads) && e.goes_on()
}
