//! What comes of a body past what is stored of it: how its tail begins, grows and ends, and who has passed what was stored.
ghost use Rattle.std.specs.Prelude.{◌≡◌, ◌==◌, ◌&&◌, if◌then◌else◌, IfSome, MatchBool, MatchOption, OnOk, OnErr, unwrap_or, true, false};
ghost use Rattle.std.specs.FinMap.{insert};
ghost use Rattle.gateway_rows.specs.Bodies.{is_storing};
ghost use Rattle.gateway_steps.specs.Phases.{reads_write};
ghost use Rattle.gateway_steps.specs.Steps.{begins_tail, ends_tailed_write, passes_stored, release_by_last};
ghost use Rattle.gateway_exchanges.specs.Frames.{HasSameButWakes};
ghost use Rattle.gateway_exchanges.specs.Replies.{reply_of};
ghost use Rattle.gateway_exchanges.specs.Tails.{ended, is_last_reader, new_tail, passed, tail_at, taken, with_change};
ghost use Rattle.gateway_state.specs.Frames.{HasSameButPredicted};
ghost use Rattle.gateway_tier.specs.Releases.{Releases};
ghost use Rattle.gateway_tier.specs.Roles.{readers_of, with_wakes};
ghost use Rattle.gateway_sides.specs.Parts.{HasSameButPassed, HasSameButRead};
ghost use Rattle.gateway_sides.specs.Tails.{BeginsTail, HidesWrites, IsWriteEnded, JoinsReaders, flying_after, kept_of, passes, state_at, state_passed, tails_left, tails_passed};

use crate::origin_side::predict_unstored;
use cache_words::key::HashBinary;
use gateway_exchanges::exchange::Exchange;
use gateway_exchanges::outs::Out;
use gateway_rules::moments::Moment;
use gateway_state::state::Gateway;
use gateway_steps::state::Ending;
use gateway_tier::at_tier::{count_flying, release};
use gateway_tier::notices::{Notice, purge_writes, tell_all};
use gateway_tier::waking::{count_readers, wake_readers};
use std::alloc::AllocError;

/// What is stored of its body is all that will be: nobody finds it any more, and who reads it goes on in a tail once that is passed. Where the body grew too
/// long to be stored, the next response of its key isn't stored either. It takes what it needs before it changes anything else.
pub fn begin_tail(
    g: &mut Gateway,
    e: &mut Exchange,
    is_long: bool,
    now: Moment,
) -> Result<(), AllocError>
    requires storing { is_storing e.old.steps.state.origin.phase ≡ true }
    requires reads { reads_write e.old.steps.state.client ≡ true }
    ensures state { OnOk result (e.new.steps.state ≡ begins_tail e.old.steps.state) }
    ensures counted { OnOk result (e.new.asks.flying ≡ e.old.steps.state.origin.size) }
    ensures rest { e.new ≡ record e.old { steps = e.new.steps; asks = record e.old.asks { flying = e.new.asks.flying } } }
    ensures err { OnErr result (e.new ≡ e.old) }
    ensures begun { OnOk result (BeginsTail e.old g.old g.new) }
    ensures unchanged { OnErr result (HasSameButPredicted g.old g.new) }
    ensures gateway { g.new ≡ record g.old { tier = g.new.tier; table = g.new.table; tails = g.new.tails; predicted = g.new.predicted; flying = g.new.flying } }
{
    start_tail(g, e, is_long, now)?;
    join_all(g, e);
    let size = e.steps.state.origin.size;
    e.steps.begin_tail();
    count_flying(g, e, size);
    Ok(())
}

// A tail behind what is stored, as far as that came.
fn start_tail(g: &mut Gateway, e: &Exchange, is_long: bool, now: Moment) -> Result<(), AllocError>
    ensures ok { OnOk result (g.new ≡ record g.old { predicted = g.new.predicted; tails = insert g.old.tails e.now.x (new_tail e.now.steps.state.origin.size) }) }
    ensures err { OnErr result (HasSameButPredicted g.old g.new) }
{
    predict_long(g, e, is_long, now)?;
    g.tails.begin(e.x, e.steps.state.origin.size)
}

fn predict_long(g: &mut Gateway, e: &Exchange, is_long: bool, now: Moment) -> Result<(), AllocError>
    ensures { HasSameButPredicted g.old g.new }
{
    match &e.key {
        Some(key) if is_long => predict_unstored(g, key, now),
        _ => Ok(()),
    }
}

fn join_all(g: &mut Gateway, e: &Exchange)
    ensures joins { MatchOption e.now.key (g.new ≡ g.old) (λ key. JoinsReaders e.now key g.old g.new) }
    ensures rest { g.new ≡ record g.old { tier = g.new.tier; table = g.new.table; tails = g.new.tails } }
{
    if let Some(key) = &e.key {
        join_readers(g, e, key);
    }
}

// Who reads what it writes goes on in its tail, and nobody else finds that.
fn join_readers(g: &mut Gateway, e: &Exchange, key: &HashBinary)
    ensures joins { JoinsReaders e.now key.now g.old g.new }
    ensures rest { g.new ≡ record g.old { tier = g.new.tier; table = g.new.table; tails = g.new.tails } }
{
    hide_own(g, e, key);
    let readers = count_readers(g, e.x, key);
    tell_all(g, key, &Notice::TailBegun(e.x));
    g.tails.join(e.x, readers);
}

fn hide_own(g: &mut Gateway, e: &Exchange, key: &HashBinary)
    ensures hides { MatchBool e.now.steps.state.tier.joinable (HidesWrites key.now g.old g.new) (g.new ≡ g.old) }
    ensures rest { g.new ≡ record g.old { tier = g.new.tier; table = g.new.table } }
{
    if e.is_joinable() {
        purge_writes(g, key);
    }
}

/// The next bytes of a body go into its tail, in which what its own client has taken is kept up to a bound. Who reads it is woken.
pub fn take_into_tail(
    g: &mut Gateway,
    e: &Exchange,
    piece: &[u8],
    out: &mut Out,
) -> Result<(), AllocError>
    ensures taken { OnOk result (g.new.tails ≡ with_change e.now.x (taken piece.now (unwrap_or e.now.answer.place 0) g.old.limits.max_tail) g.old.tails) }
    ensures counted { OnOk result (g.new ≡ record g.old { tails = g.new.tails; flying = flying_after e.now.x g.new.tails g.old }) }
    ensures unchanged { OnErr result (g.new ≡ g.old) }
    ensures woken { OnOk result (reply_of out.new ≡ with_wakes (readers_of e.now g.old.table) (reply_of out.old)) }
    ensures reply { HasSameButWakes out.old out.new }
{
    wake_readers(g, e, out)?;
    let place = e.answer.place.unwrap_or(0);
    let before = kept_of(g, e.x);
    g.tails.take(e.x, piece, place, g.limits.max_tail)?;
    let after = kept_of(g, e.x);
    g.flying = g.flying.saturating_sub(before).saturating_add(after);
    Ok(())
}

// How many bytes the tail of an exchange keeps.
fn kept_of(g: &Gateway, x: u64) -> u64
    ensures { result ≡ kept_of x g.now.tails }
{
    match g.tails.get(x) {
        Some(tail) => tail.bytes.len() as u64,
        None => 0,
    }
}

/// No more comes of a body: it is whole, or broke off. Who reads it is woken.
pub fn end_tail(
    g: &mut Gateway,
    e: &Exchange,
    ending: Ending,
    out: &mut Out,
) -> Result<(), AllocError>
    ensures ended { g.new ≡ record g.old { tails = with_change e.now.x (ended ending) g.old.tails } }
    ensures woken { OnOk result (reply_of out.new ≡ with_wakes (readers_of e.now g.old.table) (reply_of out.old)) }
    ensures reply { HasSameButWakes out.old out.new }
{
    g.tails.end(e.x, ending);
    wake_readers(g, e, out)
}

/// Its client is sent no more of what is, or was, being stored: it has passed what is stored of a body that grew too long, and goes on in its tail no more.
pub fn leave_write(g: &mut Gateway, e: &mut Exchange, out: &mut Out) -> Result<(), AllocError>
    ensures state { e.new.steps.state ≡ state_passed e.old g.old.tails }
    ensures tier { HasSameButPassed e.old.steps.state e.new.steps.state }
    ensures rest { e.new ≡ record e.old { steps = e.new.steps; asks = record e.old.asks { flying = e.new.asks.flying } } }
    ensures client { e.new.steps.state.client ≡ e.old.steps.state.client }
    ensures origin { e.new.steps.state.origin ≡ e.old.steps.state.origin }
    ensures kept { e.old.steps.state.tier.passing ≡ false → e.new.steps ≡ e.old.steps }
    ensures left { g.new.tails ≡ tails_left e.old (tails_passed e.old g.old.tails) }
    ensures gateway { HasSameButRead g.old g.new }
    ensures reply { HasSameButWakes out.old out.new }
{
    let passed = pass_stored(g, e, out);
    leave_tail(g, e);
    passed
}

// A tail goes with the last who has it.
fn leave_tail(g: &mut Gateway, e: &Exchange)
    ensures left { g.new.tails ≡ tails_left e.now g.old.tails }
    ensures rest { g.new ≡ record g.old { tails = g.new.tails; flying = g.new.flying } }
{
    if let (Some(writer), true) = (e.steps.state.tier.writer, e.steps.state.tier.tailed) {
        let gone = g.tails.leave(writer);
        g.flying = g.flying.saturating_sub(gone);
    }
}

/// It has passed what is stored of a body that grew too long, if it was to: its request at the tier ends, and with the last one the write there.
pub(crate) fn pass_stored(
    g: &mut Gateway,
    e: &mut Exchange,
    out: &mut Out,
) -> Result<(), AllocError>
    ensures state { e.new.steps.state ≡ state_passed e.old g.old.tails }
    ensures tier { HasSameButPassed e.old.steps.state e.new.steps.state }
    ensures rest { e.new ≡ record e.old { steps = e.new.steps; asks = record e.old.asks { flying = e.new.asks.flying } } }
    ensures client { e.new.steps.state.client ≡ e.old.steps.state.client }
    ensures origin { e.new.steps.state.origin ≡ e.old.steps.state.origin }
    ensures kept { e.old.steps.state.tier.passing ≡ false → e.new.steps ≡ e.old.steps }
    ensures passed { g.new.tails ≡ tails_passed e.old g.old.tails }
    ensures gateway { HasSameButRead g.old g.new }
    ensures reply { HasSameButWakes out.old out.new }
{
    match passes(e) {
        Some(writer) => pass_at(g, e, writer, out),
        None => Ok(()),
    }
}

// Whose write it reads on from, where it is yet to pass that.
fn passes(e: &Exchange) -> Option<u64>
    ensures value { result ≡ passes e.now }
    ensures passing { IfSome result (λ writer. e.now.steps.state.tier.passing ≡ true) }
{
    if e.steps.state.tier.passing {
        e.steps.state.tier.writer
    } else {
        None
    }
}

// It passes what that exchange stored.
fn pass_at(g: &mut Gateway, e: &mut Exchange, writer: u64, out: &mut Out) -> Result<(), AllocError>
    requires { e.old.steps.state.tier.passing ≡ true }
    ensures state { e.new.steps.state ≡ state_at (is_last_reader (tail_at writer g.old.tails) && (writer == e.old.x)) e.old.steps.state }
    ensures tier { HasSameButPassed e.old.steps.state e.new.steps.state }
    ensures rest { e.new ≡ record e.old { steps = e.new.steps; asks = record e.old.asks { flying = e.new.asks.flying } } }
    ensures client { e.new.steps.state.client ≡ e.old.steps.state.client }
    ensures origin { e.new.steps.state.origin ≡ e.old.steps.state.origin }
    ensures passed { g.new.tails ≡ with_change writer passed g.old.tails }
    ensures gateway { HasSameButRead g.old g.new }
    ensures reply { HasSameButWakes out.old out.new }
{
    let released = release_passed(g, e, out);
    let ended = end_if_last(g, e, writer, out);
    both(released, ended)
}

fn both(first: Result<(), AllocError>, second: Result<(), AllocError>) -> Result<(), AllocError> {
    match first {
        Ok(()) => second,
        Err(lack) => Err(lack),
    }
}

fn release_passed(g: &mut Gateway, e: &mut Exchange, out: &mut Out) -> Result<(), AllocError>
    requires { e.old.steps.state.tier.passing ≡ true }
    ensures state { e.new.steps.state ≡ passes_stored e.old.steps.state }
    ensures rest { e.new ≡ record e.old { steps = e.new.steps; asks = record e.old.asks { flying = e.new.asks.flying } } }
    ensures gateway { g.new ≡ record g.old { tier = g.new.tier; flying = g.new.flying } }
    ensures reply { HasSameButWakes out.old out.new }
{
    let released = e.steps.pass_stored();
    release(g, e, released, out)
}

// With the last who reads there, what is stored ends.
fn end_if_last(
    g: &mut Gateway,
    e: &mut Exchange,
    writer: u64,
    out: &mut Out,
) -> Result<(), AllocError>
    ensures state { e.new.steps.state ≡ (if is_last_reader (tail_at writer g.old.tails) && (writer == e.old.x) then ends_tailed_write e.old.steps.state else e.old.steps.state) }
    ensures rest { e.new ≡ record e.old { steps = e.new.steps; asks = record e.old.asks { flying = e.new.asks.flying } } }
    ensures passed { g.new.tails ≡ with_change writer passed g.old.tails }
    ensures gateway { HasSameButRead g.old g.new }
    ensures reply { HasSameButWakes out.old out.new }
{
    if g.tails.pass(writer) {
        end_stored(g, e, writer, out)
    } else {
        Ok(())
    }
}

// All have passed what that exchange stored: its request at the tier ends.
fn end_stored(
    g: &mut Gateway,
    e: &mut Exchange,
    writer: u64,
    out: &mut Out,
) -> Result<(), AllocError>
    ensures state { e.new.steps.state ≡ (if writer == e.old.x then ends_tailed_write e.old.steps.state else e.old.steps.state) }
    ensures rest { e.new ≡ record e.old { steps = e.new.steps; asks = record e.old.asks { flying = e.new.asks.flying } } }
    ensures gateway { g.new ≡ record g.old { tier = g.new.tier; table = g.new.table; flying = g.new.flying } }
    ensures reply { HasSameButWakes out.old out.new }
{
    if writer == e.x {
        end_own(g, e, out)
    } else {
        end_other(g, writer, out)
    }
}

fn end_own(g: &mut Gateway, e: &mut Exchange, out: &mut Out) -> Result<(), AllocError>
    ensures ended { IsWriteEnded e.old e.new }
    ensures released { Releases (release_by_last e.old.steps.state) e.old g.old g.new }
    ensures reply { HasSameButWakes out.old out.new }
{
    let released = e.steps.end_tailed_write();
    release(g, e, released, out)
}

// The same of another exchange: where nothing else went on for it, it is forgotten.
fn end_other(g: &mut Gateway, writer: u64, out: &mut Out) -> Result<(), AllocError>
    ensures gateway { g.new ≡ record g.old { tier = g.new.tier; table = g.new.table; flying = g.new.flying } }
    ensures reply { HasSameButWakes out.old out.new }
{
    let Some(mut e) = g.table.take(writer) else {
        return Ok(());
    };
    let ended = end_own(g, &mut e, out);
    if e.steps.is_over() {
        g.table.forget(e.x, e.first, e.key);
    } else {
        g.table.put_back(e);
    }
    ended
}
