//! The head of a response: read, and what its row says.
ghost use Rattle.std.specs.Prelude.{◌≡◌, ℕ, true, false, is_some, OnOk, Result};
ghost use Rattle.gateway_rules.specs.Options.{options_of};
ghost use Rattle.gateway_rules.specs.Values.{Came};
ghost use Rattle.gateway_rows.specs.Bodies.{is_awaiting, is_idle};
ghost use Rattle.gateway_exchanges.specs.Exchanges.{old_of};
ghost use Rattle.gateway_steps.specs.Phases.{is_stored_fetch};
ghost use Rattle.gateway_types.specs.declared.responses.ResponseVerdict.{ResponseVerdict};
ghost use Rattle.gateway_responses.specs.Responses.{is_stale, stores_nothing, IsOver, IsResponded};
ghost use Rattle.gateway_rows.specs.Responses.{response_row};
ghost use Rattle.gateway_responses.specs.Heads.{came_at, times_of, IsFinal, IsHeard, IsInterim, IsRead, IsHeadTaken};

use crate::confirming::revalidate;
use crate::handing::{relay, relay_and_purge, relay_unstored, serve_stale_instead, store};
use crate::heard::{Known, Lesson, is_kept, known_of, lesson_of};
use gateway_exchanges::exchange::Exchange;
use gateway_exchanges::outs::{OriginAction, Out};
use gateway_rows::responses::response_row;
use gateway_rules::moments::{Moment, moment_at};
use gateway_rules::responses::Times;
use gateway_rules::values::{
    CLOSE, NOT_MODIFIED, PREDICTED, Read, ResponseHead, STORED_IS_GOOD, StoreDecision,
    TOO_MANY_INTERIM, forwarded, hit, text_of,
};
use gateway_sides::origin_side::{fail_origin, predict_unstored};
use gateway_state::state::Gateway;
use gateway_steps::state::HeadFraming;
use gateway_tier::writing::begin_write;
use gateway_types::responses::ResponseVerdict;
use rules_ffi_arguments::bad::Bad;
use rules_ffi_arguments::shapes::How;

// When a head began to come.
fn came_at(e: &Exchange, now: Moment) -> Moment
    ensures { result ≡ came_at e.now.steps.state now }
{
    match e.steps.state.origin.came {
        Some(came) => moment_at(came),
        None => now,
    }
}

/// A response's head came.
pub fn receive_head(
    g: &mut Gateway,
    e: &mut Exchange,
    now: Moment,
    bytes: &[u8],
    out: &mut Out,
) -> Result<(), Bad>
    requires { is_awaiting e.old.steps.state.origin.phase ≡ true }
    ensures { OnOk result ((read : Result Came ℕ) × IsRead (options_of g.old.rules) e.old now bytes.now read
        × IsHeard g.old (times_of e.old.steps.state now) read e.old e.new) }
{
    let came = came_at(e, now);
    match g.rules.parse_response(e.asks.is_head, came, bytes)? {
        Read::Refused(reason) => refuse_response(g, e, now, reason, out),
        Read::Head(response) => {
            let asked = moment_at(e.steps.state.origin.asked);
            take_response(g, e, &response, Times { asked, came }, now, out)
        }
    }
}

// It is no answer: the connection is closed.
fn refuse_response(
    g: &mut Gateway,
    e: &mut Exchange,
    now: Moment,
    reason: u64,
    out: &mut Out,
) -> Result<(), Bad>
    requires { is_awaiting e.old.steps.state.origin.phase ≡ true }
    ensures { OnOk result (IsOver e.new.steps.state) }
{
    out.origin = OriginAction::CloseOrigin;
    fail_origin(g, e, now, 502, reason, 502, out)
}

fn take_response(
    g: &mut Gateway,
    e: &mut Exchange,
    response: &ResponseHead,
    times: Times,
    now: Moment,
    out: &mut Out,
) -> Result<(), Bad>
    requires { is_awaiting e.old.steps.state.origin.phase ≡ true }
    ensures { OnOk result (IsHeadTaken g.old response.now times e.old e.new) }
{
    out.used = response.shape.used;
    if response.status_code() < 200 {
        return receive_interim(g, e, response, times, now, out);
    }
    let shape = &response.shape;
    e.asks.body = Some(g.rules.decoder(shape.framing, shape.length));
    e.steps.take_head(&HeadFraming {
        close_delimited: shape.framing == CLOSE,
        reusable: !response.closes(),
        length: response.length(),
    });
    take_final(g, e, response, times, now, out)
}

fn receive_interim(
    g: &mut Gateway,
    e: &mut Exchange,
    response: &ResponseHead,
    times: Times,
    now: Moment,
    out: &mut Out,
) -> Result<(), Bad>
    requires { is_awaiting e.old.steps.state.origin.phase ≡ true }
    ensures { OnOk result (IsInterim e.old.steps.state e.new.steps.state) }
{
    let count = e.asks.interims.saturating_add(1);
    if count > g.limits.max_interim_responses {
        return refuse_response(g, e, now, TOO_MANY_INTERIM, out);
    }
    if e.is_awaiting() && response.status_code() != 100 && e.request.shape.minor == 1 {
        let made = g.rules.relay_response(&e.request, response, times, &hit())?;
        out.wake(e.x)?;
        e.answer
            .buffer
            .extend_from_slice(text_of(made.text.as_slice(), made.head))?;
    }
    e.steps.take_interim();
    e.asks.interims = count;
    Ok(())
}

// What is known of it is told, and teaches; then its row says what is done.
fn take_final(
    g: &mut Gateway,
    e: &mut Exchange,
    response: &ResponseHead,
    times: Times,
    now: Moment,
    out: &mut Out,
) -> Result<(), Bad>
    requires { is_awaiting e.old.steps.state.origin.phase ≡ true }
    ensures { OnOk result (IsFinal g.old e.old response.now times e.new) }
{
    let known = known_of(g, e, response, times, now)?;
    e.asks.storable = is_kept(&known.kept);
    learn(
        g,
        e,
        &known.kept,
        known.too_long,
        response.status_code(),
        now,
    )?;
    respond(g, e, response, times, known, now, out)
}

// By its row.
fn respond(
    g: &mut Gateway,
    e: &mut Exchange,
    response: &ResponseHead,
    times: Times,
    known: Known,
    now: Moment,
    out: &mut Out,
) -> Result<(), Bad>
    requires awaited { is_awaiting e.old.steps.state.origin.phase ≡ true }
    requires fetch { known.heard.fetch ≡ e.old.steps.state.origin.fetch }
    requires judged { is_some known.kept ≡ false → stores_nothing (response_row known.heard) ≡ true }
    requires stale { known.heard.stale_answers ≡ true → is_some (old_of e.old) ≡ true }
    ensures { OnOk result (IsResponded (response_row known.heard) e.old.steps.state e.new.steps.state) }
{
    let Known {
        heard,
        kept,
        too_long,
    } = known;
    let how = forwarded(e.asks.cause, response.status_code());
    match (response_row(&heard), kept) {
        (ResponseVerdict::Store, Some(kept)) => {
            store_or_relay(g, e, response, times, &kept, too_long, now, how, out)
        }
        (ResponseVerdict::RelayAndRemove, Some(kept)) => {
            relay_unstored(g, e, response, times, &kept, too_long, how, out)
        }
        (does, _) => answer_by_verdict(g, e, response, times, does, now, how, out),
    }
}

// It is stored; where the tier has no room for it it goes to its client alone.
fn store_or_relay(
    g: &mut Gateway,
    e: &mut Exchange,
    response: &ResponseHead,
    times: Times,
    kept: &StoreDecision,
    too_long: bool,
    now: Moment,
    how: How,
    out: &mut Out,
) -> Result<(), Bad>
    requires awaited { is_awaiting e.old.steps.state.origin.phase ≡ true }
    requires stored { is_stored_fetch e.old.steps.state.origin.fetch ≡ true }
    ensures { OnOk result (IsResponded ResponseVerdict.Store e.old.steps.state e.new.steps.state) }
{
    let answered = e.is_awaiting();
    if begin_write(g, e, response, kept, now, out)? {
        return store(g, e, kept, answered, now, how, out);
    }
    relay_unstored(g, e, response, times, kept, too_long, how, out)
}

// Whether the next response of this key won't be stored either.
fn learn(
    g: &mut Gateway,
    e: &Exchange,
    kept: &Option<StoreDecision>,
    too_long: bool,
    status: u64,
    now: Moment,
) -> Result<(), Bad> {
    let (Some(kept), Some(key)) = (kept, e.key) else {
        return Ok(());
    };
    match lesson_of(e, kept, too_long, status) {
        Lesson::Nothing => {}
        Lesson::Stored => {
            let _known = g.predicted.pop(&key);
        }
        Lesson::Unstored => predict_unstored(g, &key, now)?,
    }
    Ok(())
}

// The rows in which nothing is stored.
fn answer_by_verdict(
    g: &mut Gateway,
    e: &mut Exchange,
    response: &ResponseHead,
    times: Times,
    does: ResponseVerdict,
    now: Moment,
    how: How,
    out: &mut Out,
) -> Result<(), Bad>
    requires awaited { is_awaiting e.old.steps.state.origin.phase ≡ true }
    requires unstored { stores_nothing does ≡ true }
    requires stale { is_stale does ≡ true → is_some (old_of e.old) ≡ true }
    ensures { OnOk result (IsResponded does e.old.steps.state e.new.steps.state) }
{
    match does {
        ResponseVerdict::RelayAndPurge => relay_and_purge(g, e, response, times, out),
        ResponseVerdict::RelayUnstored => {
            let detail = PREDICTED;
            relay(g, e, response, times, How { detail, ..how }, out)
        }
        ResponseVerdict::Bad => refuse_response(g, e, now, NOT_MODIFIED, out),
        ResponseVerdict::StaleOnError => serve_stale_instead(
            g,
            e,
            response.status_code(),
            now,
            how,
            out,
        ),
        ResponseVerdict::Revalidate => revalidate(g, e, response, times, now, how, out),
        ResponseVerdict::Relay => {
            let detail = STORED_IS_GOOD;
            relay(g, e, response, times, How { detail, ..how }, out)
        }
        ResponseVerdict::Store | ResponseVerdict::RelayAndRemove => Ok(()),
    }
}
