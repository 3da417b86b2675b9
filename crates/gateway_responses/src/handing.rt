//! What a response that is stored, relayed, or spared does.
ghost use Rattle.std.specs.Prelude.{◌≡◌, ◌&&◌, true, false, is_some, MatchBool, OnErr, OnOk};
ghost use Rattle.gateway_rows.specs.Bodies.{is_awaiting, is_idle, is_relaying, is_storing};
ghost use Rattle.gateway_steps.specs.Phases.{awaits_answer, has_body_coming, is_relay, is_sending};
ghost use Rattle.gateway_exchanges.specs.Exchanges.{old_of};
ghost use Rattle.gateway_responses.specs.Bodies.{ComesToRest, GoesOn};
ghost use Rattle.gateway_responses.specs.Responses.{IsHandedOn, IsOver, IsRelayed, IsSameButClosing, IsSameSource};

use crate::origin_body::{done_or_broken_off, receive_body, truncate_for};
use cache_words::key::hash_key;
use gateway_exchanges::exchange::{Exchange, Shared};
use gateway_exchanges::outs::{Event, Out};
use gateway_rules::moments::Moment;
use gateway_rules::responses::Times;
use gateway_rules::values::{
    BODY_TOO_LONG, BY_METHOD, BYPASS, METHOD, Message, NO_ANSWER, NO_BODY, PURGED, ResponseHead,
    STALE_IF_ERROR, StoreDecision, UNSTORED, forwarded,
};
use gateway_sides::client_side::{begin_relay, relayed_message, serve_write};
use gateway_sides::origin_side::{action_at_end, give_up_rest, is_whole, serve_stale, share_end};
use gateway_state::state::Gateway;
use gateway_tier::at_tier::{give_up_permit, release};
use gateway_tier::purging::remove;
use rules_ffi_arguments::bad::Bad;
use rules_ffi_arguments::shapes::How;
use std::alloc::AllocError;

/// What was found when the origin was asked goes, with what is fetched for its key and was asked earlier.
pub(crate) fn remove_found(g: &mut Gateway, e: &Exchange, out: &mut Out) -> Result<(), AllocError>
    ensures { g.new ≡ record g.old { tier = g.new.tier; table = g.new.table; predicted = g.new.predicted; flying = g.new.flying } }
{
    if let Some(key) = e.asks.found_key {
        let _was = remove(g, &key, Some(e.sequence()), out)?;
    }
    Ok(())
}

/// It isn't stored, and goes to its client; what was found goes where the rules say so.
pub(crate) fn relay_unstored(
    g: &mut Gateway,
    e: &mut Exchange,
    response: &ResponseHead,
    times: Times,
    kept: &StoreDecision,
    too_long: bool,
    how: How,
    out: &mut Out,
) -> Result<(), Bad>
    requires { is_awaiting e.old.steps.state.origin.phase ≡ true }
    ensures { OnOk result (IsHandedOn e.old.steps.state e.new.steps.state) }
{
    let origin = e.steps.state.origin;
    let is_current = !(origin.purged || origin.superseded);
    if !kept.is_kept() && kept.removes() && is_current {
        remove_found(g, e, out)?;
    }
    let detail = match (kept.told.reason, origin.purged, too_long) {
        (0, true, _) => PURGED,
        (0, false, true) => BODY_TOO_LONG,
        (0, false, false) => UNSTORED,
        (reason, _, _) => reason,
    };
    relay(g, e, response, times, How { detail, ..how }, out)
}

/// What it changes is purged, and it goes to its client (RFC 9111, 4.4).
pub(crate) fn relay_and_purge(
    g: &mut Gateway,
    e: &mut Exchange,
    response: &ResponseHead,
    times: Times,
    out: &mut Out,
) -> Result<(), Bad>
    requires { is_awaiting e.old.steps.state.origin.phase ≡ true }
    ensures { OnOk result (IsHandedOn e.old.steps.state e.new.steps.state) }
{
    let keys = g.rules.invalidated_keys(&e.request, response)?;
    for key in keys.as_slice() {
        let _was = remove(g, &hash_key(key.as_slice()), None, out)?;
    }
    out.purges = keys;
    let why = if e.asks.reason == METHOD {
        BY_METHOD
    } else {
        BYPASS
    };
    let how = How {
        detail: e.asks.reason,
        ..forwarded(why, response.status_code())
    };
    relay(g, e, response, times, how, out)
}

// What is stale answers in the place of an error.
pub(crate) fn serve_stale_instead(
    g: &mut Gateway,
    e: &mut Exchange,
    status: u64,
    now: Moment,
    how: How,
    out: &mut Out,
) -> Result<(), Bad>
    requires awaited { is_awaiting e.old.steps.state.origin.phase ≡ true }
    requires stored { is_some (old_of e.old) ≡ true }
    ensures { OnOk result (IsOver e.new.steps.state) }
{
    let shared = Shared {
        status,
        is_response: true,
        code: 502,
        reason: NO_ANSWER,
    };
    if e.has_permit() {
        share_end(g, e, shared);
    }
    let detail = STALE_IF_ERROR;
    serve_stale(g, e, now, How { detail, ..how }, out)?;
    give_up_rest(g, e, out)
}

/// Its write has begun: it answers as it comes, and what was found under another key of its set goes where the rules say so. Without memory for that its
/// body breaks off.
pub(crate) fn store(
    g: &mut Gateway,
    e: &mut Exchange,
    kept: &StoreDecision,
    answered: bool,
    now: Moment,
    how: How,
    out: &mut Out,
) -> Result<(), Bad>
    requires stored { is_storing e.old.steps.state.origin.phase ≡ true }
    requires answered { awaits_answer e.old.steps.state.client.phase ≡ false }
    ensures stored { OnOk result (is_awaiting e.new.steps.state.origin.phase ≡ false) }
    ensures client { OnOk result (IsSameSource e.old.steps.state e.new.steps.state) }
    ensures lacks_memory { OnErr result (is_idle e.new.steps.state.origin.phase ≡ true) }
{
    if tell_stored(g, e, kept, answered, now, how, out).is_err() {
        return truncate_for(g, e, answered, out);
    }
    begin_body(g, e, out)
}

// What is stored is told; its client's head is made.
fn tell_stored(
    g: &mut Gateway,
    e: &mut Exchange,
    kept: &StoreDecision,
    answered: bool,
    now: Moment,
    how: How,
    out: &mut Out,
) -> Result<(), Bad>
    ensures { IsSameButClosing e.old.steps.state e.new.steps.state }
{
    let Some(key) = e.key else {
        return Ok(());
    };
    let _known = g.predicted.pop(&key);
    out.tell(Event::Stored(key))?;
    if kept.removes() && e.asks.found_key != Some(key) {
        // Another's of its set, which isn't fresh.
        remove_found(g, e, out)?;
    }
    if answered {
        let how = How { stored: 1, ..how };
        serve_write(g, e, &kept.told.shown, kept.block(), now, how, out)?;
    }
    Ok(())
}

// What of its body came with its head, if that is all of it.
fn begin_body(g: &mut Gateway, e: &mut Exchange, out: &mut Out) -> Result<(), Bad>
    requires { has_body_coming e.old.steps.state ≡ true }
    ensures ok { OnOk result (GoesOn e.old.steps.state e.new.steps.state) }
    ensures lacks_memory { OnErr result (ComesToRest e.old.steps.state e.new.steps.state) }
{
    let outcome = receive_body(g, e, &[], out);
    done_or_broken_off(g, e, outcome, out)
}

/// It goes to the client, if there is one that waits for it.
pub(crate) fn relay(
    g: &mut Gateway,
    e: &mut Exchange,
    response: &ResponseHead,
    times: Times,
    how: How,
    out: &mut Out,
) -> Result<(), Bad>
    requires { is_awaiting e.old.steps.state.origin.phase ≡ true }
    ensures { OnOk result (IsHandedOn e.old.steps.state e.new.steps.state) }
{
    give_up_permit(g, e, out)?;
    if !e.is_awaiting() {
        return give_up_rest(g, e, out);
    }
    let made = relayed_message(g, e, response, times, how)?;
    let status = response.status_code();
    // Else its client has it, or wants none of it.
    if !made.parts.is_empty() || response.shape.framing == NO_BODY {
        relay_with_body(g, e, made, status, out)
    } else {
        relay_head(g, e, made, status, out)
    }
}

fn relay_with_body(
    g: &mut Gateway,
    e: &mut Exchange,
    made: Message,
    status: u64,
    out: &mut Out,
) -> Result<(), Bad>
    requires awaited { is_awaiting e.old.steps.state.origin.phase ≡ true }
    requires unanswered { awaits_answer e.old.steps.state.client.phase ≡ true }
    ensures { OnOk result (IsRelayed e.new.steps.state) }
{
    begin_to_relay(g, e, made, true, status, out)?;
    begin_body(g, e, out)
}

fn relay_head(
    g: &mut Gateway,
    e: &mut Exchange,
    made: Message,
    status: u64,
    out: &mut Out,
) -> Result<(), Bad>
    requires awaited { is_awaiting e.old.steps.state.origin.phase ≡ true }
    requires unanswered { awaits_answer e.old.steps.state.client.phase ≡ true }
    ensures { OnOk result (IsRelayed e.new.steps.state) }
{
    let whole = is_whole(g, e)?;
    let ends = action_at_end(e, whole, false);
    begin_to_relay(g, e, made, false, status, out)?;
    out.origin = ends;
    Ok(())
}

// Its head is for its client, and its body where that is wanted. It is made first: without memory for it nothing has happened.
fn begin_to_relay(
    g: &mut Gateway,
    e: &mut Exchange,
    made: Message,
    wanted: bool,
    status: u64,
    out: &mut Out,
) -> Result<(), AllocError>
    requires awaited { is_awaiting e.old.steps.state.origin.phase ≡ true }
    requires unanswered { awaits_answer e.old.steps.state.client.phase ≡ true }
    ensures relayed { OnOk result (is_sending e.new.steps.state.client.phase && is_relay e.new.steps.state.client.source ≡ true) }
    ensures body { OnOk result (MatchBool wanted (is_relaying e.new.steps.state.origin.phase ≡ true) (is_idle e.new.steps.state.origin.phase ≡ true)) }
{
    out.tell(Event::Relayed(status))?;
    make_head(e, made, out)?;
    let released = e.steps.relay(wanted);
    release(g, e, released, out)
}

fn make_head(e: &mut Exchange, made: Message, out: &mut Out) -> Result<(), AllocError>
    ensures { OnOk result (IsSameButClosing e.old.steps.state e.new.steps.state) }
{
    begin_relay(e, made, out)
}
