//! The origin's side: what it is asked, when it is late, and what becomes of who waits where nothing comes.
ghost use Rattle.std.specs.Prelude.{◌≡◌, ◌||◌, not, is_some, Some, OnOk, OnErr, nat_eq, option_copied, MatchOption, true, false};
ghost use Rattle.std.specs.Cmp.Lexicographic.{pointwise};
ghost use Rattle.lru.specs.LruCache.{lru_cache, put_entries};
ghost use Rattle.rules_ffi_arguments.specs.Given.{Gives};
ghost use Rattle.rules_ffi_arguments.specs.Moments.{nanoseconds_of};
ghost use Rattle.gateway_rules.specs.Options.{options_of};
ghost use Rattle.gateway_rules.specs.Requests.{SentValue, sent_of};
ghost use Rattle.gateway_rows.specs.Bodies.{is_awaiting, is_idle};
ghost use Rattle.gateway_steps.specs.Phases.{awaits_answer, is_stored_fetch, is_undecided};
ghost use Rattle.gateway_steps.specs.Sides.{capped_sum, release_if};
ghost use Rattle.gateway_steps.specs.Steps.{asks, gives_up};
ghost use Rattle.gateway_exchanges.specs.Exchanges.{old_of};
ghost use Rattle.gateway_exchanges.specs.Frames.{HasSameButWakes};
ghost use Rattle.gateway_state.specs.Frames.{HasSameButPredicted, HasSameButTable};
ghost use Rattle.gateway_exchanges.specs.Replies.{reply_of};
ghost use Rattle.gateway_sides.specs.Answers.{IsAnswered};
ghost use Rattle.gateway_sides.specs.Fetches.{
  fetch_number,
  fetch_of,
  fetch_sent,
  asked_about,
  forwarded_for,
  AsksOrigin,
  NotesRequest,
  action_at_end,
};
ghost use Rattle.gateway_sides.specs.Tails.{is_blocked_by, own_tail, untaken_of};
ghost use Rattle.gateway_tier.specs.Notices.{AreTold};
ghost use Rattle.gateway_tier.specs.Releases.{uncounted, woken_by, Releases};
ghost use Rattle.gateway_tier.specs.Roles.{with_wakes};

use crate::client_side::{generate, serve};
use bytes::Bytes;
use cache_words::key::HashBinary;
use gateway_exchanges::exchange::{Exchange, Shared, nanoseconds};
use gateway_exchanges::outs::{Event, OriginAction, Out};
use gateway_exchanges::tails::Tail;
use gateway_rules::moments::Moment;
use gateway_rules::stored::Stored;
use gateway_rules::values::{STALE_IF_DOWN, STALE_IF_ERROR, SentRequest, forwarded};
use gateway_state::state::Gateway;
use gateway_steps::state::Released;
use gateway_tier::at_tier::release;
use gateway_tier::notices::{Notice, tell_all};
use gateway_types::states::Fetch;
use rules_ffi_arguments::bad::Bad;
use rules_ffi_arguments::shapes::How;
use std::alloc::AllocError;

/// What is asked, by the rules' numbers.
pub fn fetch_number(fetch: Fetch) -> u64
    ensures { result ≡ fetch_number fetch }
{
    match fetch {
        Fetch::Pass | Fetch::Unstored => 1,
        Fetch::Full => 2,
        Fetch::Conditional => 3,
        Fetch::Unconditional => 4,
    }
}

fn fetch_of(number: u64) -> Fetch
    ensures { result ≡ fetch_of number }
{
    match number {
        2 => Fetch::Full,
        3 => Fetch::Conditional,
        4 => Fetch::Unconditional,
        _ => Fetch::Pass,
    }
}

// ==== what it is asked

// The request as it is sent; `behind`: its client has its answer, and nobody's conditions go on.
fn forward(g: &Gateway, e: &Exchange, fetch: Fetch, behind: bool) -> Result<SentRequest, Bad>
    ensures { Gives sent_of result (forwarded_for (options_of g.now.rules) e.now fetch behind) }
{
    let peer = e.peer.as_slice();
    let what = fetch_number(fetch);
    let made = g
        .rules
        .forward_request(&e.request, what, asked_about(e, fetch), peer)?;
    if behind && made.fetch == 2 {
        return g.rules.forward_request(&e.request, 4, None, peer);
    }
    Ok(made)
}

fn asked_about(e: &Exchange, fetch: Fetch) -> Option<&Stored>
    ensures { option_copied result ≡ asked_about fetch e.now }
{
    match fetch {
        Fetch::Conditional => e.old(),
        _ => None,
    }
}

fn fetch_sent(fetch: Fetch, made: &SentRequest) -> Fetch
    ensures { result ≡ fetch_sent fetch (sent_of made.now) }
{
    match fetch {
        Fetch::Unstored => Fetch::Unstored,
        _ => fetch_of(made.fetch),
    }
}

/// Asks the origin; `behind`: the client has its answer.
pub fn send_request(
    g: &mut Gateway,
    e: &mut Exchange,
    fetch: Fetch,
    behind: bool,
    now: Moment,
    out: &mut Out,
) -> Result<(), Bad>
    requires { is_undecided e.old.steps.state || is_awaiting e.old.steps.state.origin.phase ≡ true }
    ensures asked { OnOk result ((m : SentValue) × (forwarded_for (options_of g.old.rules) e.old fetch behind ≡ Some m)
        × AsksOrigin m (fetch_sent fetch m) (nanoseconds_of now) (capped_sum g.old.sequence 1) e.old e.new
        × (out.new.to_origin.items ≡ m.head)) }
    ensures action { OnOk result (out.new.origin ≡ OriginAction.SendRequest) }
    ensures gateway { g.new ≡ record g.old { sequence = g.new.sequence; tier = g.new.tier; flying = g.new.flying } }
{
    let made = forward(g, e, fetch, behind)?;
    let sent = Vec::from_slice(g.alloc, made.head.as_slice())?;
    ask(g, e, fetch_sent(fetch, &made), now, out)?;
    note_request(e, made);
    out.origin = OriginAction::SendRequest;
    out.to_origin = sent;
    out.tell(Event::Requested {
        fetch: e.fetch(),
        key: e.key,
        leads: e.steps.state.origin.leads,
    })?;
    Ok(())
}

// What isn't to be stored holds nothing at the tier.
fn ask(
    g: &mut Gateway,
    e: &mut Exchange,
    fetch: Fetch,
    now: Moment,
    out: &mut Out,
) -> Result<(), AllocError>
    requires { is_undecided e.old.steps.state || is_awaiting e.old.steps.state.origin.phase ≡ true }
    ensures state { e.new.steps.state ≡ asks fetch (nanoseconds_of now) (capped_sum g.old.sequence 1) e.old.steps.state }
    ensures exchange { e.new ≡ uncounted (release_if (not (is_stored_fetch fetch)) e.old.steps.state.tier) (record e.old { steps = e.new.steps }) }
    ensures released { Releases (release_if (not (is_stored_fetch fetch)) e.old.steps.state.tier) e.old (record g.old { sequence = capped_sum g.old.sequence 1 }) g.new }
    ensures ok { OnOk result (reply_of out.new ≡ with_wakes (woken_by (release_if (not (is_stored_fetch fetch)) e.old.steps.state.tier) e.new g.old.table) (reply_of out.old)) }
    ensures rest { HasSameButWakes out.old out.new }
{
    g.sequence = g.sequence.saturating_add(1);
    let released = e.steps.ask(fetch, nanoseconds(now), g.sequence);
    release(g, e, released, out)
}

// What is known of the request that went.
fn note_request(e: &mut Exchange, made: SentRequest)
    ensures { NotesRequest (sent_of made) e.old e.new }
{
    e.asks.is_head = made.is_head;
    e.asks.is_conditional = made.is_conditional;
    e.asks.has_range = made.has_range;
    e.taking_framing = made.framing;
    e.asks.looked = 0;
    e.asks.interims = 0;
    e.asks.head = made.head;
}

// The tail of its own body, past what is stored.
fn own_tail<'a>(g: &'a Gateway, e: &Exchange) -> Option<&'a Tail>
    ensures { option_copied result ≡ own_tail g.now e.now }
{
    if e.steps.state.origin.tailed {
        g.tails.get(e.x)
    } else {
        None
    }
}

// So many bytes of its body lack its client, of which others have what is stored.
fn untaken_of(tail: &Tail, place: u64) -> u64
    ensures { result ≡ untaken_of tail.now place }
{
    tail.end().saturating_sub(place.max(tail.after))
}

/// Whether its client lacks so much that nothing more is taken.
pub fn is_blocked(g: &Gateway, e: &Exchange) -> bool
    ensures { result ≡ is_blocked_by g.now e.now }
{
    match own_tail(g, e) {
        Some(tail) => {
            let untaken = untaken_of(tail, e.answer.place.unwrap_or(0));
            e.steps.is_blocked(untaken, g.limits.max_tail)
        }
        None => {
            let untaken = e.answer.buffer.len() as u64;
            e.steps.is_blocked(untaken, g.limits.max_relay_bytes)
        }
    }
}

/// Whether a body that isn't read on is over.
pub fn is_whole(g: &Gateway, e: &mut Exchange) -> Result<bool, Bad>
    ensures { e.new ≡ record e.old { asks = record e.old.asks { body = e.new.asks.body } } }
{
    match &mut e.asks.body {
        None => Ok(false),
        Some(body) => {
            let found = g.rules.decoded(body, &[])?;
            Ok(found.over)
        }
    }
}

/// The rest of the response isn't wanted, and its client has its answer. Where nothing is left its connection may be kept.
pub fn give_up_rest(g: &mut Gateway, e: &mut Exchange, out: &mut Out) -> Result<(), Bad>
    requires awaited { is_awaiting e.old.steps.state.origin.phase ≡ true }
    requires answered { awaits_answer e.old.steps.state.client.phase ≡ false }
    ensures state { OnOk result (e.new.steps.state ≡ gives_up e.old.steps.state) }
    ensures exchange { e.new ≡ record e.old { steps = e.new.steps; asks = record e.old.asks { body = e.new.asks.body; flying = e.new.asks.flying } } }
{
    let whole = is_whole(g, e)?;
    out.origin = action_at_end(e, whole, false);
    let released = e.steps.give_up();
    release(g, e, released, out)?;
    Ok(())
}

/// Whether its connection may be kept.
pub fn action_at_end(e: &Exchange, whole: bool, bytes_left: bool) -> OriginAction
    ensures { result ≡ action_at_end whole bytes_left e.now.steps.state }
{
    if e.steps.is_reusable(whole, bytes_left) {
        OriginAction::Reusable
    } else {
        OriginAction::CloseOrigin
    }
}

/// What is stale answers.
pub fn serve_stale(
    g: &mut Gateway,
    e: &mut Exchange,
    now: Moment,
    how: How,
    out: &mut Out,
) -> Result<(), Bad>
    requires { is_some (old_of e.old) ≡ true }
    ensures { OnOk result (IsAnswered e.old.steps.state e.new.steps.state) }
{
    if !e.is_awaiting() {
        return Ok(());
    }
    let Some(found) = e.asks.found.take() else {
        return Ok(());
    };
    let body: Bytes = e.asks.old_body.clone()?;
    let outcome = serve(g, e, &found.shape, found.block(), body, now, how, out);
    e.asks.found = Some(found);
    outcome?;
    out.tell(Event::StaleOnError)?;
    Ok(())
}

/// The next response of this key won't be stored either. Where there are too many such keys, the one of which that was said the longest ago goes.
pub fn predict_unstored(g: &mut Gateway, key: &HashBinary, now: Moment) -> Result<(), AllocError>
    ensures put { OnOk result (g.new.predicted ≡ lru_cache (put_entries (pointwise nat_eq) g.old.predicted key.now now) g.old.predicted.cap) }
    ensures err { OnErr result (g.new ≡ g.old) }
    ensures rest { HasSameButPredicted g.old g.new }
{
    g.predicted.put(*key, now)?;
    Ok(())
}

// ==== no response

/// Who waits for its permit shares its end.
pub fn share_end(g: &mut Gateway, e: &Exchange, shared: Shared)
    ensures told { MatchOption e.now.key (g.new.table ≡ g.old.table) (λ key. AreTold (Notice.FetchFailed e.now.x shared) key g.old.table g.new.table) }
    ensures rest { HasSameButTable g.old g.new }
{
    let Some(key) = e.key else {
        return;
    };
    tell_all(g, &key, &Notice::FetchFailed(e.x, shared));
}

/// No response comes (the origin's status 0), or one that doesn't read: the origin's side ends.
pub fn fail_origin(
    g: &mut Gateway,
    e: &mut Exchange,
    now: Moment,
    code: u64,
    reason: u64,
    origin_status: u64,
    out: &mut Out,
) -> Result<(), Bad>
    requires { is_idle e.old.steps.state.origin.phase ≡ false }
    ensures { OnOk result ((awaits_answer e.new.steps.state.client.phase ≡ false) × (is_idle e.new.steps.state.origin.phase ≡ true)) }
{
    let had_permit = e.has_permit();
    let shared = Shared {
        status: origin_status,
        is_response: false,
        code,
        reason,
    };
    let released = e.steps.stop(false);
    end_failed(g, e, now, shared, had_permit, released, out)
}

/// The origin's side has ended without a response: how, whether it had the permit, and what was released by that.
pub fn end_failed(
    g: &mut Gateway,
    e: &mut Exchange,
    now: Moment,
    shared: Shared,
    had_permit: bool,
    released: Released,
    out: &mut Out,
) -> Result<(), Bad>
    ensures { OnOk result (IsAnswered e.old.steps.state e.new.steps.state) }
{
    let stored = e.is_stored_fetch();
    let mut shared = shared;
    if stored && shared.code == 502 && shared.status == 0 {
        shared.code = g.rules.error_status(&e.request, e.old(), now)?;
    }
    if had_permit {
        share_end(g, e, shared);
    }
    release(g, e, released, out)?;
    fail_client(g, e, now, shared, stored, out)
}

// What its client is answered, where it has no answer yet.
fn fail_client(
    g: &mut Gateway,
    e: &mut Exchange,
    now: Moment,
    shared: Shared,
    stored: bool,
    out: &mut Out,
) -> Result<(), Bad>
    ensures { OnOk result (IsAnswered e.old.steps.state e.new.steps.state) }
{
    if !e.is_awaiting() {
        return Ok(());
    }
    let origin_status = shared.status;
    if stored
        && e.old().is_some()
        && g.rules
            .stale_on_error(&e.request, e.old(), now, origin_status)?
    {
        let detail = if origin_status != 0 {
            STALE_IF_ERROR
        } else {
            STALE_IF_DOWN
        };
        let how = How {
            detail,
            ..forwarded(e.asks.cause, 0)
        };
        return serve_stale(g, e, now, how, out);
    }
    generate(g, e, shared.code, shared.reason, now, out)
}
