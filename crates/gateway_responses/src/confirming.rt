//! What a response about what is stored does.
ghost use Rattle.std.specs.Prelude.{◌≡◌, ◌==◌, true, false, not, Some, OnOk, IfOk};
ghost use Rattle.rules_ffi_arguments.specs.declared.shapes.KeptShape.{KeptShape};
ghost use Rattle.rules_ffi_arguments.specs.Moments.{nanoseconds_of};
ghost use Rattle.gateway_rows.specs.Bodies.{is_awaiting};
ghost use Rattle.gateway_rows.specs.Responses.{revalidate_row};
ghost use Rattle.gateway_types.specs.declared.responses.ResponseVerdict.{ResponseVerdict};
ghost use Rattle.gateway_rules.specs.Options.{options_of};
ghost use Rattle.gateway_rules.specs.Responses.{freshened_in};
ghost use Rattle.gateway_rules.specs.Stored.{found_of};
ghost use Rattle.gateway_rules.specs.Values.{decision_of, request_of, response_of};
ghost use Rattle.gateway_steps.specs.Sides.{capped_sum};
ghost use Rattle.gateway_steps.specs.Steps.{lets_go};
ghost use Rattle.gateway_exchanges.specs.Exchanges.{old_of};
ghost use Rattle.gateway_responses.specs.Responses.{IsHandedOn, IsResponded};
ghost use Rattle.gateway_responses.specs.Confirms.{length_asked, miss_of, revalidation_of, IsAnsweredByStored, IsAskedWithout, IsRevalidated, Renewal};

use crate::handing::{relay, remove_found};
use bytes::Bytes;
use gateway_exchanges::exchange::Exchange;
use gateway_exchanges::outs::{Event, Out};
use gateway_rows::responses::revalidate_row;
use gateway_rules::moments::Moment;
use gateway_rules::responses::Times;
use gateway_rules::values::{ResponseHead, StoreDecision, URI_MISS, VARY_MISS};
use gateway_sides::client_side::serve;
use gateway_sides::origin_side::{give_up_rest, send_request};
use gateway_state::state::Gateway;
use gateway_tier::at_tier::{give_up_permit, let_go};
use gateway_tier::writing::freshen_stored;
use gateway_types::responses::{RevalidateVerdict, Revalidation};
use gateway_types::states::Fetch;
use rules_ffi_arguments::bad::Bad;
use rules_ffi_arguments::shapes::How;
use rules_ffi_results::marks::{NONE, OTHER};

/// A 304, or a 200 to HEAD, after what is stored was asked about: what its row says.
pub(crate) fn revalidate(
    g: &mut Gateway,
    e: &mut Exchange,
    response: &ResponseHead,
    times: Times,
    now: Moment,
    how: How,
    out: &mut Out,
) -> Result<(), Bad>
    requires { is_awaiting e.old.steps.state.origin.phase ≡ true }
    ensures responded { OnOk result (IsResponded ResponseVerdict.Revalidate e.old.steps.state e.new.steps.state) }
    ensures done { OnOk result ((made : Renewal)
        × (freshened_in (options_of g.old.rules) (request_of e.old.request) (found_of (old_of e.old)) (length_asked e.old response.now.shape.code) (response_of response.now) times ≡ Some made)
        × IsRevalidated (revalidate_row (revalidation_of e.old response.now made.1)) (options_of g.old.rules) now (nanoseconds_of now) (capped_sum g.old.sequence 1) how
        (not (made.1.removes == 0)) made e.old e.new) }
{
    let length = length_asked(e, response.status_code());
    let kept = g
        .rules
        .freshen(&e.request, e.old(), length, response, times)?;
    let does = revalidate_row(&revalidation_of(e, response, &kept));
    if kept.removes() && !is_outdated(e) {
        remove_found(g, e, out)?;
    }
    answer_validated(g, e, response, times, does, &kept, now, how, out)
}

// Whether what came since it was asked tells more of what is stored.
fn is_outdated(e: &Exchange) -> bool {
    let origin = e.steps.state.origin;
    origin.purged || origin.overtaken || origin.superseded
}

// By its row.
fn answer_validated(
    g: &mut Gateway,
    e: &mut Exchange,
    response: &ResponseHead,
    times: Times,
    does: RevalidateVerdict,
    kept: &StoreDecision,
    now: Moment,
    how: How,
    out: &mut Out,
) -> Result<(), Bad>
    requires { is_awaiting e.old.steps.state.origin.phase ≡ true }
    ensures responded { OnOk result (IsResponded ResponseVerdict.Revalidate e.old.steps.state e.new.steps.state) }
    ensures done { OnOk result (IsRevalidated does (options_of g.old.rules) now (nanoseconds_of now) (capped_sum g.old.sequence 1) how (not (kept.now.told.removes == 0)) (decision_of kept.now) e.old e.new) }
{
    match does {
        RevalidateVerdict::Again => ask_without_conditions(g, e, kept.removes(), now, out),
        RevalidateVerdict::FreshenAndAnswer => {
            freshen_stored(g, e, kept, now, out)?;
            answer_by_stored(g, e, kept, now, how, out)
        }
        RevalidateVerdict::Answer => answer_by_stored(g, e, kept, now, how, out),
        RevalidateVerdict::FreshenAndRelay => {
            freshen_stored(g, e, kept, now, out)?;
            hand_on(g, e, response, times, kept, how, out)
        }
        RevalidateVerdict::Relay => hand_on(g, e, response, times, kept, how, out),
    }
}

// Its client gets the response.
fn hand_on(
    g: &mut Gateway,
    e: &mut Exchange,
    response: &ResponseHead,
    times: Times,
    kept: &StoreDecision,
    how: How,
    out: &mut Out,
) -> Result<(), Bad>
    requires { is_awaiting e.old.steps.state.origin.phase ≡ true }
    ensures { OnOk result (IsHandedOn e.old.steps.state e.new.steps.state) }
{
    let_go_by(g, e, kept, out)?;
    relay(g, e, response, times, how, out)
}

// What its row is chosen by.
fn revalidation_of(e: &Exchange, response: &ResponseHead, kept: &StoreDecision) -> Revalidation
    ensures { result ≡ revalidation_of e.now response.now kept.now.told }
{
    Revalidation {
        status: response.code(),
        other: kept.told.status == OTHER,
        may_freshen: e.steps.may_freshen(kept.is_kept()),
    }
}

// The length of what is stored, which a 200 to HEAD is compared with.
fn length_asked(e: &Exchange, status: u64) -> u64
    ensures { result ≡ length_asked e.now status }
{
    if status == 304 {
        NONE
    } else {
        e.asks.old_body.len() as u64
    }
}

// What may be stored lets who waits look again; what may not sends them on alone.
fn let_go_by(
    g: &mut Gateway,
    e: &mut Exchange,
    kept: &StoreDecision,
    out: &mut Out,
) -> Result<(), Bad>
    requires { is_awaiting e.old.steps.state.origin.phase ≡ true }
    ensures state { e.new.steps.state ≡ lets_go e.old.steps.state }
    ensures exchange { e.new ≡ record e.old { steps = e.new.steps; asks = record e.old.asks { flying = e.new.asks.flying } } }
    ensures gateway { g.new ≡ record g.old { tier = g.new.tier; flying = g.new.flying } }
{
    if kept.is_kept() {
        let_go(g, e, out)?;
    } else {
        give_up_permit(g, e, out)?;
    }
    Ok(())
}

// It was about another response: the origin is asked without conditions.
fn ask_without_conditions(
    g: &mut Gateway,
    e: &mut Exchange,
    removes: bool,
    now: Moment,
    out: &mut Out,
) -> Result<(), Bad>
    requires { is_awaiting e.old.steps.state.origin.phase ≡ true }
    ensures asked { OnOk result (is_awaiting e.new.steps.state.origin.phase ≡ true) }
    ensures done { OnOk result (IsAskedWithout (options_of g.old.rules) (nanoseconds_of now) (capped_sum g.old.sequence 1) removes e.old e.new) }
{
    e.asks.cause = miss_of(e);
    e.asks.has_old = false;
    e.asks.old_body = Bytes::new();
    if removes {
        e.asks.found = None;
    }
    let behind = e.is_sending();
    send_request(g, e, Fetch::Unconditional, behind, now, out)
}

// Why it is asked again.
fn miss_of(e: &Exchange) -> u64
    ensures { result ≡ miss_of e.now }
{
    if e.index.is_empty() {
        URI_MISS
    } else {
        VARY_MISS
    }
}

// What is stored answers, with the head that the response made of it.
fn answer_by_stored(
    g: &mut Gateway,
    e: &mut Exchange,
    kept: &StoreDecision,
    now: Moment,
    how: How,
    out: &mut Out,
) -> Result<(), Bad>
    requires { is_awaiting e.old.steps.state.origin.phase ≡ true }
    ensures { OnOk result (IsAnsweredByStored (options_of g.old.rules) now how (decision_of kept.now) e.old e.new) }
{
    let_go_by(g, e, kept, out)?;
    if e.is_awaiting() {
        let body: Bytes = e.asks.old_body.clone()?;
        serve(g, e, &kept.told.shown, kept.block(), body, now, how, out)?;
        out.tell(Event::Revalidated)?;
    }
    give_up_rest(g, e, out)
}
