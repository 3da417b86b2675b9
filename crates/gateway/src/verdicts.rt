//! What is done by what was found, and how that may answer.
ghost use Rattle.std.specs.Prelude.{◌≡◌, true, false, not, is_some, ◌&&◌, IfOk, Some, option_map};
ghost use Rattle.rules_ffi_arguments.specs.Given.{Gives};
ghost use Rattle.rules_ffi_arguments.specs.Options.{has_mark};
ghost use Rattle.gateway_rules.specs.Messages.{message_of};
ghost use Rattle.gateway_rules.specs.Options.{options_of};
ghost use Rattle.gateway_rows.specs.Looks.{is_wait, look_row};
ghost use Rattle.gateway_sides.specs.Answers.{how_for};
ghost use Rattle.gateway_tier.specs.Looks.{is_too_old};
ghost use Rattle.gateway.specs.Acts.{how_served, may_act};
ghost use Rattle.gateway.specs.Looks.{found_of, is_predicted, is_predicted_for, answers_by_found, seen_of, weighed_in};

use cache_words::key::HashBinary;
use gateway_exchanges::exchange::Exchange;
use gateway_exchanges::found::Look;
use gateway_rows::looks::look_row;
use gateway_rules::moments::{Moment, is_past, later};
use gateway_rules::values::{MISS, Message, forwarded, hit};
use gateway_state::state::Gateway;
use gateway_tier::looks::is_too_old;
use gateway_types::looks::{Found, Look as Seen, LookVerdict, Permit, Reuse};
use rules_ffi_arguments::bad::Bad;
use rules_ffi_arguments::shapes::How;

fn found_of(look: &Look) -> Found
    ensures { result ≡ found_of look.now }
{
    match (look.found.is_some(), look.whole) {
        (false, _) => Found::Nothing,
        (true, false) => Found::InFlight,
        (true, true) => Found::Whole,
    }
}

fn is_predicted(g: &Gateway, key: &HashBinary, now: Moment) -> bool
    ensures { result ≡ is_predicted g.now key.now now }
{
    match g.predicted.peek(key) {
        None => false,
        Some(at) => is_past(later(*at, g.limits.predicted_seconds), now),
    }
}

// Whether the next response where it looked won't be stored.
fn is_predicted_for(g: &Gateway, e: &Exchange, now: Moment) -> bool
    ensures { result ≡ is_predicted_for g.now e.now.key now }
{
    match &e.key {
        Some(key) => is_predicted(g, key, now),
        None => false,
    }
}

// It waits for another's permit only where its own request is open at the tier, without one.
pub(crate) fn permit_seen(e: &Exchange, permit: Permit) -> Permit
    ensures { is_wait result ≡ true → e.now.steps.state.tier.held && not (is_some e.now.steps.state.tier.permit) ≡ true }
{
    let may_wait = e.is_held() && !e.has_permit();
    match permit {
        Permit::Wait if may_wait => Permit::Wait,
        Permit::Write => Permit::Write,
        Permit::Wait | Permit::None => Permit::None,
    }
}

// What is stored answers.
pub(crate) fn how_served(e: &Exchange) -> How
    ensures { result ≡ how_served e.now.steps.state }
{
    if e.steps.state.tier.collapsed {
        How {
            collapsed: 1,
            ..forwarded(MISS, 0)
        }
    } else {
        hit()
    }
}

// And whether its connection ends behind the answer.
fn how_of(e: &Exchange) -> How
    ensures { result ≡ how_for e.now (how_served e.now.steps.state) }
{
    How {
        closes: if e.closes_after() { 1 } else { 0 },
        ..how_served(e)
    }
}

// How what was found may answer; of what is whole also its answer, where it answers at once: both over options and lines that are read once.
fn weigh(
    g: &Gateway,
    e: &Exchange,
    look: &Look,
    now: Moment,
) -> Result<(Reuse, Option<Message>), Bad>
    ensures { Gives (λ r. (r.0, option_map message_of r.1)) result (weighed_in (options_of g.now.rules) e.now look.now now) }
{
    let Some(stored) = &look.found else {
        return Ok((Reuse::AfterValidation, None));
    };
    if !look.whole {
        return Ok((g.rules.decide_reuse(&e.request, stored, now)?, None));
    }
    let length = look.body.len() as u64;
    let how = how_of(e);
    g.rules.serve_whole(&e.request, &stored.shape, stored.block(), length, now, &how)
}

// What is done by what was found: its row, how that may answer, and its answer, where it was made with that.
#[derive(Drop)]
pub(crate) struct Verdict {
    pub does: LookVerdict,
    pub reuse: Reuse,
    pub made: Option<Message>,
}

// What is known of what was found.
fn seen_of(g: &Gateway, e: &Exchange, look: &Look, reuse: Reuse, past: bool, now: Moment) -> Seen
    ensures { result ≡ seen_of look.now reuse past (has_mark e.now.request.shape.marks 16) (is_predicted_for g.now e.now.key now) (is_too_old g.now.floor look.now.found) }
{
    Seen {
        found: found_of(look),
        reuse,
        fresh: look.fresh,
        past,
        permit: look.permit,
        only_if_cached: e.request.only_if_cached(),
        predicted: is_predicted_for(g, e, now),
        too_old: is_too_old(g, &look.found),
    }
}

// What is done by what was found, and how that may answer: what isn't later than a purge of all answers nobody.
#[tactic(auto, using(crate::proofs::LookRows::too_old_answers_nobody, crate::proofs::LookRows::row_may_act))]
pub(crate) fn verdict_of(
    g: &Gateway,
    e: &Exchange,
    look: &Look,
    past: bool,
    now: Moment,
) -> Result<Verdict, Bad>
    requires { is_wait look.now.permit ≡ true → e.now.steps.state.tier.held && not (is_some e.now.steps.state.tier.permit) ≡ true }
    ensures row { IfOk result (λ v. v.does ≡ look_row (seen_of look.now v.reuse past (has_mark e.now.request.shape.marks 16) (is_predicted_for g.now e.now.key now) (is_too_old g.now.floor look.now.found))) }
    ensures current { IfOk result (λ v. is_too_old g.now.floor look.now.found ≡ true → answers_by_found v.does ≡ false) }
    ensures weighed { IfOk result (λ v. weighed_in (options_of g.now.rules) e.now look.now now ≡ Some (v.reuse, option_map message_of v.made)) }
    ensures may { IfOk result (λ v. may_act v.does look.now e.now.steps.state ≡ true) }
{
    let (reuse, made) = weigh(g, e, look, now)?;
    let seen = seen_of(g, e, look, reuse, past, now);
    Ok(Verdict {
        does: look_row(&seen),
        reuse,
        made,
    })
}
