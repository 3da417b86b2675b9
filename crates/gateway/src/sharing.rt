//! Who waited for a fetch that failed shares its end, by what it finds itself.
ghost use Rattle.std.specs.Prelude.{◌≡◌, true, false, is_some, IfOk, OnOk};
ghost use Rattle.gateway_steps.specs.Phases.{is_undecided};
ghost use Rattle.gateway_steps.specs.Steps.{lets_go};
ghost use Rattle.gateway_steps.specs.declared.state.Source.{Source};
ghost use Rattle.gateway_tier.specs.Looks.{is_too_old};
ghost use Rattle.gateway.specs.Acts.{may_act, IsAnswered};
ghost use Rattle.gateway.specs.Looks.{fetch_of};

use crate::acts::{act_by_verdict, serve_found};
use crate::asking::ask_origin;
use crate::verdicts::Verdict;
use gateway_exchanges::exchange::{Exchange, Shared};
use gateway_exchanges::found::Look;
use gateway_exchanges::outs::{Event, Out};
use gateway_rows::waits::share_row;
use gateway_rules::moments::Moment;
use gateway_rules::values::{STALE, STALE_IF_DOWN, STALE_IF_ERROR, forwarded};
use gateway_sides::client_side::generate;
use gateway_state::state::Gateway;
use gateway_tier::at_tier::let_go;
use gateway_tier::looks::is_too_old;
use gateway_types::states::Fetch;
use gateway_types::waits::{ShareVerdict, Sharing};
use rules_ffi_arguments::bad::Bad;
use rules_ffi_arguments::shapes::How;

// What the origin is asked of what is found.
fn fetch_of(whole: bool) -> Fetch
    ensures { result ≡ fetch_of whole }
{
    if whole {
        Fetch::Conditional
    } else {
        Fetch::Full
    }
}

// Whether what was found may answer in the place of an error.
fn is_stale_answer(
    g: &Gateway,
    e: &Exchange,
    look: &Look,
    status: u64,
    now: Moment,
) -> Result<bool, Bad>
    ensures there { IfOk result (λ may. may ≡ true → is_some look.now.found ≡ true) }
    ensures current { IfOk result (λ may. may ≡ true → is_too_old g.now.floor look.now.found ≡ false) }
{
    if is_too_old(g, &look.found) {
        return Ok(false);
    }
    match &look.found {
        Some(found) if look.whole => g.rules.stale_on_error(&e.request, Some(found), now, status),
        _ => Ok(false),
    }
}

// What is done by what was found; of who waited for a fetch that failed, by how that failed.
pub(crate) fn share_or_act(
    g: &mut Gateway,
    e: &mut Exchange,
    verdict: Verdict,
    look: Look,
    past: bool,
    now: Moment,
    out: &mut Out,
) -> Result<(), Bad>
    requires undecided { is_undecided e.old.steps.state ≡ true }
    requires may_act { may_act verdict.does look e.old.steps.state ≡ true }
    ensures { OnOk result (is_undecided e.new.steps.state ≡ false) }
{
    let Some(shared) = e.shares else {
        return act(g, e, verdict, look, past, now, out);
    };
    let sharing = Sharing {
        look: verdict.does,
        reuse: verdict.reuse,
        stale_answers: is_stale_answer(g, e, &look, shared.status, now)?,
        is_response: shared.is_response,
    };
    match share_row(&sharing) {
        ShareVerdict::AsFound => act(g, e, verdict, look, past, now, out),
        ShareVerdict::StaleOnError => end_wait_stale(g, e, shared, look, now, out),
        ShareVerdict::Generated => {
            let_go(g, e, out)?;
            generate(g, e, shared.code, shared.reason, now, out)
        }
        ShareVerdict::Alone => {
            let fetch = fetch_of(look.whole);
            ask_origin(g, e, fetch, look, past, false, now, out)
        }
    }
}

// By its verdict, and then it is decided what is done for its client.
fn act(
    g: &mut Gateway,
    e: &mut Exchange,
    verdict: Verdict,
    look: Look,
    past: bool,
    now: Moment,
    out: &mut Out,
) -> Result<(), Bad>
    requires undecided { is_undecided e.old.steps.state ≡ true }
    requires may_act { may_act verdict.does look e.old.steps.state ≡ true }
    ensures { OnOk result (is_undecided e.new.steps.state ≡ false) }
{
    act_by_verdict(g, e, verdict, look, past, now, out)
}

// It waited for a fetch that failed, and what is stale answers.
fn end_wait_stale(
    g: &mut Gateway,
    e: &mut Exchange,
    shared: Shared,
    look: Look,
    now: Moment,
    out: &mut Out,
) -> Result<(), Bad>
    requires undecided { is_undecided e.old.steps.state ≡ true }
    requires there { is_some look.found ≡ true }
    ensures { OnOk result (IsAnswered Source.Body (lets_go e.old.steps.state) e.new.steps.state) }
{
    let_go(g, e, out)?;
    let detail = if shared.status != 0 {
        STALE_IF_ERROR
    } else {
        STALE_IF_DOWN
    };
    let how = How {
        collapsed: 1,
        detail,
        ..forwarded(STALE, shared.status)
    };
    let Look { found, body, .. } = look;
    serve_found(g, e, &found, body, now, how, out)?;
    out.tell(Event::StaleOnError)?;
    Ok(())
}
