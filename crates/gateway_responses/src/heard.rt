//! What is known of a final head, before its row says what is done.
ghost use Rattle.std.specs.Prelude.{◌≡◌, true, is_some, IfOk};
ghost use Rattle.gateway_rules.specs.Options.{options_of};
ghost use Rattle.gateway_exchanges.specs.Exchanges.{old_of};
ghost use Rattle.gateway_responses.specs.Heads.{heard_of, is_good, is_judged, IsJudged, is_kept, is_too_long, is_unasked, lesson_of, speaks_of_stored};

use gateway_exchanges::exchange::Exchange;
use gateway_rules::moments::Moment;
use gateway_rules::responses::Times;
use gateway_rules::values::{ResponseHead, STORED_IS_GOOD, StoreDecision};
use gateway_state::state::Gateway;
use gateway_types::responses::Heard;
use gateway_types::states::Fetch;
use rules_ffi_arguments::bad::Bad;

/// What is known of a final head.
#[derive(Drop)]
pub(crate) struct Known {
    pub heard: Heard,
    pub kept: Option<StoreDecision>,
    pub too_long: bool,
}

pub(crate) fn known_of(
    g: &Gateway,
    e: &Exchange,
    response: &ResponseHead,
    times: Times,
    now: Moment,
) -> Result<Known, Bad>
    ensures heard { IfOk result (λ known. known.heard ≡ heard_of g.now e.now response.now known.kept known.heard.stale_answers) }
    ensures judged { IfOk result (λ known. is_some known.kept ≡ is_judged e.now response.now.shape.code) }
    ensures decided { IfOk result (λ known. IsJudged (options_of g.now.rules) e.now response.now times known.kept) }
    ensures stale { IfOk result (λ known. known.heard.stale_answers ≡ true → is_some (old_of e.now) ≡ true) }
    ensures too_long { IfOk result (λ known. known.too_long ≡ is_too_long g.now response.now) }
{
    let status = response.status_code();
    let stale = e.is_stored_fetch() && g.rules.stale_on_error(&e.request, e.old(), now, status)?;
    let kept = judge(g, e, response, times)?;
    let length = response.length().unwrap_or(0);
    let too_long = length > g.limits.max_body_bytes;
    let too_much = length.saturating_add(g.flying) > g.limits.max_bytes / 2;
    let heard = Heard {
        fetch: e.fetch(),
        status: response.code(),
        unasked: is_unasked(e, status),
        stale_answers: stale,
        good: is_good(&kept),
        revalidates: speaks_of_stored(e, status),
        stores: e.steps.may_store(is_kept(&kept), too_long, too_much),
    };
    Ok(Known {
        heard,
        kept,
        too_long,
    })
}

// Whether the rules would store it, of what may be.
fn judge(
    g: &Gateway,
    e: &Exchange,
    response: &ResponseHead,
    times: Times,
) -> Result<Option<StoreDecision>, Bad>
    ensures { IfOk result (λ kept. IsJudged (options_of g.now.rules) e.now response.now times kept) }
{
    if matches!(e.fetch(), Fetch::Pass) || speaks_of_stored(e, response.status_code()) {
        return Ok(None);
    }
    let found = e.asks.found.as_ref();
    let kept = g.rules.decide_store(
        &e.request,
        e.asks.is_head,
        response,
        times,
        found,
        e.index.as_slice(),
    )?;
    Ok(Some(kept))
}

// Whether it may be stored.
pub(crate) fn is_kept(kept: &Option<StoreDecision>) -> bool
    ensures { result ≡ is_kept kept.now }
{
    match kept {
        None => false,
        Some(kept) => kept.is_kept(),
    }
}

// Whether what was found is good.
fn is_good(kept: &Option<StoreDecision>) -> bool
    ensures { result ≡ is_good kept.now }
{
    match kept {
        None => false,
        Some(kept) => kept.told.reason == STORED_IS_GOOD,
    }
}

// Whether it is a 304, and nobody had a condition.
fn is_unasked(e: &Exchange, status: u64) -> bool
    ensures { result ≡ is_unasked e.now status }
{
    status == 304 && !e.asks.is_conditional && e.request.is_get_or_head()
}

// Whether it speaks of what is stored, after the origin was asked about that.
fn speaks_of_stored(e: &Exchange, status: u64) -> bool
    ensures { result ≡ speaks_of_stored e.now status }
{
    matches!(e.fetch(), Fetch::Conditional) && (status == 304 || e.asks.is_head && status == 200)
}

/// What a final head teaches of the next response of its key.
#[derive(Clone, Copy)]
pub(crate) enum Lesson {
    Nothing,
    // It may be stored.
    Stored,
    // It won't be stored either.
    Unstored,
}

// A part, or a 304, teaches nothing.
pub(crate) fn lesson_of(e: &Exchange, kept: &StoreDecision, too_long: bool, status: u64) -> Lesson
    ensures { result ≡ lesson_of e.now.steps.state.origin.fetch kept.now too_long status }
{
    if status == 206 || status == 304 {
        return Lesson::Nothing;
    }
    let predicts = kept.told.predicts_uncacheable != 0;
    if !matches!(e.fetch(), Fetch::Unstored) {
        return if predicts || kept.is_kept() && too_long {
            Lesson::Unstored
        } else {
            Lesson::Nothing
        };
    }
    if kept.is_kept() && !too_long {
        return Lesson::Stored;
    }
    if predicts || too_long {
        Lesson::Unstored
    } else {
        Lesson::Nothing
    }
}
