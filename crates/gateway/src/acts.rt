//! What is done by what a request finds: an answer, a wait, or a request to the origin.
ghost use Rattle.std.specs.Prelude.{◌≡◌, true, false, is_some, OnOk};
ghost use Rattle.rules_ffi_arguments.specs.Moments.{nanoseconds_of};
ghost use Rattle.gateway_steps.specs.Phases.{awaits_answer, is_undecided};
ghost use Rattle.gateway_steps.specs.Sides.{capped_sum};
ghost use Rattle.gateway_rules.specs.Messages.{message_of};
ghost use Rattle.gateway_sides.specs.Answers.{BeginsAnswer};
ghost use Rattle.gateway_steps.specs.Steps.{answers, lets_go, waits_for};
ghost use Rattle.gateway_steps.specs.declared.state.Source.{Source};
ghost use Rattle.gateway_types.specs.declared.looks.LookVerdict.{LookVerdict};
ghost use Rattle.gateway_tier.specs.Looks.{HasSameButRequest};
ghost use Rattle.gateway.specs.Acts.{holder_of, may_act, writer_of, IsAnswered, IsCollapsed, IsDone, IsValidatedBehind, IsWaiting, SendsFound};

use crate::asking::{ask_origin, pass};
use crate::verdicts::{Verdict, how_served};
use bytes::Bytes;
use gateway_exchanges::exchange::{Exchange, nanoseconds};
use gateway_exchanges::found::{Look, nothing};
use gateway_exchanges::outs::{Event, Out};
use gateway_rules::moments::Moment;
use gateway_rules::stored::Stored;
use gateway_rules::values::{AUTHORIZATION, Message, ONLY_IF_CACHED_REASON, WHILE_REVALIDATING};
use gateway_sides::client_side::{generate, message_of_stored, serve, serve_message, serve_write};
use gateway_state::state::Gateway;
use gateway_tier::at_tier::{let_go, seek};
use gateway_tier::waking::{holder_at, writer_at};
use gateway_types::looks::{LookVerdict, Permit, Reuse};
use gateway_types::states::Fetch;
use rules_ffi_arguments::bad::Bad;
use rules_ffi_arguments::shapes::How;
use std::alloc::AllocError;

// What was found answers.
pub(crate) fn serve_found(
    g: &mut Gateway,
    e: &mut Exchange,
    found: &Option<Stored>,
    body: Bytes,
    now: Moment,
    how: How,
    out: &mut Out,
) -> Result<(), Bad>
    requires awaits { awaits_answer e.old.steps.state.client.phase ≡ true }
    requires there { is_some found.now ≡ true }
    ensures { OnOk result (IsAnswered Source.Body e.old.steps.state e.new.steps.state) }
{
    match found {
        Some(found) => serve(g, e, &found.shape, found.block(), body, now, how, out),
        None => Ok(()),
    }
}

pub(crate) fn act_by_verdict(
    g: &mut Gateway,
    e: &mut Exchange,
    verdict: Verdict,
    look: Look,
    past: bool,
    now: Moment,
    out: &mut Out,
) -> Result<(), Bad>
    requires undecided { is_undecided e.old.steps.state ≡ true }
    requires may_act { may_act verdict.does look e.old.steps.state ≡ true }
    ensures done { OnOk result (IsDone verdict.does (nanoseconds_of now) (capped_sum g.old.sequence 1) e.old.steps.state e.new.steps.state) }
    ensures sent { OnOk result (SendsFound verdict.does verdict.made look e.old.answer e.new.answer) }
{
    let Verdict { does, reuse, made } = verdict;
    match does {
        LookVerdict::Pass => {
            end_request(g, e, out)?;
            pass(g, e, AUTHORIZATION, now, out)
        }
        LookVerdict::Unavailable => answer_unavailable(g, e, now, out),
        LookVerdict::Hit => answer_found(g, e, look, made, reuse, now, out),
        LookVerdict::HitAndValidate => validate_behind(g, e, look, past, reuse, now, out),
        LookVerdict::Collapse => collapse(g, e, reuse, now, out),
        LookVerdict::Wait => Ok(wait(g, e, now, out)?),
        LookVerdict::Unstored => {
            end_request(g, e, out)?;
            ask_origin(g, e, Fetch::Unstored, look, past, false, now, out)
        }
        LookVerdict::Conditional => {
            ask_origin(g, e, Fetch::Conditional, look, past, false, now, out)
        }
        LookVerdict::Full | LookVerdict::LookPast => {
            ask_origin(g, e, Fetch::Full, look, past, false, now, out)
        }
    }
}

// Its request at the tier ends: the next one to the origin has the number that it would have had.
fn end_request(g: &mut Gateway, e: &mut Exchange, out: &mut Out) -> Result<(), AllocError>
    requires { is_undecided e.old.steps.state ≡ true }
    ensures state { e.new.steps.state ≡ lets_go e.old.steps.state }
    ensures sequence { g.new.sequence ≡ g.old.sequence }
{
    let_go(g, e, out)
}

// What was found answers, and nothing is asked.
fn answer_found(
    g: &mut Gateway,
    e: &mut Exchange,
    look: Look,
    made: Option<Message>,
    reuse: Reuse,
    now: Moment,
    out: &mut Out,
) -> Result<(), Bad>
    requires undecided { is_undecided e.old.steps.state ≡ true }
    requires there { is_some look.found ≡ true }
    ensures answered { OnOk result (IsAnswered Source.Body (lets_go e.old.steps.state) e.new.steps.state) }
    ensures sent { OnOk result (SendsFound LookVerdict.Hit made look e.old.answer e.new.answer) }
{
    let_go(g, e, out)?;
    answer_as_made(g, e, look, made, now, out)?;
    out.tell(Event::Hit(reuse))?;
    Ok(())
}

// Its head may have been made as it was weighed.
fn answer_as_made(
    g: &mut Gateway,
    e: &mut Exchange,
    look: Look,
    made: Option<Message>,
    now: Moment,
    out: &mut Out,
) -> Result<(), Bad>
    requires awaits { awaits_answer e.old.steps.state.client.phase ≡ true }
    requires there { is_some look.found ≡ true }
    ensures answered { OnOk result (IsAnswered Source.Body e.old.steps.state e.new.steps.state) }
    ensures sent { OnOk result (SendsFound LookVerdict.Hit made look e.old.answer e.new.answer) }
{
    let Look { found, body, .. } = look;
    match made {
        Some(made) => serve_made(g, e, made, body, out),
        None => serve_found(g, e, &found, body, now, how_served(e), out),
    }
}

fn answer_unavailable(
    g: &mut Gateway,
    e: &mut Exchange,
    now: Moment,
    out: &mut Out,
) -> Result<(), Bad>
    requires { is_undecided e.old.steps.state ≡ true }
    ensures { OnOk result (IsAnswered Source.Text (lets_go e.old.steps.state) e.new.steps.state) }
{
    let_go(g, e, out)?;
    generate(g, e, 504, ONLY_IF_CACHED_REASON, now, out)
}

// It answers, and is asked about behind.
fn validate_behind(
    g: &mut Gateway,
    e: &mut Exchange,
    look: Look,
    past: bool,
    reuse: Reuse,
    now: Moment,
    out: &mut Out,
) -> Result<(), Bad>
    requires undecided { is_undecided e.old.steps.state ≡ true }
    requires there { is_some look.found ≡ true }
    ensures { OnOk result (IsValidatedBehind (nanoseconds_of now) (capped_sum g.old.sequence 1) e.old.steps.state e.new.steps.state) }
{
    let how = How {
        detail: WHILE_REVALIDATING,
        ..how_served(e)
    };
    let body: Bytes = look.body.clone()?;
    let Some(found) = &look.found else {
        return Ok(());
    };
    let length = body.len() as u64;
    let made = message_of_stored(g, e, &found.shape, found.block(), Some(length), now, how)?;
    out.tell(Event::Hit(reuse))?;
    ask_origin(g, e, Fetch::Conditional, look, past, true, now, out)?;
    serve_made(g, e, made, body, out)
}

// Its head was made before the origin was asked.
fn serve_made(
    g: &mut Gateway,
    e: &mut Exchange,
    made: Message,
    body: Bytes,
    out: &mut Out,
) -> Result<(), Bad>
    requires { awaits_answer e.old.steps.state.client.phase ≡ true }
    ensures answered { OnOk result (IsAnswered Source.Body e.old.steps.state e.new.steps.state) }
    ensures begun { OnOk result (BeginsAnswer (message_of made) (answers Source.Body e.old.steps.state) body e.old e.new) }
{
    serve_message(g, e, made, body, out)?;
    Ok(())
}

fn wait(g: &mut Gateway, e: &mut Exchange, now: Moment, out: &mut Out) -> Result<(), AllocError>
    requires undecided { is_undecided e.old.steps.state ≡ true }
    requires held { e.old.steps.state.tier.held ≡ true }
    requires without { is_some e.old.steps.state.tier.permit ≡ false }
    ensures waits { OnOk result (IsWaiting (nanoseconds_of now) e.old.steps.state e.new.steps.state) }
    ensures holder { OnOk result (e.new.steps.state ≡ waits_for (nanoseconds_of now) (holder_of g.old.table e.old.key) e.old.steps.state) }
{
    let holder = holder_of(g, e);
    e.steps.wait(nanoseconds(now), holder);
    out.tell(Event::Waiting)
}

// Who has the permit where it looked.
fn holder_of(g: &Gateway, e: &Exchange) -> Option<u64>
    ensures { result ≡ holder_of g.now.table e.now.key }
{
    match &e.key {
        Some(key) => holder_at(g, key),
        None => None,
    }
}

// Whose write is found where it looked.
fn writer_of(g: &Gateway, e: &Exchange) -> Option<u64>
    ensures { result ≡ writer_of g.now.table e.now.key }
{
    match &e.key {
        Some(key) => writer_at(g, key),
        None => None,
    }
}

// Looks up once more where it looked, without the permit; `past`: as if nothing were fresh.
pub(crate) fn seek_again(
    g: &mut Gateway,
    e: &mut Exchange,
    past: bool,
    now: Moment,
    out: &mut Out,
) -> Result<Look, Bad>
    requires { is_undecided e.old.steps.state ≡ true }
    ensures state { HasSameButRequest e.old.steps.state e.new.steps.state }
    ensures sequence { g.new.sequence ≡ g.old.sequence }
{
    match e.key {
        Some(key) => seek(g, e, &key, now, false, past, out),
        None => Ok(nothing(Permit::None)),
    }
}

// Reads on in what another stores.
fn collapse(
    g: &mut Gateway,
    e: &mut Exchange,
    reuse: Reuse,
    now: Moment,
    out: &mut Out,
) -> Result<(), Bad>
    requires { is_undecided e.old.steps.state ≡ true }
    ensures { OnOk result (IsCollapsed e.new.steps.state) }
{
    let_go(g, e, out)?;
    let writer = writer_of(g, e);
    let look = seek_again(g, e, false, now, out)?;
    if e.is_held()
        && !e.has_permit()
        && let (Some(found), false, Some(writer)) = (&look.found, look.whole, writer)
    {
        e.steps.collapse(writer);
        let how = how_served(e);
        serve_write(g, e, &found.shape, found.block(), now, how, out)?;
        out.tell(Event::Collapsed(reuse))?;
        return Ok(());
    }
    if e.request.only_if_cached() {
        return answer_unavailable(g, e, now, out);
    }
    ask_origin(g, e, Fetch::Full, look, false, false, now, out)
}
