//! What the client is sent: heads, and bodies in their framing.
ghost use Rattle.std.specs.Prelude.{◌≡◌, ◌==◌, Some, None, IfOk, OnOk, OnErr, length, true, false};
ghost use Rattle.rules_ffi_arguments.specs.Given.{Gives};
ghost use Rattle.rules_ffi_arguments.specs.Moments.{moment_in};
ghost use Rattle.gateway_rules.specs.Dated.{IsDated};
ghost use Rattle.gateway_rules.specs.Messages.{MessageValue, message_of};
ghost use Rattle.gateway_rules.specs.Options.{options_of};
ghost use Rattle.gateway_rules.specs.Requests.{own_in};
ghost use Rattle.gateway_rules.specs.Responses.{served_in};
ghost use Rattle.gateway_rules.specs.Values.{request_of, response_of};
ghost use Rattle.gateway_rows.specs.Bodies.{is_idle};
ghost use Rattle.gateway_steps.specs.Phases.{awaits_answer};
ghost use Rattle.gateway_steps.specs.Sides.{release_if};
ghost use Rattle.gateway_steps.specs.Steps.{answers};
ghost use Rattle.gateway_exchanges.specs.Frames.{HasSameAnswer, HasSameButWakes};
ghost use Rattle.gateway_exchanges.specs.Replies.{reply_of, with_wake};
ghost use Rattle.gateway_sides.specs.Answers.{how_for, closes_for, BeginsAnswer, IsAnswered, KeepsSides};
ghost use Rattle.gateway_sides.specs.Relays.{fetch_told, how_relayed, relayed_for, with_all};
ghost use Rattle.gateway_tier.specs.Releases.{uncounted, woken_by, Releases};
ghost use Rattle.gateway_tier.specs.Roles.{with_wakes};

use crate::origin_side::fetch_number;
use bytes::Bytes;
use gateway_exchanges::exchange::Exchange;
use gateway_exchanges::outs::{Event, Out};
use gateway_rules::moments::Moment;
use gateway_rules::responses::Times;
use gateway_rules::values::{CLOSE, Message, NO_BODY, PREDICTED, ResponseHead, UNSTORED, text_of};
use gateway_state::state::Gateway;
use gateway_steps::state::Source;
use gateway_tier::at_tier::release;
use gateway_types::states::Fetch;
use rules_ffi_arguments::bad::Bad;
use rules_ffi_arguments::shapes::{HeadShape, How, PartShape, Span};
use rules_ffi_results::marks::{NONE, NOWHERE};
use std::alloc::{AllocError, Global};

// ==== heads

// Its head is made: that of the answer goes first, then what the parts say. (What the answer is made of, the steps know, which go on once this was done.)
fn begin_answer(e: &mut Exchange, made: Message, out: &mut Out) -> Result<(), AllocError>
    ensures begun { OnOk result (BeginsAnswer (message_of made) e.old.steps.state e.old.answer.whole e.old e.new) }
    ensures woken { OnOk result (reply_of out.new ≡ with_wake e.old.x (reply_of out.old)) }
    ensures rest { HasSameButWakes out.old out.new }
    ensures steps { OnErr result (e.new.steps ≡ e.old.steps) }
    ensures sides { KeepsSides e.old.steps.state e.new.steps.state }
    ensures origin { e.new.steps.state.origin ≡ e.old.steps.state.origin }
    ensures tier { e.new.steps.state.tier ≡ e.old.steps.state.tier }
    ensures exchange { e.new ≡ record e.old { steps = e.new.steps; answer = e.new.answer } }
{
    out.wake(e.x)?;
    let head = text_of(made.text.as_slice(), made.head);
    e.answer.buffer.extend_from_slice(head)?;
    if made.closes || made.framing == CLOSE {
        e.steps.close_behind();
    }
    e.answer.framing = made.framing;
    e.answer.parts = made.parts;
    e.answer.after = made.tail;
    e.answer.texts = made.text;
    e.answer.place = None;
    e.answer.seen = 0;
    Ok(())
}

fn how_by(e: &Exchange, how: How) -> How
    ensures { result ≡ how_for e.now how }
{
    How {
        closes: if e.closes_after() { 1 } else { 0 },
        ..how
    }
}

/// An answer of the gateway's own.
#[tactic(auto, using(crate::proofs::Closing::closed_answers))]
pub fn generate(
    g: &mut Gateway,
    e: &mut Exchange,
    code: u64,
    reason: u64,
    now: Moment,
    out: &mut Out,
) -> Result<(), Bad>
    requires { awaits_answer e.old.steps.state.client.phase ≡ true }
    ensures answered { OnOk result (IsAnswered e.old.steps.state e.new.steps.state) }
    ensures begun { OnOk result ((m : MessageValue)
        × IsDated (moment_in now.seconds now.nanoseconds) (own_in (options_of g.old.rules) (request_of e.old.request) code reason (closes_for e.old)) (Some m)
        × BeginsAnswer m (answers Source.Text e.old.steps.state) e.old.answer.whole e.old e.new) }
    ensures released { OnOk result (Releases (release_if (is_idle e.old.steps.state.origin.phase) e.old.steps.state.tier) e.old g.old g.new) }
    ensures gateway { g.new ≡ record g.old { tier = g.new.tier; flying = g.new.flying } }
    ensures rest { HasSameAnswer out.old out.new }
{
    let closes = e.closes_after();
    let made = g
        .rules
        .make_response(&e.request, code, reason, now, closes)?;
    begin_answer(e, made, out)?;
    let released = e.steps.answer(Source::Text);
    release(g, e, released, out)?;
    out.tell(Event::Generated(code, reason))?;
    Ok(())
}

/// The head of an answer from what is stored; a length where the whole body is there.
pub fn message_of_stored(
    g: &Gateway,
    e: &Exchange,
    head: &HeadShape,
    block: &[u8],
    length: Option<u64>,
    now: Moment,
    how: How,
) -> Result<Message, Bad>
    ensures { Gives message_of result (served_in (options_of g.now.rules) (request_of e.now.request) head.now block.now length now (how_for e.now how)) }
{
    let how = how_by(e, how);
    g.rules
        .serve_stored(&e.request, head, block, length, now, &how)
}

/// What is stored answers, whose whole body is given.
#[tactic(auto, using(crate::proofs::Closing::closed_answers))]
pub fn serve_message(
    g: &mut Gateway,
    e: &mut Exchange,
    made: Message,
    whole: Bytes,
    out: &mut Out,
) -> Result<(), AllocError>
    requires { awaits_answer e.old.steps.state.client.phase ≡ true }
    ensures answered { OnOk result (IsAnswered e.old.steps.state e.new.steps.state) }
    ensures begun { OnOk result (BeginsAnswer (message_of made) (answers Source.Body e.old.steps.state) whole e.old e.new) }
    ensures released { OnOk result (Releases (release_if (is_idle e.old.steps.state.origin.phase) e.old.steps.state.tier) e.old g.old g.new) }
    ensures woken { OnOk result (reply_of out.new
        ≡ with_wakes (woken_by (release_if (is_idle e.old.steps.state.origin.phase) e.old.steps.state.tier) e.new g.old.table) (with_wake e.old.x (reply_of out.old))) }
    ensures gateway { g.new ≡ record g.old { tier = g.new.tier; flying = g.new.flying } }
    ensures rest { HasSameButWakes out.old out.new }
{
    begin_answer(e, made, out)?;
    e.answer.whole = whole;
    let released = e.steps.answer(Source::Body);
    release(g, e, released, out)?;
    Ok(())
}

/// An answer from what is stored, whose whole body is given.
pub fn serve(
    g: &mut Gateway,
    e: &mut Exchange,
    head: &HeadShape,
    block: &[u8],
    whole: Bytes,
    now: Moment,
    how: How,
    out: &mut Out,
) -> Result<(), Bad>
    requires { awaits_answer e.old.steps.state.client.phase ≡ true }
    ensures answered { OnOk result (IsAnswered e.old.steps.state e.new.steps.state) }
    ensures begun { OnOk result ((m : MessageValue)
        × (served_in (options_of g.old.rules) (request_of e.old.request) head.now block.now (Some (length whole)) now (how_for e.old how) ≡ Some m)
        × BeginsAnswer m (answers Source.Body e.old.steps.state) whole e.old e.new) }
    ensures released { OnOk result (Releases (release_if (is_idle e.old.steps.state.origin.phase) e.old.steps.state.tier) e.old g.old g.new) }
    ensures woken { OnOk result (reply_of out.new
        ≡ with_wakes (woken_by (release_if (is_idle e.old.steps.state.origin.phase) e.old.steps.state.tier) e.new g.old.table) (with_wake e.old.x (reply_of out.old))) }
    ensures gateway { g.new ≡ record g.old { tier = g.new.tier; flying = g.new.flying } }
    ensures rest { HasSameButWakes out.old out.new }
{
    let length = whole.len() as u64;
    let made = message_of_stored(g, e, head, block, Some(length), now, how)?;
    serve_message(g, e, made, whole, out)?;
    Ok(())
}

/// An answer from what is being stored: the steps say whose write that is.
pub fn serve_write(
    g: &mut Gateway,
    e: &mut Exchange,
    head: &HeadShape,
    block: &[u8],
    now: Moment,
    how: How,
    out: &mut Out,
) -> Result<(), Bad>
    ensures begun { OnOk result ((m : MessageValue)
        × (served_in (options_of g.old.rules) (request_of e.old.request) head.now block.now None now (how_for e.old how) ≡ Some m)
        × BeginsAnswer m e.old.steps.state e.old.answer.whole e.old e.new) }
    ensures steps { OnErr result (e.new.steps ≡ e.old.steps) }
    ensures woken { OnOk result (reply_of out.new ≡ with_wake e.old.x (reply_of out.old)) }
    ensures gateway { g.new ≡ g.old }
    ensures rest { HasSameButWakes out.old out.new }
{
    let made = message_of_stored(g, e, head, block, None, now, how)?;
    begin_answer(e, made, out)?;
    Ok(())
}

// A detail that the rules have no number for, and that which stands in its place.
const USUAL_DETAIL: &[u8] = b"detail=unstored";

const OWN_DETAIL: &[u8] = b"detail=predicted";

// Where a text stands last in another: what the gateway says stands behind what the origin said (RFC 9211, 2).
fn place_of(text: &[u8], sought: &[u8]) -> Option<usize> {
    let mut last = None;
    for place in 0..text.len() {
        if text[place..].starts_with(sought) {
            last = Some(place);
        }
    }
    last
}

// The gateway's own detail in a head, in the place of the usual one.
fn put_detail(alloc: Global, head: &[u8], place: usize) -> Result<Vec<u8>, AllocError> {
    let mut text = Vec::with_capacity(alloc, head.len())?;
    text.extend_from_slice(head.get(..place.min(head.len())).unwrap_or(&[]))?;
    text.extend_from_slice(OWN_DETAIL)?;
    let behind = place.saturating_add(USUAL_DETAIL.len());
    text.extend_from_slice(head.get(behind..).unwrap_or(&[]))?;
    Ok(text)
}

// A detail that the rules have no number for stands where theirs would.
fn add_detail(alloc: Global, made: Message, detail: u64) -> Result<Message, AllocError>
    ensures { (detail == 1000) ≡ false → IfOk result (λ m. message_of m ≡ message_of made) }
{
    if detail != PREDICTED {
        return Ok(made);
    }
    let head = text_of(made.text.as_slice(), made.head);
    let Some(place) = place_of(head, USUAL_DETAIL) else {
        return Ok(made);
    };
    let text = put_detail(alloc, head, place)?;
    let to = text.len() as u64;
    Ok(Message {
        text,
        head: Span { from: 0, to },
        ..made
    })
}

// What was asked, by the rules' numbers: what was asked for a part, or isn't to be stored, isn't told.
fn fetch_told(e: &Exchange) -> u64
    ensures { result ≡ fetch_told e.now }
{
    match e.fetch() {
        Fetch::Pass | Fetch::Unstored => 0,
        _ if e.asks.has_range => 0,
        other => fetch_number(other),
    }
}

fn how_relayed(e: &Exchange, how: How) -> How
    ensures { result ≡ how_relayed how e.now }
{
    let detail = how.detail;
    How {
        fetch: fetch_told(e),
        detail: if detail < PREDICTED { detail } else { UNSTORED },
        ..how_by(e, how)
    }
}

// Of a whole response with a body, from which no part was taken, the client gets all.
fn add_all(made: &mut Message, status: u64) -> Result<(), AllocError>
    ensures { OnOk result (message_of made.new ≡ with_all status (message_of made.old)) }
{
    let is_same = made.status_code == status && made.framing != NO_BODY;
    if is_same && made.parts.is_empty() {
        made.parts.push(PartShape {
            before: NOWHERE,
            from: 0,
            to: NONE,
        })?;
    }
    Ok(())
}

// The rules' message, and of a whole body all of it.
fn rules_message(
    g: &Gateway,
    e: &Exchange,
    response: &ResponseHead,
    times: Times,
    how: How,
) -> Result<Message, Bad>
    ensures { Gives message_of result (relayed_for (options_of g.now.rules) e.now (response_of response.now) times how) }
{
    let told = how_relayed(e, how);
    let mut made = g.rules.relay_response(&e.request, response, times, &told)?;
    add_all(&mut made, response.status_code())?;
    Ok(made)
}

/// The head of a response that isn't stored; of a whole one the client may get a part, or that it has it.
pub fn relayed_message(
    g: &Gateway,
    e: &Exchange,
    response: &ResponseHead,
    times: Times,
    how: How,
) -> Result<Message, Bad>
    ensures { (how.detail == 1000) ≡ false → Gives message_of result (relayed_for (options_of g.now.rules) e.now (response_of response.now) times how) }
{
    let made = rules_message(g, e, response, times, how)?;
    let made = add_detail(g.alloc, made, how.detail)?;
    Ok(made)
}

/// It goes to the client.
pub fn begin_relay(e: &mut Exchange, made: Message, out: &mut Out) -> Result<(), AllocError>
    ensures begun { OnOk result (BeginsAnswer (message_of made) e.old.steps.state e.old.answer.whole e.old e.new) }
    ensures woken { OnOk result (reply_of out.new ≡ with_wake e.old.x (reply_of out.old)) }
    ensures rest { HasSameButWakes out.old out.new }
{
    begin_answer(e, made, out)
}
