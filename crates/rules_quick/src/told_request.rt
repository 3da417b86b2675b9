//! What is told of a request that was read, and what is to be done with it.
ghost use Rattle.std.specs.Prelude.{◌≡◌, ◌++◌, map, length, bytes_eq, IfOk, OnOk};
ghost use Rattle.std.specs.List.{list_any};
ghost use Rattle.rules_fields.specs.Texts.{small};
ghost use Rattle.rules_fields.specs.Fields.{fields};
ghost use Rattle.rules_fields.specs.Types.{asked_of, chosen};
ghost use Rattle.http1_message.specs.RequestViews.{head_view, heard};
ghost use Rattle.rules_reuse.specs.Planning.{has_content};
ghost use Rattle.rules_ffi_arguments.specs.Rooms.{block, behind};
ghost use Rattle.rules_quick.specs.Requests.{unread, refused, awaits, marks_of, why_number, plan_numbers, request_told, shaped, told_heard, asked_lines};

use http1_message::request::{HeardRequest, RequestHead};
use http1_message_parts::reason::Reason;
use rules_ffi_arguments::room::{add_block, add_line, add_text};
use rules_ffi_arguments::shapes::{RequestShape, Span};
use rules_ffi_results::marks::{
    CLOSES, EXPECTS, IS_HEAD, MORE, NOWHERE, ONLY_IF_CACHED, READ, REFUSED, RELOADS,
    TAKES_TRAILERS, framing_numbers, mark,
};
use rules_ffi_results::reasons::refusal_number;
use rules_fields::Line;
use rules_fields::blanks::is_small;
use rules_fields::tables::is_asked;
use rules_fields::types::{Framing, Options, Request};
use rules_reuse::keys::key;
use rules_reuse::planning::{Plan, Why, is_reload, only_if_cached, plan_of};
use std::alloc::{AllocError, Global};

/// A request that wasn't read.
pub fn unread(status: u64, needed: u64, refusal: u64, reason: u64) -> RequestShape
    ensures { result ≡ unread status needed refusal reason }
{
    RequestShape {
        status,
        needed,
        used: 0,
        refusal,
        reason,
        plan: 0,
        minor: 0,
        framing: 0,
        length: 0,
        marks: 0,
        method: NOWHERE,
        host: NOWHERE,
        target: NOWHERE,
        key: NOWHERE,
        lines: NOWHERE,
        whole: NOWHERE,
        asked: NOWHERE,
    }
}

fn refused(reason: Reason) -> RequestShape
    ensures { result ≡ refused reason }
{
    unread(REFUSED, 0, reason.status() as u64, refusal_number(reason))
}

/// What is told of what was heard.
pub fn told(
    alloc: Global,
    first: &HeardRequest<'_>,
    options: &Options<'_>,
) -> Result<(Vec<u8>, RequestShape), AllocError>
    ensures { IfOk result (λ t. (t.0.items, t.1) ≡ told_heard (heard first.now) (chosen options.now)) }
{
    match first {
        HeardRequest::More => Ok((Vec::new(alloc), unread(MORE, 0, 0, 0))),
        HeardRequest::Refused(reason) => Ok((Vec::new(alloc), refused(*reason))),
        HeardRequest::Read(head, used) => told_head(alloc, head, *used as u64, options),
    }
}

fn has_token(elements: &[&[u8]], wanted: &[u8]) -> bool
    ensures { result ≡ list_any (λ e. bytes_eq (small e) wanted.now) (map (λ e. e.now) elements.now) }
{
    for element in elements {
        if is_small(element, wanted) {
            return true;
        }
    }
    false
}

fn has_body(framing: Framing) -> bool
    ensures { result ≡ has_content framing }
{
    match framing {
        Framing::None => false,
        Framing::Length(n) => n != 0,
        _ => true,
    }
}

fn awaits(request: &Request<'_>, expects: bool) -> bool
    ensures { result ≡ awaits (asked_of request.now) expects }
{
    request.minor == 1 && has_body(request.framing) && expects
}

fn marks_of(
    alloc: Global,
    request: &Request<'_>,
    connection: &[&[u8]],
    expects: bool,
    options: &Options<'_>,
) -> Result<u64, AllocError>
    ensures { IfOk result (λ m. m ≡ marks_of (asked_of request.now) (map (λ e. e.now) connection.now) expects (chosen options.now)) }
{
    let only = only_if_cached(alloc, request, options)?;
    let reloads = is_reload(alloc, request, options)?;
    let closes = request.minor == 0 || has_token(connection, b"close");
    Ok(
        mark(closes, CLOSES)
            + mark(request.takes_trailers, TAKES_TRAILERS)
            + mark(awaits(request, expects), EXPECTS)
            + mark(request.method == b"HEAD".as_slice(), IS_HEAD)
            + mark(only, ONLY_IF_CACHED)
            + mark(reloads, RELOADS),
    )
}

// The number of why a request passes.
fn why_number(why: Why) -> u64
    ensures { result ≡ why_number why }
{
    match why {
        Why::Method => 6,
        Why::Content => 25,
        Why::Precondition => 26,
        Why::NoStore => 27,
    }
}

// What is to be done, as numbers: the plan, the status of an answer, and why.
fn plan_numbers(plan: Plan) -> (u64, u64, u64)
    ensures { (result.0, result.1, result.2) ≡ plan_numbers plan }
{
    match plan {
        Plan::Look => (1, 0, 0),
        Plan::Pass(why) => (2, 0, why_number(why)),
        Plan::LastForward(status) => (3, status as u64, 24),
        Plan::OnlyIfCached => (3, 504, 51),
    }
}

fn told_head(
    alloc: Global,
    head: &RequestHead<'_>,
    used: u64,
    options: &Options<'_>,
) -> Result<(Vec<u8>, RequestShape), AllocError>
    ensures { IfOk result (λ t. (t.0.items, t.1) ≡ shaped (head_view head.now) used (chosen options.now)) }
{
    let lines = head.lines(alloc)?;
    let request = head.request(lines.as_slice());
    let key = key(alloc, &request, options)?;
    let plan = plan_of(alloc, &request, options)?;
    let connection = head.connection.as_slice();
    let marks = marks_of(alloc, &request, connection, head.expects, options)?;
    shaped(
        alloc,
        &request,
        key.as_slice(),
        plan_numbers(plan),
        marks,
        used,
    )
}

// Adds the lines by which what is stored answers.
fn add_asked_lines(text: &mut Vec<u8>, lines: &[Line<'_>]) -> Result<(), AllocError>
    ensures { OnOk result (text.new.items ≡ text.old.items ++ block (asked_lines (fields lines.now))) }
{
    for line in lines {
        if is_asked(line.name) {
            add_line(text, line.name, line.value)?;
        }
    }
    Ok(())
}

// And tells where they stand.
fn add_asked(text: &mut Vec<u8>, lines: &[Line<'_>]) -> Result<Span, AllocError>
    ensures text { OnOk result (text.new.items ≡ text.old.items ++ block (asked_lines (fields lines.now))) }
    ensures span { IfOk result (λ s. s ≡ behind (length text.old.items) (block (asked_lines (fields lines.now)))) }
{
    let from = text.len() as u64;
    add_asked_lines(text, lines)?;
    Ok(Span {
        from,
        to: text.len() as u64,
    })
}

// The bytes of a line, for the first guess how long a text gets.
const USUAL_LINE: usize = 64;

fn shaped(
    alloc: Global,
    request: &Request<'_>,
    key: &[u8],
    plan: (u64, u64, u64),
    marks: u64,
    used: u64,
) -> Result<(Vec<u8>, RequestShape), AllocError>
    ensures { IfOk result (λ t. (t.0.items, t.1) ≡ request_told (asked_of request.now) key.now (plan.0, plan.1, plan.2) marks used) }
{
    let usual = request.lines.len().saturating_mul(USUAL_LINE);
    let mut text = Vec::with_capacity(alloc, usual.saturating_add(key.len()))?;
    let method = add_text(&mut text, request.method)?;
    let host = add_text(&mut text, request.host)?;
    let target = add_text(&mut text, request.target)?;
    let key = add_text(&mut text, key)?;
    let lines = add_block(&mut text, request.lines)?;
    let asked = add_asked(&mut text, request.lines)?;
    let (framing, length) = framing_numbers(request.framing);
    let shape = RequestShape {
        used,
        refusal: plan.1,
        reason: plan.2,
        plan: plan.0,
        minor: request.minor as u64,
        framing,
        length,
        marks,
        method,
        host,
        target,
        key,
        lines,
        whole: Span {
            from: 0,
            to: asked.to,
        },
        asked,
        ..unread(READ, 0, 0, 0)
    };
    Ok((text, shape))
}
