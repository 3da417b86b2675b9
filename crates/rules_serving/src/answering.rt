//! The answer from what is stored.
ghost use Rattle.std.specs.Prelude.{◌≡◌, ◌==◌, if◌then◌else◌, map, length, codes, option_map, option_and_then, string_bytes, Some, IfOk};
ghost use Rattle.rules_fields.specs.Numbers.{digits};
ghost use Rattle.rules_fields.specs.Fields.{first};
ghost use Rattle.rules_fields.specs.Types.{asked_of, chosen};
ghost use Rattle.rules_response.specs.Sent.{sent_fields};
ghost use Rattle.rules_response.specs.Reply.{piece_of, reply_of};
ghost use Rattle.rules_ffi_arguments.specs.Given.{Gives};
ghost use Rattle.rules_ffi_results.specs.Numbers.{blank};
ghost use Rattle.rules_serving.specs.Answers.{known, whole_head, pieces_of, reply_framing, closes, shaped, reply_by, reply_in, is_list};
ghost use Rattle.rules_ffi_results.specs.Sending.{sent_view, Answers};

use crate::boundary::boundary_in;
use crate::whole::whole_reply;
use rules_ffi_arguments::bad::Bad;
use rules_ffi_arguments::kept::kept;
use rules_ffi_arguments::moments::{moment_in, nanoseconds_of};
use rules_ffi_arguments::options::{has_mark, lists_in, options};
use rules_ffi_arguments::request::request;
use rules_ffi_arguments::room::add_text;
use rules_ffi_arguments::shapes::{
    HeadShape, How, OptionNumbers, Out, PartShape, RequestShape, Span,
};
use rules_ffi_arguments::spans::{block_lines, lines_in};
use rules_ffi_results::heads::{add_end, add_sent, add_status, sent_framing};
use rules_ffi_results::how::{how_in, said, time_to_live};
use rules_ffi_results::marks::{BAD_CALL, CLOSES, DONE, IS_HEAD, LIST, MEMORY, NONE, blank, mark};
use rules_ffi_results::parts::add_parts;
use rules_ffi_results::sending::{Sent, placed};
use rules_fields::blanks::is_small;
use rules_fields::number::digits;
use rules_fields::types::{Options, Request};
use rules_response::answering::{Answer, Part, answer_of};
use rules_response::lines::SentLine;
use std::alloc::{AllocError, Global};

/// The answer from what is stored: a whole head in `head`, then each part, then `more`. `length` is that of the body, or none.
pub fn answer(
    alloc: Global,
    numbers: &OptionNumbers,
    words: &[u8],
    shape: &RequestShape,
    text: &[u8],
    head: &HeadShape,
    block: &[u8],
    length: u64,
    seconds: u64,
    nanoseconds: u64,
    how: &How,
    room: &mut [u8],
    parts: &mut [PartShape],
    out: &mut Out,
)
    ensures { Answers blank (reply_in numbers.now words.now shape.now text.now head.now block.now length seconds nanoseconds how.now) room.old room.new parts.old parts.new out.new }
{
    *out = match answered(
        alloc,
        numbers,
        words,
        shape,
        text,
        head,
        block,
        length,
        seconds,
        nanoseconds,
        how,
    ) {
        Err(Bad::Memory) => blank(MEMORY, 0),
        Err(Bad::Call) => blank(BAD_CALL, 0),
        Ok(sent) => placed(&sent, room, parts),
    };
}

fn known(length: u64) -> Option<u64>
    ensures { result ≡ known length }
{
    if length == NONE { None } else { Some(length) }
}

#[tactic(auto, unfolding(crate::specs::Answers::reply_in))]
fn answered(
    alloc: Global,
    numbers: &OptionNumbers,
    words: &[u8],
    shape: &RequestShape,
    text: &[u8],
    head: &HeadShape,
    block: &[u8],
    length: u64,
    seconds: u64,
    nanoseconds: u64,
    how: &How,
) -> Result<Sent, Bad>
    ensures { Gives sent_view result (reply_in numbers.now words.now shape.now text.now head.now block.now length seconds nanoseconds how.now) }
{
    let lists = lists_in(alloc, words)?;
    let options = options(numbers, &lists)?;
    let how = how_in(how)?;
    let asked = lines_in(alloc, text, shape.asked)?;
    let request = request(shape, text, asked.as_slice(), options.scheme)?;
    let now = moment_in(seconds, nanoseconds)?;
    if is_list(head) {
        return Err(Bad::Call);
    }
    reply_by(
        alloc, shape, &request, head, block, length, now, how, &options,
    )
}

/// Whether what is stored is no response, but a list of sets of names, by which responses vary.
pub fn is_list(head: &HeadShape) -> bool
    ensures { result ≡ is_list head.now }
{
    head.status == LIST
}

/// The answer to a request that was read.
pub fn reply_by(
    alloc: Global,
    shape: &RequestShape,
    request: &Request<'_>,
    head: &HeadShape,
    block: &[u8],
    length: u64,
    now: u64,
    how: &How,
    options: &Options<'_>,
) -> Result<Sent, Bad>
    ensures { Gives sent_view result (reply_by shape.now (asked_of request.now) head.now block.now length now how.now (chosen options.now)) }
{
    let whole = whole_reply(
        alloc, shape, request, head, block, length, now, how, options,
    )?;
    match whole {
        Some(sent) => Ok(sent),
        None => reply_from(
            alloc, shape, request, head, block, length, now, how, options,
        ),
    }
}

// The answer by the list of the stored lines.
#[tactic(auto, unfolding(crate::specs::Answers::reply_by))]
fn reply_from(
    alloc: Global,
    shape: &RequestShape,
    request: &Request<'_>,
    head: &HeadShape,
    block: &[u8],
    length: u64,
    now: u64,
    how: &How,
    options: &Options<'_>,
) -> Result<Sent, Bad>
    ensures { Gives sent_view result (reply_by shape.now (asked_of request.now) head.now block.now length now how.now (chosen options.now)) }
{
    let stored = block_lines(alloc, block)?;
    let kept = kept(head, stored.as_slice())?;
    let left = time_to_live(nanoseconds_of(head.updated), kept.lifetime, now);
    let said = said(alloc, how, Some(left))?;
    let texts = said.lent(alloc)?;
    let boundary = boundary_in(alloc, &request, now, &options)?;
    let answer = answer_of(
        alloc,
        request,
        &kept,
        known(length),
        now,
        bytes_of(&boundary),
        texts.as_slice(),
        options,
    )?;
    Ok(shaped(alloc, &answer, shape, how)?)
}

fn bytes_of(text: &Option<String>) -> Option<&[u8]>
    ensures { option_map (λ b. b.now) result ≡ option_map string_bytes text.now }
{
    match text {
        Some(text) => Some(text.as_bytes()),
        None => None,
    }
}

// The value of the first line of a name, which is given in small letters.
fn value_of<'a>(lines: &'a [SentLine<'_>], name: &[u8]) -> Option<&'a [u8]>
    ensures { option_map (λ v. v.now) result ≡ first name.now (sent_fields lines.now) }
{
    for line in lines {
        if is_small(line.name, name) {
            return Some(line.value.bytes());
        }
    }
    None
}

// The length that an answer states.
fn stated(answer: &Answer<'_>) -> Option<u64>
    ensures { result ≡ option_and_then digits (first (codes "content-length") (sent_fields answer.now.lines.items)) }
{
    match value_of(answer.lines.as_slice(), b"content-length") {
        None => None,
        Some(text) => digits(text),
    }
}

fn parts_of<'a>(answer: &'a Answer<'_>) -> &'a [Part]
    ensures { map piece_of result.now ≡ pieces_of (reply_of answer.now) }
{
    match &answer.parts {
        None => &[],
        Some(parts) => parts.as_slice(),
    }
}

// How it is sent.
fn framing_of(answer: &Answer<'_>, minor: u64) -> (u64, u64)
    ensures { (result.0, result.1) ≡ reply_framing (reply_of answer.now) minor }
{
    sent_framing(answer.parts.is_some(), stated(answer), minor)
}

#[tactic(auto, unfolding(crate::specs::Answers::whole_head))]
fn head_text(
    alloc: Global,
    answer: &Answer<'_>,
    form: u64,
    closes: bool,
) -> Result<Vec<u8>, AllocError>
    ensures { IfOk result (λ t. t.items ≡ whole_head answer.now.status (sent_fields answer.now.lines.items) form closes) }
{
    let mut text = Vec::new(alloc);
    add_status(&mut text, answer.status)?;
    add_sent(&mut text, answer.lines.as_slice())?;
    add_end(&mut text, form, closes)?;
    Ok(text)
}

fn with_after(told: Out, after: &[u8], span: Span) -> Out
    ensures { result ≡ (if length after.now == 0 then told else record told { more = span }) }
{
    if after.is_empty() {
        told
    } else {
        Out { more: span, ..told }
    }
}

/// Whether the connection ends: the request wants it, or the caller.
pub fn ends(shape: &RequestShape, how: &How) -> bool
    ensures { result ≡ closes shape.now how.now }
{
    has_mark(shape.marks, CLOSES) || how.closes == 1
}

/// A reply, as it is written and told.
pub fn shaped(
    alloc: Global,
    answer: &Answer<'_>,
    shape: &RequestShape,
    how: &How,
) -> Result<Sent, AllocError>
    ensures { IfOk result (λ s. sent_view s ≡ shaped (reply_of answer.now) shape.now how.now) }
{
    let (form, length) = framing_of(answer, shape.minor);
    let closes = ends(shape, how);
    let mut text = head_text(alloc, answer, form, closes)?;
    let to = text.len() as u64;
    let parts = add_parts(alloc, &mut text, parts_of(answer))?;
    let more = add_text(&mut text, answer.after.as_slice())?;
    let told = Out {
        code: answer.status as u64,
        framing: form,
        length,
        marks: mark(closes, CLOSES) + mark(has_mark(shape.marks, IS_HEAD), IS_HEAD),
        parts: parts.len() as u64,
        head: Span { from: 0, to },
        ..blank(DONE, 0)
    };
    let told = with_after(told, answer.after.as_slice(), more);
    Ok(Sent { text, told, parts })
}
