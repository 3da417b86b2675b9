//! The whole of what is stored, written at once from the stored lines: the answer to a request without a condition and without a Range.
ghost use Rattle.std.specs.Prelude.{◌≡◌, ◌++◌, ◌||◌, ◌&&◌, ◌==◌, [], not, map, length, codes, bytes_eq, option_map, if◌then◌else◌, None, Some, IfOk, OnOk};
ghost use Rattle.rules_fields.specs.Fields.{fields};
ghost use Rattle.rules_fields.specs.Types.{asked_of, kept_of, chosen};
ghost use Rattle.rules_response.specs.Lines.{age_seconds, cache_status};
ghost use Rattle.rules_response.specs.Answering.{accepts_line, length_sent, whole};
ghost use Rattle.rules_ffi_arguments.specs.Rooms.{block, line_text};
ghost use Rattle.rules_ffi_results.specs.Heads.{counted, length_line};
ghost use Rattle.rules_ffi_results.specs.Sending.{sent_view};
ghost use Rattle.rules_serving.specs.Answers.{shaped, reply_by};
ghost use Rattle.rules_serving.specs.Whole.{asks_for_a_part, plain_lines, over, told_each, whole_shapes, whole_text, is_at_once};

use crate::answering::ends;
use crate::rows::add_rows;
use rules_ffi_arguments::kept::kept;
use rules_ffi_arguments::moments::nanoseconds_of;
use rules_ffi_arguments::options::has_mark;
use rules_ffi_arguments::shapes::{HeadShape, How, Out, PartShape, RequestShape, Span};
use rules_ffi_results::heads::{add_counted, add_end, add_status, sent_framing};
use rules_ffi_results::how::{said, time_to_live};
use rules_ffi_results::marks::{CLOSES, DONE, IS_HEAD, NONE, blank, mark};
use rules_ffi_results::sending::Sent;
use rules_fields::Line;
use rules_fields::lines::has_line;
use rules_fields::types::{Kept, Options, Request};
use rules_response::lines::age_seconds;
use std::alloc::{AllocError, Global};

/// Whether a request has a condition or a Range: else the whole answers it.
pub fn asks_for_a_part(lines: &[Line<'_>]) -> bool
    ensures { result ≡ asks_for_a_part (fields lines.now) }
{
    has_line(lines, b"if-none-match")
        || has_line(lines, b"if-modified-since")
        || has_line(lines, b"range")
}

// Adds the age.
fn add_age(text: &mut Vec<u8>, kept: &Kept<'_>, now: u64) -> Result<(), AllocError>
    ensures { OnOk result (text.new.items ≡ text.old.items ++ counted (codes "Age") (age_seconds (kept_of kept.now).arrival now)) }
{
    add_counted(text, b"Age", age_seconds(kept.arrival, now))
}

// Whether the answer says that its body can be asked for in parts, by whether the stored lines say what can.
fn accepts_parts(status: u16, says: bool) -> bool
    ensures { result ≡ (status == 200 && not says) }
{
    status == 200 && !says
}

// Adds that the body can be asked for in parts.
fn add_accepts(text: &mut Vec<u8>, accepts: bool) -> Result<(), AllocError>
    ensures { OnOk result (text.new.items ≡ text.old.items ++ block (accepts_line accepts)) }
{
    if accepts {
        text.extend_from_slice(b"Accept-Ranges: bytes\r\n")?;
    }
    Ok(())
}

// Adds a length that is known.
fn add_length(text: &mut Vec<u8>, length: Option<u64>) -> Result<(), AllocError>
    ensures { OnOk result (text.new.items ≡ text.old.items ++ length_line length) }
{
    match length {
        None => Ok(()),
        Some(n) => add_counted(text, b"Content-Length", n),
    }
}

// Adds what is said in the own element, each behind a semicolon.
fn add_said(text: &mut Vec<u8>, how: &[&[u8]]) -> Result<(), AllocError>
    ensures { OnOk result (text.new.items ≡ text.old.items ++ told_each (map (λ h. h.now) how.now)) }
{
    for parameter in how {
        text.extend_from_slice(b"; ")?;
        text.extend_from_slice(parameter)?;
    }
    Ok(())
}

// Adds a Cache-Status of the own element alone.
fn add_cache_status(
    text: &mut Vec<u8>,
    how: &[&[u8]],
    options: &Options<'_>,
) -> Result<(), AllocError>
    ensures { OnOk result (text.new.items ≡ text.old.items ++ line_text (cache_status [] (map (λ h. h.now) how.now) (chosen options.now))) }
{
    text.extend_from_slice(b"Cache-Status: ")?;
    text.extend_from_slice(options.name)?;
    add_said(text, how)?;
    text.extend_from_slice(b"\r\n")?;
    Ok(())
}

// The length that is sent; 204 has none (RFC 9110, 15.3.5).
fn length_sent(status: u16, length: u64) -> Option<u64>
    ensures { result ≡ length_sent status (Some length) }
{
    if status == 204 { None } else { Some(length) }
}

// The bytes of the lines that an answer writes itself, but for its name, for the first guess how long a text gets.
const USUAL_OWN: usize = 256;

// The bytes of stored lines.
fn bytes_of(block: &[u8]) -> usize
    ensures { result ≡ length block.now }
{
    block.len()
}

// The head of an answer with the whole, where the stored lines can be written as they stand.
#[tactic(auto, unfolding(crate::specs::Answers::whole_head))]
fn whole_text(
    alloc: Global,
    kept: &Kept<'_>,
    block: &[u8],
    length: u64,
    now: u64,
    how: &[&[u8]],
    options: &Options<'_>,
    form: u64,
    closes: bool,
) -> Result<Option<Vec<u8>>, AllocError>
    ensures { IfOk result (λ r. option_map (λ t. t.items) r
        ≡ option_map (λ fs. whole_text (over (kept_of kept.now) fs) length now (map (λ h. h.now) how.now) (chosen options.now) form closes) (plain_lines block.now)) }
{
    let usual = bytes_of(block).saturating_add(USUAL_OWN);
    let mut text = Vec::with_capacity(alloc, usual)?;
    add_status(&mut text, kept.status)?;
    let Some(says) = add_rows(&mut text, block)? else {
        return Ok(None);
    };
    add_age(&mut text, kept, now)?;
    add_accepts(&mut text, accepts_parts(kept.status, says))?;
    add_length(&mut text, length_sent(kept.status, length))?;
    add_cache_status(&mut text, how, options)?;
    add_end(&mut text, form, closes)?;
    Ok(Some(text))
}

// The body as one part, where there is a body.
fn whole_parts(
    alloc: Global,
    is_bare: bool,
    at: u64,
    length: u64,
) -> Result<Vec<PartShape>, AllocError>
    ensures { IfOk result (λ v. v.items ≡ whole_shapes is_bare at length) }
{
    let mut parts = Vec::new(alloc);
    if !is_bare {
        parts.push(PartShape {
            before: Span { from: at, to: at },
            from: 0,
            to: length,
        })?;
    }
    Ok(parts)
}

// Whether no body is sent.
fn is_bare(request: &Request<'_>, status: u16) -> bool
    ensures { result ≡ (bytes_eq (asked_of request.now).method (codes "HEAD") || status == 204) }
{
    request.method == b"HEAD".as_slice() || status == 204
}

// The answer with the whole, where the stored lines can be written as they stand.
fn whole_sent(
    alloc: Global,
    shape: &RequestShape,
    request: &Request<'_>,
    kept: &Kept<'_>,
    block: &[u8],
    length: u64,
    now: u64,
    way: &How,
    how: &[&[u8]],
    options: &Options<'_>,
) -> Result<Option<Sent>, AllocError>
    ensures { IfOk result (λ r. option_map sent_view r
        ≡ option_map (λ fs. shaped (whole (asked_of request.now) (over (kept_of kept.now) fs) (Some length) now (map (λ h. h.now) how.now) (chosen options.now)) shape.now way.now)
        (plain_lines block.now)) }
{
    let bare = is_bare(request, kept.status);
    let (form, size) = sent_framing(!bare, length_sent(kept.status, length), shape.minor);
    let closes = ends(shape, way);
    let made = whole_text(alloc, kept, block, length, now, how, options, form, closes)?;
    let Some(text) = made else {
        return Ok(None);
    };
    let to = text.len() as u64;
    let parts = whole_parts(alloc, bare, to, length)?;
    let told = Out {
        code: kept.status as u64,
        framing: form,
        length: size,
        marks: mark(closes, CLOSES) + mark(has_mark(shape.marks, IS_HEAD), IS_HEAD),
        parts: parts.len() as u64,
        head: Span { from: 0, to },
        ..blank(DONE, 0)
    };
    Ok(Some(Sent { text, told, parts }))
}

/// The answer, where it is the whole of a known length and the stored lines can be written as they stand.
pub fn whole_reply(
    alloc: Global,
    shape: &RequestShape,
    request: &Request<'_>,
    head: &HeadShape,
    block: &[u8],
    length: u64,
    now: u64,
    how: &How,
    options: &Options<'_>,
) -> Result<Option<Sent>, AllocError>
    ensures { IfOk result (λ r. option_map sent_view r ≡ (if is_at_once (asked_of request.now) block.now length
        then reply_by shape.now (asked_of request.now) head.now block.now length now how.now (chosen options.now) else None)) }
{
    if length == NONE || asks_for_a_part(request.lines) {
        return Ok(None);
    }
    let Ok(kept) = kept(head, &[]) else {
        return Ok(None);
    };
    let left = time_to_live(nanoseconds_of(head.updated), kept.lifetime, now);
    let said = said(alloc, how, Some(left))?;
    let texts = said.lent(alloc)?;
    whole_sent(
        alloc,
        shape,
        request,
        &kept,
        block,
        length,
        now,
        how,
        texts.as_slice(),
        options,
    )
}
