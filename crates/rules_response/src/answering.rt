//! The answer from what is stored.
ghost use Rattle.std.specs.Prelude.{◌≡◌, [], map, option_map, unwrap_or, is_some, IfOk};
ghost use Rattle.rules_fields.specs.Fields.{fields};
ghost use Rattle.rules_fields.specs.Types.{asked_of, kept_of, chosen};
ghost use Rattle.rules_response.specs.Spans.{spans};
ghost use Rattle.rules_response.specs.Reply.{reply_of};
ghost use Rattle.rules_response.specs.Answering.{known_length, left_out_of_304, not_modified, named_parts, chosen_parts, by_parts, answer_with, answer_of};

use crate::bodies::{one_part, unsatisfied, whole};
use crate::confirming::tag_in;
use crate::lines::{SentLine, add_number, age_seconds, send};
use crate::matching::{matches, range_counts};
use crate::multipart::several_parts;
use crate::ranges::{Span, ranges};
use rules_fields::Line;
use rules_fields::lines::first;
use rules_fields::number::digits;
use rules_fields::types::{Kept, Options, Request};
use std::alloc::{AllocError, Global};

/// A text, and a part of the body behind it.
#[derive(Debug, Drop)]
pub struct Part {
    /// What stands before the part.
    pub before: Vec<u8>,
    /// The first byte of the part.
    pub from: u64,
    /// The byte behind its last; none where the length isn't known: to the end.
    pub to: Option<u64>,
}

/// What a client is sent.
#[derive(Drop)]
pub struct Answer<'a> {
    /// The status.
    pub status: u16,
    /// The lines, in order.
    pub lines: Vec<SentLine<'a>>,
    /// The parts of the body, in order; none where there is no body.
    pub parts: Option<Vec<Part>>,
    /// What stands after the last part.
    pub after: Vec<u8>,
}

// The names of the lines that a 304 leaves out.
const OUT_OF_304: &[&[u8]] = &[
    b"age",
    b"content-length",
    b"cache-status",
    b"content-type",
    b"content-encoding",
    b"content-language",
    b"content-length",
    b"content-range",
];

// And where there is a valid tag.
const OUT_OF_TAGGED_304: &[&[u8]] = &[
    b"age",
    b"content-length",
    b"cache-status",
    b"content-type",
    b"content-encoding",
    b"content-language",
    b"content-length",
    b"content-range",
    b"last-modified",
];

/// The answer from what is stored to a request at a moment: 304, 416, 206 of one part, 206 of several, or the stored status with the whole.
///
/// `length` is that of the body where all of it is there; else the stored Content-Length counts, and without one no Range does. `boundary` is what
/// stands between several parts, if such may be sent, `how` what Cache-Status says. To who fetched it `kept` has the lines as they came.
pub fn answer_of<'a>(
    alloc: Global,
    request: &Request<'_>,
    kept: &Kept<'a>,
    length: Option<u64>,
    now: u64,
    boundary: Option<&[u8]>,
    how: &[&[u8]],
    options: &Options<'_>,
) -> Result<Answer<'a>, AllocError>
    ensures { IfOk result (λ a. reply_of a ≡ answer_of (asked_of request.now) (kept_of kept.now) length now (option_map (λ b. b.now) boundary.entry) (map (λ h. h.now) how.now) (chosen options.now)) }
{
    if matches(alloc, request, kept)? {
        return not_modified(alloc, kept, now, how, options);
    }
    let length = known_length(length, kept);
    let has_boundary = is_there(boundary);
    let parts = chosen_parts(alloc, request, kept, length, has_boundary, options)?;
    answer_with(
        alloc, parts, request, kept, length, now, boundary, how, options,
    )
}

// The whole, where no Range counts.
fn answer_with<'a>(
    alloc: Global,
    parts: Option<Vec<Span>>,
    request: &Request<'_>,
    kept: &Kept<'a>,
    length: Option<u64>,
    now: u64,
    boundary: Option<&[u8]>,
    how: &[&[u8]],
    options: &Options<'_>,
) -> Result<Answer<'a>, AllocError>
    ensures { IfOk result (λ a. reply_of a ≡ answer_with (option_map (λ ps. spans ps.items) parts) (asked_of request.now) (kept_of kept.now) length now
        (option_map (λ b. b.now) boundary.entry) (map (λ h. h.now) how.now) (chosen options.now)) }
{
    let Some(parts) = parts else {
        return whole(alloc, request, kept, length, now, how, options);
    };
    answer_by(
        alloc,
        parts.as_slice(),
        kept,
        length.unwrap_or(0),
        now,
        or_nothing(boundary),
        how,
        options,
    )
}

fn is_there(text: Option<&[u8]>) -> bool
    ensures { result ≡ is_some (option_map (λ t. t.now) text.entry) }
{
    match text {
        Some(_) => true,
        None => false,
    }
}

fn or_nothing(text: Option<&[u8]>) -> &[u8]
    ensures { result.now ≡ unwrap_or (option_map (λ t. t.now) text.entry) [] }
{
    match text {
        Some(text) => text,
        None => &[],
    }
}

// The answer by the parts that lie in a body of this length: none, one, several.
fn answer_by<'a>(
    alloc: Global,
    parts: &[Span],
    kept: &Kept<'a>,
    length: u64,
    now: u64,
    boundary: &[u8],
    how: &[&[u8]],
    options: &Options<'_>,
) -> Result<Answer<'a>, AllocError>
    ensures { IfOk result (λ a. reply_of a ≡ by_parts (spans parts.now) (kept_of kept.now) length now boundary.now (map (λ h. h.now) how.now) (chosen options.now)) }
{
    match parts {
        [] => unsatisfied(alloc, kept, length, how, options),
        [part] => one_part(alloc, kept, *part, length, now, how, options),
        _ => several_parts(alloc, kept, parts, length, now, boundary, how, options),
    }
}

fn known_length(length: Option<u64>, kept: &Kept<'_>) -> Option<u64>
    ensures { result ≡ known_length length (kept_of kept.now) }
{
    match length {
        Some(n) => Some(n),
        None => match first(kept.lines, b"content-length") {
            None => None,
            Some(text) => digits(text),
        },
    }
}

// Those that can be sent: without a boundary several are answered by the whole.
fn chosen_parts(
    alloc: Global,
    request: &Request<'_>,
    kept: &Kept<'_>,
    length: Option<u64>,
    has_boundary: bool,
    options: &Options<'_>,
) -> Result<Option<Vec<Span>>, AllocError>
    ensures { IfOk result (λ r. option_map (λ ps. spans ps.items) r ≡ chosen_parts (asked_of request.now) (kept_of kept.now) length has_boundary (chosen options.now)) }
{
    let Some(parts) = named_parts(alloc, request, kept, length, options)? else {
        return Ok(None);
    };
    if !has_boundary && parts.len() > 1 {
        return Ok(None);
    }
    Ok(Some(parts))
}

/// The parts that the client's Range names, where it counts and the length is known.
pub fn named_parts(
    alloc: Global,
    request: &Request<'_>,
    kept: &Kept<'_>,
    length: Option<u64>,
    options: &Options<'_>,
) -> Result<Option<Vec<Span>>, AllocError>
    ensures { IfOk result (λ r. option_map (λ ps. spans ps.items) r ≡ named_parts (asked_of request.now) (kept_of kept.now) length (chosen options.now)) }
{
    if !range_counts(alloc, request, kept)? {
        return Ok(None);
    }
    let Some(n) = length else {
        return Ok(None);
    };
    let Some(text) = first(request.lines, b"range") else {
        return Ok(None);
    };
    ranges(alloc, text, n, options.most_ranges)
}

fn not_modified<'a>(
    alloc: Global,
    kept: &Kept<'a>,
    now: u64,
    how: &[&[u8]],
    options: &Options<'_>,
) -> Result<Answer<'a>, AllocError>
    ensures { IfOk result (λ a. reply_of a ≡ not_modified (kept_of kept.now) now (map (λ h. h.now) how.now) (chosen options.now)) }
{
    let mut more = Vec::new(alloc);
    add_number(alloc, &mut more, b"Age", age_seconds(kept.arrival, now))?;
    let left_out = left_out_of_304(kept.lines);
    let lines = send(alloc, kept.lines, left_out, more, how, options)?;
    Ok(Answer {
        status: 304,
        lines,
        parts: None,
        after: Vec::new(alloc),
    })
}

/// The names of the lines that a 304 leaves out.
pub fn left_out_of_304(lines: &[Line<'_>]) -> &'static [&'static [u8]]
    ensures { map (λ n. n.now) result.now ≡ left_out_of_304 (fields lines.now) }
{
    if tag_in(lines).is_some() {
        OUT_OF_TAGGED_304
    } else {
        OUT_OF_304
    }
}
