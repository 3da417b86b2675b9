//! Several parts of a body in one answer (RFC 9110, 14.6, 15.3.7.2).
ghost use Rattle.std.specs.Prelude.{◌≡◌, ◌<◌, ◌^◌, ◌++◌, map, codes, IfOk, OnOk};
ghost use Rattle.std.specs.Fmt.{decimal};
ghost use Rattle.std.specs.List.{flat_map};
ghost use Rattle.rules_fields.specs.Fields.{fields};
ghost use Rattle.rules_fields.specs.Types.{kept_of, chosen};
ghost use Rattle.rules_response.specs.Spans.{span, spans};
ghost use Rattle.rules_response.specs.Sent.{sent_fields};
ghost use Rattle.rules_response.specs.Reply.{piece_of, reply_of};
ghost use Rattle.rules_response.specs.Answering.{content_range, type_line, type_lines, part_text, pieces, last_text, piece_length, total_length, several_lines, several_with, several_parts};

use crate::answering::{Answer, Part};
use crate::bodies::age_and_accepts;
use crate::lines::{SentLine, add_own, send, write_number};
use crate::ranges::Span;
use itoa::Buffer;
use rules_fields::Line;
use rules_fields::lines::all;
use rules_fields::types::{Kept, Options};
use std::alloc::{AllocError, Global};

// The names of the stored lines that are left out.
const LEFT_OUT: &[&[u8]] = &[b"content-type", b"age", b"content-length", b"cache-status"];

/// The answer of several parts.
pub fn several_parts<'a>(
    alloc: Global,
    kept: &Kept<'a>,
    parts: &[Span],
    length: u64,
    now: u64,
    boundary: &[u8],
    how: &[&[u8]],
    options: &Options<'_>,
) -> Result<Answer<'a>, AllocError>
    ensures { IfOk result (λ a. reply_of a ≡ several_parts (kept_of kept.now) (spans parts.now) length now boundary.now (map (λ h. h.now) how.now) (chosen options.now)) }
{
    let kind = type_lines(alloc, kept.lines)?;
    let parts = pieces(alloc, kind.as_slice(), parts, length, boundary)?;
    let after = last_text(alloc, boundary)?;
    several_with(
        alloc, kept, length, parts, after, now, boundary, how, options,
    )
}

// The answer of these parts.
fn several_with<'a>(
    alloc: Global,
    kept: &Kept<'a>,
    length: u64,
    parts: Vec<Part>,
    after: Vec<u8>,
    now: u64,
    boundary: &[u8],
    how: &[&[u8]],
    options: &Options<'_>,
) -> Result<Answer<'a>, AllocError>
    ensures { IfOk result (λ a. reply_of a ≡ several_with (kept_of kept.now) length (map piece_of parts.items) after.items now boundary.now (map (λ h. h.now) how.now) (chosen options.now)) }
{
    let mut more = age_and_accepts(alloc, kept, Some(length), now)?;
    let mut own = several_lines(alloc, parts.as_slice(), after.as_slice(), boundary)?;
    more.append(&mut own)?;
    let lines = send(alloc, kept.lines, LEFT_OUT, more, how, options)?;
    Ok(Answer {
        status: 206,
        lines,
        parts: Some(parts),
        after,
    })
}

// The lines of several parts.
fn several_lines<'a>(
    alloc: Global,
    parts: &[Part],
    after: &[u8],
    boundary: &[u8],
) -> Result<Vec<SentLine<'a>>, AllocError>
    ensures { IfOk result (λ lines. sent_fields lines.items ≡ several_lines (map piece_of parts.now) after.now boundary.now) }
{
    let kind = type_text(alloc, boundary)?;
    let total = total_text(alloc, parts, after)?;
    let mut lines = Vec::new(alloc);
    add_own(&mut lines, b"Content-Type", kind)?;
    add_own(&mut lines, b"Content-Length", total)?;
    Ok(lines)
}

fn type_text(alloc: Global, boundary: &[u8]) -> Result<Vec<u8>, AllocError>
    ensures { IfOk result (λ t. t.items ≡ codes "multipart/byteranges; boundary=" ++ boundary.now) }
{
    let mut text = Vec::from_slice(alloc, b"multipart/byteranges; boundary=")?;
    text.extend_from_slice(boundary)?;
    Ok(text)
}

// The lines of Content-Type, as they stand before each part.
fn type_lines(alloc: Global, lines: &[Line<'_>]) -> Result<Vec<u8>, AllocError>
    ensures { IfOk result (λ t. t.items ≡ type_lines (fields lines.now)) }
{
    let values = all(alloc, lines, b"content-type")?;
    type_texts(alloc, values.as_slice())
}

fn type_texts(alloc: Global, values: &[&[u8]]) -> Result<Vec<u8>, AllocError>
    ensures { IfOk result (λ t. t.items ≡ flat_map type_line (map (λ v. v.now) values.now)) }
{
    let mut text = Vec::new(alloc);
    for value in values {
        let line = type_line(alloc, value)?;
        text.extend_from_slice(line.as_slice())?;
    }
    Ok(text)
}

// A line of Content-Type.
#[tactic(auto, unfolding(crate::specs::Answering::type_line))]
fn type_line(alloc: Global, value: &[u8]) -> Result<Vec<u8>, AllocError>
    ensures { IfOk result (λ t. t.items ≡ type_line value.now) }
{
    let mut line = Vec::from_slice(alloc, b"Content-Type: ")?;
    line.extend_from_slice(value)?;
    line.extend_from_slice(b"\r\n")?;
    Ok(line)
}

/// Writes `bytes`, the first and the last byte, and the length.
pub fn write_range(text: &mut Vec<u8>, part: Span, length: u64) -> Result<(), AllocError>
    ensures { OnOk result (text.new.items ≡ text.old.items ++ content_range (span part) length) }
{
    text.extend_from_slice(b"bytes ")?;
    write_number(text, part.from)?;
    text.extend_from_slice(b"-")?;
    write_number(text, part.to.saturating_sub(1))?;
    text.extend_from_slice(b"/")?;
    write_number(text, length)
}

// What stands before a part.
fn part_text(
    alloc: Global,
    kind: &[u8],
    part: Span,
    length: u64,
    boundary: &[u8],
) -> Result<Vec<u8>, AllocError>
    ensures { IfOk result (λ t. t.items ≡ part_text kind.now (span part) length boundary.now) }
{
    let mut text = Vec::from_slice(alloc, b"\r\n--")?;
    text.extend_from_slice(boundary)?;
    text.extend_from_slice(b"\r\n")?;
    text.extend_from_slice(kind)?;
    text.extend_from_slice(b"Content-Range: ")?;
    write_range(&mut text, part, length)?;
    text.extend_from_slice(b"\r\n\r\n")?;
    Ok(text)
}

fn pieces(
    alloc: Global,
    kind: &[u8],
    parts: &[Span],
    length: u64,
    boundary: &[u8],
) -> Result<Vec<Part>, AllocError>
    ensures { IfOk result (λ ps. map piece_of ps.items ≡ pieces kind.now (spans parts.now) length boundary.now) }
{
    let mut found = Vec::new(alloc);
    for part in parts {
        let before = part_text(alloc, kind, *part, length, boundary)?;
        found.push(Part {
            before,
            from: part.from,
            to: Some(part.to),
        })?;
    }
    Ok(found)
}

// What stands after the last part.
fn last_text(alloc: Global, boundary: &[u8]) -> Result<Vec<u8>, AllocError>
    ensures { IfOk result (λ t. t.items ≡ last_text boundary.now) }
{
    let mut text = Vec::from_slice(alloc, b"\r\n--")?;
    text.extend_from_slice(boundary)?;
    text.extend_from_slice(b"--\r\n")?;
    Ok(text)
}

// The bytes of a piece.
fn piece_length(part: &Part) -> u128
    ensures is { result ≡ piece_length (piece_of part.now) }
    ensures within { result < 2 ^ 65 }
{
    let size = part.to.unwrap_or(part.from).saturating_sub(part.from);
    part.before.len() as u128 + size as u128
}

// All that is sent.
fn total_of(parts: &[Part], after: &[u8]) -> u128
    ensures { result ≡ total_length (map piece_of parts.now) after.now }
{
    let mut total = after.len() as u128;
    for part in parts {
        total += piece_length(part);
    }
    total
}

fn total_text(alloc: Global, parts: &[Part], after: &[u8]) -> Result<Vec<u8>, AllocError>
    ensures { IfOk result (λ t. t.items ≡ decimal (total_length (map piece_of parts.now) after.now)) }
{
    let mut buffer = Buffer::new();
    Vec::from_slice(alloc, buffer.format(total_of(parts, after)).as_bytes())
}
