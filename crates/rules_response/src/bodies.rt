//! What of a stored body is sent: the whole, one part, or none.
ghost use Rattle.std.specs.Fmt.{decimal};
ghost use Rattle.std.specs.Prelude.{◌≡◌, ◌-◌, ◌∷◌, ◌++◌, [], codes, map, option_map, IfOk, OnOk};
ghost use Rattle.rules_fields.specs.Types.{asked_of, kept_of, chosen};
ghost use Rattle.rules_storage.specs.Kept.{with_length};
ghost use Rattle.rules_response.specs.Lines.{age_line};
ghost use Rattle.rules_response.specs.Spans.{span};
ghost use Rattle.rules_response.specs.Sent.{sent_fields};
ghost use Rattle.rules_response.specs.Reply.{piece_of, reply_of};
ghost use Rattle.rules_response.specs.Answering.{content_range, unsatisfied_lines, unsatisfied, part_lines, one_part, accepts_parts, accepts_line, accepts, length_sent, whole_piece, whole};

use crate::answering::{Answer, Part};
use crate::lines::{
    SentLine, add_among, add_cache_status, add_number, add_own, age_seconds, send, write_number,
};
use crate::multipart::write_range;
use crate::ranges::Span;
use rules_fields::lines::has_line;
use rules_fields::types::{Kept, Options, Request};
use std::alloc::{AllocError, Global};

/// The names of the lines that an answer writes itself.
pub const OWN: &[&[u8]] = &[b"age", b"content-length", b"cache-status"];

/// The answer where no part lies in a body of this length (RFC 9110, 15.5.17).
pub fn unsatisfied<'a>(
    alloc: Global,
    kept: &Kept<'a>,
    length: u64,
    how: &[&[u8]],
    options: &Options<'_>,
) -> Result<Answer<'a>, AllocError>
    ensures { IfOk result (λ a. reply_of a ≡ unsatisfied (kept_of kept.now) length (map (λ h. h.now) how.now) (chosen options.now)) }
{
    let mut lines = Vec::new(alloc);
    add_among(&mut lines, kept.lines, DATE_AND_VIA)?;
    let mut more = unsatisfied_lines(alloc, length)?;
    lines.append(&mut more)?;
    add_cache_status(alloc, &mut lines, &[], how, options)?;
    Ok(Answer {
        status: 416,
        lines,
        parts: Some(Vec::new(alloc)),
        after: Vec::new(alloc),
    })
}

// The lines that a 416 has of its own.
fn unsatisfied_lines<'a>(alloc: Global, length: u64) -> Result<Vec<SentLine<'a>>, AllocError>
    ensures { IfOk result (λ lines. sent_fields lines.items ≡ unsatisfied_lines length) }
{
    let mut range = Vec::from_slice(alloc, b"bytes */")?;
    write_number(&mut range, length)?;
    let mut lines = Vec::new(alloc);
    add_own(&mut lines, b"Content-Range", range)?;
    add_number(alloc, &mut lines, b"Content-Length", 0)?;
    Ok(lines)
}

// What a 416 has of the stored head.
const DATE_AND_VIA: &[&[u8]] = &[b"date", b"via"];

/// The answer of one part.
pub fn one_part<'a>(
    alloc: Global,
    kept: &Kept<'a>,
    part: Span,
    length: u64,
    now: u64,
    how: &[&[u8]],
    options: &Options<'_>,
) -> Result<Answer<'a>, AllocError>
    ensures { IfOk result (λ a. reply_of a ≡ one_part (kept_of kept.now) (span part) length now (map (λ h. h.now) how.now) (chosen options.now)) }
{
    let mut more = age_and_accepts(alloc, kept, Some(length), now)?;
    let mut own = part_lines(alloc, part, length)?;
    more.append(&mut own)?;
    let lines = send(alloc, kept.lines, OWN, more, how, options)?;
    let parts = one(alloc, part.from, Some(part.to))?;
    Ok(Answer {
        status: 206,
        lines,
        parts: Some(parts),
        after: Vec::new(alloc),
    })
}

/// The lines of one part.
pub fn part_lines<'a>(
    alloc: Global,
    part: Span,
    length: u64,
) -> Result<Vec<SentLine<'a>>, AllocError>
    ensures { IfOk result (λ lines. sent_fields lines.items ≡ part_lines (span part) length) }
{
    let range = range_text(alloc, part, length)?;
    let size = size_text(alloc, part)?;
    let mut lines = Vec::new(alloc);
    add_own(&mut lines, b"Content-Range", range)?;
    add_own(&mut lines, b"Content-Length", size)?;
    Ok(lines)
}

fn range_text(alloc: Global, part: Span, length: u64) -> Result<Vec<u8>, AllocError>
    ensures { IfOk result (λ t. t.items ≡ content_range (span part) length) }
{
    let mut text = Vec::new(alloc);
    write_range(&mut text, part, length)?;
    Ok(text)
}

fn size_text(alloc: Global, part: Span) -> Result<Vec<u8>, AllocError>
    ensures { IfOk result (λ t. t.items ≡ decimal ((span part).1 - (span part).0)) }
{
    let mut text = Vec::new(alloc);
    write_number(&mut text, part.to.saturating_sub(part.from))?;
    Ok(text)
}

/// Its age, and that it can be asked for in parts.
pub fn age_and_accepts<'a>(
    alloc: Global,
    kept: &Kept<'_>,
    length: Option<u64>,
    now: u64,
) -> Result<Vec<SentLine<'a>>, AllocError>
    ensures { IfOk result (λ lines. sent_fields lines.items ≡ age_line (kept_of kept.now).arrival now ∷ accepts (kept_of kept.now) length) }
{
    let mut lines = Vec::new(alloc);
    add_number(alloc, &mut lines, b"Age", age_seconds(kept.arrival, now))?;
    add_accepts(alloc, &mut lines, accepts_parts(kept, length))?;
    Ok(lines)
}

// Whether what is stored can be asked for in parts, and its origin doesn't say itself what can be asked for.
fn accepts_parts(kept: &Kept<'_>, length: Option<u64>) -> bool
    ensures { result ≡ accepts_parts (kept_of kept.now) length }
{
    kept.status == 200 && length.is_some() && !has_line(kept.lines, b"accept-ranges")
}

// Adds that it can.
fn add_accepts<'a>(
    alloc: Global,
    sent: &mut Vec<SentLine<'a>>,
    accepts: bool,
) -> Result<(), AllocError>
    ensures { OnOk result (sent_fields sent.new.items ≡ sent_fields sent.old.items ++ accepts_line accepts) }
{
    if accepts {
        return add_bytes(alloc, sent);
    }
    Ok(())
}

fn add_bytes<'a>(alloc: Global, sent: &mut Vec<SentLine<'a>>) -> Result<(), AllocError>
    ensures { OnOk result (sent_fields sent.new.items ≡ sent_fields sent.old.items ++ ((codes "Accept-Ranges", codes "bytes") ∷ [])) }
{
    let value = Vec::from_slice(alloc, b"bytes")?;
    add_own(sent, b"Accept-Ranges", value)
}

/// One part, with nothing before it.
pub fn one(alloc: Global, from: u64, to: Option<u64>) -> Result<Vec<Part>, AllocError>
    ensures { IfOk result (λ ps. map piece_of ps.items ≡ record { before = []; from = from; to = to } ∷ []) }
{
    let mut parts = Vec::new(alloc);
    parts.push(Part {
        before: Vec::new(alloc),
        from,
        to,
    })?;
    Ok(parts)
}

/// The answer of the whole, with the stored status.
pub fn whole<'a>(
    alloc: Global,
    request: &Request<'_>,
    kept: &Kept<'a>,
    length: Option<u64>,
    now: u64,
    how: &[&[u8]],
    options: &Options<'_>,
) -> Result<Answer<'a>, AllocError>
    ensures { IfOk result (λ a. reply_of a ≡ whole (asked_of request.now) (kept_of kept.now) length now (map (λ h. h.now) how.now) (chosen options.now)) }
{
    let mut more = age_and_accepts(alloc, kept, length, now)?;
    add_length(alloc, &mut more, length_sent(kept.status, length))?;
    let lines = send(alloc, kept.lines, OWN, more, how, options)?;
    let parts = whole_part(alloc, request.method, kept.status, length)?;
    Ok(Answer {
        status: kept.status,
        lines,
        parts,
        after: Vec::new(alloc),
    })
}

// The length that is sent; 204 has none (RFC 9110, 15.3.5).
fn length_sent(status: u16, length: Option<u64>) -> Option<u64>
    ensures { result ≡ length_sent status length }
{
    if status == 204 { None } else { length }
}

// The body as one part, where there is a body.
fn whole_part(
    alloc: Global,
    method: &[u8],
    status: u16,
    length: Option<u64>,
) -> Result<Option<Vec<Part>>, AllocError>
    ensures { IfOk result (λ r. option_map (λ ps. map piece_of ps.items) r ≡ whole_piece method.now status length) }
{
    if method == b"HEAD".as_slice() || status == 204 {
        return Ok(None);
    }
    Ok(Some(one(alloc, 0, length)?))
}

/// Adds a length that is known.
pub fn add_length<'a>(
    alloc: Global,
    sent: &mut Vec<SentLine<'a>>,
    length: Option<u64>,
) -> Result<(), AllocError>
    ensures { OnOk result (sent_fields sent.new.items ≡ sent_fields sent.old.items ++ with_length length) }
{
    match length {
        None => Ok(()),
        Some(n) => add_number(alloc, sent, b"Content-Length", n),
    }
}
