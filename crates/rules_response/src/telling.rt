//! What a client gets of a response that isn't stored.
ghost use Rattle.std.specs.Prelude.{◌≡◌, ◌++◌, map, option_map, IfOk, OnOk};
ghost use Rattle.rules_fields.specs.Types.{asked_of, answered_of, kept_of, chosen};
ghost use Rattle.rules_response.specs.Spans.{span, spans};
ghost use Rattle.rules_response.specs.Sent.{sent_fields};
ghost use Rattle.rules_response.specs.Reply.{piece_of, reply_of};
ghost use Rattle.rules_response.specs.Told.{asks_for_whole, is_cut, as_kept, body_length, told_parts, grown_age, told, told_304, told_part, told_pieces, told_whole, told_by, told_reply};

use crate::answering::{Answer, Part, left_out_of_304, named_parts};
use crate::bodies::{OWN, add_length, one, part_lines, unsatisfied};
use crate::lines::{SentLine, add_number, age_seconds, send};
use crate::matching::matches;
use crate::ranges::Span;
use rules_fields::lines::has_line;
use rules_fields::types::{Framing, Kept, Options, Request, Response};
use rules_storage::age::arrival;
use std::alloc::{AllocError, Global};

/// What went to the origin.
#[derive(Clone, Copy, Debug, PartialEq, Eq)]
pub enum Fetch {
    /// The request as it came.
    PassOn,
    /// What fetches what may be stored.
    Fill,
    /// What confirms what is stored.
    Confirm,
    /// The fetch without the client's conditions and range.
    Again,
}

/// What a client gets of a response that isn't stored: all of it as it came, or, where it was asked for as a whole, what the client's own conditions
/// and Range leave of it: 304, 206 of one part, 416.
pub fn told_reply<'a>(
    alloc: Global,
    fetch: Fetch,
    request: &Request<'_>,
    response: &Response<'a>,
    asked: u64,
    came: u64,
    how: &[&[u8]],
    options: &Options<'_>,
) -> Result<Answer<'a>, AllocError>
    ensures { IfOk result (λ a. reply_of a ≡ told_reply fetch (asked_of request.now) (answered_of response.now) asked came (map (λ h. h.now) how.now) (chosen options.now)) }
{
    if !is_cut(fetch, request, response, options) {
        return told_whole(alloc, request, response, asked, came, how, options);
    }
    if matches(alloc, request, &as_kept(response))? {
        return told_304(alloc, response, asked, came, how, options);
    }
    let parts = told_parts(alloc, request, response, options)?;
    told_by(alloc, parts, request, response, asked, came, how, options)
}

fn asks_for_whole(
    fetch: Fetch,
    request: &Request<'_>,
    response: &Response<'_>,
    options: &Options<'_>,
) -> bool
    ensures { result ≡ asks_for_whole fetch (asked_of request.now) (answered_of response.now) (chosen options.now) }
{
    match fetch {
        Fetch::PassOn => false,
        Fetch::Fill => options.fills_ranges || !has_line(request.lines, b"range"),
        Fetch::Confirm => response.status == 200,
        Fetch::Again => true,
    }
}

fn is_cut(
    fetch: Fetch,
    request: &Request<'_>,
    response: &Response<'_>,
    options: &Options<'_>,
) -> bool
    ensures { result ≡ is_cut fetch (asked_of request.now) (answered_of response.now) (chosen options.now) }
{
    request.method == b"GET".as_slice() && asks_for_whole(fetch, request, response, options)
}

fn as_kept<'a>(response: &Response<'a>) -> Kept<'a>
    ensures { kept_of result ≡ as_kept (answered_of response.now) }
{
    Kept {
        status: response.status,
        lines: response.lines,
        arrival: 0,
        lifetime: 0,
        stale_while_revalidate: 0,
        stale_if_error: 0,
    }
}

fn body_length(framing: Framing) -> Option<u64>
    ensures { result ≡ body_length framing }
{
    match framing {
        Framing::Length(n) => Some(n),
        _ => None,
    }
}

// The parts that the client's Range names, unless they are several.
fn told_parts(
    alloc: Global,
    request: &Request<'_>,
    response: &Response<'_>,
    options: &Options<'_>,
) -> Result<Option<Vec<Span>>, AllocError>
    ensures { IfOk result (λ r. option_map (λ ps. spans ps.items) r ≡ told_parts (asked_of request.now) (answered_of response.now) (chosen options.now)) }
{
    let kept = as_kept(response);
    let length = body_length(response.framing);
    let Some(parts) = named_parts(alloc, request, &kept, length, options)? else {
        return Ok(None);
    };
    if parts.len() > 1 {
        return Ok(None);
    }
    Ok(Some(parts))
}

// By the parts: none, one, or all of it.
fn told_by<'a>(
    alloc: Global,
    parts: Option<Vec<Span>>,
    request: &Request<'_>,
    response: &Response<'a>,
    asked: u64,
    came: u64,
    how: &[&[u8]],
    options: &Options<'_>,
) -> Result<Answer<'a>, AllocError>
    ensures { IfOk result (λ a. reply_of a ≡ told_by (option_map (λ ps. spans ps.items) parts) (asked_of request.now) (answered_of response.now) asked came (map (λ h. h.now) how.now) (chosen options.now)) }
{
    let length = body_length(response.framing).unwrap_or(0);
    if let Some(parts) = parts {
        match parts.as_slice() {
            [] => return unsatisfied(alloc, &as_kept(response), length, how, options),
            [part] => {
                return told_part(alloc, response, *part, length, asked, came, how, options);
            }
            _ => {}
        }
    }
    told_whole(alloc, request, response, asked, came, how, options)
}

fn told_304<'a>(
    alloc: Global,
    response: &Response<'a>,
    asked: u64,
    came: u64,
    how: &[&[u8]],
    options: &Options<'_>,
) -> Result<Answer<'a>, AllocError>
    ensures { IfOk result (λ a. reply_of a ≡ told_304 (answered_of response.now) asked came (map (λ h. h.now) how.now) (chosen options.now)) }
{
    let mut more = Vec::new(alloc);
    add_grown_age(alloc, &mut more, response, asked, came, options)?;
    let left_out = left_out_of_304(response.lines);
    let lines = send(alloc, response.lines, left_out, more, how, options)?;
    Ok(Answer {
        status: 304,
        lines,
        parts: None,
        after: Vec::new(alloc),
    })
}

fn told_part<'a>(
    alloc: Global,
    response: &Response<'a>,
    part: Span,
    length: u64,
    asked: u64,
    came: u64,
    how: &[&[u8]],
    options: &Options<'_>,
) -> Result<Answer<'a>, AllocError>
    ensures { IfOk result (λ a. reply_of a ≡ told_part (answered_of response.now) (span part) length asked came (map (λ h. h.now) how.now) (chosen options.now)) }
{
    let mut more = Vec::new(alloc);
    add_grown_age(alloc, &mut more, response, asked, came, options)?;
    let mut own = part_lines(alloc, part, length)?;
    more.append(&mut own)?;
    let lines = send(alloc, response.lines, OWN, more, how, options)?;
    let parts = one(alloc, part.from, Some(part.to))?;
    Ok(Answer {
        status: 206,
        lines,
        parts: Some(parts),
        after: Vec::new(alloc),
    })
}

// The body as one part, where there is one.
fn told_pieces(
    alloc: Global,
    method: &[u8],
    framing: Framing,
) -> Result<Option<Vec<Part>>, AllocError>
    ensures { IfOk result (λ r. option_map (λ ps. map piece_of ps.items) r ≡ told_pieces method.now framing) }
{
    match framing {
        Framing::None | Framing::HeadLength(_) => Ok(None),
        _ => {
            if method == b"HEAD".as_slice() {
                return Ok(None);
            }
            Ok(Some(one(alloc, 0, framing.stated())?))
        }
    }
}

fn told_whole<'a>(
    alloc: Global,
    request: &Request<'_>,
    response: &Response<'a>,
    asked: u64,
    came: u64,
    how: &[&[u8]],
    options: &Options<'_>,
) -> Result<Answer<'a>, AllocError>
    ensures { IfOk result (λ a. reply_of a ≡ told_whole (asked_of request.now) (answered_of response.now) asked came (map (λ h. h.now) how.now) (chosen options.now)) }
{
    let lines = told(alloc, response, asked, came, how, options)?;
    let parts = told_pieces(alloc, request.method, response.framing)?;
    Ok(Answer {
        status: response.status,
        lines,
        parts,
        after: Vec::new(alloc),
    })
}

// The lines of a response that is handed on and isn't stored: an Age that it came with grows by the time of the fetch (RFC 9111, 5.1).
fn told<'a>(
    alloc: Global,
    response: &Response<'a>,
    asked: u64,
    came: u64,
    how: &[&[u8]],
    options: &Options<'_>,
) -> Result<Vec<SentLine<'a>>, AllocError>
    ensures { IfOk result (λ lines. sent_fields lines.items ≡ told (answered_of response.now) asked came (map (λ h. h.now) how.now) (chosen options.now)) }
{
    let mut more = Vec::new(alloc);
    add_grown_age(alloc, &mut more, response, asked, came, options)?;
    add_length(alloc, &mut more, response.framing.stated())?;
    send(alloc, response.lines, AGE_AND_STATUS, more, how, options)
}

// Adds an Age that came, grown by the time of the fetch.
fn add_grown_age<'a>(
    alloc: Global,
    sent: &mut Vec<SentLine<'a>>,
    response: &Response<'_>,
    asked: u64,
    came: u64,
    options: &Options<'_>,
) -> Result<(), AllocError>
    ensures { OnOk result (sent_fields sent.new.items ≡ sent_fields sent.old.items ++ grown_age (answered_of response.now) asked came (chosen options.now)) }
{
    if !has_line(response.lines, b"age") {
        return Ok(());
    }
    let arrived = arrival(alloc, response.lines, asked, came, options)?;
    add_number(alloc, sent, b"Age", age_seconds(arrived, came))
}

// What is written anew of a response that is handed on.
const AGE_AND_STATUS: &[&[u8]] = &[b"age", b"cache-status"];
