//! Heads that the parser's default options refuse.
ghost use Rattle.std.specs.Prelude.{◌≡◌, ◌≤◌, ◌++◌, ◌∷◌, [], length, map, IfOk, OnOk, IfSome, All, true};
ghost use Rattle.std.specs.List.{list_all};
ghost use Rattle.httparse.specs.Spans.{IsHeaderWithin};
ghost use Rattle.head_lines.specs.Lines.{map_of};
ghost use Rattle.head_parse.specs.Response.{has_short_name, first_line, HasStatus, BeginsNoHead, unfolded};
ghost use Rattle.head_parse.specs.Heads.{IsSomeHead, unfolded_line};

use crate::head::{Head, HeadFault, MOST_LINES, add, status_of};
use bytes::Bytes;
use head_lines::ResponseHeader;
use http_header::{HeaderMap, HeaderValue};
use httparse::spans::{EMPTY_HEADER_SPAN, HeaderSpan, parse_response};
use httparse::{ParserConfig, Status};
use std::alloc::{AllocError, Global};

// The bytes up to the end of their first line that isn't empty, or all of them.
fn first_line(bytes: &[u8]) -> &[u8]
    ensures { result.now ≡ first_line bytes.now }
{
    let mut text = false;
    for i in 0..bytes.len() {
        let byte = bytes[i];
        if text && byte == b'\n' {
            return &bytes[..i + 1];
        }
        text = text || !(byte == b'\n' || byte == b'\r');
    }
    bytes
}

// A line, and an empty one after it.
fn with_empty_line(alloc: Global, line: &[u8]) -> Result<Vec<u8>, AllocError>
    ensures { IfOk result (λ both. both.items ≡ line.now ++ 10 ∷ []) }
{
    let mut both = Vec::from_slice(alloc, line)?;
    both.push(b'\n')?;
    Ok(both)
}

// The number of the status in the first line. No option that is asked for changes how a status line is read, so the default
// ones are asked, of that line with an empty line after it.
fn first_code(alloc: Global, bytes: &[u8]) -> Result<u16, HeadFault>
    ensures { IfOk result (HasStatus bytes.now) }
{
    let head = with_empty_line(alloc, first_line(bytes))?;
    match parse_response(&head, &mut []) {
        Ok(Status::Complete(read)) => Ok(read.code),
        Ok(Status::Partial) | Err(_) => Err(HeadFault::Refused),
    }
}

// A folded value on one line: each CR and LF is a space (RFC 9112, 5.2).
fn unfolded(alloc: Global, value: &[u8]) -> Result<Bytes, AllocError>
    ensures { IfOk result (λ line. line ≡ unfolded value.now) }
{
    let mut line = Vec::with_capacity(alloc, value.len())?;
    for &byte in value {
        let is_end = byte == b'\r' || byte == b'\n';
        line.push(if is_end { b' ' } else { byte })?;
    }
    Ok(Bytes::from_vec(line)?)
}

// The map of header lines whose values may be folded.
fn collect_unfolded(
    alloc: Global,
    bytes: &[u8],
    lines: &[HeaderSpan],
) -> Result<HeaderMap, HeadFault>
    requires within { All (IsHeaderWithin (length bytes.now)) lines.now }
    requires few { length lines.now ≤ 256 }
    ensures value { IfOk result (λ all. all ≡ map_of (map (unfolded_line bytes.now) lines.now)) }
    ensures short { OnOk result (list_all has_short_name (map (unfolded_line bytes.now) lines.now) ≡ true) }
{
    let mut all = HeaderMap::new(alloc);
    for line in lines {
        let line_value = unfolded(alloc, line.value.of(bytes))?;
        let Ok(value) = HeaderValue::from_shared(line_value) else {
            return Err(HeadFault::Bounds);
        };
        add(alloc, &mut all, line.name.of(bytes), value)?;
    }
    Ok(all)
}

// The head at the front, where spaces may come after a name and values may be folded. Without a status line there is none.
pub(crate) fn read_leniently(alloc: Global, bytes: &[u8]) -> Result<Option<Head>, HeadFault>
    ensures head { IfOk result (λ o. IfSome o (IsSomeHead bytes.now)) }
    ensures begins { OnOk result (¬ (BeginsNoHead bytes.now)) }
{
    let code = first_code(alloc, bytes)?;
    let mut config = ParserConfig::default();
    config.allow_spaces_after_header_name_in_responses(true);
    config.allow_obsolete_multiline_headers_in_responses(true);
    let mut lines = [EMPTY_HEADER_SPAN; MOST_LINES];
    match config.parse_response_spans(bytes, &mut lines) {
        Ok(Status::Complete(read)) => {
            let status = status_of(code)?;
            let headers = collect_unfolded(alloc, bytes, &lines[..read.headers])?;
            let header = ResponseHeader { status, headers };
            let len = read.len;
            Ok(Some(Head { header, len }))
        }
        Ok(Status::Partial) => Ok(None),
        Err(_) => Err(HeadFault::Refused),
    }
}
