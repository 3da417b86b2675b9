//! The body that a head announces.
ghost use Rattle.std.specs.Prelude.{◌≡◌};
ghost use Rattle.head_parse.specs.Response.{length_in};
ghost use Rattle.head_parse.specs.Parse.{announced, content_length};
ghost use Rattle.head_parse.specs.Heads.{parsed_by_header};

use crate::response::{Parsed, Response, Short};
use bytes::Bytes;
use head_lines::ResponseHeader;
use http::StatusCode;
use http_header::{CONTENT_LENGTH, HeaderValue};

// The length that a Content-Length says, if it can be read.
fn length_in(value: &HeaderValue) -> Option<usize>
    ensures { result ≡ length_in value.now.bytes }
{
    let Ok(text) = value.to_str() else {
        return None;
    };
    match text.parse::<usize>() {
        Ok(length) => Some(length),
        Err(_) => None,
    }
}

/// Returns the length in bytes that the first Content-Length says, whatever the status: an optional plus sign and digits alone,
/// below 2^64 (RFC 9110, 8.6).
pub fn content_length(header: &ResponseHeader) -> Option<usize>
    ensures { result ≡ content_length header.now }
{
    let value = header.headers.get_all(&CONTENT_LENGTH).iter().next()?;
    length_in(value)
}

// How many bytes of body a head announces: none under 204 and 304, else what the first Content-Length says.
pub(crate) fn announced(head: &ResponseHeader) -> Option<usize>
    ensures { result ≡ announced head.now }
{
    if head.status == StatusCode::NO_CONTENT || head.status == StatusCode::NOT_MODIFIED {
        return Some(0);
    }
    content_length(head)
}

// What a head gives, with the bytes after it.
pub(crate) fn parsed_by_header(header: ResponseHeader, rest: Bytes) -> Parsed
    ensures { result ≡ parsed_by_header header rest }
{
    let mut body = rest;
    if let Some(length) = announced(&header) {
        let len = body.len();
        if len < length {
            return Parsed::Incomplete(Some(Short { header, len }));
        }
        body.truncate(length);
    }
    Parsed::Complete(Response { header, body })
}
