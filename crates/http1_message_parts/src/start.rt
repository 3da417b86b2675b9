//! The request line and the status line (RFC 9112, 3 and 4).
ghost use Rattle.std.specs.Prelude.{◌≡◌, ◌+◌, ◌≤◌, ◌==◌, map, take, drop, length, bytes_eq};
ghost use Rattle.std.specs.List.{list_all, list_any, position_or_len};
ghost use Rattle.rules_fields.specs.Tables.{among};
ghost use Rattle.rules_fields.specs.Types.{chosen};
ghost use Rattle.http1_message_parts.specs.Results.{map_ok};
ghost use Rattle.http1_message_parts.specs.Views.{line_view};
ghost use Rattle.http1_message_parts.specs.Start.{skip_empty, begins_lf, start_len, is_target_byte, is_target, is_dotted, is_version, minor_from, minor_in, minor_of, line_from, request_line, request_start, is_status, is_reason, status_from, status_line};

use crate::reason::Reason;
use crate::rows::has_bare_end;
use crate::scan::place_of;
use httparse::{is_header_value, is_token};
use memchr::memchr;
use rules_fields::types::Options;

/// A request line.
#[derive(Clone, Copy, Debug)]
pub struct RequestLine<'a> {
    /// The method.
    pub method: &'a [u8],
    /// The target as it came.
    pub target: &'a [u8],
    /// The minor version of HTTP/1.
    pub minor: u8,
}

/// Without the empty lines in front.
pub fn skip_empty(mut text: &[u8]) -> &[u8]
    ensures { result.now ≡ skip_empty text.now }
{
    while let [b'\r', b'\n', rest @ ..] = text {
        text = rest;
    }
    text
}

/// Where the first CR LF stands, or the length.
pub fn start_len(text: &[u8]) -> usize
    ensures is { result ≡ start_len text.now }
    ensures within { result ≤ length text.now }
{
    let mut at = 0;
    while let Some(n) = memchr(b'\r', &text[at..]) {
        let i = at + n;
        if begins_lf(&text[i + 1..]) {
            return i;
        }
        at = i + 1;
    }
    text.len()
}

fn begins_lf(text: &[u8]) -> bool
    ensures { result ≡ begins_lf text.now }
{
    match text {
        [] => false,
        [first, ..] => *first == b'\n',
    }
}

// What stands before the first space, and what follows it.
fn cut(text: &[u8]) -> (&[u8], &[u8])
    ensures before { result.0.now ≡ take (position_or_len (λ b. b == 32) text.now) text.now }
    ensures after { result.1.now ≡ drop (position_or_len (λ b. b == 32) text.now + 1) text.now }
{
    let place = place_of(text, b' ');
    if place < text.len() {
        (&text[..place], &text[place + 1..])
    } else {
        (text, &[])
    }
}

/// A visible byte of ASCII: others stand in a target as percent-codes.
pub fn is_target_byte(b: u8) -> bool
    ensures { result ≡ is_target_byte b }
{
    b > 32 && b < 127
}

fn are_target_bytes(text: &[u8]) -> bool
    ensures { result ≡ list_all is_target_byte text.now }
{
    for b in text {
        if !is_target_byte(*b) {
            return false;
        }
    }
    true
}

fn is_target(text: &[u8]) -> bool
    ensures { result ≡ is_target text.now }
{
    !text.is_empty() && are_target_bytes(text)
}

fn is_dotted(text: &[u8]) -> bool
    ensures { result ≡ is_dotted text.now }
{
    match text {
        [a, b, c] => a.is_ascii_digit() && *b == b'.' && c.is_ascii_digit(),
        _ => false,
    }
}

fn is_version(text: &[u8]) -> bool
    ensures { result ≡ is_version text.now }
{
    if text.len() < 5 {
        return false;
    }
    let (front, back) = text.split_at(5);
    front == b"HTTP/".as_slice() && is_dotted(back)
}

fn minor_from(digit: u8) -> u8
    ensures { result ≡ minor_from digit }
{
    if digit == b'0' { 0 } else { 1 }
}

fn minor_in(digits: &[u8]) -> Result<u8, Reason>
    ensures { result ≡ minor_in digits.now }
{
    match digits {
        [digit] => Ok(minor_from(*digit)),
        _ => Err(Reason::Version),
    }
}

fn minor_of(version: &[u8]) -> Result<u8, Reason>
    ensures { result ≡ minor_of version.now }
{
    if version.len() < 7 {
        return Err(Reason::Version);
    }
    let (front, back) = version.split_at(7);
    if front == b"HTTP/1.".as_slice() {
        minor_in(back)
    } else {
        Err(Reason::Version)
    }
}

fn line_from<'a>(
    method: &'a [u8],
    target: &'a [u8],
    version: &[u8],
) -> Result<RequestLine<'a>, Reason>
    ensures { map_ok line_view result ≡ line_from method.now target.now version.now }
{
    if !(is_token(method) && is_target(target) && is_version(version)) {
        return Err(Reason::BadRequestLine);
    }
    let minor = minor_of(version)?;
    Ok(RequestLine {
        method,
        target,
        minor,
    })
}

fn request_line(row: &[u8]) -> Result<RequestLine<'_>, Reason>
    ensures { map_ok line_view result ≡ request_line row.now }
{
    let (method, after) = cut(row);
    let (target, version) = cut(after);
    line_from(method, target, version)
}

// Whether a method is one of these, byte for byte.
fn is_among(methods: &[&[u8]], method: &[u8]) -> bool
    ensures { result ≡ among (map (λ m. m.now) methods.now) method.now }
{
    for m in methods {
        if method == *m {
            return true;
        }
    }
    false
}

/// The request line of a head.
#[tactic(auto, unfolding(crate::specs::Start::request_start))]
pub fn request_start<'a>(
    head: &'a [u8],
    len: usize,
    options: &Options<'_>,
) -> Result<RequestLine<'a>, Reason>
    requires is { len ≡ start_len head.now }
    requires within { len ≤ length head.now }
    ensures { map_ok line_view result ≡ request_start head.now (chosen options.now) }
{
    if len as u64 > options.most_target {
        return Err(Reason::TargetTooLong);
    }
    if head.len() as u64 > options.most_head {
        return Err(Reason::HeadTooLong);
    }
    if has_bare_end(head) {
        return Err(Reason::BareLineEnd);
    }
    let line = request_line(&head[..len])?;
    if is_among(options.refuses, line.method) {
        return Err(Reason::Method);
    }
    Ok(line)
}

fn is_status(a: u8, b: u8, c: u8) -> bool
    ensures { result ≡ is_status a b c }
{
    a.is_ascii_digit() && a != b'0' && b.is_ascii_digit() && c.is_ascii_digit()
}

fn is_reason(text: &[u8]) -> bool
    ensures { result ≡ is_reason text.now }
{
    match text {
        [] => true,
        [first, phrase @ ..] => *first == b' ' && is_header_value(phrase),
    }
}

fn status_from(text: &[u8]) -> Result<(u8, u16), Reason>
    ensures { result ≡ status_from text.now }
{
    match text {
        [minor, space, a, b, c, reason @ ..] => {
            if minor.is_ascii_digit()
                && *space == b' '
                && is_status(*a, *b, *c)
                && is_reason(reason)
            {
                let status = 100 * (*a - b'0') as u16
                    + 10 * (*b - b'0') as u16
                    + (*c - b'0') as u16;
                Ok((minor_from(*minor), status))
            } else {
                Err(Reason::BadStatusLine)
            }
        }
        _ => Err(Reason::BadStatusLine),
    }
}

/// The minor version and the status of a status line.
pub fn status_line(row: &[u8]) -> Result<(u8, u16), Reason>
    ensures { result ≡ status_line row.now }
{
    if row.len() < 7 {
        return Err(Reason::BadStatusLine);
    }
    let (front, back) = row.split_at(7);
    if front == b"HTTP/1.".as_slice() {
        status_from(back)
    } else {
        Err(Reason::BadStatusLine)
    }
}
