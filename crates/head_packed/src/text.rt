//! Heads as text, written and read.
ghost use Rattle.std.specs.Prelude.{◌≡◌, ◌++◌, ◌+◌, ◌<◌, ◌≤◌, ℕ, List, [], true, flat_map, length, drop, IfOk, IfSome, OnOk};
ghost use Rattle.std.specs.List.{AllByRecursion};
ghost use Rattle.http_header.specs.FieldValue.{FieldValue};
ghost use Rattle.http_header.specs.HeaderMap.{append_all, pairs};
ghost use Rattle.head_packed.specs.HeadText.{text_line, line_feeds, IsPlainField};

use http_header::{HeaderMap, HeaderName, HeaderValue};
use memchr::memchr;
use std::alloc::{AllocError, Global};

// Writes a line, and returns whether it gives its field back.
fn put_line(out: &mut Vec<u8>, name: &HeaderName, value: &HeaderValue) -> Result<bool, AllocError>
    ensures text { OnOk result (out.new.items ≡ out.old.items ++ text_line (name.now, value.now)) }
    ensures plain { IfOk result (λ plain. plain ≡ true → IsPlainField (name.now, value.now)) }
{
    out.extend_from_slice(name.as_str().as_bytes())?;
    out.extend_from_slice(b": ")?;
    out.extend_from_slice(value.as_bytes())?;
    out.extend_from_slice(b"\r\n")?;
    Ok(!value.is_sensitive())
}

// Writes a line for each value, and returns whether they give all fields back.
fn put_lines(out: &mut Vec<u8>, headers: &HeaderMap) -> Result<bool, AllocError>
    ensures text { OnOk result (out.new.items ≡ out.old.items ++ flat_map text_line (pairs headers.now)) }
    ensures plain { IfOk result (λ plain. plain ≡ true → AllByRecursion IsPlainField (pairs headers.now)) }
{
    let mut plain = true;
    'each: for (name, value) in headers.iter() {
        if !put_line(out, name, value)? {
            plain = false;
        }
    }
    Ok(plain)
}

// Returns the lines of a map, and whether they give all fields back. The room is a hint.
pub(crate) fn lines_of(
    alloc: Global,
    headers: &HeaderMap,
    room: usize,
) -> Result<(Vec<u8>, bool), AllocError>
    ensures text { IfOk result (λ written. written.0.items ≡ flat_map text_line (pairs headers.now)) }
    ensures plain { IfOk result (λ written. written.1 ≡ true → AllByRecursion IsPlainField (pairs headers.now)) }
{
    let mut text = Vec::with_capacity(alloc, room)?;
    let plain = put_lines(&mut text, headers)?;
    Ok((text, plain))
}

// Returns how many lines a text has.
pub(crate) fn lines_in(text: &[u8]) -> u64
    ensures { result ≡ line_feeds text.now }
{
    let mut count: u64 = 0;
    for byte in text {
        if *byte == b'\n' {
            count += 1;
        }
    }
    count
}

// Where the colon and the end of a line stand.
#[derive(Clone, Copy)]
struct Span {
    colon: usize,
    end: usize,
}

// Returns the places of the line at the front of a text.
fn places(text: &[u8]) -> Option<Span>
    ensures within { IfSome result (λ line. (line.colon + 2 ≤ line.end) × (line.end + 2 ≤ length text.now)) }
    ensures line { (field : List ℕ × FieldValue) (rest : List ℕ) → IsPlainField field → text.now ≡ text_line field ++ rest
        → IfSome result (λ line. (line.colon ≡ length field.0) × (line.end ≡ (length field.0 + 2) + length field.1.bytes)) }
{
    let colon = memchr(b':', text)?;
    if text.len() - colon < 2 {
        return None;
    }
    let value = colon + 2;
    let end = value + memchr(b'\r', &text[value..])?;
    if text.len() - end < 2 {
        return None;
    }
    Some(Span { colon, end })
}

// Reads the line at the front of a text, and returns where the next one begins too.
fn line(alloc: Global, text: &[u8]) -> Result<(HeaderName, HeaderValue, usize), AllocError>
    ensures within { IfOk result (λ read. (0 < read.2) × (read.2 ≤ length text.now)) }
    ensures read { (field : List ℕ × FieldValue) (rest : List ℕ) → IsPlainField field → text.now ≡ text_line field ++ rest
        → IfOk result (λ read. ((read.0, read.1) ≡ field) × (drop read.2 text.now ≡ rest)) }
{
    let Some(Span { colon, end }) = places(text) else {
        return Err(AllocError);
    };
    let Ok(name) = HeaderName::from_lowercase(alloc, &text[..colon]) else {
        return Err(AllocError);
    };
    let Ok(value) = HeaderValue::from_bytes(alloc, &text[colon + 2..end]) else {
        return Err(AllocError);
    };
    Ok((name, value, end + 2))
}

// Reads the lines of a text. They are those of fields, so that only memory can be short.
pub(crate) fn fields_of(alloc: Global, text: &[u8]) -> Result<HeaderMap, AllocError>
    ensures { (fields : List (List ℕ × FieldValue)) → AllByRecursion IsPlainField fields → text.now ≡ flat_map text_line fields
        → IfOk result (λ headers. headers ≡ append_all [] fields) }
{
    let mut headers = HeaderMap::new(alloc);
    let mut rest = text;
    'each: while !rest.is_empty() {
        let (name, value, next) = line(alloc, rest)?;
        let Ok(_) = headers.append(name, value) else {
            return Err(AllocError);
        };
        rest = &rest[next..];
    }
    Ok(headers)
}
