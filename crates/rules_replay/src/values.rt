//! What a call is given.
use http1_message_parts::text::MadeLine;
use rules_fields::Line;
use rules_fields::directive::Text;
use rules_fields::types::Kept;
use serde_json::Value;
use std::alloc::{AllocError, Global};

/// A member's number, 0 where there is none.
pub fn number(value: &Value, name: &str) -> u64 {
    optional(value, name).unwrap_or(0)
}

/// A member's number.
pub fn optional(value: &Value, name: &str) -> Option<u64> {
    match value.get(name) {
        Some(member) => member.as_u64(),
        None => None,
    }
}

/// A member's number, if it is a status.
pub fn status(value: &Value, name: &str) -> Option<u16> {
    match optional(value, name) {
        Some(n) => u16::try_from(n).ok(),
        None => None,
    }
}

/// A member's moment, which may lie before 1970.
pub fn moment(value: &Value, name: &str) -> i128 {
    match value.get(name) {
        Some(member) => member.as_i64().unwrap_or(0) as i128,
        None => 0,
    }
}

/// A member's text as it stands, which is empty where there is none.
pub fn plain<'a>(value: &'a Value, name: &str) -> &'a [u8] {
    match value.get(name) {
        Some(member) => plain_of(member),
        None => b"",
    }
}

fn plain_of(value: &Value) -> &[u8] {
    match value.as_str() {
        Some(text) => text.as_bytes(),
        None => b"",
    }
}

/// The bytes that a member's characters stand for.
pub fn bytes<'a>(alloc: Global, value: &'a Value, name: &str) -> Result<Text<'a>, AllocError> {
    match value.get(name) {
        Some(member) => bytes_of(alloc, member),
        None => Ok(Text::Lent(b"")),
    }
}

fn bytes_of(alloc: Global, value: &Value) -> Result<Text<'_>, AllocError> {
    match value.as_str() {
        Some(text) if text.is_ascii() => Ok(Text::Lent(text.as_bytes())),
        Some(text) => Ok(Text::Owned(bytes_in(alloc, text)?)),
        None => Ok(Text::Lent(b"")),
    }
}

fn bytes_in(alloc: Global, text: &str) -> Result<Vec<u8>, AllocError> {
    let mut bytes = Vec::new(alloc);
    for c in text.chars() {
        bytes.push(u8::try_from(c as u32).unwrap_or(b'?'))?;
    }
    Ok(bytes)
}

// The members of a list.
fn members<'a>(value: &'a Value, name: &str) -> &'a [Value] {
    match value.get(name) {
        Some(member) => members_of(member),
        None => &[],
    }
}

fn members_of(value: &Value) -> &[Value] {
    match value.as_array() {
        Some(list) => list.as_slice(),
        None => &[],
    }
}

/// The texts of a list, as they stand.
pub fn list<'a>(alloc: Global, value: &'a Value, name: &str) -> Result<Vec<&'a [u8]>, AllocError> {
    let mut texts = Vec::new(alloc);
    for member in members(value, name) {
        texts.push(plain_of(member))?;
    }
    Ok(texts)
}

/// A list of lines, each a name and a value.
pub fn rows<'a>(
    alloc: Global,
    value: &'a Value,
    name: &str,
) -> Result<Vec<MadeLine<'a>>, AllocError> {
    let mut rows = Vec::new(alloc);
    for member in members(value, name) {
        rows.push(row(alloc, members_of(member))?)?;
    }
    Ok(rows)
}

fn row(alloc: Global, row: &[Value]) -> Result<MadeLine<'_>, AllocError> {
    match row {
        [name, value] => Ok(MadeLine {
            name: plain_of(name),
            value: bytes_of(alloc, value)?,
        }),
        _ => Ok(MadeLine {
            name: b"",
            value: Text::Lent(b""),
        }),
    }
}

/// What is kept, over these lines.
pub fn kept<'a>(value: &Value, lines: &'a [Line<'a>]) -> Kept<'a> {
    Kept {
        status: status(value, "status").unwrap_or(0),
        lines,
        arrival: moment(value, "arrival"),
        lifetime: number(value, "lifetime"),
        stale_while_revalidate: number(value, "stale_while_revalidate"),
        stale_if_error: number(value, "stale_if_error"),
    }
}
