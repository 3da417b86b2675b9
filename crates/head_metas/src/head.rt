//! The head of a response as MessagePack: its status, and each value with its name.
ghost use Rattle.std.specs.Prelude.{◌≡◌, ◌+◌, ◌++◌, ◌<◌, ◌≤◌, ◌^◌, [], length, flat_map, All, Ok, IfOk, OnOk, IfErr, IfSome, IfNone};
ghost use Rattle.http_header.specs.HeaderMap.{value_count, pairs};
ghost use Rattle.head_lines.specs.declared.header.ResponseHeader.{ResponseHeader};
ghost use Rattle.head_metas.specs.Head.{BeginsWithHead, most_names, line_of, lines_of, written_head, IsCountable};
ghost use Rattle.head_metas.specs.HeadReading.{Fails, Gives, StepsTo, field_name_of, field_value_of, line_at, with_line, lines_at, status_at, head_at};
ghost use Rattle.head_metas.specs.InternalReading.{value_of};
ghost use Rattle.cache_words.specs.Forms.{shortest, arrays};
ghost use Rattle.cache_words.specs.Items.{Steps};

use crate::fault::MetaReadFault;
use crate::lengths::{array_len, byte_string_len, number_len, text_len};
use cache_words::pack::{Cursor, PackFault, PackWriteFault, writing};
use head_lines::ResponseHeader;
use http::StatusCode;
use http_header::{
    HeaderMap, HeaderMapError, HeaderName, HeaderNameError, HeaderValue, HeaderValueError,
};
use std::alloc::{AllocError, Global};

// Returns the bytes as a name, in lower case.
fn field_name(alloc: Global, bytes: &[u8]) -> Result<HeaderName, MetaReadFault>
    ensures { Gives result (field_name_of bytes.now) }
{
    match HeaderName::from_bytes(alloc, bytes) {
        Ok(name) => Ok(name),
        Err(HeaderNameError::Invalid) => Err(MetaReadFault::Pack(PackFault::Kind)),
        Err(HeaderNameError::OutOfMemory) => Err(MetaReadFault::Memory),
    }
}

// Returns the bytes as a value.
fn field_value(alloc: Global, bytes: &[u8]) -> Result<HeaderValue, MetaReadFault>
    ensures { Gives result (field_value_of bytes.now) }
{
    match HeaderValue::from_bytes(alloc, bytes) {
        Ok(value) => Ok(value),
        Err(HeaderValueError::Invalid) => Err(MetaReadFault::Pack(PackFault::Kind)),
        Err(HeaderValueError::OutOfMemory) => Err(MetaReadFault::Memory),
    }
}

// Takes a line: a name and a value.
#[tactic(auto, unfolding(crate::specs::HeadReading::line_at))]
fn line(alloc: Global, bytes: &mut Cursor<'_>) -> Result<(HeaderName, HeaderValue), MetaReadFault>
    ensures { StepsTo line_at bytes.old.rest.now bytes.new.rest.now result }
{
    bytes.array_of(2)?;
    let text = bytes.text()?;
    let name = field_name(alloc, text.as_bytes())?;
    let string = bytes.byte_string()?;
    let value = field_value(alloc, string)?;
    Ok((name, value))
}

// Adds a line to the map.
fn add(all: &mut HeaderMap, name: HeaderName, value: HeaderValue) -> Result<(), MetaReadFault>
    requires names { length all.old ≤ most_names }
    requires room { value_count all.old + 1 < 2 ^ 64 }
    ensures ok { OnOk result (with_line all.old (name, value) ≡ Ok all.new) }
    ensures err { IfErr result (λ e. Fails e (with_line all.old (name, value))) }
{
    match all.append(name, value) {
        Ok(_) => Ok(()),
        Err(HeaderMapError::MaxSizeReached) => Err(MetaReadFault::Pack(PackFault::Length)),
        Err(HeaderMapError::OutOfMemory) => Err(MetaReadFault::Memory),
    }
}

// Takes this many lines, and returns them as a map.
fn lines(alloc: Global, bytes: &mut Cursor<'_>, count: u64) -> Result<HeaderMap, MetaReadFault>
    ensures { StepsTo (lines_at count []) bytes.old.rest.now bytes.new.rest.now result }
{
    let mut all = HeaderMap::new(alloc);
    'each: for _i in 0..count {
        let (name, value) = line(alloc, bytes)?;
        add(&mut all, name, value)?;
    }
    Ok(all)
}

// Takes a status.
#[tactic(auto, unfolding(crate::specs::HeadReading::status_at))]
fn status(bytes: &mut Cursor<'_>) -> Result<StatusCode, PackFault>
    ensures { Steps status_at bytes.old.rest.now bytes.new.rest.now result }
{
    let number = bytes.number()?;
    let Ok(code) = u16::try_from(number) else {
        return Err(PackFault::Range);
    };
    match StatusCode::from_u16(code) {
        Ok(status) => Ok(status),
        Err(_) => Err(PackFault::Range),
    }
}

// Takes a head.
#[tactic(auto, unfolding(crate::specs::HeadReading::head_at))]
fn head(alloc: Global, bytes: &mut Cursor<'_>) -> Result<ResponseHeader, MetaReadFault>
    ensures { StepsTo head_at bytes.old.rest.now bytes.new.rest.now result }
{
    bytes.array_of(2)?;
    let status = status(bytes)?;
    let count = bytes.array()?;
    let headers = lines(alloc, bytes, count)?;
    Ok(ResponseHeader { status, headers })
}

/// Reads the head at the front of the bytes, and ignores what follows it.
///
/// # Errors
///
/// The first fault from the left, or `Memory` if memory runs out.
pub fn read(alloc: Global, bytes: &[u8]) -> Result<ResponseHeader, MetaReadFault>
    ensures found { IfOk result (BeginsWithHead bytes.now) }
    ensures only { (h : ResponseHeader) → BeginsWithHead bytes.now h → Gives {X = ResponseHeader} result (Ok h) }
    ensures exact { Gives result (value_of (head_at bytes.now)) }
{
    let mut cursor = Cursor { rest: bytes };
    head(alloc, &mut cursor)
}

// Writes a line.
fn put_line(out: &mut Vec<u8>, name: &HeaderName, value: &HeaderValue) -> Result<(), PackWriteFault>
    ensures ok { OnOk result (out.new.items ≡ out.old.items ++ line_of (name.now, value.now)) }
    ensures counted { OnOk result (length value.now.bytes < 2 ^ 32) }
{
    writing::put_array(out, 2)?;
    writing::put_text(out, name.as_str())?;
    writing::put_byte_string(out, value.as_bytes())
}

// Writes each line of the map.
fn put_each(out: &mut Vec<u8>, headers: &HeaderMap) -> Result<(), PackWriteFault>
    ensures ok { OnOk result (out.new.items ≡ out.old.items ++ flat_map line_of (pairs headers.now)) }
    ensures counted { OnOk result (All (λ p. length p.1.bytes < 2 ^ 32) (pairs headers.now)) }
{
    'each: for (name, value) in headers.iter() {
        put_line(out, name, value)?;
    }
    Ok(())
}

// Writes the array of the lines of the map.
fn put_lines(out: &mut Vec<u8>, headers: &HeaderMap) -> Result<(), AllocError>
    ensures ok { OnOk result (out.new.items ≡ out.old.items ++ lines_of headers.now) }
    ensures counted { OnOk result (IsCountable headers.now) }
{
    if headers.len() > u32::MAX as usize {
        return Err(AllocError);
    }
    writing::put_array(out, headers.len() as u32)?;
    match put_each(out, headers) {
        Ok(()) => Ok(()),
        Err(_) => Err(AllocError),
    }
}

/// Writes the head: its status, and each value with its name in the map's order, each item in its shortest form.
///
/// # Errors
///
/// `AllocError` if memory runs out, and for a head of 2^32 values or with a value of 2^32 bytes, which MessagePack
/// cannot hold.
#[tactic(auto, unfolding(crate::specs::Head::written_head))]
pub fn write(alloc: Global, header: &ResponseHeader) -> Result<Vec<u8>, AllocError>
    ensures ok { IfOk result (λ text. text.items ≡ written_head header.now) }
    ensures counted { OnOk result (IsCountable header.now.headers) }
{
    let mut out = Vec::new(alloc);
    writing::put_array(&mut out, 2)?;
    writing::put_number(&mut out, header.status.as_u16() as u64)?;
    put_lines(&mut out, &header.headers)?;
    Ok(out)
}

// How many bytes a line takes, where they can be counted.
fn line_len(name: &HeaderName, value: &HeaderValue) -> Option<usize>
    ensures some { IfSome result (λ n. n ≡ length (line_of (name.now, value.now))) }
    ensures none { IfNone result (2 ^ 64 ≤ length (line_of (name.now, value.now))) }
{
    let name = text_len(name.as_str().as_bytes())?;
    let value = byte_string_len(value.as_bytes())?;
    name.checked_add(value)?.checked_add(1)
}

// How many bytes the lines of the map take after so many others.
fn each_len(start: usize, headers: &HeaderMap) -> Option<usize>
    ensures some { IfSome result (λ n. n ≡ start + length (flat_map line_of (pairs headers.now))) }
    ensures none { IfNone result (2 ^ 64 ≤ start + length (flat_map line_of (pairs headers.now))) }
{
    let mut len = start;
    'each: for (name, value) in headers.iter() {
        len = len.checked_add(line_len(name, value)?)?;
    }
    Some(len)
}

// How many bytes come ahead of the lines.
fn start_len(headers: &HeaderMap) -> usize
    ensures { result ≡ length (shortest arrays (length (pairs headers.now))) }
{
    array_len(headers.len())
}

// How many bytes the array of the lines takes after so many others.
fn lines_len(start: usize, headers: &HeaderMap) -> Option<usize>
    ensures some { IfSome result (λ n. n ≡ start + length (lines_of headers.now)) }
    ensures none { IfNone result (2 ^ 64 ≤ start + length (lines_of headers.now)) }
{
    let start = start.checked_add(start_len(headers))?;
    each_len(start, headers)
}

/// Returns how many bytes `write` makes of the head; none where a `usize` can't count them.
#[tactic(auto, unfolding(crate::specs::Head::written_head))]
pub fn written_len(header: &ResponseHeader) -> Option<usize>
    ensures some { IfSome result (λ n. n ≡ length (written_head header.now)) }
    ensures none { IfNone result (2 ^ 64 ≤ length (written_head header.now)) }
{
    let start = 1 + number_len(u64::from(header.status.as_u16()));
    lines_len(start, &header.headers)
}
