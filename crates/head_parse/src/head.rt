//! Heads: read by the parser, with their lines as a map.
ghost use Rattle.std.specs.Prelude.{◌≡◌, ◌≢◌, ◌<◌, ◌≤◌, [], length, map, IfOk, IfErr, IfSome, IfNone, OnOk, All, true};
ghost use Rattle.std.specs.List.{list_all};
ghost use Rattle.http_header.specs.HeaderMap.{append, value_count};
ghost use Rattle.http_header.specs.FieldName.{IsFieldName};
ghost use Rattle.http_header.specs.Token.{lowercase};
ghost use Rattle.http.specs.StatusCode.{IsStatusCode};
ghost use Rattle.httparse.specs.Grammar.{NeverHasResponse};
ghost use Rattle.httparse.specs.Spans.{IsHeaderWithin, header_bytes, ResponseOverflows};
ghost use Rattle.head_parse.specs.Response.{has_short_name};
ghost use Rattle.head_lines.specs.Lines.{map_of, IsLine};
ghost use Rattle.head_parse.specs.Heads.{values_at, IsHeadOf, IsOutOfBounds, IsBegun, HasFieldValue};

use crate::names::name_of;
use bytes::Bytes;
use head_lines::ResponseHeader;
use http::StatusCode;
use http_header::{HeaderMap, HeaderMapError, HeaderValue};
use httparse::spans::{EMPTY_HEADER_SPAN, HeaderSpan, parse_response};
use httparse::{Error, Status};
use std::alloc::{AllocError, Global};

// The most header lines of a head.
pub(crate) const MOST_LINES: usize = 256;

// As many header lines as nearly every head has at most: room for the most is cleared only for a head that has more.
const FEW_LINES: usize = 32;

// Why no head is read.
#[derive(Clone, Copy, PartialEq, Eq)]
pub(crate) enum HeadFault {
    // The growth of a part was refused.
    Memory,
    // The parser reads no head here, nor the beginning of one.
    Refused,
    // There are too many header lines.
    TooLong,
    // A name is too long, or the status is below 100.
    Bounds,
}

// The head at the front of some bytes, and its length.
#[derive(Drop)]
pub(crate) struct Head {
    pub(crate) header: ResponseHeader,
    pub(crate) len: usize,
}

impl From<AllocError> for HeadFault {
    ghost use Rattle.std.specs.Prelude.{◌≡◌};
    ghost use Rattle.head_parse.specs.declared.head.HeadFault.TheVariants.{Memory};

    ghost from_gives = { λ _ fault. fault ≡ Memory };

    fn from(_error: AllocError) -> HeadFault {
        HeadFault::Memory
    }
}

// One more line of a head.
pub(crate) fn add(
    alloc: Global,
    all: &mut HeaderMap,
    name: &[u8],
    value: HeaderValue,
) -> Result<(), HeadFault>
    requires names { length all.old < 256 }
    requires values { value_count all.old < 256 }
    ensures ok { OnOk result (all.new ≡ append all.old (lowercase name.now) value) }
    ensures short { OnOk result (length name.now ≤ 65535) }
    ensures bounds { result ≡ Err HeadFault.Bounds → ¬ (IsFieldName name.now) }
    ensures read { result ≢ Err HeadFault.Refused }
    ensures room { result ≢ Err HeadFault.TooLong }
{
    let name = name_of(alloc, name)?;
    match all.append(name, value) {
        Ok(_) => Ok(()),
        Err(HeaderMapError::MaxSizeReached) => Err(HeadFault::Bounds),
        Err(HeaderMapError::OutOfMemory) => Err(HeadFault::Memory),
    }
}

// Makes room for so many names in a map.
fn make_room(all: &mut HeaderMap, count: usize) -> Result<(), AllocError>
    ensures { all.new ≡ all.old }
{
    all.reserve(count).map_err(|_| AllocError)
}

// How many bytes the values of these lines have together.
fn room_of(lines: &[HeaderSpan]) -> usize {
    let mut room = 0usize;
    for line in lines {
        room = room.saturating_add(line.value.end.saturating_sub(line.value.start));
    }
    room
}

// The values of these lines, one after another.
fn joined_values(alloc: Global, bytes: &[u8], lines: &[HeaderSpan]) -> Result<Bytes, AllocError>
    requires within { All (IsHeaderWithin (length bytes.now)) lines.now }
    ensures { IfOk result (λ values. values ≡ values_at bytes.now lines.now) }
{
    let mut values = Vec::with_capacity(alloc, room_of(lines))?;
    for line in lines {
        values.extend_from_slice(line.value.of(bytes))?;
    }
    Ok(Bytes::from_vec(values)?)
}

// Fills an empty map with these header lines, whose values the parser has checked. They share one copy, which takes less than
// a copy of each, and keeps no other bytes of the head.
fn collect(
    alloc: Global,
    bytes: &[u8],
    lines: &[HeaderSpan],
    all: &mut HeaderMap,
) -> Result<(), HeadFault>
    requires within { All (IsHeaderWithin (length bytes.now)) lines.now }
    requires few { length lines.now ≤ 256 }
    requires valid { All HasFieldValue (map (header_bytes bytes.now) lines.now) }
    requires empty { all.old ≡ [] }
    ensures value { OnOk result (all.new ≡ map_of (map (header_bytes bytes.now) lines.now)) }
    ensures short { OnOk result (list_all has_short_name (map (header_bytes bytes.now) lines.now) ≡ true) }
    ensures bounds { result ≡ Err HeadFault.Bounds → ¬ (All IsLine (map (header_bytes bytes.now) lines.now)) }
    ensures read { result ≢ Err HeadFault.Refused }
    ensures room { result ≢ Err HeadFault.TooLong }
{
    make_room(all, lines.len())?;
    let mut values = joined_values(alloc, bytes, lines)?;
    for line in lines {
        let shared = values.split_to(line.value.end - line.value.start)?;
        let value = HeaderValue::from_known_valid(shared);
        add(alloc, all, line.name.of(bytes), value)?;
    }
    Ok(())
}

// The status of this number.
pub(crate) fn status_of(code: u16) -> Result<StatusCode, HeadFault>
    ensures code { IfOk result (λ status. status ≡ code) }
    ensures status { OnOk result (IsStatusCode code) }
    ensures err { IfErr result (λ fault. (fault ≡ HeadFault.Bounds) × ¬ (IsStatusCode code)) }
{
    match StatusCode::from_u16(code) {
        Ok(status) => Ok(status),
        Err(_) => Err(HeadFault::Bounds),
    }
}

// The head at the front, as the parser's default options read it into so many lines; none where it hasn't come whole.
fn read_into(
    alloc: Global,
    bytes: &[u8],
    lines: &mut [HeaderSpan],
) -> Result<Option<Head>, HeadFault>
    requires few { length lines.old ≤ 256 }
    ensures within { IfOk result (λ o. IfSome o (λ head. head.len ≤ length bytes.now)) }
    ensures whole { IfOk result (λ o. IfSome o (IsHeadOf bytes.now)) }
    ensures begun { IfOk result (λ o. IfNone o (IsBegun bytes.now)) }
    ensures bounds { result ≡ Err HeadFault.Bounds → IsOutOfBounds bytes.now }
    ensures long { result ≡ Err HeadFault.TooLong → ResponseOverflows (length lines.old) bytes.now }
    ensures refused { result ≡ Err HeadFault.Refused → NeverHasResponse bytes.now }
{
    match parse_response(bytes, lines) {
        Ok(Status::Complete(read)) => {
            let status = status_of(read.code)?;
            let mut headers = HeaderMap::new(alloc);
            collect(alloc, bytes, &lines[..read.headers], &mut headers)?;
            let header = ResponseHeader { status, headers };
            let len = read.len;
            Ok(Some(Head { header, len }))
        }
        Ok(Status::Partial) => Ok(None),
        Err(Error::TooManyHeaders) => Err(HeadFault::TooLong),
        Err(_) => Err(HeadFault::Refused),
    }
}

// The head at the front, as the parser's default options read it; none where it hasn't come whole.
pub(crate) fn read_plainly(alloc: Global, bytes: &[u8]) -> Result<Option<Head>, HeadFault>
    ensures within { IfOk result (λ o. IfSome o (λ head. head.len ≤ length bytes.now)) }
    ensures whole { IfOk result (λ o. IfSome o (IsHeadOf bytes.now)) }
    ensures begun { IfOk result (λ o. IfNone o (IsBegun bytes.now)) }
    ensures bounds { result ≡ Err HeadFault.Bounds → IsOutOfBounds bytes.now }
    ensures long { result ≡ Err HeadFault.TooLong → ResponseOverflows 256 bytes.now }
    ensures refused { result ≡ Err HeadFault.Refused → NeverHasResponse bytes.now }
{
    let mut few = [EMPTY_HEADER_SPAN; FEW_LINES];
    match read_into(alloc, bytes, &mut few) {
        Err(HeadFault::TooLong) => {
            let mut lines = [EMPTY_HEADER_SPAN; MOST_LINES];
            read_into(alloc, bytes, &mut lines)
        }
        read => read,
    }
}

// Whether the parser's default options, with room for one line more than a head may have, read the beginning of a head.
pub(crate) fn waits_with_a_line_more(bytes: &[u8]) -> bool
    ensures { result ≡ true → IsBegun bytes.now }
{
    let mut lines = [EMPTY_HEADER_SPAN; MOST_LINES + 1];
    match parse_response(bytes, &mut lines) {
        Ok(Status::Partial) => true,
        Ok(Status::Complete(_)) | Err(_) => false,
    }
}
