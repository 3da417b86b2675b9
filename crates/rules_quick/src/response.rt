//! Reading a plain response to a GET: what is told of it is what the rules say, or nothing.
ghost use Rattle.std.specs.Prelude.{◌≡◌, ◌-◌, ◌≤◌, ◌++◌, ◌∷◌, [], length, take, codes, decimal, Ok, IfOk, IfSome, OnOk};
ghost use Rattle.std.specs.Option.{option_map_or};
ghost use Rattle.rules_fields.specs.Types.{chosen};
ghost use Rattle.http1_message_parts.specs.Body.{length_of};
ghost use Rattle.http1_message_parts.specs.Start.{status_line};
ghost use Rattle.http1_message.specs.Response.{read_response};
ghost use Rattle.rules_ffi_arguments.specs.Rooms.{block};
ghost use Rattle.rules_quick.specs.Responses.{told_heard};
ghost use Rattle.rules_quick.specs.PlainResponses.{framing_by, plain_framing, added, has_any, ends, plain_shape};
ghost use Rattle.rules_quick.specs.ResponseWalks.{stand, IsEnd};

use crate::lines::cut_line;
use crate::plain::closes;
use crate::response_walk::{Lines, read_lines};
use crate::walk::add_run;
use http1_message_parts::start::status_line;
use rules_ffi_arguments::room::add_line;
use rules_ffi_arguments::shapes::{ResponseShape, Span};
use rules_ffi_results::marks::{CLOSES, DATED, READ, framing_numbers, mark};
use rules_fields::number::digits;
use rules_fields::types::{Framing, Options};
use std::alloc::{AllocError, Global};

// What comes first in a response.
#[derive(Clone, Copy, Debug)]
struct Start<'a> {
    // The status line.
    row: &'a [u8],
    // What it says.
    minor: u8,
    status: u16,
    // What follows it.
    lines: &'a [u8],
}

// The status line of a final response.
fn start_of(bytes: &[u8]) -> Option<Start<'_>>
    ensures is { IfSome result (λ s. bytes.now ≡ s.row.now ++ (13 ∷ 10 ∷ s.lines.now)) }
    ensures status { IfSome result (λ s. status_line s.row.now ≡ Ok (s.minor, s.status)) }
    ensures last { IfSome result (λ s. 200 ≤ s.status) }
    ensures minor { IfSome result (λ s. s.minor ≤ 1) }
{
    let (row, lines) = cut_line(bytes)?;
    match status_line(row) {
        Err(_) => None,
        Ok((minor, status)) => {
            if minor <= 1 && status >= 200 {
                Some(Start {
                    row,
                    minor,
                    status,
                    lines,
                })
            } else {
                None
            }
        }
    }
}

fn length_of(value: &[u8]) -> Option<u64>
    ensures { result ≡ length_of value.now }
{
    let n = digits(value)?;
    if n < 1 << 63 { Some(n) } else { None }
}

// How a body ends, by the values of Content-Length and Transfer-Encoding; `None` where they say more than is known here.
fn framing_by(minor: u8, length: Option<&[u8]>, coding: Option<&[u8]>) -> Option<Framing>
    ensures { result ≡ framing_by minor (option_map_or (λ v. v.now ∷ []) length.entry []) (option_map_or (λ v. v.now ∷ []) coding.entry []) }
{
    match coding {
        None => match length {
            None => Some(Framing::Close),
            Some(value) => Some(Framing::Length(length_of(value)?)),
        },
        Some(value) => {
            if length.is_none() && minor != 0 && value == b"chunked".as_slice() {
                Some(Framing::Chunked)
            } else {
                None
            }
        }
    }
}

fn plain_framing(start: Start<'_>, at: Lines<'_>) -> Option<Framing>
    ensures { result ≡ plain_framing start.entry.minor start.entry.status (option_map_or (λ v. v.now ∷ []) at.entry.length []) (option_map_or (λ v. v.now ∷ []) at.entry.coding []) }
{
    if start.status == 204 || start.status == 304 {
        return Some(Framing::None);
    }
    framing_by(start.minor, at.length, at.coding)
}

// Via, up to the name.
fn via_front(minor: u8) -> &'static [u8]
    requires { minor ≤ 1 }
    ensures { result.now ≡ codes "Via: 1." ++ (decimal minor ++ codes " ") }
{
    if minor == 0 {
        b"Via: 1.0 "
    } else {
        b"Via: 1.1 "
    }
}

// Adds what a response gets here: Via, and Date where none came.
fn add_own(
    text: &mut Vec<u8>,
    minor: u8,
    name: &[u8],
    date: [u8; 29],
    came: Option<&[u8]>,
) -> Result<(), AllocError>
    requires { minor ≤ 1 }
    ensures { OnOk result (text.new.items ≡ text.old.items ++ block (added minor name.now date (option_map_or (λ v. v.now ∷ []) came.entry []))) }
{
    text.extend_from_slice(via_front(minor))?;
    text.extend_from_slice(name)?;
    text.extend_from_slice(b"\r\n")?;
    match came {
        Some(_) => Ok(()),
        None => add_line(text, b"Date", &date),
    }
}

// Whether a field came.
fn has_any(came: Option<&[u8]>) -> bool
    ensures { result ≡ has_any (option_map_or (λ v. v.now ∷ []) came.entry []) }
{
    match came {
        None => false,
        Some(_) => true,
    }
}

// Whether the connection ends behind it.
fn ends(minor: u8, says_close: bool, framing: Framing) -> bool
    ensures { result ≡ ends minor says_close framing }
{
    minor == 0 || says_close || matches!(framing, Framing::Close)
}

fn plain_shape(
    start: Start<'_>,
    framing: Framing,
    closes: bool,
    is_dated: bool,
    lines: u64,
    used: u64,
) -> ResponseShape
    ensures { result ≡ plain_shape start.entry.minor start.entry.status framing closes is_dated lines used }
{
    let (form, length) = framing_numbers(framing);
    let lines = Span { from: 0, to: lines };
    ResponseShape {
        status: READ,
        needed: 0,
        used,
        reason: 0,
        code: start.status as u64,
        minor: start.minor as u64,
        framing: form,
        length,
        marks: mark(closes, CLOSES) + mark(is_dated, DATED),
        lines,
        whole: lines,
        reserved: [0, 0, 0],
    }
}

// The end of a head, where its length, Connection and the framing are as they should be.
fn read_end(
    text: &mut Vec<u8>,
    bytes: &[u8],
    start: Start<'_>,
    date: [u8; 29],
    at: Lines<'_>,
    options: &Options<'_>,
) -> Result<Option<ResponseShape>, AllocError>
    requires run { length at.left.now ≤ length at.run.now }
    requires left { length at.left.now ≤ length bytes.now }
    requires over { 2 ≤ length at.left.now }
    requires minor { start.minor ≤ 1 }
    ensures { IfOk result (λ r. IfSome r (λ shape. IsEnd bytes.now start.entry.minor start.entry.status date (stand text.old.items at.entry) (chosen options.now) text.new.items shape)) }
{
    let used = (bytes.len() - (at.left.len() - 2)) as u64;
    if used > options.most_head {
        return Ok(None);
    }
    let Some(framing) = plain_framing(start, at) else {
        return Ok(None);
    };
    let Some(says_close) = closes(at.connection) else {
        return Ok(None);
    };
    add_run(text, at.run, at.left)?;
    add_own(text, start.minor, options.name, date, at.date)?;
    let closes = ends(start.minor, says_close, framing);
    let is_dated = has_any(at.date);
    let lines = text.len() as u64;
    Ok(Some(plain_shape(start, framing, closes, is_dated, lines, used)))
}

// The bytes of a head, for the first guess how long a text gets, and of what it gets here.
const USUAL_HEAD: usize = 4096;

const OWN_LINES: usize = 128;

// The response behind its status line.
fn read_behind(
    alloc: Global,
    bytes: &[u8],
    start: Start<'_>,
    date: [u8; 29],
    options: &Options<'_>,
) -> Result<Option<(Vec<u8>, ResponseShape)>, AllocError>
    requires come { bytes.now ≡ start.row.now ++ (13 ∷ 10 ∷ start.lines.now) }
    requires status { status_line start.row.now ≡ Ok (start.minor, start.status) }
    requires last { 200 ≤ start.status }
    requires minor { start.minor ≤ 1 }
    ensures { IfOk result (λ r. IfSome r (λ t. told_heard (read_response bytes.now (codes "GET") date (chosen options.now)) ≡ (t.0.items, t.1))) }
{
    let mut text = Vec::with_capacity(alloc, bytes.len().min(USUAL_HEAD) + OWN_LINES)?;
    let first = Lines {
        run: start.lines,
        left: start.lines,
        connection: None,
        length: None,
        coding: None,
        date: None,
        room: options.most_lines,
    };
    let Some(at) = read_lines(&mut text, first)? else {
        return Ok(None);
    };
    match read_end(&mut text, bytes, start, date, at, options)? {
        Some(shape) => Ok(Some((text, shape))),
        None => Ok(None),
    }
}

/// Reads a plain response to a GET, where a response without Date gets this one; `None` of any other, which is read line by line.
pub fn read_plain_response(
    alloc: Global,
    bytes: &[u8],
    date: [u8; 29],
    options: &Options<'_>,
) -> Result<Option<(Vec<u8>, ResponseShape)>, AllocError>
    ensures { IfOk result (λ r. IfSome r (λ t. told_heard (read_response bytes.now (codes "GET") date (chosen options.now)) ≡ (t.0.items, t.1))) }
{
    match start_of(bytes) {
        None => Ok(None),
        Some(start) => read_behind(alloc, bytes, start, date, options),
    }
}
