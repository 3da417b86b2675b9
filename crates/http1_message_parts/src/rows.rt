//! The field lines of a head (RFC 9112, 2.2 and 5).
ghost use Rattle.std.specs.Prelude.{◌≡◌, ◌<◌, ◌≤◌, ◌∷◌, [], length, false, nat_lt, option_map, IfOk, IfSome};
ghost use Rattle.std.specs.Option.{option_map_or};
ghost use Rattle.rules_fields.specs.Fields.{field, fields};
ghost use Rattle.http1_message_parts.specs.Results.{map_ok};
ghost use Rattle.http1_message_parts.specs.Lines.{behind_end, has_bare_end, has_bare_cr, lines_of, row_of, rows_of, begins_blank, fault_of, field_from, field_of, fields_within, refusal};

use crate::reason::Reason;
use crate::scan::place_of;
use httparse::{is_header_value, is_token};
use memchr::{memchr, memchr2};
use rules_fields::Line;
use rules_fields::blanks::{is_blank, trimmed};
use std::alloc::{AllocError, Global};

// The bytes of a line, for the first guess how many there are.
const USUAL_LINE: usize = 20;

// What follows a CR LF that stands in front.
fn behind_end(text: &[u8]) -> Option<&[u8]>
    ensures is { option_map (λ rest. rest.now) result ≡ behind_end text.now }
    ensures shorter { IfSome result (λ rest. length rest.now < length text.now) }
{
    match text {
        [b'\r', b'\n', rest @ ..] => Some(rest),
        _ => None,
    }
}

/// Whether a CR or LF stands alone.
pub fn has_bare_end(text: &[u8]) -> bool
    ensures { result ≡ has_bare_end false text.now }
{
    let mut left = text;
    while let Some(i) = memchr2(b'\r', b'\n', left) {
        match behind_end(&left[i..]) {
            Some(rest) => left = rest,
            None => return true,
        }
    }
    false
}

/// Whether a CR stands without a LF after it.
pub fn has_bare_cr(text: &[u8]) -> bool
    ensures { result ≡ has_bare_cr false text.now }
{
    let mut left = text;
    while let Some(i) = memchr(b'\r', left) {
        match behind_end(&left[i..]) {
            Some(rest) => left = rest,
            None => return true,
        }
    }
    false
}

/// The first line, and what follows its LF.
pub fn first_line(text: &[u8]) -> (&[u8], Option<&[u8]>)
    ensures first { lines_of text.now ≡ result.0.now ∷ option_map_or (λ rest. lines_of rest.now) result.1 [] }
    ensures shorter { IfSome result.1 (λ rest. length rest.now < length text.now) }
{
    match memchr(b'\n', text) {
        Some(i) => (&text[..i], Some(&text[i + 1..])),
        None => (text, None),
    }
}

/// A line without the CR at its end.
pub fn row_of(line: &[u8]) -> &[u8]
    ensures { result.now ≡ row_of line.now }
{
    match line {
        [front @ .., b'\r'] => front,
        _ => line,
    }
}

// Whether there are more rows than these.
fn has_more_rows(text: &[u8], most: u64) -> bool
    ensures { result ≡ nat_lt most (length (rows_of (lines_of text.now))) }
{
    let mut room = most;
    let mut left = Some(text);
    while let Some(text) = left {
        let (line, rest) = first_line(text);
        left = rest;
        if row_of(line).is_empty() {
            return false;
        }
        if room == 0 {
            return true;
        }
        room -= 1;
    }
    false
}

fn begins_blank(row: &[u8]) -> bool
    ensures { result ≡ begins_blank row.now }
{
    match row {
        [] => false,
        [first, ..] => is_blank(*first),
    }
}

fn fault_of(before: &[u8], after: &[u8]) -> Reason
    ensures { result ≡ fault_of before.now after.now }
{
    if begins_blank(before) {
        return Reason::Folded;
    }
    if !after.is_empty() && !is_token(before) && is_token(trimmed(before)) {
        return Reason::BlankBeforeColon;
    }
    Reason::BadField
}

fn field_from<'a>(before: &'a [u8], after: &'a [u8]) -> Result<Line<'a>, Reason>
    ensures { map_ok field result ≡ field_from before.now after.now }
{
    let [_, value @ ..] = after else {
        return Err(fault_of(before, after));
    };
    if is_token(before) && is_header_value(value) {
        Ok(Line {
            name: before,
            value: trimmed(value),
        })
    } else {
        Err(fault_of(before, after))
    }
}

/// The field line that a row is.
pub fn field_of(row: &[u8]) -> Result<Line<'_>, Reason>
    ensures { map_ok field result ≡ field_of row.now }
{
    let (before, after) = row.split_at(place_of(row, b':'));
    field_from(before, after)
}

// Why rows are refused of which this many may still stand behind a wrong one: that they are too many comes first.
fn refusal(rest: Option<&[u8]>, most: u64, reason: Reason) -> Reason
    ensures { result ≡ refusal (option_map_or (λ text. rows_of (lines_of text.now)) rest.entry []) most reason }
{
    match rest {
        None => reason,
        Some(text) => {
            if has_more_rows(text, most) {
                Reason::TooManyFields
            } else {
                reason
            }
        }
    }
}

/// The field lines of a text, up to its first empty line, unless there are too many.
pub fn read_fields<'a>(
    alloc: Global,
    text: &'a [u8],
    most: u64,
) -> Result<Result<Vec<Line<'a>>, Reason>, AllocError>
    ensures { IfOk result (λ r. map_ok (λ v. fields v.items) r ≡ fields_within most (rows_of (lines_of text.now))) }
{
    let mut found = Vec::with_capacity(alloc, text.len() / USUAL_LINE)?;
    let mut room = most;
    let mut left = Some(text);
    while let Some(text) = left {
        let (line, rest) = first_line(text);
        left = rest;
        let row = row_of(line);
        if row.is_empty() {
            return Ok(Ok(found));
        }
        if room == 0 {
            return Ok(Err(Reason::TooManyFields));
        }
        room -= 1;
        match field_of(row) {
            Ok(line) => found.push(line)?,
            Err(reason) => return Ok(Err(refusal(rest, room, reason))),
        }
    }
    Ok(Ok(found))
}
