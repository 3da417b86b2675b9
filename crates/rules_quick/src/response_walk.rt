//! Through the lines of a response: those that go on are copied in runs.
ghost use Rattle.std.specs.Prelude.{◌≡◌, ℕ, ◌-◌, ◌<◌, ◌≤◌, List, ◌++◌, true, length, take, IfOk, IfSome};
ghost use Rattle.rules_fields.specs.Texts.{small};
ghost use Rattle.rules_fields.specs.Fields.{field};
ghost use Rattle.rules_ffi_arguments.specs.Rooms.{line_text};
ghost use Rattle.rules_quick.specs.Plain.{IsPlainBut, is_over};
ghost use Rattle.rules_quick.specs.ResponseKinds.{kind_of};
ghost use Rattle.rules_quick.specs.ResponseWalks.{stand, GoesOn};

use crate::lines::{cut_line, plain_line};
use crate::response_names::{Kind, kind_of};
use crate::walk::{add_run, is_over};
use rules_fields::Line;
use std::alloc::AllocError;

/// What is still to be read, and what was said.
#[derive(Clone, Copy, Debug)]
pub struct Lines<'a> {
    /// Lines that go on and weren't added yet, and what follows them.
    pub run: &'a [u8],
    /// What follows the lines that were read: an end of the run.
    pub left: &'a [u8],
    /// What Connection said.
    pub connection: Option<&'a [u8]>,
    /// What Content-Length said.
    pub length: Option<&'a [u8]>,
    /// What Transfer-Encoding said.
    pub coding: Option<&'a [u8]>,
    /// What Date said.
    pub date: Option<&'a [u8]>,
    /// How many lines may still come.
    pub room: u64,
}

// Behind a line that goes on; `None` of a second Date.
fn with_line<'a>(at: Lines<'a>, kind: Kind, line: Line<'a>, rest: &'a [u8]) -> Option<Lines<'a>>
    requires within { length at.left.now ≤ length at.run.now }
    requires is { at.left.now ≡ line_text (field line) ++ rest.now }
    requires has_room { 0 < at.room }
    requires plain { IsPlainBut (field line) }
    requires kind { kind ≡ kind_of (small line.name.now) }
    ensures walked { IfSome result (λ next. (text : List ℕ) → GoesOn (stand text at.entry) (stand text next)) }
    ensures left { IfSome result (λ next. (next.left.now ≡ rest.now) × (length next.left.now ≤ length next.run.now)) }
{
    let next = Lines {
        left: rest,
        room: at.room - 1,
        ..at
    };
    match kind {
        Kind::Kept => Some(next),
        Kind::Date => match at.date {
            None => Some(Lines {
                date: Some(line.value),
                ..next
            }),
            Some(_) => None,
        },
        _ => None,
    }
}

// Behind a line that goes no further; `None` where its field was there before.
fn without_line<'a>(at: Lines<'a>, kind: Kind, line: Line<'a>, rest: &'a [u8]) -> Option<Lines<'a>>
    requires within { length at.left.now ≤ length at.run.now }
    requires is { at.left.now ≡ line_text (field line) ++ rest.now }
    requires has_room { 0 < at.room }
    requires plain { IsPlainBut (field line) }
    requires kind { kind ≡ kind_of (small line.name.now) }
    ensures walked { IfSome result (λ next. (text : List ℕ) → GoesOn (stand text at.entry) (stand (text ++ take (length at.entry.run.now - length at.entry.left.now) at.entry.run.now) next)) }
    ensures left { IfSome result (λ next. (next.left.now ≡ rest.now) × (length next.left.now ≤ length next.run.now)) }
{
    let next = Lines {
        run: rest,
        left: rest,
        room: at.room - 1,
        ..at
    };
    match kind {
        Kind::Hop => Some(next),
        Kind::Connection => match at.connection {
            None => Some(Lines {
                connection: Some(line.value),
                ..next
            }),
            Some(_) => None,
        },
        Kind::Length => match at.length {
            None => Some(Lines {
                length: Some(line.value),
                ..next
            }),
            Some(_) => None,
        },
        Kind::Coding => match at.coding {
            None => Some(Lines {
                coding: Some(line.value),
                ..next
            }),
            Some(_) => None,
        },
        _ => None,
    }
}

// Takes a line by its kind.
fn add_line<'a>(
    text: &mut Vec<u8>,
    at: Lines<'a>,
    line: Line<'a>,
    rest: &'a [u8],
) -> Result<Option<Lines<'a>>, AllocError>
    requires within { length at.left.now ≤ length at.run.now }
    requires is { at.left.now ≡ line_text (field line) ++ rest.now }
    requires has_room { 0 < at.room }
    requires plain { IsPlainBut (field line) }
    ensures walked { IfOk result (λ r. IfSome r (λ next. GoesOn (stand text.old.items at.entry) (stand text.new.items next))) }
    ensures left { IfOk result (λ r. IfSome r (λ next. (next.left.now ≡ rest.now) × (length next.left.now ≤ length next.run.now))) }
{
    let kind = kind_of(line.name);
    match kind {
        Kind::Watched => Ok(None),
        Kind::Kept | Kind::Date => Ok(with_line(at, kind, line, rest)),
        _ => match without_line(at, kind, line, rest) {
            None => Ok(None),
            Some(next) => {
                add_run(text, at.run, at.left)?;
                Ok(Some(next))
            }
        },
    }
}

// Takes the first line of what is left.
fn take_line<'a>(text: &mut Vec<u8>, at: Lines<'a>) -> Result<Option<Lines<'a>>, AllocError>
    requires { length at.left.now ≤ length at.run.now }
    ensures walked { IfOk result (λ r. IfSome r (λ next. GoesOn (stand text.old.items at.entry) (stand text.new.items next))) }
    ensures left { IfOk result (λ r. IfSome r (λ next. (length next.left.now < length at.entry.left.now) × (length next.left.now ≤ length next.run.now))) }
{
    if at.room == 0 {
        return Ok(None);
    }
    let Some((row, rest)) = cut_line(at.left) else {
        return Ok(None);
    };
    match plain_line(row) {
        Some(line) => add_line(text, at, line, rest),
        None => Ok(None),
    }
}

/// Reads lines up to the empty one.
pub fn read_lines<'a>(text: &mut Vec<u8>, first: Lines<'a>) -> Result<Option<Lines<'a>>, AllocError>
    requires { length first.left.now ≤ length first.run.now }
    ensures walked { IfOk result (λ r. IfSome r (λ next. GoesOn (stand text.old.items first.entry) (stand text.new.items next))) }
    ensures over { IfOk result (λ r. IfSome r (λ next. (is_over next.left.now ≡ true) × (length next.left.now ≤ length next.run.now))) }
    ensures shorter { IfOk result (λ r. IfSome r (λ next. length next.left.now ≤ length first.entry.left.now)) }
{
    let mut at = first;
    while !is_over(at.left) {
        match take_line(text, at)? {
            Some(next) => at = next,
            None => return Ok(None),
        }
    }
    Ok(Some(at))
}
