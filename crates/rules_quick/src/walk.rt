//! Through the lines behind Host's: those that go on are copied in runs.
ghost use Rattle.std.specs.Prelude.{◌≡◌, ◌-◌, ◌<◌, ◌≤◌, ◌++◌, true, map, take, length, IfOk, IfSome, OnOk};
ghost use Rattle.rules_fields.specs.Fields.{field};
ghost use Rattle.rules_ffi_arguments.specs.Rooms.{line_text};
ghost use Rattle.rules_quick.specs.Plain.{IsPlainBut, is_passed, is_over};
ghost use Rattle.rules_quick.specs.Walked.{stand, GoesOn};

use crate::lines::{cut_line, plain_line};
use crate::names::{Kind, kind_of};
use rules_fields::Line;
use rules_fields::tables::among;
use std::alloc::AllocError;

/// What is still to be read.
#[derive(Clone, Copy, Debug)]
pub struct Reading<'a> {
    /// Lines that go on and weren't added yet, and what follows them.
    pub run: &'a [u8],
    /// What follows the lines that were read: an end of the run.
    pub left: &'a [u8],
    /// What Connection said.
    pub connection: Option<&'a [u8]>,
    /// How many lines may still come.
    pub room: u64,
}

/// Adds the lines of a run up to what is left.
pub fn add_run(text: &mut Vec<u8>, run: &[u8], left: &[u8]) -> Result<(), AllocError>
    requires { length left.now ≤ length run.now }
    ensures { OnOk result (text.new.items ≡ text.old.items ++ take (length run.now - length left.now) run.now) }
{
    text.extend_from_slice(&run[..run.len() - left.len()])
}

// Takes a line by its kind.
fn add_line<'a>(
    drops: &[&[u8]],
    text: &mut Vec<u8>,
    asked: &mut Vec<u8>,
    at: Reading<'a>,
    line: Line<'a>,
    rest: &'a [u8],
) -> Result<Option<Reading<'a>>, AllocError>
    requires within { length at.left.now ≤ length at.run.now }
    requires is { at.left.now ≡ line_text (field line) ++ rest.now }
    requires has_room { 0 < at.room }
    requires plain { IsPlainBut (field line) }
    requires passed { is_passed (map (λ n. n.now) drops.now) (field line) ≡ true }
    ensures walked { IfOk result (λ r. IfSome r (λ next. GoesOn (map (λ n. n.now) drops.now) (stand text.old.items asked.old.items at.entry) (stand text.new.items asked.new.items next))) }
    ensures left { IfOk result (λ r. IfSome r (λ next. (next.left.now ≡ rest.now) × (length next.left.now ≤ length next.run.now))) }
{
    let room = at.room - 1;
    match kind_of(line.name) {
        Kind::Kept => Ok(Some(Reading {
            run: at.run,
            left: rest,
            connection: at.connection,
            room,
        })),
        Kind::Asked => {
            asked.extend_from_slice(&at.left[..at.left.len() - rest.len()])?;
            Ok(Some(Reading {
                run: at.run,
                left: rest,
                connection: at.connection,
                room,
            }))
        }
        Kind::Hop => {
            add_run(text, at.run, at.left)?;
            Ok(Some(Reading {
                run: rest,
                left: rest,
                connection: at.connection,
                room,
            }))
        }
        Kind::Connection => match at.connection {
            Some(_) => Ok(None),
            None => {
                add_run(text, at.run, at.left)?;
                Ok(Some(Reading {
                    run: rest,
                    left: rest,
                    connection: Some(line.value),
                    room,
                }))
            }
        },
        Kind::Host | Kind::Watched => Ok(None),
    }
}

// Takes the first line of what is left.
fn take_line<'a>(
    drops: &[&[u8]],
    text: &mut Vec<u8>,
    asked: &mut Vec<u8>,
    at: Reading<'a>,
) -> Result<Option<Reading<'a>>, AllocError>
    requires { length at.left.now ≤ length at.run.now }
    ensures walked { IfOk result (λ r. IfSome r (λ next. GoesOn (map (λ n. n.now) drops.now) (stand text.old.items asked.old.items at.entry) (stand text.new.items asked.new.items next))) }
    ensures left { IfOk result (λ r. IfSome r (λ next. (length next.left.now < length at.entry.left.now) × (length next.left.now ≤ length next.run.now))) }
{
    if at.room == 0 {
        return Ok(None);
    }
    let Some((row, rest)) = cut_line(at.left) else {
        return Ok(None);
    };
    match plain_line(row) {
        Some(line) => {
            if among(drops, line.name) {
                Ok(None)
            } else {
                add_line(drops, text, asked, at, line, rest)
            }
        }
        None => Ok(None),
    }
}

/// Whether an empty line stands in front.
pub fn is_over(left: &[u8]) -> bool
    ensures { result ≡ is_over left.now }
{
    match left {
        [b'\r', b'\n', ..] => true,
        _ => false,
    }
}

/// Reads lines up to the empty one, of which none is one that the operator drops.
pub fn read_lines<'a>(
    drops: &[&[u8]],
    text: &mut Vec<u8>,
    asked: &mut Vec<u8>,
    first: Reading<'a>,
) -> Result<Option<Reading<'a>>, AllocError>
    requires { length first.left.now ≤ length first.run.now }
    ensures walked { IfOk result (λ r. IfSome r (λ next. GoesOn (map (λ n. n.now) drops.now) (stand text.old.items asked.old.items first.entry) (stand text.new.items asked.new.items next))) }
    ensures over { IfOk result (λ r. IfSome r (λ next. (is_over next.left.now ≡ true) × (length next.left.now ≤ length next.run.now))) }
    ensures shorter { IfOk result (λ r. IfSome r (λ next. length next.left.now ≤ length first.entry.left.now)) }
{
    let mut at = first;
    while !is_over(at.left) {
        match take_line(drops, text, asked, at)? {
            Some(next) => at = next,
            None => return Ok(None),
        }
    }
    Ok(Some(at))
}
