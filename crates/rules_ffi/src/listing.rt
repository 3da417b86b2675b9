//! Lists of variants: under a first key stand sets of the names by which its responses vary; each response stands under a second key by its set.
//!
//! A list is stored as a body of one to four sets, newest first: the token, the names and an empty line, each ended by a LF.
ghost use Rattle.std.specs.Prelude.{◌≡◌, ◌++◌, ◌∷◌, [], map, take, IfOk, OnOk};
ghost use Rattle.std.specs.List.{flat_map};
ghost use Rattle.rules_fields.specs.Fields.{fields};
ghost use Rattle.rules_storage.specs.Selecting.{counting};
ghost use Rattle.rules_ffi_arguments.specs.Given.{Gives};
ghost use Rattle.rules_ffi_results.specs.Telling.{Writes};
ghost use Rattle.rules_ffi_results.specs.Keeping.{unkept};
ghost use Rattle.rules_ffi.specs.Sets.{sets_of, set_text};
ghost use Rattle.rules_ffi.specs.SetViews.{set_of};
ghost use Rattle.rules_ffi.specs.Lists.{is_token, new_list, list_or, listed_in};

use crate::sets::{VarySet, add_names, made_text, placed, sets_of};
use http1_message_parts::scan::place_of;
use rules_ffi_arguments::bad::Bad;
use rules_ffi_arguments::kept::meta_of;
use rules_ffi_arguments::moments::moment_in;
use rules_ffi_arguments::options::{lists_in, options};
use rules_ffi_arguments::response::response;
use rules_ffi_arguments::room::{add_text, put};
use rules_ffi_arguments::shapes::{KeptShape, OptionNumbers, ResponseShape, Span};
use rules_ffi_arguments::spans::lines_in;
use rules_ffi_results::keeping::unkept;
use rules_ffi_results::marks::{BAD_CALL, DONE, KEPT, MEMORY, NO_ROOM};
use rules_fields::Line;
use rules_storage::selecting::counting;
use std::alloc::{AllocError, Global};

// The seconds of a year.
const LONG: u64 = 31_536_000;

/// Where the response has its place, by what is stored under the first key now: DONE, with the place of its set. Else KEPT, a new list: `head`, `body` and
/// `meta` are to be put under the first key, and the response under the second key of the set in front.
pub fn list(
    alloc: Global,
    numbers: &OptionNumbers,
    words: &[u8],
    shape: &ResponseShape,
    text: &[u8],
    seconds: u64,
    nanoseconds: u64,
    old: &[u8],
    token: &[u8],
    room: &mut [u8],
    out: &mut KeptShape,
)
    ensures { Writes unkept (listed_in numbers.now words.now shape.now text.now seconds nanoseconds old.now token.now) room.old room.new out.new }
{
    *out = match listed(
        alloc,
        numbers,
        words,
        shape,
        text,
        seconds,
        nanoseconds,
        old,
        token,
    ) {
        Err(Bad::Memory) => unkept(MEMORY, 0),
        Err(Bad::Call) => unkept(BAD_CALL, 0),
        Ok((text, told)) => {
            if put(room, text.as_slice()) {
                told
            } else {
                unkept(NO_ROOM, text.len() as u64)
            }
        }
    };
}

// A token is of 8 to 64 bytes that end no line.
fn is_token(token: &[u8]) -> bool
    ensures { result ≡ is_token token.now }
{
    place_of(token, b'\n') == token.len() && token.len() >= 8 && token.len() <= 64
}

#[tactic(auto, unfolding(crate::specs::Lists::listed_in))]
fn listed(
    alloc: Global,
    numbers: &OptionNumbers,
    words: &[u8],
    shape: &ResponseShape,
    text: &[u8],
    seconds: u64,
    nanoseconds: u64,
    old: &[u8],
    token: &[u8],
) -> Result<(Vec<u8>, KeptShape), Bad>
    ensures { Gives (λ t. (t.0.items, t.1)) result (listed_in numbers.now words.now shape.now text.now seconds nanoseconds old.now token.now) }
{
    let lists = lists_in(alloc, words)?;
    options(numbers, &lists)?;
    let lines = lines_in(alloc, text, shape.lines)?;
    let response = response(shape, lines.as_slice())?;
    let now = moment_in(seconds, nanoseconds)?;
    if !is_token(token) {
        return Err(Bad::Call);
    }
    Ok(list_for(alloc, response.lines, old, token, now)?)
}

/// The list that a response with these lines is put into, where it has no place in the one that is stored; else its place.
pub fn list_for(
    alloc: Global,
    lines: &[Line<'_>],
    old: &[u8],
    token: &[u8],
    now: u64,
) -> Result<(Vec<u8>, KeptShape), AllocError>
    ensures { IfOk result (λ t. (t.0.items, t.1) ≡ list_or (counting (fields lines.now)) (sets_of old.now) token.now now) }
{
    let names = counting(alloc, lines)?;
    let sets = sets_of(alloc, old)?;
    list_with(alloc, names.as_slice(), sets.as_slice(), token, now)
}

fn list_with(
    alloc: Global,
    names: &[Vec<u8>],
    sets: &[VarySet<'_>],
    token: &[u8],
    now: u64,
) -> Result<(Vec<u8>, KeptShape), AllocError>
    ensures { IfOk result (λ t. (t.0.items, t.1) ≡ list_or (map (λ n. n.items) names.now) (map set_of sets.now) token.now now) }
{
    let (place, has) = placed(alloc, names, sets)?;
    if !has {
        return new_list(alloc, token, names, sets, now);
    }
    let told = KeptShape {
        place,
        ..unkept(DONE, 0)
    };
    Ok((Vec::new(alloc), told))
}

// Adds a set: its token, its names, each with a LF behind it, and an empty line.
fn add_set(text: &mut Vec<u8>, set: &VarySet<'_>) -> Result<(), AllocError>
    ensures { OnOk result (text.new.items ≡ text.old.items ++ set_text (set_of set.now)) }
{
    text.extend_from_slice(set.token)?;
    text.push(b'\n')?;
    add_names(text, set.names.as_slice())?;
    text.push(b'\n')?;
    Ok(())
}

fn add_sets(text: &mut Vec<u8>, sets: &[VarySet<'_>]) -> Result<(), AllocError>
    ensures { OnOk result (text.new.items ≡ text.old.items ++ flat_map set_text (map set_of sets.now)) }
{
    for set in sets {
        add_set(text, set)?;
    }
    Ok(())
}

// Adds a new set in front, and at most three of the others.
fn add_body(
    text: &mut Vec<u8>,
    token: &[u8],
    names: &[u8],
    sets: &[VarySet<'_>],
) -> Result<(), AllocError>
    ensures { OnOk result (text.new.items ≡ text.old.items ++ (token.now ++ (10 ∷ []) ++ names.now ++ (10 ∷ [])) ++ flat_map set_text (map set_of (take 3 sets.now))) }
{
    text.extend_from_slice(token)?;
    text.push(b'\n')?;
    text.extend_from_slice(names)?;
    text.push(b'\n')?;
    add_sets(text, &sets[..sets.len().min(3)])
}

// The head of a list.
const HEAD: &[u8] = b"HTTP/1.1 600 List\r\n\r\n";

fn new_list(
    alloc: Global,
    token: &[u8],
    names: &[Vec<u8>],
    sets: &[VarySet<'_>],
    now: u64,
) -> Result<(Vec<u8>, KeptShape), AllocError>
    ensures { IfOk result (λ t. (t.0.items, t.1) ≡ new_list token.now (map (λ n. n.items) names.now) (map set_of sets.now) now) }
{
    let mut text = Vec::new(alloc);
    let head = add_text(&mut text, HEAD)?;
    let names = made_text(alloc, names)?;
    add_body(&mut text, token, names.as_slice(), sets)?;
    let body = Span {
        from: head.to,
        to: text.len() as u64,
    };
    let told = KeptShape {
        varies: 1,
        meta: meta_of(now as i128, LONG, 0, 0),
        head,
        body,
        ..unkept(KEPT, 0)
    };
    Ok((text, told))
}
