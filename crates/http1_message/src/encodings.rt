//! The codings that are asked for, of those that an operator lists (RFC 9110, 12.4.2, 12.5.3).
ghost use Rattle.std.specs.Prelude.{◌≡◌, ◌==◌, nat_lt, if◌then◌else◌, map, take, find, option_map, codes, bytes_eq, IfOk};
ghost use Rattle.std.specs.List.{list_all, list_any};
ghost use Rattle.std.specs.Char.{is_ascii_digit};
ghost use Rattle.rules_fields.specs.Texts.{small};
ghost use Rattle.rules_fields.specs.Fields.{fields};
ghost use Rattle.http1_message.specs.Encodings.{element_name, names, is_fraction, is_above_zero, is_wanted_by, is_wanted, admits_any, admits, encodings_of};

use crate::cookies::add_joined;
use http1_message_parts::scan::{behind, place_of};
use rules_fields::Line;
use rules_fields::blanks::{is_small, trimmed};
use rules_fields::lines::elements;
use std::alloc::{AllocError, Global};

// Whether an element is of this name, which has small letters.
fn has_name(element: &[u8], name: &[u8]) -> bool
    ensures { result ≡ bytes_eq (element_name element.now) name.now }
{
    is_small(trimmed(&element[..place_of(element, b';')]), name)
}

// Whether an element names a coding.
fn names(coding: &[u8], element: &[u8]) -> bool
    ensures { result ≡ names coding.now element.now }
{
    has_name(element, coding) || coding == b"gzip".as_slice() && has_name(element, b"x-gzip")
}

fn are_places(first: u8, digits: &[u8]) -> bool
    ensures { result ≡ list_all (λ b. if first == 48 then is_ascii_digit b else b == 48) digits.now }
{
    for b in digits {
        if !is_place(first, *b) {
            return false;
        }
    }
    true
}

fn is_place(first: u8, b: u8) -> bool
    ensures { result ≡ (if first == 48 then is_ascii_digit b else b == 48) }
{
    if first == b'0' {
        b.is_ascii_digit()
    } else {
        b == b'0'
    }
}

// Whether at most three digits stand behind a dot, of which behind a 1 each is a 0.
fn is_fraction(first: u8, rest: &[u8]) -> bool
    ensures { result ≡ is_fraction first rest.now }
{
    match rest {
        [] => true,
        [dot, digits @ ..] => *dot == b'.' && digits.len() <= 3 && are_places(first, digits),
    }
}

fn has_digit(weight: &[u8]) -> bool
    ensures { result ≡ list_any (λ b. nat_lt 48 b) weight.now }
{
    for b in weight {
        if *b > b'0' {
            return true;
        }
    }
    false
}

// Whether a weight can be read, and is above 0.
fn is_above_zero(weight: &[u8]) -> bool
    ensures { result ≡ is_above_zero weight.now }
{
    match weight {
        [] => false,
        [first, rest @ ..] => {
            (*first == b'0' || *first == b'1') && is_fraction(*first, rest) && has_digit(weight)
        }
    }
}

// Whether it is `q=` and a weight above 0.
fn is_wanted_by(parameter: &[u8]) -> bool
    ensures { result ≡ is_wanted_by parameter.now }
{
    begins_weight(parameter) && is_above_zero(behind(parameter, 2))
}

fn begins_weight(parameter: &[u8]) -> bool
    ensures { result ≡ bytes_eq (small (take 2 parameter.now)) (codes "q=") }
{
    parameter.len() >= 2 && is_small(&parameter[..2], b"q=")
}

// Whether an element has no weight, or one above 0.
fn is_wanted(element: &[u8]) -> bool
    ensures { result ≡ is_wanted element.now }
{
    match behind(element, place_of(element, b';')) {
        [] => true,
        [_, parameter @ ..] => is_wanted_by(trimmed(parameter)),
    }
}

// The first element that names a coding.
fn first_named<'a>(elements: &[&'a [u8]], coding: &[u8]) -> Option<&'a [u8]>
    ensures { option_map (λ e. e.now) result ≡ find (names coding.now) (map (λ e. e.now) elements.now) }
{
    for element in elements {
        if names(coding, element) {
            return Some(element);
        }
    }
    None
}

// Whether elements admit a coding.
fn admits(elements: &[&[u8]], coding: &[u8]) -> bool
    ensures { result ≡ admits (map (λ e. e.now) elements.now) coding.now }
{
    match first_named(elements, coding) {
        Some(element) => is_wanted(element),
        None => admits_any(elements),
    }
}

fn admits_any(elements: &[&[u8]]) -> bool
    ensures { result ≡ admits_any (map (λ e. e.now) elements.now) }
{
    match first_named(elements, b"*") {
        Some(element) => is_wanted(element),
        None => false,
    }
}

/// Those of a list that the lines admit, in its order, with a comma between.
pub fn encodings_of(
    alloc: Global,
    list: &[&[u8]],
    lines: &[Line<'_>],
) -> Result<Vec<u8>, AllocError>
    ensures { IfOk result (λ t. t.items ≡ encodings_of (map (λ c. c.now) list.now) (fields lines.now)) }
{
    let mut text = Vec::new(alloc);
    if list.is_empty() {
        return Ok(text);
    }
    let asked = elements(alloc, lines, b"accept-encoding")?;
    for coding in list {
        if admits(asked.as_slice(), coding) {
            add_joined(&mut text, b", ", coding)?;
        }
    }
    Ok(text)
}
