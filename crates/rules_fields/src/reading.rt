//! How the directives of lines are read.
ghost use Rattle.std.specs.Prelude.{◌≡◌, ◌≤◌, ◌++◌, length, map, option_map, false, IfOk, OnOk};
ghost use Rattle.rules_fields.specs.Fields.{fields};
ghost use Rattle.rules_fields.specs.Meaning.{meaning, meanings, text_bytes};
ghost use Rattle.rules_fields.specs.Directives.{quoted, quoted_value, value_at, named, name_len, first_of, directives_of, directives};

use crate::Line;
use crate::blanks::{is_small, skip_blanks, trimmed};
use crate::directive::{Directive, Text};
use crate::lines::cut;
use std::alloc::{AllocError, Global};

/// The directives of all lines of a name, in order.
pub fn directives<'a>(
    alloc: Global,
    lines: &[Line<'a>],
    name: &[u8],
) -> Result<Vec<Directive<'a>>, AllocError>
    ensures { IfOk result (λ ds. meanings ds.items ≡ directives name.now (fields lines.now)) }
{
    let mut found = Vec::new(alloc);
    for line in lines {
        if is_small(line.name, name) {
            add(alloc, &mut found, line.value)?;
        }
    }
    Ok(found)
}

// Adds the directives of one line.
fn add<'a>(alloc: Global, found: &mut Vec<Directive<'a>>, text: &'a [u8]) -> Result<(), AllocError>
    ensures { OnOk result (meanings found.new.items ≡ meanings found.old.items ++ directives_of text.now) }
{
    let mut left = Some(text);
    while let Some(text) = left {
        let (directive, rest) = first_of(alloc, text)?;
        left = rest;
        if let Some(directive) = directive {
            found.push(directive)?;
        }
    }
    Ok(())
}

// The first directive of a text, and what follows its comma.
#[tactic(auto, unfolding(crate::specs::Directives::first_of))]
fn first_of<'a>(
    alloc: Global,
    text: &'a [u8],
) -> Result<(Option<Directive<'a>>, Option<&'a [u8]>), AllocError>
    ensures { IfOk result (λ r. (option_map meaning r.0, option_map (λ t. t.now) r.1) ≡ first_of text.now) }
{
    let (name, after) = text.split_at(name_len(text));
    let name = trimmed(name);
    match after {
        [] => Ok((named(name, None), None)),
        [b',', rest @ ..] => Ok((named(name, None), Some(rest))),
        [_, rest @ ..] => {
            let (value, rest) = value_at(alloc, rest)?;
            Ok((named(name, Some(value)), rest))
        }
    }
}

fn named<'a>(name: &'a [u8], value: Option<Text<'a>>) -> Option<Directive<'a>>
    ensures { option_map meaning result ≡ named name.now (option_map text_bytes value.entry) }
{
    if name.is_empty() {
        None
    } else {
        Some(Directive {
            name: Text::Lent(name),
            value,
        })
    }
}

fn name_len(text: &[u8]) -> usize
    ensures is { result ≡ name_len text.now }
    ensures within { result ≤ length text.now }
{
    for (i, b) in text.iter().enumerate() {
        if *b == b',' || *b == b'=' {
            return i;
        }
    }
    text.len()
}

// The value after `=`, and what follows its comma.
#[tactic(auto, unfolding(crate::specs::Directives::value_at))]
fn value_at<'a>(alloc: Global, text: &'a [u8]) -> Result<(Text<'a>, Option<&'a [u8]>), AllocError>
    ensures { IfOk result (λ r. (text_bytes r.0, option_map (λ t. t.now) r.1) ≡ value_at text.now) }
{
    match quoted_value(alloc, skip_blanks(text))? {
        Some((value, rest)) => Ok((Text::Owned(value), rest)),
        None => {
            let (value, rest) = cut(text);
            Ok((Text::Lent(trimmed(value)), rest))
        }
    }
}

// A quoted value that ends before blanks and a comma or the end, and what follows the comma.
fn quoted_value<'a>(
    alloc: Global,
    text: &'a [u8],
) -> Result<Option<(Vec<u8>, Option<&'a [u8]>)>, AllocError>
    ensures { IfOk result (λ r. option_map (λ v. (v.0.items, option_map (λ t. t.now) v.1)) r ≡ quoted_value text.now) }
{
    let [b'"', inside @ ..] = text else {
        return Ok(None);
    };
    let Some((value, after)) = quoted(alloc, inside)? else {
        return Ok(None);
    };
    match skip_blanks(after) {
        [] => Ok(Some((value, None))),
        [b',', rest @ ..] => Ok(Some((value, Some(rest)))),
        _ => Ok(None),
    }
}

/// What stands before the quote that ends a quoted text, and what follows that quote.
pub fn quoted<'a>(alloc: Global, text: &'a [u8]) -> Result<Option<(Vec<u8>, &'a [u8])>, AllocError>
    ensures { IfOk result (λ r. option_map (λ v. (v.0.items, v.1.now)) r ≡ quoted false text.now) }
{
    let mut value = Vec::new(alloc);
    let mut escaped = false;
    for (i, b) in text.iter().enumerate() {
        if escaped {
            value.push(*b)?;
            escaped = false;
        } else if *b == b'"' {
            return Ok(Some((value, &text[i + 1..])));
        } else if *b == b'\\' {
            escaped = true;
        } else {
            value.push(*b)?;
        }
    }
    Ok(None)
}
