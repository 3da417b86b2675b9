//! Targeted fields (RFC 9213), which are dictionaries (RFC 8941, 3.2).
ghost use Rattle.std.specs.Prelude.{◌≡◌, ◌++◌, map, option_map, IfOk, OnOk};
ghost use Rattle.rules_fields.specs.Fields.{fields};
ghost use Rattle.rules_fields.specs.Texts.{small};
ghost use Rattle.rules_fields.specs.Meaning.{meaning, meanings, text_bytes};
ghost use Rattle.rules_fields.specs.Targeted.{joined, plain, said_value, said_by, others, placed, with_pair, next_at, dictionary, targeted, preferred};

use crate::Line;
use crate::blanks::{is_same, skip_blanks};
use crate::directive::{Directive, Text};
use crate::lines::all;
use crate::reading::quoted;
use crate::tables::{DIRECTIVES, among, is_in_seconds};
use std::alloc::{AllocError, Global};
use structured_fields::items::{pair_at, skip_spaces};

/// The directives of the first of these fields, in order of preference, that reads.
pub fn preferred<'a>(
    alloc: Global,
    lines: &[Line<'a>],
    names: &[&[u8]],
) -> Result<Option<Vec<Directive<'a>>>, AllocError>
    ensures { IfOk result (λ r. option_map (λ ds. meanings ds.items) r ≡ preferred (map (λ n. n.now) names.now) (fields lines.now)) }
{
    for name in names {
        if let Some(found) = targeted(alloc, lines, name)? {
            return Ok(Some(found));
        }
    }
    Ok(None)
}

/// The directives of a targeted field; `None` where it isn't there, or can't be read.
pub fn targeted<'a>(
    alloc: Global,
    lines: &[Line<'a>],
    name: &[u8],
) -> Result<Option<Vec<Directive<'a>>>, AllocError>
    ensures { IfOk result (λ r. option_map (λ ds. meanings ds.items) r ≡ targeted name.now (fields lines.now)) }
{
    let values = all(alloc, lines, name)?;
    match values.as_slice() {
        [] => dictionary(alloc, b"".as_slice()),
        [text] => dictionary(alloc, text),
        values => {
            let text = joined(alloc, values)?;
            match dictionary(alloc, text.as_slice())? {
                Some(found) => Ok(Some(owned(alloc, found.as_slice())?)),
                None => Ok(None),
            }
        }
    }
}

/// The values of several lines as one, with a comma and a space between.
pub fn joined(alloc: Global, values: &[&[u8]]) -> Result<Vec<u8>, AllocError>
    ensures { IfOk result (λ text. text.items ≡ joined (map (λ v. v.now) values.now)) }
{
    let mut text = Vec::new(alloc);
    let [first, rest @ ..] = values else {
        return Ok(text);
    };
    text.extend_from_slice(first)?;
    for value in rest {
        text.extend_from_slice(b", ".as_slice())?;
        text.extend_from_slice(value)?;
    }
    Ok(text)
}

// The same directives, written anew.
fn owned<'a>(alloc: Global, ds: &[Directive<'_>]) -> Result<Vec<Directive<'a>>, AllocError>
    ensures { IfOk result (λ copies. meanings copies.items ≡ meanings ds.now) }
{
    let mut copies = Vec::new(alloc);
    for d in ds {
        copies.push(Directive {
            name: owned_text(alloc, &d.name)?,
            value: owned_value(alloc, &d.value)?,
        })?;
    }
    Ok(copies)
}

fn owned_text<'a>(alloc: Global, text: &Text<'_>) -> Result<Text<'a>, AllocError>
    ensures { IfOk result (λ copy. text_bytes copy ≡ text_bytes text.now) }
{
    Ok(Text::Owned(Vec::from_slice(alloc, text.bytes())?))
}

fn owned_value<'a>(alloc: Global, value: &Option<Text<'_>>) -> Result<Option<Text<'a>>, AllocError>
    ensures { IfOk result (λ copy. option_map text_bytes copy ≡ option_map text_bytes value.now) }
{
    match value {
        Some(text) => Ok(Some(owned_text(alloc, text)?)),
        None => Ok(None),
    }
}

// The members of a dictionary as directives.
#[tactic(auto, unfolding(crate::specs::Targeted::dictionary))]
fn dictionary<'a>(alloc: Global, text: &'a [u8]) -> Result<Option<Vec<Directive<'a>>>, AllocError>
    ensures { IfOk result (λ r. option_map (λ ds. meanings ds.items) r ≡ dictionary text.now) }
{
    let mut found = Vec::new(alloc);
    let mut left = skip_spaces(text);
    let mut is_parameter = false;
    let mut n = text.len() + 1;
    while n > 0 {
        n -= 1;
        let Some((key, item, rest)) = pair_at(left) else {
            return Ok(None);
        };
        place_pair(alloc, &mut found, is_parameter, key, item)?;
        match next_at(rest) {
            None => return Ok(None),
            Some(None) => return Ok(Some(found)),
            Some(Some((follows, rest))) => {
                is_parameter = follows;
                left = rest;
            }
        }
    }
    Ok(None)
}

// What follows a key and its item: a parameter (`true`) or a member, or at the end nothing.
fn next_at(text: &[u8]) -> Option<Option<(bool, &[u8])>>
    ensures { option_map (λ n. option_map (λ q. (q.0, q.1.now)) n) result ≡ next_at text.now }
{
    if let [b';', rest @ ..] = text {
        return Some(Some((true, skip_spaces(rest))));
    }
    if let [b',', rest @ ..] = skip_blanks(text) {
        return Some(Some((false, skip_blanks(rest))));
    }
    if skip_spaces(text).is_empty() {
        Some(None)
    } else {
        None
    }
}

// A parameter changes nothing.
fn place_pair<'a>(
    alloc: Global,
    found: &mut Vec<Directive<'a>>,
    is_parameter: bool,
    key: &'a [u8],
    item: Option<&'a [u8]>,
) -> Result<(), AllocError>
    ensures { OnOk result (meanings found.new.items ≡ with_pair is_parameter (meanings found.old.items) key.now (option_map (λ v. v.now) item.entry)) }
{
    if is_parameter {
        return Ok(());
    }
    place(alloc, found, key, item)
}

// A member takes the place of an earlier one of its key.
fn place<'a>(
    alloc: Global,
    found: &mut Vec<Directive<'a>>,
    key: &'a [u8],
    item: Option<&'a [u8]>,
) -> Result<(), AllocError>
    ensures { OnOk result (meanings found.new.items ≡ placed (meanings found.old.items) (small key.now) (option_map (λ v. v.now) item.entry)) }
{
    if !among(DIRECTIVES, key) {
        return Ok(());
    }
    take_out(found, key);
    if let Some(d) = said_by(alloc, key, item)? {
        found.push(d)?;
    }
    Ok(())
}

// The directive that a member is.
fn said_by<'a>(
    alloc: Global,
    key: &'a [u8],
    item: Option<&'a [u8]>,
) -> Result<Option<Directive<'a>>, AllocError>
    ensures { IfOk result (λ d. option_map meaning d ≡ said_by (small key.now) (option_map (λ v. v.now) item.entry)) }
{
    let name = Text::Lent(key);
    let Some(item) = item else {
        return Ok(Some(Directive { name, value: None }));
    };
    if item == b"?0".as_slice() {
        return Ok(None);
    }
    if item == b"?1".as_slice() {
        return Ok(Some(Directive { name, value: None }));
    }
    let value = Some(said_value(alloc, key, item)?);
    Ok(Some(Directive { name, value }))
}

// What an item says of a key.
fn said_value<'a>(alloc: Global, key: &[u8], item: &'a [u8]) -> Result<Text<'a>, AllocError>
    ensures { IfOk result (λ text. text_bytes text ≡ said_value (small key.now) item.now) }
{
    if is_in_seconds(key) {
        Ok(Text::Lent(item))
    } else {
        plain(alloc, item)
    }
}

// Without the directives of a key.
fn take_out(found: &mut Vec<Directive<'_>>, key: &[u8])
    ensures { meanings found.new.items ≡ others (small key.now) (meanings found.old.items) }
{
    let mut i = 0;
    while i < found.len() {
        if is_same(found[i].name.bytes(), key) {
            let _ = found.remove(i);
        } else {
            i += 1;
        }
    }
}

// What an item says.
fn plain<'a>(alloc: Global, item: &'a [u8]) -> Result<Text<'a>, AllocError>
    ensures { IfOk result (λ text. text_bytes text ≡ plain item.now) }
{
    let [b'"', inside @ ..] = item else {
        return Ok(Text::Lent(item));
    };
    match quoted(alloc, inside)? {
        Some((text, _)) => Ok(Text::Owned(text)),
        None => Ok(Text::Lent(b"".as_slice())),
    }
}
