//! The second key (RFC 9111, 4.1).
ghost use Rattle.std.specs.Prelude.{◌≡◌, ◌++◌, map, IfOk, OnOk};
ghost use Rattle.std.specs.List.{list_all};
ghost use Rattle.rules_fields.specs.Texts.{small, trimmed};
ghost use Rattle.rules_fields.specs.Fields.{fields, parts};
ghost use Rattle.rules_reuse.specs.Variants.{is_plain, pieces, joined, cased, between, value_of, goes_along, value_in, line_of, secondary};

use rules_fields::Line;
use rules_fields::blanks::{is_small, trimmed};
use rules_fields::lines::{all, cut, has_line};
use rules_fields::tables::{
    FRAMES, RANGE_FIELDS, WHOLE_CONDITIONS, among, is_list_valued, is_small_valued,
};
use rules_storage::selecting::to_small;
use std::alloc::{AllocError, Global};

/// The second key of a request, by names in any case: of each its value, or that it has none.
pub fn secondary(alloc: Global, names: &[&[u8]], lines: &[Line<'_>]) -> Result<Vec<u8>, AllocError>
    ensures { IfOk result (λ key. key.items ≡ secondary (map (λ n. small n.now) names.now) (fields lines.now)) }
{
    let mut key = Vec::new(alloc);
    for name in names {
        add_line(alloc, &mut key, name, lines)?;
    }
    Ok(key)
}

/// Whether a fetch sends this field as it came: it is no condition, no Range, and none that a proxy writes itself.
pub fn goes_along(name: &[u8]) -> bool
    ensures { result ≡ goes_along (small name.now) }
{
    !(among(RANGE_FIELDS, name) || among(WHOLE_CONDITIONS, name) || among(FRAMES, name))
}

// Adds the line of one name.
fn add_line(
    alloc: Global,
    key: &mut Vec<u8>,
    name: &[u8],
    lines: &[Line<'_>],
) -> Result<(), AllocError>
    ensures { OnOk result (key.new.items ≡ key.old.items ++ line_of (small name.now) (value_in (fields lines.now) (small name.now))) }
{
    let small = to_small(alloc, name)?;
    key.extend_from_slice(small.as_slice())?;
    if has_line(lines, small.as_slice()) && goes_along(name) {
        let values = all(alloc, lines, small.as_slice())?;
        let value = value(alloc, name, values.as_slice())?;
        key.push(b':')?;
        key.extend_from_slice(value.as_slice())?;
    }
    key.push(b'\n')?;
    Ok(())
}

// The value that a name's lines have together, in small letters where case means nothing.
fn value(alloc: Global, name: &[u8], values: &[&[u8]]) -> Result<Vec<u8>, AllocError>
    ensures { IfOk result (λ v. v.items ≡ cased (small name.now) (value_of (small name.now) (map (λ v. v.now) values.now))) }
{
    let value = value_of(alloc, name, values)?;
    if is_small_valued(name) {
        to_small(alloc, value.as_slice())
    } else {
        Ok(value)
    }
}

fn value_of(alloc: Global, name: &[u8], values: &[&[u8]]) -> Result<Vec<u8>, AllocError>
    ensures { IfOk result (λ v. v.items ≡ value_of (small name.now) (map (λ v. v.now) values.now)) }
{
    if is_list_valued(name) {
        joined(alloc, b",", pieces(alloc, values)?.as_slice())
    } else {
        joined(alloc, between(name), values)
    }
}

// What stands between lines that are no list.
fn between(name: &[u8]) -> &'static [u8]
    ensures { result.now ≡ between (small name.now) }
{
    if is_small(name, b"cookie") {
        b"; "
    } else {
        b", "
    }
}

// The pieces of all values.
fn pieces<'a>(alloc: Global, values: &[&'a [u8]]) -> Result<Vec<&'a [u8]>, AllocError>
    ensures { IfOk result (λ ps. map (λ p. p.now) ps.items ≡ pieces (map (λ v. v.now) values.now)) }
{
    let plain = are_plain(values);
    let mut found = Vec::new(alloc);
    for value in values {
        if plain {
            add_parts(&mut found, value)?;
        } else {
            found.push(*value)?;
        }
    }
    Ok(found)
}

fn are_plain(values: &[&[u8]]) -> bool
    ensures { result ≡ list_all is_plain (map (λ v. v.now) values.now) }
{
    for value in values {
        if !is_plain(value) {
            return false;
        }
    }
    true
}

fn is_plain(value: &[u8]) -> bool
    ensures { result ≡ is_plain value.now }
{
    for b in value {
        if *b == b'"' || *b == b'(' {
            return false;
        }
    }
    true
}

// Adds what stands between commas, without blanks round it.
fn add_parts<'a>(found: &mut Vec<&'a [u8]>, value: &'a [u8]) -> Result<(), AllocError>
    ensures { OnOk result (map (λ p. p.now) found.new.items ≡ map (λ p. p.now) found.old.items ++ map trimmed (parts value.now)) }
{
    let mut left = Some(value);
    while let Some(text) = left {
        let (part, rest) = cut(text);
        left = rest;
        found.push(trimmed(part))?;
    }
    Ok(())
}

// The first, and each further one behind a text.
fn joined(alloc: Global, between: &[u8], pieces: &[&[u8]]) -> Result<Vec<u8>, AllocError>
    ensures { IfOk result (λ text. text.items ≡ joined between.now (map (λ p. p.now) pieces.now)) }
{
    let mut text = Vec::new(alloc);
    if let [first, rest @ ..] = pieces {
        text.extend_from_slice(first)?;
        for piece in rest {
            text.extend_from_slice(between)?;
            text.extend_from_slice(piece)?;
        }
    }
    Ok(text)
}
