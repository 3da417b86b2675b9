//! The values of the lines of a name, and the elements of a list over several lines.
ghost use Rattle.std.specs.Prelude.{◌≡◌, ◌<◌, ◌∷◌, ◌++◌, [], length, map, option_map, IfOk, OnOk, IfSome, bytes_eq};
ghost use Rattle.std.specs.List.{list_any};
ghost use Rattle.std.specs.Option.{option_map_or};
ghost use Rattle.rules_fields.specs.Fields.{fields, first, all, elements, tokens, has_line, elements_of, parts, cut, without};
ghost use Rattle.rules_fields.specs.Texts.{small};

use crate::Line;
use crate::blanks::{is_small, trimmed};
use crate::tables::among;
use std::alloc::{AllocError, Global};

/// The value of the first line of a name, which is given in small letters.
pub fn first<'a>(lines: &[Line<'a>], name: &[u8]) -> Option<&'a [u8]>
    ensures { option_map (λ v. v.now) result ≡ first name.now (fields lines.now) }
{
    for line in lines {
        if is_small(line.name, name) {
            return Some(line.value);
        }
    }
    None
}

/// Whether there is a line of a name.
pub fn has_line(lines: &[Line<'_>], name: &[u8]) -> bool
    ensures { result ≡ has_line name.now (fields lines.now) }
{
    first(lines, name).is_some()
}

/// The values of all lines of a name, in order.
pub fn all<'a>(alloc: Global, lines: &[Line<'a>], name: &[u8]) -> Result<Vec<&'a [u8]>, AllocError>
    ensures { IfOk result (λ vs. map (λ v. v.now) vs.items ≡ all name.now (fields lines.now)) }
{
    let mut values = Vec::new(alloc);
    for line in lines {
        if is_small(line.name, name) {
            values.push(line.value)?;
        }
    }
    Ok(values)
}

/// The lines whose names are none of these, which are in small letters.
pub fn without<'a>(
    alloc: Global,
    lines: &[Line<'a>],
    names: &[&[u8]],
) -> Result<Vec<Line<'a>>, AllocError>
    ensures { IfOk result (λ kept. fields kept.items ≡ without (map (λ n. n.now) names.now) (fields lines.now)) }
{
    let mut kept = Vec::with_capacity(alloc, lines.len())?;
    for line in lines {
        if !among(names, line.name) {
            kept.push(*line)?;
        }
    }
    Ok(kept)
}

/// The elements of a list over all lines of a name, in order.
pub fn elements<'a>(
    alloc: Global,
    lines: &[Line<'a>],
    name: &[u8],
) -> Result<Vec<&'a [u8]>, AllocError>
    ensures { IfOk result (λ es. map (λ e. e.now) es.items ≡ elements name.now (fields lines.now)) }
{
    let mut found = Vec::new(alloc);
    for line in lines {
        if is_small(line.name, name) {
            add_elements(&mut found, line.value)?;
        }
    }
    Ok(found)
}

/// The elements of one list.
pub fn add_elements<'a>(found: &mut Vec<&'a [u8]>, value: &'a [u8]) -> Result<(), AllocError>
    ensures { OnOk result (map (λ e. e.now) found.new.items ≡ map (λ e. e.now) found.old.items ++ elements_of value.now) }
{
    let mut left = Some(value);
    while let Some(text) = left {
        let (part, rest) = cut(text);
        left = rest;
        let element = trimmed(part);
        if !element.is_empty() {
            found.push(element)?;
        }
    }
    Ok(())
}

/// The part before the first comma, and what follows the comma.
pub fn cut(text: &[u8]) -> (&[u8], Option<&[u8]>)
    ensures value { (result.0.now, option_map (λ rest. rest.now) result.1) ≡ cut text.now }
    ensures first { parts text.now ≡ result.0.now ∷ option_map_or (λ rest. parts rest.now) result.1 [] }
    ensures shorter { IfSome result.1 (λ rest. length rest.now < length text.now) }
{
    for (i, b) in text.iter().enumerate() {
        if *b == b',' {
            return (&text[..i], Some(&text[i + 1..]));
        }
    }
    (text, None)
}

/// Whether a list over all lines of a name has an element, which is given in small letters.
pub fn lists(lines: &[Line<'_>], name: &[u8], wanted: &[u8]) -> bool
    ensures { result ≡ list_any (λ t. bytes_eq t wanted.now) (tokens name.now (fields lines.now)) }
{
    for line in lines {
        if is_small(line.name, name) && has_element(line.value, wanted) {
            return true;
        }
    }
    false
}

/// Whether one list has an element, which is given in small letters.
pub fn has_element(value: &[u8], wanted: &[u8]) -> bool
    ensures { result ≡ list_any (λ t. bytes_eq t wanted.now) (map small (elements_of value.now)) }
{
    let mut left = Some(value);
    while let Some(text) = left {
        let (part, rest) = cut(text);
        left = rest;
        let element = trimmed(part);
        if !element.is_empty() && is_small(element, wanted) {
            return true;
        }
    }
    false
}
