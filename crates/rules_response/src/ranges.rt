//! The parts of a body that a Range names.
ghost use Rattle.std.specs.Prelude.{◌≡◌, ◌+◌, min, map, filter, option_map, IfOk};
ghost use Rattle.std.specs.List.{list_any};
ghost use Rattle.std.specs.Option.{option_map_or};
ghost use Rattle.rules_fields.specs.Fields.{elements_of};
ghost use Rattle.rules_response.specs.Ranges.{spec_from, cut_hyphen, spec_of, every, elements_in, is_inverted, part_of, is_filled_part, overlap, some_overlap, is_countable, ranges};
ghost use Rattle.rules_response.specs.Spans.{spec, specs, span, spans};

use rules_fields::blanks::is_small;
use rules_fields::lines::add_elements;
use rules_fields::number::digits;
use std::alloc::{AllocError, Global};

/// A part of a body: from a byte up to, and without, another.
#[derive(Clone, Copy, Debug, PartialEq, Eq)]
pub struct Span {
    /// Its first byte.
    pub from: u64,
    /// The byte behind its last.
    pub to: u64,
}

// A form of a Range: the first and the last byte, or of a suffix its length alone.
#[derive(Clone, Copy, Debug, PartialEq, Eq)]
struct RangeSpec {
    first: Option<u64>,
    last: Option<u64>,
}

/// The parts of a body of this length that the text of a Range names; none where it doesn't count.
pub fn ranges(
    alloc: Global,
    text: &[u8],
    length: u64,
    most: u64,
) -> Result<Option<Vec<Span>>, AllocError>
    ensures { IfOk result (λ r. option_map (λ ps. spans ps.items) r ≡ ranges text.now length most) }
{
    let Some(rest) = behind_unit(text) else {
        return Ok(None);
    };
    let mut elements = Vec::new(alloc);
    add_elements(&mut elements, rest)?;
    let Some(forms) = specs_of(alloc, elements.as_slice())? else {
        return Ok(None);
    };
    if !is_countable(forms.as_slice(), most) {
        return Ok(None);
    }
    let parts = parts_of(alloc, forms.as_slice(), length)?;
    if some_overlap(parts.as_slice()) {
        Ok(None)
    } else {
        Ok(Some(parts))
    }
}

// What follows `bytes=`.
fn behind_unit(text: &[u8]) -> Option<&[u8]>
    ensures { option_map (λ rest. elements_of rest.now) result ≡ elements_in text.now }
{
    if text.len() < 6 || !is_small(&text[..6], b"bytes=") {
        return None;
    }
    Some(&text[6..])
}

fn specs_of(alloc: Global, elements: &[&[u8]]) -> Result<Option<Vec<RangeSpec>>, AllocError>
    ensures { IfOk result (λ r. option_map (λ ss. specs ss.items) r ≡ every (map spec_of (map (λ e. e.now) elements.now))) }
{
    let mut found = Vec::new(alloc);
    for element in elements {
        let Some(spec) = spec_of(element) else {
            return Ok(None);
        };
        found.push(spec)?;
    }
    Ok(Some(found))
}

fn spec_of(text: &[u8]) -> Option<RangeSpec>
    ensures { option_map spec result ≡ spec_of text.now }
{
    let (before, after) = cut_hyphen(text);
    let after = after?;
    if before.is_empty() {
        let last = digits(after)?;
        return Some(RangeSpec {
            first: None,
            last: Some(last),
        });
    }
    spec_from(digits(before)?, after)
}

fn spec_from(first: u64, after: &[u8]) -> Option<RangeSpec>
    ensures { option_map spec result ≡ spec_from (Some first) after.now }
{
    if after.is_empty() {
        return Some(RangeSpec {
            first: Some(first),
            last: None,
        });
    }
    let last = digits(after)?;
    Some(RangeSpec {
        first: Some(first),
        last: Some(last),
    })
}

// What stands before the first hyphen, and what follows it.
fn cut_hyphen(text: &[u8]) -> (&[u8], Option<&[u8]>)
    ensures { (result.0.now, option_map (λ rest. rest.now) result.1) ≡ cut_hyphen text.now }
{
    for (i, b) in text.iter().enumerate() {
        if *b == b'-' {
            return (&text[..i], Some(&text[i + 1..]));
        }
    }
    (text, None)
}

fn is_countable(forms: &[RangeSpec], most: u64) -> bool
    ensures { result ≡ is_countable most (specs forms.now) }
{
    !forms.is_empty() && forms.len() as u64 <= most && !has_inverted(forms)
}

fn has_inverted(forms: &[RangeSpec]) -> bool
    ensures { result ≡ list_any is_inverted (specs forms.now) }
{
    for s in forms {
        if is_inverted(s) {
            return true;
        }
    }
    false
}

fn is_inverted(s: &RangeSpec) -> bool
    ensures { result ≡ is_inverted (spec s.now) }
{
    match (s.first, s.last) {
        (Some(a), Some(b)) => b < a,
        _ => false,
    }
}

// What the forms name of a body, without what is empty.
fn parts_of(alloc: Global, forms: &[RangeSpec], length: u64) -> Result<Vec<Span>, AllocError>
    ensures { IfOk result (λ ps. spans ps.items ≡ filter is_filled_part (map (part_of length) (specs forms.now))) }
{
    let mut parts = Vec::new(alloc);
    for s in forms {
        let part = part_of(s, length);
        if part.from < part.to {
            parts.push(part)?;
        }
    }
    Ok(parts)
}

fn part_of(s: &RangeSpec, length: u64) -> Span
    ensures { span result ≡ part_of length (spec s.now) }
{
    match s.first {
        None => Span {
            from: length.saturating_sub(s.last.unwrap_or(0)),
            to: length,
        },
        Some(from) => Span {
            from,
            to: up_to(s.last, length),
        },
    }
}

// Up to a last byte, and no further than the body.
fn up_to(last: Option<u64>, length: u64) -> u64
    ensures { result ≡ option_map_or (λ b. min (b + 1) length) last length }
{
    match last {
        None => length,
        Some(b) if b < length => b + 1,
        Some(_) => length,
    }
}

fn some_overlap(parts: &[Span]) -> bool
    ensures { result ≡ some_overlap (spans parts.now) }
{
    let mut left = parts;
    while let [first, rest @ ..] = left {
        if overlaps_one(*first, rest) {
            return true;
        }
        left = rest;
    }
    false
}

fn overlaps_one(p: Span, parts: &[Span]) -> bool
    ensures { result ≡ list_any (overlap (span p)) (spans parts.now) }
{
    for q in parts {
        if p.from < q.to && q.from < p.to {
            return true;
        }
    }
    false
}
