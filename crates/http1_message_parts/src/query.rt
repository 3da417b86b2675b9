//! The query of a target as the operator's words leave it (RFC 3986, 3.4).
ghost use Rattle.std.specs.Prelude.{◌≡◌, ◌++◌, map, option_map, IfOk, OnOk};
ghost use Rattle.rules_fields.specs.Meaning.{text_bytes};
ghost use Rattle.rules_fields.specs.Types.{chosen};
ghost use Rattle.http1_message_parts.specs.Query.{part_name, prefix_of, names, is_dropped, kept_parts, goes_before, in_order, marked, query_left, leaves_query, cut_target, chosen_target};
ghost use Rattle.http1_message_parts.specs.Merging.{merged};

use crate::scan::{cut_at, place_of};
use rules_fields::directive::Text;
use rules_fields::types::Options;
use std::alloc::{AllocError, Global};
use std::cmp::Ordering;

// What stands before the first `=`.
fn part_name(part: &[u8]) -> &[u8]
    ensures { result.now ≡ part_name part.now }
{
    &part[..place_of(part, b'=')]
}

// What stands before a `*` at the end.
fn prefix_of(word: &[u8]) -> Option<&[u8]>
    ensures { option_map (λ t. t.now) result ≡ prefix_of word.now }
{
    match word {
        [prefix @ .., b'*'] => Some(prefix),
        _ => None,
    }
}

// Whether a word is this name, or a prefix of it with a `*` behind.
fn names(word: &[u8], name: &[u8]) -> bool
    ensures { result ≡ names word.now name.now }
{
    match prefix_of(word) {
        Some(prefix) => name.starts_with(prefix),
        None => name == word,
    }
}

fn is_dropped(words: &[&[u8]], part: &[u8]) -> bool
    ensures { result ≡ is_dropped (map (λ w. w.now) words.now) part.now }
{
    for word in words {
        if names(word, part_name(part)) {
            return true;
        }
    }
    false
}

// The parts between `&` that the operator doesn't drop.
fn kept_parts<'a>(
    alloc: Global,
    words: &[&[u8]],
    query: &'a [u8],
) -> Result<Vec<&'a [u8]>, AllocError>
    ensures { IfOk result (λ ps. map (λ p. p.now) ps.items ≡ kept_parts (map (λ w. w.now) words.now) query.now) }
{
    let mut kept = Vec::new(alloc);
    let mut left = Some(query);
    while let Some(text) = left {
        let (part, rest) = cut_at(text, b'&');
        left = rest;
        if !is_dropped(words, part) {
            kept.push(part)?;
        }
    }
    Ok(kept)
}

fn goes_before(part: &[u8], other: &[u8]) -> bool
    ensures { result ≡ goes_before part.now other.now }
{
    part_name(part).cmp(part_name(other)) == Ordering::Less
}

// Two lists in order as one; of parts with one name those of the first list come first.
fn merged<'a>(
    alloc: Global,
    first: &[&'a [u8]],
    second: &[&'a [u8]],
) -> Result<Vec<&'a [u8]>, AllocError>
    ensures { IfOk result (λ ps. map (λ p. p.now) ps.items ≡ merged (map (λ p. p.now) first.now) (map (λ p. p.now) second.now)) }
{
    let mut parts = Vec::with_capacity(alloc, first.len().saturating_add(second.len()))?;
    let mut front = first;
    let mut back = second;
    while let [b, bs @ ..] = back {
        let [f, fs @ ..] = front else {
            parts.extend_from_slice(back)?;
            return Ok(parts);
        };
        if goes_before(b, f) {
            parts.push(*b)?;
            back = bs;
        } else {
            parts.push(*f)?;
            front = fs;
        }
    }
    parts.extend_from_slice(front)?;
    Ok(parts)
}

fn copied<'a>(alloc: Global, parts: &[&'a [u8]]) -> Result<Vec<&'a [u8]>, AllocError>
    ensures { IfOk result (λ ps. ps.items ≡ parts.now) }
{
    let mut all = Vec::with_capacity(alloc, parts.len())?;
    all.extend_from_slice(parts)?;
    Ok(all)
}

// In the order of their names: both halves, and these merged.
fn in_order<'a>(alloc: Global, parts: &[&'a [u8]]) -> Result<Vec<&'a [u8]>, AllocError>
    ensures { IfOk result (λ ps. map (λ p. p.now) ps.items ≡ in_order (map (λ p. p.now) parts.now)) }
{
    if parts.len() < 2 {
        let all = copied(alloc, parts)?;
        return Ok(all);
    }
    let (front, back) = parts.split_at(parts.len() / 2);
    let first = in_order(alloc, front)?;
    let second = in_order(alloc, back)?;
    let all = merged(alloc, first.as_slice(), second.as_slice())?;
    Ok(all)
}

// Adds the parts, the first behind a `?`, each other behind a `&`.
fn add_parts(text: &mut Vec<u8>, parts: &[&[u8]]) -> Result<(), AllocError>
    ensures { OnOk result (text.new.items ≡ text.old.items ++ marked 63 (map (λ p. p.now) parts.now)) }
{
    let mut mark = b'?';
    for part in parts {
        text.push(mark)?;
        text.extend_from_slice(part)?;
        mark = b'&';
    }
    Ok(())
}

// Adds what is left of a query and its `?`.
fn add_query(
    alloc: Global,
    text: &mut Vec<u8>,
    query: &[u8],
    options: &Options<'_>,
) -> Result<(), AllocError>
    ensures { OnOk result (text.new.items ≡ text.old.items ++ query_left (chosen options.now) query.now) }
{
    let [_, query @ ..] = query else {
        return Ok(());
    };
    let parts = kept_parts(alloc, options.query_drops, query)?;
    if options.query_sorts {
        let sorted = in_order(alloc, parts.as_slice())?;
        return add_parts(text, sorted.as_slice());
    }
    add_parts(text, parts.as_slice())
}

// Whether no word speaks of queries.
fn leaves_query(options: &Options<'_>) -> bool
    ensures { result ≡ leaves_query (chosen options.now) }
{
    options.query_drops.is_empty() && !options.query_sorts
}

// A target with what is left of its query.
fn cut_target(alloc: Global, target: &[u8], options: &Options<'_>) -> Result<Vec<u8>, AllocError>
    ensures { IfOk result (λ t. t.items ≡ cut_target (chosen options.now) target.now) }
{
    let (path, query) = target.split_at(place_of(target, b'?'));
    let mut own = Vec::new(alloc);
    own.extend_from_slice(path)?;
    add_query(alloc, &mut own, query, options)?;
    Ok(own)
}

/// A target as the operator's words leave it.
pub fn chosen_target<'a>(
    alloc: Global,
    target: Text<'a>,
    options: &Options<'_>,
) -> Result<Text<'a>, AllocError>
    ensures { IfOk result (λ t. text_bytes t ≡ chosen_target (chosen options.now) (text_bytes target.entry)) }
{
    if leaves_query(options) {
        return Ok(target);
    }
    let own = cut_target(alloc, target.bytes(), options)?;
    Ok(Text::Owned(own))
}
