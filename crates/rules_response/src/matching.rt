//! A client's conditions.
ghost use Rattle.std.specs.Prelude.{◌≡◌, false, map, bytes_eq, codes, IfOk};
ghost use Rattle.std.specs.Option.{option_map_or};
ghost use Rattle.rules_fields.specs.Fields.{fields, first};
ghost use Rattle.rules_fields.specs.Types.{asked_of, kept_of};
ghost use Rattle.rules_response.specs.Matching.{is_star, matches_tag, modified_in, is_not_after, is_alone, matches_date, matches, is_strong_tag, is_strong_date, is_same_for_range, range_counts};

use crate::confirming::{date_in, is_strongly_dated, tag_in};
use crate::tagged::lists_tag;
use rules_fields::Line;
use rules_fields::blanks::{is_small, trimmed};
use rules_fields::dates::date_of;
use rules_fields::lines::{all, first, has_line};
use rules_fields::tags::tag_of;
use rules_fields::types::{Kept, Request};
use std::alloc::{AllocError, Global};

/// Whether the client's condition lets 304 be the answer (RFC 9110, 13.2).
pub fn matches(alloc: Global, request: &Request<'_>, kept: &Kept<'_>) -> Result<bool, AllocError>
    ensures { IfOk result (λ b. b ≡ matches (asked_of request.now) (kept_of kept.now)) }
{
    if kept.status < 200 || kept.status >= 300 {
        return Ok(false);
    }
    if has_line(request.lines, b"if-none-match") {
        matches_tag(alloc, request.lines, kept.lines)
    } else {
        matches_date(alloc, request.lines, kept.lines)
    }
}

fn matches_tag(alloc: Global, request: &[Line<'_>], stored: &[Line<'_>]) -> Result<bool, AllocError>
    ensures { IfOk result (λ b. b ≡ matches_tag (fields request.now) (fields stored.now)) }
{
    let values = all(alloc, request, b"if-none-match")?;
    if is_star(values.as_slice()) {
        return Ok(true);
    }
    match tag_in(stored) {
        None => Ok(false),
        Some(tag) => lists_tag(alloc, request, b"if-none-match", tag.text),
    }
}

fn is_star(values: &[&[u8]]) -> bool
    ensures { result ≡ is_star (map (λ v. v.now) values.now) }
{
    match values {
        [value] => trimmed(value) == b"*".as_slice(),
        _ => false,
    }
}

fn matches_date(
    alloc: Global,
    request: &[Line<'_>],
    stored: &[Line<'_>],
) -> Result<bool, AllocError>
    ensures { IfOk result (λ b. b ≡ matches_date (fields request.now) (fields stored.now)) }
{
    if !is_alone(request, b"if-modified-since") {
        return Ok(false);
    }
    let since = date_in(alloc, request, b"if-modified-since")?;
    let modified = modified_in(alloc, stored)?;
    Ok(is_not_after(modified, since))
}

fn modified_in(alloc: Global, lines: &[Line<'_>]) -> Result<Option<u64>, AllocError>
    ensures { IfOk result (λ d. d ≡ modified_in (fields lines.now)) }
{
    if let Some(text) = first(lines, b"last-modified")
        && !text.is_empty()
    {
        return date_of(alloc, text);
    }
    date_in(alloc, lines, b"date")
}

fn is_not_after(a: Option<u64>, b: Option<u64>) -> bool
    ensures { result ≡ is_not_after a b }
{
    match (a, b) {
        (Some(a), Some(b)) => a <= b,
        _ => false,
    }
}

/// Whether a client's Range counts (RFC 9110, 14.2).
pub fn range_counts(
    alloc: Global,
    request: &Request<'_>,
    kept: &Kept<'_>,
) -> Result<bool, AllocError>
    ensures { IfOk result (λ b. b ≡ range_counts (asked_of request.now) (kept_of kept.now)) }
{
    if request.method != b"GET".as_slice() || kept.status != 200 {
        return Ok(false);
    }
    if !is_alone(request.lines, b"range") {
        return Ok(false);
    }
    is_same_for_range(alloc, request.lines, kept.lines)
}

// Whether a name has just one line.
fn is_alone(lines: &[Line<'_>], name: &[u8]) -> bool
    ensures { result ≡ is_alone name.now (fields lines.now) }
{
    let mut n: usize = 0;
    for line in lines {
        if is_small(line.name, name) {
            n += 1;
        }
    }
    n == 1
}

fn is_same_for_range(
    alloc: Global,
    request: &[Line<'_>],
    stored: &[Line<'_>],
) -> Result<bool, AllocError>
    ensures { IfOk result (λ b. b ≡ is_same_for_range (fields request.now) (fields stored.now)) }
{
    let Some(text) = first(request, b"if-range") else {
        return Ok(true);
    };
    if !is_alone(request, b"if-range") {
        return Ok(false);
    }
    if is_strong_tag(text, stored) {
        return Ok(true);
    }
    is_strong_date(alloc, text, stored)
}

fn is_strong_tag(text: &[u8], stored: &[Line<'_>]) -> bool
    ensures { result ≡ is_strong_tag text.now (fields stored.now) }
{
    let Some(tag) = tag_of(text) else {
        return false;
    };
    match tag_in(stored) {
        None => false,
        Some(mine) => !tag.is_weak && !mine.is_weak && mine.text == tag.text,
    }
}

fn is_strong_date(alloc: Global, text: &[u8], stored: &[Line<'_>]) -> Result<bool, AllocError>
    ensures { IfOk result (λ b. b ≡ is_strong_date text.now (fields stored.now)) }
{
    let asked = date_of(alloc, text)?;
    if asked.is_none() || !is_modified_at(stored, trimmed(text)) {
        return Ok(false);
    }
    is_strongly_dated(alloc, stored)
}

// Whether Last-Modified is this text.
fn is_modified_at(stored: &[Line<'_>], text: &[u8]) -> bool
    ensures { result ≡ option_map_or (λ v. bytes_eq v text.now) (first (codes "last-modified") (fields stored.now)) false }
{
    match first(stored, b"last-modified") {
        None => false,
        Some(value) => value == text,
    }
}
