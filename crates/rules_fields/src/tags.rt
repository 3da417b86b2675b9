//! Entity tags (RFC 9110, 8.8.3).
ghost use Rattle.std.specs.Prelude.{◌≡◌, ◌≤◌, length, map, Some, None, option_map, if◌then◌else◌, IfOk, IfSome};
ghost use Rattle.rules_fields.specs.Fields.{fields};
ghost use Rattle.rules_fields.specs.TagValues.{tag_value};
ghost use Rattle.rules_fields.specs.Tags.{is_tag_byte, ends_quoted, is_quoted, quoted_tag, tag_of, quoted_len, quoted_at, tag_at, skip_commas, behind_comma, more_tags, tags_of};

use crate::Line;
use crate::blanks::{is_blank, is_small, skip_blanks};
use std::alloc::{AllocError, Global};

/// An entity tag.
#[derive(Clone, Copy, Debug, PartialEq, Eq)]
pub struct Tag<'a> {
    /// Whether it is a weak one.
    pub is_weak: bool,
    /// Its text with its quotes.
    pub text: &'a [u8],
}

/// The entity tag that a text is; `None` for another text.
pub fn tag_of(text: &[u8]) -> Option<Tag<'_>>
    ensures { option_map (λ t. (t.is_weak, t.text.now)) result ≡ tag_of text.now }
{
    match text {
        [b'W', b'/', text @ ..] => quoted_tag(true, text),
        _ => quoted_tag(false, text),
    }
}

fn quoted_tag(is_weak: bool, text: &[u8]) -> Option<Tag<'_>>
    ensures { option_map (λ t. (t.is_weak, t.text.now)) result ≡ quoted_tag is_weak text.now }
{
    if is_quoted(text) {
        Some(Tag { is_weak, text })
    } else {
        None
    }
}

fn is_quoted(text: &[u8]) -> bool
    ensures { result ≡ is_quoted text.now }
{
    match text {
        [b'"', rest @ ..] => ends_quoted(rest),
        _ => false,
    }
}

fn ends_quoted(text: &[u8]) -> bool
    ensures { result ≡ ends_quoted text.now }
{
    let mut left = text;
    while let [first, rest @ ..] = left {
        if *first == b'"' {
            return rest.is_empty();
        }
        if !is_tag_byte(*first) {
            return false;
        }
        left = rest;
    }
    false
}

fn is_tag_byte(b: u8) -> bool
    ensures { result ≡ is_tag_byte b }
{
    b == b'!' || b >= b'#' && b <= b'~' || b >= 128
}

/// The tags of a list over all lines of a name; `None` where one of them is no list of tags.
pub fn tags_of<'a>(
    alloc: Global,
    lines: &[Line<'a>],
    name: &[u8],
) -> Result<Option<Vec<Tag<'a>>>, AllocError>
    ensures { IfOk result (λ r. option_map (λ ts. map tag_value ts.items) r ≡ tags_of name.now (fields lines.now)) }
{
    let mut found = Vec::new(alloc);
    for line in lines {
        if is_small(line.name, name) {
            let reads = more_tags(&mut found, line.value)?;
            if !reads {
                return Ok(None);
            }
        }
    }
    Ok(Some(found))
}

// Adds the tags of one list, where it is one.
#[tactic(auto, unfolding(crate::specs::Tags::more_tags))]
fn more_tags<'a>(found: &mut Vec<Tag<'a>>, value: &'a [u8]) -> Result<bool, AllocError>
    ensures { IfOk result (λ reads. (if reads then Some (map tag_value found.new.items) else None) ≡ more_tags (map tag_value found.old.items) value.now) }
{
    let mut left = skip_commas(value);
    let mut n = value.len() + 1;
    while n > 0 {
        n -= 1;
        if left.is_empty() {
            return Ok(true);
        }
        let Some((tag, rest)) = tag_at(left) else {
            return Ok(false);
        };
        found.push(tag)?;
        let Some(rest) = behind_comma(skip_blanks(rest)) else {
            return Ok(false);
        };
        left = rest;
    }
    Ok(false)
}

fn behind_comma(text: &[u8]) -> Option<&[u8]>
    ensures { option_map (λ t. t.now) result ≡ behind_comma text.now }
{
    match text {
        [] => Some(text),
        [b',', rest @ ..] => Some(skip_commas(rest)),
        _ => None,
    }
}

fn skip_commas(mut text: &[u8]) -> &[u8]
    ensures { result.now ≡ skip_commas text.now }
{
    while let [first, rest @ ..] = text
        && (is_blank(*first) || *first == b',')
    {
        text = rest;
    }
    text
}

fn tag_at(text: &[u8]) -> Option<(Tag<'_>, &[u8])>
    ensures { option_map (λ t. (tag_value t.0, t.1.now)) result ≡ tag_at text.now }
{
    match text {
        [b'W', b'/', rest @ ..] => quoted_at(true, rest),
        _ => quoted_at(false, text),
    }
}

fn quoted_at(is_weak: bool, text: &[u8]) -> Option<(Tag<'_>, &[u8])>
    ensures { option_map (λ t. (tag_value t.0, t.1.now)) result ≡ quoted_at is_weak text.now }
{
    let [b'"', inside @ ..] = text else {
        return None;
    };
    let n = quoted_len(inside)?;
    let (text, rest) = text.split_at(n + 1);
    Some((Tag { is_weak, text }, rest))
}

fn quoted_len(text: &[u8]) -> Option<usize>
    ensures is { result ≡ quoted_len text.now }
    ensures within { IfSome result (λ n. n ≤ length text.now) }
{
    for (i, b) in text.iter().enumerate() {
        if *b == b'"' {
            return Some(i + 1);
        }
        if !is_tag_byte(*b) {
            return None;
        }
    }
    None
}
