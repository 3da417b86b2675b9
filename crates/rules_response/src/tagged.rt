//! Lists of entity tags.
ghost use Rattle.std.specs.Prelude.{◌≡◌, ◌<◌, ◌∷◌, ◌++◌, [], false, length, map, option_map, IfOk, IfSome, OnOk};
ghost use Rattle.std.specs.List.{list_all, list_any};
ghost use Rattle.std.specs.Option.{option_map_or};
ghost use Rattle.rules_fields.specs.Fields.{fields};
ghost use Rattle.rules_response.specs.Tagged.{cut_unquoted, unquoted_parts, members_of, members, has_text, is_tag, lists_tag};

use rules_fields::Line;
use rules_fields::blanks::{is_small, trimmed};
use rules_fields::tags::tag_of;
use std::alloc::{AllocError, Global};

/// Whether the lists of all lines of a name, which is given in small letters, are of entity tags, and one has this text, weak or not.
pub fn lists_tag(
    alloc: Global,
    lines: &[Line<'_>],
    name: &[u8],
    text: &[u8],
) -> Result<bool, AllocError>
    ensures { IfOk result (λ b. b ≡ lists_tag text.now (members name.now (fields lines.now))) }
{
    let mut found = Vec::new(alloc);
    for line in lines {
        if is_small(line.name, name) {
            add_members(&mut found, line.value)?;
        }
    }
    Ok(are_tags(found.as_slice()) && has_text_among(found.as_slice(), text))
}

// Adds the members of one list.
fn add_members<'a>(found: &mut Vec<&'a [u8]>, value: &'a [u8]) -> Result<(), AllocError>
    ensures { OnOk result (map (λ m. m.now) found.new.items ≡ map (λ m. m.now) found.old.items ++ members_of value.now) }
{
    let mut left = Some(value);
    while let Some(text) = left {
        let (part, rest) = cut_unquoted(text);
        left = rest;
        let member = trimmed(part);
        if !member.is_empty() {
            found.push(member)?;
        }
    }
    Ok(())
}

// The part before the first comma that isn't quoted, and what follows that comma.
fn cut_unquoted(text: &[u8]) -> (&[u8], Option<&[u8]>)
    ensures value { (result.0.now, option_map (λ rest. rest.now) result.1) ≡ cut_unquoted false text.now }
    ensures first { unquoted_parts false text.now ≡ result.0.now ∷ option_map_or (λ rest. unquoted_parts false rest.now) result.1 [] }
    ensures shorter { IfSome result.1 (λ rest. length rest.now < length text.now) }
{
    let mut quoted = false;
    for (i, b) in text.iter().enumerate() {
        if *b == b',' && !quoted {
            return (&text[..i], Some(&text[i + 1..]));
        }
        if *b == b'"' {
            quoted = !quoted;
        }
    }
    (text, None)
}

fn are_tags(members: &[&[u8]]) -> bool
    ensures { result ≡ list_all is_tag (map (λ m. m.now) members.now) }
{
    for member in members {
        if tag_of(member).is_none() {
            return false;
        }
    }
    true
}

fn has_text_among(members: &[&[u8]], text: &[u8]) -> bool
    ensures { result ≡ list_any (has_text text.now) (map (λ m. m.now) members.now) }
{
    for member in members {
        if has_text(member, text) {
            return true;
        }
    }
    false
}

fn has_text(member: &[u8], text: &[u8]) -> bool
    ensures { result ≡ has_text text.now member.now }
{
    match tag_of(member) {
        None => false,
        Some(tag) => tag.text == text,
    }
}
