//! The cookies that an operator keeps (RFC 6265, 4.2.1 and 5.4).
ghost use Rattle.std.specs.Prelude.{◌≡◌, map, filter, codes, option_map, IfOk, OnOk};
ghost use Rattle.std.specs.List.{fold};
ghost use Rattle.rules_fields.specs.Fields.{fields};
ghost use Rattle.http1_message.specs.Cookies.{crumbs_of, is_kept, joined_to, cookies_of, kept_cookies};

use http1_message_parts::scan::{cut_at, place_of};
use rules_fields::Line;
use rules_fields::blanks::{is_small, trimmed};
use std::alloc::{AllocError, Global};

/// Adds a text behind what is there, and what stands between both.
pub fn add_joined(text: &mut Vec<u8>, between: &[u8], more: &[u8]) -> Result<(), AllocError>
    ensures { OnOk result (text.new.items ≡ joined_to between.now text.old.items more.now) }
{
    if !text.is_empty() {
        text.extend_from_slice(between)?;
    }
    text.extend_from_slice(more)
}

// Whether a cookie is of one of these names.
fn is_kept(names: &[&[u8]], crumb: &[u8]) -> bool
    ensures { result ≡ is_kept (map (λ n. n.now) names.now) crumb.now }
{
    for name in names {
        if *name == &crumb[..place_of(crumb, b'=')] {
            return true;
        }
    }
    false
}

// Adds those of a line that are kept.
fn add_crumbs(text: &mut Vec<u8>, names: &[&[u8]], value: &[u8]) -> Result<(), AllocError>
    ensures { OnOk result (text.new.items ≡ fold (joined_to (codes "; ")) text.old.items (filter (is_kept (map (λ n. n.now) names.now)) (crumbs_of value.now))) }
{
    let mut left = Some(value);
    while let Some(rest) = left {
        let (part, more) = cut_at(rest, b';');
        left = more;
        let crumb = trimmed(part);
        if is_kept(names, crumb) {
            add_joined(text, b"; ", crumb)?;
        }
    }
    Ok(())
}

// The cookies of these names, in order, of all lines.
fn cookies_of(alloc: Global, names: &[&[u8]], lines: &[Line<'_>]) -> Result<Vec<u8>, AllocError>
    ensures { IfOk result (λ t. t.items ≡ cookies_of (map (λ n. n.now) names.now) (fields lines.now)) }
{
    let mut text = Vec::new(alloc);
    for line in lines {
        if is_small(line.name, b"cookie") {
            add_crumbs(&mut text, names, line.value)?;
        }
    }
    Ok(text)
}

/// The cookies that an operator keeps; none where he chose none.
pub fn kept_cookies(
    alloc: Global,
    names: Option<&[&[u8]]>,
    lines: &[Line<'_>],
) -> Result<Vec<u8>, AllocError>
    ensures { IfOk result (λ t. t.items ≡ kept_cookies (option_map (λ ns. map (λ n. n.now) ns.now) names.entry) (fields lines.now)) }
{
    match names {
        None => Ok(Vec::new(alloc)),
        Some(names) => cookies_of(alloc, names, lines),
    }
}
