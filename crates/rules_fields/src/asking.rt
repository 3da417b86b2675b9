//! What directives say of a name.
ghost use Rattle.std.specs.Prelude.{◌≡◌, option_map, option_and_then, unwrap_or};
ghost use Rattle.rules_fields.specs.Texts.{small};
ghost use Rattle.rules_fields.specs.Numbers.{seconds};
ghost use Rattle.rules_fields.specs.Meaning.{meanings, text_bytes};
ghost use Rattle.rules_fields.specs.Asking.{has, alone, seconds_under, lists_field, is_whole, lists_name, lists_needed, lists_nothing};

use crate::blanks::{is_same, is_small, trimmed};
use crate::directive::{Directive, Text};
use crate::lines::cut;
use crate::number::seconds;
use crate::tables::is_needed;

/// Whether there is a directive of a name.
pub fn has(ds: &[Directive<'_>], name: &[u8]) -> bool
    ensures { result ≡ has name.now (meanings ds.now) }
{
    for d in ds {
        if is_small(d.name.bytes(), name) {
            return true;
        }
    }
    false
}

/// Whether there is one that counts for the whole response: without a value, or its value lists no field, or one that the cache itself reads.
pub fn alone(ds: &[Directive<'_>], name: &[u8]) -> bool
    ensures { result ≡ alone name.now (meanings ds.now) }
{
    for d in ds {
        if is_small(d.name.bytes(), name) && is_whole(&d.value) {
            return true;
        }
    }
    false
}

/// The seconds of the first directive of a name, 0 if they can't be read; `None` without one.
pub fn seconds_under(ds: &[Directive<'_>], name: &[u8]) -> Option<u64>
    ensures { result ≡ seconds_under name.now (meanings ds.now) }
{
    for d in ds {
        if is_small(d.name.bytes(), name) {
            return Some(seconds_of(&d.value));
        }
    }
    None
}

/// Whether a directive of a name lists a field, whose name may be in any case.
pub fn lists_field(ds: &[Directive<'_>], name: &[u8], field: &[u8]) -> bool
    ensures { result ≡ lists_field name.now (meanings ds.now) (small field.now) }
{
    for d in ds {
        if is_small(d.name.bytes(), name)
            && let Some(value) = &d.value
            && lists_name(value.bytes(), field)
        {
            return true;
        }
    }
    false
}

fn seconds_of(value: &Option<Text<'_>>) -> u64
    ensures { result ≡ unwrap_or (option_and_then seconds (option_map text_bytes value.now)) 0 }
{
    match value {
        None => 0,
        Some(value) => seconds(value.bytes()).unwrap_or(0),
    }
}

fn is_whole(value: &Option<Text<'_>>) -> bool
    ensures { result ≡ is_whole (option_map text_bytes value.now) }
{
    match value {
        None => true,
        Some(value) => {
            let value = value.bytes();
            lists_nothing(value) || lists_needed(value)
        }
    }
}

fn lists_name(value: &[u8], field: &[u8]) -> bool
    ensures { result ≡ lists_name value.now (small field.now) }
{
    let mut left = Some(value);
    while let Some(text) = left {
        let (part, rest) = cut(text);
        left = rest;
        let element = trimmed(part);
        if !element.is_empty() && is_same(element, field) {
            return true;
        }
    }
    false
}

fn lists_nothing(value: &[u8]) -> bool
    ensures { result ≡ lists_nothing value.now }
{
    let mut left = Some(value);
    while let Some(text) = left {
        let (part, rest) = cut(text);
        left = rest;
        if !trimmed(part).is_empty() {
            return false;
        }
    }
    true
}

fn lists_needed(value: &[u8]) -> bool
    ensures { result ≡ lists_needed value.now }
{
    let mut left = Some(value);
    while let Some(text) = left {
        let (part, rest) = cut(text);
        left = rest;
        let element = trimmed(part);
        if !element.is_empty() && is_needed(element) {
            return true;
        }
    }
    false
}
