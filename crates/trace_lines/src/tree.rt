//! The JSON value of a line, as a tree over its text.
ghost use Rattle.std.specs.Prelude.{◌≡◌, ◌≢◌, Some, None, Err, IfOk, is_some, option_map, option_and_then};
ghost use Rattle.std.specs.Str.{bytes_eq};
ghost use Rattle.json.specs.Find.{get_member};
ghost use Rattle.json.specs.Value.{value_view, items_view, members_view};
ghost use Rattle.serde_json.specs.Find.{get, as_array, as_bool, as_number, as_object, as_str, as_u64};
ghost use Rattle.trace_lines.specs.Lines.{json_of, IsReadAs};
ghost use Rattle.trace_lines.specs.Trees.{tree_of, seen, items_seen, in_range, items_in_range, members_in_range};

use crate::line::{Refusal, Stop};
use crate::number;
use json::{Error, Reader, Scratch, Value};
use std::alloc::Global;

// Arrays and objects nest at most so deep.
const MAX_DEPTH: usize = 127;

// The value of the bytes.
pub(crate) fn parse<'a>(
    alloc: Global,
    bytes: &'a [u8],
    scratch: &'a mut Scratch,
) -> Result<Value<'a>, Stop>
    ensures { IsReadAs seen result (json_of bytes.now) }
{
    let Ok(text) = simdutf8::compat::from_utf8(bytes) else {
        return Err(Stop::Refused(Refusal::NotJson));
    };
    match parse_text(alloc, text, scratch) {
        Ok(value) => if is_in_range(&value) {
            Ok(value)
        } else {
            Err(Stop::Refused(Refusal::NotJson))
        },
        Err(Error::Invalid) => Err(Stop::Refused(Refusal::NotJson)),
        Err(_) => Err(Stop::Memory),
    }
}

fn parse_text<'a>(
    alloc: Global,
    text: &'a str,
    scratch: &'a mut Scratch,
) -> Result<Value<'a>, Error>
    ensures ok { IfOk result (λ v. tree_of text.now ≡ Some (value_view v)) }
    ensures invalid { result ≡ Err Error.Invalid → tree_of text.now ≡ None }
    ensures memory { (result ≢ Err Error.TooLong) × (result ≢ Err Error.DuplicateKey) }
{
    let mut reader = Reader::new(text, scratch)?;
    let value = Value::read(alloc, &mut reader, MAX_DEPTH)?;
    match reader.next() {
        Some(_) => Err(Error::Invalid),
        None => Ok(value),
    }
}

// Whether each number in the value is in range.
#[cycle(range)]
fn is_in_range(value: &Value<'_>) -> bool
    ensures { result ≡ in_range (value_view value.now) }
{
    match value {
        Value::Number(text) => number::is_in_range(text),
        Value::Array(items) => are_in_range(items),
        Value::Object(members) => have_range(members),
        _ => true,
    }
}

#[cycle(range)]
fn are_in_range(items: &Vec<Value<'_>>) -> bool
    ensures { result ≡ items_in_range (items_view items.now.items) }
{
    for item in items {
        if !is_in_range(item) {
            return false;
        }
    }
    true
}

#[cycle(range)]
fn have_range<'a>(members: &Vec<(&'a str, Value<'a>)>) -> bool
    ensures { result ≡ members_in_range (members_view members.now.items) }
{
    for member in members {
        if !is_in_range(&member.1) {
            return false;
        }
    }
    true
}

pub(crate) fn is_object(value: &Value<'_>) -> bool
    ensures { result ≡ is_some (as_object (seen value.now)) }
{
    matches!(value, Value::Object(_))
}

// The last member of that name, if the value is an object that has one.
pub(crate) fn member<'v, 'a>(value: &'v Value<'a>, name: &str) -> Option<&'v Value<'a>>
    ensures { option_map (λ v. seen v.now) result ≡ get name.now (seen value.now) }
{
    if let Value::Object(members) = value {
        last_named(members, name)
    } else {
        None
    }
}

fn last_named<'v, 'a>(members: &'v Vec<(&'a str, Value<'a>)>, name: &str) -> Option<&'v Value<'a>>
    ensures { option_map (λ v. value_view v.now) result ≡ get_member name.now (members_view members.now.items) }
{
    let mut left = members.len();
    while left > 0 {
        left -= 1;
        let member = &members[left];
        if is_name(member.0, name) {
            return Some(&member.1);
        }
    }
    None
}

// Most names differ in their length, so it is compared first.
fn is_name(text: &str, name: &str) -> bool
    ensures { result ≡ bytes_eq text.now name.now }
{
    text.len() == name.len() && text == name
}

pub(crate) fn text<'a>(value: &Value<'a>) -> Option<&'a str>
    ensures { option_map (λ s. s.now) result ≡ as_str (seen value.now) }
{
    value.as_str()
}

pub(crate) fn flag(value: &Value<'_>) -> Option<bool>
    ensures { result ≡ as_bool (seen value.now) }
{
    value.as_bool()
}

// The number, if it is a whole one below 2^64.
pub(crate) fn whole_number(value: &Value<'_>) -> Option<u64>
    ensures { result ≡ option_and_then as_u64 (as_number (seen value.now)) }
{
    number::whole_number(value.as_number()?)
}

pub(crate) fn items<'v, 'a>(value: &'v Value<'a>) -> Option<&'v Vec<Value<'a>>>
    ensures { option_map (λ v. items_seen v.now.items) result ≡ as_array (seen value.now) }
{
    if let Value::Array(items) = value {
        Some(items)
    } else {
        None
    }
}
