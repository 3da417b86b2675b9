//! What the value of a word may be.
ghost use Rattle.std.specs.Prelude.{◌≡◌, ◌+◌, ◌-◌, take, drop, codes, bytes_eq, length};
ghost use Rattle.std.specs.List.{list_all};
ghost use Rattle.std.specs.Char.{is_ascii_hexdigit};
ghost use Rattle.rules_fields.specs.Fields.{elements_of};
ghost use Rattle.rules_ffi_arguments.specs.Values.{lifetime_in, status_in, is_small_token, is_short_token, is_secret, is_prefix_byte, is_prefix, is_yes, is_yes_or_no, is_query_byte, is_encoding, are_encodings, is_droppable};

use http1_message_parts::scan::place_of;
use http1_message_parts::start::is_target_byte;
use httparse::is_token;
use rules_fields::blanks::{is_small, trimmed};
use rules_fields::lines::cut;
use rules_fields::number::digits;
use rules_fields::tables::among;
use rules_fields::types::StatusLifetime;

/// The lifetime of a status: `STATUS SECONDS`.
pub fn lifetime_in(text: &[u8]) -> Option<StatusLifetime>
    ensures { result ≡ lifetime_in text.now }
{
    let (before, after) = text.split_at(place_of(text, b' '));
    let [_, after @ ..] = after else {
        return None;
    };
    let status = digits(before)?;
    let seconds = digits(after)?;
    if status < 100 || status > 999 {
        return None;
    }
    Some(StatusLifetime {
        status: status as u16,
        seconds,
    })
}

/// A status.
pub fn status_in(text: &[u8]) -> Option<u16>
    ensures { result ≡ status_in text.now }
{
    let status = digits(text)?;
    if status < 100 || status > 999 {
        return None;
    }
    Some(status as u16)
}

/// Whether it is a token in small letters.
pub fn is_small_token(text: &[u8]) -> bool
    ensures { result ≡ is_small_token text.now }
{
    is_token(text) && is_small(text, text)
}

/// Whether it is a token that Via and Cache-Status may have as a name.
pub fn is_short_token(text: &[u8]) -> bool
    ensures { result ≡ is_short_token text.now }
{
    is_token(text) && text.len() <= 70
}

/// Whether it is the hexadecimal digits of 16 to 64 bytes.
pub fn is_secret(text: &[u8]) -> bool
    ensures { result ≡ is_secret text.now }
{
    text.len() >= 32 && text.len() <= 128 && text.len() % 2 == 0 && are_hex_digits(text)
}

fn are_hex_digits(text: &[u8]) -> bool
    ensures { result ≡ list_all is_ascii_hexdigit text.now }
{
    for b in text {
        if !b.is_ascii_hexdigit() {
            return false;
        }
    }
    true
}

fn is_prefix_byte(b: u8) -> bool
    ensures { result ≡ is_prefix_byte b }
{
    is_target_byte(b) && b != b'#' && b != b'?'
}

fn are_prefix_bytes(text: &[u8]) -> bool
    ensures { result ≡ list_all is_prefix_byte text.now }
{
    for b in text {
        if !is_prefix_byte(*b) {
            return false;
        }
    }
    true
}

/// Whether it is a slash, and bytes of a path, of which the last is no slash.
pub fn is_prefix(text: &[u8]) -> bool
    ensures { result ≡ is_prefix text.now }
{
    begins_slash(text) && !ends_slash(text) && are_prefix_bytes(text)
}

fn begins_slash(text: &[u8]) -> bool
    ensures { result ≡ bytes_eq (take 1 text.now) (codes "/") }
{
    match text {
        [] => false,
        [first, ..] => *first == b'/',
    }
}

fn ends_slash(text: &[u8]) -> bool
    ensures { result ≡ bytes_eq (drop (length text.now - 1) text.now) (codes "/") }
{
    match text {
        [] => false,
        [.., last] => *last == b'/',
    }
}

/// Whether it says yes.
pub fn is_yes(value: &[u8]) -> bool
    ensures { result ≡ is_yes value.now }
{
    value == b"yes".as_slice()
}

/// Whether it says yes or no.
pub fn is_yes_or_no(value: &[u8]) -> bool
    ensures { result ≡ is_yes_or_no value.now }
{
    is_yes(value) || value == b"no".as_slice()
}

fn is_query_byte(b: u8) -> bool
    ensures { result ≡ is_query_byte b }
{
    is_target_byte(b) && b != b'#' && b != b'&' && b != b'='
}

/// Whether all are bytes of the name of a query's part.
pub fn are_query_bytes(text: &[u8]) -> bool
    ensures { result ≡ list_all is_query_byte text.now }
{
    for b in text {
        if !is_query_byte(*b) {
            return false;
        }
    }
    true
}

fn is_encoding(text: &[u8]) -> bool
    ensures { result ≡ is_encoding text.now }
{
    is_small_token(text) && text != b"*".as_slice() && text != b"x-gzip".as_slice()
}

// Whether each element of a list is a coding.
fn lists_encodings(value: &[u8]) -> bool
    ensures { result ≡ list_all is_encoding (elements_of value.now) }
{
    let mut left = Some(value);
    while let Some(text) = left {
        let (part, rest) = cut(text);
        left = rest;
        let element = trimmed(part);
        if !element.is_empty() && !is_encoding(element) {
            return false;
        }
    }
    true
}

// How many elements a list has.
fn elements_in(value: &[u8]) -> u64
    ensures { result ≡ length (elements_of value.now) }
{
    let mut count: u64 = 0;
    let mut left = Some(value);
    while let Some(text) = left {
        let (part, rest) = cut(text);
        left = rest;
        if !trimmed(part).is_empty() {
            count += 1;
        }
    }
    count
}

/// Whether it is one to four codings, between commas.
pub fn are_encodings(value: &[u8]) -> bool
    ensures { result ≡ are_encodings value.now }
{
    let count = elements_in(value);
    lists_encodings(value) && count != 0 && count <= 4
}

// The fields of a response that frame it, or by which what is stored is read and chosen.
const UNDROPPABLE: &[&[u8]] = &[
    b"content-length",
    b"transfer-encoding",
    b"connection",
    b"content-range",
    b"content-encoding",
    b"date",
    b"vary",
];

/// Whether a field of responses may be dropped.
pub fn is_droppable(name: &[u8]) -> bool
    ensures { result ≡ is_droppable name.now }
{
    is_small_token(name) && !among(UNDROPPABLE, name)
}
