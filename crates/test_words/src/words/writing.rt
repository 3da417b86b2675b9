//! Values as MessagePack, written in the shortest form, and keys in both directions.
use crate::words::{is_shown, string};
use cache_words::blake::Blake2b128;
use cache_words::key::{CompactCacheKey, HashBinary, hash_key, str2hex};
use cache_words::laws;
use cache_words::pack::{Cursor, PackFault, PackWriteFault, Sink, writing};
use cache_words::text::Text;
use cache_words::time::Moment;
use std::alloc::{AllocError, Global};

// What is written, and its text.
#[derive(Clone, Copy)]
pub(super) enum Put {
    Number(u64),
    Array(u32),
    Text(&'static str),
    Bytes(&'static [u8]),
    Nil,
    Hash(HashBinary),
    OptionalHash(Option<HashBinary>),
    Moment(i64),
    EmptyKey,
    Key(Row),
}

// A kept key and its text, made by the original cache's own code: primary hash, variance, tag, text in hex.
type Row = (
    &'static str,
    Option<&'static str>,
    &'static str,
    &'static str,
);

const SEVENS: &[u8] =
    b"\xdc\x00\x10\x07\x07\x07\x07\x07\x07\x07\x07\x07\x07\x07\x07\x07\x07\x07\x07";

pub(super) const WRITTEN: &[(Put, &[u8])] = &[
    (Put::Number(127), b"\x7f"),
    (Put::Number(128), b"\xcc\x80"),
    (Put::Number(256), b"\xcd\x01\x00"),
    (Put::Number(65536), b"\xce\x00\x01\x00\x00"),
    (Put::Number(1 << 32), b"\xcf\0\0\0\x01\0\0\0\0"),
    (Put::Array(15), b"\x9f"),
    (Put::Array(16), b"\xdc\x00\x10"),
    (Put::Array(65536), b"\xdd\x00\x01\x00\x00"),
    (Put::Text("hi"), b"\xa2hi"),
    (Put::Bytes(b"hi"), b"\xc4\x02hi"),
    (Put::Nil, b"\xc0"),
    (Put::Hash(super::reading::HASH), super::reading::HASH_TEXT),
    (Put::OptionalHash(None), b"\xc0"),
    (Put::Moment(1000), b"\x92\xcd\x03\xe8\x00"),
    (Put::Number(1 << 40), b"\xcf\0\0\x01\0\0\0\0\0"),
    (Put::Array(1 << 20), b"\xdd\0\x10\0\0"),
    (Put::Nil, b"\xc0"),
    (
        Put::Text("a text that outgrows"),
        b"\xb4a text that outgrows",
    ),
    (
        Put::Bytes(b"bytes that outgrow.."),
        b"\xc4\x14bytes that outgrow..",
    ),
    (Put::Hash([7; 16]), SEVENS),
    (Put::OptionalHash(Some([7; 16])), SEVENS),
    (Put::Moment(1 << 40), b"\x92\xcf\0\0\x01\0\0\0\0\0\0"),
    (
        Put::EmptyKey,
        b"\x93\xdc\x00\x10\0\0\0\0\0\0\0\0\0\0\0\0\0\0\0\0\xc0\xa0",
    ),
];

// What is refused only where memory is.
fn write_short<S: Sink>(out: &mut S, value: Put) -> Result<(), AllocError> {
    match value {
        Put::Number(number) => writing::put_number(out, number),
        Put::Array(count) => writing::put_array(out, count),
        Put::Hash(hash) => writing::put_hash(out, &hash),
        Put::OptionalHash(hash) => writing::put_optional_hash(out, hash),
        Put::Moment(seconds) => {
            let moment = Moment::from_seconds(seconds);
            if moment.is_before_epoch() {
                return Ok(());
            }
            writing::put_moment(out, moment)
        }
        _ => writing::put_nil(out),
    }
}

pub(super) fn write_value<S: Sink>(
    alloc: Global,
    out: &mut S,
    value: Put,
) -> Result<(), PackWriteFault> {
    match value {
        Put::Text(text) => writing::put_text(out, text),
        Put::Bytes(bytes) => writing::put_byte_string(out, bytes),
        Put::EmptyKey => writing::put_key(out, &CompactCacheKey::empty(alloc)),
        Put::Key(row) => writing::put_key(out, &kept_key(alloc, row)),
        _ => match write_short(out, value) {
            Ok(()) => Ok(()),
            Err(AllocError) => Err(PackWriteFault::Memory),
        },
    }
}

// Whether this is its text, and its digest without a copy of the text that of the text.
fn is_written(alloc: Global, value: Put, text: &[u8]) -> bool {
    let mut out = Vec::new(alloc);
    let mut hasher = Blake2b128::new();
    write_value(alloc, &mut out, value).is_ok()
        && write_value(alloc, &mut hasher, value).is_ok()
        && out.as_slice() == text
        && hasher.finalize() == hash_key(text)
}

fn are_written(alloc: Global) -> bool {
    for &(value, text) in WRITTEN {
        if !is_written(alloc, value, text) {
            return false;
        }
    }
    true
}

const KEYS: &[Row] = &[
    (
        "3bf0bdcb7f2d9a170292a964cab8214e",
        None,
        " aa",
        "93dc00103bccf0ccbdcccb7f2dcc9a1702cc92cca964cccaccb8214ec0a3206161",
    ),
    (
        "a7874f48e08accdf7c714d77c2b4a1d6",
        Some("0871623dff61d145cadd69a6cd60428b"),
        "-bYb9",
        "93dc0010cca7cc874f48cce0cc8accccccdf7c714d77ccc2ccb4cca1ccd6dc00100871623dccff61ccd145cccaccdd69cca6cccd6042cc8ba52d62596239",
    ),
];

// A row's key; of bytes that aren't a hash it is that of zeros.
fn kept_key(alloc: Global, row: Row) -> CompactCacheKey {
    let (primary, variance, tag, _) = row;
    CompactCacheKey {
        primary: str2hex(primary).unwrap_or([0; 16]),
        variance: match variance {
            Some(variance) => str2hex(variance),
            None => None,
        },
        user_tag: Text::from_string(string(alloc, tag)),
    }
}

fn is_key_read(alloc: Global, row: Row, text: &[u8]) -> bool {
    match (Cursor { rest: text }.key()) {
        Ok(read) => match read.to_compact(alloc) {
            Ok(kept) => kept == kept_key(alloc, row),
            Err(_) => false,
        },
        Err(_) => false,
    }
}

fn keys_are_written_and_read(alloc: Global) -> bool {
    for &row in KEYS {
        let is_right = match hex::decode(alloc, row.3) {
            Ok(text) => {
                is_written(alloc, Put::Key(row), text.as_slice())
                    && is_key_read(alloc, row, text.as_slice())
            }
            Err(_) => false,
        };
        if !is_right {
            return false;
        }
    }
    true
}

#[test]
fn values_and_keys_are_written_and_hashed(rt: HostRuntime) {
    laws::written_is_spelled();
    laws::one_spelling();
    laws::shortest_is_shortest();
    assert!(rt; are_written(rt.alloc()));
    assert!(rt; keys_are_written_and_read(rt.alloc()));
}

const FAULTS: &[(PackFault, &str)] = &[
    (PackFault::Short, "the input ends within a value"),
    (PackFault::Kind, "a value of another kind"),
    (PackFault::Range, "a number out of range"),
    (PackFault::Utf8, "a text that is not UTF-8"),
    (PackFault::Length, "an array of another length"),
];

fn are_shown(alloc: Global) -> bool {
    for &(fault, text) in FAULTS {
        if !is_shown(alloc, &fault, text) {
            return false;
        }
    }
    true
}

#[test]
fn faults_are_shown(rt: HostRuntime) {
    assert!(rt; are_shown(rt.alloc()));
    let text = "a text or byte string of 2^32 bytes or more";
    assert!(rt; is_shown(rt.alloc(), &PackWriteFault::TooLong, text));
}
