//! Names, values and printed texts.
use crate::directives::UNREADABLE;
use crate::made::is_text;
use head_directives::{DirectiveKey, DirectiveValue, Error, ErrorType};
use std::alloc::{AllocError, Global};

// Names, and the keys that they have.
pub const NAMES: &[(&str, &str)] = &[
    ("max-age", "MaxAge"),
    ("s-maxage", "SMaxAge"),
    ("no-cache", "NoCache"),
    ("no-store", "NoStore"),
    ("private", "Private"),
    ("public", "Public"),
    ("must-revalidate", "MustRevalidate"),
    ("proxy-revalidate", "ProxyRevalidate"),
    ("must-understand", "MustUnderstand"),
    ("no-transform", "NoTransform"),
    ("immutable", "Immutable"),
    ("stale-while-revalidate", "StaleWhileRevalidate"),
    ("stale-if-error", "StaleIfError"),
    ("only-if-cached", "OnlyIfCached"),
    ("x-other", "Unknown(\"x-other\")"),
];

#[derive(Clone, Copy)]
pub enum Made {
    Borrowed,
    Owned,
    Cloned,
}

pub fn make_key(alloc: Global, name: &str, made: Made) -> Option<DirectiveKey> {
    match made {
        Made::Borrowed => DirectiveKey::from_lowercase(alloc, name).ok(),
        Made::Owned => {
            let name = String::from_str(alloc, name).ok()?;
            Some(DirectiveKey::from_lowercase_owned(name))
        }
        Made::Cloned => DirectiveKey::from_lowercase(alloc, name).ok()?.clone().ok(),
    }
}

// Whether all that a key shows is its name, and its Debug this.
fn shows(alloc: Global, key: &DirectiveKey, name: &str, debug: &str) -> bool {
    key.as_str() == name
        && key.is_text(name)
        && !key.is_text("x-none")
        && is_text(format!(in alloc; "{key}"), name)
        && is_text(format!(in alloc; "{key:?}"), debug)
}

fn is_key(alloc: Global, name: &str, made: Made, debug: &str) -> bool {
    match make_key(alloc, name, made) {
        Some(key) => shows(alloc, &key, name, debug),
        None => false,
    }
}

#[test]
fn names_have_keys(rt: HostRuntime) {
    for &(name, debug) in NAMES {
        for made in [Made::Borrowed, Made::Owned, Made::Cloned] {
            assert!(rt; is_key(rt.alloc(), name, made, debug));
        }
    }
}

// Values, without their quotes, as text where they are, and as seconds.
type ValueRow = (
    &'static [u8],
    &'static [u8],
    Option<&'static str>,
    Option<u32>,
);

const VALUES: &[ValueRow] = &[
    (b"\"12\"", b"12", Some("12"), Some(12)),
    (
        b"4294967296",
        b"4294967296",
        Some("4294967296"),
        Some(2147483647),
    ),
    (
        b"4294967295",
        b"4294967295",
        Some("4294967295"),
        Some(4294967295),
    ),
    (b"1\xff", b"1\xff", None, None),
    (b"\"\xc3\xa4\"", b"\xc3\xa4", Some("\u{e4}"), None),
];

fn reads(value: &DirectiveValue, row: ValueRow) -> bool {
    let (written, bytes, text, seconds) = row;
    value.as_ref() == written
        && value.parse_as_bytes() == bytes
        && value.parse_as_str() == text.ok_or(UNREADABLE)
        && value.parse_as_delta_seconds() == seconds.ok_or(UNREADABLE)
}

fn reads_value(alloc: Global, row: ValueRow) -> bool {
    match row.0.to_vec(alloc) {
        Ok(bytes) => reads(&DirectiveValue(bytes), row),
        Err(AllocError) => false,
    }
}

#[test]
fn values(rt: HostRuntime) {
    for &row in VALUES {
        assert!(rt; reads_value(rt.alloc(), row));
    }
}

const ERRORS: &[(ErrorType, &str)] = &[
    (ErrorType::InternalError, "InternalError"),
    (ErrorType::InvalidHTTPHeader, "InvalidHTTPHeader"),
    (ErrorType::Custom("mine"), "mine"),
];

fn is_shown(alloc: Global, etype: ErrorType, want: &str) -> bool {
    is_text(format!(in alloc; "{}", Error { etype }), want)
}

#[test]
fn errors_are_shown(rt: HostRuntime) {
    for &(etype, expected) in ERRORS {
        assert!(rt; is_shown(rt.alloc(), etype, expected));
    }
}
