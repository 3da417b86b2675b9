//! Keys, their hashes and their texts.
use crate::words::{bytes, hash_alike, is_shown, is_text, string};
use cache_words::key::{CacheHashKey, CacheKey, CompactCacheKey, HashBinary, hash_key, str2hex};
use std::alloc::{AllocError, Global};
use std::fmt;

// Keys with their hashes and texts, made by the original cache's own code. Bytes are in hex.
struct Case {
    primary: &'static str,
    tag: &'static str,
    variance: Option<&'static str>,
    over: Option<&'static str>,
    text: bool,
    hash: &'static str,
    combined: &'static str,
    display: &'static str,
}

const CASES: &[Case] = &[
    Case {
        primary: "5c",
        tag: "",
        variance: Some("2b0b9be46113774b594339226855ca5c"),
        over: None,
        text: true,
        hash: "8e12589306e68be8bde273af0e06b8f6",
        combined: "0278f879b94e3ab98f9f1f76c3ea2e1c",
        display: "8e12589306e68be8bde273af0e06b8f6, variance: 2b0b9be46113774b594339226855ca5c, user_tag: ",
    },
    Case {
        primary: "96",
        tag: "0Y c",
        variance: None,
        over: None,
        text: false,
        hash: "1471227f6e86d722c21412339bc87671",
        combined: "1471227f6e86d722c21412339bc87671",
        display: "1471227f6e86d722c21412339bc87671, user_tag: 0Y c",
    },
    Case {
        primary: "9f",
        tag: " -Yé-",
        variance: Some("f1aa08bcf2f25dbd6656951b28803a62"),
        over: None,
        text: false,
        hash: "649324c4203039aa409203c527cb344e",
        combined: "1c8eca61f154a70e9e46c2ad49fcf069",
        display: "649324c4203039aa409203c527cb344e, variance: f1aa08bcf2f25dbd6656951b28803a62, user_tag:  -Yé-",
    },
    Case {
        primary: "2aedfe",
        tag: "9Zbc",
        variance: Some("3f24122ddfdff61db7b7170abd8d770c"),
        over: Some("5296791a0a66ea232264b216ffbf2967"),
        text: false,
        hash: "73b40c25f67932d565a1ffa03b52a3c8",
        combined: "7a8b9c35b44b0ef970725bf404296a31",
        display: "5296791a0a66ea232264b216ffbf2967, variance: 3f24122ddfdff61db7b7170abd8d770c, user_tag: 9Zbc",
    },
    Case {
        primary: "",
        tag: "",
        variance: None,
        over: None,
        text: true,
        hash: "cae66941d9efbd404e4d88758ea67670",
        combined: "cae66941d9efbd404e4d88758ea67670",
        display: "cae66941d9efbd404e4d88758ea67670, user_tag: ",
    },
    Case {
        primary: "",
        tag: "9aac",
        variance: Some("f0658039250c65dde0b477b96711fab3"),
        over: Some("c2c2e3e72e04d8be4a1e45bbe3d6fe49"),
        text: true,
        hash: "cae66941d9efbd404e4d88758ea67670",
        combined: "af6d0ee25955946646d3543d23b905b1",
        display: "c2c2e3e72e04d8be4a1e45bbe3d6fe49, variance: f0658039250c65dde0b477b96711fab3, user_tag: 9aac",
    },
    Case {
        primary: "442cc2c6c0eb4abf529e",
        tag: "0bZ",
        variance: None,
        over: Some("d8fd4ed9dd694f3deda97895d1bc4419"),
        text: false,
        hash: "c259cf535ea01f73ca5c8a4d09caee29",
        combined: "d8fd4ed9dd694f3deda97895d1bc4419",
        display: "d8fd4ed9dd694f3deda97895d1bc4419, user_tag: 0bZ",
    },
];

fn key_of(alloc: Global, primary: &[u8], tag: &str) -> CacheKey {
    CacheKey::new(bytes(alloc, primary), string(alloc, tag))
}

fn made(alloc: Global, case: &Case) -> CacheKey {
    let mut key = match hex::decode(alloc, case.primary) {
        Ok(primary) => CacheKey::new(primary, string(alloc, case.tag)),
        Err(_) => key_of(alloc, b"", case.tag),
    };
    if let Some(variance) = hash_of(case.variance) {
        key.set_variance_key(variance);
    }
    if let Some(over) = hash_of(case.over) {
        key.set_primary_bin_override(over);
    }
    key
}

fn hash_of(text: Option<&str>) -> Option<HashBinary> {
    str2hex(text?)
}

fn shows<K: CacheHashKey + fmt::Display>(alloc: Global, key: &K, case: &Case) -> bool {
    Some(key.primary_bin()) == str2hex(case.over.unwrap_or(case.hash))
        && key.variance_bin() == hash_of(case.variance)
        && Some(key.combined_bin()) == str2hex(case.combined)
        && key.user_tag() == case.tag
        && is_shown(alloc, key, case.display)
}

// Whether a key and the kept key are as the case says.
fn is_case(alloc: Global, key: &CacheKey, case: &Case) -> bool {
    let is_kept = match key.to_compact() {
        Ok(kept) => shows(alloc, &kept, case),
        Err(AllocError) => false,
    };
    is_kept
        && shows(alloc, key, case)
        && Some(hash_key(key.primary_key())) == str2hex(case.hash)
        && key.primary_key_str().is_some() == case.text
        && is_text(key.combined(alloc), case.combined)
}

fn are_cases(alloc: Global) -> bool {
    for case in CASES {
        if !is_case(alloc, &made(alloc, case), case) {
            return false;
        }
    }
    true
}

// Primary bytes, and whether they are text.
const TEXTS: &[(&[u8], Option<&str>)] = &[(b"aa", Some("aa")), (&[0x66, 0x6f, 0x6f, 0xff], None)];

fn are_texts(alloc: Global) -> bool {
    for &(primary, text) in TEXTS {
        if key_of(alloc, primary, "1").primary_key_str() != text {
            return false;
        }
    }
    true
}

// What is done to the key of `aa`.
#[derive(Clone, Copy)]
enum Step {
    SetVariance,
    RemoveVariance,
    Override(&'static str),
}

const PRIMARY: &str = "ac10f2aef117729f8dad056b3059eb7e";

const COMBINED: &str = "004174d3e75a811a5b44c46b3856f3ee";

const OTHER: &str = "27c35e6e9373877f29e562464e46497e";

const ZEROS: &str = "00000000000000000000000000000000";

// Primary bytes, steps, and then the key's primary hash, variance and combined hash.
type Row = (
    &'static [u8],
    &'static [Step],
    &'static str,
    Option<&'static str>,
    &'static str,
);

const STEPS: &[Row] = &[
    (b"aa", &[], PRIMARY, None, PRIMARY),
    (b"aa", &[Step::SetVariance], PRIMARY, Some(ZEROS), COMBINED),
    (
        b"aa",
        &[Step::SetVariance, Step::RemoveVariance],
        PRIMARY,
        None,
        PRIMARY,
    ),
    (
        b"other",
        &[Step::Override(PRIMARY), Step::SetVariance],
        PRIMARY,
        Some(ZEROS),
        COMBINED,
    ),
    (b"aa", &[Step::Override(OTHER)], OTHER, None, OTHER),
    (
        b"aa",
        &[Step::Override(OTHER), Step::RemoveVariance],
        OTHER,
        None,
        OTHER,
    ),
];

fn after(alloc: Global, primary: &[u8], steps: &[Step]) -> CacheKey {
    let mut key = key_of(alloc, primary, "1");
    for &step in steps {
        match step {
            Step::SetVariance => key.set_variance_key([0; 16]),
            Step::RemoveVariance => key.remove_variance_key(),
            Step::Override(hash) => {
                key.set_primary_bin_override(str2hex(hash).unwrap_or([0; 16]));
            }
        }
    }
    key
}

fn is_after(alloc: Global, key: &CacheKey, row: Row) -> bool {
    let (_, _, hash, variance, combined) = row;
    let is_variance = match key.variance(alloc) {
        Ok(Some(text)) => variance == Some(text.as_str()),
        Ok(None) => variance.is_none(),
        Err(AllocError) => false,
    };
    let is_kept = match key.to_compact() {
        Ok(kept) => Some(kept.combined_bin()) == str2hex(combined),
        Err(AllocError) => false,
    };
    is_variance
        && is_kept
        && is_text(key.primary(alloc), hash)
        && is_text(key.combined(alloc), combined)
        && key.get_variance_key().copied() == hash_of(variance)
}

// Whether copies of the keys are as the steps leave them.
fn copies_are_after(alloc: Global) -> bool {
    for &row in STEPS {
        let is_right = match after(alloc, row.0, row.1).clone() {
            Ok(key) => is_after(alloc, &key, row),
            Err(AllocError) => false,
        };
        if !is_right {
            return false;
        }
    }
    true
}

// A kept key, or the empty one when out of memory.
fn kept(alloc: Global, primary: &[u8], steps: &[Step]) -> CompactCacheKey {
    match after(alloc, primary, steps).to_compact() {
        Ok(key) => key,
        Err(AllocError) => CompactCacheKey::empty(alloc),
    }
}

// Whether two keys differ, and hash so.
fn differ(key: &CompactCacheKey, other: &CompactCacheKey) -> bool {
    *key != *other && !hash_alike(key, other)
}

// Whether a key is its copy, and one with a variance, of other bytes, or empty is another.
fn is_told_apart(alloc: Global, key: &CompactCacheKey, other: &CompactCacheKey) -> bool {
    let varied = kept(alloc, b"aa", &[Step::SetVariance]);
    let empty = CompactCacheKey::empty(alloc);
    let is_copied = match key.clone() {
        Ok(copy) => *key == copy && hash_alike(key, &copy),
        Err(AllocError) => false,
    };
    is_copied
        && differ(key, &varied)
        && *key < varied
        && differ(key, other)
        && differ(key, &empty)
        && differ(other, &empty)
        && empty.primary_bin() == [0; 16]
        && empty.variance_bin().is_none()
        && empty.user_tag() == ""
}

fn kept_keys_compare_and_hash(alloc: Global) -> bool {
    let key = kept(alloc, b"aa", &[]);
    let again = kept(alloc, b"aa", &[]);
    key == again && hash_alike(&key, &again) && is_told_apart(alloc, &key, &kept(alloc, b"bb", &[]))
}

#[test]
fn keys_as_the_original(rt: HostRuntime) {
    assert!(rt; are_cases(rt.alloc()));
    assert!(rt; are_texts(rt.alloc()));
    assert!(rt; copies_are_after(rt.alloc()));
    assert!(rt; kept_keys_compare_and_hash(rt.alloc()));
}
