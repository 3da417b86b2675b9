//! Lines that are made to cost much, and memory that is refused.
use crate::directives::control;
use crate::directives::lines::is_line;
use crate::directives::values::{Made, NAMES, make_key};
use crate::made::fields;
use head_directives::{CacheControl, DirectiveKey};
use http_header::HeaderMap;
use std::alloc::{AllocError, Global};
use std::hash::BuildHasher;

// The worst that a header value can hold: a quote that never closes is read to the line's end, and once, since no second
// one can begin inside it. Only LF, which is in no header value, would end such a reading earlier.
fn unclosed(line: &mut Vec<u8>) -> Result<(), AllocError> {
    line.extend_from_slice(b"a=\"")?;
    for _ in 0..200_000 {
        line.extend_from_slice(b",b=\\\"")?;
    }
    Ok(())
}

const UNCLOSED: &str = "CacheControl { directives: {Unknown(\"a\"): None, Unknown(\"b\"): None} }";

fn unclosed_is_read(alloc: Global) -> bool {
    let mut line = Vec::new(alloc);
    unclosed(&mut line).is_ok() && is_line(alloc, line.as_slice(), UNCLOSED)
}

#[test]
fn unclosed_quote(rt: HostRuntime) {
    assert!(rt; unclosed_is_read(rt.alloc()));
}

const LONG: &[u8] = &[b'a'; 256];

// Heads that begin with a line of 256 bytes. After each of these the hash of a name starts differently, so names that collide
// cannot be searched for before the lines are there. From a start that is the same for each map they can, and to read n of
// them then takes n * n comparisons.
const STARTS: &[&[&[u8]]] = &[
    &[LONG, b"public"],
    &[LONG, b"public,"],
    &[LONG, b"public=1"],
    &[LONG, b"public", b"x"],
    &[LONG, b"x", b"public"],
    &[LONG, b"public", b"y"],
];

fn hash_after(alloc: Global, lines: &[&[u8]]) -> Option<u64> {
    match control(alloc, lines) {
        Some(found) => Some(found.directives.hasher().hash_one(DirectiveKey::Public)),
        None => None,
    }
}

// Whether a hash is the same each time, and none of the earlier ones.
fn is_new(alloc: Global, lines: &[&[u8]], earlier: &[&[&[u8]]]) -> bool {
    let hash = hash_after(alloc, lines);
    for other in earlier {
        if hash == hash_after(alloc, other) {
            return false;
        }
    }
    hash.is_some() && hash == hash_after(alloc, lines)
}

fn are_new(alloc: Global, starts: &[&[&[u8]]]) -> bool {
    for i in 0..starts.len() {
        if !is_new(alloc, starts[i], &starts[..i]) {
            return false;
        }
    }
    true
}

#[test]
fn names_chosen_to_collide(rt: HostRuntime) {
    assert!(rt; are_new(rt.alloc(), STARTS));
}

// Lines that are read, and keys that are made, with memory or without.
const READ: &[&str] = &[
    "x-a=\"1\", public",
    "public, a=b",
    "x-a, x-b, x-c, x-d, x-e",
];

fn are_read(alloc: Global, headers: &HeaderMap, may_refuse: bool) -> bool {
    match CacheControl::from_headers_named(alloc, "cache-control", headers) {
        Ok(found) => found.is_some() && headers.len() == 1,
        Err(_) => may_refuse,
    }
}

// Whether a line is read, or memory was refused where it may be: a refusal is reported, and nothing else is.
fn reads(alloc: Global, line: &str, may_refuse: bool) -> bool {
    let headers = fields(alloc, &[("cache-control", line.as_bytes())]);
    if headers.is_empty() {
        may_refuse
    } else {
        are_read(alloc, &headers, may_refuse)
    }
}

fn has_text(alloc: Global, name: &str, may_refuse: bool) -> bool {
    match make_key(alloc, name, Made::Borrowed) {
        Some(key) => key.is_text(name),
        None => may_refuse,
    }
}

fn all_read(alloc: Global, may_refuse: bool) -> bool {
    for line in READ {
        if !reads(alloc, line, may_refuse) {
            return false;
        }
    }
    for (name, _) in NAMES {
        if !has_text(alloc, name, may_refuse) {
            return false;
        }
    }
    true
}

#[test]
fn refused_memory(rt: HostRuntime) {
    assert!(rt; all_read(rt.alloc(), true));
}

#[test]
fn ample_memory_meets_no_refusal(rt: HostRuntime) {
    for _ in 0..2 {
        assert!(rt; all_read(rt.alloc(), false));
    }
}
