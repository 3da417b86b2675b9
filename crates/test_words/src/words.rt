//! Words, against an independent implementation of BLAKE2b and the original cache's own keys.
mod key;
mod reading;
mod refused;
mod texts;
mod time;
mod variance;
mod writing;

use std::alloc::{AllocError, Global};
use std::fmt;
use std::hash::{DefaultHasher, Hash, Hasher};

// Whether two values hash alike.
pub(crate) fn hash_alike<A: Hash, B: Hash>(a: &A, b: &B) -> bool {
    let mut first = DefaultHasher::new();
    a.hash(&mut first);
    let mut second = DefaultHasher::new();
    b.hash(&mut second);
    first.finish() == second.finish()
}

// Whether this is the text.
fn is_text(text: Result<String, AllocError>, want: &str) -> bool {
    match text {
        Ok(text) => text.as_str() == want,
        Err(AllocError) => false,
    }
}

// Whether a value is shown as the text.
pub(crate) fn is_shown<T: fmt::Display>(alloc: Global, value: &T, want: &str) -> bool {
    is_text(format!(in alloc; "{value}"), want)
}

// A text, or the empty one when out of memory.
fn string(alloc: Global, text: &str) -> String {
    match String::from_str(alloc, text) {
        Ok(string) => string,
        Err(AllocError) => String::new(alloc),
    }
}

// Bytes, or none when out of memory.
fn bytes(alloc: Global, bytes: &[u8]) -> Vec<u8> {
    match Vec::from_slice(alloc, bytes) {
        Ok(bytes) => bytes,
        Err(AllocError) => Vec::new(alloc),
    }
}
