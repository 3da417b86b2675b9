//! Copies of the fields of heads, which share no buffer with what they came from: a value is often a slice of a large buffer, which a
//! clone keeps.
ghost use Rattle.std.specs.Prelude.{◌≡◌, IfOk};

use http_header::{HeaderMap, HeaderName, HeaderValue};
use std::alloc::{AllocError, Global};

// The most names of fields that are read from their lines, or copied one by one: names that collide are compared with one another.
pub(crate) const MOST_NAMES: usize = 256;

// Copies a name. A name of a map is valid, so that only memory can be short.
fn name_copied(alloc: Global, name: &HeaderName) -> Result<HeaderName, AllocError>
    ensures { IfOk result (λ copy. copy ≡ name.now) }
{
    match HeaderName::from_lowercase(alloc, name.as_str().as_bytes()) {
        Ok(copy) => Ok(copy),
        Err(_) => Err(AllocError),
    }
}

// Copies a value and its mark.
fn value_copied(alloc: Global, value: &HeaderValue) -> Result<HeaderValue, AllocError>
    ensures { IfOk result (λ copy. copy ≡ value.now) }
{
    match HeaderValue::from_bytes(alloc, value.as_bytes()) {
        Ok(mut copy) => {
            copy.set_sensitive(value.is_sensitive());
            Ok(copy)
        }
        Err(_) => Err(AllocError),
    }
}

// Copies fields in their order. The map that they are in had room for them, so that only memory can be short.
fn each_copied(alloc: Global, headers: &HeaderMap) -> Result<HeaderMap, AllocError>
    ensures { IfOk result (λ copy. copy ≡ headers.now) }
{
    let Ok(mut copies) = HeaderMap::with_capacity(alloc, headers.keys_len()) else {
        return Err(AllocError);
    };
    'each: for (name, value) in headers.iter() {
        let (name, value) = (name_copied(alloc, name)?, value_copied(alloc, value)?);
        let Ok(_) = copies.append(name, value) else {
            return Err(AllocError);
        };
    }
    Ok(copies)
}

// Copies fields. Those of more names are cloned, and their values share their buffers.
pub(crate) fn copied(alloc: Global, headers: &HeaderMap) -> Result<HeaderMap, AllocError>
    ensures { IfOk result (λ copy. copy ≡ headers.now) }
{
    if headers.keys_len() > MOST_NAMES {
        return headers.clone();
    }
    each_copied(alloc, headers)
}
