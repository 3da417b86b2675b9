//! What the origin gives for each path, made up: a response that is fresh for a minute, whose body comes in two pieces.

use bytes::Bytes;
use std::alloc::{AllocError, Global};

/// The head.
pub const HEAD: &[u8] =
    b"HTTP/1.1 200 OK\r\nCache-Control: max-age=60\r\nContent-Length: 11\r\n\r\n";

/// The pieces of the body.
pub fn body(alloc: Global) -> Result<Vec<Bytes>, AllocError> {
    let mut pieces = Vec::new(alloc);
    pieces.push(Bytes::from_static(b"hello "))?;
    pieces.push(Bytes::from_static(b"world"))?;
    Ok(pieces)
}

/// The pieces of the whole response: its head, and the body's.
pub fn response(alloc: Global) -> Result<Vec<Bytes>, AllocError> {
    let mut pieces = body(alloc)?;
    pieces.insert(0, Bytes::from_static(HEAD))?;
    Ok(pieces)
}
