//! Requests from a table.
use std::alloc::{AllocError, Global};
use tier_served::{Method, Request};
use tier_single::{Bytes, CacheKey, Moment};

/// The number that a word is, or 0.
pub fn number(word: &str) -> u64 {
    word.parse().unwrap_or(0)
}

// A response that is fresh for so long, with a body of so many bytes.
fn response(alloc: Global, lifetime: &str, length: &str, more: &str) -> Result<Bytes, AllocError> {
    let mut text = format!(in alloc; "HTTP/1.1 200 OK\r\nCache-Control: max-age={lifetime}\r\n")?;
    if !more.is_empty() {
        text.push_str("Cache-Control: ")?;
        text.push_str(more)?;
        text.push_str("\r\n")?;
    }
    text.push_str("\r\n")?;
    for _ in 0..number(length) {
        text.push('x')?;
    }
    Ok(Bytes::from_vec(text.into_bytes())?)
}

/// The request that a word is: the key, the moment in seconds, and for a response its lifetime, its body's length, and what more its
/// Cache-Control says.
pub fn request(alloc: Global, word: &str) -> Result<Request, AllocError> {
    let mut parts = word.split(':');
    let key = parts.next().unwrap_or("");
    let seconds = number(parts.next().unwrap_or(""));
    let method = match parts.next() {
        None => Method::Purge,
        Some(lifetime) => {
            let length = parts.next().unwrap_or("");
            let more = parts.next().unwrap_or("");
            Method::Get {
                response: response(alloc, lifetime, length, more)?,
            }
        }
    };
    let primary = Vec::from_slice(alloc, key.as_bytes())?;
    Ok(Request {
        moment: Moment::from_seconds(i64::try_from(seconds).unwrap_or(0)),
        key: CacheKey::new(primary, String::new(alloc)),
        method,
    })
}
