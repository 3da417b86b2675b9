//! Heads, and their texts.
use crate::text::Text;
use cache_heads::meta::ResponseHeader;
use http::StatusCode;
use http_header::{HeaderMap, HeaderName, HeaderValue};
use std::alloc::Global;

/// The fields of each response that is stored.
pub const STORED: &str = "cache-control=max-age=10 etag=a x-kept=1";

/// The fields of a response that confirms a stale one.
pub const SENT: &str = "etag=b x-kept=2 etag=c expires=0 vary=x";

// Appends a field.
fn append(alloc: Global, headers: &mut HeaderMap, name: &str, value: &str) -> Option<()> {
    let name = HeaderName::from_bytes(alloc, name.as_bytes()).ok()?;
    let value = HeaderValue::from_bytes(alloc, value.as_bytes()).ok()?;
    let _is_new = headers.append(name, value).ok()?;
    Some(())
}

// Appends the fields of a text, until memory runs out.
fn fill(alloc: Global, headers: &mut HeaderMap, fields: &str) -> Option<()> {
    for field in fields.split(' ') {
        let (name, value) = field.split_once('=')?;
        append(alloc, headers, name, value)?;
    }
    Some(())
}

/// A head with the fields of a text, or with those before the first that there was no memory for.
pub fn head_of(alloc: Global, fields: &str) -> ResponseHeader {
    let mut headers = HeaderMap::new(alloc);
    let _all = fill(alloc, &mut headers, fields);
    ResponseHeader {
        status: StatusCode::OK,
        headers,
    }
}

/// Appends the fields of a head in order, each after its name.
pub fn push_fields(text: &mut Text, header: &ResponseHeader) {
    let mut is_first = true;
    for (name, value) in header.headers.iter() {
        if !is_first {
            text.push(" ");
        }
        is_first = false;
        text.push(name.as_str());
        text.push("=");
        text.push(value.to_str().unwrap_or("?"));
    }
}
