//! Heads that tests make, and texts that they compare. Where memory is refused a head lacks its last lines, so what is asserted of
//! it fails, or the test of a refusal sees that it does.
use head_lines::ResponseHeader;
use http::StatusCode;
use http_header::{HeaderMap, HeaderName, HeaderValue};
use std::alloc::{AllocError, Global};

/// A name and a value.
pub type Field = (&'static str, &'static [u8]);

// Returns whether there was memory.
fn append(alloc: Global, headers: &mut HeaderMap, name: HeaderName, line: &[u8]) -> bool {
    match HeaderValue::from_bytes(alloc, line) {
        Ok(value) => headers.append(name, value).is_ok(),
        Err(_) => false,
    }
}

pub fn add(alloc: Global, headers: &mut HeaderMap, name: &str, line: &[u8]) -> bool {
    match HeaderName::from_bytes(alloc, name.as_bytes()) {
        Ok(name) => append(alloc, headers, name, line),
        Err(_) => false,
    }
}

/// A map of these lines.
pub fn fields(alloc: Global, lines: &[(&str, &[u8])]) -> HeaderMap {
    let mut headers = HeaderMap::new(alloc);
    for (name, line) in lines {
        if !add(alloc, &mut headers, name, line) {
            break;
        }
    }
    headers
}

/// A head of status 200 with these lines.
pub fn head(alloc: Global, lines: &[(&str, &[u8])]) -> ResponseHeader {
    ResponseHeader {
        status: StatusCode::OK,
        headers: fields(alloc, lines),
    }
}

/// A head of status 200 with one line.
pub fn head_of(alloc: Global, name: &str, line: &str) -> ResponseHeader {
    head(alloc, &[(name, line.as_bytes())])
}

/// Whether this is the text.
pub fn is_text(text: Result<String, AllocError>, want: &str) -> bool {
    match text {
        Ok(text) => text.as_str() == want,
        Err(AllocError) => false,
    }
}
