//! Directives of Cache-Control, by tables.
mod heads;
mod hostile;
mod known;
mod lines;
mod questions;
mod values;

use crate::made::add;
use head_directives::{CacheControl, Error, ErrorType};
use http_header::HeaderMap;
use std::alloc::Global;

pub const UNREADABLE: Error = Error {
    etype: ErrorType::InternalError,
};

// The directives of these lines; `None` where memory is refused.
pub fn control(alloc: Global, lines: &[&[u8]]) -> Option<CacheControl> {
    let mut headers = HeaderMap::new(alloc);
    for line in lines {
        if !add(alloc, &mut headers, "cache-control", line) {
            break;
        }
    }
    CacheControl::from_headers_named(alloc, "Cache-Control", &headers).unwrap_or(None)
}
