//! Heads of messages, as far as a cache looks at them.
use http::{Method, StatusCode};
use http_header::HeaderMap;

/// The head of a response.
#[derive(Clone, Debug, Drop)]
pub struct ResponseHeader {
    /// Its status.
    pub status: StatusCode,
    /// Its fields.
    pub headers: HeaderMap,
}

/// The head of a request.
#[derive(Clone, Debug, Drop)]
pub struct RequestHeader {
    /// Its method.
    pub method: Method,
    /// Its fields.
    pub headers: HeaderMap,
}
