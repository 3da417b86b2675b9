//! Directives of requests and responses.
use crate::made::{fields, head, head_of};
use head_directives::{
    CacheControl, InterpretCacheControl, ListValueIter, RequestHeader, ResponseHeader,
};
use http::{Method, StatusCode};
use std::alloc::{AllocError, Global};

#[derive(Clone, Copy)]
enum Head {
    Request,
    RequestNamed(&'static str),
    Response,
    ResponseNamed(&'static str),
}

// Copies of heads of one line.
fn request_of(alloc: Global, field: &str) -> Option<RequestHeader> {
    let method = Method::GET;
    let headers = fields(alloc, &[(field, b"no-cache")]);
    RequestHeader { method, headers }.clone().ok()
}

fn response_of(alloc: Global, field: &str) -> Option<ResponseHeader> {
    head_of(alloc, field, "no-cache").clone().ok()
}

// Whether the head that is asked for has the directive of its line.
fn finds(
    alloc: Global,
    head: Head,
    request: &RequestHeader,
    response: &ResponseHeader,
) -> Option<bool> {
    let found = match head {
        Head::Request => CacheControl::from_req_headers(alloc, request),
        Head::RequestNamed(name) => CacheControl::from_req_headers_named(alloc, name, request),
        Head::Response => CacheControl::from_resp_headers(alloc, response),
        Head::ResponseNamed(name) => CacheControl::from_resp_headers_named(alloc, name, response),
    };
    match found {
        Ok(Some(control)) => Some(control.no_cache()),
        Ok(None) => Some(false),
        Err(AllocError) => None,
    }
}

fn is_found(alloc: Global, field: &str, head: Head, want: bool) -> bool {
    match (request_of(alloc, field), response_of(alloc, field)) {
        (Some(request), Some(response)) => finds(alloc, head, &request, &response) == Some(want),
        _ => false,
    }
}

const HEADS: &[(&str, Head, bool)] = &[
    ("cache-control", Head::Request, true),
    ("cache-control", Head::RequestNamed("Cache-Control"), true),
    ("cache-control", Head::RequestNamed("Pragma"), false),
    ("pragma", Head::Request, false),
    ("cdn-cache-control", Head::Response, false),
    (
        "cdn-cache-control",
        Head::ResponseNamed("CDN-Cache-Control"),
        true,
    ),
    ("cache-control", Head::Response, true),
    ("cache-control", Head::ResponseNamed("x-none"), false),
];

#[test]
fn heads(rt: HostRuntime) {
    for &(field, head, want) in HEADS {
        assert!(rt; is_found(rt.alloc(), field, head, want));
    }
}

fn how_many(names: Option<ListValueIter<'_>>) -> usize {
    let mut count: usize = 0;
    if let Some(names) = names {
        for _ in names {
            count = count.saturating_add(1);
        }
    }
    count
}

// How many names the directives list, and how many fields they leave of a head.
fn strip(found: &CacheControl, response: &mut ResponseHeader) -> (usize, usize, usize) {
    found.strip_private_headers(response);
    let in_private = how_many(found.private_field_names());
    let in_no_cache = how_many(found.no_cache_field_names());
    (in_private, in_no_cache, response.headers.len())
}

fn is_stripped(alloc: Global, response: &mut ResponseHeader, want: (usize, usize, usize)) -> bool {
    match CacheControl::from_resp_headers(alloc, response) {
        Ok(Some(found)) => strip(&found, response) == want,
        _ => false,
    }
}

// The same of a head with x-a and x-b.
fn is_stripped_so(alloc: Global, line: &str, want: (usize, usize, usize)) -> bool {
    let lines: [(&str, &[u8]); 3] = [
        ("cache-control", line.as_bytes()),
        ("x-a", b"1"),
        ("x-b", b"2"),
    ];
    is_stripped(alloc, &mut head(alloc, &lines), want)
}

const STRIPPED: &[(&str, (usize, usize, usize))] = &[
    ("private=\"x-c\"", (1, 0, 3)),
    ("private=\"x-a\"", (1, 0, 2)),
    ("private, no-cache=\"X-B ,x-c\"", (0, 2, 2)),
    ("private=\"x-a\", no-cache=x-b", (1, 1, 1)),
    ("private, no-cache", (0, 0, 3)),
];

#[test]
fn stripped_heads(rt: HostRuntime) {
    for &(line, want) in STRIPPED {
        assert!(rt; is_stripped_so(rt.alloc(), line, want));
    }
}
