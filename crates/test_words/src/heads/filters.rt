//! What is kept of a response, and what is sent to the origin.
use super::meta;
use crate::made::{fields, head_of};
use cache_heads::cache_control::CacheControl;
use cache_heads::filters::upstream::request_filter;
use cache_heads::filters::{
    calculate_expires_header_time, calculate_fresh_until, calculate_serve_stale_durations,
    request_cacheable, resp_cacheable,
};
use cache_heads::meta::{
    CacheMeta, CacheMetaDefaults, FreshDurationByStatusFn, NeverByStatus, RequestHeader,
    ResponseHeader,
};
use cache_heads::{NoCacheReason, RespCacheable};
use cache_words::time::{Duration, Moment};
use http::{Method, StatusCode};
use http_header::HeaderMap;
use std::alloc::Global;

// 5 seconds after second 1000.
const DATE: &str = "Thu, 01 Jan 1970 00:16:45 GMT";

// Nothing is fresh by its status, and the windows are 7 and 8 seconds.
fn defaults() -> CacheMetaDefaults<NeverByStatus> {
    CacheMetaDefaults::new(NeverByStatus, 7, 8)
}

// A field of a head, whether its request was authorized, the seconds that Expires gives, and those until which the response
// is fresh that came at 1000. It is kept where there are such.
type Row = (&'static str, &'static str, bool, Option<i64>, Option<i64>);

const ROWS: &[Row] = &[
    ("expires", DATE, false, Some(1005), Some(1005)),
    ("expires", DATE, true, Some(1005), None),
    (
        "expires",
        " Thu, 01 Jan 1970 00:16:45 GMT",
        false,
        Some(1005),
        Some(1005),
    ),
    (
        "expires",
        "\tThu, 01 Jan 1970 00:16:45 GMT \t ",
        false,
        Some(1005),
        Some(1005),
    ),
    (
        "expires",
        "Thu, 01 Jan 1970  00:16:45 GMT",
        false,
        Some(0),
        Some(0),
    ),
    ("expires", " 0 ", false, Some(0), Some(0)),
    ("expires", "", false, Some(0), Some(0)),
    ("x-a", "1", false, None, None),
];

fn seconds_of(moment: Option<Moment>) -> Option<i64> {
    match moment {
        Some(moment) => Some(moment.seconds()),
        None => None,
    }
}

// Whether the moments are right of a response that came at 1000.
fn are_seconds(header: &ResponseHeader, row: &Row) -> bool {
    let now = Moment::from_seconds(1000);
    let until = calculate_fresh_until(now, None, header, row.2, &defaults());
    let expires = calculate_expires_header_time(header);
    seconds_of(expires) == row.3 && seconds_of(until) == row.4
}

// Whether it is kept just where it is fresh until some moment.
fn is_kept(header: ResponseHeader, row: &Row) -> bool {
    let now = Moment::from_seconds(1000);
    match resp_cacheable(now, None, header, row.2, &defaults()) {
        RespCacheable::Cacheable(_) => row.4.is_some(),
        RespCacheable::Uncacheable(reason) => {
            row.4.is_none() && reason == NoCacheReason::OriginNotCache
        }
    }
}

fn is_right(alloc: Global, row: &Row) -> bool {
    let header = head_of(alloc, row.0, row.1);
    let are_right = are_seconds(&header, row);
    is_kept(header, row) && are_right
}

#[test]
fn expires_gives_a_moment(rt: HostRuntime) {
    for row in ROWS {
        assert!(rt; is_right(rt.alloc(), row));
    }
}

// What the defaults give without a response: no freshness by its status, and the windows.
fn given() -> (Option<Duration>, Option<Duration>, [u32; 2], (u32, u32)) {
    let defaults = defaults();
    let windows = [
        defaults.serve_stale_while_revalidate_sec(),
        defaults.serve_stale_if_error_sec(),
    ];
    (
        NeverByStatus.fresh_duration(StatusCode::OK),
        defaults.fresh_sec(StatusCode::OK),
        windows,
        calculate_serve_stale_durations(None::<&CacheControl>, &defaults),
    )
}

#[test]
fn defaults_are_shown(rt: HostRuntime) {
    assert!(rt; given() == (None, None, [7, 8], (7, 8)));
}

fn is_cacheable(alloc: Global, method: Method) -> bool {
    let headers = HeaderMap::new(alloc);
    request_cacheable(&RequestHeader { method, headers })
}

fn are_cacheable(alloc: Global) -> [bool; 3] {
    [
        is_cacheable(alloc, Method::GET),
        is_cacheable(alloc, Method::HEAD),
        is_cacheable(alloc, Method::POST),
    ]
}

fn names() -> [&'static str; 2] {
    [
        NoCacheReason::OriginNotCache.as_str(),
        NoCacheReason::Custom("mine").as_str(),
    ]
}

#[test]
fn methods_are_cacheable_and_reasons_have_names(rt: HostRuntime) {
    assert!(rt; are_cacheable(rt.alloc()) == [true, true, false]);
    assert!(rt; names() == ["OriginNotCache", "mine"]);
}

// A HEAD request with a range.
fn ranged(alloc: Global) -> RequestHeader {
    let lines: [(&str, &[u8]); 2] = [("range", b"bytes=0-1"), ("if-none-match", b"\"b\"")];
    RequestHeader {
        method: Method::HEAD,
        headers: fields(alloc, &lines),
    }
}

// Sends it on. Without memory it stays as it was.
fn is_sent_or_kept(kept: &CacheMeta, request: &mut RequestHeader) -> bool {
    let is_sent = request_filter(request, Some(kept)).is_ok();
    (request.method.as_str() == "GET") == is_sent
        && request.headers.contains_key("range") != is_sent
        && request.headers.contains_key("if-none-match")
}

// The meta or the request lacks a field where memory was refused before.
fn is_filtered(alloc: Global) -> bool {
    let kept = meta(alloc);
    let mut request = ranged(alloc);
    kept.headers().is_empty() || request.headers.len() < 2 || is_sent_or_kept(&kept, &mut request)
}

#[test]
fn refused_request_is_unchanged(rt: HostRuntime) {
    assert!(rt; is_filtered(rt.alloc()));
}
