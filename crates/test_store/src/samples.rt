//! Keys and metas that the tests share.
use cache_heads::CacheMeta;
use cache_heads::meta::ResponseHeader;
use cache_words::key::CacheKey;
use cache_words::time::Moment;
use http::StatusCode;
use http_header::HeaderMap;
use std::alloc::Global;

// A key under an empty tag.
pub(super) fn key(alloc: Global, primary: &[u8]) -> Option<CacheKey> {
    let primary = Vec::from_slice(alloc, primary).ok()?;
    Some(CacheKey::new(primary, String::new(alloc)))
}

// The same, or the key of no bytes when out of memory.
pub(super) fn known(alloc: Global, primary: &[u8]) -> CacheKey {
    match key(alloc, primary) {
        Some(key) => key,
        None => CacheKey::new(Vec::new(alloc), String::new(alloc)),
    }
}

// A meta without header lines, made at 900 and fresh until that second, with windows of 30 seconds.
pub(super) fn meta(alloc: Global, until: i64) -> CacheMeta {
    let header = ResponseHeader {
        status: StatusCode::OK,
        headers: HeaderMap::new(alloc),
    };
    CacheMeta::new(
        Moment::from_seconds(until),
        Moment::from_seconds(900),
        30,
        30,
        header,
    )
}
