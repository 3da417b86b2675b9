//! Heads and metas: that calls succeed, and examples from outside.
mod filters;
mod metas;
mod refused;
mod texts;

use crate::made::head_of;
use cache_heads::meta::CacheMeta;
use cache_words::time::Moment;
use std::alloc::Global;

// A meta that is fresh from second 1000 to 1010, with windows of 5 and 60 seconds.
fn meta(alloc: Global) -> CacheMeta {
    let header = head_of(alloc, "etag", "\"a\"");
    let created = Moment::from_seconds(1000);
    CacheMeta::new(Moment::from_seconds(1010), created, 5, 60, header)
}
