//! What a cache asks the directives.
use crate::directives::{UNREADABLE, control};
use cache_words::time::Duration;
use head_directives::{
    BuildDirectiveHasher, CacheControl, Cacheable, DELTA_SECONDS_OVERFLOW_DURATION,
    DELTA_SECONDS_OVERFLOW_VALUE, DirectiveKey, DirectiveMap, InterpretCacheControl,
};
use std::alloc::Global;

const FULL: &str = "public, Only-If-Cached, x-y=1, no-store, max-age=+7";

const STRICT: &str = "must-revalidate, proxy-revalidate, no-cache, stale-if-error=x";

// The directives of a line.
fn of(alloc: Global, line: &str) -> CacheControl {
    control(alloc, &[line.as_bytes()]).unwrap()
}

// Whether directives that are made by hand have public, and private.
fn made_by_hand(alloc: Global) -> (bool, bool) {
    let directives = DirectiveMap::with_hasher(alloc, BuildDirectiveHasher::default());
    let mut control = CacheControl { directives };
    let put = control
        .directives
        .insert(DirectiveKey::Public, None)
        .is_ok();
    (put && control.public(), control.private())
}

#[test]
fn questions_are_answered(rt: HostRuntime) {
    let alloc = rt.alloc();
    let full = of(alloc, FULL);
    let strict = of(alloc, STRICT);
    assert!(rt; full.public());
    assert!(rt; full.only_if_cached());
    assert!(rt; full.no_store());
    assert!(rt; full.has_key("x-y"));
    assert!(rt; !full.has_key("x-z"));
    assert!(rt; full.has_key("max-age"));
    assert!(rt; full.has_directive(&DirectiveKey::MaxAge));
    assert!(rt; !full.must_revalidate());
    assert!(rt; !full.proxy_revalidate());
    assert!(rt; !full.private());
    assert!(rt; full.allow_caching_authorized_req());
    assert!(rt; strict.must_revalidate());
    assert!(rt; strict.proxy_revalidate());
    assert!(rt; strict.no_cache());
    assert!(rt; !of(alloc, "no-cache=x").no_cache());
    assert!(rt; !of(alloc, "private=\"x\"").private());
    assert!(rt; made_by_hand(alloc) == (true, false));
}

#[test]
fn what_may_be_stored_and_for_how_long(rt: HostRuntime) {
    let alloc = rt.alloc();
    let full = of(alloc, FULL);
    let strict = of(alloc, STRICT);
    assert!(rt; full.is_cacheable() == Cacheable::No);
    assert!(rt; of(alloc, "max-age=x").is_cacheable() == Cacheable::Yes);
    assert!(rt; strict.is_cacheable() == Cacheable::Default);
    assert!(rt; of(alloc, "private=x").is_cacheable() == Cacheable::Default);
    assert!(rt; full.max_age() == Ok(Some(7)));
    assert!(rt; full.s_maxage() == Ok(None));
    assert!(rt; full.fresh_duration() == Some(Duration::from_seconds(7)));
    assert!(rt; strict.stale_while_revalidate() == Ok(None));
    assert!(rt; strict.stale_if_error() == Err(UNREADABLE));
    assert!(rt; strict.fresh_duration() == Some(Duration::from_seconds(0)));
    assert!(rt; strict.serve_stale_if_error_duration() == Some(Duration::from_seconds(0)));
    assert!(rt;
        of(alloc, "stale-if-error=3").serve_stale_if_error_duration()
            == Some(Duration::from_seconds(3))
    );
    assert!(rt;
        of(alloc, "stale-while-revalidate=4").serve_stale_while_revalidate_duration()
            == Some(Duration::from_seconds(4))
    );
    let most = u64::from(DELTA_SECONDS_OVERFLOW_VALUE);
    assert!(rt; DELTA_SECONDS_OVERFLOW_DURATION.seconds() == most);
}
