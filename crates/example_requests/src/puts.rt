//! Puts of whole responses, and which are kept.
ghost use Rattle.std.specs.Prelude.{None};
ghost use Rattle.request_puts.specs.Response.{joined, Gives, verdict_by_headers};
ghost use Rattle.example_requests.specs.Puts.{no_defaults, never, IsPut};

use crate::fault::Fault;
use crate::requests::Cache;
use bytes::Bytes;
use head_parse::read_head;
use pingora_cache::meta::{NeverByStatus, ResponseHeader};
use pingora_cache::put::{CachePut, CachePutCtx, PutFault, PutOutcome, cacheable_by_headers};
use pingora_cache::time::Moment;
use pingora_cache::{CacheKey, CacheMeta, CacheMetaDefaults, RespCacheable};
use rand_core::Rng;
use std::alloc::{AllocError, Global};

/// Keeps what a response's own Cache-Control and Expires allow. Without either it isn't kept.
#[derive(Drop)]
pub struct ByHeaders;

impl CachePut for ByHeaders {
    type Lifetimes = NeverByStatus;

    ghost defaults = { no_defaults };

    ghost verdict = { λ _ moment header. verdict_by_headers moment header never no_defaults };

    fn cacheable(
        &self,
        alloc: Global,
        moment: Moment,
        response: ResponseHeader,
    ) -> Result<RespCacheable, AllocError> {
        cacheable_by_headers(alloc, moment, response, &ByHeaders::cache_defaults())
    }

    fn cache_defaults() -> CacheMetaDefaults<NeverByStatus> {
        CacheMetaDefaults {
            fresh_sec_fn: NeverByStatus,
            stale_while_revalidate_sec: 0,
            stale_if_error_sec: 0,
        }
    }
}

/// Stores a whole response under a key, which comes in pieces at a moment, where its own lines allow that.
///
/// # Errors
///
/// Those of `cache_put`.
pub fn put<R: Rng>(
    alloc: Global,
    cache: &mut Cache,
    rng: &mut R,
    key: CacheKey,
    pieces: &[Bytes],
    moment: Moment,
) -> Result<PutOutcome, PutFault>
    ensures put { IsPut (Gives None (λ header. verdict_by_headers moment header never no_defaults) (joined pieces.now)) cache.old.store result cache.new.store }
{
    CachePutCtx::new(ByHeaders, key).cache_put(alloc, cache, rng, pieces, moment)
}

/// Returns the meta of a response with that head which comes at a moment.
///
/// # Errors
///
/// `Head` where the bytes are no head, `NotKept` where the response isn't kept; out of memory.
pub fn meta_of(alloc: Global, head: &[u8], moment: Moment) -> Result<CacheMeta, Fault> {
    let header = read_head(alloc, head).map_err(Fault::Head)?;
    match ByHeaders.cacheable(alloc, moment, header)? {
        RespCacheable::Cacheable(meta) => Ok(meta),
        RespCacheable::Uncacheable(reason) => Err(Fault::NotKept(reason)),
    }
}
