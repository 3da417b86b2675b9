//! The public face of pingora-cache 0.9.1, in its own names and paths; what works lies in the crates that this one shows.
//!
//! `HttpCache` is one request to a cache, `put` stores a whole response, `MemCache` is a store in memory, `eviction` has the managers,
//! `lock` one writer a key, `predictor` and `hashtable` tables for threads.
//!
//! It has no code, so each contract is that of the crate that the name comes from; the one to read first is `HttpCache` of
//! `request_cache`. `example_requests` calls it: a put, a write and a hit. The original: <https://docs.rs/pingora-cache/0.9.1>.
#![tactic(auto)]

pub use bytes::Bytes;
pub use cache_heads::{
    CacheMeta, CacheMetaDefaults, Error, ErrorType, GivenMeta, NoCacheReason, RespCacheable,
    cache_control, filters, meta,
};
pub use cache_lock as lock;
pub use cache_store::storage::{
    HitHandler, MissHandler, PurgeAction, PurgeOutcome, PurgeTarget, PurgeType, Storage,
};
pub use cache_store::{admission, max_file_size, storage, trace};
pub use cache_words::key::CacheKey;
pub use cache_words::variance::VarianceBuilder;
pub use cache_words::{blake, key, pack, time};
pub use eviction::{CacheEntryId, CacheEntryKey, CacheEntryKeyRef};
pub use head_lines::{RequestHeader, ResponseHeader};
pub use head_packed::{HeldMeta, SharedHead};
pub use head_parse::{ReadHeadFault, read_head, read_response};
pub use request_cache::{
    FinishFault, Finished, FoundFault, HttpCache, LookUpFault, RevalidateFault, Uses,
};
pub use request_phases::{
    CacheOptionOverrides, CachePhase, ForcedFreshness, HitStatus, HttpCacheDigest, LockAbandon,
    LockCtx,
};
pub use request_predictor as predictor;
pub use request_puts::put;
pub use request_store::{BoxedPolicy, CacheParts, CacheParts as Parts, NoPolicy};
pub use store_memory::handlers::{CompleteHit, MemHitHandler, MemMissHandler, PartialHit};
pub use store_memory::{MemCache, NewMeta, PackedMeta, ShownMeta};

pub mod eviction;
pub mod hashtable;
