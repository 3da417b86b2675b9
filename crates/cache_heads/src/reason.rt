//! Whether a response is kept.
ghost use Rattle.std.specs.Prelude.{◌≡◌, ◌↔◌, IsTrue};
ghost use Rattle.cache_heads.specs.Reasons.{reason_name, IsCacheable};

use crate::meta::CacheMeta;

/// Why a response is not kept.
#[derive(Clone, Copy, Debug, PartialEq, Eq)]
pub enum NoCacheReason {
    /// The cache was never enabled.
    NeverEnabled,
    /// The origin forbids it, or does not say how long the response is fresh.
    OriginNotCache,
    /// The response is larger than the greatest size that is kept.
    ResponseTooLarge,
    /// The response was predicted to be larger than the greatest size that is kept.
    PredictedResponseTooLarge,
    /// The store failed.
    StorageError,
    /// The cache failed.
    InternalError,
    /// The admission policy deferred it.
    Deferred,
    /// A filter declined to ask upstream.
    DeclinedToUpstream,
    /// Upstream failed.
    UpstreamError,
    /// The writer under the cache lock gave up.
    CacheLockGiveUp,
    /// The cache lock was held too long.
    CacheLockTimeout,
    /// The cache lock was waited for too many times.
    CacheLockRetryLimit,
    /// A reason of the user's own.
    Custom(&'static str),
}

impl NoCacheReason {
    /// Returns the reason's name; of `Custom` its text.
    pub fn as_str(&self) -> &'static str
        ensures { result.now ≡ reason_name self.now }
    {
        match self {
            NoCacheReason::NeverEnabled => "NeverEnabled",
            NoCacheReason::OriginNotCache => "OriginNotCache",
            NoCacheReason::ResponseTooLarge => "ResponseTooLarge",
            NoCacheReason::PredictedResponseTooLarge => "PredictedResponseTooLarge",
            NoCacheReason::StorageError => "StorageError",
            NoCacheReason::InternalError => "InternalError",
            NoCacheReason::Deferred => "Deferred",
            NoCacheReason::DeclinedToUpstream => "DeclinedToUpstream",
            NoCacheReason::UpstreamError => "UpstreamError",
            NoCacheReason::CacheLockGiveUp => "CacheLockGiveUp",
            NoCacheReason::CacheLockTimeout => "CacheLockTimeout",
            NoCacheReason::CacheLockRetryLimit => "CacheLockRetryLimit",
            NoCacheReason::Custom(text) => text,
        }
    }
}

/// Whether a response is kept, and as what.
#[derive(Debug, Drop)]
pub enum RespCacheable {
    /// It is kept with this meta.
    Cacheable(CacheMeta),
    /// It is not kept.
    Uncacheable(NoCacheReason),
}

impl RespCacheable {
    /// Returns whether the response is kept.
    pub fn is_cacheable(&self) -> bool
        ensures { IsTrue result ↔ IsCacheable self.now }
    {
        matches!(self, RespCacheable::Cacheable(_))
    }

    /// Returns the meta of a response that is kept.
    pub fn unwrap_meta(self) -> CacheMeta
        requires { IsCacheable self }
        ensures { self ≡ RespCacheable.Cacheable result }
    {
        match self {
            RespCacheable::Cacheable(meta) => meta,
            RespCacheable::Uncacheable(_) => unreachable!(),
        }
    }
}
