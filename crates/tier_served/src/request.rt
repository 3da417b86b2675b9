//! Requests, and what serving them gives.
use bytes::Bytes;
use cache_heads::NoCacheReason;
use cache_words::key::CacheKey;
use cache_words::time::Moment;
use tier_model::event::Entries;

/// What is asked of a cache under a key, and when.
#[derive(Debug, Drop)]
pub struct Request {
    pub moment: Moment,
    pub key: CacheKey,
    pub method: Method,
}

/// What a request asks for.
#[derive(Debug, Drop)]
pub enum Method {
    /// The body that is stored; where none is stored that is fresh, this response of the origin is to be stored.
    Get { response: Bytes },
    /// That what is stored be removed, under whatever tag.
    Purge,
}

/// What serving a request gave. `found` says whether the look-up found the key.
#[derive(PartialEq, Eq, Debug, Drop)]
pub enum Served {
    /// A fresh body was stored: all its bytes.
    Hit {
        body: Bytes,
    },
    /// The response was stored: its body's length in bytes, and the entries that went to make room, in order.
    Filled {
        found: bool,
        length: usize,
        evicted: Entries,
    },
    /// The response is whole and may not be kept.
    Passed {
        found: bool,
        reason: NoCacheReason,
    },
    /// Whether something was stored.
    Purged(bool),
}
