//! Tables for threads: N shards, each under a lock of its own.

pub use request_predictor::{ConcurrentHashTable, ConcurrentLruCache, LruShard};
