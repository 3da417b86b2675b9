//! Which keys lately had a response that is not kept, and tables for threads: N shards, each under a lock of its own, where key k is in
//! shard k modulo N.
//!
//! A shard's lock gives the shard as the last holder left it. Nothing is claimed of what a shard holds at the next lock: other
//! threads may have changed it.
//!
//! Its contract is that of `Predictor`: N bounded lists of keys, the last mark first, and only reasons that lie in the response are remembered.
//! `request_cache` asks it before a look-up. The original: <https://docs.rs/pingora-cache/0.9.1/pingora_cache/predictor/>.
#![tactic(auto)]

mod hash_table;
mod key_predictor;
mod lru_cache;
mod lru_shard;
mod predictor;
mod shards;
mod skipped;

pub use hash_table::ConcurrentHashTable;
pub use key_predictor::CacheablePredictor;
pub use lru_cache::ConcurrentLruCache;
pub use lru_shard::LruShard;
pub use predictor::Predictor;
pub use skipped::{CustomReasonPredicate, NothingSkipped};
