//! Which entries of a cache are tracked, in which order they were used, and which are evicted. Weights are in bytes, or in
//! whatever unit the caller gives its limit in.
//!
//! `lru::Manager` has N shards, `simple_lru::Manager` one list. Both keep a limit on the sum of weights and, if wished, on the number of
//! entries, and save their order of use.
//!
//! Its contract is that of `EvictionManager::admit`: the entry is first in its shard, and then the last entries go until neither limit is passed.
//! Puts, requests and the tier admit by it. The original: <https://docs.rs/pingora-cache/0.9.1/pingora_cache/eviction/>.
#![tactic(auto)]

pub use cache_entries::entry::{CacheEntryId, CacheEntryKey, CacheEntryKeyRef};
pub use cache_words::pack::{PackFault, PackWriteFault};
pub use fault::EvictFault;
pub use load_fault::LoadFault;
pub use lru_numbers::KeyParts;
pub use manager::EvictionManager;

mod fault;
pub mod laws;
mod load_fault;
pub mod lru;
mod manager;
pub mod numbers;
pub mod simple_lru;
mod tracker;
