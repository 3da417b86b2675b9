//! Rows of keys, data and weights in the order of their use: one shard, and shards with a limit on their weight.
//!
//! `lru_unit::LruUnit` is one shard. `LruCore` has N of them for one thread: a key's shard is its number modulo N, and an eviction takes
//! the last row of a shard that two random words choose.
//!
//! Its contract is the law `evictions_leave_the_longest_front`: of the rows in their order just the longest front stays that is within both
//! limits.
//! `cache_evict` tracks entries in it, `lru_actors` and `pingora_lru` put it under messages and locks. The original:
//! <https://docs.rs/pingora-lru/0.9.1>.
#![tactic(auto)]

pub use lru_list::linked_list;
pub use rows::MOST_ROWS;
pub use sharded::LruCore;

pub mod laws;
pub mod lru_unit;
mod rows;
mod sharded;
