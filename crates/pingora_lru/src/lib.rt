//! Weighted lists for threads: each shard under a lock of its own, and shards that keep a record of their calls.
//!
//! Shown again are the lists of one thread, `linked_list`, `lru_unit` and `LruCore`, the lists whose changes are messages, `lru_async`,
//! and saves of lists to files, `persistence`.
//!
//! The contract to read first is that of `RecordedLru`: at each lock its record of calls leads to its rows.
//! Programs of threads that keep weighted keys call it; `test_lru` shows how. The original: <https://docs.rs/pingora-lru/0.9.1>.
#![tactic(auto)]

pub use locked::Lru;
pub use lru_async as async_lru;
pub use lru_core::{LruCore, MOST_ROWS, linked_list, lru_unit};
pub use lru_files::persistence;
pub use rand_core::Rng;
pub use recorded::RecordedUnit;
pub use recorded_lru::RecordedLru;
pub use seeded_hashing::{PieceHasher, SeededState};

pub mod call;
mod counts;
mod edits;
mod locked;
mod looks;
mod recorded;
mod recorded_lru;
