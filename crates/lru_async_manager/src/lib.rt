//! A manager of a cache's entries over shards whose changes are messages: a call returns before it takes effect, evicted entries go
//! to a callback, and a question waits for the messages that were sent to its shard before it.
//!
//! The contract to read first is that of `Manager::save`: what its files are, wherever the calls stop.
//! Programs of threads call it; `test_lru` shows how.
#![tactic(auto)]

pub use builder::ManagerBuilder;
pub use fault::{RowsFault, TextFault};
pub use manager::Manager;
pub use texts::text_of;

mod builder;
mod fault;
mod files;
mod manager;
mod texts;
