//! The cache tier: it takes events one by one, and answers each as its state allows.
//!
//! The contract to read first is that of `answers`, a new tier and its events in one call; `Tier::step` and `Tier::run` say the same of each past
//! (`Takes`).
//! Proxies call it (`example_proxy`), `tier_recorded` and `tier_calls` share it, `trace_replay` replays traces by it.
#![tactic(auto)]

mod bodies;
pub mod found;
mod given;
mod keys;
pub mod laws;
pub mod options;
mod put;
pub mod tier;
pub mod whole;

pub use bytes::Bytes;
pub use cache_heads::GivenMeta;
pub use cache_lock::LockStatus;
pub use cache_words::key::CacheKey;
pub use cache_words::time::{Duration, Moment};
pub use found::{FoundMeta, Hit};
pub use options::TierOptions;
pub use tier::Tier;
pub use tier_model::event::{Action, Answer, Done, Entries, Event, LockGiven, Pieces, TierFault};
pub use tier_model::report::Report;
pub use whole::answers;
