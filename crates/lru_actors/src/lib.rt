//! Weighted lists whose changes are messages: one actor a shard applies them, workers evict, and workers call back with each evicted
//! pair.
//!
//! `World` is all of that in one thread, step by step.
//!
//! The contract to read first is that of `World::step`: from every history one turn leads to that history's lists, queues and evicted pairs.
//! `lru_async` runs these actors as threads.
#![tactic(auto)]

pub use event::{Event, Outcome, StepFault};
pub use message::Message;
pub use shard_actor::ShardActor;
pub use world::World;

mod event;
mod message;
mod queue;
mod shard_actor;
mod world;
