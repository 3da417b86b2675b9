//! Weighted lists whose changes are messages, with their threads: an actor for each shard applies them, workers evict, and workers
//! call back with each evicted pair.
//!
//! The steps of all that in one thread are shown again: `World`, and the actor of one shard.
//!
//! The contract to read first is that of `AsyncLru::admit`: a key goes to the shard of its hash, or comes back.
//! `lru_async_manager` calls it, and `pingora_lru` shows it again.
#![tactic(auto)]

pub use builder::AsyncLruBuilder;
pub use callback::AsyncEvictionCallback;
pub use crossbeam_channel::Receiver;
pub use fault::{BuildFault, SendFault, TailFault};
pub use hash::hash_key;
pub use lru_actors::{Event, Message, Outcome, ShardActor, StepFault, World};
pub use rand_core::Rng;
pub use running::AsyncLru;
pub use running::saving::ShardData;

mod builder;
mod callback;
mod command;
mod counts;
mod crew;
mod evictor;
mod fault;
mod gate;
mod hash;
mod pick;
mod plan;
mod running;
mod start;
mod threads;
