//! What a cache's store and its users share: the traits of a store and its handlers, what is purged and what came of it, tags of
//! writes, faults, admission, the limit on a body's size, and tracing that does nothing.
//!
//! A `Storage` is seen as a finite map from stored keys to bodies, and to writes in flight by number.
//!
//! Its contract is that of `storage::Storage`: what each call finds, changes and refuses, in words of that map alone.
//! `store_memory` implements it; requests and puts are proved for every store that does. The original:
//! <https://docs.rs/pingora-cache/0.9.1/pingora_cache/storage/>.
#![tactic(auto)]

pub mod admission;
pub mod laws;
pub mod max_file_size;
pub mod storage;
pub mod trace;

pub use storage::{HitHandler, MissHandler};
