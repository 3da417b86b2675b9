//! A store in memory: writes in flight and finished bodies, by stored key.
//!
//! A write's bytes are kept in the pieces that they came in, shared and not copied, and joined once when it is finished. Readers follow a
//! write in flight.
//!
//! Its contract is that of `Storage` (`cache_store`) for `MemCache`: a look-up finds the key's write in flight that began first, else the
//! body that was finished last.
//! The tier owns one. The original: <https://docs.rs/pingora-cache/0.9.1/pingora_cache/struct.MemCache.html>.
#![tactic(auto)]

mod alive;
mod bodies;
mod cache;
mod counted_meta;
mod flight;
mod flights;
pub mod handlers;
pub mod laws;
mod lookup;
mod meta;
mod pieces;
mod readers;
mod storage;
mod stored_key;

pub use cache::MemCache;
pub use head_packed::PackedMeta;
pub use meta::{NewMeta, ShownMeta};
