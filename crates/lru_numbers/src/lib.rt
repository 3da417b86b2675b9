//! Numbers of a cache's entries. An entry keeps its number for as long as it has one, and no two have the same, also where
//! their hashes are.
//!
//! A list of `lru_core` names rows by numbers of 64 bits. `Numbers` gives an entry the first free one with the remainder of its
//! hash, so that the entry's shard is known by its hash.
//!
//! Its contract is that of `Numbers::give`: a finite map, and no entry stands under two numbers.
//! `cache_evict::lru::Manager` asks it at each admission.
#![tactic(auto)]

pub use fault::NumbersFault;
pub use numbers::Numbers;
pub use parts::KeyParts;

mod fault;
mod numbers;
mod parts;
mod query;
mod table_key;
