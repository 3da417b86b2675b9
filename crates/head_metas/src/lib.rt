//! The metadata that a cache keeps with a response, as MessagePack: its moments and numbers, and its head.
//!
//! `internal` writes and reads moments and numbers, in the three versions that files may have; `head` a status and header lines.
//!
//! Its contract is the laws `internal_is_read_again` and `head_is_read_again`: what was written is read again, and no text has two readings.
//! `cache_heads` serializes its `CacheMeta` by it, and `head_packed` keeps heads as its texts.
#![tactic(auto)]

pub mod fault;
pub mod head;
pub mod internal;
pub mod laws;
mod lengths;
pub mod versions;
