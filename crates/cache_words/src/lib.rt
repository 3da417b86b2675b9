//! The words that the cache's layers share: points in time, digests, keys and the format of files and metas.
//!
//! `time` has moments and durations, `blake` BLAKE2b with 16 bytes (RFC 7693), `key` the keys of a cache, `variance` what a
//! response varies by, and `pack` writes and reads MessagePack.
//!
//! Its contract is that of `Blake2b128`: whatever the pieces, `finalize` returns the digest of all bytes together. Of `pack` it is that a
//! value is read exactly where the bytes begin with a spelling of it (`laws::written_is_spelled`, `laws::one_spelling`).
//! All other crates rest on it; a store asks `key::CacheKey` for the name that a body lies under.
#![tactic(auto)]

pub mod blake;
pub mod key;
pub mod laws;
mod lend_bytes;
mod maybe_owned_bytes;
pub mod pack;
pub mod text;
pub mod time;
pub mod variance;
