//! Puts: a whole response, as an origin sent it, is stored in one call.
//!
//! A `CachePut` says what may be stored and for how long; `cacheable_by_headers` decides as a shared cache does.
//!
//! Its contract is that of `put::CachePutCtx::cache_put`: what a reading of the joined pieces gives, in this order: too large, incomplete,
//! not to be stored, stored.
//! The tier puts by it, and `pingora_cache` shows it. The original: <https://docs.rs/pingora-cache/0.9.1/pingora_cache/put/>.
#![tactic(auto)]

pub mod put;
