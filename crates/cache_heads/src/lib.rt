//! Heads of messages as a shared cache reads them: how long a response is fresh, what is kept of it, and what is sent to the origin.
//!
//! `filters` judge a response (RFC 9111, 3, 4.2 and 4.2.4; RFC 5861), `meta::CacheMeta` is what is kept with its body, and `merged` is the head
//! that a 304 confirms (RFC 9111, 3.2).
//!
//! Its contract is that of `filters::resp_cacheable`: the verdict on a head, with the whole meta and the head without the fields
//! that its directives list.
//! Puts, requests and the tier call it. The original: <https://docs.rs/pingora-cache/0.9.1/pingora_cache/filters/>.
#![tactic(auto)]

mod defaults;
pub mod filters;
pub mod given;
pub mod laws;
pub mod merged;
pub mod meta;
mod outside;
mod reason;

pub use given::GivenMeta;
pub use head_directives as cache_control;
pub use head_lines::{Error, ErrorType};
pub use meta::{CacheMeta, CacheMetaDefaults};
pub use reason::{NoCacheReason, RespCacheable};
