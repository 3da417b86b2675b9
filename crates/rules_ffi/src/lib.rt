//! HTTP's rules as calls over bytes and plain structs: a function for each call of `embed/cache_rules.h`, which a static library exports. Those that
//! answer a client from what was found or came stand in `rules_serving`.
//!
//! A call is given all that it looks at, keeps nothing, and writes its texts into a room of the caller's. It reads no clock.
#![tactic(auto)]

pub mod judging;
pub mod laws;
pub mod listing;
pub mod plain;
pub mod purging;
pub mod reading;
pub mod renewing;
pub mod responses;
pub mod sending;
pub mod sets;
pub mod variants;
