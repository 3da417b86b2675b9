//! Reading the heads of requests and responses (RFC 9112).
//!
//! A head is refused by a first-match table of reasons, or read: its lines end to end, how its body ends, and where it goes.
#![tactic(auto)]

pub mod cookies;
pub mod encodings;
pub mod laws;
pub mod request;
pub mod response;
