//! Under which key what is stored stands, and how it may answer a request (RFC 9111, 2, 4).
//!
//! No call reads a clock or keeps anything: a moment is handed in, as nanoseconds since 1970.
#![tactic(auto)]

pub mod keys;
pub mod laws;
pub mod planning;
pub mod using;
pub mod variants;
