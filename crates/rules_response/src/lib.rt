//! What a client gets of what is stored, and what a 304 makes of it (RFC 9110, 13 to 15; RFC 9111, 4.3; RFC 9211).
//!
//! No call reads a clock or keeps anything: a moment is handed in, as nanoseconds since 1970.
#![tactic(auto)]

pub mod answering;
pub mod bodies;
pub mod confirming;
pub mod lines;
pub mod matching;
pub mod multipart;
pub mod ranges;
pub mod tagged;
pub mod telling;
