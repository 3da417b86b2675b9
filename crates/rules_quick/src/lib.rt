//! The quick readers of plain requests and responses (RFC 9112, 2.1, 3 to 5): they read a head in one pass, and hand over whatever they don't know. And what is told of a head that was read.
#![tactic(auto)]

pub mod front;
pub mod lines;
pub mod names;
pub mod plain;
pub mod response;
pub mod response_names;
pub mod response_walk;
pub mod start;
pub mod told_request;
pub mod told_response;
pub mod walk;
