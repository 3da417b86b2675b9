//! The parts of a head (RFC 9112, 2 to 6): where it ends, its start line, its field lines, how its body ends, and where a request goes.
//!
//! `http1_message` reads heads by them.
#![tactic(auto)]

pub mod body;
pub mod end;
pub mod end_to_end;
pub mod host;
pub mod query;
pub mod reason;
pub mod rows;
pub mod scan;
pub mod start;
pub mod target;
pub mod text;
pub mod via;
