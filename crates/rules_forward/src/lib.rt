//! What goes to the origin, and what a response to an unsafe request makes out of date (RFC 9110, 7.6; RFC 9111, 4.3.1 and 4.4).
#![tactic(auto)]

pub mod forward;
pub mod purge;
pub mod send;
