//! What a client is sent of a body: which bytes of it are next, and how they are framed (RFC 9112, 6.3, 7.1; RFC 9110, 14, 15.3.7). Pure functions
//! over bytes and numbers, without a state and without a store.
#![tactic(auto)]

pub mod chunks;
pub mod laws;
pub mod parts;
pub mod pieces;
