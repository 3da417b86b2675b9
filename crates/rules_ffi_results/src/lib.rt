//! What the calls of HTTP's rules tell: numbers of statuses, marks and reasons, whole heads, Cache-Status, what is stored, and bodies as they come.
#![tactic(auto)]

pub mod body;
pub mod chunk;
pub mod encoding;
pub mod heads;
pub mod how;
pub mod keeping;
pub mod laws;
pub mod marks;
pub mod parts;
pub mod phrases;
pub mod reasons;
pub mod sending;
pub mod trailers;
