//! What comes from an origin: the head of a response and what its row says, its body, and how its connection ends.
#![tactic(auto)]

pub mod closing;
mod confirming;
mod growth;
mod handing;
mod heard;
pub mod origin_body;
pub mod origin_head;
mod taking;
