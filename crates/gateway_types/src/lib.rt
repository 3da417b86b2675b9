//! What the gateway's tables take and give: states of an exchange, what is known of a step, and the verdict. Plain data; nothing here decides.
#![tactic(auto)]

pub mod bodies;
pub mod looks;
pub mod responses;
pub mod states;
pub mod waits;
