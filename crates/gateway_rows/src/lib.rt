//! The gateway's decisions: each a table, of which the first row that holds counts. Pure functions of what is known at a step.
#![tactic(auto)]

pub mod bodies;
pub mod looks;
pub mod responses;
pub mod waits;
