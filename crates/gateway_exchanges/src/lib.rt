//! What a gateway keeps: the open exchanges by number and by key, with what goes on for each, its limits, and what a call answers.
#![tactic(auto)]

pub mod exchange;
pub mod found;
pub mod kept;
pub mod limits;
pub mod outs;
pub mod table;
pub mod tails;
