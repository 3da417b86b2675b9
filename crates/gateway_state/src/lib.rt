//! What a gateway is made of: its rules, its tier and its exchanges; and its calls at the tier.
#![tactic(auto)]

pub mod at_tier;
pub mod laws;
mod outcomes;
pub mod state;
pub mod whole;
