//! What a gateway does at the tier, and what exchanges at a key learn of one another.
#![tactic(auto)]

pub mod at_tier;
pub mod looks;
pub mod moving;
pub mod notices;
pub mod purging;
mod superseding;
pub mod vary;
pub mod waking;
pub mod writing;
