//! Laws of HTTP's rules, over the definitions of several crates. No code runs.
#![tactic(auto)]

pub mod alike;
pub mod asking;
pub mod counted;
pub mod fetching;
pub mod heads;
pub mod parts;
pub mod using;
pub mod written;
