//! A gateway as programs in C hold it: what calls are given and answer as words, and what an answer lends.
#![tactic(auto)]

pub mod answers;
pub mod held;
pub mod items;
pub mod numbers;
pub mod requests;
pub mod structs;
