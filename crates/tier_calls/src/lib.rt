//! All calls of a cache tier as functions of numbers, bytes and plain structs, such as a program in C can make: one function a call, with one struct
//! that tells what came of it. The crate `cache_tier_c` exports them.
//!
//! Its contract: what a call of an event tells is what the tier answers to that event (`IsAnswered`); arguments out of range are refused with
//! nothing done.
//! `cache_tier_c` exports it to C.
#![tactic(auto)]

mod arguments;
pub mod held;
pub mod keeps;
mod lends;
pub mod made;
pub mod shards;
pub mod statuses;
pub mod structs;
pub mod told;
