//! Events and answers of the tier, what its histories mean, and the plain state that comes of them.
//!
//! Its contracts are laws: what each state allows, call by call, changes bodies, order of use and lock in order, and the state after it
//! is what the history says (`lawful_states_tell_their_history`). `tier_promise` says in one file what the answers mean, and proves it of
//! each such history; `tier_single` proves that `Tier` does nothing that its state doesn't allow.
#![tactic(auto)]

pub mod event;
pub mod laws;
pub mod report;
pub mod state;
pub mod whole;
