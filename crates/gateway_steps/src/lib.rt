//! One exchange of a gateway as a state machine: what of it the decisions go by, and how each step changes that. Neither the tier nor the rules' texts
//! are here: the crate above makes their calls, and tells the steps what came of them.
//!
//! Its contract: each step changes what its definition says, and no more; and in each state that steps lead to, `IsExchange` holds.
#![tactic(auto)]

mod asking;
mod bodies;
mod exchange;
pub mod laws;
mod leaving;
mod looking;
mod marks;
mod questions;
pub mod state;
mod tails;
mod tier;

pub use exchange::Exchange;
