//! What caches of all named limits hold at the end, and when each was full first, in one pass.
//!
//! While a cache puts nothing out it holds all entries that were asked for and not removed since. So it is full first where these pass
//! its limits, and a lesser limit is passed no later than a greater one. What it holds at the end are the entries that its limits hold
//! by their heights (`curve_sizes`).
//!
//! Its contract is that of `Filling`: for each limit how many entries are held, which moment lies longest back at which one of them was
//! asked for last, and which request was the first that put an entry out.
//! `curve_timed` hands it requests.
#![tactic(auto)]

mod filling;
mod full;
mod oldest;
pub mod row;
mod walk;

pub use filling::Filling;
pub use row::{Full, HeldRow};
