//! Runs of sizes: which of many sizes hold a body that is still fresh, in one pass over requests.
//!
//! An entry that is asked for is loaded at some sizes, where it isn't held or is stale, and not at the others. So it has a moment for
//! each size: from which on its last load there is stale. Neighbours mostly have the same, and are kept as one run.
//!
//! Its contract is that of `FreshTable::ask`: the moment that each size has then, and what is counted as found fresh.
//! `curve_timed` asks it once a request.
#![tactic(auto)]

mod counts;
mod fault;
mod run;
mod spans;
mod table;
mod tally;

pub use fault::RunsFault;
pub use run::{Load, Run, renew};
pub use spans::Spans;
pub use table::FreshTable;
