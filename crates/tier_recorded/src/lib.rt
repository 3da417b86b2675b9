//! A tier with the history of its calls, and passes by which many callers share it: what a lock keeps.
//!
//! Its contract: the history of a `Recorded`, replayed from its opening, gives its tier (`IsReplayed`).
//! `tier_shared` and `tier_shared` keep it under a lock.
#![tactic(auto)]

mod differs;
pub mod event;
pub mod gather;
pub mod history;
pub mod hits;
pub mod laws;
mod marks;
pub mod note;
pub mod pass;
pub mod recorded;
pub mod same;
pub mod same_note;
pub mod snapshot;

pub use gather::{GatherFault, Gathered, NotGathered};
pub use pass::{Pass, PassFault, SpentPass};
pub use recorded::Recorded;
pub use snapshot::{ShardTexts, Snapshot};
pub use tier_single::TierOptions;
