//! A tier that threads share, under one lock.
//!
//! `SharedTier` keeps the history of its calls, so that `close` tells what each caller did. `CountedTier`, for a program that runs for long,
//! counts its calls and keeps none.
//!
//! Its contract is that of `SharedTier::close`: each gathered pass has just what the history has of its caller. Of `CountedTier::close` it is that some
//! events, as many as the calls, lead from the opening to the tier (`IsCounted`).
//! Programs of threads call it (`example_threads`).
#![tactic(auto)]

pub mod counted;
pub mod counted_shared;
pub mod laws;
pub mod shared;

pub use counted::{CallPass, Counted};
pub use counted_shared::CountedTier;
pub use shared::{NotShared, SharedTier};
pub use tier_recorded::event::SharedEvent;
pub use tier_recorded::history::{CallerRecord, Record};
pub use tier_recorded::note::{AnswerNote, DoneNote, FaultNote, Note, noted};
pub use tier_recorded::recorded::LEDGER_PARTS;
pub use tier_recorded::same::is_same_event;
pub use tier_recorded::same_note::is_same_note;
pub use tier_recorded::{
    GatherFault, Gathered, NotGathered, Pass, PassFault, Recorded, ShardTexts, Snapshot, SpentPass,
    TierOptions,
};
