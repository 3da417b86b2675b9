//! Gathering.
use crate::pass::Pass;
use std::sync::ledger::Ledger;

/// What was gathered so far.
#[derive(Clone, Copy, PartialEq, Eq, Debug)]
pub struct Gathered {
    /// The passes that are not gathered yet.
    pub outstanding: u64,
    /// The length of the history.
    pub records: u64,
}

/// Why passes were not gathered.
#[derive(Clone, Copy, PartialEq, Eq, Debug)]
pub enum GatherFault {
    /// A pass isn't what the history has of its caller: from that turn on. Or it is of another tier, a pass of that caller was gathered
    /// before, or two of one caller were handed in: the turn is 0 then.
    PassDiffers { caller: u64, turn: u64 },
    /// The growth of a part was refused.
    Memory,
}

/// Passes that were not gathered, as they were.
#[derive(Drop)]
pub struct NotGathered<L: Ledger> {
    pub fault: GatherFault,
    pub passes: Vec<Pass<L>>,
}
