//! What is kept of each call, by the tier and by its caller.
use crate::event::SharedEvent;
use crate::note::Note;

/// One call, as the tier's history keeps it.
#[derive(Drop)]
pub struct Record {
    /// Who called: the number of the caller's pass.
    pub caller: u64,
    /// How many calls the caller had made before.
    pub turn: u64,
    pub event: SharedEvent,
    pub note: Note,
}

/// One call, as its caller's pass keeps it.
#[derive(Drop)]
pub struct CallerRecord {
    pub event: SharedEvent,
    pub note: Note,
}

/// What is known of one caller.
#[derive(Clone, Copy)]
pub struct Seat {
    /// How many calls it made.
    pub records: u64,
    /// Whether its pass was gathered. It makes no call then.
    pub is_gathered: bool,
}
