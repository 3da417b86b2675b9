//! Writes that are given up and finished, with and without their last piece, and what their readers are told.
use super::rows::{Step, Target};
use cache_store::storage::PurgeOutcome;

pub(super) const TOLD: &[Step] = &[
    // Given up before its end came.
    Step::Begin(1300),
    Step::Look(false, false),
    Step::Told(false, None),
    Step::Piece(b"ab", false, None),
    Step::Bytes(false, b"ab"),
    Step::Told(false, None),
    Step::Look(true, false),
    Step::Leave,
    Step::Told(false, Some(false)),
    Step::Told(true, None),
    Step::Bytes(true, b"ab"),
    Step::Told(true, Some(false)),
    Step::End(true),
    // With its last piece, and given up after that.
    Step::Begin(1300),
    Step::Look(false, false),
    Step::Piece(b"cd", true, None),
    Step::Told(false, None),
    Step::Bytes(false, b"cd"),
    Step::Told(false, Some(true)),
    Step::Look(true, false),
    Step::Leave,
    Step::Told(false, Some(true)),
    Step::Told(true, None),
    Step::Bytes(true, b"cd"),
    Step::Told(true, Some(true)),
    // Finished without a piece that is marked as the last.
    Step::Begin(1300),
    Step::Look(false, false),
    Step::Piece(b"ef", false, None),
    Step::Look(true, false),
    Step::Bytes(false, b"ef"),
    Step::Told(false, None),
    Step::Finish(Some((2, 32))),
    Step::Told(false, Some(true)),
    Step::Told(true, None),
    Step::Bytes(true, b"ef"),
    Step::Told(true, Some(true)),
    // Removed, so that its end is refused.
    Step::Begin(1300),
    Step::Look(true, false),
    Step::Piece(b"g", false, None),
    Step::Bytes(true, b"g"),
    Step::Purge(Target::Key, PurgeOutcome::Purged(None)),
    Step::Told(true, None),
    Step::Finish(None),
    Step::Told(true, Some(false)),
    // The store has no such write.
    Step::MoveOn,
    Step::Told(true, Some(false)),
];
