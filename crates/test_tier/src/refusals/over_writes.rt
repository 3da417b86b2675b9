//! Each refused growth of calls on writes in flight.
use super::row_held;
use crate::asks::Ask;
use crate::outcomes::Outcome;
use crate::trials::{Held, Row};
use std::alloc::Global;

// A refused look at a write leaves the request in its phase, without a reader.
const LOOK: Row = Row {
    limit: 208,
    before: &[
        Ask::Open(1, b'a'),
        Ask::Look(1),
        Ask::Begin(1),
        Ask::Piece(1, b"xx"),
        Ask::Open(2, b'a'),
    ],
    ask: Ask::Look(2),
    want: Outcome::Partial,
    after: &[
        (Ask::Look(2), Outcome::WrongPhase),
        (Ask::Read(2), Outcome::Read(true)),
    ],
    refused: &[
        (Ask::Read(2), Outcome::WrongPhase),
        (Ask::Look(2), Outcome::Partial),
        (Ask::Read(2), Outcome::Read(true)),
    ],
    taken_back: &[],
    evicted: 0,
    cut_short: &[],
};

// The finish of a write that was removed says so whatever memory there is: what would follow a refusal can't come.
const FINISH_REMOVED: Row = Row {
    limit: 208,
    before: &[
        Ask::OpenTagged(1, b'a'),
        Ask::Look(1),
        Ask::Begin(1),
        Ask::Piece(1, b"xx"),
        Ask::Purge(b'a'),
    ],
    ask: Ask::Finish(1),
    want: Outcome::WriteRemoved,
    after: &[
        (Ask::Finish(1), Outcome::WrongPhase),
        (Ask::Read(1), Outcome::Read(true)),
    ],
    refused: &[(Ask::Finish(1), Outcome::Opened)],
    taken_back: &[],
    evicted: 0,
    cut_short: &[],
};

#[test]
fn a_refused_look_at_a_write_leaves_all(rt: HostRuntime) {
    assert!(rt; row_held(rt.alloc(), LOOK) != Held::Broken);
}

#[test]
fn a_finish_of_a_removed_write_is_never_refused(rt: HostRuntime) {
    assert!(rt; row_held(rt.alloc(), FINISH_REMOVED) != Held::Broken);
}

fn are_answered(alloc: Global) -> bool {
    row_held(alloc, LOOK) == Held::Answered && row_held(alloc, FINISH_REMOVED) == Held::Answered
}

#[test]
fn ample_memory_meets_no_refusal(rt: HostRuntime) {
    assert!(rt; are_answered(rt.alloc()));
}
