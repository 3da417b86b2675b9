//! Each refused growth of calls on bodies that are there.
use super::row_held;
use crate::asks::Ask;
use crate::outcomes::Outcome;
use crate::trials::{Held, Row};
use std::alloc::Global;
use tier_model::event::LockGiven;

// The body that is there is kept, and then replaced.
const PUT_OVER: Row = Row {
    limit: 208,
    before: &[Ask::Put(b'a', b"xx"), Ask::Open(1, b'a')],
    ask: Ask::Put(b'a', b"xxxxx"),
    want: Outcome::Finished(5, 0),
    after: &[
        (Ask::Look(1), Outcome::Found),
        (Ask::Read(1), Outcome::Read(false)),
    ],
    refused: &[
        (Ask::Look(1), Outcome::Found),
        (Ask::Read(1), Outcome::Read(true)),
        (Ask::Put(b'a', b"xxxxx"), Outcome::Finished(5, 0)),
    ],
    taken_back: &[],
    evicted: 0,
    cut_short: &[],
};

// A refused look at something stale hands the permit back: the same look gets it.
const LOOK_STALE: Row = Row {
    limit: 208,
    before: &[
        Ask::PutStale(b'a', b"xx"),
        Ask::OpenLocked(1, b'a'),
        Ask::OpenLocked(2, b'a'),
    ],
    ask: Ask::Look(1),
    want: Outcome::Stale(LockGiven::Write),
    after: &[
        (Ask::Look(2), Outcome::Stale(LockGiven::Read)),
        (Ask::Poll(2), Outcome::Pending),
    ],
    refused: &[
        (Ask::Read(1), Outcome::WrongPhase),
        (Ask::Look(1), Outcome::Stale(LockGiven::Write)),
        (Ask::Look(2), Outcome::Stale(LockGiven::Read)),
        (Ask::Poll(2), Outcome::Pending),
    ],
    taken_back: &[],
    evicted: 0,
    cut_short: &[],
};

// A refused begin over something stale keeps the permit and what was found.
const BEGIN_STALE: Row = Row {
    limit: 208,
    before: &[
        Ask::PutStale(b'a', b"xx"),
        Ask::OpenLocked(1, b'a'),
        Ask::OpenLocked(2, b'a'),
        Ask::Look(1),
        Ask::Look(2),
    ],
    ask: Ask::Begin(1),
    want: Outcome::Begun,
    after: &[(Ask::Read(1), Outcome::Pending)],
    refused: &[
        (Ask::Poll(2), Outcome::Pending),
        (Ask::Read(1), Outcome::Read(true)),
        (Ask::Begin(1), Outcome::Begun),
        (Ask::Read(1), Outcome::Pending),
    ],
    taken_back: &[],
    evicted: 0,
    cut_short: &[],
};

// A refused revalidation keeps the permit, what was found and its head.
const REVALIDATE: Row = Row {
    limit: 208,
    before: &[
        Ask::PutStale(b'a', b"xx"),
        Ask::OpenLocked(1, b'a'),
        Ask::OpenLocked(2, b'a'),
        Ask::Look(1),
        Ask::Look(2),
    ],
    ask: Ask::Revalidate(1),
    want: Outcome::Revalidated(0),
    after: &[
        (Ask::Read(1), Outcome::Read(true)),
        (Ask::Revalidate(1), Outcome::WrongPhase),
        (Ask::Open(3, b'a'), Outcome::Opened),
        (Ask::Look(3), Outcome::Found),
    ],
    refused: &[
        (Ask::Poll(2), Outcome::Pending),
        (Ask::Open(3, b'a'), Outcome::Opened),
        (Ask::Look(3), Outcome::Stale(LockGiven::None)),
        (Ask::Revalidate(1), Outcome::Revalidated(0)),
        (Ask::Read(1), Outcome::Read(true)),
        (Ask::Open(4, b'a'), Outcome::Opened),
        (Ask::Look(4), Outcome::Found),
    ],
    taken_back: &[],
    evicted: 0,
    cut_short: &[],
};

// Six evictions for its head. Where memory runs out among them, the body is gone with its entry, and so is what was evicted until then.
const REVALIDATE_OVER_EIGHT: Row = Row {
    limit: 408,
    before: &[
        Ask::PutStale(b'a', b"x"),
        Ask::Put(b'b', b"x"),
        Ask::Put(b'c', b"x"),
        Ask::Put(b'd', b"x"),
        Ask::Put(b'e', b"x"),
        Ask::Put(b'f', b"x"),
        Ask::Put(b'g', b"x"),
        Ask::Put(b'h', b"x"),
        Ask::Open(1, b'a'),
        Ask::Look(1),
    ],
    ask: Ask::RevalidateLong(1),
    want: Outcome::Revalidated(6),
    after: &[
        (Ask::Purge(b'g'), Outcome::Purged(false)),
        (Ask::Purge(b'h'), Outcome::Purged(true)),
        (Ask::Open(2, b'a'), Outcome::Opened),
        (Ask::Look(2), Outcome::Found),
    ],
    refused: &[(Ask::RevalidateLong(1), Outcome::Revalidated(6))],
    taken_back: &[
        (Ask::RevalidateLong(1), Outcome::WrongPhase),
        (Ask::Read(1), Outcome::Read(false)),
        (Ask::Purge(b'a'), Outcome::Purged(false)),
        (Ask::Purge(b'b'), Outcome::Purged(true)),
    ],
    evicted: 4,
    cut_short: &[
        (Ask::RevalidateLong(1), Outcome::WrongPhase),
        (Ask::Read(1), Outcome::Read(false)),
        (Ask::Purge(b'a'), Outcome::Purged(false)),
        (Ask::Purge(b'e'), Outcome::Purged(false)),
        (Ask::Purge(b'f'), Outcome::Purged(true)),
    ],
};

// What weighs as much as six bodies of one byte, each with the 50 of its meta.
const HEAVY: &[u8] = &[b'x'; 256];

// Six evictions for it. The list of those evicted grows at the fifth, and what it has then is gone: the others stay.
const FINISH_OVER_EIGHT: Row = Row {
    limit: 408,
    before: &[
        Ask::Put(b'a', b"x"),
        Ask::Put(b'b', b"x"),
        Ask::Put(b'c', b"x"),
        Ask::Put(b'd', b"x"),
        Ask::Put(b'e', b"x"),
        Ask::Put(b'f', b"x"),
        Ask::Put(b'g', b"x"),
        Ask::Put(b'h', b"x"),
        Ask::Open(1, b'i'),
        Ask::Look(1),
        Ask::Begin(1),
        Ask::Piece(1, HEAVY),
    ],
    ask: Ask::Finish(1),
    want: Outcome::Finished(256, 6),
    after: &[
        (Ask::Purge(b'f'), Outcome::Purged(false)),
        (Ask::Purge(b'g'), Outcome::Purged(true)),
        (Ask::Purge(b'h'), Outcome::Purged(true)),
        (Ask::Purge(b'i'), Outcome::Purged(true)),
    ],
    refused: &[(Ask::Finish(1), Outcome::Finished(256, 6))],
    taken_back: &[
        (Ask::Finish(1), Outcome::WrongPhase),
        (Ask::Put(b'i', HEAVY), Outcome::Finished(256, 6)),
    ],
    evicted: 4,
    cut_short: &[
        (Ask::Finish(1), Outcome::WrongPhase),
        (Ask::Purge(b'i'), Outcome::Purged(false)),
        (Ask::Purge(b'd'), Outcome::Purged(false)),
        (Ask::Open(2, b'e'), Outcome::Opened),
        (Ask::Look(2), Outcome::Found),
        (Ask::Put(b'i', HEAVY), Outcome::Finished(256, 2)),
        (Ask::Purge(b'e'), Outcome::Purged(true)),
        (Ask::Purge(b'h'), Outcome::Purged(true)),
        (Ask::Purge(b'g'), Outcome::Purged(false)),
    ],
};

#[test]
fn a_refused_put_over_a_body_leaves_it(rt: HostRuntime) {
    assert!(rt; row_held(rt.alloc(), PUT_OVER) != Held::Broken);
}

#[test]
fn a_refused_look_at_something_stale_hands_the_permit_back(rt: HostRuntime) {
    assert!(rt; row_held(rt.alloc(), LOOK_STALE) != Held::Broken);
}

#[test]
fn a_refused_begin_over_something_stale_leaves_all(rt: HostRuntime) {
    assert!(rt; row_held(rt.alloc(), BEGIN_STALE) != Held::Broken);
}

#[test]
fn a_refused_revalidation_leaves_all(rt: HostRuntime) {
    assert!(rt; row_held(rt.alloc(), REVALIDATE) != Held::Broken);
}

#[test]
fn a_revalidation_that_memory_cuts_short_takes_the_body(rt: HostRuntime) {
    assert!(rt; row_held(rt.alloc(), REVALIDATE_OVER_EIGHT) != Held::Broken);
}

#[test]
fn a_finish_that_memory_cuts_short_lists_what_it_evicted(rt: HostRuntime) {
    assert!(rt; row_held(rt.alloc(), FINISH_OVER_EIGHT) != Held::Broken);
}

const ROWS: &[Row] = &[
    PUT_OVER,
    LOOK_STALE,
    BEGIN_STALE,
    REVALIDATE,
    REVALIDATE_OVER_EIGHT,
    FINISH_OVER_EIGHT,
];

fn are_answered(alloc: Global) -> bool {
    let mut all = true;
    for &row in ROWS {
        all = row_held(alloc, row) == Held::Answered && all;
    }
    all
}

#[test]
fn ample_memory_meets_no_refusal(rt: HostRuntime) {
    assert!(rt; are_answered(rt.alloc()));
}
