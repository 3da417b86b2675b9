//! Each refused growth in turn.
mod files;
mod over_bodies;
mod over_tags;
mod over_writes;
mod served;

use crate::asks::Ask;
use crate::given_up::{Came, gives_up, tells};
use crate::outcomes::Outcome;
use crate::runs::{ASKS, FOUR};
use crate::trials::{Held, Row, Trial, try_out};
use std::alloc::Global;
use tier_model::event::LockGiven;

const PUT: Row = Row {
    limit: 54,
    before: &[Ask::Put(b'a', b"xx"), Ask::Open(1, b'a')],
    ask: Ask::Put(b'b', b"xxxxx"),
    want: Outcome::Finished(5, 2),
    after: &[(Ask::Look(1), Outcome::Absent(LockGiven::None))],
    refused: &[
        (Ask::Look(1), Outcome::Found),
        (Ask::Put(b'b', b"xxxxx"), Outcome::Finished(5, 2)),
    ],
    taken_back: &[
        (Ask::Look(1), Outcome::Found),
        (Ask::Purge(b'b'), Outcome::Purged(false)),
        (Ask::Put(b'b', b"xxxxx"), Outcome::Finished(5, 2)),
    ],
    evicted: 0,
    cut_short: &[],
};

const OPEN: Row = Row {
    limit: 104,
    before: &[],
    ask: Ask::OpenLocked(1, b'a'),
    want: Outcome::Opened,
    after: &[(Ask::Look(1), Outcome::Absent(LockGiven::Write))],
    refused: &[
        (Ask::Look(1), Outcome::NoRequest),
        (Ask::OpenLocked(1, b'a'), Outcome::Opened),
        (Ask::Look(1), Outcome::Absent(LockGiven::Write)),
    ],
    taken_back: &[],
    evicted: 0,
    cut_short: &[],
};

const LOOK: Row = Row {
    limit: 208,
    before: &[Ask::Put(b'a', b"xx"), Ask::Open(1, b'a')],
    ask: Ask::Look(1),
    want: Outcome::Found,
    after: &[(Ask::Look(1), Outcome::WrongPhase)],
    refused: &[(Ask::Look(1), Outcome::Found)],
    taken_back: &[],
    evicted: 0,
    cut_short: &[],
};

// A refused look gives no permit away: the next one gets it.
const LOOK_LOCKED: Row = Row {
    limit: 208,
    before: &[Ask::OpenLocked(1, b'a'), Ask::OpenLocked(2, b'a')],
    ask: Ask::Look(1),
    want: Outcome::Absent(LockGiven::Write),
    after: &[
        (Ask::Look(2), Outcome::Absent(LockGiven::Read)),
        (Ask::Poll(2), Outcome::Pending),
    ],
    refused: &[
        (Ask::Look(2), Outcome::Absent(LockGiven::Write)),
        (Ask::Look(1), Outcome::Absent(LockGiven::Read)),
    ],
    taken_back: &[],
    evicted: 0,
    cut_short: &[],
};

// A refused begin keeps the permit.
const BEGIN: Row = Row {
    limit: 208,
    before: &[
        Ask::OpenLocked(1, b'a'),
        Ask::OpenLocked(2, b'a'),
        Ask::Look(1),
        Ask::Look(2),
    ],
    ask: Ask::Begin(1),
    want: Outcome::Begun,
    after: &[(Ask::Read(1), Outcome::Pending)],
    refused: &[
        (Ask::Poll(2), Outcome::Pending),
        (Ask::Read(1), Outcome::WrongPhase),
        (Ask::Begin(1), Outcome::Begun),
    ],
    taken_back: &[],
    evicted: 0,
    cut_short: &[],
};

const PIECE: Row = Row {
    limit: 208,
    before: &[Ask::Open(1, b'a'), Ask::Look(1), Ask::Begin(1)],
    ask: Ask::Piece(1, b"xx"),
    want: Outcome::Written,
    after: &[(Ask::Read(1), Outcome::Read(true))],
    refused: &[
        (Ask::Read(1), Outcome::Pending),
        (Ask::Piece(1, b"xx"), Outcome::Written),
    ],
    taken_back: &[],
    evicted: 0,
    cut_short: &[],
};

const READ: Row = Row {
    limit: 208,
    before: &[
        Ask::Open(1, b'a'),
        Ask::Look(1),
        Ask::Begin(1),
        Ask::Piece(1, b"xx"),
    ],
    ask: Ask::Read(1),
    want: Outcome::Read(true),
    after: &[(Ask::Read(1), Outcome::Pending)],
    refused: &[(Ask::Read(1), Outcome::Read(true))],
    taken_back: &[],
    evicted: 0,
    cut_short: &[],
};

// After a refusal that did nothing the write goes on; else the request has none any more.
const FINISH: Row = Row {
    limit: 54,
    before: &[
        Ask::Put(b'b', b"xx"),
        Ask::Open(1, b'a'),
        Ask::Open(2, b'b'),
        Ask::Look(1),
        Ask::Begin(1),
        Ask::Piece(1, b"xxxxx"),
    ],
    ask: Ask::Finish(1),
    want: Outcome::Finished(5, 2),
    after: &[(Ask::Look(2), Outcome::Absent(LockGiven::None))],
    refused: &[
        (Ask::Look(2), Outcome::Found),
        (Ask::Finish(1), Outcome::Finished(5, 2)),
    ],
    taken_back: &[
        (Ask::Look(2), Outcome::Found),
        (Ask::Finish(1), Outcome::WrongPhase),
        (Ask::Purge(b'a'), Outcome::Purged(false)),
    ],
    evicted: 0,
    cut_short: &[],
};

// A wait, and a body that was found.
const WAITING: &[Ask] = &[
    Ask::OpenLocked(1, b'a'),
    Ask::OpenLocked(2, b'a'),
    Ask::Look(1),
    Ask::Look(2),
    Ask::Put(b'b', b"xx"),
    Ask::Open(3, b'b'),
    Ask::Look(3),
];

// What takes no memory then.
const FREE: &[(Ask, Outcome)] = &[
    (Ask::Poll(2), Outcome::Pending),
    (Ask::Drop(2), Outcome::Dropped),
    (Ask::Read(3), Outcome::Read(true)),
    (Ask::Drop(1), Outcome::Dropped),
];

fn row_held(alloc: Global, row: Row) -> Held {
    try_out(alloc, row.limit, Trial::Call(row))
}

#[test]
fn a_refused_put_leaves_all(rt: HostRuntime) {
    assert!(rt; row_held(rt.alloc(), PUT) != Held::Broken);
}

#[test]
fn a_refused_open_leaves_all(rt: HostRuntime) {
    assert!(rt; row_held(rt.alloc(), OPEN) != Held::Broken);
}

#[test]
fn a_refused_look_leaves_all(rt: HostRuntime) {
    let looked = row_held(rt.alloc(), LOOK);
    assert!(rt; looked != Held::Broken && row_held(rt.alloc(), LOOK_LOCKED) != Held::Broken);
}

#[test]
fn a_refused_begin_leaves_all(rt: HostRuntime) {
    assert!(rt; row_held(rt.alloc(), BEGIN) != Held::Broken);
}

#[test]
fn a_refused_piece_leaves_all(rt: HostRuntime) {
    assert!(rt; row_held(rt.alloc(), PIECE) != Held::Broken);
}

#[test]
fn a_refused_read_leaves_all(rt: HostRuntime) {
    assert!(rt; row_held(rt.alloc(), READ) != Held::Broken);
}

#[test]
fn a_refused_finish_leaves_all(rt: HostRuntime) {
    assert!(rt; row_held(rt.alloc(), FINISH) != Held::Broken);
}

#[test]
fn polls_reads_and_drops_take_no_memory(rt: HostRuntime) {
    let held = try_out(rt.alloc(), 104, Trial::Steps(WAITING, FREE));
    assert!(rt; matches!(held, Held::Answered | Held::Refused));
}

#[test]
fn a_request_is_given_up_without_memory(rt: HostRuntime) {
    assert!(rt; gives_up(rt.alloc()) != Came::Wrong);
}

#[test]
fn a_refused_look_up_of_what_is_stale_finds_nothing_else(rt: HostRuntime) {
    assert!(rt; tells(rt.alloc()) != Came::Wrong);
}

// It takes more memory than each test of a refused growth, since its two tiers take more calls than those of any of them, and fails where
// it meets a refusal: so a run with one allocation failing in which it passes met none.
#[test]
fn ample_memory_meets_no_refusal(rt: HostRuntime) {
    let ran = try_out(rt.alloc(), 208, Trial::Run(FOUR, ASKS));
    assert!(rt; ran == Held::Answered && row_held(rt.alloc(), FINISH) == Held::Answered);
}
