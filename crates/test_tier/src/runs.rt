//! Runs of events, tiers that start from a folder, and what a tier lends.
use crate::asks::Ask;
use crate::outcomes::Outcome;
use crate::trials::{Held, Trial, try_out};
use std::alloc::Global;
use tier_model::event::LockGiven;

const LOOK: &[(Ask, Outcome)] = &[(Ask::Look(1), Outcome::NoRequest)];

#[test]
fn a_run_without_memory_does_nothing(rt: HostRuntime) {
    assert!(rt; try_out(rt.alloc(), 104, Trial::Run(&[], LOOK)) != Held::Broken);
}

#[test]
fn a_store_is_lent(rt: HostRuntime) {
    assert!(rt; try_out(rt.alloc(), 104, Trial::Store) != Held::Broken);
}

// An event that is refused leaves no trace.
const OPENED: &[(Ask, Outcome)] = &[
    (Ask::Look(1), Outcome::NoRequest),
    (Ask::Open(1, b'a'), Outcome::Opened),
];

#[test]
fn a_tier_that_started_is_new_until_an_event(rt: HostRuntime) {
    assert!(rt; try_out(rt.alloc(), 104, Trial::Start(OPENED)) == Held::Answered);
}

// What is asked of an empty tier, and whether it is new then, and holds nothing but its order of use.
const NEW: &[(&[Ask], bool, bool)] = &[
    (&[], true, true),
    (&[Ask::Open(1, b'a')], false, false),
    (&[Ask::Open(1, b'a'), Ask::Drop(1)], true, true),
    (
        &[Ask::Open(1, b'a'), Ask::Look(1), Ask::Drop(1)],
        false,
        false,
    ),
    (&[Ask::Put(b'a', b"xx")], false, false),
    (&[Ask::Put(b'a', b"xx"), Ask::Purge(b'a')], true, true),
    (
        &[Ask::Put(b'a', b"xx"), Ask::PurgeTagged(b'a')],
        false,
        true,
    ),
];

fn are_as_told(alloc: Global) -> bool {
    let mut all = true;
    for &(asks, is_new, has_only_order) in NEW {
        all = try_out(alloc, 104, Trial::New(asks, is_new, has_only_order)) == Held::Answered
            && all;
    }
    all
}

// What is asked of an empty tier, and until when the head is fresh that a look-up finds then: of the write in flight, without one of
// the finished body.
const SHOWN: &[(&[Ask], Option<i64>)] = &[
    (&[Ask::Open(1, b'a')], None),
    (&[Ask::Put(b'a', b"xx")], Some(107)),
    (&[Ask::PutStale(b'a', b"xx")], Some(6)),
    (&[Ask::Put(b'b', b"xx")], None),
    (&[Ask::Put(b'a', b"xx"), Ask::Purge(b'a')], None),
    (
        &[
            Ask::PutStale(b'a', b"xx"),
            Ask::Open(1, b'a'),
            Ask::Look(1),
            Ask::Begin(1),
        ],
        Some(107),
    ),
    (
        &[
            Ask::Open(1, b'a'),
            Ask::Look(1),
            Ask::Begin(1),
            Ask::Purge(b'a'),
        ],
        None,
    ),
];

fn are_shown(alloc: Global) -> bool {
    let mut all = true;
    for &(asks, until) in SHOWN {
        all = try_out(alloc, 104, Trial::Shown(asks, until)) == Held::Answered && all;
    }
    all
}

#[test]
fn the_head_of_what_is_found_is_shown(rt: HostRuntime) {
    assert!(rt; are_shown(rt.alloc()));
}

// An entry that stays tracked after its body went under another tag is a past.
#[test]
fn a_new_tier_tracks_nothing(rt: HostRuntime) {
    assert!(rt; are_as_told(rt.alloc()));
}

// A reader that comes before a write's pieces, and one that comes after them.
const READERS: &[(Ask, Outcome)] = &[
    (Ask::Open(1, b'a'), Outcome::Opened),
    (Ask::Look(1), Outcome::Absent(LockGiven::None)),
    (Ask::Begin(1), Outcome::Begun),
    (Ask::Open(2, b'a'), Outcome::Opened),
    (Ask::Look(2), Outcome::Partial),
    (Ask::Read(2), Outcome::Pending),
    (Ask::Piece(1, b"xx"), Outcome::Written),
    (Ask::Read(2), Outcome::Read(true)),
    (Ask::Read(2), Outcome::Pending),
    (Ask::Piece(1, b"xx"), Outcome::Written),
    (Ask::Read(2), Outcome::Read(true)),
    (Ask::Read(2), Outcome::Pending),
    (Ask::Open(3, b'a'), Outcome::Opened),
    (Ask::Look(3), Outcome::Partial),
    (Ask::Finish(1), Outcome::Finished(4, 0)),
    (Ask::Read(2), Outcome::Ended),
    (Ask::Read(3), Outcome::Read(false)),
    (Ask::Read(3), Outcome::Ended),
];

#[test]
fn a_reader_waits_for_each_piece(rt: HostRuntime) {
    assert!(rt; try_out(rt.alloc(), 104, Trial::Steps(&[], READERS)) == Held::Answered);
}

// A body that is hit under another tag: what is tracked weighs it twice, its bytes with the 50 of its meta. By what weighs too much then the first
// is evicted.
const WEIGHTS: &[(Ask, Outcome, u64, usize)] = &[
    (Ask::Put(b'a', b"xxx"), Outcome::Finished(3, 0), 53, 0),
    (Ask::OpenTagged(1, b'a'), Outcome::Opened, 53, 0),
    (Ask::Look(1), Outcome::Found, 106, 0),
    (Ask::Read(1), Outcome::Read(false), 106, 0),
    (Ask::Put(b'b', b"x"), Outcome::Finished(1, 1), 104, 53),
];

#[test]
fn an_entry_weighs_what_its_body_does(rt: HostRuntime) {
    assert!(rt; try_out(rt.alloc(), 104, Trial::Weights(WEIGHTS)) == Held::Answered);
}

pub(crate) const FOUR: &[Ask] = &[
    Ask::Put(b'a', b"xx"),
    Ask::Put(b'b', b"xx"),
    Ask::Put(b'c', b"xx"),
    Ask::Put(b'd', b"xx"),
];

// What is asked of a tier with four bodies in one run, and what comes of each.
pub(crate) const ASKS: &[(Ask, Outcome)] = &[
    (Ask::Put(b'e', &[b'x'; 106]), Outcome::Finished(106, 3)),
    (Ask::Open(2, b'e'), Outcome::Opened),
    (Ask::Look(2), Outcome::Found),
    (Ask::Read(2), Outcome::Read(false)),
    (Ask::OpenLocked(3, b'f'), Outcome::Opened),
    (Ask::OpenLocked(4, b'f'), Outcome::Opened),
    (Ask::Look(3), Outcome::Absent(LockGiven::Write)),
    (Ask::Look(4), Outcome::Absent(LockGiven::Read)),
    (Ask::Poll(4), Outcome::Pending),
    (Ask::Begin(3), Outcome::Begun),
    (Ask::Piece(3, b"xx"), Outcome::Written),
    (Ask::Read(3), Outcome::Read(true)),
    (Ask::Finish(3), Outcome::Finished(2, 1)),
    (Ask::Drop(3), Outcome::Dropped),
    (Ask::Purge(b'f'), Outcome::Purged(true)),
];
