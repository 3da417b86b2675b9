//! Requests that are given up, look-ups of what is stale, and what is told in constant time; with each allocation refused in `refusals`.
use crate::asks::{Ask, event};
use crate::outcomes::Outcome;
use crate::trials::step;
use cache_lock::LockStatus;
use cache_words::time::Duration;
use rand_pcg::Pcg32;
use std::alloc::{AllocError, Global};
use tier_model::event::{Answer, LockGiven, TierFault};
use tier_single::Tier;

type One = Tier<1>;

// How a trial went.
#[derive(Clone, Copy, PartialEq, Eq)]
pub(crate) enum Came {
    Right,
    Wrong,
    // Memory ran out before.
    Refused,
}

fn came(holds: Option<bool>) -> Came {
    match holds {
        Some(true) => Came::Right,
        Some(false) => Came::Wrong,
        None => Came::Refused,
    }
}

fn made(alloc: Global) -> Result<One, AllocError> {
    One::new(alloc, 1000, None, Duration::from_seconds(10), None)
}

// Whether all that is asked comes out so; none where memory runs out.
fn ask_all(alloc: Global, tier: &mut One, asks: &[(Ask, Outcome)]) -> Option<bool> {
    for &(ask, want) in asks {
        match step(alloc, tier, ask) {
            Outcome::Unasked | Outcome::Refused | Outcome::TakenBack => return None,
            outcome if outcome == want => {}
            _ => return Some(false),
        }
    }
    Some(true)
}

// Whether a poll says that the permit's holder gave it up.
fn is_told_so(alloc: Global, tier: &mut One, request: u64) -> Option<bool> {
    let event = event(alloc, Ask::Poll(request))?;
    let answer = tier.step(&mut Pcg32::new(1, 1), &event);
    Some(matches!(answer, Ok(Answer::Waited(Some(LockStatus::GiveUp)))))
}

// Three ask for the permit, and one gets it.
const WAITING: &[(Ask, Outcome)] = &[
    (Ask::OpenLocked(1, b'a'), Outcome::Opened),
    (Ask::OpenLocked(2, b'a'), Outcome::Opened),
    (Ask::OpenLocked(3, b'a'), Outcome::Opened),
    (Ask::Look(1), Outcome::Absent(LockGiven::Write)),
    (Ask::Look(2), Outcome::Absent(LockGiven::Read)),
    (Ask::Look(3), Outcome::Absent(LockGiven::Read)),
    (Ask::Poll(2), Outcome::Pending),
];

// One gives it up, once, and the others go on. A wait is given up by none.
fn goes_on(alloc: Global, tier: &mut One) -> Option<bool> {
    if !ask_all(alloc, tier, WAITING)? {
        return Some(false);
    }
    let refused = matches!(tier.give_up(2), Err(TierFault::WrongPhase))
        && matches!(tier.give_up(9), Err(TierFault::NoRequest));
    let first = matches!(tier.give_up(1), Ok(Answer::Uncacheable(_)));
    let second = matches!(tier.give_up(1), Err(TierFault::WrongPhase));
    let told = is_told_so(alloc, tier, 2)? && is_told_so(alloc, tier, 3)?;
    Some(refused && first && second && told)
}

pub(crate) fn gives_up(alloc: Global) -> Came {
    match made(alloc) {
        Ok(mut tier) => came(goes_on(alloc, &mut tier)),
        Err(AllocError) => Came::Refused,
    }
}

const WRITTEN: &[(Ask, Outcome)] = &[
    (Ask::Open(1, b'a'), Outcome::Opened),
    (Ask::Look(1), Outcome::Absent(LockGiven::None)),
    (Ask::Begin(1), Outcome::Begun),
    (Ask::Piece(1, b"xx"), Outcome::Written),
];

const FOUND: &[(Ask, Outcome)] = &[
    (Ask::Finish(1), Outcome::Finished(2, 0)),
    (Ask::Open(2, b'a'), Outcome::Opened),
    (Ask::OpenLocked(3, b'a'), Outcome::Opened),
];

// What is fresh is found as stale, without a permit, and not with the lock.
fn is_stale(tier: &mut One) -> Option<bool> {
    let locked = matches!(tier.lookup_stale(3), Err(TierFault::WrongPhase));
    match tier.lookup_stale(2) {
        Ok(
            (
                Answer::Found {
                    fresh: false,
                    complete: true,
                    lock: LockGiven::None,
                },
                Some(_),
            ),
        ) => Some(locked),
        Err(TierFault::Memory(_)) => None,
        _ => Some(false),
    }
}

// A write in flight has the size of what came, and a body that was found its length until it is read.
fn is_told(alloc: Global, tier: &mut One) -> Option<bool> {
    let before = tier.write_size(1) == None && tier.weight() == (0, 0);
    if !before || !ask_all(alloc, tier, WRITTEN)? {
        return Some(false);
    }
    let written = tier.write_size(1) == Some(2) && tier.found_len(1) == None;
    if !written || !ask_all(alloc, tier, FOUND)? {
        return Some(false);
    }
    let report = tier.report();
    let weighs = tier.weight() == (report.weight, report.tracked) && report.tracked == 1;
    if !weighs || !is_stale(tier)? {
        return Some(false);
    }
    let len = tier.found_len(2) == Some(2);
    let read = ask_all(alloc, tier, &[(Ask::Read(2), Outcome::Read(true))])?;
    Some(len && read && tier.found_len(2) == None)
}

pub(crate) fn tells(alloc: Global) -> Came {
    match made(alloc) {
        Ok(mut tier) => came(is_told(alloc, &mut tier)),
        Err(AllocError) => Came::Refused,
    }
}

#[test]
fn who_waits_for_what_is_given_up_goes_on(rt: HostRuntime) {
    assert!(rt; gives_up(rt.alloc()) == Came::Right);
}

#[test]
fn what_is_fresh_is_found_as_stale(rt: HostRuntime) {
    assert!(rt; tells(rt.alloc()) == Came::Right);
}
