//! A new tier and its events in one call.
use crate::asks::{Ask, event};
use crate::outcomes::{Outcome, outcome_of};
use cache_words::time::Duration;
use rand_core::SeedableRng;
use rand_pcg::Pcg64;
use std::alloc::Global;
use tier_model::event::{Event, LockGiven};
use tier_single::answers;

// A body is put, found and read, another one evicts it, and a purge finds that one.
const DAY: &[(Ask, Outcome)] = &[
    (Ask::Put(b'a', b"xx"), Outcome::Finished(2, 0)),
    (Ask::Open(1, b'a'), Outcome::Opened),
    (Ask::Look(1), Outcome::Found),
    (Ask::Read(1), Outcome::Read(true)),
    (Ask::Put(b'b', b"xx"), Outcome::Finished(2, 1)),
    (Ask::Look(1), Outcome::WrongPhase),
    (Ask::Drop(1), Outcome::Dropped),
    (Ask::Open(1, b'a'), Outcome::Opened),
    (Ask::Look(1), Outcome::Absent(LockGiven::None)),
    (Ask::Purge(b'b'), Outcome::Purged(true)),
];

fn events(alloc: Global) -> Option<Vec<Event>> {
    let mut events = Vec::new(alloc);
    for &(ask, _) in DAY {
        events.push(event(alloc, ask)?).ok()?;
    }
    Some(events)
}

// Whether a tier of one shard and room for one body answers so.
fn are_answered(alloc: Global) -> Option<bool> {
    let events = events(alloc)?;
    let mut rng = Pcg64::seed_from_u64(1);
    let age = Duration::from_seconds(10);
    let told = answers::<1, Pcg64>(alloc, &mut rng, 1000, Some(1), age, None, events.as_slice());
    let told = told.ok()?;
    let mut all = told.as_slice().len() == DAY.len();
    for (outcome, &(_, wanted)) in told.as_slice().iter().zip(DAY.iter()) {
        all = outcome_of(outcome) == wanted && all;
    }
    Some(all)
}

#[test]
fn a_new_tier_answers_a_day_of_events(rt: HostRuntime) {
    assert!(rt; are_answered(rt.alloc()) == Some(true));
}
