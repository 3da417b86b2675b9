//! Steps of a world of actors, and what they leave.

ghost use Rattle.std.specs.Prelude.{◌<◌};

use lru_async::{Event, Message, Outcome, StepFault, World};
use seeded_hashing::SeededState;
use std::alloc::Global;
use std::hash::BuildHasher;

/// A step, and what it must answer.
#[derive(Clone, Copy)]
enum Step {
    /// A key of that weight is admitted under itself; its shard.
    Admit(u32, usize, usize),
    /// A key of that weight is put last.
    InsertTail(u32, usize),
    Promote(u32),
    Remove(u32),
    /// Weight is added, up to a cap.
    Increment(u32, usize, usize),
    /// The actor of that shard acts: whether a message waited.
    Act(usize, bool),
    /// By these words a pair is evicted, or not.
    Evict(u64, u64, bool),
    /// The pair to call back with.
    CallBack(u32, usize),
    /// No pair waits.
    NoCallBack,
    /// The rows of that shard, most recent first.
    Rows(usize, &'static [(u32, usize)]),
}

/// Steps from no rows, and what they leave: the pairs that wait for their callbacks, and the rows of shard 0.
struct Row {
    steps: &'static [Step],
    dispatch: &'static [(u32, usize)],
    rows: &'static [(u32, usize)],
}

const A: Step = Step::Admit(0, 1, 0);

const B: Step = Step::Admit(2, 1, 0);

const ACT: Step = Step::Act(0, true);

/// A start of the caller's.
const OWN: SeededState = SeededState { word: 7 };

/// One shard and a limit of 1.
const TIGHT: &[Row] = &[
    Row {
        steps: &[A, B, ACT, ACT, Step::Evict(0, 0, true)],
        dispatch: &[(0, 1)],
        rows: &[(2, 1)],
    },
    Row {
        steps: &[A, B, ACT, Step::Evict(0, 0, false), ACT],
        dispatch: &[],
        rows: &[(2, 1), (0, 1)],
    },
    Row {
        steps: &[
            A,
            B,
            ACT,
            Step::Evict(0, 0, false),
            ACT,
            Step::Evict(0, 0, true),
        ],
        dispatch: &[(0, 1)],
        rows: &[(2, 1)],
    },
    Row {
        steps: &[
            A,
            B,
            ACT,
            ACT,
            Step::Evict(0, 0, true),
            Step::CallBack(0, 1),
            Step::NoCallBack,
        ],
        dispatch: &[],
        rows: &[(2, 1)],
    },
    Row {
        steps: &[
            Step::Act(0, false),
            A,
            Step::InsertTail(2, 0),
            ACT,
            ACT,
            Step::Promote(2),
            ACT,
        ],
        dispatch: &[],
        rows: &[(2, 0), (0, 1)],
    },
    Row {
        steps: &[
            Step::Increment(4, 7, 5),
            A,
            ACT,
            ACT,
            Step::Remove(0),
            ACT,
            Step::Act(0, false),
        ],
        dispatch: &[],
        rows: &[(4, 5)],
    },
];

/// Two shards and a limit of 1.
const TWO: &[Row] = &[
    Row {
        steps: &[
            A,
            Step::Admit(1, 1, 1),
            Step::Admit(3, 1, 1),
            Step::Act(1, true),
            Step::Rows(1, &[(1, 1)]),
            ACT,
            Step::Act(0, false),
            Step::Act(1, true),
            Step::Rows(1, &[(3, 1), (1, 1)]),
            Step::Evict(0, 1, true),
            Step::Rows(1, &[(3, 1)]),
            Step::Evict(1, 0, true),
            Step::Rows(1, &[]),
            Step::Evict(1, 0, false),
        ],
        dispatch: &[(1, 1), (3, 1)],
        rows: &[(0, 1)],
    },
    Row {
        steps: &[
            A,
            Step::Admit(1, 1, 1),
            ACT,
            Step::Act(1, true),
            Step::Evict(2, 3, true),
            Step::CallBack(0, 1),
            Step::Rows(1, &[(1, 1)]),
            Step::Promote(1),
            Step::Act(0, false),
            Step::Act(1, true),
        ],
        dispatch: &[],
        rows: &[],
    },
];

/// The event of a step, if it is one: a key's hash is the key itself.
fn event_of(step: Step) -> Option<Event<u32>> {
    match step {
        Step::Admit(key, weight, _) => Some(Event::Send(Message::Admit(key as u64, key, weight))),
        Step::InsertTail(key, weight) => {
            Some(Event::Send(Message::InsertTail(key as u64, key, weight)))
        }
        Step::Promote(key) => Some(Event::Send(Message::Promote(key as u64))),
        Step::Remove(key) => Some(Event::Send(Message::Remove(key as u64))),
        Step::Increment(key, delta, cap) => {
            Some(Event::Send(Message::IncrementWeight(key as u64, key, delta, Some(cap))))
        }
        Step::Act(shard, _) => Some(Event::Act(shard)),
        Step::Evict(a, b, _) => Some(Event::Evict(a, b)),
        Step::CallBack(..) | Step::NoCallBack => Some(Event::CallBack),
        Step::Rows(..) => None,
    }
}

/// Whether this must come of a step.
fn is_told(found: Result<Outcome<u32>, StepFault<u32>>, step: Step) -> bool {
    match found {
        Ok(Outcome::Sent(shard)) => match step {
            Step::Admit(_, _, to) => shard == to,
            Step::InsertTail(..) | Step::Promote(_) | Step::Remove(_) | Step::Increment(..) => true,
            _ => false,
        },
        Ok(Outcome::Applied) => matches!(step, Step::Act(_, true)),
        Ok(Outcome::Evicted) => matches!(step, Step::Evict(_, _, true)),
        Ok(Outcome::Called(key, weight)) => match step {
            Step::CallBack(wanted, heavy) => key == wanted && weight == heavy,
            _ => false,
        },
        Ok(Outcome::Nothing) => {
            matches!(
                step,
                Step::Act(_, false) | Step::Evict(_, _, false) | Step::NoCallBack
            )
        }
        Err(_) => false,
    }
}

/// Whether a world does a step as it must.
fn does<const N: usize, S: BuildHasher>(world: &mut World<u32, N, S>, step: Step) -> bool {
    if let Step::Rows(shard, rows) = step {
        return has_rows(world, shard, rows);
    }
    match event_of(step) {
        Some(event) => is_told(world.step(event), step),
        None => false,
    }
}

/// Whether a shard of the world has these rows.
pub fn has_rows<const N: usize, S: BuildHasher>(
    world: &World<u32, N, S>,
    shard: usize,
    rows: &[(u32, usize)],
) -> bool {
    let core = world.core();
    if shard >= core.shards() {
        return false;
    }
    let mut there = core.iter(shard);
    for pair in rows {
        match there.next() {
            Some((key, weight)) => {
                if *key != pair.0 || weight != pair.1 {
                    return false;
                }
            }
            None => return false,
        }
    }
    there.next().is_none()
}

/// Whether a world does the steps of a row, and has then the rows in shard 0 and the pairs that wait for their callbacks.
fn goes<const N: usize, S: BuildHasher + Drop>(mut world: World<u32, N, S>, row: &Row) -> bool {
    for &step in row.steps {
        if !does(&mut world, step) {
            return false;
        }
    }
    let mut there = world.dispatch().iter();
    for pair in row.dispatch {
        if there.next() != Some(pair) {
            return false;
        }
    }
    there.next().is_none() && has_rows(&world, 0, row.rows)
}

/// Whether a world of N shards of limit 1 does each row, under hashes with a fixed start and with one of the caller's.
fn all_go<const N: usize>(alloc: Global, rows: &[Row]) -> bool
    requires { 0 < N }
{
    for row in rows {
        let fixed = match World::<u32, N>::new(alloc, 1, None) {
            Ok(world) => goes(world, row),
            Err(_) => false,
        };
        let own = match World::<u32, N, SeededState>::with_hasher(alloc, OWN, 1, None) {
            Ok(world) => goes(world, row),
            Err(_) => false,
        };
        if !fixed || !own {
            return false;
        }
    }
    true
}

#[test]
fn a_tight_world_evicts_the_last_and_two_words_pick_the_shard(rt: HostRuntime) {
    assert!(rt; all_go::<1>(rt.alloc(), TIGHT));
    assert!(rt; all_go::<2>(rt.alloc(), TWO));
}
