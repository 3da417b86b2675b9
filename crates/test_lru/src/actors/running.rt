//! Calls of lists with their threads running, and what they answer.

use crate::actors::made::{Plan, comes_to, generators, received};
use crate::actors::worlds;
use crossbeam_channel::Receiver;
use lru_async::{AsyncLru, Event, Message, World, hash_key};
use std::alloc::Global;
use std::sync::Wait;
use std::thread::Threads;

type List = AsyncLru<u32, 1>;

/// A call, and what it must answer.
#[derive(Clone, Copy)]
enum Step {
    Admit(u32, usize),
    InsertTail(u32, usize),
    /// The same, with whether its hash was new.
    InsertChecked(u32, usize, bool),
    Increment(u32, usize, usize),
    Remove(u32),
    RemoveByHash(u32),
    Promote(u32, bool),
    Peek(u32, bool),
    PeekWeight(u32, Option<usize>),
    PeekLru(Option<(u32, usize)>),
    /// The rows of the shard, most recent first.
    Rows(&'static [(u32, usize)]),
    /// The weight of the shard.
    Weight(usize),
}

/// Messages that are the same in a world.
const ORDER: &[Step] = &[
    Step::Admit(1, 1),
    Step::Admit(2, 1),
    Step::Admit(3, 1),
    Step::Promote(1, true),
    Step::Remove(2),
];

const CALLS: &[Step] = &[
    Step::PeekLru(None),
    Step::Admit(1, 0),
    Step::InsertTail(2, 0),
    Step::InsertTail(1, 9),
    Step::InsertChecked(1, 9, false),
    Step::Rows(&[(1, 1), (2, 0)]),
    Step::PeekLru(Some((2, 0))),
    Step::Increment(2, 7, 5),
    Step::Increment(3, 7, 10),
    Step::Rows(&[(3, 7), (2, 5), (1, 1)]),
    Step::Weight(13),
    Step::Promote(1, true),
    Step::Promote(4, false),
    Step::Peek(2, true),
    Step::RemoveByHash(2),
    Step::Peek(2, false),
    Step::PeekWeight(3, Some(7)),
    Step::Remove(3),
    Step::PeekWeight(3, None),
    Step::Rows(&[(1, 1)]),
    Step::InsertChecked(5, 3, true),
    Step::Rows(&[(1, 1), (5, 3)]),
    Step::Remove(5),
];

/// Returns a list without callbacks, whose tables may have a start of the caller's, and the receiver of its evicted pairs.
fn built<R: Threads + Wait + Copy + Send + 'static>(
    rt: &R,
    alloc: Global,
    limit: usize,
    start: Option<u64>,
) -> Option<(List, Receiver<(u32, usize)>)> {
    let plan = Plan {
        limit,
        mark: None,
        capacity: 4,
        workers: 1,
        start,
    };
    received(rt, alloc, plan, generators(alloc, 1)?)
}

fn has_rows<R: Wait>(rt: &R, list: &List, rows: &[(u32, usize)]) -> bool {
    match list.snapshot_shard(rt, 0) {
        Ok(pairs) => pairs.as_slice() == rows,
        Err(_) => false,
    }
}

/// Whether a call answers what it must.
fn does<R: Wait>(rt: &R, list: &List, step: Step) -> bool {
    match step {
        Step::Admit(key, weight) => list.admit(rt, key, weight) == Ok(0),
        Step::InsertTail(key, weight) => list.insert_tail(rt, key, weight) == Ok(0),
        Step::InsertChecked(key, weight, is_new) => {
            list.insert_tail_checked(rt, key, weight).ok() == Some(is_new)
        }
        Step::Increment(key, delta, cap) => {
            list.increment_weight(rt, &key, delta, Some(cap)) == Ok(())
        }
        Step::Remove(key) => list.remove(rt, &key) == Ok(()),
        Step::RemoveByHash(key) => list.remove_by_hash(rt, hash_key(&key)) == Ok(()),
        Step::Promote(key, found) => list.promote(rt, &key) == Ok(found),
        Step::Peek(key, found) => list.peek(rt, &key) == Ok(found),
        Step::PeekWeight(key, weight) => list.peek_weight(rt, &key) == Ok(weight),
        Step::PeekLru(last) => list.peek_lru(rt, 0) == Ok(last),
        Step::Rows(rows) => has_rows(rt, list, rows),
        Step::Weight(weight) => list.shard_weight(rt, 0) == Ok(weight),
    }
}

/// Whether each call of a table answers what it must.
fn all_do<R: Wait>(rt: &R, list: &List, steps: &[Step]) -> bool {
    for &step in steps {
        if !does(rt, list, step) {
            return false;
        }
    }
    true
}

/// The message of a call, of those that a world gets too.
fn message_of(step: Step) -> Option<Message<u32>> {
    match step {
        Step::Admit(key, weight) => Some(Message::Admit(hash_key(&key), key, weight)),
        Step::Promote(key, _) => Some(Message::Promote(hash_key(&key))),
        Step::Remove(key) => Some(Message::Remove(hash_key(&key))),
        _ => None,
    }
}

/// Whether a world, whose actor applies each message once it is sent, has these rows after the messages.
fn world_has(world: &mut World<u32, 1>, steps: &[Step], rows: &[(u32, usize)]) -> bool {
    for &step in steps {
        let is_applied = match message_of(step) {
            Some(message) => {
                world.step(Event::Send(message)).is_ok() && world.step(Event::Act(0)).is_ok()
            }
            None => false,
        };
        if !is_applied {
            return false;
        }
    }
    worlds::has_rows(world, 0, rows)
}

/// Whether a new world has these rows after the messages.
fn new_world_has(alloc: Global, steps: &[Step], rows: &[(u32, usize)]) -> bool {
    match World::new(alloc, 100, None) {
        Ok(mut world) => world_has(&mut world, steps, rows),
        Err(_) => false,
    }
}

/// Whether the rows of a list, which weigh 2, are those of a world after the same messages, which are these.
fn is_as_a_world<R: Threads + Wait + Copy + Send + 'static>(
    rt: &R,
    alloc: Global,
    rows: &[(u32, usize)],
) -> Option<bool> {
    let (list, _pairs) = built(rt, alloc, 100, None)?;
    let is_same = all_do(rt, &list, ORDER)
        && has_rows(rt, &list, rows)
        && list.shard_weight(rt, 0) == Ok(2);
    list.shutdown(rt);
    Some(is_same && new_world_has(alloc, ORDER, rows))
}

/// Whether a list, whose tables may have a start of the caller's, answers its calls as it must, and has one row then that weighs 1, and
/// nothing was evicted.
fn answers<R: Threads + Wait + Copy + Send + 'static>(
    rt: &R,
    alloc: Global,
    start: Option<u64>,
    steps: &[Step],
) -> Option<bool> {
    let (list, _pairs) = built(rt, alloc, 100, start)?;
    let all = all_do(rt, &list, steps);
    list.trigger_eviction(rt);
    let left = comes_to(&list, (1, 1), (0, 0))
        && list.shard_len(0) == 1
        && !list.is_empty()
        && !list.over_limit()
        && list.shards() == 1
        && list.weight_limit() == 100;
    list.shutdown(rt);
    Some(all && left)
}

const PASSING: &[Step] = &[Step::Admit(1, 1), Step::Admit(2, 2), Step::Admit(3, 2)];

/// Whether the rows past a limit are evicted in order, and those that the closed channel refuses count too.
fn evicts<R: Threads + Wait + Copy + Send + 'static>(rt: &R, alloc: Global) -> Option<bool> {
    let (list, pairs) = built(rt, alloc, 2, Some(7))?;
    let in_order = all_do(rt, &list, PASSING)
        && pairs.recv(rt).ok() == Some((1, 1))
        && pairs.recv(rt).ok() == Some((2, 2));
    drop(pairs);
    let counted = list.admit(rt, 4, 1) == Ok(0)
        && comes_to(&list, (1, 1), (5, 3))
        && list.peek_lru(rt, 0) == Ok(Some((4, 1)));
    list.shutdown(rt);
    Some(in_order && counted)
}

#[test]
fn async_ignores_messages(rt: HostRuntime) {
    assert!(rt; is_as_a_world(&rt, rt.alloc(), &[(1, 1), (3, 1)]) == Some(true));
}

#[test]
fn calls_answer_and_evicted_pairs_come_in_order(rt: HostRuntime) {
    assert!(rt; answers(&rt, rt.alloc(), None, CALLS) == Some(true));
    assert!(rt; answers(&rt, rt.alloc(), Some(7), CALLS) == Some(true));
    assert!(rt; evicts(&rt, rt.alloc()) == Some(true));
}
