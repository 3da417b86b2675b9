//! Calls of lists of one shard and of two under locks, with a record and without, as one table for both.

use crate::locked::edits::{Edit, plain_edits, recorded_edits};
use crate::locked::looks::{
    Eviction, Look, plain_evicts, plain_looks, recorded_evicts, recorded_looks,
};
use pingora_lru::{Lru, RecordedLru};
use std::alloc::Global;
use std::sync::Wait;

/// A call with its answer, or a look.
#[derive(Clone, Copy)]
pub(crate) enum Step {
    Edit(Edit),
    Eviction(Eviction),
    Look(Look),
}

/// A list of one shard whose rows may weigh 6.
const ONE: &[Step] = &[
    Step::Look(Look::Last(0, None)),
    Step::Edit(Edit::Admit(1, 10, 2, Some(0))),
    Step::Edit(Edit::Admit(2, 20, 3, Some(0))),
    Step::Edit(Edit::InsertTail(4, 40, 1, Some(true))),
    Step::Look(Look::Rows(0, &[(20, 3), (10, 2), (40, 1)], 6)),
    Step::Look(Look::Last(0, Some((40, 1)))),
    Step::Eviction(Eviction::Step(0, 0, None)),
    Step::Eviction(Eviction::ToLimit(&[])),
    Step::Edit(Edit::Increment(1, 0, 2, None, Some(4))),
    Step::Eviction(Eviction::Step(7, 8, Some((40, 1)))),
    Step::Eviction(Eviction::ToLimit(&[(20, 3)])),
    Step::Look(Look::Rows(0, &[(10, 4)], 4)),
    Step::Look(Look::Counts(1, 4, 2, 4)),
    Step::Edit(Edit::Admit(2, 20, 18_446_744_073_709_551_615, None)),
    Step::Edit(Edit::Remove(1, Some((10, 4)))),
    Step::Eviction(Eviction::Shard(5, None)),
    Step::Look(Look::Counts(0, 0, 2, 4)),
];

/// A list of two shards, of three rows that may weigh 10.
const TWO: &[Step] = &[
    Step::Edit(Edit::Admit(1, 10, 0, Some(1))),
    Step::Edit(Edit::Admit(3, 30, 2, Some(1))),
    Step::Edit(Edit::InsertTail(2, 20, 0, Some(true))),
    Step::Edit(Edit::InsertTail(2, 21, 5, Some(false))),
    Step::Look(Look::Rows(0, &[(20, 0)], 0)),
    Step::Look(Look::Last(1, Some((10, 1)))),
    Step::Look(Look::Counts(3, 3, 0, 0)),
    Step::Eviction(Eviction::Step(0, 1, None)),
    Step::Edit(Edit::PromoteTopN(1, 2, true)),
    Step::Look(Look::Rows(1, &[(30, 2), (10, 1)], 3)),
    Step::Edit(Edit::PromoteTopN(1, 1, true)),
    Step::Look(Look::Rows(1, &[(10, 1), (30, 2)], 3)),
    Step::Edit(Edit::Promote(3, true)),
    Step::Edit(Edit::Promote(5, false)),
    Step::Look(Look::Rows(1, &[(30, 2), (10, 1)], 3)),
    Step::Edit(Edit::Increment(5, 50, 4, Some(3), Some(3))),
    Step::Edit(Edit::Increment(1, 0, 1, None, Some(2))),
    Step::Look(Look::Counts(4, 7, 0, 0)),
    Step::Eviction(Eviction::Step(0, 1, Some((30, 2)))),
    Step::Eviction(Eviction::Step(0, 1, None)),
    Step::Edit(Edit::SetWeight(1, 0, Some(Some(2)))),
    Step::Edit(Edit::SetWeight(9, 4, Some(None))),
    Step::Edit(Edit::SetWeight(1, 9_223_372_036_854_775_808, None)),
    Step::Look(Look::Rows(1, &[(10, 0), (50, 3)], 3)),
    Step::Edit(Edit::Update(5, 0, 6, Some(Some(3)))),
    Step::Edit(Edit::Update(5, 0, 9_223_372_036_854_775_808, None)),
    Step::Edit(Edit::Update(4, 40, 0, Some(None))),
    Step::Look(Look::Rows(1, &[(52, 6), (10, 0)], 6)),
    Step::Look(Look::Rows(0, &[(40, 1), (20, 0)], 1)),
    Step::Look(Look::Peek(4, true)),
    Step::Look(Look::Peek(6, false)),
    Step::Look(Look::Weight(5, Some(6))),
    Step::Look(Look::Weight(7, None)),
    Step::Edit(Edit::Remove(5, Some((52, 6)))),
    Step::Edit(Edit::Remove(5, None)),
    Step::Eviction(Eviction::Shard(3, Some((10, 0)))),
    Step::Eviction(Eviction::Shard(1, None)),
    Step::Look(Look::Counts(2, 1, 2, 2)),
    Step::Eviction(Eviction::Limit(1)),
    Step::Eviction(Eviction::Step(1, 1, None)),
    Step::Eviction(Eviction::Limit(0)),
    Step::Eviction(Eviction::ToLimit(&[(20, 0), (40, 1)])),
    Step::Look(Look::Counts(0, 0, 4, 3)),
];

/// Whether each step of a table gives its answer, by a list without a record.
pub(crate) fn plain_does<R: Wait, const N: usize>(
    rt: &R,
    alloc: Global,
    list: &Lru<u32, N>,
    steps: &[Step],
) -> bool {
    for &step in steps {
        let done = match step {
            Step::Edit(edit) => plain_edits(rt, list, edit),
            Step::Eviction(eviction) => plain_evicts(rt, alloc, list, eviction),
            Step::Look(look) => plain_looks(rt, list, look),
        };
        if !done {
            return false;
        }
    }
    list.shards() == N
}

/// The same by a list with a record.
pub(crate) fn recorded_does<R: Wait, const N: usize>(
    rt: &R,
    alloc: Global,
    list: &RecordedLru<u32, N>,
    steps: &[Step],
) -> bool {
    for &step in steps {
        let done = match step {
            Step::Edit(edit) => recorded_edits(rt, list, edit),
            Step::Eviction(eviction) => recorded_evicts(rt, alloc, list, eviction),
            Step::Look(look) => recorded_looks(rt, list, look),
        };
        if !done {
            return false;
        }
    }
    list.shards() == N
}

fn plain_of_one<R: Wait>(rt: &R, alloc: Global, steps: &[Step]) -> bool {
    match Lru::<u32, 1>::with_capacity(alloc, 6, 4) {
        Ok(list) => plain_does(rt, alloc, &list, steps),
        Err(_) => false,
    }
}

fn recorded_of_one<R: Wait>(rt: &R, alloc: Global, steps: &[Step]) -> bool {
    match RecordedLru::<u32, 1>::with_capacity(alloc, 6, 4) {
        Ok(list) => recorded_does(rt, alloc, &list, steps),
        Err(_) => false,
    }
}

/// Whether both lists of one shard do; false when out of memory.
fn of_one_shard<R: Wait>(rt: &R, alloc: Global, steps: &[Step]) -> bool {
    plain_of_one(rt, alloc, steps) && recorded_of_one(rt, alloc, steps)
}

fn plain_of_two<R: Wait>(rt: &R, alloc: Global, steps: &[Step]) -> bool {
    match Lru::<u32, 2>::with_capacity_and_watermark(alloc, 10, 4, Some(3)) {
        Ok(list) => plain_does(rt, alloc, &list, steps),
        Err(_) => false,
    }
}

fn recorded_of_two<R: Wait>(rt: &R, alloc: Global, steps: &[Step]) -> bool {
    match RecordedLru::<u32, 2>::with_capacity_and_watermark(alloc, 10, 4, Some(3)) {
        Ok(list) => recorded_does(rt, alloc, &list, steps),
        Err(_) => false,
    }
}

/// Whether both lists of two shards do, with a watermark of three rows.
fn of_two_shards<R: Wait>(rt: &R, alloc: Global, steps: &[Step]) -> bool {
    plain_of_two(rt, alloc, steps) && recorded_of_two(rt, alloc, steps)
}

#[test]
fn lists_of_one_shard_answer_row_by_row(rt: HostRuntime) {
    assert!(rt; of_one_shard(&rt, rt.alloc(), ONE));
}

#[test]
fn lists_of_two_shards_answer_row_by_row(rt: HostRuntime) {
    assert!(rt; of_two_shards(&rt, rt.alloc(), TWO));
}
