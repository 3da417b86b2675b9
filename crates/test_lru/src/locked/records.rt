//! Calls of recorded shards with their replies, and what is kept of them.

use pingora_lru::call::{Kept, LruCall, Reply};
use pingora_lru::{RecordedLru, RecordedUnit};
use std::alloc::Global;
use std::hash::{BuildHasherDefault, FoldHasher};
use std::sync::Wait;

/// A call, and what it must return.
type Row = (LruCall<u32>, Reply<u32>);

/// A row that is updated by a value and a weight, and one that is added so.
const UPDATES: &[Row] = &[
    (LruCall::Admit(2, 20, 2), Reply::Admitted(0)),
    (LruCall::Admit(4, 40, 4), Reply::Admitted(0)),
    (LruCall::UpdateOrAdmit(2, 21, 5), Reply::Updated(Some(2), 5)),
    (LruCall::UpdateOrAdmit(6, 60, 0), Reply::Updated(None, 1)),
    (LruCall::UpdateOrAdmit(4, 41, 0), Reply::Updated(Some(4), 1)),
];

const EDITS: &[Row] = &[
    (LruCall::InsertTail(1, 10, 0), Reply::Inserted(true)),
    (LruCall::InsertTail(1, 11, 5), Reply::Inserted(false)),
    (
        LruCall::IncrementWeight(3, 30, 4, Some(2)),
        Reply::Incremented(0, 2, true),
    ),
    (
        LruCall::IncrementWeight(1, 12, 4, None),
        Reply::Incremented(0, 4, false),
    ),
    (LruCall::PromoteTopN(3, 2), Reply::Promoted(true)),
    (LruCall::Promote(9), Reply::Promoted(false)),
    (LruCall::SetWeight(3, 6), Reply::WeightSet(Some(2))),
    (LruCall::Evict, Reply::Taken(Some((30, 6)))),
    (LruCall::Remove(3), Reply::Taken(None)),
    (LruCall::Remove(1), Reply::Taken(Some((10, 4)))),
    (LruCall::Evict, Reply::Taken(None)),
];

fn is_kept(kept: &Kept, row: &Row) -> bool {
    kept.call == row.0.bare() && kept.reply == row.1.bare()
}

/// Whether a record has just these calls and replies.
fn keeps(kept: &[Kept], rows: &[Row]) -> bool {
    let mut rest = kept.iter();
    for row in rows {
        match rest.next() {
            Some(found) => {
                if !is_kept(found, row) {
                    return false;
                }
            }
            None => return false,
        }
    }
    rest.next().is_none()
}

/// Whether a call of a shard returns what it must.
fn unit_steps(unit: &mut RecordedUnit<u32>, row: &Row) -> bool {
    match row.0.clone() {
        Ok(call) => match unit.step(call) {
            Ok(reply) => reply == row.1,
            Err(_) => false,
        },
        Err(_) => false,
    }
}

fn unit_does_all(unit: &mut RecordedUnit<u32>, rows: &[Row]) -> bool {
    for row in rows {
        if !unit_steps(unit, row) {
            return false;
        }
    }
    keeps(unit.kept(), rows)
}

/// Whether each call of a shard returns what it must, and the record keeps them.
fn unit_does(alloc: Global, rows: &[Row]) -> bool {
    let hasher: BuildHasherDefault<FoldHasher> = BuildHasherDefault::new();
    match RecordedUnit::with_hasher(alloc, hasher, 4, 99) {
        Ok(mut unit) => unit_does_all(&mut unit, rows),
        Err(_) => false,
    }
}

type List = RecordedLru<u32, 1>;

fn list_adds<R: Wait>(rt: &R, list: &List, call: &LruCall<u32>) -> bool {
    match *call {
        LruCall::Admit(key, item, weight) => list.admit(rt, key, item, weight).is_ok(),
        LruCall::InsertTail(key, item, weight) => list.insert_tail(rt, key, item, weight).is_ok(),
        LruCall::IncrementWeight(key, item, delta, cap) => list
            .increment_weight(rt, key, || item, delta, cap)
            .is_ok(),
        LruCall::UpdateOrAdmit(key, item, weight) => list
            .update_or_admit(rt, key, |_: &mut u32, _: usize| weight, || (item, weight))
            .is_ok(),
        _ => false,
    }
}

/// Does a call by the list's method of its name, and returns whether it isn't refused.
fn list_does<R: Wait>(rt: &R, list: &List, call: &LruCall<u32>) -> bool {
    match *call {
        LruCall::SetWeight(key, weight) => list.set_weight(rt, key, weight).is_ok(),
        LruCall::Promote(key) => list.promote(rt, key).is_ok(),
        LruCall::PromoteTopN(key, top) => list.promote_top_n(rt, key, top).is_ok(),
        LruCall::Evict => list.evict_shard(rt, 0).is_ok(),
        LruCall::Remove(key) => list.remove(rt, key).is_ok(),
        _ => list_adds(rt, list, call),
    }
}

fn list_does_all<R: Wait>(rt: &R, list: &List, rows: &[Row]) -> bool {
    for row in rows {
        if !list_does(rt, list, &row.0) {
            return false;
        }
    }
    list.look(rt, 0, |kept: &[Kept]| keeps(kept, rows))
}

/// Whether a list keeps the calls that its methods do, with their replies.
fn list_keeps<R: Wait>(rt: &R, alloc: Global, rows: &[Row]) -> bool {
    match List::with_capacity(alloc, 99, 4) {
        Ok(list) => list_does_all(rt, &list, rows),
        Err(_) => false,
    }
}

/// Whether a shard and a list do.
fn both_keep<R: Wait>(rt: &R, alloc: Global, rows: &[Row]) -> bool {
    unit_does(alloc, rows) && list_keeps(rt, alloc, rows)
}

#[test]
fn a_list_keeps_the_calls_of_its_methods(rt: HostRuntime) {
    assert!(rt; both_keep(&rt, rt.alloc(), EDITS));
}

#[test]
fn a_shard_keeps_its_calls(rt: HostRuntime) {
    assert!(rt; unit_does(rt.alloc(), UPDATES));
}
