//! Edits of lists under locks, with a record and without, each with its answer.

use pingora_lru::{Lru, RecordedLru};
use std::sync::Wait;

/// A call that changes one shard, and its answer, if it isn't refused.
#[derive(Clone, Copy)]
pub(crate) enum Edit {
    Admit(u64, u32, usize, Option<usize>),
    InsertTail(u64, u32, usize, Option<bool>),
    /// The key, its data if it is new, what is added, the cap.
    Increment(u64, u32, usize, Option<usize>, Option<usize>),
    /// Adds 1 to the data of the key and sets its weight, or inserts the data with it.
    Update(u64, u32, usize, Option<Option<usize>>),
    /// Adds 1 to the data of the key and so much to its weight, or inserts the pair.
    Raise(u64, usize, (u32, usize), Option<Option<usize>>),
    SetWeight(u64, usize, Option<Option<usize>>),
    Promote(u64, bool),
    PromoteTopN(u64, usize, bool),
    Remove(u64, Option<(u32, usize)>),
}

/// What an update sets, after it added 1 to the data.
fn changed(data: &mut u32, weight: usize) -> usize {
    *data = data.wrapping_add(1);
    weight
}

/// What an update sets that weighs more.
fn raised(data: &mut u32, weight: usize, by: usize) -> usize {
    *data = data.wrapping_add(1);
    weight.saturating_add(by)
}

/// An update that sets a weight, or adds to it, by a list without a record.
fn plain_updates<R: Wait, const N: usize>(rt: &R, list: &Lru<u32, N>, edit: Edit) -> bool {
    match edit {
        Edit::Update(key, item, weight, old) => {
            let update = |data: &mut u32, _: usize| changed(data, weight);
            list.update_or_admit(rt, key, update, || (item, weight))
                .ok()
                == old
        }
        Edit::Raise(key, by, new, old) => {
            let update = |data: &mut u32, weight: usize| raised(data, weight, by);
            list.update_or_admit(rt, key, update, || new).ok() == old
        }
        _ => false,
    }
}

fn plain_adds<R: Wait, const N: usize>(rt: &R, list: &Lru<u32, N>, edit: Edit) -> bool {
    match edit {
        Edit::Admit(key, item, weight, shard) => list.admit(rt, key, item, weight).ok() == shard,
        Edit::InsertTail(key, item, weight, added) => {
            list.insert_tail(rt, key, item, weight).ok() == added
        }
        Edit::Increment(key, item, delta, cap, weight) => {
            list.increment_weight(rt, key, || item, delta, cap).ok() == weight
        }
        _ => false,
    }
}

fn plain_uses<R: Wait, const N: usize>(rt: &R, list: &Lru<u32, N>, edit: Edit) -> bool {
    match edit {
        Edit::SetWeight(key, weight, old) => list.set_weight(rt, key, weight).ok() == old,
        Edit::Promote(key, found) => list.promote(rt, key) == found,
        Edit::PromoteTopN(key, top, found) => list.promote_top_n(rt, key, top) == found,
        Edit::Remove(key, gone) => list.remove(rt, key) == gone,
        _ => false,
    }
}

/// Whether an edit of a list without a record gives its answer: each of these is false of the edits that it doesn't do.
pub(crate) fn plain_edits<R: Wait, const N: usize>(rt: &R, list: &Lru<u32, N>, edit: Edit) -> bool {
    plain_adds(rt, list, edit) || plain_updates(rt, list, edit) || plain_uses(rt, list, edit)
}

/// The same updates by a list with a record.
fn recorded_updates<R: Wait, const N: usize>(
    rt: &R,
    list: &RecordedLru<u32, N>,
    edit: Edit,
) -> bool {
    match edit {
        Edit::Update(key, item, weight, old) => {
            let update = |data: &mut u32, _: usize| changed(data, weight);
            list.update_or_admit(rt, key, update, || (item, weight))
                .ok()
                == old
        }
        Edit::Raise(key, by, new, old) => {
            let update = |data: &mut u32, weight: usize| raised(data, weight, by);
            list.update_or_admit(rt, key, update, || new).ok() == old
        }
        _ => false,
    }
}

fn recorded_adds<R: Wait, const N: usize>(rt: &R, list: &RecordedLru<u32, N>, edit: Edit) -> bool {
    match edit {
        Edit::Admit(key, item, weight, shard) => list.admit(rt, key, item, weight).ok() == shard,
        Edit::InsertTail(key, item, weight, added) => {
            list.insert_tail(rt, key, item, weight).ok() == added
        }
        Edit::Increment(key, item, delta, cap, weight) => {
            list.increment_weight(rt, key, || item, delta, cap).ok() == weight
        }
        _ => false,
    }
}

fn recorded_uses<R: Wait, const N: usize>(rt: &R, list: &RecordedLru<u32, N>, edit: Edit) -> bool {
    match edit {
        Edit::SetWeight(key, weight, old) => list.set_weight(rt, key, weight).ok() == old,
        Edit::Promote(key, found) => list.promote(rt, key).ok() == Some(found),
        Edit::PromoteTopN(key, top, found) => list.promote_top_n(rt, key, top).ok() == Some(found),
        Edit::Remove(key, gone) => list.remove(rt, key).ok() == Some(gone),
        _ => false,
    }
}

/// The same of a list with a record.
pub(crate) fn recorded_edits<R: Wait, const N: usize>(
    rt: &R,
    list: &RecordedLru<u32, N>,
    edit: Edit,
) -> bool {
    recorded_adds(rt, list, edit)
        || recorded_updates(rt, list, edit)
        || recorded_uses(rt, list, edit)
}
