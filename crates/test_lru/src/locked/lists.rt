//! Calls of lists under locks, with a record and without, and what the record keeps.

use crate::locked::edits::Edit;
use crate::locked::looks::Look;
use crate::locked::shards::{Step, plain_does, recorded_does};
use pingora_lru::call::{Kept, LruCall, Reply};
use pingora_lru::{Lru, RecordedLru};
use std::alloc::Global;
use std::sync::Wait;
use std::thread;
use std::thread::Threads;

type Recorded = RecordedLru<u32, 1>;

/// Edits, and after each the rows and the weights of the shard and of the list.
const ROWS: &[Step] = &[
    Step::Edit(Edit::Admit(2, 20, 2, Some(0))),
    Step::Look(Look::Rows(0, &[(20, 2)], 2)),
    Step::Look(Look::Counts(1, 2, 0, 0)),
    Step::Edit(Edit::Admit(4, 40, 4, Some(0))),
    Step::Look(Look::Rows(0, &[(40, 4), (20, 2)], 6)),
    Step::Look(Look::Counts(2, 6, 0, 0)),
    Step::Edit(Edit::Raise(2, 3, (0, 0), Some(Some(2)))),
    Step::Look(Look::Rows(0, &[(21, 5), (40, 4)], 9)),
    Step::Look(Look::Counts(2, 9, 0, 0)),
    Step::Edit(Edit::Update(6, 60, 0, Some(None))),
    Step::Look(Look::Rows(0, &[(60, 1), (21, 5), (40, 4)], 10)),
    Step::Look(Look::Counts(3, 10, 0, 0)),
    Step::Edit(Edit::Update(4, 0, 0, Some(Some(4)))),
    Step::Look(Look::Rows(0, &[(41, 1), (60, 1), (21, 5)], 7)),
    Step::Look(Look::Counts(3, 7, 0, 0)),
];

/// The edits as they are kept, each update with the weight that it set.
const KEPT: &[Kept] = &[
    Kept {
        call: LruCall::Admit(2, (), 2),
        reply: Reply::Admitted(0),
    },
    Kept {
        call: LruCall::Admit(4, (), 4),
        reply: Reply::Admitted(0),
    },
    Kept {
        call: LruCall::UpdateOrAdmit(2, (), 5),
        reply: Reply::Updated(Some(2), 5),
    },
    Kept {
        call: LruCall::UpdateOrAdmit(6, (), 1),
        reply: Reply::Updated(None, 1),
    },
    Kept {
        call: LruCall::UpdateOrAdmit(4, (), 1),
        reply: Reply::Updated(Some(4), 1),
    },
];

/// Whether a record begins with these calls and replies.
fn begins(kept: &[Kept], first: &[Kept]) -> bool {
    let mut rest = kept.iter();
    for row in first {
        match rest.next() {
            Some(found) => {
                if found != row {
                    return false;
                }
            }
            None => return false,
        }
    }
    true
}

/// Whether the list keeps so many calls, of which the first are these.
fn keeps<R: Wait>(rt: &R, list: &Recorded, first: &[Kept], calls: usize) -> bool {
    list.look(
        rt,
        0,
        |kept: &[Kept]| kept.len() == calls && begins(kept, first),
    )
}

/// Promotes keys, and takes one out. Returns whether the record has room.
fn more_calls<R: Wait>(rt: &R, list: &Recorded, key: u64) -> bool {
    list.promote(rt, key).is_ok()
        && list.promote_top_n(rt, 2, 1).is_ok()
        && list.set_weight(rt, 6, 3).is_ok()
        && list.remove(rt, key).is_ok()
}

/// Whether the calls of two threads come after those that the list keeps.
fn two_call<R: Threads + Wait + Sync>(rt: &R, list: &Recorded, first: &[Kept]) -> bool {
    let before = keeps(rt, list, first, 5);
    let (one, two) = thread::join(rt, || more_calls(rt, list, 2), || more_calls(rt, list, 4));
    before && one && two && keeps(rt, list, first, 13) && list.len() == 1 && list.weight() == 3
}

fn plain_list_does<R: Wait>(rt: &R, alloc: Global, steps: &[Step]) -> bool {
    match Lru::<u32, 1>::with_capacity(alloc, 100, 4) {
        Ok(list) => plain_does(rt, alloc, &list, steps),
        Err(_) => false,
    }
}

fn recorded_list_does<R: Threads + Wait + Sync>(rt: &R, alloc: Global, steps: &[Step]) -> bool {
    match Recorded::with_capacity(alloc, 100, 4) {
        Ok(list) => recorded_does(rt, alloc, &list, steps) && two_call(rt, &list, KEPT),
        Err(_) => false,
    }
}

#[test]
fn a_list_under_locks_does_the_table(rt: HostRuntime) {
    assert!(rt; plain_list_does(&rt, rt.alloc(), ROWS));
}

#[test]
fn calls_of_two_threads_come_after_the_table(rt: HostRuntime) {
    assert!(rt; recorded_list_does(&rt, rt.alloc(), ROWS));
}
