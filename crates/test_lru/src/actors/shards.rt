//! Lists of four shards: where each call goes, limits that take effect, and two callers at once.

ghost use Rattle.std.specs.Prelude.{◌<◌};

use crate::actors::made::{called, generators, limited, received};
use crossbeam_channel::Receiver;
use lru_async::{AsyncLru, TailFault};
use lru_core::lru_unit::LruFault;
use std::alloc::Global;
use std::sync::Wait;
use std::thread;
use std::thread::Threads;

type List = AsyncLru<u32, 4>;

/// A call, and what it must answer.
#[derive(Clone, Copy)]
enum Step {
    /// A key of that weight is admitted; its shard.
    Admit(u32, usize, usize),
    /// A key of that weight is refused at the back, for its weight, and comes back.
    TooHeavy(u32, usize),
    Promote(u32, bool),
    PeekWeight(u32, Option<usize>),
    /// The last row of a shard.
    Last(usize, Option<(u32, usize)>),
    /// The rows of a shard, most recent first.
    Rows(usize, &'static [(u32, usize)]),
    /// The weight of a shard, and the number of its rows.
    Weighs(usize, usize, usize),
}

/// Two keys of each shard, and questions to each shard.
const CALLS: &[Step] = &[
    Step::Admit(5, 1, 0),
    Step::Admit(7, 2, 0),
    Step::Admit(8, 3, 1),
    Step::Admit(12, 4, 1),
    Step::Admit(0, 5, 2),
    Step::Admit(4, 6, 2),
    Step::Admit(1, 7, 3),
    Step::Admit(2, 8, 3),
    Step::Last(0, Some((5, 1))),
    Step::Last(1, Some((8, 3))),
    Step::Last(2, Some((0, 5))),
    Step::Last(3, Some((1, 7))),
    Step::PeekWeight(5, Some(1)),
    Step::PeekWeight(8, Some(3)),
    Step::PeekWeight(0, Some(5)),
    Step::PeekWeight(1, Some(7)),
    Step::Weighs(0, 3, 2),
    Step::Weighs(1, 7, 2),
    Step::Weighs(2, 11, 2),
    Step::Weighs(3, 15, 2),
    Step::Promote(5, true),
    Step::Promote(8, true),
    Step::Promote(0, true),
    Step::Promote(1, true),
    Step::Promote(3, false),
    Step::Rows(0, &[(5, 1), (7, 2)]),
    Step::Rows(1, &[(8, 3), (12, 4)]),
    Step::Rows(2, &[(0, 5), (4, 6)]),
    Step::Rows(3, &[(1, 7), (2, 8)]),
];

/// A shard's weight stays below a fourth of 2^64, so a message that would bring it past that is dropped.
const HEAVY: &[Step] = &[
    Step::Admit(5, usize::MAX / 4, 0),
    Step::Admit(7, 1, 0),
    Step::Admit(8, usize::MAX / 4 + 1, 1),
    Step::Admit(12, 1, 1),
    Step::TooHeavy(7, 1),
    Step::TooHeavy(0, usize::MAX / 4 + 1),
    Step::PeekWeight(7, None),
    Step::PeekWeight(8, None),
    Step::Weighs(0, usize::MAX / 4, 1),
    Step::Weighs(1, 1, 1),
];

/// What one of two callers asks, and what the other does.
const FIRST: &[Step] = &[
    Step::Admit(5, 1, 0),
    Step::Admit(8, 2, 1),
    Step::Admit(0, 3, 2),
    Step::Admit(1, 4, 3),
    Step::Promote(5, true),
    Step::PeekWeight(8, Some(2)),
    Step::PeekWeight(0, Some(3)),
    Step::Promote(1, true),
];

const SECOND: &[Step] = &[
    Step::Admit(2, 5, 3),
    Step::Admit(4, 6, 2),
    Step::Admit(12, 7, 1),
    Step::Admit(7, 8, 0),
    Step::PeekWeight(2, Some(5)),
    Step::Promote(4, true),
    Step::Promote(12, true),
    Step::PeekWeight(7, Some(8)),
];

/// What both leave.
const BOTH: &[Step] = &[
    Step::Weighs(0, 9, 2),
    Step::Weighs(1, 9, 2),
    Step::Weighs(2, 9, 2),
    Step::Weighs(3, 9, 2),
];

/// What two callers do at once, and what is asked then.
type Tables = (&'static [Step], &'static [Step], &'static [Step]);

const CALLED: Tables = (&[], &[], CALLS);

const WEIGHTY: Tables = (&[], &[], HEAVY);

const SHARED: Tables = (FIRST, SECOND, BOTH);

/// A limit on the weight, perhaps a watermark, and how many of eight rows of weight 2 go.
type Limits = (usize, Option<usize>, usize);

const LIMITS: &[Limits] = &[(7, None, 5), (100, Some(3), 5), (100, None, 0)];

fn has_rows<R: Wait>(rt: &R, list: &List, shard: usize, rows: &[(u32, usize)]) -> bool
    requires { shard < 4 }
{
    match list.snapshot_shard(rt, shard) {
        Ok(pairs) => pairs.as_slice() == rows,
        Err(_) => false,
    }
}

/// Whether a call answers what it must.
fn does<R: Wait>(rt: &R, list: &List, step: Step) -> bool {
    match step {
        Step::Admit(key, weight, shard) => list.admit(rt, key, weight) == Ok(shard),
        Step::TooHeavy(key, weight) => match list.insert_tail_checked(rt, key, weight) {
            Err(TailFault::Refused(LruFault::Weight(back))) => back == key,
            _ => false,
        },
        Step::Promote(key, found) => list.promote(rt, &key) == Ok(found),
        Step::PeekWeight(key, weight) => list.peek_weight(rt, &key) == Ok(weight),
        Step::Last(shard, last) => shard < 4 && list.peek_lru(rt, shard) == Ok(last),
        Step::Rows(shard, rows) => shard < 4 && has_rows(rt, list, shard, rows),
        Step::Weighs(shard, weight, len) => {
            shard < 4 && list.shard_weight(rt, shard) == Ok(weight) && list.shard_len(shard) == len
        }
    }
}

/// Whether each call of a table answers what it must.
fn all_do<R: Wait>(rt: &R, list: &List, steps: &[Step]) -> bool {
    for &step in steps {
        if !does(rt, list, step) {
            return false;
        }
    }
    true
}

/// Whether eight rows of weight 2 are admitted, and so many go, for so many turns at most, and no more.
fn evicts<R: Wait>(rt: &R, list: &List, gone: usize) -> bool {
    for key in 0..8 {
        if list.admit(rt, key, 2).is_err() {
            return false;
        }
    }
    for _ in 0..1_000_000 {
        let evicted = list.evicted_len();
        if evicted >= gone && list.len().wrapping_add(evicted) == 8 {
            return !list.over_limit() && evicted == gone;
        }
        list.trigger_eviction(rt);
        thread::yield_now();
    }
    false
}

/// Whether limits hold where what is evicted is called back with, and where it is received.
fn limit_holds<R: Threads + Wait + Copy + Send + 'static>(
    rt: &R,
    alloc: Global,
    limits: Limits,
) -> Option<bool> {
    let plan = limited(limits.0, limits.1, 4);
    let list: List = called(rt, alloc, plan, generators(alloc, 1)?)?;
    let holds = evicts(rt, &list, limits.2);
    list.shutdown(rt);
    let (list, _pairs): (List, Receiver<(u32, usize)>) = received(
        rt,
        alloc,
        plan,
        generators(alloc, 1)?,
    )?;
    let holds_received = evicts(rt, &list, limits.2);
    list.shutdown(rt);
    Some(holds && holds_received)
}

fn limits_hold<R: Threads + Wait + Copy + Send + 'static>(rt: &R, alloc: Global) -> bool {
    for &limits in LIMITS {
        if limit_holds(rt, alloc, limits) != Some(true) {
            return false;
        }
    }
    true
}

/// Whether two callers at once get their answers, and what is asked then is answered too.
fn two_do<R: Threads + Wait + Sync>(rt: &R, list: &List, tables: Tables) -> bool {
    let (first, second, both) = tables;
    let (one, two) = thread::join(rt, || all_do(rt, list, first), || all_do(rt, list, second));
    one && two && all_do(rt, list, both)
}

/// Whether a list without a limit answers two callers at once, and then one.
fn answers<R: Threads + Wait + Copy + Send + Sync + 'static>(
    rt: &R,
    alloc: Global,
    tables: Tables,
) -> Option<bool> {
    let list: List = called(
        rt,
        alloc,
        limited(usize::MAX, None, 4),
        generators(alloc, 1)?,
    )?;
    let all = two_do(rt, &list, tables);
    list.shutdown(rt);
    Some(all)
}

#[test]
fn calls_go_to_their_shards_and_two_callers_share_a_list(rt: HostRuntime) {
    assert!(rt; answers(&rt, rt.alloc(), CALLED) == Some(true));
    assert!(rt; answers(&rt, rt.alloc(), WEIGHTY) == Some(true));
    assert!(rt; answers(&rt, rt.alloc(), SHARED) == Some(true));
}

#[test]
fn limits_take_effect(rt: HostRuntime) {
    assert!(rt; limits_hold(&rt, rt.alloc()));
}
