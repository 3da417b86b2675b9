//! Rows of two shards that are handed out, one shard after the other.

ghost use Rattle.std.specs.Prelude.{◌<◌};

use crate::actors::made::{called, generators, limited};
use lru_async::{AsyncLru, ShardData};
use std::alloc::Global;
use std::sync::Wait;
use std::thread::Threads;

type List = AsyncLru<u32, 2>;

/// Keys of both shards, each of a weight of its own.
const ADMITTED: &[(u32, usize)] = &[(5, 1), (8, 2), (7, 3), (12, 5), (0, 7), (1, 11)];

/// The rows of both shards, most recent first.
const ROWS: [&[(u32, usize)]; 2] = [&[(0, 7), (7, 3), (5, 1)], &[(1, 11), (12, 5), (8, 2)]];

/// Which shards are not taken, and for how many the answer is then.
const ANSWERS: &[(&[usize], usize)] = &[(&[], 2), (&[0], 1), (&[1], 1), (&[0, 1], 0)];

/// Whether both shards were handed out in order, each once and with all its rows.
fn are_handed(handed: &[ShardData<u32>]) -> bool {
    let [first, second] = handed else {
        return false;
    };
    first.shard == 0
        && first.items.as_slice() == ROWS[0]
        && second.shard == 1
        && second.items.as_slice() == ROWS[1]
}

/// Whether a list hands out both shards, where some are not taken, and answers for how many.
fn hands_out<R: Wait>(
    rt: &R,
    alloc: Global,
    list: &List,
    refused: &[usize],
    answer: usize,
) -> bool {
    let mut handed = Vec::new(alloc);
    let mut take = |rows: ShardData<u32>| -> Result<(), ()> {
        let is_refused = refused.contains(&rows.shard);
        let is_kept = handed.push(rows).is_ok();
        if is_kept && !is_refused {
            Ok(())
        } else {
            Err(())
        }
    };
    let written = list.save(rt, &mut take);
    written == answer && are_handed(handed.as_slice())
}

/// Whether a list with these rows hands them out whatever is taken.
fn all_hand_out<R: Wait>(rt: &R, alloc: Global, list: &List) -> bool {
    for &(key, weight) in ADMITTED {
        if list.admit(rt, key, weight).is_err() {
            return false;
        }
    }
    for &(refused, answer) in ANSWERS {
        if !hands_out(rt, alloc, list, refused, answer) {
            return false;
        }
    }
    true
}

fn hands_out_rows<R: Threads + Wait + Copy + Send + 'static>(
    rt: &R,
    alloc: Global,
) -> Option<bool> {
    let list: List = called(rt, alloc, limited(100, None, 1), generators(alloc, 1)?)?;
    let all = all_hand_out(rt, alloc, &list);
    list.shutdown(rt);
    Some(all)
}

#[test]
fn each_shard_is_handed_out_once_with_its_rows(rt: HostRuntime) {
    assert!(rt; hands_out_rows(&rt, rt.alloc()) == Some(true));
}
