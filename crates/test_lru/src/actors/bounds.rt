//! How many rows running lists have while callers keep sending.

ghost use Rattle.std.specs.Prelude.{◌<◌};

use crate::actors::made;
use lru_async::AsyncLru;
use std::alloc::Global;
use std::sync::Wait;
use std::thread;
use std::thread::Threads;

/// Admits so many keys of weight 1, from `first` on, and returns the greatest number of rows that was seen.
fn flood<R: Wait, const N: usize>(
    rt: &R,
    list: &AsyncLru<u64, N>,
    first: u64,
    keys: u64,
) -> Option<usize> {
    let mut most = 0;
    for key in 0..keys {
        if list.admit(rt, first.wrapping_add(key), 1).is_err() {
            return None;
        }
        most = list.len().max(most);
    }
    Some(most)
}

/// Whether the limit holds, for so many turns at most.
fn comes_to_hold<const N: usize>(list: &AsyncLru<u64, N>) -> bool {
    for _ in 0..10_000_000 {
        if !list.over_limit() {
            return true;
        }
        thread::yield_now();
    }
    false
}

/// Limit, 256 messages ahead, and one a caller.
const MOST_ROWS: usize = 1_000 + 256 + 2;

/// Whether two callers that admit so many keys each see no more rows than these, and the limit holds in the end.
fn is_bounded<R: Threads + Wait + Sync, const N: usize>(
    rt: &R,
    list: &AsyncLru<u64, N>,
    keys: u64,
) -> bool {
    let (first, second) = thread::join(
        rt,
        || flood(rt, list, 0, keys),
        || flood(rt, list, keys, keys),
    );
    match (first, second) {
        (Some(first), Some(second)) => {
            first <= MOST_ROWS && second <= MOST_ROWS && comes_to_hold(list)
        }
        _ => false,
    }
}

/// The same of a list of limit 1,000 whose generators are so many.
fn bounds_rows<R: Threads + Wait + Copy + Send + Sync + 'static, const N: usize>(
    rt: &R,
    alloc: Global,
    workers: u64,
) -> Option<bool>
    requires { 0 < N }
{
    let generators = made::generators(alloc, workers)?;
    let list: AsyncLru<u64, N> = made::called(
        rt,
        alloc,
        made::limited(1_000, None, N),
        generators,
    )?;
    let bounded = is_bounded(rt, &list, 5_000);
    list.shutdown(rt);
    Some(bounded)
}

/// Whether the rows of a list without eviction workers all stay, where so many keys are admitted past its limit. It says that it has
/// none before, and is past its limit then.
fn keeps_all<R: Threads + Wait + Copy + Send + 'static>(
    rt: &R,
    alloc: Global,
    keys: usize,
) -> Option<bool> {
    let generators = made::generators(alloc, 0)?;
    let list: AsyncLru<u64, 1> = made::called(rt, alloc, made::limited(10, None, 1), generators)?;
    let is_new = list.is_empty() && !list.over_limit();
    let sent = flood(rt, &list, 0, keys as u64).is_some();
    let all = sent && list.shard_weight(rt, 0) == Ok(keys);
    let is_past = list.over_limit() && !list.is_empty();
    list.shutdown(rt);
    Some(is_new && all && is_past)
}

#[test]
fn rows_past_the_limit_are_bounded(rt: HostRuntime) {
    assert!(rt; bounds_rows::<HostRuntime, 1>(&rt, rt.alloc(), 1) == Some(true));
    assert!(rt; bounds_rows::<HostRuntime, 4>(&rt, rt.alloc(), 1) == Some(true));
    assert!(rt; bounds_rows::<HostRuntime, 16>(&rt, rt.alloc(), 16) == Some(true));
}

#[test]
fn no_caller_waits_for_workers_that_are_not_there(rt: HostRuntime) {
    assert!(rt; keeps_all(&rt, rt.alloc(), 1_000) == Some(true));
}
