//! Two threads at one list.

use pingora_lru::Lru;
use std::sync::Wait;
use std::sync::atomic::{AtomicU64, Ordering};
use std::thread;
use std::thread::Threads;

/// Waits until the flag is set, for so many turns at most, and returns whether it saw it.
fn is_set(flag: &AtomicU64) -> bool {
    for _ in 0..10_000_000 {
        if flag.load(Ordering::SeqCst) == 1 {
            return true;
        }
        thread::yield_now();
    }
    false
}

/// Updates key 0, once `began` is set, until the other thread has set `admitted`. Returns whether the update saw that.
fn update<R: Wait>(rt: &R, list: &Lru<u32, 2>, began: &AtomicU64, admitted: &AtomicU64) -> bool {
    let seen = AtomicU64::new(0);
    let wait = |data: &mut u32, weight: usize| {
        began.store(1, Ordering::SeqCst);
        if is_set(admitted) {
            seen.store(1, Ordering::SeqCst);
        }
        *data = 1;
        weight
    };
    let done = list.update_or_admit(rt, 0, wait, || (0, 1));
    done.ok() == Some(Some(1)) && seen.load(Ordering::SeqCst) == 1
}

/// Admits key 1 once the update of key 0 runs.
fn admit<R: Wait>(rt: &R, list: &Lru<u32, 2>, began: &AtomicU64, admitted: &AtomicU64) -> bool {
    let saw = is_set(began);
    let done = list.admit(rt, 1, 10, 1);
    admitted.store(1, Ordering::SeqCst);
    saw && done.ok() == Some(1)
}

/// Whether an update of key 0 sees that key 1 is admitted while it runs.
fn see_each_other<R: Threads + Wait + Sync>(rt: &R, list: &Lru<u32, 2>) -> bool {
    let began = AtomicU64::new(0);
    let admitted = AtomicU64::new(0);
    let (updated, other) = thread::join(
        rt,
        || update(rt, list, &began, &admitted),
        || admit(rt, list, &began, &admitted),
    );
    updated && other && list.peek(rt, 1)
}

#[test]
fn one_lock_around_all_shards(rt: HostRuntime) {
    let list: Result<Lru<u32, 2>, _> = Lru::with_capacity(rt.alloc(), 100, 0);
    assert!(rt; list.is_ok());
    if let Ok(list) = list {
        assert!(rt; list.admit(&rt, 0, 0, 1).ok() == Some(0) && see_each_other(&rt, &list));
    }
}
