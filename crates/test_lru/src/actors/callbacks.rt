//! Callback workers that run.

use crate::actors::made::{comes_past, comes_to, generators};
use lru_async::AsyncLru;
use std::alloc::Global;
use std::sync::atomic::{AtomicU64, Ordering};
use std::sync::{Arc, Wait};
use std::thread::Threads;

/// How many callbacks have begun, and 1 once the first has seen the second begin.
#[derive(Drop)]
struct Marks {
    begun: AtomicU64,
    seen: AtomicU64,
}

impl Marks {
    /// Begins a callback. The first waits until the second has begun, for so many turns at most.
    fn begin(&self) {
        if self.begun.fetch_add(1, Ordering::SeqCst) == 0 && comes_past(&self.begun, 1) {
            self.seen.store(1, Ordering::SeqCst);
        }
    }
}

/// Whether of three rows that are admitted two go.
fn evicts_two<R: Wait>(rt: &R, list: &AsyncLru<u32, 1>) -> bool {
    for key in 0..3 {
        if list.admit(rt, key, 1) != Ok(0) {
            return false;
        }
    }
    comes_to(list, (1, 1), (2, 2))
}

/// Whether the first of two callbacks sees the second begin, with that many callback workers.
fn sees<R: Threads + Wait + Copy + Send + 'static>(
    rt: &R,
    alloc: Global,
    workers: usize,
) -> Option<bool> {
    let begun = AtomicU64::new(0);
    let seen = AtomicU64::new(0);
    let marks = Arc::new(alloc, Marks { begun, seen }).ok()?;
    let theirs = Arc::try_clone(&marks).ok()?;
    let list: AsyncLru<u32, 1> = AsyncLru::builder(100, move |_: u32, _: usize| theirs.begin())
        .len_watermark(1)
        .num_callback_workers(workers)
        .build(rt, alloc, generators(alloc, 1)?)
        .ok()?;
    let gone = evicts_two(rt, &list);
    list.shutdown(rt);
    Some(gone && marks.seen.load(Ordering::SeqCst) == 1)
}

#[test]
fn one_callback_worker(rt: HostRuntime) {
    assert!(rt; sees(&rt, rt.alloc(), 2) == Some(true));
}
