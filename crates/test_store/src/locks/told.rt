//! What a lock is told of a wait that has ended.
ghost use Rattle.cache_lock.specs.declared.status.LockStatus.TheVariants.{GiveUp};

use cache_lock::{
    CacheKeyLock, CacheKeyLockImpl, CacheLock, LockCore, LockFault, LockStatus, Locked, ReadLock,
    UnusableFills, WaitOutcome, WritePermit,
};
use cache_store::trace::Span;
use cache_words::key::CacheKey;
use cache_words::time::{Duration, Moment};
use request_phases::{HttpCacheDigest, RequestLock};
use std::alloc::{AllocError, Global};
use std::sync::Arc;
use std::sync::atomic::{AtomicUsize, Ordering};

/// A lock that adds 10 and the number of the status for each that it is told.
#[derive(Drop)]
struct Telling {
    lock: CacheLock,
    told: Arc<AtomicUsize>,
}

impl CacheKeyLock for Telling {
    ghost state = { λ t. t.lock };

    ghost custom = { λ _ _. GiveUp };

    fn lock(
        &mut self,
        key: &CacheKey,
        stale_writer: bool,
        moment: Moment,
    ) -> Result<Locked, LockFault> {
        self.lock.lock(key, stale_writer, moment)
    }

    fn lend(&mut self, number: u64) -> bool {
        self.lock.lend(number)
    }

    fn release(&mut self, key: &CacheKey, permit: WritePermit, reason: LockStatus) {
        self.lock.release(key, permit, reason)
    }

    fn unlock(&mut self, permit: WritePermit, reason: LockStatus) {
        self.lock.unlock(permit, reason)
    }

    fn leave(&mut self, locked: Locked) {
        self.lock.leave(locked)
    }

    fn publish(
        &mut self,
        alloc: Global,
        permit: &WritePermit,
        tokens: &[u64],
    ) -> Result<(), AllocError> {
        self.lock.publish(alloc, permit, tokens)
    }

    fn poll_wait(
        &mut self,
        read: &ReadLock,
        fills: &UnusableFills,
        moment: Moment,
    ) -> Option<WaitOutcome> {
        self.lock.poll_wait(read, fills, moment)
    }

    fn core(&self, number: u64) -> Option<LockCore> {
        self.lock.core(number)
    }

    fn trace_lock_wait(&self, _span: &Span, _read_lock: &ReadLock, lock_status: LockStatus) {
        let number = usize::from(u8::from(lock_status));
        self.told.fetch_add(10 + number, Ordering::SeqCst);
    }

    fn custom_lock_status(&self, _custom_no_cache: &'static str) -> LockStatus {
        LockStatus::GiveUp
    }
}

/// With which status the permit is released at second 10, if it is; when the wait is polled; and the status that the lock is told.
const ROWS: &[(Option<LockStatus>, i64, Option<LockStatus>)] = &[
    (Some(LockStatus::Done), 11, Some(LockStatus::Done)),
    (
        Some(LockStatus::TransientError),
        11,
        Some(LockStatus::TransientError),
    ),
    (Some(LockStatus::GiveUp), 11, Some(LockStatus::GiveUp)),
    (Some(LockStatus::Dangling), 11, Some(LockStatus::Dangling)),
    (None, 12, Some(LockStatus::AgeTimeout)),
    (None, 11, None),
];

fn wanted(status: Option<LockStatus>) -> usize {
    match status {
        Some(status) => 10 + usize::from(u8::from(status)),
        None => 0,
    }
}

/// Releases the permit with a reason; without one it comes back.
fn released<L: CacheKeyLock>(
    lock: &mut L,
    key: &CacheKey,
    permit: WritePermit,
    reason: Option<LockStatus>,
) -> Option<Locked> {
    match reason {
        Some(reason) if reason.is_end() => {
            lock.release(key, permit, reason);
            None
        }
        _ => Some(Locked::Write(permit)),
    }
}

fn leave<L: CacheKeyLock>(lock: &mut L, locked: Option<Locked>) {
    match locked {
        Some(locked) => lock.leave(locked),
        None => {}
    }
}

fn poll<L: CacheKeyLock>(alloc: Global, lock: &mut L, request: &mut RequestLock, second: i64) {
    if request.waits() {
        let mut digest = HttpCacheDigest::default();
        let fills = UnusableFills::new(Vec::new(alloc));
        let _outcome = request.wait(lock, &mut digest, &fills, Moment::from_seconds(second));
    }
}

/// Another request waits for the permit of the key, and polls once.
fn wait<L: CacheKeyLock>(
    alloc: Global,
    lock: &mut L,
    permit: WritePermit,
    reason: Option<LockStatus>,
    second: i64,
) {
    let key = CacheKey::new(Vec::new(alloc), String::new(alloc));
    let mut request = RequestLock::on(None);
    let _asked = request.ask(lock, &key, false, Moment::from_seconds(10));
    let kept = released(lock, &key, permit, reason);
    poll(alloc, lock, &mut request, second);
    request.end(lock);
    leave(lock, kept);
}

fn play<L: CacheKeyLock>(alloc: Global, lock: &mut L, reason: Option<LockStatus>, second: i64) {
    let key = CacheKey::new(Vec::new(alloc), String::new(alloc));
    match lock.lock(&key, false, Moment::from_seconds(10)) {
        Ok(Locked::Write(permit)) => wait(alloc, lock, permit, reason, second),
        Ok(locked) => lock.leave(locked),
        Err(_) => {}
    }
}

fn new_telling(alloc: Global, told: &Arc<AtomicUsize>) -> Result<Telling, AllocError> {
    Ok(Telling {
        told: told.clone()?,
        lock: CacheLock::new(alloc, Duration::from_seconds(2)),
    })
}

fn is_told(
    alloc: Global,
    reason: Option<LockStatus>,
    second: i64,
    status: Option<LockStatus>,
) -> bool {
    let Ok(told) = Arc::new(alloc, AtomicUsize::new(0)) else {
        return false;
    };
    let Ok(mut lock) = new_telling(alloc, &told) else {
        return false;
    };
    play(alloc, &mut lock, reason, second);
    told.load(Ordering::SeqCst) == wanted(status)
}

fn is_told_in_a_box(
    alloc: Global,
    reason: Option<LockStatus>,
    second: i64,
    status: Option<LockStatus>,
) -> bool {
    let Ok(told) = Arc::new(alloc, AtomicUsize::new(0)) else {
        return false;
    };
    let Ok(lock) = new_telling(alloc, &told) else {
        return false;
    };
    let Ok(boxed) = Box::new(alloc, lock) else {
        return false;
    };
    let mut lock: CacheKeyLockImpl = boxed;
    play(alloc, &mut lock, reason, second);
    told.load(Ordering::SeqCst) == wanted(status)
}

#[test]
fn locks_are_told_how_waits_ended(rt: HostRuntime) {
    for &(reason, second, status) in ROWS {
        assert!(rt; is_told(rt.alloc(), reason, second, status));
        assert!(rt; is_told_in_a_box(rt.alloc(), reason, second, status));
    }
}
