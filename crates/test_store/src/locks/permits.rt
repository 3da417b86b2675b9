//! Permits and read locks of keys.
use super::permit_rows::{FILL, Given, LATE, OTHERS, ROWS, Step};
use cache_lock::{
    CacheKeyLock, CacheKeyLockImpl, CacheLock, LockStatus, LockStub, Locked, ReadLock,
    UnusableFills, WaitOutcome, WritePermit,
};
use cache_store::trace::Span;
use cache_words::key::CacheKey;
use cache_words::time::{Duration, Moment};
use std::alloc::{AllocError, Global};

/// The key of a byte, or of none when out of memory.
fn key_of(alloc: Global, byte: u8) -> CacheKey {
    match Vec::from_slice(alloc, &[byte]) {
        Ok(primary) => CacheKey::new(primary, String::new(alloc)),
        Err(AllocError) => CacheKey::new(Vec::new(alloc), String::new(alloc)),
    }
}

/// A copy of fills.
fn fills(alloc: Global) -> Option<UnusableFills> {
    match Vec::from_slice(alloc, &[FILL]) {
        Ok(list) => UnusableFills::new(list).clone().ok(),
        Err(AllocError) => None,
    }
}

pub(super) fn new_lock(alloc: Global) -> CacheLock {
    CacheLock::new(alloc, Duration::from_seconds(2))
}

/// Spends a read lock at a lock without cores, where nothing counts it.
fn forget(alloc: Global, read: ReadLock) {
    new_lock(alloc).leave(Locked::Read(read));
}

pub(super) fn is_given(alloc: Global, locked: Locked, wanted: Given) -> bool {
    match locked {
        Locked::Write(WritePermit { number }) => wanted == Given::Write(number),
        Locked::Read(read) => {
            let number = read.number();
            forget(alloc, read);
            wanted == Given::Read(number)
        }
    }
}

/// Locks the keys of ten bytes, which gets a permit for each.
fn lock_ten(alloc: Global, lock: &mut CacheLock) -> bool {
    for byte in 0..10 {
        match lock.lock(&key_of(alloc, byte), false, Moment::from_seconds(10)) {
            Ok(locked) => {
                is_given(alloc, locked, Given::Write(u64::from(byte)));
            }
            Err(_) => return false,
        }
    }
    true
}

/// A read lock of that number, below 10, which a lock of ten keys gives.
fn read_of(alloc: Global, number: u64) -> Option<ReadLock> {
    let mut other = new_lock(alloc);
    if lock_ten(alloc, &mut other) {
        LockStub { number }.read_lock(&mut other)
    } else {
        None
    }
}

/// Whether a read lock reports that, once it was polled with fills.
fn is_polled_so<L: CacheKeyLock>(
    alloc: Global,
    lock: &mut L,
    read: &ReadLock,
    second: i64,
    wanted: Option<WaitOutcome>,
) -> bool {
    match fills(alloc) {
        Some(fills) => lock.poll_wait(read, &fills, Moment::from_seconds(second)) == wanted,
        None => false,
    }
}

/// Whether a read lock reports what it must.
fn tells<L: CacheKeyLock>(alloc: Global, lock: &mut L, read: &ReadLock, step: Step) -> bool {
    match step {
        Step::Poll(second, _, wanted) => is_polled_so(alloc, lock, read, second, wanted),
        Step::Status(second, _, wanted) => {
            let status = read.lock_status(lock, Moment::from_seconds(second));
            lock.trace_lock_wait(&Span::inactive(), read, status);
            status == wanted
        }
        Step::Locked(_, wanted) => read.locked(lock) == wanted,
        Step::Expired(second, _, wanted) => {
            read.expired(lock, Moment::from_seconds(second)) == wanted
        }
        _ => false,
    }
}

/// The same of a read lock of that number.
fn is_told<L: CacheKeyLock>(alloc: Global, lock: &mut L, number: u64, step: Step) -> bool {
    match read_of(alloc, number) {
        Some(read) => {
            let told = tells(alloc, lock, &read, step);
            forget(alloc, read);
            told
        }
        None => false,
    }
}

fn is_left<L: CacheKeyLock>(alloc: Global, lock: &mut L, number: u64) -> bool {
    match read_of(alloc, number) {
        Some(read) => {
            lock.leave(Locked::Read(read));
            true
        }
        None => false,
    }
}

fn is_published<L: CacheKeyLock>(alloc: Global, lock: &mut L, number: u64, token: u64) -> bool {
    let permit = WritePermit::new(number);
    let published = permit.publish(alloc, lock, &[token]);
    let WritePermit { number: _permit } = permit;
    published.is_ok()
}

/// Whether a permit or a read lock is ended so.
fn is_ended<L: CacheKeyLock>(alloc: Global, lock: &mut L, step: Step) -> bool {
    match step {
        Step::Release(byte, number, reason) => {
            if !reason.is_end() {
                return false;
            }
            lock.release(&key_of(alloc, byte), WritePermit::new(number), reason);
            true
        }
        Step::Unlock(number, reason) => {
            if !reason.is_end() {
                return false;
            }
            WritePermit::new(number).unlock(lock, reason);
            true
        }
        Step::DropPermit(number) => {
            lock.leave(Locked::Write(WritePermit::new(number)));
            true
        }
        Step::LeaveRead(number) => is_left(alloc, lock, number),
        Step::Publish(number, token) => is_published(alloc, lock, number, token),
        _ => false,
    }
}

fn is_lent<L: CacheKeyLock>(alloc: Global, lock: &mut L, number: u64) -> bool {
    match (LockStub { number }).read_lock(lock) {
        Some(read) => {
            forget(alloc, read);
            true
        }
        None => false,
    }
}

fn has_permit<L: CacheKeyLock>(lock: &L, number: u64, status: LockStatus, stale: bool) -> bool {
    let permit = WritePermit::new(number);
    let is_so = permit.lock_status(lock) == status && permit.stale_writer(lock) == stale;
    let WritePermit { number: _permit } = permit;
    is_so
}

fn is_locked<L: CacheKeyLock>(
    alloc: Global,
    lock: &mut L,
    second: i64,
    byte: u8,
    wanted: Given,
) -> bool {
    match lock.lock(
        &key_of(alloc, byte),
        byte == 2,
        Moment::from_seconds(second),
    ) {
        Ok(locked) => is_given(alloc, locked, wanted),
        Err(_) => false,
    }
}

fn is_done<L: CacheKeyLock>(alloc: Global, lock: &mut L, step: Step) -> bool {
    match step {
        Step::Lock(second, byte, wanted) => is_locked(alloc, lock, second, byte, wanted),
        Step::Stub(number, wanted) => is_lent(alloc, lock, number) == wanted,
        Step::Poll(_, number, _)
        | Step::Status(_, number, _)
        | Step::Locked(number, _)
        | Step::Expired(_, number, _) => is_told(alloc, lock, number, step),
        Step::Permit(number, status, stale) => has_permit(lock, number, status, stale),
        Step::Has(number, wanted) => lock.core(number).is_some() == wanted,
        _ => is_ended(alloc, lock, step),
    }
}

/// Whether all calls come true.
fn all_done<L: CacheKeyLock>(alloc: Global, lock: &mut L, steps: &[Step]) -> bool {
    for &step in steps {
        if !is_done(alloc, lock, step) {
            return false;
        }
    }
    true
}

#[test]
fn permits_of_keys(rt: HostRuntime) {
    for &steps in ROWS {
        let mut lock = new_lock(rt.alloc());
        assert!(rt; all_done(rt.alloc(), &mut lock, steps));
    }
}

#[test]
fn permits_of_a_boxed_lock(rt: HostRuntime) {
    let boxed = CacheLock::new_boxed(rt.alloc(), Duration::from_seconds(2)).ok();
    assert!(rt; boxed.is_some());
    if let Some(mut lock) = boxed {
        assert!(rt; all_done(rt.alloc(), &mut *lock, LATE));
    }
}

/// A lock of any kind, in a box, is a lock too.
#[test]
fn permits_of_any_lock(rt: HostRuntime) {
    let boxed = Box::new(rt.alloc(), new_lock(rt.alloc())).ok();
    assert!(rt; boxed.is_some());
    if let Some(lock) = boxed {
        let mut lock: CacheKeyLockImpl = lock;
        assert!(rt; all_done(rt.alloc(), &mut lock, OTHERS));
        assert!(rt; lock.custom_lock_status("any") == LockStatus::GiveUp);
    }
}
