//! Locks and marks that are refused memory, with a look at what is left. What is refused once is asked for again, and then answers as
//! if it had come first.
use super::permit_rows::Given;
use super::permits::{is_given, new_lock};
use crate::samples::known;
use cache_heads::NoCacheReason;
use cache_lock::{CacheKeyLock, CacheLock, LockFault, Locked};
use cache_words::key::CacheKey;
use cache_words::time::Moment;
use request_predictor::{CacheablePredictor, NothingSkipped, Predictor};
use std::alloc::Global;

fn lock_at(lock: &mut CacheLock, key: &CacheKey) -> Result<Locked, LockFault> {
    lock.lock(key, false, Moment::from_seconds(10))
}

fn gives(alloc: Global, lock: &mut CacheLock, key: &CacheKey, wanted: Given) -> bool {
    match lock_at(lock, key) {
        Ok(locked) => is_given(alloc, locked, wanted),
        Err(_) => false,
    }
}

// Whether a key gets the permit of a core of that number, or is refused for memory and has no core.
fn gives_or_leaves(alloc: Global, lock: &mut CacheLock, key: &CacheKey, number: u64) -> bool {
    match lock_at(lock, key) {
        Ok(locked) => is_given(alloc, locked, Given::Write(number)),
        Err(fault) => {
            fault == LockFault::Memory
                && lock.core(number).is_none()
                && gives(alloc, lock, key, Given::Write(number))
        }
    }
}

// A read lock takes no memory.
#[test]
fn a_refused_lock_leaves_all(rt: HostRuntime) {
    let alloc = rt.alloc();
    let one = known(alloc, b"aa");
    let other = known(alloc, b"b");
    let mut lock = new_lock(alloc);
    assert!(rt; gives_or_leaves(alloc, &mut lock, &one, 0));
    assert!(rt; gives_or_leaves(alloc, &mut lock, &other, 1));
    assert!(rt;
        gives(alloc, &mut lock, &one, Given::Read(0))
            && gives(alloc, &mut lock, &other, Given::Read(1))
    );
}

// A predictor whose list has one key.
type OneKey = Predictor<1, NothingSkipped>;

fn marks(predictor: &mut OneKey, key: &CacheKey) -> Option<Option<bool>> {
    predictor
        .mark_uncacheable(key, NoCacheReason::OriginNotCache)
        .ok()
}

// Whether a key is marked for the first time, or is refused and is not marked, and the other one is as it was.
fn marks_or_leaves(
    predictor: &mut OneKey,
    key: &CacheKey,
    other: &CacheKey,
    is_kept: bool,
) -> bool {
    match marks(predictor, key) {
        Some(marked) => marked == Some(true),
        None => {
            predictor.cacheable_prediction(key)
                && predictor.cacheable_prediction(other) == is_kept
                && marks(predictor, key) == Some(Some(true))
        }
    }
}

// The second mark pushes the first out.
fn marks_both(predictor: &mut OneKey, one: &CacheKey, other: &CacheKey) -> bool {
    marks_or_leaves(predictor, one, other, true)
        && marks_or_leaves(predictor, other, one, false)
        && predictor.cacheable_prediction(one)
        && !predictor.cacheable_prediction(other)
}

#[test]
fn a_refused_mark_leaves_all(rt: HostRuntime) {
    let one = known(rt.alloc(), b"aa");
    let other = known(rt.alloc(), b"b");
    if let Ok(mut predictor) = OneKey::new(rt.alloc(), 1, None) {
        assert!(rt; marks_both(&mut predictor, &one, &other));
    }
}
