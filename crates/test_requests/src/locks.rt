//! What a request does with the lock.
use crate::answer::{Answer, DONE, NO_MEMORY, REFUSED};
use crate::turns::holds_nothing;
use cache_lock::{CacheKeyLock, LockWaitOutcome, UnusableFill, UnusableFills};
use cache_store::storage::Storage;
use cache_words::time::Moment;
use request_cache::HttpCache;
use request_store::CacheParts;
use std::alloc::Global;

// The fill 7, which no request here can use.
fn fills(alloc: Global) -> Option<UnusableFills> {
    let mut list = Vec::new(alloc);
    list.push(UnusableFill {
        token: 7,
        reason: "unusable",
    })
    .ok()?;
    Some(UnusableFills::new(list))
}

fn told_of_wait(outcome: Option<LockWaitOutcome>) -> Answer {
    match outcome {
        None => Answer::Word("waits"),
        Some(LockWaitOutcome::Done) => DONE,
        Some(LockWaitOutcome::TransientError) => Answer::Word("transient-error"),
        Some(LockWaitOutcome::Dangling) => Answer::Word("dangling"),
        Some(LockWaitOutcome::WaitTimeout) => Answer::Word("wait-timeout"),
        Some(LockWaitOutcome::AgeTimeout) => Answer::Word("age-timeout"),
        Some(LockWaitOutcome::GiveUp) => Answer::Word("give-up"),
        Some(LockWaitOutcome::Abandoned { reason, token }) => {
            Answer::Abandoned(reason.as_str(), token)
        }
    }
}

/// Waits for the permit of another request.
pub fn wait<S: Storage, E, P, L: CacheKeyLock, A>(
    alloc: Global,
    request: &mut HttpCache<S>,
    parts: &mut CacheParts<S, E, P, L, A>,
    moment: Moment,
) -> Answer {
    if request.phase().is_never_enabled() || !request.is_cache_locked() {
        return REFUSED;
    }
    match fills(alloc) {
        Some(fills) => told_of_wait(request.cache_lock_wait(parts, &fills, moment)),
        None => NO_MEMORY,
    }
}

/// Says what is filled.
pub fn publish<S: Storage, E, P, L: CacheKeyLock, A>(
    alloc: Global,
    request: &mut HttpCache<S>,
    parts: &mut CacheParts<S, E, P, L, A>,
    token: u64,
) -> Answer {
    match request.lock_publish_fill_tokens(alloc, parts, &[token]) {
        Ok(()) => DONE,
        Err(_) => NO_MEMORY,
    }
}

/// Moves the permit to the other request.
pub fn move_permit<S: Storage>(request: &mut HttpCache<S>, other: &mut HttpCache<S>) -> Answer {
    if request.phase().is_never_enabled() || !request.is_cache_lock_writer() {
        return REFUSED;
    }
    if !holds_nothing(other) || !other.is_cache_lock_on() {
        return REFUSED;
    }
    other.set_write_lock(request.take_write_lock());
    DONE
}
