//! A lock that lets another request try where a permit ends for a custom reason.
ghost use Rattle.cache_lock.specs.declared.status.LockStatus.TheVariants.{TransientError};

use cache_lock::{
    CacheKeyLock, CacheLock, LockCore, LockFault, LockStatus, Locked, ReadLock, UnusableFills,
    WaitOutcome, WritePermit,
};
use cache_words::key::CacheKey;
use cache_words::time::Moment;
use std::alloc::{AllocError, Global};

/// The lock; where the one in it gives waiters up, it lets one of them try.
#[derive(Drop)]
pub struct TryingLock {
    pub lock: CacheLock,
}

impl CacheKeyLock for TryingLock {
    ghost state = { λ l. l.lock };

    ghost custom = { λ _ _. TransientError };

    fn lock(
        &mut self,
        key: &CacheKey,
        stale_writer: bool,
        moment: Moment,
    ) -> Result<Locked, LockFault> {
        self.lock.lock(key, stale_writer, moment)
    }

    fn lend(&mut self, number: u64) -> bool {
        self.lock.lend(number)
    }

    fn release(&mut self, key: &CacheKey, permit: WritePermit, reason: LockStatus) {
        self.lock.release(key, permit, reason)
    }

    fn unlock(&mut self, permit: WritePermit, reason: LockStatus) {
        self.lock.unlock(permit, reason)
    }

    fn leave(&mut self, locked: Locked) {
        self.lock.leave(locked)
    }

    fn publish(
        &mut self,
        alloc: Global,
        permit: &WritePermit,
        tokens: &[u64],
    ) -> Result<(), AllocError> {
        self.lock.publish(alloc, permit, tokens)
    }

    fn poll_wait(
        &mut self,
        read: &ReadLock,
        fills: &UnusableFills,
        moment: Moment,
    ) -> Option<WaitOutcome> {
        self.lock.poll_wait(read, fills, moment)
    }

    fn core(&self, number: u64) -> Option<LockCore> {
        self.lock.core(number)
    }

    fn custom_lock_status(&self, _custom_no_cache: &'static str) -> LockStatus {
        LockStatus::TransientError
    }
}
