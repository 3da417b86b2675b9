//! A lock in a box: each call goes to the lock inside.
use crate::fault::LockFault;
use crate::fills::{UnusableFills, WaitOutcome};
use crate::key_lock::{CacheKeyLock, CacheKeyLockImpl};
use crate::lock_core::LockCore;
use crate::status::LockStatus;
use crate::tokens::{Locked, ReadLock, WritePermit};
use cache_store::trace::Span;
use cache_words::key::CacheKey;
use cache_words::time::Moment;
use std::alloc::{AllocError, Global};

impl CacheKeyLock for CacheKeyLockImpl {
    ghost state = { λ b. (CacheKeyLock-box b).state b.value };

    ghost custom = { λ b. (CacheKeyLock-box b).custom b.value };

    fn lock(
        &mut self,
        key: &CacheKey,
        stale_writer: bool,
        moment: Moment,
    ) -> Result<Locked, LockFault> {
        (**self).lock(key, stale_writer, moment)
    }

    fn lend(&mut self, number: u64) -> bool {
        (**self).lend(number)
    }

    fn release(&mut self, key: &CacheKey, permit: WritePermit, reason: LockStatus) {
        (**self).release(key, permit, reason)
    }

    fn unlock(&mut self, permit: WritePermit, reason: LockStatus) {
        (**self).unlock(permit, reason)
    }

    fn leave(&mut self, locked: Locked) {
        (**self).leave(locked)
    }

    fn publish(
        &mut self,
        alloc: Global,
        permit: &WritePermit,
        tokens: &[u64],
    ) -> Result<(), AllocError> {
        (**self).publish(alloc, permit, tokens)
    }

    fn poll_wait(
        &mut self,
        read: &ReadLock,
        fills: &UnusableFills,
        moment: Moment,
    ) -> Option<WaitOutcome> {
        (**self).poll_wait(read, fills, moment)
    }

    fn core(&self, number: u64) -> Option<LockCore> {
        (**self).core(number)
    }

    fn trace_lock_wait(&self, span: &Span, read_lock: &ReadLock, lock_status: LockStatus) {
        (**self).trace_lock_wait(span, read_lock, lock_status)
    }

    fn custom_lock_status(&self, custom_no_cache: &'static str) -> LockStatus {
        (**self).custom_lock_status(custom_no_cache)
    }
}
