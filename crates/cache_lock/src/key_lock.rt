//! What a lock of keys is asked for.
ghost use Rattle.std.specs.Prelude.{◌≡◌, ℕ, List, true, OnOk, OnErr, IfOk, IfErr};
ghost use Rattle.std.specs.FinMap as finite;
ghost use Rattle.cache_words.specs.Key.{key_of, combined};
ghost use Rattle.cache_lock.specs.Changes.{publishes};
ghost use Rattle.cache_lock.specs.Status.{is_end};
ghost use Rattle.cache_lock.specs.State.{LockState, after, after_all, core_in};
ghost use Rattle.cache_lock.specs.Answers.{to_wait_for, locked_by, lock_change, IsRefused, IsAsBefore, is_lendable, lend_changes};
ghost use Rattle.cache_lock.specs.Answers.{release_changes, unlock_changes, leave_changes, wait_outcome, poll_changes};

use crate::fault::LockFault;
use crate::fills::{UnusableFills, WaitOutcome};
use crate::lock_core::LockCore;
use crate::status::LockStatus;
use crate::tokens::{Locked, ReadLock, WritePermit};
use cache_store::trace::{Span, Tag};
use cache_words::key::CacheKey;
use cache_words::time::Moment;
use std::alloc::{AllocError, Global};

/// A lock of keys: one permit a key, and read locks while it waits. A core that isn't there is `Dangling`, and nothing changes it.
///
/// Read locks are made by a lock alone, which counts them. That a key has one permit is said of permits which the lock gave:
/// `WritePermit::new` makes one of any number, and spending that is spending the permit of the core. A permit or read lock of
/// another lock names whatever core has its number here, or none.
pub trait CacheKeyLock {
    ghost use Rattle.cache_lock.specs.declared.status.LockStatus.{LockStatus};

    // The cores, and which one a key has.
    ghost state: { Self → LockState };

    // What is reported to readers of a custom reason not to keep a response.
    ghost custom: { Self → List ℕ → LockStatus };

    /// Returns a read lock of the key's core, unless its status is `Dangling` or `AgeTimeout`, and otherwise the permit, under
    /// a new core.
    ///
    /// # Errors
    ///
    /// `CoreNumbersSpent` exactly where the last number was given, or the core can't be named once more; `Memory` when out of memory
    /// for a new core. Nothing has changed. What was given may be left at once: to all others the lock is then as before.
    fn lock(
        &mut self,
        key: &CacheKey,
        stale_writer: bool,
        moment: Moment,
    ) -> Result<Locked, LockFault>
        ensures answer { let k = combined (key_of key.now) in IfOk result (λ l. l ≡ locked_by (state self.old) (to_wait_for k (state self.old))) }
        ensures change { let k = combined (key_of key.now) in let s = state self.old in OnOk result (state self.new ≡ after (lock_change k stale_writer moment s (to_wait_for k s)) s) }
        ensures err { OnErr result (state self.new ≡ state self.old) }
        ensures refused { IfErr result (IsRefused (state self.old) (to_wait_for (combined (key_of key.now)) (state self.old))) }
        ensures given_back { IfOk result (λ l. IsAsBefore (after_all (leave_changes l) (state self.new)) (state self.old)) };

    /// Counts a further read lock of a core, which `LockStub::read_lock` then makes. Returns false, and nothing changes, where the
    /// core isn't there, or is named 2^64 - 1 times.
    fn lend(&mut self, number: u64) -> bool
        ensures answer { result ≡ is_lendable (finite.get (state self.old).cores number) }
        ensures change { state self.new ≡ after_all (lend_changes number (finite.get (state self.old).cores number)) (state self.old) };

    /// Spends a permit: its key has no core any more, and the reason is stored in the permit's. A permit whose core isn't that of the key,
    /// as one of another key, is dropped: it is `Dangling`, and the key's core stays. Where a poll found the permit past its age, the
    /// key's core and that status stay.
    fn release(&mut self, key: &CacheKey, permit: WritePermit, reason: LockStatus)
        requires { is_end reason ≡ true }
        ensures { state self.new ≡ after_all (release_changes (combined (key_of key.now)) permit.number reason (state self.old)) (state self.old) };

    /// Spends a permit, and stores the reason. Its key keeps the core while read locks name it.
    fn unlock(&mut self, permit: WritePermit, reason: LockStatus)
        requires { is_end reason ≡ true }
        ensures { state self.new ≡ after_all (unlock_changes permit.number reason) (state self.old) };

    /// Spends a permit that is dropped, which is then `Dangling`, or a read lock.
    fn leave(&mut self, locked: Locked)
        ensures { state self.new ≡ after_all (leave_changes locked) (state self.old) };

    /// Publishes tokens of what the permit's writer fills, in the place of those before.
    fn publish(
        &mut self,
        alloc: Global,
        permit: &WritePermit,
        tokens: &[u64],
    ) -> Result<(), AllocError>
        ensures ok { OnOk result (state self.new ≡ after (publishes permit.now.number tokens.now) (state self.old)) }
        ensures err { OnErr result (state self.new ≡ state self.old) };

    /// Returns how a wait ended, the first that holds: the permit has ended; it is past its age, which is then stored;
    /// a fill that the reader can't use is published. `None` while the wait goes on. Moments may come in any order.
    fn poll_wait(
        &mut self,
        read: &ReadLock,
        fills: &UnusableFills,
        moment: Moment,
    ) -> Option<WaitOutcome>
        ensures outcome { result ≡ wait_outcome read.now.number fills.now.fills.items moment (state self.old) }
        ensures change { state self.new ≡ after_all (poll_changes read.now.number result) (state self.old) };

    /// Returns the core of a number, while a permit or read lock names it.
    fn core(&self, number: u64) -> Option<LockCore>
        ensures { result ≡ core_in (finite.get (state self.now).cores number) };

    /// Adds nothing to the span.
    fn trace_lock_wait(&self, span: &Span, _read_lock: &ReadLock, lock_status: LockStatus) {
        let name: &'static str = lock_status.into();
        span.set_tag(|| Tag::new("status", name));
    }

    /// Returns the status with which a permit is released for a custom reason not to keep a response. `CacheLock` returns
    /// `GiveUp`, which the original's trait has as its default.
    fn custom_lock_status(&self, custom_no_cache: &'static str) -> LockStatus
        ensures status { result ≡ custom self.now custom_no_cache.now }
        ensures ends { is_end result ≡ true };
}

/// Any lock of keys, in a box.
pub type CacheKeyLockImpl = Box<dyn CacheKeyLock + Send + Sync + Drop>;
