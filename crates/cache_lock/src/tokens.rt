//! Permits and read locks: numbers of cores, which must be spent.
ghost use Rattle.std.specs.Prelude.{◌≡◌, true, OnOk, OnErr};
ghost use Rattle.std.specs.FinMap as finite;
ghost use Rattle.cache_lock.specs.Changes.{publishes};
ghost use Rattle.cache_lock.specs.Tokens.{is_permit};
ghost use Rattle.cache_lock.specs.Status.{is_waiting, is_end};
ghost use Rattle.cache_lock.specs.State.{after, after_all, status_of};
ghost use Rattle.cache_lock.specs.Answers.{is_stale, is_expired, status_at_moment, read_lock_of, lend_changes, unlock_changes};

use crate::key_lock::CacheKeyLock;
use crate::status::LockStatus;
use cache_words::time::Moment;
use std::alloc::{AllocError, Global};

/// The right to fill a key. It is spent by `release`, `unlock` or `leave`.
#[derive(Debug, PartialEq, Eq)]
pub struct WritePermit {
    /// The number of the core.
    pub number: u64,
}

impl WritePermit {
    /// Returns a permit that names that core, for locks that are made of others. `CacheKeyLock` says what holds of a permit that no
    /// lock gave.
    pub fn new(number: u64) -> WritePermit
        ensures { result.number ≡ number }
    {
        WritePermit { number }
    }

    /// Returns whether the permit was given where a stale response is there; false where the lock has no such core.
    pub fn stale_writer<L: CacheKeyLock>(&self, lock: &L) -> bool
        ensures { result ≡ is_stale (finite.get (L.state lock.now).cores self.now.number) }
    {
        match lock.core(self.number) {
            Some(core) => core.stale_writer(),
            None => false,
        }
    }

    /// Returns the status of the permit's core.
    pub fn lock_status<L: CacheKeyLock>(&self, lock: &L) -> LockStatus
        ensures { result ≡ status_of self.now.number (L.state lock.now) }
    {
        match lock.core(self.number) {
            Some(core) => core.lock_status(),
            None => LockStatus::Dangling,
        }
    }

    /// Spends the permit, and stores how it ended. Its key keeps the core while read locks name it.
    pub fn unlock<L: CacheKeyLock>(self, lock: &mut L, reason: LockStatus)
        requires { is_end reason ≡ true }
        ensures { L.state lock.new ≡ after_all (unlock_changes self.number reason) (L.state lock.old) }
    {
        lock.unlock(self, reason);
    }

    /// Publishes tokens of what the permit's writer fills, in the place of those before.
    ///
    /// # Errors
    ///
    /// Out of memory. Nothing changes.
    pub fn publish<L: CacheKeyLock>(
        &self,
        alloc: Global,
        lock: &mut L,
        tokens: &[u64],
    ) -> Result<(), AllocError>
        ensures ok { OnOk result (L.state lock.new ≡ after (publishes self.now.number tokens.now) (L.state lock.old)) }
        ensures err { OnErr result (L.state lock.new ≡ L.state lock.old) }
    {
        lock.publish(alloc, self, tokens)
    }
}

/// A wait for the permit of a key: a name of its core, which the lock counts. It is spent by `leave`.
#[derive(Debug, PartialEq, Eq)]
pub struct ReadLock {
    pub(crate) number: u64,
}

impl ReadLock {
    /// Returns the number of the core.
    pub fn number(&self) -> u64
        ensures { result ≡ self.now.number }
    {
        let ReadLock { number } = self;
        *number
    }

    /// Whether the permit has not ended.
    pub fn locked<L: CacheKeyLock>(&self, lock: &L) -> bool
        ensures { result ≡ is_waiting (status_of self.now.number (L.state lock.now)) }
    {
        match lock.core(self.number) {
            Some(core) => core.locked(),
            None => false,
        }
    }

    /// Whether the permit is past its age at that moment, or the lock has no such core.
    pub fn expired<L: CacheKeyLock>(&self, lock: &L, moment: Moment) -> bool
        ensures { result ≡ is_expired (finite.get (L.state lock.now).cores self.now.number) moment }
    {
        match lock.core(self.number) {
            Some(core) => core.is_over_age(moment),
            None => true,
        }
    }

    /// Returns how the wait stands at that moment: the status of the core, but `AgeTimeout` where it waits past its age.
    pub fn lock_status<L: CacheKeyLock>(&self, lock: &L, moment: Moment) -> LockStatus
        ensures { result ≡ status_at_moment (finite.get (L.state lock.now).cores self.now.number) moment }
    {
        match lock.core(self.number) {
            Some(core) if core.locked() && core.is_over_age(moment) => LockStatus::AgeTimeout,
            Some(core) => core.lock_status(),
            None => LockStatus::Dangling,
        }
    }
}

/// The number of a core, of which read locks are made.
#[derive(Clone, Copy, Debug, PartialEq, Eq)]
pub struct LockStub {
    /// The number of the core.
    pub number: u64,
}

impl LockStub {
    /// Returns a read lock of that core, which the lock counts. Returns `None`, and nothing changes, where the core isn't there, or is
    /// named 2^64 - 1 times.
    pub fn read_lock<L: CacheKeyLock>(&self, lock: &mut L) -> Option<ReadLock>
        ensures answer { result ≡ read_lock_of self.now.number (finite.get (L.state lock.old).cores self.now.number) }
        ensures change { L.state lock.new ≡ after_all (lend_changes self.now.number (finite.get (L.state lock.old).cores self.now.number)) (L.state lock.old) }
    {
        if lock.lend(self.number) {
            Some(ReadLock {
                number: self.number,
            })
        } else {
            None
        }
    }
}

/// What a lock gives.
#[derive(Debug, PartialEq, Eq)]
pub enum Locked {
    /// The permit: nobody else fills the key.
    Write(WritePermit),
    /// A wait for the permit that another holds.
    Read(ReadLock),
}

impl Locked {
    /// Whether it is the permit.
    pub fn is_write(&self) -> bool
        ensures { result ≡ is_permit self.now }
    {
        matches!(self, Locked::Write(_))
    }
}
