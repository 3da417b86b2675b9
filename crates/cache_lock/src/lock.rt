//! The lock.
ghost use Rattle.std.specs.Prelude.{◌≡◌, ◌↔◌, IsTrue, IfOk};
ghost use Rattle.cache_lock.specs.State.{empty_lock};

use crate::fault::LockFault;
use crate::fills::{PublishedTokens, UnusableFills, WaitOutcome};
use crate::key_lock::CacheKeyLock;
use crate::lock_core::{HeldCore, LockCore};
use crate::status::LockStatus;
use crate::table::{ByKey, ByNumber};
use crate::tokens::{Locked, ReadLock, WritePermit};
use cache_words::key::{CacheHashKey, CacheKey};
use cache_words::time::{Duration, Moment};
use std::alloc::{AllocError, Global};
use std::hash::{BuildHasher, BuildHasherDefault, FoldHasher};
use std::marker::Model;

mod changes;
mod releases;

/// One permit a key: who asks while a permit waits, gets a read lock. A contract sees the cores by their numbers and the
/// number of each key's core.
///
/// Keys are found by their hashes. `new` hashes with a fixed start, for keys that the caller chooses itself;
/// `with_hasher` takes a start of the caller's, for keys that attackers choose, who then can't slow look-ups down.
/// A core goes with the last permit or read lock that names it, so memory is bounded by those that are held.
#[derive(Debug, Drop)]
pub struct CacheLock<S: BuildHasher = BuildHasherDefault<FoldHasher>> {
    cores: ByNumber<HeldCore, S>,
    current: ByKey<S>,
    published: ByNumber<PublishedTokens, S>,
    next: u64,
    age_timeout: Duration,
}

impl<S: BuildHasher> Model for CacheLock<S> {
    ghost use Rattle.cache_lock.specs.State.{LockState, AreNamedBelow};
    ghost use Rattle.cache_lock.specs.StateCode.{state_code};

    ghost Value = { LockState };

    ghost coded = { state_code };

    ghost view = { λ l. record { cores = l.cores; current = l.current; published = l.published; next = l.next; age = l.age_timeout } };

    ghost invariant = { λ l. AreNamedBelow l.next l.cores };
}

impl CacheLock<BuildHasherDefault<FoldHasher>> {
    /// Returns a lock without permits, under hashes with a fixed start, whose permits are waited for until that age.
    /// It takes no memory.
    pub fn new(alloc: Global, age_timeout: Duration) -> Self
        ensures { result ≡ empty_lock age_timeout }
    {
        CacheLock::with_hasher(alloc, age_timeout, BuildHasherDefault::new())
    }

    /// Returns such a lock in a box.
    pub fn new_boxed(alloc: Global, age_timeout: Duration) -> Result<Box<Self>, AllocError>
        ensures { IfOk result (λ l. l.value ≡ empty_lock age_timeout) }
    {
        Ok(Box::new(alloc, CacheLock::new(alloc, age_timeout))?)
    }
}

impl<S: BuildHasher + Copy> CacheLock<S> {
    /// Returns a lock without permits, under hashes of that start, whose permits are waited for until that age.
    /// It takes no memory.
    pub fn with_hasher(alloc: Global, age_timeout: Duration, hasher: S) -> Self
        ensures { result ≡ empty_lock age_timeout }
    {
        CacheLock {
            cores: ByNumber::with_hasher(alloc, hasher),
            current: ByKey::with_hasher(alloc, hasher),
            published: ByNumber::with_hasher(alloc, hasher),
            next: 0,
            age_timeout,
        }
    }
}

impl<S: BuildHasher> CacheLock<S> {
    /// Returns whether no permit was given so far: the lock is as it was made.
    pub fn is_new(&self) -> bool
        ensures { IsTrue result ↔ (self.now ≡ empty_lock self.now.age) }
    {
        self.next == 0
            && self.cores.is_empty()
            && self.current.is_empty()
            && self.published.is_empty()
    }
}

impl<S: BuildHasher> CacheKeyLock for CacheLock<S> {
    ghost use Rattle.cache_lock.specs.declared.status.LockStatus.TheVariants.{GiveUp};

    ghost state = { λ l. l };

    ghost custom = { λ _ _. GiveUp };

    fn lock(
        &mut self,
        key: &CacheKey,
        stale_writer: bool,
        moment: Moment,
    ) -> Result<Locked, LockFault> {
        let _ = &self.cores;
        let key = key.combined_bin();
        match self.to_wait_for(&key) {
            Some(number) => self.wait_for(number),
            None => self.give(key, stale_writer, moment),
        }
    }

    fn lend(&mut self, number: u64) -> bool {
        self.name_again(number)
    }

    fn release(&mut self, key: &CacheKey, permit: WritePermit, reason: LockStatus) {
        let WritePermit { number } = permit;
        let key = key.combined_bin();
        match self.take_last(number) {
            Some(held) if held.names <= 1 => self.release_last(&key, number, &held),
            Some(held) => self.release_shared(&key, number, reason, &held),
            None => {
                self.remove_if(&key, number);
            }
        }
    }

    fn unlock(&mut self, permit: WritePermit, reason: LockStatus) {
        let WritePermit { number } = permit;
        self.end(number, reason);
    }

    fn leave(&mut self, locked: Locked) {
        match locked {
            Locked::Write(WritePermit { number }) => self.end(number, LockStatus::Dangling),
            Locked::Read(ReadLock { number }) => self.spend(number),
        }
    }

    fn publish(
        &mut self,
        alloc: Global,
        permit: &WritePermit,
        tokens: &[u64],
    ) -> Result<(), AllocError> {
        if self.cores.get(permit.number).is_none() {
            return Ok(());
        }
        let mut list = Vec::new(alloc);
        list.extend_from_slice(tokens)?;
        self.published
            .insert(permit.number, PublishedTokens::new(list))
    }

    fn poll_wait(
        &mut self,
        read: &ReadLock,
        fills: &UnusableFills,
        moment: Moment,
    ) -> Option<WaitOutcome> {
        let outcome = self.outcome(read.number, fills, moment);
        if let Some(WaitOutcome::AgeTimeout) = outcome {
            self.store(read.number, LockStatus::AgeTimeout);
        }
        outcome
    }

    fn core(&self, number: u64) -> Option<LockCore> {
        match self.cores.get(number) {
            Some(held) => Some(held.core),
            None => None,
        }
    }

    fn custom_lock_status(&self, _custom_no_cache: &'static str) -> LockStatus {
        LockStatus::GiveUp
    }
}
