//! What a request does with the lock.
ghost use Rattle.std.specs.Prelude.{◌≡◌, true, false, Some, None, is_some, OnOk, OnErr};
ghost use Rattle.request_phases.specs.Phases.{can_set_lock, is_never_enabled};
ghost use Rattle.request_phases.specs.Locks.{held, is_on, holds_permit, waits, retries_of, holding, let_go, lock_set, tokens_published};
ghost use Rattle.request_phases.specs.Releases.{is_releasable, lock_released_for, status_for, key_in};
ghost use Rattle.request_phases.specs.Waits.{time_waited, found_by, wait_told, request_polled, lock_polled, digest_polled};

use crate::request::HttpCache;
use cache_heads::NoCacheReason;
use cache_lock::{CacheKeyLock, LockWaitOutcome, Locked, UnusableFills, WritePermit};
use cache_store::storage::Storage;
use cache_words::time::Moment;
use request_phases::CacheOptionOverrides;
use request_store::CacheParts;
use std::alloc::{AllocError, Global};

impl<S: Storage> HttpCache<S> {
    /// Turns the lock on, under these options, or off.
    pub fn set_cache_lock(&mut self, on: bool, overrides: Option<CacheOptionOverrides>)
        requires phase { can_set_lock self.old.phase ≡ true }
        requires nothing_held { held self.old.lock ≡ None }
        ensures { self.new ≡ record self.old { lock = lock_set on overrides } }
    {
        self.lock.set(on, overrides);
    }

    /// Returns whether the request uses the lock.
    pub fn is_cache_lock_on(&self) -> bool
        ensures { result ≡ is_on self.now.lock }
    {
        self.lock.is_on()
    }

    /// Returns whether the request holds the permit, or waits for it.
    pub fn holds_lock(&self) -> bool
        ensures { result ≡ is_some (held self.now.lock) }
    {
        self.lock.held().is_some()
    }

    /// Returns whether what is held of the lock may be released for that reason.
    pub fn is_releasable(&self, reason: NoCacheReason) -> bool
        ensures { result ≡ is_releasable self.now.lock reason }
    {
        self.lock.is_releasable(reason)
    }

    /// Returns whether the request waits for a permit that another one holds.
    pub fn is_cache_locked(&self) -> bool
        requires { is_never_enabled self.now.phase ≡ false }
        ensures { result ≡ waits self.now.lock }
    {
        self.lock.waits()
    }

    /// Returns whether the request holds the permit.
    pub fn is_cache_lock_writer(&self) -> bool
        requires { is_never_enabled self.now.phase ≡ false }
        ensures { result ≡ holds_permit self.now.lock }
    {
        self.lock.holds_permit()
    }

    /// Returns how often the request asks again after a wait, if that is set.
    pub fn cache_lock_max_retries(&self) -> Option<usize>
        requires { is_never_enabled self.now.phase ≡ false }
        ensures { result ≡ retries_of self.now.lock }
    {
        self.lock.max_retries()
    }

    /// Takes the permit out, so that another request may hold it.
    pub fn take_write_lock(&mut self) -> WritePermit
        requires { holds_permit self.old.lock ≡ true }
        ensures permit { held self.old.lock ≡ Some (Locked.Write result) }
        ensures request { self.new ≡ record self.old { lock = let_go self.old.lock } }
    {
        self.lock.take_permit()
    }

    /// Holds a permit that another request held.
    pub fn set_write_lock(&mut self, permit: WritePermit)
        requires on { is_on self.old.lock ≡ true }
        requires nothing_held { held self.old.lock ≡ None }
        ensures { self.new ≡ record self.old { lock = holding (Some (Locked.Write permit)) self.old.lock } }
    {
        self.lock.set_permit(permit);
    }

    /// Releases what is held of the lock: a permit ends by the reason, and a read lock is left.
    pub fn release_write_lock<E, P, L: CacheKeyLock, A>(
        &mut self,
        parts: &mut CacheParts<S, E, P, L, A>,
        reason: NoCacheReason,
    )
        requires { is_releasable self.old.lock reason ≡ true }
        ensures request { self.new ≡ record self.old { lock = let_go self.old.lock } }
        ensures lock { L.state parts.new.lock ≡ lock_released_for (key_in self.old.key) (status_for (L.custom parts.old.lock) reason) self.old.lock (L.state parts.old.lock) }
        ensures parts { parts.new ≡ record parts.old { lock = parts.new.lock } }
    {
        self.lock
            .release_for(&mut parts.lock, self.key.as_ref(), reason);
    }

    /// Publishes tokens of what the request fills under its permit, in the place of those before. Without a permit nothing changes.
    ///
    /// # Errors
    ///
    /// Out of memory, where there is a permit. Nothing has changed.
    pub fn lock_publish_fill_tokens<E, P, L: CacheKeyLock, A>(
        &self,
        alloc: Global,
        parts: &mut CacheParts<S, E, P, L, A>,
        tokens: &[u64],
    ) -> Result<(), AllocError>
        ensures ok { OnOk result (L.state parts.new.lock ≡ tokens_published (held self.now.lock) tokens.now (L.state parts.old.lock)) }
        ensures err { OnErr result (L.state parts.new.lock ≡ L.state parts.old.lock) }
        ensures held { OnErr result (holds_permit self.now.lock ≡ true) }
        ensures parts { parts.new ≡ record parts.old { lock = parts.new.lock } }
    {
        self.lock.publish(alloc, &mut parts.lock, tokens)
    }

    /// Returns how the wait for a permit ended, the first that holds: the permit has ended, it is past its age, its writer published a
    /// fill that the request can't use, the request waited as long as it may in all. `None` while the wait goes on; it counts from
    /// its first poll. With an outcome the read lock is left, the time of the wait is added, and why it was given up for a fill is kept.
    pub fn cache_lock_wait<E, P, L: CacheKeyLock, A>(
        &mut self,
        parts: &mut CacheParts<S, E, P, L, A>,
        unusable: &UnusableFills,
        moment: Moment,
    ) -> Option<LockWaitOutcome>
        requires { waits self.old.lock ≡ true }
        ensures outcome { result ≡ wait_told self.old.lock self.old.digest unusable.now.fills.items moment (L.state parts.old.lock) }
        ensures request { self.new ≡ record self.old { lock = request_polled result moment self.old.lock; digest = digest_polled result (time_waited self.old.lock moment) self.old.digest } }
        ensures lock { let s = L.state parts.old.lock in L.state parts.new.lock ≡ lock_polled self.old.lock (found_by self.old.lock unusable.now.fills.items moment s) result s }
        ensures parts { parts.new ≡ record parts.old { lock = parts.new.lock } }
    {
        self.lock
            .wait(&mut parts.lock, &mut self.digest, unusable, moment)
    }
}
