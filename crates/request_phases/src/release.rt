//! How a permit ends by the reason for which a response isn't kept.
ghost use Rattle.std.specs.Prelude.{◌≡◌, true, is_some, IfSome, option_copied};
ghost use Rattle.cache_words.specs.Key.{key_of, combined};
ghost use Rattle.cache_lock.specs.Status.{is_end};
ghost use Rattle.request_phases.specs.Locks.{let_go};
ghost use Rattle.request_phases.specs.Releases.{status_for, is_permit_reason, is_releasable, lock_released, lock_released_for, key_in};

use crate::request_lock::RequestLock;
use cache_heads::NoCacheReason;
use cache_lock::{CacheKeyLock, LockStatus, Locked};
use cache_words::key::CacheKey;

/// Whether a permit may end for that reason.
pub fn is_permit_reason(reason: NoCacheReason) -> bool
    ensures { result ≡ is_permit_reason reason }
{
    !matches!(
        reason,
        NoCacheReason::NeverEnabled
            | NoCacheReason::CacheLockGiveUp
            | NoCacheReason::CacheLockTimeout
            | NoCacheReason::CacheLockRetryLimit
    )
}

/// Returns the status that a permit is released with for that reason; for a custom one the lock gives it. `None` where no permit may end
/// for it.
pub fn status_for<L: CacheKeyLock>(lock: &L, reason: NoCacheReason) -> Option<LockStatus>
    ensures status { result ≡ status_for (L.custom lock.now) reason }
    ensures ends { IfSome result (λ status. is_end status ≡ true) }
    ensures given { is_some result ≡ is_permit_reason reason }
{
    match reason {
        NoCacheReason::InternalError
        | NoCacheReason::StorageError
        | NoCacheReason::Deferred
        | NoCacheReason::UpstreamError
        | NoCacheReason::DeclinedToUpstream => Some(LockStatus::TransientError),
        NoCacheReason::OriginNotCache
        | NoCacheReason::ResponseTooLarge
        | NoCacheReason::PredictedResponseTooLarge => Some(LockStatus::GiveUp),
        NoCacheReason::Custom(text) => Some(lock.custom_lock_status(text)),
        NoCacheReason::NeverEnabled
        | NoCacheReason::CacheLockGiveUp
        | NoCacheReason::CacheLockTimeout
        | NoCacheReason::CacheLockRetryLimit => None,
    }
}

impl RequestLock {
    /// Returns whether what is held may be released for that reason: it is no permit, or a permit may end for it.
    pub fn is_releasable(&self, reason: NoCacheReason) -> bool
        ensures { result ≡ is_releasable self.now reason }
    {
        !self.holds_permit() || is_permit_reason(reason)
    }

    /// Releases what is held: a permit with that status, and a read lock is left. Nothing is held then.
    pub fn release<L: CacheKeyLock>(&mut self, lock: &mut L, key: &CacheKey, status: LockStatus)
        requires { is_end status ≡ true }
        ensures request { self.new ≡ let_go self.old }
        ensures lock { L.state lock.new ≡ lock_released (combined (key_of key.now)) status self.old (L.state lock.old) }
    {
        match self.take_held() {
            Some(Locked::Write(permit)) => lock.release(key, permit, status),
            Some(Locked::Read(read)) => lock.leave(Locked::Read(read)),
            None => {}
        }
    }

    /// Releases what is held for that reason: a permit with the reason's status, and a read lock is left; without a key each is left.
    /// Nothing is held then.
    pub fn release_for<L: CacheKeyLock>(
        &mut self,
        lock: &mut L,
        key: Option<&CacheKey>,
        reason: NoCacheReason,
    )
        requires { is_releasable self.old reason ≡ true }
        ensures request { self.new ≡ let_go self.old }
        ensures lock { L.state lock.new ≡ lock_released_for (key_in (option_copied key.entry)) (status_for (L.custom lock.old) reason) self.old (L.state lock.old) }
    {
        match (key, status_for(lock, reason)) {
            (Some(key), Some(status)) => self.release(lock, key, status),
            _ => self.leave(lock),
        }
    }
}
