//! What a request holds of a lock.
ghost use Rattle.std.specs.Prelude.{◌≡◌, true, Some, None, OnOk, OnErr, IfOk, IfErr};
ghost use Rattle.cache_words.specs.Key.{key_of, combined};
ghost use Rattle.cache_lock.specs.Answers.{to_wait_for, IsRefused, IsAsBefore};
ghost use Rattle.request_phases.specs.Locks.{lock_off, lock_on, lock_set, is_on, held_in, held, holds_permit, holding, let_go};
ghost use Rattle.request_phases.specs.Locks.{given_by, asked, left_by, lock_left, now_holding, lock_held, tokens_published};

use crate::lock_ctx::{CacheOptionOverrides, LockCtx};
use cache_lock::{CacheKeyLock, LockFault, Locked, WritePermit};
use cache_words::key::CacheKey;
use cache_words::time::Moment;
use std::alloc::{AllocError, Global};
use std::mem;

mod held;

/// What a request holds of a lock, which is on or off for it: the permit or a read lock, and when the read lock was polled first. It is
/// spent by `end`. The lock itself is lent to each call.
#[derive(Debug, PartialEq, Eq)]
pub struct RequestLock {
    pub(crate) ctx: Option<LockCtx>,
    pub(crate) polled: Option<Moment>,
}

impl RequestLock {
    /// Returns what a request without a lock has.
    pub fn off() -> RequestLock
        ensures { result ≡ lock_off }
    {
        RequestLock {
            ctx: None,
            polled: None,
        }
    }

    /// Returns what a request has whose lock is on, under these options: nothing is held.
    pub fn on(overrides: Option<CacheOptionOverrides>) -> RequestLock
        ensures { result ≡ lock_on overrides }
    {
        RequestLock {
            ctx: Some(LockCtx::new(overrides)),
            polled: None,
        }
    }

    /// Turns the lock on, under these options, or off.
    pub fn set(&mut self, on: bool, overrides: Option<CacheOptionOverrides>)
        requires { held self.old ≡ None }
        ensures { self.new ≡ lock_set on overrides }
    {
        let next = if on {
            Some(LockCtx::new(overrides))
        } else {
            None
        };
        self.polled = None;
        match lock_of(mem::replace(&mut self.ctx, next)) {
            None => {}
            Some(_) => unreachable!(),
        }
    }

    /// Asks the lock for a key, where it is on, and returns what it gave, which `hold` or `give_back` takes. Nothing else changes.
    ///
    /// # Errors
    ///
    /// Those of the lock, which is then as before.
    pub fn question<L: CacheKeyLock>(
        &self,
        lock: &mut L,
        key: &CacheKey,
        stale: bool,
        moment: Moment,
    ) -> Result<Option<Locked>, LockFault>
        ensures given { IfOk result (λ g. g ≡ given_by self.now (combined (key_of key.now)) (L.state lock.old)) }
        ensures lock { OnOk result (L.state lock.new ≡ asked self.now (combined (key_of key.now)) stale moment (L.state lock.old)) }
        ensures err { OnErr result (L.state lock.new ≡ L.state lock.old) }
        ensures refused_on { OnErr result (is_on self.now ≡ true) }
        ensures refused { IfErr result (IsRefused (L.state lock.old) (to_wait_for (combined (key_of key.now)) (L.state lock.old))) }
        ensures given_back { IfOk result (λ g. IsAsBefore (left_by g (L.state lock.new)) (L.state lock.old)) }
    {
        if self.ctx.is_none() {
            return Ok(None);
        }
        let locked = lock.lock(key, stale, moment)?;
        Ok(Some(locked))
    }

    /// Holds what the lock gave, if anything, in the place of what was held, which is left. A wait starts anew. Where the lock is off,
    /// what it gave is left.
    pub fn hold<L: CacheKeyLock>(&mut self, lock: &mut L, given: Option<Locked>)
        ensures request { self.new ≡ now_holding given self.old }
        ensures lock { L.state lock.new ≡ lock_held given self.old (L.state lock.old) }
    {
        if let Some(locked) = given {
            let spare = self.swap(locked);
            give_back(lock, spare);
        }
    }

    /// Asks the lock for a key, where it is on. What it gives is held then, in the place of what was held, which is left.
    ///
    /// # Errors
    ///
    /// Those of the lock. Nothing has changed.
    pub fn ask<L: CacheKeyLock>(
        &mut self,
        lock: &mut L,
        key: &CacheKey,
        stale: bool,
        moment: Moment,
    ) -> Result<(), LockFault>
        ensures request { OnOk result (self.new ≡ now_holding (given_by self.old (combined (key_of key.now)) (L.state lock.old)) self.old) }
        ensures lock { let k = combined (key_of key.now) in let s = L.state lock.old in OnOk result (L.state lock.new ≡ lock_held (given_by self.old k s) self.old (asked self.old k stale moment s)) }
        ensures same { OnErr result (self.new ≡ self.old) }
        ensures err { OnErr result (L.state lock.new ≡ L.state lock.old) }
        ensures refused_on { OnErr result (is_on self.old ≡ true) }
        ensures refused { IfErr result (IsRefused (L.state lock.old) (to_wait_for (combined (key_of key.now)) (L.state lock.old))) }
    {
        let given = self.question(lock, key, stale, moment)?;
        self.hold(lock, given);
        Ok(())
    }

    /// Takes the permit out: nothing is held then.
    pub fn take_permit(&mut self) -> WritePermit
        requires { holds_permit self.old ≡ true }
        ensures permit { held self.old ≡ Some (Locked.Write result) }
        ensures request { self.new ≡ let_go self.old }
    {
        match self.take_held() {
            Some(Locked::Write(permit)) => permit,
            _ => unreachable!(),
        }
    }

    /// Holds a permit that another request held.
    pub fn set_permit(&mut self, permit: WritePermit)
        requires on { is_on self.old ≡ true }
        requires nothing_held { held self.old ≡ None }
        ensures { self.new ≡ holding (Some (Locked.Write permit)) self.old }
    {
        match self.swap(Locked::Write(permit)) {
            None => {}
            Some(_) => unreachable!(),
        }
    }

    /// Publishes tokens of what the request fills under its permit, in the place of those before. Without a permit nothing changes.
    ///
    /// # Errors
    ///
    /// Out of memory. Nothing changes.
    pub fn publish<L: CacheKeyLock>(
        &self,
        alloc: Global,
        lock: &mut L,
        tokens: &[u64],
    ) -> Result<(), AllocError>
        ensures ok { OnOk result (L.state lock.new ≡ tokens_published (held self.now) tokens.now (L.state lock.old)) }
        ensures err { OnErr result (L.state lock.new ≡ L.state lock.old) }
        ensures refused_held { OnErr result (holds_permit self.now ≡ true) }
    {
        match self.held() {
            Some(Locked::Write(permit)) => lock.publish(alloc, permit, tokens),
            _ => Ok(()),
        }
    }

    /// Leaves what is held: a permit is dropped, so its key may be given anew, and a read lock is handed back.
    pub fn leave<L: CacheKeyLock>(&mut self, lock: &mut L)
        ensures request { self.new ≡ let_go self.old }
        ensures lock { L.state lock.new ≡ lock_left self.old (L.state lock.old) }
    {
        let locked = self.take_held();
        give_back(lock, locked);
    }

    /// Leaves what is held, and ends.
    pub fn end<L: CacheKeyLock>(self, lock: &mut L)
        ensures { L.state lock.new ≡ lock_left self (L.state lock.old) }
    {
        let RequestLock { ctx, polled: _ } = self;
        give_back(lock, lock_of(ctx));
    }
}

/// Leaves what a lock gave, if anything.
pub fn give_back<L: CacheKeyLock>(lock: &mut L, given: Option<Locked>)
    ensures { L.state lock.new ≡ left_by given (L.state lock.old) }
{
    match given {
        Some(locked) => lock.leave(locked),
        None => {}
    }
}

// What is held.
fn lock_of(ctx: Option<LockCtx>) -> Option<Locked>
    ensures { result ≡ held_in ctx }
{
    match ctx {
        Some(
            LockCtx {
                lock,
                wait_timeout: _,
                max_retries: _,
            },
        ) => lock,
        None => None,
    }
}
