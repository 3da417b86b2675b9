//! What is held, seen and taken out.
ghost use Rattle.std.specs.Prelude.{◌≡◌, Some, option_copied};
ghost use Rattle.request_phases.specs.Locks.{is_on, held, holds_permit, waits, timeout_of, retries_of, holding, let_go, spare_in};

use crate::lock_ctx::LockCtx;
use crate::request_lock::RequestLock;
use cache_lock::Locked;
use cache_words::time::Duration;

impl RequestLock {
    /// Returns whether the lock is on.
    pub fn is_on(&self) -> bool
        ensures { result ≡ is_on self.now }
    {
        self.ctx.is_some()
    }

    /// Returns what is held.
    pub fn held(&self) -> Option<&Locked>
        ensures { option_copied result ≡ held self.now }
    {
        match &self.ctx {
            Some(ctx) => ctx.lock.as_ref(),
            None => None,
        }
    }

    /// Returns whether the permit is held.
    pub fn holds_permit(&self) -> bool
        ensures { result ≡ holds_permit self.now }
    {
        matches!(self.held(), Some(Locked::Write(_)))
    }

    /// Returns whether a read lock is held.
    pub fn waits(&self) -> bool
        ensures { result ≡ waits self.now }
    {
        matches!(self.held(), Some(Locked::Read(_)))
    }

    /// Returns the longest time that the request waits in all; none where the lock is off.
    pub fn wait_timeout(&self) -> Option<Duration>
        ensures { result ≡ timeout_of self.now }
    {
        match &self.ctx {
            Some(ctx) => ctx.wait_timeout,
            None => None,
        }
    }

    /// Returns how often the request asks again after a wait; none where the lock is off.
    pub fn max_retries(&self) -> Option<usize>
        ensures { result ≡ retries_of self.now }
    {
        match &self.ctx {
            Some(ctx) => ctx.max_retries,
            None => None,
        }
    }

    // Takes out what is held.
    pub(crate) fn take_held(&mut self) -> Option<Locked>
        ensures locked { result ≡ held self.old }
        ensures request { self.new ≡ let_go self.old }
    {
        self.polled = None;
        match &mut self.ctx {
            Some(ctx) => ctx.lock.take(),
            None => None,
        }
    }

    // Holds that in the place of what was held, which is returned; where the lock is off, that is returned.
    pub(crate) fn swap(&mut self, locked: Locked) -> Option<Locked>
        ensures spare { result ≡ spare_in locked self.old.ctx }
        ensures request { self.new ≡ holding (Some locked) self.old }
    {
        self.polled = None;
        match &mut self.ctx {
            Some(ctx) => ctx.lock.replace(locked),
            None => Some(locked),
        }
    }
}
