//! Waits of a request.
ghost use Rattle.std.specs.Prelude.{◌≡◌, true};
ghost use Rattle.cache_lock.specs.State.{after_all};
ghost use Rattle.tier_model.specs.Checks.{is_waiting};
ghost use Rattle.tier_model.specs.Answers.{polled};
ghost use Rattle.tier_model.specs.After.{poll_of, after_wait};
ghost use Rattle.tier_requests.specs.Rows.{PollAnswer};

use crate::request::{Request, TierParts};
use cache_lock::{LockStatus, UnusableFills};
use cache_words::time::Moment;
use std::alloc::Global;
use std::hash::BuildHasher;
use tier_model::event::{Answer, TierFault};

impl<S: BuildHasher> Request<S> {
    // How the wait for another's permit ended; none while it goes on.
    fn waited<E>(
        &mut self,
        alloc: Global,
        parts: &mut TierParts<S, E>,
        moment: Moment,
    ) -> Option<LockStatus>
        requires { is_waiting self.old.held ≡ true }
        ensures outcome { result ≡ polled parts.old.lock moment self.old self.old.held }
        ensures request { self.new ≡ after_wait moment result self.old.held self.old }
        ensures lock { parts.new.lock ≡ after_all (poll_of moment self.old.held result parts.old.lock) parts.old.lock }
        ensures parts { parts.new ≡ record parts.old { lock = parts.new.lock } }
    {
        let unusable = UnusableFills::new(Vec::new(alloc));
        match self.cache.cache_lock_wait(parts, &unusable, moment) {
            Some(outcome) => Some(outcome.lock_status()),
            None => None,
        }
    }

    /// Asks how the wait for another's permit ended.
    pub fn poll<E>(
        &mut self,
        alloc: Global,
        parts: &mut TierParts<S, E>,
        moment: Moment,
    ) -> Result<Answer, TierFault>
        ensures answer { PollAnswer (is_waiting self.old.held) moment self.old parts.old.lock result self.new parts.new.lock }
        ensures parts { parts.new ≡ record parts.old { lock = parts.new.lock } }
    {
        if !self.is_waiting() {
            return Err(TierFault::WrongPhase);
        }
        Ok(Answer::Waited(self.waited(alloc, parts, moment)))
    }
}
