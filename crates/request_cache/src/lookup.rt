//! Look-ups.
ghost use Rattle.std.specs.Prelude.{◌≡◌, ◌↔◌, true, false, is_some, IsTrue, IfSome, IfOk, Ok};
ghost use Rattle.cache_words.specs.Key.{key_of};
ghost use Rattle.cache_store.specs.Looks.{Tells, shows};
ghost use Rattle.request_phases.specs.Phases.{can_look_up};
ghost use Rattle.request_phases.specs.Locks.{holds_permit};
ghost use Rattle.request_cache.specs.Request.{stored_at};
ghost use Rattle.request_cache.specs.Points.{point};
ghost use Rattle.request_cache.specs.Lookups.{AsksPolicy, defers, decided, LockAnswer, IsAbsent, LookUpAnswer};

use crate::request::HttpCache;
use cache_heads::NoCacheReason;
use cache_lock::{CacheKeyLock, LockFault};
use cache_store::admission::{AdmissionPolicy, Decision};
use cache_store::storage::{Found, HitHandler, Storage};
use cache_words::time::Moment;
use request_store::{CacheParts, LookUpFault, look_valid};

// Whether a decision is there and defers.
fn defers(decision: Option<Decision>) -> bool
    ensures { result ≡ defers decision }
{
    matches!(decision, Some(Decision::Defer { .. }))
}

impl<S: Storage> HttpCache<S> {
    // Asks the policy, where it is to be asked, and returns what it decided. `nothing` says whether the store has nothing.
    fn observe<A: AdmissionPolicy>(&mut self, policy: &A, nothing: bool) -> Option<Decision>
        requires { is_some self.old.key ≡ true }
        ensures asked { IsTrue (is_some result) ↔ AsksPolicy nothing self.old }
        ensures told { IfSome result (λ d. IfSome self.old.key (λ k. A.decides policy.now (key_of k) d)) }
        ensures request { self.new ≡ decided result self.old }
    {
        let asks = nothing
            && self.phase.is_key_phase()
            && self.admits
            && self.digest.admission.is_none();
        if !asks {
            return None;
        }
        let Some(key) = &self.key else { unreachable!() };
        let decision = policy.observe(key);
        self.digest.admission = Some(decision);
        Some(decision)
    }

    // Asks the lock, where it is on.
    fn ask_lock<E, P, L: CacheKeyLock, A>(
        &mut self,
        parts: &mut CacheParts<S, E, P, L, A>,
        moment: Moment,
    ) -> Result<(), LockFault>
        requires phase { can_look_up self.old.phase ≡ true }
        requires key { is_some self.old.key ≡ true }
        ensures answer { LockAnswer moment self.old (L.state parts.old.lock) result self.new (L.state parts.new.lock) }
        ensures parts { parts.new ≡ record parts.old { lock = parts.new.lock } }
    {
        let Some(key) = &self.key else { unreachable!() };
        self.lock.ask(&mut parts.lock, key, false, moment)
    }

    // Nothing was found. `nothing` says whether the store has nothing.
    pub(crate) fn miss<E, P, L: CacheKeyLock, A: AdmissionPolicy>(
        &mut self,
        parts: &mut CacheParts<S, E, P, L, A>,
        nothing: bool,
        moment: Moment,
    ) -> Result<(), LockFault>
        requires phase { can_look_up self.old.phase ≡ true }
        requires key { is_some self.old.key ≡ true }
        requires no_permit { holds_permit self.old.lock ≡ false }
        ensures missed { IsAbsent S.Hit.reader S.Miss.number (L.custom parts.old.lock) (A.decides parts.old.policy) moment nothing
            (point self.old (S.held parts.old.store) (L.state parts.old.lock)) result (point self.new (S.held parts.new.store) (L.state parts.new.lock)) }
        ensures ids { S.ids parts.new.store ≡ S.ids parts.old.store }
        ensures parts { parts.new ≡ record parts.old { store = parts.new.store; lock = parts.new.lock } }
    {
        let decision = self.observe(&parts.policy, nothing);
        if defers(decision) {
            self.disable(parts, NoCacheReason::Deferred);
            return Ok(());
        }
        self.ask_lock(parts, moment)
    }

    /// Looks the request's key up. A response that was created before the primary one of its variants isn't found. Where the store has
    /// nothing, the policy of admission is asked, if it is on and was not asked, and where it defers the request is disabled. Where
    /// nothing is found the lock is asked, if it is on, and what it gives is held in the place of an earlier read lock.
    ///
    /// # Errors
    ///
    /// `Store` where the store refuses: nothing has changed. `Lock` where the lock refuses: what the policy decided stays, and all else is
    /// as before.
    pub fn cache_lookup<E, P, L: CacheKeyLock, A: AdmissionPolicy>(
        &mut self,
        parts: &mut CacheParts<S, E, P, L, A>,
        moment: Moment,
    ) -> Result<Found<HitHandler<S>>, LookUpFault>
        requires phase { can_look_up self.old.phase ≡ true }
        requires no_permit { holds_permit self.old.lock ≡ false }
        ensures look { let look = shows S.streams (stored_at self.old.key) (S.held parts.old.store).store in
            LookUpAnswer S.Hit.reader S.Miss.number (L.custom parts.old.lock) (A.decides parts.old.policy) moment look
            (point self.old (S.held parts.old.store) (L.state parts.old.lock)) result (point self.new (S.held parts.new.store) (L.state parts.new.lock)) }
        ensures tells { let k = stored_at self.old.key in
            IfOk result (λ found. Tells S.Hit.weight S.Hit.id S.weigh (S.ids parts.old.store k) (shows S.streams k (S.held parts.old.store).store) (Ok found)) }
        ensures ids { S.ids parts.new.store ≡ S.ids parts.old.store }
        ensures parts { parts.new ≡ record parts.old { store = parts.new.store; lock = parts.new.lock } }
    {
        let Some(key) = &self.key else { unreachable!() };
        match look_valid(&mut parts.store, key, self.valid_after) {
            Ok((Some(found), _)) => Ok(Some(found)),
            Ok((None, nothing)) => match self.miss(parts, nothing, moment) {
                Ok(()) => Ok(None),
                Err(fault) => Err(LookUpFault::Lock(fault)),
            },
            Err(fault) => Err(LookUpFault::Store(fault)),
        }
    }
}
