//! Look-ups of responses that are fresh at a moment: their metas stay in the store.
ghost use Rattle.std.specs.Prelude.{◌≡◌, true, false, IfErr};
ghost use Rattle.cache_store.specs.Looks.{shows};
ghost use Rattle.request_phases.specs.declared.hit.HitStatus.TheVariants.{Fresh as FreshStatus};
ghost use Rattle.request_phases.specs.Phases.{can_look_up};
ghost use Rattle.request_phases.specs.Locks.{holds_permit};
ghost use Rattle.request_cache.specs.Request.{stored_at};
ghost use Rattle.request_cache.specs.Points.{point};
ghost use Rattle.request_cache.specs.Founds.{entry_at, is_counted, UseAnswer, IsUntracked};
ghost use Rattle.request_cache.specs.Freshes.{LookUpAtAnswer, TakesFresh};

use crate::request::HttpCache;
use cache_evict::EvictionManager;
use cache_lock::CacheKeyLock;
use cache_store::admission::AdmissionPolicy;
use cache_store::storage::{FoundAt, HandleHit, HitHandler, Storage};
use cache_words::time::Moment;
use request_phases::{CachePhase, HitStatus};
use request_store::{CacheParts, FoundFault, LookUpFault, look_valid_at};
use std::alloc::Global;

impl<S: Storage> HttpCache<S> {
    /// Looks the request's key up as `cache_lookup` does. Of a response that is fresh at the moment only how long it is fresh is given, so that
    /// the store need not read its meta.
    ///
    /// # Errors
    ///
    /// Those of `cache_lookup`.
    #[inline(always)]
    pub fn cache_lookup_at<E, P, L: CacheKeyLock, A: AdmissionPolicy>(
        &mut self,
        parts: &mut CacheParts<S, E, P, L, A>,
        moment: Moment,
    ) -> Result<Option<FoundAt<HitHandler<S>>>, LookUpFault>
        requires phase { can_look_up self.old.phase ≡ true }
        requires no_permit { holds_permit self.old.lock ≡ false }
        ensures look { let k = stored_at self.old.key in
            LookUpAtAnswer S.Hit.reader S.Miss.number S.Hit.weight S.Hit.id S.weigh (S.ids parts.old.store k) (L.custom parts.old.lock) (A.decides parts.old.policy) moment
            (shows S.streams k (S.held parts.old.store).store)
            (point self.old (S.held parts.old.store) (L.state parts.old.lock)) result (point self.new (S.held parts.new.store) (L.state parts.new.lock)) }
        ensures ids { S.ids parts.new.store ≡ S.ids parts.old.store }
        ensures parts { parts.new ≡ record parts.old { store = parts.new.store; lock = parts.new.lock } }
    {
        let Some(key) = &self.key else { unreachable!() };
        match look_valid_at(&mut parts.store, key, self.valid_after, moment) {
            Ok((Some(found), _)) => Ok(Some(found)),
            Ok((None, nothing)) => match self.miss(parts, nothing, moment) {
                Ok(()) => Ok(None),
                Err(fault) => Err(LookUpFault::Lock(fault)),
            },
            Err(fault) => Err(LookUpFault::Store(fault)),
        }
    }

    /// Takes a fresh response that a look-up found, without its meta: the request is a `Hit`, a use of the entry is counted, where the manager is
    /// on and the reader counts, and an earlier reader is spent.
    ///
    /// # Errors
    ///
    /// `Evict` where the entry isn't tracked and can't be, for the manager's reason: the new reader is spent, and all else is as before.
    #[inline(always)]
    pub fn cache_found_fresh<E: EvictionManager, P, L: CacheKeyLock, A>(
        &mut self,
        alloc: Global,
        parts: &mut CacheParts<S, E, P, L, A>,
        hit: HitHandler<S>,
        fresh_until: Moment,
    ) -> Result<(), FoundFault>
        requires phase { can_look_up self.old.phase ≡ true }
        requires no_permit { holds_permit self.old.lock ≡ false }
        ensures found { TakesFresh S.Hit.reader hit (point self.old (S.held parts.old.store) (L.state parts.old.lock)) result (point self.new (S.held parts.new.store) (L.state parts.new.lock)) }
        ensures used { UseAnswer E.shard_count (is_counted S.Hit.counts hit FreshStatus self.old) (entry_at self.old.key (S.Hit.id hit)) (E.weighed (S.Hit.weight hit))
            (E.managed parts.old.manager) result (E.managed parts.new.manager) }
        ensures untracked { IfErr result (λ fault. IsUntracked E.shard_count (entry_at self.old.key (S.Hit.id hit)) fault (E.managed parts.old.manager)) }
        ensures ids { S.ids parts.new.store ≡ S.ids parts.old.store }
        ensures parts { parts.new ≡ record parts.old { store = parts.new.store; manager = parts.new.manager } }
    {
        let Some(_) = &self.key else { unreachable!() };
        match self.count_use(
            alloc,
            &mut parts.manager,
            fresh_until,
            &hit,
            HitStatus::Fresh,
        ) {
            Ok(()) => {
                self.keep_found(&mut parts.store, None, hit, CachePhase::Hit);
                Ok(())
            }
            Err(fault) => {
                hit.finish(&mut parts.store);
                Err(FoundFault::Evict(fault))
            }
        }
    }
}
