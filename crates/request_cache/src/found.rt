//! A response that was found.
ghost use Rattle.std.specs.Prelude.{◌≡◌, true, false, is_some, Some, None, OnOk, OnErr, IfOk, IfErr, MatchResult};
ghost use Rattle.cache_lock.specs.Answers.{to_wait_for, IsRefused, IsAsBefore};
ghost use Rattle.cache_entries.specs.Rows.{weight_of};
ghost use Rattle.cache_evict.specs.Managed.{rows_of};
ghost use Rattle.cache_store.specs.StoreState.{StoreState};
ghost use Rattle.cache_store.specs.Readers as Readers;
ghost use Rattle.request_phases.specs.HitStatuses.{found_phase, is_fresh};
ghost use Rattle.request_phases.specs.Phases.{can_look_up, is_disabled, is_stale_phase};
ghost use Rattle.request_phases.specs.Locks.{is_on, holds_permit, given_by, asked, left_by};
ghost use Rattle.request_cache.specs.Request.{stored_at};
ghost use Rattle.request_store.specs.Spends.{Spends};
ghost use Rattle.request_cache.specs.Points.{point};
ghost use Rattle.request_cache.specs.Founds.{entry_at, found_given, found_asked, with_found, FoundSpends, IsTaken, IsGivenUp, is_counted, CountAnswer, UseAnswer, IsUntracked};

use crate::request::HttpCache;
use cache_evict::{EvictFault, EvictionManager};
use cache_heads::CacheMeta;
use cache_lock::{CacheKeyLock, LockFault, Locked};
use cache_store::storage::{HandleHit, HitHandler, Storage};
use cache_words::time::Moment;
use request_phases::{CachePhase, HitStatus, give_back};
use request_store::{CacheParts, FoundFault, finish_reader, use_entry};
use std::alloc::Global;

impl<S: Storage> HttpCache<S> {
    // Whether a response with that status is asked for as stale.
    fn is_asked_as_stale(&self, status: HitStatus) -> bool
        ensures { result ≡ is_stale_phase (found_phase status self.now.phase) }
    {
        status.found_phase(self.phase).is_stale_phase()
    }

    // Asks the lock.
    fn question_as<L: CacheKeyLock>(
        &self,
        lock: &mut L,
        stale: bool,
        moment: Moment,
    ) -> Result<Option<Locked>, LockFault>
        requires { is_some self.now.key ≡ true }
        ensures given { IfOk result (λ g. g ≡ given_by self.now.lock (stored_at self.now.key) (L.state lock.old)) }
        ensures lock { OnOk result (L.state lock.new ≡ asked self.now.lock (stored_at self.now.key) stale moment (L.state lock.old)) }
        ensures err { OnErr result (L.state lock.new ≡ L.state lock.old) }
        ensures refused_on { OnErr result (is_on self.now.lock ≡ true) }
        ensures refused { IfErr result (λ fault. IsRefused (L.state lock.old) (to_wait_for (stored_at self.now.key) (L.state lock.old)) fault) }
        ensures given_back { IfOk result (λ g. IsAsBefore (left_by g (L.state lock.new)) (L.state lock.old)) }
    {
        let Some(key) = &self.key else { unreachable!() };
        self.lock.question(lock, key, stale, moment)
    }

    // Asks the lock for a response that was found and isn't fresh.
    fn question<L: CacheKeyLock>(
        &self,
        lock: &mut L,
        status: HitStatus,
        moment: Moment,
    ) -> Result<Option<Locked>, LockFault>
        requires { is_some self.now.key ≡ true }
        ensures given { IfOk result (λ g. g ≡ found_given status self.now (L.state lock.old)) }
        ensures lock { OnOk result (L.state lock.new ≡ found_asked status moment self.now (L.state lock.old)) }
        ensures err { OnErr result (L.state lock.new ≡ L.state lock.old) }
        ensures refused_on { OnErr result (is_on self.now.lock ≡ true) }
        ensures refused_stale { OnErr result (is_fresh status ≡ false) }
        ensures refused { IfErr result (λ fault. IsRefused (L.state lock.old) (to_wait_for (stored_at self.now.key) (L.state lock.old)) fault) }
        ensures given_back { IfOk result (λ g. IsAsBefore (left_by g (L.state lock.new)) (L.state lock.old)) }
    {
        if status.is_fresh() {
            return Ok(None);
        }
        let stale = self.is_asked_as_stale(status);
        self.question_as(lock, stale, moment)
    }

    // Counts a use of the entry of a response that was found. Of an entry that is tracked it takes no memory.
    #[inline(always)]
    pub(crate) fn count_use<E: EvictionManager>(
        &mut self,
        alloc: Global,
        manager: &mut E,
        fresh_until: Moment,
        hit: &S::Hit,
        status: HitStatus,
    ) -> Result<(), EvictFault>
        requires { is_some self.old.key ≡ true }
        ensures request { self.new ≡ self.old }
        ensures counted { CountAnswer E.shard_count (is_counted S.Hit.counts hit.now status self.old) (entry_at self.old.key (S.Hit.id hit.now)) (E.weighed (S.Hit.weight hit.now))
            (E.managed manager.old) result (E.managed manager.new) }
        ensures untracked { let e = entry_at self.old.key (S.Hit.id hit.now) in OnErr result (weight_of e (rows_of E.shard_count e (E.managed manager.old)) ≡ None) }
    {
        if status.is_treated_as_miss() || !self.evicts || !hit.should_count_access() {
            return Ok(());
        }
        let Some(key) = &mut self.key else {
            unreachable!()
        };
        let weight = hit.get_eviction_weight();
        use_entry(alloc, manager, key, hit.entry_id(), weight, fresh_until)
    }

    // Takes what was found, and spends the earlier reader.
    #[inline(always)]
    pub(crate) fn keep_found(
        &mut self,
        store: &mut S,
        meta: Option<CacheMeta>,
        hit: S::Hit,
        phase: CachePhase,
    )
        requires key { is_some self.old.key ≡ true }
        requires on { is_disabled phase ≡ false }
        ensures request { self.new ≡ record self.old { phase = phase; meta = meta; reader = Some hit } }
        ensures store { Spends S.Hit.reader self.old.reader (S.held store.old) (S.held store.new) }
        ensures ids { S.ids store.new ≡ S.ids store.old }
    {
        self.phase = phase;
        self.meta = meta;
        let earlier = self.reader.replace(hit);
        finish_reader(store, earlier);
    }

    // Gives up what was found, and what was there.
    fn pass_found(&mut self, store: &mut S, hit: S::Hit)
        ensures request { self.new ≡ record self.old { meta = None; reader = None } }
        ensures store { (mid : StoreState) × Readers.PartsReader (S.Hit.reader hit) (S.held store.old) mid × Spends S.Hit.reader self.old.reader mid (S.held store.new) }
        ensures ids { S.ids store.new ≡ S.ids store.old }
    {
        hit.finish(store);
        self.meta = None;
        let earlier = self.reader.take();
        finish_reader(store, earlier);
    }

    // Takes what was found, or in a miss form gives it up.
    fn take_found(&mut self, store: &mut S, meta: CacheMeta, hit: S::Hit, status: HitStatus)
        requires phase { can_look_up self.old.phase ≡ true }
        requires key { is_some self.old.key ≡ true }
        ensures request { self.new ≡ with_found meta hit status self.old }
        ensures store { FoundSpends S.Hit.reader hit status self.old.reader (S.held store.old) (S.held store.new) }
        ensures ids { S.ids store.new ≡ S.ids store.old }
    {
        if status.is_treated_as_miss() {
            self.pass_found(store, hit);
        } else {
            let phase = status.found_phase(self.phase);
            self.keep_found(store, Some(meta), hit, phase);
        }
    }

    /// Takes a response that a look-up found, with that status. One that is fresh or stale is the request's from then on: its meta and
    /// its reader, and a use of its entry is counted, where the manager is on and the reader counts. One that is treated as a miss is
    /// given up, with the earlier meta. An earlier reader is spent last. Where the response isn't fresh, the lock is asked, if it is on,
    /// as for a stale one where the request is then in `Stale`, and what it gives is held in the place of an earlier read lock.
    ///
    /// # Errors
    ///
    /// `Lock` where the lock refuses, `Evict` where the entry isn't tracked and can't be, for the manager's reason: the new reader is spent,
    /// what the lock gave is given back, and all else is as before.
    pub fn cache_found<E: EvictionManager, P, L: CacheKeyLock, A>(
        &mut self,
        alloc: Global,
        parts: &mut CacheParts<S, E, P, L, A>,
        meta: CacheMeta,
        hit: HitHandler<S>,
        status: HitStatus,
        moment: Moment,
    ) -> Result<(), FoundFault>
        requires phase { can_look_up self.old.phase ≡ true }
        requires no_permit { holds_permit self.old.lock ≡ false }
        ensures found { let old = point self.old (S.held parts.old.store) (L.state parts.old.lock) in let new = point self.new (S.held parts.new.store) (L.state parts.new.lock) in
            MatchResult result (λ _. IsTaken S.Hit.reader moment meta hit status old new) (λ fault. IsGivenUp S.Hit.reader moment hit status fault old new) }
        ensures used { UseAnswer E.shard_count (is_counted S.Hit.counts hit status self.old) (entry_at self.old.key (S.Hit.id hit)) (E.weighed (S.Hit.weight hit))
            (E.managed parts.old.manager) result (E.managed parts.new.manager) }
        ensures untracked { IfErr result (λ fault. IsUntracked E.shard_count (entry_at self.old.key (S.Hit.id hit)) fault (E.managed parts.old.manager)) }
        ensures ids { S.ids parts.new.store ≡ S.ids parts.old.store }
        ensures parts { parts.new ≡ record parts.old { store = parts.new.store; manager = parts.new.manager; lock = parts.new.lock } }
    {
        let Some(_) = &self.key else { unreachable!() };
        let given = match self.question(&mut parts.lock, status, moment) {
            Ok(given) => given,
            Err(fault) => {
                hit.finish(&mut parts.store);
                return Err(FoundFault::Lock(fault));
            }
        };
        match self.count_use(alloc, &mut parts.manager, meta.fresh_until(), &hit, status) {
            Ok(()) => {}
            Err(refusal) => {
                hit.finish(&mut parts.store);
                give_back(&mut parts.lock, given);
                return Err(FoundFault::Evict(refusal));
            }
        }
        self.take_found(&mut parts.store, meta, hit, status);
        self.lock.hold(&mut parts.lock, given);
        Ok(())
    }
}
