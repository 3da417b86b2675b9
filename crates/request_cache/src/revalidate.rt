//! A stale response that upstream confirms.
ghost use Rattle.std.specs.Prelude.{◌≡◌, Some, true, is_some, if◌then◌else◌, IfOk, IfSome, IsErrOf};
ghost use Rattle.cache_changes.specs.Store.{body_at};
ghost use Rattle.request_store.specs.Admissions.{rules_of, cache_of};
ghost use Rattle.cache_lock.specs.declared.status.LockStatus.TheVariants.{Done};
ghost use Rattle.request_phases.specs.declared.phase.CachePhase.TheVariants as phases;
ghost use Rattle.request_phases.specs.Phases.{is_stale_phase};
ghost use Rattle.request_phases.specs.Locks.{let_go};
ghost use Rattle.request_phases.specs.Releases.{is_releasable, lock_released, lock_released_for, status_for, key_in};
ghost use Rattle.request_store.specs.Entries.{entry_at};
ghost use Rattle.request_cache.specs.Request.{stored_at};
ghost use Rattle.cache_heads.specs.Merged.{renewed_from, renewed_names, merged, Outgrows};
ghost use Rattle.request_cache.specs.Revalidations.{with_head, confirmed, is_confirmed, is_confirmed_by, id_found, RevalidateAnswer};

use crate::renew::{RevalidateFault, is_confirmed_by, renew, settle_entry};
use crate::request::HttpCache;
use cache_entries::entry::CacheEntryId;
use cache_evict::{CacheEntryKey, EvictionManager};
use cache_heads::merged::{merged_head, renewed_from};
use cache_heads::meta::ResponseHeader;
use cache_heads::{CacheMeta, NoCacheReason};
use cache_lock::{CacheKeyLock, LockStatus};
use cache_store::storage::{HandleHit, Storage};
use http_header::HeaderMapError;
use rand_core::Rng;
use request_phases::CachePhase;
use request_store::CacheParts;
use std::alloc::Global;

impl<S: Storage> HttpCache<S> {
    // The id of what was found, where its reader is still there.
    fn id_found(&self) -> Option<CacheEntryId>
        ensures { result ≡ id_found S.Hit.id self.now.reader }
    {
        match &self.reader {
            Some(hit) => hit.entry_id(),
            None => None,
        }
    }

    // Takes the meta of what upstream confirmed. The permit is released as done.
    fn confirm<L: CacheKeyLock>(&mut self, lock: &mut L, meta: CacheMeta)
        requires { is_some self.old.key ≡ true }
        ensures request { self.new ≡ confirmed meta self.old }
        ensures lock { L.state lock.new ≡ lock_released (stored_at self.old.key) Done self.old.lock (L.state lock.old) }
    {
        let Some(key) = &self.key else { unreachable!() };
        self.lock.release(lock, key, LockStatus::Done);
        self.meta = Some(meta);
        self.stale_variance = None;
        self.phase = CachePhase::Revalidated;
    }

    // Takes that meta after a fault too, where no body can take it; else all is as before.
    fn refuse<L: CacheKeyLock>(&mut self, lock: &mut L, meta: CacheMeta, fault: &RevalidateFault)
        requires { is_some self.old.key ≡ true }
        ensures request { self.new ≡ (if is_confirmed_by fault.now then confirmed meta self.old else self.old) }
        ensures lock { L.state lock.new ≡ (if is_confirmed_by fault.now then lock_released (stored_at self.old.key) Done self.old.lock (L.state lock.old) else L.state lock.old) }
    {
        if is_confirmed_by(fault) {
            self.confirm(lock, meta);
        }
    }

    /// Takes the meta of a response that confirms the stale one, whose moment of creation and provenance stay, and stores it in the place
    /// of the one before. Where the manager is on, the body's entry gets its weight with that meta, in place where it is tracked, and what
    /// is evicted then is purged, perhaps the body itself. The permit is released as done, and the request is `Revalidated`. Returns the
    /// entries that were evicted, in order.
    ///
    /// # Errors
    ///
    /// `NoMeta` where the key has no body, and then `MetaMoment` where the meta can't be written: all is as before, but that the request
    /// is `Revalidated` and the permit released. `Weight`, `Length` and `NumbersSpent` where the entry can't have the weight or can't be
    /// tracked, and `Memory` where nothing was stored: all is as before, the permit too. `Memory` where the meta was stored and memory
    /// runs out in the evictions: what was evicted until then is purged, and the body is removed with its entry; the permit is released.
    pub fn revalidate_cache_meta<E: EvictionManager, P, L: CacheKeyLock, A, R: Rng>(
        &mut self,
        alloc: Global,
        parts: &mut CacheParts<S, E, P, L, A>,
        rng: &mut R,
        meta: CacheMeta,
    ) -> Result<Vec<CacheEntryKey>, RevalidateFault>
        requires phase { is_stale_phase self.old.phase ≡ true }
        requires meta { is_some self.old.meta ≡ true }
        ensures revalidated { let rules = rules_of S.held S.ids S.purged_as S.is_spent S.Miss.told E.shard_count E.weighed E.pick in
            let old = cache_of parts.old.store (E.managed parts.old.manager) (R.stream rng.old) in let new = cache_of parts.new.store (E.managed parts.new.manager) (R.stream rng.new) in
            let k = stored_at self.old.key in let e = entry_at self.old.key (id_found S.Hit.id self.old.reader) in
            RevalidateAnswer rules S.weigh k e self.old.evicts (renewed_from self.old.meta meta) (body_at k (S.held parts.old.store).store) result old new }
        ensures request { self.new ≡ (if is_confirmed result then confirmed (renewed_from self.old.meta meta) self.old else self.old) }
        ensures lock { let s = L.state parts.old.lock in L.state parts.new.lock ≡ (if is_confirmed result then lock_released (stored_at self.old.key) Done self.old.lock s else s) }
        ensures parts { parts.new ≡ record parts.old { store = parts.new.store; manager = parts.new.manager; lock = parts.new.lock } }
    {
        let id = self.id_found();
        let meta = renewed_from(&self.meta, meta);
        let Some(key) = &self.key else { unreachable!() };
        match renew(alloc, parts, key, id, self.evicts, &meta) {
            Ok(entry) => {
                self.confirm(&mut parts.lock, meta);
                settle_entry(alloc, parts, rng, entry)
            }
            Err(fault) => {
                self.refuse(&mut parts.lock, meta, &fault);
                Err(fault)
            }
        }
    }

    /// Returns the stale response's head with the fields that a response sent which confirms it: Cache-Control, Expires, Cache-Tag,
    /// CDN-Cache-Control and ETag, where they were sent.
    ///
    /// # Errors
    ///
    /// Out of memory; and `MaxSizeReached`, only where the head gets more names or more values than it can count.
    pub fn revalidate_merge_header(
        &self,
        sent: &ResponseHeader,
    ) -> Result<ResponseHeader, HeaderMapError>
        requires phase { is_stale_phase self.now.phase ≡ true }
        requires meta { is_some self.now.meta ≡ true }
        ensures ok { IfOk result (λ header. IfSome self.now.meta (λ m. header ≡ merged m.header sent.now)) }
        ensures full { IsErrOf result HeaderMapError.MaxSizeReached → IfSome self.now.meta (λ m. Outgrows sent.now.headers renewed_names m.header.headers) }
    {
        let Some(meta) = &self.meta else {
            unreachable!()
        };
        merged_head(meta, sent)
    }

    /// Takes the head of a response that confirms the stale one and may not be stored, for a reason. What is held of the lock is released
    /// for it: a permit ends by the reason.
    pub fn revalidate_uncacheable<E, P, L: CacheKeyLock, A>(
        &mut self,
        parts: &mut CacheParts<S, E, P, L, A>,
        header: ResponseHeader,
        reason: NoCacheReason,
    )
        requires phase { is_stale_phase self.old.phase ≡ true }
        requires meta { is_some self.old.meta ≡ true }
        requires releasable { is_releasable self.old.lock reason ≡ true }
        ensures request { self.new ≡ record self.old { phase = phases.RevalidatedNoCache reason; meta = with_head header self.old.meta; lock = let_go self.old.lock } }
        ensures lock { L.state parts.new.lock ≡ lock_released_for (key_in self.old.key) (status_for (L.custom parts.old.lock) reason) self.old.lock (L.state parts.old.lock) }
        ensures parts { parts.new ≡ record parts.old { lock = parts.new.lock } }
    {
        let Some(meta) = &mut self.meta else {
            unreachable!()
        };
        meta.header = header;
        self.lock
            .release_for(&mut parts.lock, self.key.as_ref(), reason);
        self.phase = CachePhase::RevalidatedNoCache(reason);
    }
}
