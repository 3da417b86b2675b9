//! Purges.
ghost use Rattle.std.specs.Prelude.{◌≡◌, true, IfOk, IfErr};
ghost use Rattle.cache_store.specs.declared.storage.StoreFault.TheVariants.{Memory as OutOfMemory};
ghost use Rattle.request_phases.specs.Phases.{is_key_phase, has_key_phase};
ghost use Rattle.request_store.specs.Purges.{kept_in, PurgesKey, ExpiresKey};

use crate::request::HttpCache;
use cache_evict::EvictionManager;
use cache_store::storage::{Storage, StoreFault};
use cache_words::time::Moment;
use request_store::{CacheParts, expire_key, purge_key};

impl<S: Storage> HttpCache<S> {
    /// Removes what is stored under the key. Returns whether something was. Where the manager is on, its entry is tracked no more.
    ///
    /// # Errors
    ///
    /// `Memory` when out of memory. Nothing has changed.
    pub fn purge<E: EvictionManager, P, L, A>(
        &self,
        parts: &mut CacheParts<S, E, P, L, A>,
    ) -> Result<bool, StoreFault>
        requires { is_key_phase self.now.phase ≡ true }
        ensures purged { let old = kept_in parts.old.store (E.managed parts.old.manager) in let new = kept_in parts.new.store (E.managed parts.new.manager) in
            IfOk result (λ found. PurgesKey S.held S.ids S.purged_as E.shard_count self.now.evicts self.now.key found old new) }
        ensures err { IfErr result (λ f. (f ≡ OutOfMemory) × (parts.new ≡ parts.old)) }
        ensures parts { parts.new ≡ record parts.old { store = parts.new.store; manager = parts.new.manager } }
    {
        let Some(key) = &self.key else { unreachable!() };
        purge_key(parts, key, self.evicts)
    }

    /// The same in each phase with a key. It is done at once; the context is for whoever logs a fault.
    ///
    /// # Errors
    ///
    /// `Memory` when out of memory. Nothing has changed.
    pub fn spawn_async_purge<E: EvictionManager, P, L, A>(
        &self,
        parts: &mut CacheParts<S, E, P, L, A>,
        _context: &'static str,
    ) -> Result<bool, StoreFault>
        requires { has_key_phase self.now.phase ≡ true }
        ensures purged { let old = kept_in parts.old.store (E.managed parts.old.manager) in let new = kept_in parts.new.store (E.managed parts.new.manager) in
            IfOk result (λ found. PurgesKey S.held S.ids S.purged_as E.shard_count self.now.evicts self.now.key found old new) }
        ensures err { IfErr result (λ f. (f ≡ OutOfMemory) × (parts.new ≡ parts.old)) }
        ensures parts { parts.new ≡ record parts.old { store = parts.new.store; manager = parts.new.manager } }
    {
        let tracked = self.evicts;
        let Some(key) = &self.key else { unreachable!() };
        purge_key(parts, key, tracked)
    }

    /// Lets what is stored under the key go stale at a moment. Returns whether something was stored. In a store in which nothing goes
    /// stale it is removed, and then, where the manager is on, its entry is tracked no more.
    ///
    /// # Errors
    ///
    /// `Memory` when out of memory. Nothing has changed.
    pub fn expire<E: EvictionManager, P, L, A>(
        &self,
        parts: &mut CacheParts<S, E, P, L, A>,
        moment: Moment,
    ) -> Result<bool, StoreFault>
        requires { is_key_phase self.now.phase ≡ true }
        ensures expired { let old = kept_in parts.old.store (E.managed parts.old.manager) in let new = kept_in parts.new.store (E.managed parts.new.manager) in
            IfOk result (λ found. ExpiresKey S.held S.ids S.purged_as E.shard_count self.now.evicts self.now.key moment found old new) }
        ensures err { IfErr result (λ f. (f ≡ OutOfMemory) × (S.held parts.new.store ≡ S.held parts.old.store) × (S.ids parts.new.store ≡ S.ids parts.old.store)
            × (parts.new.manager ≡ parts.old.manager)) }
        ensures parts { parts.new ≡ record parts.old { store = parts.new.store; manager = parts.new.manager } }
    {
        let Some(key) = &self.key else { unreachable!() };
        expire_key(parts, key, self.evicts, moment)
    }
}
