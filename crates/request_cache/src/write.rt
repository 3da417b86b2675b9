//! How the write of a response begins.
ghost use Rattle.std.specs.Prelude.{◌≡◌, true, is_some, None, IfSome, MatchResult};
ghost use Rattle.request_phases.specs.Phases.{can_begin, is_write_phase};
ghost use Rattle.request_store.specs.Spends.{Spends};
ghost use Rattle.request_cache.specs.Points.{point};
ghost use Rattle.request_cache.specs.Writes.{variance_in, meta_for, with_meta, adopted, earlier, lock_adopted, Begins, BeginsNot};

use crate::request::HttpCache;
use cache_heads::CacheMeta;
use cache_heads::merged::with_provenance_of;
use cache_lock::{CacheKeyLock, LockStatus};
use cache_store::storage::{Storage, StoreFault};
use cache_words::key::HashBinary;
use request_phases::CachePhase;
use request_store::{CacheParts, begin, finish_reader};

impl<S: Storage> HttpCache<S> {
    // The meta that is to be stored: of a `Stale` request it keeps the provenance.
    fn meta_for(&self, meta: CacheMeta) -> CacheMeta
        ensures { result ≡ meta_for meta self.now }
    {
        if self.phase.is_stale_phase() {
            with_provenance_of(&self.meta, meta)
        } else {
            meta
        }
    }

    // The variance of the meta.
    fn variance(&self) -> Option<HashBinary>
        ensures { result ≡ variance_in self.now.meta }
    {
        match &self.meta {
            Some(meta) => meta.variance(),
            None => None,
        }
    }

    // Sets a meta that is to be stored as it is.
    fn set_meta(&mut self, meta: CacheMeta)
        requires { can_begin self.old.phase ≡ true }
        ensures { self.new ≡ with_meta meta self.old }
    {
        if self.phase.is_stale_phase() {
            self.stale_variance = self.variance();
            self.meta = Some(meta);
            self.phase = CachePhase::Expired;
        } else {
            self.stale_variance = None;
            self.meta = Some(meta);
        }
    }

    // Takes the writer, and its own reader where there is one: the permit is released then, and the earlier reader spent.
    fn adopt<E, P, L: CacheKeyLock, A>(
        &mut self,
        parts: &mut CacheParts<S, E, P, L, A>,
        miss: S::Miss,
        own: Option<S::Hit>,
    )
        requires phase { is_write_phase self.old.phase ≡ true }
        requires key { is_some self.old.key ≡ true }
        requires writer { self.old.writer ≡ None }
        ensures request { self.new ≡ adopted miss own self.old }
        ensures store { Spends S.Hit.reader (earlier own self.old) (S.held parts.old.store) (S.held parts.new.store) }
        ensures ids { S.ids parts.new.store ≡ S.ids parts.old.store }
        ensures lock { L.state parts.new.lock ≡ lock_adopted own self.old (L.state parts.old.lock) }
        ensures parts { parts.new ≡ record parts.old { store = parts.new.store; lock = parts.new.lock } }
    {
        let Some(key) = &self.key else { unreachable!() };
        match self.writer.replace(miss) {
            None => {}
            Some(_) => unreachable!(),
        }
        if let Some(own) = own {
            self.lock.release(&mut parts.lock, key, LockStatus::Done);
            let earlier = self.reader.replace(own);
            finish_reader(&mut parts.store, earlier);
        }
    }

    /// Sets the meta of a response that is to be stored. A request that was `Stale` is `Expired` then: the meta keeps the provenance of
    /// the one before, where there is one, and that one's variance is kept for `update_variance`.
    pub fn set_cache_meta(&mut self, meta: CacheMeta)
        requires { can_begin self.old.phase ≡ true }
        ensures { self.new ≡ with_meta (meta_for meta self.old) self.old }
    {
        let stored = self.meta_for(meta);
        self.set_meta(stored);
    }

    /// Begins the write of a response, with the meta that is set. In a store that streams, the request then has a reader of its own write,
    /// the permit is released as done, and an earlier reader is spent.
    ///
    /// # Errors
    ///
    /// Those of the store's beginning, and of its look-up of the write. All is as before, but that a number of a write may be used up.
    pub fn set_miss_handler<E, P, L: CacheKeyLock, A>(
        &mut self,
        parts: &mut CacheParts<S, E, P, L, A>,
    ) -> Result<(), StoreFault>
        requires phase { is_write_phase self.old.phase ≡ true }
        requires meta { is_some self.old.meta ≡ true }
        requires writer { self.old.writer ≡ None }
        ensures begun { let old = point self.old (S.held parts.old.store) (L.state parts.old.lock) in let new = point self.new (S.held parts.new.store) (L.state parts.new.lock) in
            IfSome self.old.meta (λ meta. MatchResult result
            (λ _. Begins S.Hit.reader S.Miss.number (λ m. S.tagged (S.Miss.tag m)) S.streams (S.is_spent (S.held parts.old.store)) meta old new)
            (λ fault. BeginsNot S.Hit.reader S.Miss.number (λ m. S.tagged (S.Miss.tag m)) S.streams (S.is_spent (S.held parts.old.store)) meta fault old new)) }
        ensures ids { S.ids parts.new.store ≡ S.ids parts.old.store }
        ensures parts { parts.new ≡ record parts.old { store = parts.new.store; lock = parts.new.lock } }
    {
        let Some(key) = &self.key else { unreachable!() };
        let Some(meta) = &self.meta else {
            unreachable!()
        };
        match begin(&mut parts.store, key, meta) {
            Ok((miss, own)) => {
                self.adopt(parts, miss, own);
                Ok(())
            }
            Err(fault) => Err(fault),
        }
    }

    /// Begins the write of a response with that meta: `set_cache_meta`, and then `set_miss_handler`.
    ///
    /// # Errors
    ///
    /// Those of `set_miss_handler`. All is as before, the meta and the phase too, but that a number of a write may be used up.
    pub fn begin_write<E, P, L: CacheKeyLock, A>(
        &mut self,
        parts: &mut CacheParts<S, E, P, L, A>,
        meta: CacheMeta,
    ) -> Result<(), StoreFault>
        requires phase { can_begin self.old.phase ≡ true }
        requires writer { self.old.writer ≡ None }
        ensures begun { let stored = meta_for meta self.old in let new = point self.new (S.held parts.new.store) (L.state parts.new.lock) in
            MatchResult result
            (λ _. Begins S.Hit.reader S.Miss.number (λ m. S.tagged (S.Miss.tag m)) S.streams (S.is_spent (S.held parts.old.store)) stored
            (point (with_meta stored self.old) (S.held parts.old.store) (L.state parts.old.lock)) new)
            (λ fault. BeginsNot S.Hit.reader S.Miss.number (λ m. S.tagged (S.Miss.tag m)) S.streams (S.is_spent (S.held parts.old.store)) stored fault
            (point self.old (S.held parts.old.store) (L.state parts.old.lock)) new) }
        ensures ids { S.ids parts.new.store ≡ S.ids parts.old.store }
        ensures parts { parts.new ≡ record parts.old { store = parts.new.store; lock = parts.new.lock } }
    {
        let meta = self.meta_for(meta);
        let Some(key) = &self.key else { unreachable!() };
        match begin(&mut parts.store, key, &meta) {
            Ok((miss, own)) => {
                self.set_meta(meta);
                self.adopt(parts, miss, own);
                Ok(())
            }
            Err(fault) => Err(fault),
        }
    }
}
