//! How a request ends, or stops using the cache.
ghost use Rattle.std.specs.Prelude.{◌≡◌, false, true};
ghost use Rattle.request_phases.specs.Phases.{is_never_enabled};
ghost use Rattle.request_phases.specs.Locks.{lock_left};
ghost use Rattle.request_phases.specs.Releases.{is_releasable};
ghost use Rattle.request_cache.specs.Points.{point, IsDisabledFor};
ghost use Rattle.request_store.specs.Spends.{Ends};

use crate::request::HttpCache;
use cache_heads::NoCacheReason;
use cache_lock::CacheKeyLock;
use cache_store::storage::Storage;
use request_phases::CachePhase;
use request_store::{CacheParts, end_handlers};

impl<S: Storage> HttpCache<S> {
    /// Ends the request: its write is left, its reader is spent, and a permit is dropped or a read lock left.
    pub fn end<E, P, L: CacheKeyLock, A>(self, parts: &mut CacheParts<S, E, P, L, A>)
        ensures store { Ends S.Hit.reader S.Miss.number self.reader self.writer (S.held parts.old.store) (S.held parts.new.store) }
        ensures ids { S.ids parts.new.store ≡ S.ids parts.old.store }
        ensures lock { L.state parts.new.lock ≡ lock_left self.lock (L.state parts.old.lock) }
        ensures parts { parts.new ≡ record parts.old { store = parts.new.store; lock = parts.new.lock } }
    {
        let HttpCache {
            phase: _,
            digest: _,
            key: _,
            size: _,
            predicts: _,
            predicted: _,
            evicts: _,
            admits: _,
            lock,
            meta: _,
            valid_after: _,
            stale_variance: _,
            reader,
            writer,
        } = self;
        end_handlers(&mut parts.store, reader, writer);
        lock.end(&mut parts.lock);
    }

    /// Stops using the cache for a reason: a permit ends by the reason and a read lock is left, the write is left, the reader spent, and
    /// the meta goes. What stays is the key, the counted size, the predictor with its reason, and what the request reports of itself. A
    /// request that has stopped before takes the reason alone, and one that never used the cache nothing.
    pub fn disable<E, P, L: CacheKeyLock, A>(
        &mut self,
        parts: &mut CacheParts<S, E, P, L, A>,
        reason: NoCacheReason,
    )
        requires enabled { is_never_enabled (CachePhase.Disabled reason) ≡ false }
        requires releasable { is_releasable self.old.lock reason ≡ true }
        ensures disabled { IsDisabledFor S.Hit.reader S.Miss.number (L.custom parts.old.lock) reason
            (point self.old (S.held parts.old.store) (L.state parts.old.lock)) (point self.new (S.held parts.new.store) (L.state parts.new.lock)) }
        ensures ids { S.ids parts.new.store ≡ S.ids parts.old.store }
        ensures parts { parts.new ≡ record parts.old { store = parts.new.store; lock = parts.new.lock } }
    {
        if self.phase.is_never_enabled() {
            return;
        }
        if self.phase.is_disabled() {
            self.phase = CachePhase::Disabled(reason);
            return;
        }
        self.lock
            .release_for(&mut parts.lock, self.key.as_ref(), reason);
        let reader = self.reader.take();
        let writer = self.writer.take();
        end_handlers(&mut parts.store, reader, writer);
        self.evicts = false;
        self.admits = false;
        self.meta = None;
        self.valid_after = None;
        self.stale_variance = None;
        self.lock.set(false, None);
        self.phase = CachePhase::Disabled(reason);
    }
}
