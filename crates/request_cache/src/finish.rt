//! How the write of a response is finished.
ghost use Rattle.std.specs.Prelude.{◌≡◌, true};
ghost use Rattle.request_store.specs.Admissions.{rules_of, cache_of};
ghost use Rattle.request_phases.specs.Phases.{is_write_phase};
ghost use Rattle.request_store.specs.Finishes.{FinishAnswer};
ghost use Rattle.request_cache.specs.Request.{stored_at};
ghost use Rattle.request_cache.specs.Finishes.{finish_status, IsLeftBy, lock_finished};

use crate::request::HttpCache;
use cache_evict::EvictionManager;
use cache_lock::{CacheKeyLock, LockStatus};
use cache_store::storage::{MissFault, Storage};
use cache_words::time::Moment;
use rand_core::Rng;
use request_store::{CacheParts, FinishFault, Finished, admit_stored, out_of_memory, store_body};
use std::alloc::Global;

impl<S: Storage> HttpCache<S> {
    // Until when the response is fresh; a manager doesn't look at it.
    fn fresh_until(&self) -> Moment {
        match &self.meta {
            Some(meta) => meta.fresh_until(),
            None => Moment::from_seconds(0),
        }
    }

    /// Finishes the write, if there is one: its body is stored, the permit is released, and where the manager is on the entry is admitted
    /// as the store reports of the body, and what that evicts is purged. It may be asked more than once.
    ///
    /// # Errors
    ///
    /// `WriteRemoved` exactly where the write was removed: it is given up, and the permit is released for another request to try.
    /// `Memory` where memory runs out before anything is stored: nothing has changed, and the write may be finished again.
    /// `Weight`, `Length`, `NumbersSpent` and `Memory` where the entry isn't admitted or memory runs out in the evictions: what was evicted
    /// until then is purged, and all that is stored under the key is removed with its entry; the permit is released as done.
    pub fn finish_miss_handler<E: EvictionManager, P, L: CacheKeyLock, A, R: Rng>(
        &mut self,
        alloc: Global,
        parts: &mut CacheParts<S, E, P, L, A>,
        rng: &mut R,
    ) -> Result<Option<Finished>, FinishFault>
        requires { is_write_phase self.old.phase ≡ true }
        ensures finished { let rules = rules_of S.held S.ids S.purged_as S.is_spent S.Miss.told E.shard_count E.weighed E.pick in
            let old = cache_of parts.old.store (E.managed parts.old.manager) (R.stream rng.old) in let new = cache_of parts.new.store (E.managed parts.new.manager) (R.stream rng.new) in
            FinishAnswer rules S.Miss.number S.Miss.id self.old.writer self.old.key self.old.evicts result old new }
        ensures request { IsLeftBy S.Miss.number S.Miss.id S.Miss.tag (finish_status result) self.old self.new }
        ensures lock { L.state parts.new.lock ≡ lock_finished (finish_status result) (stored_at self.old.key) self.old.lock (L.state parts.old.lock) }
        ensures parts { parts.new ≡ record parts.old { store = parts.new.store; manager = parts.new.manager; lock = parts.new.lock } }
    {
        let Some(key) = &self.key else { unreachable!() };
        let Some(writer) = self.writer.take() else {
            return Ok(None);
        };
        match store_body(&mut parts.store, key, self.evicts, writer) {
            Ok(stored) => {
                self.lock.release(&mut parts.lock, key, LockStatus::Done);
                let fresh_until = self.fresh_until();
                admit_stored(alloc, parts, rng, fresh_until, stored)
            }
            Err(MissFault::Memory(writer)) => {
                match self.writer.replace(writer) {
                    None => {}
                    Some(_) => unreachable!(),
                }
                Err(out_of_memory(alloc))
            }
            Err(MissFault::WriteRemoved) => {
                self.lock
                    .release(&mut parts.lock, key, LockStatus::TransientError);
                Err(FinishFault::WriteRemoved)
            }
        }
    }
}
