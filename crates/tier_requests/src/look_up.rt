//! Look-ups of a request.
ghost use Rattle.std.specs.Prelude.{◌≡◌, true, None, MatchResult};
ghost use Rattle.cache_words.specs.Time.{MomentValue};
ghost use Rattle.request_phases.specs.Phases as phases;
ghost use Rattle.request_phases.specs.Locks.{is_read, held};
ghost use Rattle.cache_store.specs.declared.storage.store.FoundAt.TheVariants.{Fresh, Stale};
ghost use Rattle.cache_store.specs.Readers.{PartsReader};
ghost use Rattle.store_memory.specs.Readings.{reader_of};
ghost use Rattle.tier_model.specs.declared.event.Answer.TheVariants.{Absent};
ghost use Rattle.tier_model.specs.Shelf.{Look};
ghost use Rattle.tier_model.specs.State.{closed};
ghost use Rattle.tier_model.specs.Checks.{look_refusal};
ghost use Rattle.tier_model.specs.After.{turned};
ghost use Rattle.tier_requests.specs.Shelves.{shelf_of};
ghost use Rattle.tier_requests.specs.Plain.{given_of, without_head};
ghost use Rattle.tier_requests.specs.Looks.{LookAnswer, lent};
ghost use Rattle.tier_requests.specs.Finds.{TakeAnswer, IsFoundBy, hit_told, FoundAnswer, missed_by};

use crate::faults::{fault_for, lock_fault_for, nothing_done, out_of_memory};
use crate::request::{Request, TierParts};
use bytes::Bytes;
use cache_evict::EvictionManager;
use cache_heads::CacheMeta;
use cache_store::storage::{FoundAt, HandleHit, ReadStep, StoreFault};
use cache_words::time::Moment;
use head_lines::ResponseHeader;
use head_packed::HeldMeta;
use http::StatusCode;
use http_header::HeaderMap;
use request_cache::{FoundFault, HttpCache, LookUpFault};
use request_phases::{CachePhase, HitStatus};
use std::alloc::Global;
use std::hash::BuildHasher;
use store_memory::MemCache;
use store_memory::handlers::MemHitHandler;
use tier_model::event::{Answer, LockGiven, TierFault};

// Takes the bytes of a whole body out of its reader, which has read them then.
fn take_body(hit: &mut MemHitHandler) -> Result<Option<Bytes>, StoreFault>
    ensures { TakeAnswer hit.old result hit.new }
{
    match hit {
        MemHitHandler::Complete(whole) => match whole.read() {
            Ok(ReadStep::Bytes(bytes)) => Ok(Some(bytes)),
            Ok(ReadStep::Pending | ReadStep::End) => Ok(Some(Bytes::new())),
            Err(fault) => Err(fault),
        },
        MemHitHandler::Partial(_) => Ok(None),
    }
}

// Goes on where nothing was found and the lock has answered, and returns whether it gave a wait. Only what was found keeps a meta.
fn go_without<S: BuildHasher>(cache: &mut HttpCache<MemCache<S>>) -> bool
    requires { phases.can_look_up cache.old.phase ≡ true }
    ensures waits { result ≡ is_read (held cache.old.lock) }
    ensures request { cache.new ≡ missed_by cache.old }
{
    let waits = cache.is_cache_locked();
    if !waits {
        cache.cache_miss();
    } else if cache.phase().has_reader_phase() {
        cache.forget_cache_meta();
    }
    waits
}

// The meta that the request to the cache keeps of what is held: nothing is asked of its head.
fn without_head(alloc: Global, meta: &HeldMeta) -> CacheMeta
    ensures { result ≡ without_head meta.now }
{
    CacheMeta {
        internal: meta.internal(),
        header: ResponseHeader {
            status: StatusCode::OK,
            headers: HeaderMap::new(alloc),
        },
        external: meta.external(),
    }
}

impl<S: BuildHasher> Request<S> {
    // Why a look-up isn't allowed, if it isn't.
    pub(crate) fn look_refusal(&self) -> Option<TierFault>
        ensures { result ≡ look_refusal self.now }
    {
        let allowed = match self.cache.phase() {
            CachePhase::CacheKey | CachePhase::Stale => true,
            _ => false,
        };
        if !allowed || self.has_permit() {
            return Some(TierFault::WrongPhase);
        }
        if self.is_waiting() {
            return Some(TierFault::Waiting);
        }
        None
    }

    // Nothing was found.
    fn missed<E>(&mut self, parts: &mut TierParts<S, E>) -> Answer
        ensures answer { result ≡ Absent (given_of self.old.held) }
        ensures request { self.new ≡ record self.old { reader = closed } }
        ensures shelf { shelf_of parts.new.store ≡ turned self.old.reader closed (shelf_of parts.old.store) }
        ensures parts { parts.new ≡ record parts.old { store = parts.new.store } }
    {
        let lock = self.given();
        self.spend_reader(parts);
        Answer::Absent { lock }
    }

    // Something was found that is fresh: its meta stays in the store, and the lock isn't asked. A reader that isn't taken is spent.
    #[inline(always)]
    fn found_fresh<E: EvictionManager>(
        &mut self,
        alloc: Global,
        parts: &mut TierParts<S, E>,
        hit: MemHitHandler,
        fresh_until: Moment,
    ) -> Result<Answer, TierFault>
        requires { look_refusal self.old ≡ None }
        ensures answer { (t : MomentValue) (l : Look) → IsFoundBy t l (Fresh fresh_until hit) → FoundAnswer E.shard_count E.weighed t self.old l (E.managed parts.old.manager) parts.old.lock
            result self.new (E.managed parts.new.manager) parts.new.lock }
        ensures shelf { MatchResult result (λ _. shelf_of parts.new.store ≡ turned self.old.reader closed (shelf_of parts.old.store))
            (λ _. PartsReader (reader_of hit) parts.old.store parts.new.store) }
        ensures parts { parts.new ≡ record parts.old { store = parts.new.store; manager = parts.new.manager } }
    {
        let mut hit = hit;
        let complete = hit.can_seek();
        let unread = match take_body(&mut hit) {
            Ok(unread) => unread,
            Err(_) => {
                hit.finish(&mut parts.store);
                return Err(out_of_memory(alloc));
            }
        };
        match self.cache.cache_found_fresh(alloc, parts, hit, fresh_until) {
            Ok(()) => {}
            Err(FoundFault::Evict(fault)) => return Err(fault_for(fault, nothing_done(alloc))),
            Err(FoundFault::Lock(_)) => unreachable!(),
        }
        self.held = None;
        self.unread = unread;
        self.gave_read = false;
        Ok(Answer::Found {
            fresh: true,
            complete,
            lock: LockGiven::None,
        })
    }

    // Something was found that is fresh no more: the request holds its meta, of whose head no byte is read, and keeps the number of its
    // write. A reader that isn't taken is spent.
    #[inline(never)]
    fn found_stale<E: EvictionManager>(
        &mut self,
        alloc: Global,
        parts: &mut TierParts<S, E>,
        meta: HeldMeta,
        hit: MemHitHandler,
        moment: Moment,
    ) -> Result<Answer, TierFault>
        requires { look_refusal self.old ≡ None }
        ensures answer { (l : Look) → IsFoundBy moment l (Stale meta hit) → FoundAnswer E.shard_count E.weighed moment self.old l (E.managed parts.old.manager) parts.old.lock
            result self.new (E.managed parts.new.manager) parts.new.lock }
        ensures shelf { MatchResult result (λ _. shelf_of parts.new.store ≡ turned self.old.reader closed (shelf_of parts.old.store))
            (λ _. PartsReader (reader_of hit) parts.old.store parts.new.store) }
        ensures parts { parts.new ≡ record parts.old { store = parts.new.store; manager = parts.new.manager; lock = parts.new.lock } }
    {
        let mut hit = hit;
        let seen = hit.write_number();
        let complete = hit.can_seek();
        let bare = without_head(alloc, &meta);
        let Ok(held) = Box::new(alloc, meta) else {
            hit.finish(&mut parts.store);
            return Err(out_of_memory(alloc));
        };
        let unread = match take_body(&mut hit) {
            Ok(unread) => unread,
            Err(_) => {
                hit.finish(&mut parts.store);
                return Err(out_of_memory(alloc));
            }
        };
        match self
            .cache
            .cache_found(alloc, parts, bare, hit, HitStatus::Expired, moment)
        {
            Ok(()) => {}
            Err(FoundFault::Lock(fault)) => return Err(lock_fault_for(alloc, fault)),
            Err(FoundFault::Evict(fault)) => return Err(fault_for(fault, nothing_done(alloc))),
        }
        self.held = Some(held);
        self.unread = unread;
        self.seen = seen;
        self.gave_read = self.cache.is_cache_locked();
        Ok(Answer::Found {
            fresh: false,
            complete,
            lock: self.given(),
        })
    }

    // Something was found, as it is reported at the moment. A reader that isn't taken is spent.
    #[inline(always)]
    fn found<E: EvictionManager>(
        &mut self,
        alloc: Global,
        parts: &mut TierParts<S, E>,
        found: FoundAt<MemHitHandler>,
        moment: Moment,
    ) -> Result<Answer, TierFault>
        requires { look_refusal self.old ≡ None }
        ensures answer { (l : Look) → IsFoundBy moment l found → FoundAnswer E.shard_count E.weighed moment self.old l (E.managed parts.old.manager) parts.old.lock
            result self.new (E.managed parts.new.manager) parts.new.lock }
        ensures shelf { MatchResult result (λ _. shelf_of parts.new.store ≡ turned self.old.reader closed (shelf_of parts.old.store))
            (λ _. PartsReader (reader_of (hit_told found)) parts.old.store parts.new.store) }
        ensures parts { parts.new ≡ record parts.old { store = parts.new.store; manager = parts.new.manager; lock = parts.new.lock } }
    {
        match found {
            FoundAt::Fresh(fresh_until, hit) => self.found_fresh(alloc, parts, hit, fresh_until),
            FoundAt::Stale(meta, hit) => self.found_stale(alloc, parts, meta, hit, moment),
        }
    }

    /// Looks up what is stored for the request's key.
    #[inline(always)]
    pub fn look_up<E: EvictionManager>(
        &mut self,
        alloc: Global,
        parts: &mut TierParts<S, E>,
        moment: Moment,
    ) -> Result<Answer, TierFault>
        ensures answer { LookAnswer E.shard_count E.weighed moment self.old (lent (shelf_of parts.old.store) (E.managed parts.old.manager) parts.old.lock)
            result self.new (lent (shelf_of parts.new.store) (E.managed parts.new.manager) parts.new.lock) }
        ensures parts { parts.new ≡ record parts.old { store = parts.new.store; manager = parts.new.manager; lock = parts.new.lock } }
    {
        if let Some(fault) = self.look_refusal() {
            return Err(fault);
        }
        match self.cache.cache_lookup_at(parts, moment) {
            Ok(Some(found)) => self.found(alloc, parts, found, moment),
            Ok(None) => {
                self.gave_read = go_without(&mut self.cache);
                self.held = None;
                Ok(self.missed(parts))
            }
            Err(LookUpFault::Store(_)) => Err(out_of_memory(alloc)),
            Err(LookUpFault::Lock(fault)) => Err(lock_fault_for(alloc, fault)),
        }
    }
}
