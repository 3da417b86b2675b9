//! Look-ups, and what is found.
ghost use Rattle.std.specs.Prelude.{◌≡◌, true, false};
ghost use Rattle.request_phases.specs.Locks.{holds_permit};
ghost use Rattle.request_phases.specs.Phases.{can_look_up};

use crate::answer::{Answer, REFUSED, yes_or_no};
use crate::turns::holds_nothing;
use cache_evict::EvictionManager;
use cache_heads::CacheMeta;
use cache_lock::CacheKeyLock;
use cache_store::admission::AdmissionPolicy;
use cache_store::storage::{FoundAt, HandleHit, Storage};
use cache_words::time::Moment;
use request_cache::{FoundFault, HttpCache};
use request_phases::HitStatus;
use request_store::CacheParts;
use std::alloc::Global;

// Nothing was found.
const ABSENT: Answer = Answer::Word("absent");

// The store or the lock refuses to answer.
const FAULT: Answer = Answer::Word("fault");

// Whether a request may look up, or take what a look-up found.
fn may_look<S: Storage>(request: &HttpCache<S>) -> bool
    ensures phase { result ≡ true → can_look_up request.now.phase ≡ true }
    ensures no_permit { result ≡ true → holds_permit request.now.lock ≡ false }
{
    let phase = request.phase();
    if phase.is_never_enabled() || !phase.can_look_up() || request.is_cache_lock_writer() {
        return false;
    }
    true
}

// What is reported of a response that was found.
fn told_of_found(taken: Result<(), FoundFault>, passed: bool, length: usize) -> Answer {
    match taken {
        Ok(()) if passed => Answer::Word("passed"),
        Ok(()) => Answer::Body(length),
        Err(FoundFault::Evict(_)) => Answer::Word("too-heavy"),
        Err(_) => FAULT,
    }
}

fn take<S: Storage, E: EvictionManager, P, L: CacheKeyLock, A>(
    alloc: Global,
    request: &mut HttpCache<S>,
    parts: &mut CacheParts<S, E, P, L, A>,
    meta: CacheMeta,
    hit: S::Hit,
    status: HitStatus,
    moment: Moment,
) -> Answer {
    let length = hit.get_eviction_weight();
    if !may_look(request) {
        hit.finish(&mut parts.store);
        return FAULT;
    }
    let taken = request.cache_found(alloc, parts, meta, hit, status, moment);
    told_of_found(taken, status.is_treated_as_miss(), length)
}

fn take_fresh<S: Storage, E: EvictionManager, P, L: CacheKeyLock, A>(
    alloc: Global,
    request: &mut HttpCache<S>,
    parts: &mut CacheParts<S, E, P, L, A>,
    hit: S::Hit,
    fresh_until: Moment,
) -> Answer {
    let length = hit.get_eviction_weight();
    if !may_look(request) {
        hit.finish(&mut parts.store);
        return FAULT;
    }
    let taken = request.cache_found_fresh(alloc, parts, hit, fresh_until);
    told_of_found(taken, false, length)
}

// Goes on to a variant of what was found, which is left in the store.
fn vary_found<S: Storage, E, P, L, A>(
    request: &mut HttpCache<S>,
    parts: &mut CacheParts<S, E, P, L, A>,
    meta: CacheMeta,
    hit: S::Hit,
    variance: [u8; 16],
) -> Answer {
    hit.finish(&mut parts.store);
    if !request.phase().can_vary() || !holds_nothing(request) {
        return REFUSED;
    }
    yes_or_no(request.cache_vary_lookup(variance, &meta))
}

/// Looks up: what is found is taken with a status, or left for a variant of it.
pub fn looked<S: Storage, E: EvictionManager, P, L: CacheKeyLock, A: AdmissionPolicy>(
    alloc: Global,
    request: &mut HttpCache<S>,
    parts: &mut CacheParts<S, E, P, L, A>,
    moment: Moment,
    status: HitStatus,
    variance: Option<[u8; 16]>,
) -> Answer {
    if !may_look(request) {
        return REFUSED;
    }
    match request.cache_lookup(parts, moment) {
        Ok(Some((meta, hit))) => match variance {
            Some(variance) => vary_found(request, parts, meta, hit, variance),
            None => take(alloc, request, parts, meta, hit, status, moment),
        },
        Ok(None) => ABSENT,
        Err(_) => FAULT,
    }
}

fn take_at<S: Storage, E: EvictionManager, P, L: CacheKeyLock, A>(
    alloc: Global,
    request: &mut HttpCache<S>,
    parts: &mut CacheParts<S, E, P, L, A>,
    found: FoundAt<S::Hit>,
    moment: Moment,
) -> Answer {
    match found {
        FoundAt::Fresh(until, hit) => take_fresh(alloc, request, parts, hit, until),
        FoundAt::Stale(meta, hit) => match meta.unpack() {
            Ok(meta) => take(alloc, request, parts, meta, hit, HitStatus::Expired, moment),
            Err(_) => {
                hit.finish(&mut parts.store);
                FAULT
            }
        },
    }
}

/// Looks up at a moment, and takes what is found as it is then.
pub fn looked_at<S: Storage, E: EvictionManager, P, L: CacheKeyLock, A: AdmissionPolicy>(
    alloc: Global,
    request: &mut HttpCache<S>,
    parts: &mut CacheParts<S, E, P, L, A>,
    moment: Moment,
) -> Answer {
    if !may_look(request) {
        return REFUSED;
    }
    match request.cache_lookup_at(parts, moment) {
        Ok(Some(found)) => take_at(alloc, request, parts, found, moment),
        Ok(None) => ABSENT,
        Err(_) => FAULT,
    }
}
