//! What is stored under a request's key, and what the predictor knows of it.
use crate::answer::{Answer, DONE, NO_MEMORY, REFUSED, fault, yes_or_no};
use crate::call::Find;
use crate::step::Step;
use cache_evict::EvictionManager;
use cache_heads::NoCacheReason;
use cache_store::storage::{Storage, StoreFault};
use request_cache::HttpCache;
use request_predictor::CacheablePredictor;
use request_store::CacheParts;

// Whether something was found, but where the store refuses.
fn found_or_fault(found: Result<bool, StoreFault>) -> Answer {
    match found {
        Ok(found) => yes_or_no(found),
        Err(refusal) => fault(refusal),
    }
}

/// Removes what is stored, or lets it go stale; asks the predictor; counts the bytes of a body.
pub fn found<S: Storage, E: EvictionManager, P: CacheablePredictor, L, A>(
    request: &mut HttpCache<S>,
    parts: &mut CacheParts<S, E, P, L, A>,
    find: Find,
    step: Step<'_>,
) -> Answer {
    let phase = request.phase();
    let found = match find {
        Find::Purge if phase.is_key_phase() => request.purge(parts),
        Find::SpawnPurge if phase.has_key_phase() => request.spawn_async_purge(parts, "cases"),
        Find::Expire if phase.is_key_phase() => request.expire(parts, step.moment()),
        Find::Predicted if !phase.is_never_enabled() && request.maybe_cache_key().is_some() => {
            Ok(request.cacheable_prediction(parts))
        }
        Find::Track if !phase.is_never_enabled() => {
            Ok(request.track_body_bytes_for_max_file_size(step.number() as usize))
        }
        _ => return REFUSED,
    };
    found_or_fault(found)
}

/// Tells the predictor that a response wasn't kept.
pub fn became_uncacheable<S: Storage, E, P: CacheablePredictor, L, A>(
    request: &HttpCache<S>,
    parts: &mut CacheParts<S, E, P, L, A>,
    reason: NoCacheReason,
) -> Answer {
    if request.phase().is_never_enabled() || request.maybe_cache_key().is_none() {
        return REFUSED;
    }
    match request.response_became_uncacheable(parts, reason) {
        Ok(()) => DONE,
        Err(_) => NO_MEMORY,
    }
}
