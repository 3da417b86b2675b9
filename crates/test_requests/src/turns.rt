//! Calls that turn the cache on or off for a request, or a part of it, and that lead the request from phase to phase.
ghost use Rattle.std.specs.Prelude.{◌≡◌, true, None};
ghost use Rattle.request_phases.specs.Locks.{held};

use crate::answer::{Answer, DONE, NO_MEMORY, REFUSED};
use crate::call::{Lead, Turn};
use crate::heads::{STORED, head_of};
use crate::step::Step;
use crate::world::key;
use cache_heads::NoCacheReason;
use cache_lock::CacheKeyLock;
use cache_store::storage::Storage;
use cache_store::trace::Span;
use cache_words::time::Duration;
use request_cache::{HttpCache, Uses};
use request_phases::{CacheOptionOverrides, CachePhase};
use request_predictor::CacheablePredictor;
use request_store::CacheParts;
use std::alloc::Global;
use std::mem;

// All parts of the cache, or the lock alone.
fn uses(all: bool) -> Uses {
    Uses {
        eviction: all,
        predictor: all,
        lock: true,
    }
}

fn overrides() -> Option<CacheOptionOverrides> {
    Some(CacheOptionOverrides {
        wait_timeout: Some(Duration::from_seconds(3)),
        max_lock_retries: Some(2),
    })
}

/// Whether the request holds nothing of the lock.
#[tactic(auto, using(crate::proofs::HeldLaws::nothing_held))]
pub fn holds_nothing<S: Storage>(request: &HttpCache<S>) -> bool
    ensures { result ≡ true → held request.now.lock ≡ None }
{
    !request.holds_lock()
}

/// Does what changes the request alone.
pub fn turned<S: Storage>(request: &mut HttpCache<S>, turn: Turn, step: Step<'_>) -> Answer {
    let phase = request.phase();
    match turn {
        Turn::Enable if phase.is_disabled() => {
            request.enable(uses(step.first != "lock"), overrides())
        }
        Turn::Lock if phase.can_set_lock() && holds_nothing(request) => {
            request.set_cache_lock(step.first == "on", None)
        }
        Turn::Policy if phase.can_set_policy() => request.set_admission_policy(step.first == "on"),
        Turn::Trace => request.enable_tracing(Span::inactive()),
        Turn::Subrequest => request.tag_as_subrequest(),
        Turn::Forget if phase.has_reader_phase() => request.forget_cache_meta(),
        Turn::AddTime => request.add_lookup_duration(Duration::from_seconds(step.number())),
        Turn::Miss if phase.can_miss() => request.cache_miss(),
        Turn::Updating if phase.is_stale_phase() => request.set_stale_updating(),
        Turn::Limit if !phase.is_disabled() => {
            request.set_max_file_size_bytes(step.number() as usize)
        }
        _ => return REFUSED,
    }
    DONE
}

// Ends the request, and begins another in its place.
fn end<S: Storage, E, P, L: CacheKeyLock, A>(
    request: &mut HttpCache<S>,
    parts: &mut CacheParts<S, E, P, L, A>,
) {
    mem::replace(request, HttpCache::new()).end(parts)
}

/// Does what changes the request and a part of the cache.
pub fn led<S: Storage, E, P: CacheablePredictor, L: CacheKeyLock, A>(
    alloc: Global,
    request: &mut HttpCache<S>,
    parts: &mut CacheParts<S, E, P, L, A>,
    lead: Lead,
    reason: NoCacheReason,
) -> Answer {
    let phase = request.phase();
    let may_release = request.is_releasable(reason);
    match lead {
        Lead::Disable if !CachePhase::Disabled(reason).is_never_enabled() && may_release => {
            request.disable(parts, reason)
        }
        Lead::Release if may_release => request.release_write_lock(parts, reason),
        Lead::FinishReader if phase.can_finish_reader() => { request.finish_hit_handler(parts) }
        Lead::Bypass if phase.is_key_phase() => request.bypass(parts),
        Lead::BecameCacheable if !phase.is_never_enabled() && request.maybe_cache_key().is_some() =>
            { request.response_became_cacheable(parts) }
        Lead::Uncacheable
            if may_release && phase.is_stale_phase() && request.maybe_cache_meta().is_some() => {
            request.revalidate_uncacheable(parts, head_of(alloc, STORED), reason)
        }
        Lead::End => end(request, parts),
        _ => return REFUSED,
    }
    DONE
}

/// Sets the key of a letter.
pub fn set_key<S: Storage>(alloc: Global, request: &mut HttpCache<S>, letter: u8) -> Answer {
    if !request.phase().can_set_key() || !holds_nothing(request) {
        return REFUSED;
    }
    match key(alloc, letter) {
        Some(key) => {
            request.set_cache_key(key);
            DONE
        }
        None => NO_MEMORY,
    }
}
