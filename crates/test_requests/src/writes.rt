//! How a response is stored.
use crate::answer::{Answer, DONE, NO_MEMORY, NONE, REFUSED, done_or_fault};
use crate::call::Keep;
use crate::step::{Step, variance};
use crate::world::meta;
use bytes::Bytes;
use cache_evict::EvictionManager;
use cache_lock::CacheKeyLock;
use cache_store::storage::{HandleMiss, MissFinishType, Storage};
use rand_pcg::Pcg32;
use request_cache::{FinishFault, Finished, HttpCache};
use request_store::CacheParts;
use std::alloc::Global;

/// Sets a meta, or what it varies by, or begins a write.
pub fn kept<S: Storage, E, P, L: CacheKeyLock, A>(
    alloc: Global,
    request: &mut HttpCache<S>,
    parts: &mut CacheParts<S, E, P, L, A>,
    keep: Keep,
    step: Step<'_>,
) -> Answer {
    let phase = request.phase();
    let has_meta = request.maybe_cache_meta().is_some();
    let has_writer = request.has_writer();
    let made = match keep {
        Keep::Meta if phase.can_begin() => {
            request.set_cache_meta(meta(alloc, step));
            Ok(())
        }
        Keep::Begin if phase.can_begin() && !has_writer => {
            request.begin_write(parts, meta(alloc, step))
        }
        Keep::Variance if phase.is_write_phase() && has_meta => {
            request.update_variance(parts, variance(step.first));
            Ok(())
        }
        Keep::Writer if phase.is_write_phase() && has_meta && !has_writer => {
            request.set_miss_handler(parts)
        }
        _ => return REFUSED,
    };
    done_or_fault(made)
}

/// Writes bytes by the writer, in its place.
pub fn write<S: Storage, E, P, L, A>(
    alloc: Global,
    request: &mut HttpCache<S>,
    parts: &mut CacheParts<S, E, P, L, A>,
    bytes: &str,
) -> Answer {
    match Bytes::copy_from_slice(alloc, bytes.as_bytes()) {
        Ok(bytes) => match request.miss_handler() {
            Some(miss) => done_or_fault(miss.write_body(&mut parts.store, bytes, false)),
            None => NONE,
        },
        Err(_) => NO_MEMORY,
    }
}

// What is reported of a body that was stored.
fn told_of_body(finished: &Finished) -> Answer {
    match finished.kind {
        MissFinishType::Created(size) => Answer::Created(size, finished.evicted.len()),
        MissFinishType::Appended(size, _) => Answer::Appended(size, finished.evicted.len()),
    }
}

fn finish_fault(fault: &FinishFault) -> Answer {
    Answer::Word(match fault {
        FinishFault::Memory(_) => "memory",
        FinishFault::WriteRemoved => "write-removed",
        FinishFault::Weight(_) => "weight",
        FinishFault::Length(_) => "length",
        FinishFault::NumbersSpent(_) => "numbers-spent",
    })
}

// What is reported of a write that ended.
fn told_of_finish(finished: Result<Option<Finished>, FinishFault>) -> Answer {
    match finished {
        Ok(None) => NONE,
        Ok(Some(finished)) => told_of_body(&finished),
        Err(fault) => finish_fault(&fault),
    }
}

/// Finishes the write.
pub fn finish<S: Storage, E: EvictionManager, P, L: CacheKeyLock, A>(
    alloc: Global,
    request: &mut HttpCache<S>,
    parts: &mut CacheParts<S, E, P, L, A>,
) -> Answer {
    if !request.phase().is_write_phase() {
        return REFUSED;
    }
    told_of_finish(request.finish_miss_handler(alloc, parts, &mut Pcg32::new(1, 1)))
}
