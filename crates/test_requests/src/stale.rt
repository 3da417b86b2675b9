//! The head of a response, and what becomes of a stale one once upstream has answered.
use crate::answer::{Answer, NO_MEMORY, REFUSED};
use crate::heads::{SENT, head_of, push_fields};
use crate::step::Step;
use crate::text::Text;
use crate::world::meta;
use cache_evict::EvictionManager;
use cache_lock::CacheKeyLock;
use cache_store::storage::Storage;
use rand_pcg::Pcg32;
use request_cache::{HttpCache, RevalidateFault};
use request_store::{CacheParts, Done};
use std::alloc::Global;

// Memory ran out before the meta was stored, or after it.
fn memory_fault(done: &Done) -> Answer {
    Answer::Word(if done.stored {
        "memory, removed"
    } else {
        "memory"
    })
}

fn fault(fault: &RevalidateFault) -> Answer {
    match fault {
        RevalidateFault::Memory(done) => memory_fault(done),
        RevalidateFault::NoMeta => Answer::Word("no-meta"),
        RevalidateFault::MetaMoment => Answer::Word("meta-moment"),
        RevalidateFault::Weight(_) => Answer::Word("weight"),
        RevalidateFault::Length(_) => Answer::Word("length"),
        RevalidateFault::NumbersSpent(_) => Answer::Word("numbers-spent"),
    }
}

/// Confirms a stale response.
pub fn revalidated<S: Storage, E: EvictionManager, P, L: CacheKeyLock, A>(
    alloc: Global,
    request: &mut HttpCache<S>,
    parts: &mut CacheParts<S, E, P, L, A>,
    step: Step<'_>,
) -> Answer {
    if !request.phase().is_stale_phase() || request.maybe_cache_meta().is_none() {
        return REFUSED;
    }
    let meta = meta(alloc, step);
    match request.revalidate_cache_meta(alloc, parts, &mut Pcg32::new(1, 1), meta) {
        Ok(evicted) => Answer::Renewed(evicted.len()),
        Err(refusal) => fault(&refusal),
    }
}

/// Appends the fields of the stale head once it has taken what a response renews.
pub fn push_merged<S: Storage>(alloc: Global, request: &HttpCache<S>, text: &mut Text) {
    if !request.phase().is_stale_phase() || request.maybe_cache_meta().is_none() {
        return text.push_answer(REFUSED);
    }
    match request.revalidate_merge_header(&head_of(alloc, SENT)) {
        Ok(merged) => push_fields(text, &merged),
        Err(_) => text.push_answer(NO_MEMORY),
    }
}

/// Appends the fields of the head of a response.
pub fn push_head<S: Storage>(request: &HttpCache<S>, text: &mut Text) {
    match request.maybe_cache_meta() {
        Some(meta) => push_fields(text, &meta.header),
        None => text.push_answer(REFUSED),
    }
}
