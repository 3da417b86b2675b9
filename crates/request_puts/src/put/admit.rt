//! A body is stored, its entry is admitted to the order of use, and what that evicts is purged.

ghost use Rattle.std.specs.Prelude.{◌≡◌, IfOk};
ghost use Rattle.cache_words.specs.Key.{key_of};
ghost use Rattle.cache_words.specs.CompactKey.{compact_view};
ghost use Rattle.cache_store.specs.declared.storage.StoreFault.{StoreFault as Fault};
ghost use Rattle.cache_store.specs.Wholes.{IsWriteFault};
ghost use Rattle.request_store.specs.Admissions.{rules_of, cache_of};
ghost use Rattle.request_puts.specs.Put.{IsOutOfMemory, IsStoreFaultTold, IsPut, fault_of_admission};

use super::outcome::{Done, PutFault, PutOutcome};
use bytes::Bytes;
use cache_evict::{CacheEntryKey, EvictionManager};
use cache_heads::CacheMeta;
use cache_store::storage::{HandleMiss, Storage, StoreFault};
use cache_words::key::{CacheKey, CompactCacheKey};
use rand_core::Rng;
use request_store::{AdmitFault, CacheParts, admit};
use std::alloc::{AllocError, Global};

// Memory ran out before anything was done.
pub(super) fn out_of_memory(alloc: Global) -> PutFault
    ensures { IsOutOfMemory result }
{
    PutFault::Memory(Done {
        stored: false,
        admitted: false,
        evicted: Vec::new(alloc),
    })
}

// Why a body was not stored.
fn told_of_store(alloc: Global, fault: StoreFault) -> PutFault
    ensures { IsStoreFaultTold fault result }
{
    match fault {
        StoreFault::WriteNumbersSpent => PutFault::WriteNumbersSpent,
        StoreFault::MetaMoment => PutFault::MetaMoment,
        _ => out_of_memory(alloc),
    }
}

// A fault of the admission as one of a put.
fn told_of_admission(fault: AdmitFault) -> PutFault
    ensures { result ≡ fault_of_admission fault }
{
    match fault {
        AdmitFault::Weight(done) => PutFault::Weight(done),
        AdmitFault::Length(done) => PutFault::Length(done),
        AdmitFault::NumbersSpent(done) => PutFault::NumbersSpent(done),
        AdmitFault::Memory(done) => PutFault::Memory(done),
    }
}

// Returns the key of an entry, twice.
fn copies_of(key: &CacheKey) -> Result<(CompactCacheKey, CompactCacheKey), AllocError>
    ensures { IfOk result (λ both. (compact_view both.0 ≡ key_of key.now) × (both.1 ≡ both.0)) }
{
    let compact = key.to_compact()?;
    let again = key.to_compact()?;
    Ok((compact, again))
}

// Why a body isn't stored for whose entry there is no memory: the store is asked still whether it takes a write of that meta, which
// then is given up.
fn unstored<S: Storage>(alloc: Global, store: &mut S, key: &CacheKey, meta: CacheMeta) -> PutFault
    ensures { (fault : Fault) × IsWriteFault (S.is_spent (S.held store.old)) meta fault (S.held store.old) (S.held store.new) × IsStoreFaultTold fault result }
{
    match store.get_miss_handler_owned(key, meta) {
        Ok(miss) => {
            miss.leave(store);
            told_of_store(alloc, StoreFault::Memory)
        }
        Err(fault) => told_of_store(alloc, fault),
    }
}

/// Stores a body under a key with a meta, whatever a head says of it, admits its entry, and purges what that evicts, as
/// `CachePutCtx::cache_put` does once a response is judged.
///
/// # Errors
///
/// Those of `cache_put` from `WriteNumbersSpent` on.
pub fn put_body<S: Storage, E: EvictionManager, P, L, A, R: Rng>(
    alloc: Global,
    key: &CacheKey,
    parts: &mut CacheParts<S, E, P, L, A>,
    rng: &mut R,
    meta: CacheMeta,
    body: Bytes,
) -> Result<PutOutcome, PutFault>
    ensures put { let rules = rules_of S.held S.ids S.purged_as S.is_spent S.Miss.told E.shard_count E.weighed E.pick in
        let old = cache_of parts.old.store (E.managed parts.old.manager) (R.stream rng.old) in let new = cache_of parts.new.store (E.managed parts.new.manager) (R.stream rng.new) in
        IsPut rules (key_of key.now) meta body result old new }
    ensures parts { parts.new ≡ record parts.old { store = parts.new.store; manager = parts.new.manager } }
{
    let Ok((compact, again)) = copies_of(key) else {
        return Err(unstored(alloc, &mut parts.store, key, meta));
    };
    let size = body.len();
    let fresh_until = meta.fresh_until();
    let (finish, id) = match parts.store.store_whole(key, meta, body) {
        Ok(done) => done,
        Err(fault) => return Err(told_of_store(alloc, fault)),
    };
    let entry = CacheEntryKey::from_entry_id(compact, id);
    let again = CacheEntryKey::from_entry_id(again, id);
    match admit(alloc, parts, rng, finish, entry, &again, fresh_until) {
        Ok(evicted) => Ok(PutOutcome::Stored { size, evicted }),
        Err(fault) => Err(told_of_admission(fault)),
    }
}
