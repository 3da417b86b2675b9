//! A stored body gets another meta, its entry the weight that it has with it, and what then passes the limit goes.
ghost use Rattle.std.specs.Prelude.{◌≡◌, Some, false, true, is_some, IfOk};
ghost use Rattle.rand_core.specs.Stream.{Stream};
ghost use Rattle.cache_words.specs.Key.{key_of, combined};
ghost use Rattle.cache_changes.specs.Store.{body_at};
ghost use Rattle.cache_evict.specs.Managed.{Fits};
ghost use Rattle.request_store.specs.Admissions.{IsDone, IsWithoutFile, rules_of, cache_of};
ghost use Rattle.request_store.specs.Entries.{entry_at};
ghost use Rattle.request_cache.specs.Renews.{IsUnprepared, IsToldOf, ReweighAnswer, RenewAnswer};
ghost use Rattle.request_cache.specs.Revalidations.{IsOutOfMemory, is_confirmed_by, wanted, SettleAnswer};

use cache_entries::entry::CacheEntryId;
use cache_evict::{CacheEntryKey, EvictFault, EvictionManager};
use cache_heads::CacheMeta;
use cache_store::storage::{Storage, StoreFault};
use cache_words::key::CacheKey;
use rand_core::Rng;
use request_store::{CacheParts, Done, entry_of, settle};
use std::alloc::{AllocError, Global};

/// Why a stale response that upstream confirms isn't renewed, or isn't kept.
#[derive(Debug, Drop)]
pub enum RevalidateFault {
    /// The key has no body.
    NoMeta,
    /// A moment of the meta can't be written.
    MetaMoment,
    /// There is no memory. Where the meta was stored, it is removed with its body.
    Memory(Done),
    /// The weight of the entry's shard can't be counted.
    Weight(Done),
    /// There is no room for one more entry.
    Length(Done),
    /// No number is left for the entry's hash.
    NumbersSpent(Done),
}

// Whether the request is `Revalidated` after a fault.
pub(crate) fn is_confirmed_by(fault: &RevalidateFault) -> bool
    ensures { result ≡ is_confirmed_by fault.now }
{
    match fault {
        RevalidateFault::NoMeta | RevalidateFault::MetaMoment => true,
        RevalidateFault::Memory(done) => done.stored,
        _ => false,
    }
}

// Nothing was done.
fn nothing(evicted: Vec<CacheEntryKey>) -> Done
    ensures { IsDone false false evicted.items result }
{
    Done {
        stored: false,
        admitted: false,
        evicted,
    }
}

// Memory ran out before anything was done.
fn out_of_memory(alloc: Global) -> RevalidateFault
    ensures { IsOutOfMemory result }
{
    RevalidateFault::Memory(nothing(Vec::new(alloc)))
}

// Why a meta isn't made ready.
fn unprepared(alloc: Global, fault: StoreFault) -> RevalidateFault
    ensures { IsUnprepared fault result }
{
    match fault {
        StoreFault::NoMeta => RevalidateFault::NoMeta,
        StoreFault::MetaMoment => RevalidateFault::MetaMoment,
        _ => out_of_memory(alloc),
    }
}

// Why an entry isn't weighed anew.
fn told_of(fault: EvictFault) -> RevalidateFault
    requires { IsWithoutFile fault }
    ensures { IsToldOf fault result }
{
    match fault {
        EvictFault::Memory(evicted) => RevalidateFault::Memory(nothing(evicted)),
        EvictFault::Weight(evicted) => RevalidateFault::Weight(nothing(evicted)),
        EvictFault::Length(evicted) => RevalidateFault::Length(nothing(evicted)),
        EvictFault::NumbersSpent(evicted) => RevalidateFault::NumbersSpent(nothing(evicted)),
        EvictFault::File(_) => unreachable!(),
    }
}

// The entry of a key, where it is wanted.
fn wanted(
    evicts: bool,
    key: &CacheKey,
    id: Option<CacheEntryId>,
) -> Result<Option<CacheEntryKey>, AllocError>
    ensures { IfOk result (λ entry. entry ≡ wanted evicts (entry_at (Some key.now) id)) }
{
    if !evicts {
        return Ok(None);
    }
    Ok(Some(entry_of(key, id)?))
}

// Weighs the entry anew, where there is one.
fn reweigh<E: EvictionManager>(
    alloc: Global,
    manager: &mut E,
    entry: &Option<CacheEntryKey>,
    weight: usize,
) -> Result<(), RevalidateFault>
    ensures { ReweighAnswer E.shard_count entry.now (E.weighed weight) (E.managed manager.old) result (E.managed manager.new) }
{
    let Some(entry) = entry else {
        return Ok(());
    };
    match manager.reweigh(alloc, entry, weight) {
        Ok(_before) => Ok(()),
        Err(fault) => Err(told_of(fault)),
    }
}

// Gives the body of a key that meta, and where the manager is on, its entry the weight that it has with it. Returns the entry then.
// What can fail comes first, and nothing is undone.
pub(crate) fn renew<S: Storage, E: EvictionManager, P, L, A>(
    alloc: Global,
    parts: &mut CacheParts<S, E, P, L, A>,
    key: &CacheKey,
    id: Option<CacheEntryId>,
    evicts: bool,
    meta: &CacheMeta,
) -> Result<Option<CacheEntryKey>, RevalidateFault>
    ensures renewed { let rules = rules_of S.held S.ids S.purged_as S.is_spent S.Miss.told E.shard_count E.weighed E.pick in
        let k = combined (key_of key.now) in
        (words : Stream) → RenewAnswer rules S.weigh k (entry_at (Some key.now) id) evicts meta.now (body_at k (S.held parts.old.store).store) result
        (cache_of parts.old.store (E.managed parts.old.manager) words) (cache_of parts.new.store (E.managed parts.new.manager) words) }
    ensures parts { parts.new ≡ record parts.old { store = parts.new.store; manager = parts.new.manager } }
{
    let (new, weight) = match parts.store.prepare_meta(key, meta) {
        Ok(prepared) => prepared,
        Err(fault) => return Err(unprepared(alloc, fault)),
    };
    let Ok(entry) = wanted(evicts, key, id) else {
        return Err(out_of_memory(alloc));
    };
    match reweigh(alloc, &mut parts.manager, &entry, weight) {
        Ok(()) => {
            parts.store.install_meta(new);
            Ok(entry)
        }
        Err(fault) => Err(fault),
    }
}

// Evicts until neither limit is passed, where an entry was weighed anew.
pub(crate) fn settle_entry<S: Storage, E: EvictionManager, P, L, A, R: Rng>(
    alloc: Global,
    parts: &mut CacheParts<S, E, P, L, A>,
    rng: &mut R,
    entry: Option<CacheEntryKey>,
) -> Result<Vec<CacheEntryKey>, RevalidateFault>
    requires { is_some entry ≡ true → Fits E.shard_count (E.managed parts.old.manager) }
    ensures settled { let rules = rules_of S.held S.ids S.purged_as S.is_spent S.Miss.told E.shard_count E.weighed E.pick in
        let old = cache_of parts.old.store (E.managed parts.old.manager) (R.stream rng.old) in let new = cache_of parts.new.store (E.managed parts.new.manager) (R.stream rng.new) in
        SettleAnswer rules entry result old new }
    ensures parts { parts.new ≡ record parts.old { store = parts.new.store; manager = parts.new.manager } }
{
    let Some(entry) = entry else {
        return Ok(Vec::new(alloc));
    };
    match settle(alloc, parts, rng, &entry) {
        Ok(evicted) => Ok(evicted),
        Err(done) => Err(RevalidateFault::Memory(done)),
    }
}
