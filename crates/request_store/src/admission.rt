//! An entry is admitted to the order of use, what that evicts is purged, and a refused admission is taken back.

ghost use Rattle.std.specs.Prelude.{◌≡◌, true, false, IfOk, IfErr, OnOk, MatchResult};
ghost use Rattle.cache_entries.specs.Entry.{key_of as key_of_entry};
ghost use Rattle.cache_evict.specs.Managed.{Evicts, put_first, taken_out, is_over, Fits};
ghost use Rattle.cache_evict.specs.Faults.{StopsAt, evicted_of};
ghost use Rattle.cache_changes.specs.Changes.{stored_key};
ghost use Rattle.request_store.specs.Stored.{Purged, Removed};
ghost use Rattle.request_store.specs.Admissions.{IsDone, IsTold, IsWithoutFile, IsAdmitted, IsTakenBack, was_admitted, rules_of, cache_of, weight_then};

use crate::done::{AdmitFault, Done};
use crate::parts::CacheParts;
use crate::purges::purge_all;
use cache_evict::{CacheEntryKey, CacheEntryKeyRef, EvictFault, EvictionManager};
use cache_store::storage::{MissFinishType, PurgeTarget, PurgeType, Storage};
use cache_words::time::Moment;
use rand_core::Rng;
use std::alloc::Global;

// What was done before a fault of the order of use, after the body was stored.
pub(crate) fn done(admitted: bool, evicted: Vec<CacheEntryKey>) -> Done
    ensures { IsDone true admitted evicted.items result }
{
    Done {
        stored: true,
        admitted,
        evicted,
    }
}

// A fault of the order of use, after the body was stored.
fn told(fault: EvictFault, admitted: bool) -> AdmitFault
    requires { IsWithoutFile fault }
    ensures { IsTold admitted fault result }
{
    match fault {
        EvictFault::Memory(evicted) => AdmitFault::Memory(done(admitted, evicted)),
        EvictFault::Weight(evicted) => AdmitFault::Weight(done(admitted, evicted)),
        EvictFault::Length(evicted) => AdmitFault::Length(done(admitted, evicted)),
        EvictFault::NumbersSpent(evicted) => AdmitFault::NumbersSpent(done(admitted, evicted)),
        EvictFault::File(_) => unreachable!(),
    }
}

// Whether an entry was admitted before a fault.
fn was_admitted<E: EvictionManager>(manager: &E, entry: &CacheEntryKey, fault: &EvictFault) -> bool
    ensures { result ≡ was_admitted E.shard_count entry.now fault.now (E.managed manager.now) }
{
    match fault {
        EvictFault::Memory(evicted) => !evicted.is_empty() || manager.peek(entry),
        _ => false,
    }
}

// The entries that were evicted until a fault, in order.
fn evicted_of(fault: &EvictFault) -> &[CacheEntryKey]
    ensures { result.now ≡ evicted_of fault.now }
{
    match fault {
        EvictFault::Memory(entries) => entries.as_slice(),
        EvictFault::Weight(entries) => entries.as_slice(),
        EvictFault::Length(entries) => entries.as_slice(),
        EvictFault::NumbersSpent(entries) => entries.as_slice(),
        EvictFault::File(entries) => entries.as_slice(),
    }
}

// Purges what was evicted until a fault, and removes what is stored under the entry's key with the entry.
pub(crate) fn take_back<S: Storage, E: EvictionManager, P, L, A>(
    parts: &mut CacheParts<S, E, P, L, A>,
    entry: &CacheEntryKey,
    fault: &EvictFault,
)
    ensures store { (purged : S) × Purged S.held S.ids S.purged_as (evicted_of fault.now) parts.old.store purged
        × Removed S.held S.ids S.purged_as (stored_key (key_of_entry entry.now)) purged parts.new.store }
    ensures managed { E.managed parts.new.manager ≡ taken_out E.shard_count entry.now (E.managed parts.old.manager) }
    ensures parts { parts.new ≡ record parts.old { store = parts.new.store; manager = parts.new.manager } }
{
    purge_all(&mut parts.store, evicted_of(fault));
    let target = PurgeTarget::Active(entry.key());
    parts.store.purge(target, PurgeType::Invalidation);
    parts.manager.remove(CacheEntryKeyRef::from(entry));
}

// Tells the order of use of an entry as its finish says: with the weight of its body as the store reports it, of which the manager makes
// what its own rule says, or with what was added to that. `again` is the entry once more.
fn follow<E: EvictionManager, R: Rng>(
    alloc: Global,
    manager: &mut E,
    rng: &mut R,
    finish: MissFinishType,
    entry: CacheEntryKey,
    again: &CacheEntryKey,
    fresh_until: Moment,
) -> Result<Vec<CacheEntryKey>, EvictFault>
    requires { again.now ≡ entry }
    ensures ok { let m = E.managed manager.old in
        IfOk result (λ v. Evicts E.pick (put_first E.shard_count entry (weight_then E.shard_count E.weighed finish entry m) m) v.items (R.stream rng.old) (E.managed manager.new) (R.stream rng.new)) }
    ensures within { OnOk result (is_over (E.managed manager.new) ≡ false) }
    ensures fits { let m = E.managed manager.old in OnOk result (Fits E.shard_count (put_first E.shard_count entry (weight_then E.shard_count E.weighed finish entry m) m)) }
    ensures refused { let w = weight_then E.shard_count E.weighed finish entry (E.managed manager.old) in
        IfErr result (λ fault. StopsAt E.pick E.shard_count entry w (E.managed manager.old) (R.stream rng.old) fault (E.managed manager.new) (R.stream rng.new)) }
{
    match finish {
        MissFinishType::Created(weight) => { manager.admit(alloc, entry, weight, fresh_until, rng) }
        MissFinishType::Appended(delta, cap) => {
            manager.increment_weight(alloc, again, delta, cap, rng)
        }
    }
}

/// Admits the entry of a body that was stored as its finish says, and purges what is evicted. `again` is the entry once more.
///
/// # Errors
///
/// `Weight`, `Length`, `NumbersSpent` or `Memory` where the entry isn't admitted, and `Memory` too where memory runs out in the
/// evictions. What was evicted until then is purged, and all that is stored under the entry's key is removed with the entry.
pub fn admit<S: Storage, E: EvictionManager, P, L, A, R: Rng>(
    alloc: Global,
    parts: &mut CacheParts<S, E, P, L, A>,
    rng: &mut R,
    finish: MissFinishType,
    entry: CacheEntryKey,
    again: &CacheEntryKey,
    fresh_until: Moment,
) -> Result<Vec<CacheEntryKey>, AdmitFault>
    requires { again.now ≡ entry }
    ensures admitted { let rules = rules_of S.held S.ids S.purged_as S.is_spent S.Miss.told E.shard_count E.weighed E.pick in
        let old = cache_of parts.old.store (E.managed parts.old.manager) (R.stream rng.old) in let new = cache_of parts.new.store (E.managed parts.new.manager) (R.stream rng.new) in
        MatchResult result (λ v. IsAdmitted rules finish entry v.items old new) (λ fault. IsTakenBack rules IsTold finish entry fault old new) }
    ensures parts { parts.new ≡ record parts.old { store = parts.new.store; manager = parts.new.manager } }
{
    match follow(
        alloc,
        &mut parts.manager,
        rng,
        finish,
        entry,
        again,
        fresh_until,
    ) {
        Ok(evicted) => {
            purge_all(&mut parts.store, &evicted);
            Ok(evicted)
        }
        Err(fault) => {
            let admitted = was_admitted(&parts.manager, again, &fault);
            take_back(parts, again, &fault);
            Err(told(fault, admitted))
        }
    }
}
