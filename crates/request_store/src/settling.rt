//! Entries are evicted once an entry of the order of use was weighed anew, and what is stored of them is purged.

ghost use Rattle.std.specs.Prelude.{◌≡◌, true, MatchResult};
ghost use Rattle.cache_evict.specs.Faults.{IsMemory, evicted_of};
ghost use Rattle.cache_evict.specs.Managed.{Fits};
ghost use Rattle.request_store.specs.Admissions.{IsDone, IsSettled, IsUnsettled, rules_of, cache_of};

use crate::admission::{done, take_back};
use crate::done::Done;
use crate::parts::CacheParts;
use crate::purges::purge_all;
use cache_evict::{CacheEntryKey, EvictFault, EvictionManager};
use cache_store::storage::Storage;
use rand_core::Rng;
use std::alloc::Global;

// What was done before memory ran out in the evictions.
fn told(fault: EvictFault) -> Done
    requires { IsMemory fault }
    ensures { IsDone true true (evicted_of fault) result }
{
    match fault {
        EvictFault::Memory(evicted) => done(true, evicted),
        _ => unreachable!(),
    }
}

/// Evicts until neither limit is passed, and purges what is evicted: an entry that is tracked weighs more than before.
///
/// # Errors
///
/// Memory ran out in the evictions. What was evicted until then is purged, and all that is stored under the entry's key is removed
/// with the entry.
pub fn settle<S: Storage, E: EvictionManager, P, L, A, R: Rng>(
    alloc: Global,
    parts: &mut CacheParts<S, E, P, L, A>,
    rng: &mut R,
    entry: &CacheEntryKey,
) -> Result<Vec<CacheEntryKey>, Done>
    requires { Fits E.shard_count (E.managed parts.old.manager) }
    ensures settled { let rules = rules_of S.held S.ids S.purged_as S.is_spent S.Miss.told E.shard_count E.weighed E.pick in
        let old = cache_of parts.old.store (E.managed parts.old.manager) (R.stream rng.old) in let new = cache_of parts.new.store (E.managed parts.new.manager) (R.stream rng.new) in
        MatchResult result (λ v. IsSettled rules old.managed v.items old new) (λ done. IsUnsettled rules entry.now done old new) }
    ensures parts { parts.new ≡ record parts.old { store = parts.new.store; manager = parts.new.manager } }
{
    match parts.manager.evict(alloc, rng) {
        Ok(evicted) => {
            purge_all(&mut parts.store, &evicted);
            Ok(evicted)
        }
        Err(fault) => {
            take_back(parts, entry, &fault);
            Err(told(fault))
        }
    }
}
