//! Purges.
ghost use Rattle.std.specs.Prelude.{◌≡◌, Some, IfOk, IfErr};
ghost use Rattle.cache_words.specs.CompactKey.{compact_view};
ghost use Rattle.cache_words.specs.Key.{key_of};
ghost use Rattle.cache_store.specs.declared.storage.StoreFault.TheVariants.{Memory as OutOfMemory};
ghost use Rattle.request_store.specs.Purges.{is_found, untracked, kept_in, PurgesKey, ExpiresKey};

use crate::CacheParts;
use cache_evict::EvictionManager;
use cache_store::storage::{PurgeOutcome, PurgeTarget, PurgeType, Storage, StoreFault};
use cache_words::key::{CacheKey, CompactCacheKey};
use cache_words::time::Moment;

// Takes the entry of what was removed out of the order of use, where the manager is on. Returns whether something was found.
fn untrack<E: EvictionManager>(
    manager: &mut E,
    evicts: bool,
    key: &CacheKey,
    compact: &CompactCacheKey,
    outcome: PurgeOutcome,
) -> bool
    requires { compact_view compact.now ≡ key_of key.now }
    ensures answer { result ≡ is_found outcome }
    ensures managed { E.managed manager.new ≡ untracked E.shard_count evicts (Some key.now) outcome (E.managed manager.old) }
{
    match outcome {
        PurgeOutcome::NotFound => false,
        PurgeOutcome::Purged(id) => {
            if evicts {
                manager.remove(PurgeTarget::Active(compact).removed_entry(id));
            }
            true
        }
        PurgeOutcome::Expired => true,
    }
}

/// Removes what is stored under a key. Returns whether something was. Where the manager is on, its entry is tracked no more.
///
/// # Errors
///
/// `Memory` when out of memory. Nothing has changed.
pub fn purge_key<S: Storage, E: EvictionManager, P, L, A>(
    parts: &mut CacheParts<S, E, P, L, A>,
    key: &CacheKey,
    evicts: bool,
) -> Result<bool, StoreFault>
    ensures purged { let old = kept_in parts.old.store (E.managed parts.old.manager) in let new = kept_in parts.new.store (E.managed parts.new.manager) in
        IfOk result (λ found. PurgesKey S.held S.ids S.purged_as E.shard_count evicts (Some key.now) found old new) }
    ensures err { IfErr result (λ f. (f ≡ OutOfMemory) × (parts.new ≡ parts.old)) }
    ensures parts { parts.new ≡ record parts.old { store = parts.new.store; manager = parts.new.manager } }
{
    let Ok(compact) = key.to_compact() else {
        return Err(StoreFault::Memory);
    };
    let outcome = parts
        .store
        .purge(PurgeTarget::Active(&compact), PurgeType::Invalidation);
    Ok(untrack(&mut parts.manager, evicts, key, &compact, outcome))
}

/// Lets what is stored under a key go stale at a moment. Returns whether something was stored. In a store in which nothing goes
/// stale it is removed, and then, where the manager is on, its entry is tracked no more.
///
/// # Errors
///
/// `Memory` when out of memory. Nothing has changed.
pub fn expire_key<S: Storage, E: EvictionManager, P, L, A>(
    parts: &mut CacheParts<S, E, P, L, A>,
    key: &CacheKey,
    evicts: bool,
    moment: Moment,
) -> Result<bool, StoreFault>
    ensures expired { let old = kept_in parts.old.store (E.managed parts.old.manager) in let new = kept_in parts.new.store (E.managed parts.new.manager) in
        IfOk result (λ found. ExpiresKey S.held S.ids S.purged_as E.shard_count evicts (Some key.now) moment found old new) }
    ensures err { IfErr result (λ f. (f ≡ OutOfMemory) × (S.held parts.new.store ≡ S.held parts.old.store) × (S.ids parts.new.store ≡ S.ids parts.old.store)
        × (parts.new.manager ≡ parts.old.manager)) }
    ensures parts { parts.new ≡ record parts.old { store = parts.new.store; manager = parts.new.manager } }
{
    let Ok(compact) = key.to_compact() else {
        return Err(StoreFault::Memory);
    };
    match parts.store.expire(PurgeTarget::Active(&compact), moment) {
        Ok(outcome) => Ok(untrack(&mut parts.manager, evicts, key, &compact, outcome)),
        Err(fault) => Err(fault),
    }
}
