//! Fresh and whole bodies, with their heads, in one call.
ghost use Rattle.std.specs.Prelude.{◌≡◌, ℕ, None, IfOk, option_map};
ghost use Rattle.std.specs.FinMap.{get};
ghost use Rattle.rand_core.specs.Stream.{Stream};
ghost use Rattle.tier_model.specs.Keys.{alone, entry_of, stored_key_of};
ghost use Rattle.tier_model.specs.Shelf.{look};
ghost use Rattle.tier_requests.specs.Shelves.{shelf_of};
ghost use Rattle.tier_single.specs.Hits.{HitAnswer, HitTakes, IsHitOf, OneHit, body_in, UsesEntry, found_by_hit, handed, hit_at};

use super::Tier;
use crate::found::{Hit, fresh_body};
use cache_evict::EvictionManager;
use cache_words::key::{CacheHashKey, CacheKey};
use cache_words::time::Moment;
use request_store::use_entry;
use std::alloc::Global;
use std::hash::BuildHasher;
use store_memory::MemCache;
use tier_model::event::TierFault;
use tier_requests::faults::{fault_for, nothing_done, out_of_memory};
use tier_requests::keys::kept_key;

// Takes what a key shows, if it is whole and fresh, and counts a use of its entry.
fn take_fresh<S: BuildHasher, E: EvictionManager>(
    alloc: Global,
    store: &MemCache<S>,
    manager: &mut E,
    key: &CacheKey,
    moment: Moment,
) -> Result<Option<Hit>, TierFault>
    ensures { HitAnswer E.shard_count E.weighed (alone (entry_of key.now)) (hit_at moment (look (stored_key_of key.now) (shelf_of store.now)))
        (E.managed manager.old) result (E.managed manager.new) }
{
    let Ok(mut kept) = kept_key(alloc, key) else {
        return Err(out_of_memory(alloc));
    };
    match fresh_body(store, &kept.combined_bin(), moment) {
        Ok(Some((hit, weight))) => {
            let fresh_until = until_of(&hit);
            let used = use_fresh(alloc, manager, &mut kept, weight, fresh_until);
            handed(hit, used)
        }
        Ok(None) => Ok(None),
        Err(_) => Err(out_of_memory(alloc)),
    }
}

// Counts a use of the entry of a body that is fresh until then and weighs so much.
fn use_fresh<E: EvictionManager>(
    alloc: Global,
    manager: &mut E,
    key: &mut CacheKey,
    weight: usize,
    fresh_until: Moment,
) -> Result<(), TierFault>
    ensures { UsesEntry E.shard_count E.weighed (alone (entry_of key.old)) weight (E.managed manager.old) result (E.managed manager.new) }
{
    match use_entry(alloc, manager, key, None, weight, fresh_until) {
        Ok(()) => Ok(()),
        Err(fault) => Err(fault_for(fault, nothing_done(alloc))),
    }
}

// Returns until when a body is fresh.
fn until_of(hit: &Hit) -> Moment {
    hit.meta.internal.fresh_until
}

// The body is handed out where its entry was used.
fn handed(hit: Hit, used: Result<(), TierFault>) -> Result<Option<Hit>, TierFault>
    ensures { result ≡ handed hit used }
{
    match used {
        Ok(()) => Ok(Some(hit)),
        Err(fault) => Err(fault),
    }
}

// How many look-ups found something, after a hit.
fn found_by_hit(hit: &Result<Option<Hit>, TierFault>, found: u64) -> u64
    ensures { result ≡ found_by_hit hit.now found }
{
    match hit {
        Ok(Some(_)) => found.saturating_add(1),
        _ => found,
    }
}

impl<const N: usize, S: BuildHasher> Tier<N, S> {
    /// Returns the body of a key with its meta, where it is whole and fresh at a moment: as `Open`, `LookUp`, `Read` and `Drop` of a request
    /// of any number that isn't open, in one call and without a request. Where what the key shows is absent, stale or in flight it returns
    /// none, and nothing has changed: then a request is opened, whose look-up tells what there is. No byte of the body or of its head is
    /// copied.
    ///
    /// # Errors
    ///
    /// That of the opening or of the look-up. All is as before.
    pub fn hit_alone(&mut self, moment: Moment, key: &CacheKey) -> Result<Option<Hit>, TierFault>
        ensures takes { (id : ℕ) (s : Stream) → get self.old.requests id ≡ None → HitTakes self.old s moment id key.now result self.new }
        ensures hit { IfOk result (λ hit. IsHitOf self.old moment (stored_key_of key.now) (option_map body_in hit)) }
        ensures one { IfOk result (λ hit. OneHit moment (stored_key_of key.now) (option_map body_in hit)) }
    {
        let hit = take_fresh(
            self.alloc,
            &self.parts.store,
            &mut self.parts.manager,
            key,
            moment,
        );
        self.parts.manager.shards_are_within();
        self.found = found_by_hit(&hit, self.found);
        hit
    }

    /// The same with the number of the request: its calls are just those.
    ///
    /// # Errors
    ///
    /// That of the opening, `IdInUse` where a request of that number is open, or of the look-up. All is as before.
    pub fn hit(
        &mut self,
        moment: Moment,
        request: u64,
        key: &CacheKey,
    ) -> Result<Option<Hit>, TierFault>
        ensures takes { (s : Stream) → HitTakes self.old s moment request key.now result self.new }
        ensures hit { IfOk result (λ hit. IsHitOf self.old moment (stored_key_of key.now) (option_map body_in hit)) }
        ensures one { IfOk result (λ hit. OneHit moment (stored_key_of key.now) (option_map body_in hit)) }
    {
        if self.requests.contains(request) {
            return Err(TierFault::IdInUse);
        }
        self.hit_alone(moment, key)
    }
}
