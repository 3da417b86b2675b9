//! What is stored: finished bodies, and writes in flight.
ghost use Rattle.std.specs.Prelude.{◌≡◌, length};
ghost use Rattle.std.specs.List.{sum_by};
ghost use Rattle.std.specs.FinMap.{len, values};
ghost use Rattle.cache_heads.specs.Meta.{meta_length};
ghost use Rattle.cache_store.specs.Purges.{PurgeAnswer, id_at, target_key};
ghost use Rattle.tier_model.specs.Shelf.{look, is_there, removed};
ghost use Rattle.tier_model.specs.After.{counted};
ghost use Rattle.tier_requests.specs.Shelves.{bodies_in, shelf_of};
ghost use Rattle.tier_single.specs.Bodies.{is_purged};

use crate::keys::named_by;
use cache_store::storage::{PurgeOutcome, PurgeTarget, PurgeType, Storage};
use cache_words::key::HashBinary;
use std::alloc::Global;
use std::hash::BuildHasher;
use store_memory::MemCache;

// Whether anything was purged.
fn is_purged(outcome: PurgeOutcome) -> bool
    ensures { result ≡ is_purged outcome }
{
    matches!(outcome, PurgeOutcome::Purged(_))
}

// Removes what any store has of a target, as no longer valid.
fn invalidate<T: Storage>(store: &mut T, target: PurgeTarget<'_>) -> PurgeOutcome
    ensures purged { let k = target_key (T.ids store.old) target.entry in PurgeAnswer k (id_at (T.ids store.old) k) (T.held store.old) result (T.held store.new) }
    ensures cause { T.purged_as store.old PurgeType.Invalidation store.new }
{
    store.purge(target, PurgeType::Invalidation)
}

// Removes what is stored for a key, and returns whether there was any.
pub(crate) fn remove<S: BuildHasher>(
    alloc: Global,
    store: &mut MemCache<S>,
    key: HashBinary,
) -> bool
    ensures found { result ≡ is_there (look key (shelf_of store.old)) }
    ensures after { shelf_of store.new ≡ removed key (shelf_of store.old) }
{
    let named = named_by(alloc, key);
    let outcome = invalidate(store, PurgeTarget::Active(&named));
    is_purged(outcome)
}

// How many bodies there are.
pub(crate) fn count<S: BuildHasher>(store: &MemCache<S>) -> u64
    ensures { result ≡ len (bodies_in store.now.store.bodies) }
{
    store.finished_len() as u64
}

// The bytes of all bodies, counted up to 2^64 - 1.
pub(crate) fn all_bytes<S: BuildHasher>(store: &MemCache<S>) -> u64
    ensures { result ≡ counted 0 (sum_by (λ x. length x.body.bytes) (values (bodies_in store.now.store.bodies))) }
{
    // No key has two bodies.
    let _count = store.finished_len();
    store.finished_bytes()
}

// The bytes of their metas as they are written, counted up to 2^64 - 1.
pub(crate) fn all_metas<S: BuildHasher>(store: &MemCache<S>) -> u64
    ensures { result ≡ counted 0 (sum_by (λ x. meta_length x.body.meta) (values (bodies_in store.now.store.bodies))) }
{
    // No key has two bodies.
    let _count = store.finished_len();
    store.finished_meta()
}

// The bytes that they have outside the tier, counted up to 2^64 - 1.
pub(crate) fn external<S: BuildHasher>(store: &MemCache<S>) -> u64
    ensures { result ≡ counted 0 (sum_by (λ x. x.body.meta.external) (values (bodies_in store.now.store.bodies))) }
{
    // No key has two bodies.
    let _count = store.finished_len();
    store.finished_external()
}
