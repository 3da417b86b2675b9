//! The finished bodies.
ghost use Rattle.std.specs.Prelude.{◌≡◌, ◌<◌, ◌-◌, ◌^◌, List, ℕ, Some, None, cond, is_some, length, min, option_map, option_copied, nat_eq, OnOk, OnErr};
ghost use Rattle.std.specs.Cmp.Lexicographic.{pointwise};
ghost use Rattle.std.specs.HashMap.{get, spare, values};
ghost use Rattle.std.specs.List.{sum_by};
ghost use Rattle.cache_heads.specs.Meta.{meta_length};
ghost use Rattle.cache_store.specs.Renewals.{expired};
ghost use Rattle.store_memory.specs.Renewals.{body_with};

use crate::counted_meta::CountedMeta;
use crate::flight::Kept;
use crate::stored_key::StoredKey;
use cache_words::key::HashBinary;
use cache_words::time::Moment;
use std::alloc::AllocError;
use std::collections::HashMap;
use std::hash::BuildHasher;

pub(crate) type Bodies<S> = HashMap<StoredKey, Kept, S>;

// Puts a body in the place of the one before it.
pub(crate) fn put<S: BuildHasher>(bodies: &mut Bodies<S>, key: HashBinary, body: Kept)
    requires { 0 < spare bodies.old }
    ensures { (k : List ℕ) → get (pointwise nat_eq) bodies.new k ≡ cond (pointwise nat_eq key k) (Some body) (get (pointwise nat_eq) bodies.old k) }
{
    let inserted: Result<_, _> = bodies.insert(StoredKey::new(key), body);
    let _old = inserted.unwrap();
}

// Reserves room for one more body.
pub(crate) fn make_room<S: BuildHasher>(bodies: &mut Bodies<S>) -> Result<(), AllocError>
    ensures ok { OnOk result (0 < spare bodies.new) }
    ensures same { (k : List ℕ) → get (pointwise nat_eq) bodies.new k ≡ get (pointwise nat_eq) bodies.old k }
    ensures err { OnErr result (bodies.new.entries ≡ bodies.old.entries) }
{
    bodies.reserve(1)
}

// Returns the body of a key.
pub(crate) fn get<'a, S: BuildHasher>(bodies: &'a Bodies<S>, key: &HashBinary) -> Option<&'a Kept>
    ensures { option_copied result ≡ get (pointwise nat_eq) bodies.now key.now }
{
    bodies.get(&StoredKey::new(*key))
}

// Returns whether a key has a body.
pub(crate) fn has<S: BuildHasher>(bodies: &Bodies<S>, key: &HashBinary) -> bool
    ensures { result ≡ is_some (get (pointwise nat_eq) bodies.now key.now) }
{
    bodies.contains_key(&StoredKey::new(*key))
}

// Removes the body of a key, and returns whether there was one.
pub(crate) fn remove<S: BuildHasher>(bodies: &mut Bodies<S>, key: &HashBinary) -> bool
    ensures found { result ≡ is_some (get (pointwise nat_eq) bodies.old key.now) }
    ensures after { (k : List ℕ) → get (pointwise nat_eq) bodies.new k ≡ cond (pointwise nat_eq key.now k) None (get (pointwise nat_eq) bodies.old k) }
{
    bodies.remove(&StoredKey::new(*key)).is_some()
}

// Lets the body of a key go stale at a moment, and returns whether there is one.
pub(crate) fn expire<S: BuildHasher>(
    bodies: &mut Bodies<S>,
    key: &HashBinary,
    moment: Moment,
) -> bool
    ensures found { result ≡ is_some (get (pointwise nat_eq) bodies.old key.now) }
    ensures after { (k : List ℕ) → get (pointwise nat_eq) bodies.new k ≡
        cond (pointwise nat_eq key.now k) (option_map (body_with (expired moment)) (get (pointwise nat_eq) bodies.old key.now)) (get (pointwise nat_eq) bodies.old k) }
{
    match bodies.get_mut(&StoredKey::new(*key)) {
        Some(body) => {
            body.expire_at(moment);
            true
        }
        None => false,
    }
}

// Gives the body of a key another meta, and returns whether there is one.
pub(crate) fn set_meta<S: BuildHasher>(
    bodies: &mut Bodies<S>,
    key: &HashBinary,
    meta: CountedMeta,
) -> bool
    ensures found { result ≡ is_some (get (pointwise nat_eq) bodies.old key.now) }
    ensures after { (k : List ℕ) → get (pointwise nat_eq) bodies.new k ≡ cond (pointwise nat_eq key.now k) (option_map (body_with
        (λ _. meta)) (get (pointwise nat_eq) bodies.old key.now)) (get (pointwise nat_eq) bodies.old k) }
{
    match bodies.get_mut(&StoredKey::new(*key)) {
        Some(body) => {
            body.set_meta(meta);
            true
        }
        None => false,
    }
}

// Returns how many bytes all bodies have, counted up to 2^64 - 1.
pub(crate) fn bytes_of_all<S: BuildHasher>(bodies: &Bodies<S>) -> u64
    ensures { result ≡ min (sum_by (λ b. length b.bytes) (values bodies.now)) (2 ^ 64 - 1) }
{
    let mut count: u64 = 0;
    for body in bodies.values() {
        count = count.saturating_add(body.body().bytes.len() as u64);
    }
    count
}

// Returns how many bytes the metas of all bodies take as they are written, counted up to 2^64 - 1.
pub(crate) fn meta_of_all<S: BuildHasher>(bodies: &Bodies<S>) -> u64
    ensures { result ≡ min (sum_by (λ b. meta_length b.meta) (values bodies.now)) (2 ^ 64 - 1) }
{
    let mut count: u64 = 0;
    for body in bodies.values() {
        count = count.saturating_add(body.meta_len() as u64);
    }
    count
}

// Returns how many bytes all bodies have outside the cache, counted up to 2^64 - 1.
pub(crate) fn external_of_all<S: BuildHasher>(bodies: &Bodies<S>) -> u64
    ensures { result ≡ min (sum_by (λ b. b.meta.external) (values bodies.now)) (2 ^ 64 - 1) }
{
    let mut count: u64 = 0;
    for body in bodies.values() {
        count = count.saturating_add(body.external());
    }
    count
}
