//! The alive writes in flight of each key, by their numbers.
ghost use Rattle.std.specs.Prelude.{◌≡◌, ℕ, List, ◌≤◌, ◌||◌, ◌&&◌, not, true, false, IfSome, IfNone, IfErr, OnOk, OnErr, nat_eq};
ghost use Rattle.std.specs.Cmp.Lexicographic.{pointwise};
ghost use Rattle.cache_store.specs.declared.storage.StoreFault.{StoreFault as Fault};
ghost use Rattle.store_memory.specs.Alive.{has, is_pair};

use crate::stored_key::StoredKey;
use cache_store::storage::StoreFault;
use cache_words::key::HashBinary;
use numbers::Numbers;
use std::alloc::Global;
use std::collections::HashMap;
use std::hash::BuildHasher;

mod numbers;

pub(crate) type Alive<S> = HashMap<StoredKey, Numbers, S>;

// Adds a number to those of a key.
pub(crate) fn add<S: BuildHasher>(
    alive: &mut Alive<S>,
    alloc: Global,
    key: HashBinary,
    number: u64,
) -> Result<(), StoreFault>
    ensures ok { OnOk result ((k : List ℕ) (n : ℕ) → has alive.new k n ≡ (has alive.old k n || is_pair key number k n)) }
    ensures err { OnErr result ((k : List ℕ) (n : ℕ) → has alive.new k n ≡ has alive.old k n) }
    ensures fault { IfErr result (λ f. f ≡ Fault.Memory) }
{
    if let Some(numbers) = alive.get_mut(&StoredKey::new(key)) {
        return match numbers.add(alloc, number) {
            Ok(()) => Ok(()),
            Err(fault) => Err(fault),
        };
    }
    match alive.insert(StoredKey::new(key), Numbers::One(number)) {
        Ok(_) => Ok(()),
        Err(_) => Err(StoreFault::Memory),
    }
}

// Takes a number out of those of a key.
pub(crate) fn take_out<S: BuildHasher>(alive: &mut Alive<S>, key: &HashBinary, number: u64)
    ensures { (k : List ℕ) (n : ℕ) → has alive.new k n ≡ (has alive.old k n && not (is_pair key.now number k n)) }
{
    if !take_one(alive, key, number) {
        take_all(alive, key);
    }
}

// Takes a number out, and returns false where the key is to be forgotten, since it has no other.
fn take_one<S: BuildHasher>(alive: &mut Alive<S>, key: &HashBinary, number: u64) -> bool
    ensures left { result ≡ true → (k : List ℕ) (n : ℕ) → has alive.new k n ≡ (has alive.old k n && not (is_pair key.now number k n)) }
    ensures none { result ≡ false → (k : List ℕ) (n : ℕ) → (has alive.new k n && not (pointwise nat_eq key.now k)) ≡ (has alive.old k n && not (is_pair key.now number k n)) }
{
    match alive.get_mut(&StoredKey::new(*key)) {
        Some(numbers) => numbers.take_out(number),
        None => true,
    }
}

// Takes all numbers of a key out, and returns the least. Mostly no write is in flight, and no key is hashed.
pub(crate) fn take_all<S: BuildHasher>(alive: &mut Alive<S>, key: &HashBinary) -> Option<u64>
    ensures after { (k : List ℕ) (n : ℕ) → has alive.new k n ≡ (has alive.old k n && not (pointwise nat_eq key.now k)) }
    ensures some { IfSome result (λ n. (has alive.old key.now n ≡ true) × ((m : ℕ) → has alive.old key.now m ≡ true → n ≤ m)) }
    ensures none { IfNone result ((m : ℕ) → has alive.old key.now m ≡ false) }
{
    if alive.is_empty() {
        return None;
    }
    alive.remove(&StoredKey::new(*key))?.first()
}

// Returns whether a key has a number.
pub(crate) fn is_alive<S: BuildHasher>(alive: &Alive<S>, key: &HashBinary, number: u64) -> bool
    ensures { result ≡ has alive.now key.now number }
{
    match alive.get(&StoredKey::new(*key)) {
        Some(numbers) => numbers.contains(number),
        None => false,
    }
}

// Returns the least number of a key. Mostly no write is in flight, and no key is hashed.
pub(crate) fn first<S: BuildHasher>(alive: &Alive<S>, key: &HashBinary) -> Option<u64>
    ensures some { IfSome result (λ n. (has alive.now key.now n ≡ true) × ((m : ℕ) → has alive.now key.now m ≡ true → n ≤ m)) }
    ensures none { IfNone result ((m : ℕ) → has alive.now key.now m ≡ false) }
{
    if alive.is_empty() {
        return None;
    }
    alive.get(&StoredKey::new(*key))?.first()
}
