//! Numbers by keys.
ghost use Rattle.std.specs.Prelude.{◌≡◌, ◌↔◌, ◌&&◌, ℕ, List, cond, None, IsTrue, OnOk, OnErr, nat_eq};
ghost use Rattle.std.specs.HashMap.{get};
ghost use Rattle.std.specs.FinMap as finite;
ghost use Rattle.std.specs.Ordering.{nat_cmp};
ghost use Rattle.std.specs.Cmp.Lexicographic.{slice_cmp, pointwise};
ghost use Rattle.cache_lock.specs.State.{is_number};
ghost use Rattle.cache_lock.specs.Released.{without_key};

use cache_words::key::HashBinary;
use std::alloc::{AllocError, Global};
use std::collections::HashMap;
use std::collections::hash_map::Entry;
use std::hash::BuildHasher;
use std::marker::Model;

// Numbers by hashes of keys: a finite map.
#[derive(Debug, Drop)]
pub struct ByKey<S: BuildHasher> {
    table: HashMap<HashBinary, u64, S>,
}

impl<S: BuildHasher> Model for ByKey<S> {
    ghost use Rattle.std.specs.Prelude.{ℕ};
    ghost use Rattle.std.specs.FinMap as finite;
    ghost use Rattle.std.specs.Ordering.{nat_cmp};
    ghost use Rattle.std.specs.Cmp.Lexicographic.{slice_cmp};
    ghost use Rattle.std.specs.Coded.{coded_ℕ, coded_list};

    ghost Value = { finite.FinMap (slice_cmp nat_cmp) ℕ };

    ghost coded = { finite.code (coded_list coded_ℕ) coded_ℕ };

    ghost view = { λ m. finite.from_entries m.table.entries };
}

impl<S: BuildHasher> ByKey<S> {
    // An empty map. It takes no memory.
    pub fn with_hasher(alloc: Global, hasher: S) -> ByKey<S>
        ensures { result ≡ finite.empty }
    {
        ByKey {
            table: HashMap::with_hasher(alloc, hasher),
        }
    }

    // Whether no key has a number.
    pub fn is_empty(&self) -> bool
        ensures { IsTrue result ↔ (self.now ≡ finite.empty) }
    {
        self.table.is_empty()
    }

    // The number of a key.
    pub fn get(&self, key: &HashBinary) -> Option<u64>
        ensures { result ≡ finite.get self.now key.now }
    {
        self.table.get(key).copied()
    }

    // Puts a number in the place of what a key has. It fails only for memory.
    pub fn insert(&mut self, key: HashBinary, number: u64) -> Result<(), AllocError>
        ensures ok { OnOk result (self.new ≡ finite.insert self.old key number) }
        ensures err { OnErr result (self.new ≡ self.old) }
    {
        self.table.insert(key, number)?;
        Ok(())
    }

    // Takes the number of a key out.
    pub fn remove(&mut self, key: &HashBinary)
        ensures { self.new ≡ finite.remove self.old key.now }
    {
        let _old = self.table.remove(key);
    }

    // Takes a key out whose number is that, in one look-up. Returns whether it was.
    pub fn remove_if(&mut self, key: &HashBinary, number: u64) -> bool
        ensures was { result ≡ is_number number (finite.get self.old key.now) }
        ensures left { self.new ≡ without_key number key.now self.old }
    {
        remove_if_of(&mut self.table, key, number)
    }

    // Takes two keys out that have that number. They may be one.
    pub fn remove_both(&mut self, key: &HashBinary, other: &HashBinary, number: u64)
        ensures { self.new ≡ without_key number other.now (without_key number key.now self.old) }
    {
        self.remove_if(key, number);
        if *key != *other {
            self.remove_if(other, number);
        }
    }
}

// Takes a key out whose number is that. Returns whether it was.
fn remove_if_of<S: BuildHasher>(
    table: &mut HashMap<HashBinary, u64, S>,
    key: &HashBinary,
    number: u64,
) -> bool
    ensures was { result ≡ is_number number (get (pointwise nat_eq) table.old key.now) }
    ensures after { (q : List ℕ) → get (pointwise nat_eq) table.new q ≡ cond (result && pointwise nat_eq key.now q) None (get (pointwise nat_eq) table.old q) }
{
    let Ok(place) = table.entry(*key) else {
        return false;
    };
    let Entry::Occupied(entry) = place else {
        return false;
    };
    if *entry.get() != number {
        return false;
    }
    entry.remove();
    true
}
