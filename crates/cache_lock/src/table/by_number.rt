//! Values by numbers.
ghost use Rattle.std.specs.Prelude.{◌≡◌, ◌↔◌, ◌&&◌, ℕ, cond, None, IsTrue, OnOk, OnErr, IsSome, nat_eq, option_copied};
ghost use Rattle.std.specs.HashMap.{get};
ghost use Rattle.std.specs.FinMap as finite;
ghost use Rattle.std.specs.Ordering.{nat_cmp};
ghost use Rattle.cache_lock.specs.Released.{is_last, without_last};

use crate::lock_core::HeldCore;
use std::alloc::{AllocError, Global};
use std::collections::HashMap;
use std::collections::hash_map::Entry;
use std::hash::BuildHasher;
use std::marker::Model;

// Values by numbers: a finite map.
#[derive(Debug, Drop)]
pub struct ByNumber<V: Drop, S: BuildHasher> {
    table: HashMap<u64, V, S>,
}

impl<V: Drop, S: BuildHasher> Model for ByNumber<V, S> {
    ghost use Rattle.std.specs.FinMap as finite;
    ghost use Rattle.std.specs.Ordering.{nat_cmp};
    ghost use Rattle.std.specs.Coded.{coded_ℕ};

    ghost Value = { finite.FinMap nat_cmp V };

    ghost coded = { finite.code coded_ℕ V.code };

    ghost view = { λ m. finite.from_entries m.table.entries };
}

impl<V: Drop, S: BuildHasher> ByNumber<V, S> {
    // An empty map. It takes no memory.
    pub fn with_hasher(alloc: Global, hasher: S) -> ByNumber<V, S>
        ensures { result ≡ finite.empty }
    {
        ByNumber {
            table: HashMap::with_hasher(alloc, hasher),
        }
    }

    // Whether no number has a value.
    pub fn is_empty(&self) -> bool
        ensures { IsTrue result ↔ (self.now ≡ finite.empty) }
    {
        self.table.is_empty()
    }

    // The value of a number.
    pub fn get(&self, number: u64) -> Option<&V>
        ensures { option_copied result ≡ finite.get self.now number }
    {
        self.table.get(&number)
    }

    // Puts a value in the place of what a number has. It fails only for memory.
    pub fn insert(&mut self, number: u64, value: V) -> Result<(), AllocError>
        ensures ok { OnOk result (self.new ≡ finite.insert self.old number value) }
        ensures err { OnErr result (self.new ≡ self.old) }
    {
        self.table.insert(number, value)?;
        Ok(())
    }

    // Puts another value in the place of one that is there. It takes no memory.
    pub fn set(&mut self, number: u64, value: V)
        requires { IsSome (finite.get self.old number) }
        ensures { self.new ≡ finite.insert self.old number value }
    {
        let inserted: Result<_, _> = self.table.insert(number, value);
        let _old = inserted.unwrap();
    }

    // Takes the value of a number out.
    pub fn remove(&mut self, number: u64)
        ensures { self.new ≡ finite.remove self.old number }
    {
        let _old = self.table.remove(&number);
    }

    // Takes the value of a number out, without a look-up where the map is empty.
    #[tactic(auto, using(crate::proofs::EndLaws::out_of_empty))]
    pub fn remove_any(&mut self, number: u64)
        ensures { self.new ≡ finite.remove self.old number }
    {
        if !self.is_empty() {
            self.remove(number);
        }
    }
}

impl<S: BuildHasher> ByNumber<HeldCore, S> {
    // Takes a core out that has one name, in one look-up. Returns it, and one that has more too, which stays.
    pub fn take_last(&mut self, number: u64) -> Option<HeldCore>
        ensures was { result ≡ finite.get self.old number }
        ensures left { self.new ≡ without_last number (finite.get self.old number) self.old }
    {
        take_last_of(&mut self.table, number)
    }
}

// Takes a core out that has one name. Returns it, and one that has more too, which stays.
fn take_last_of<S: BuildHasher>(
    table: &mut HashMap<u64, HeldCore, S>,
    number: u64,
) -> Option<HeldCore>
    ensures value { result ≡ get nat_eq table.old number }
    ensures after { (q : ℕ) → get nat_eq table.new q ≡ cond (is_last result && nat_eq number q) None (get nat_eq table.old q) }
{
    let Ok(place) = table.entry(number) else {
        return None;
    };
    let Entry::Occupied(entry) = place else {
        return None;
    };
    let held = *entry.get();
    if held.names > 1 {
        return Some(held);
    }
    entry.remove();
    Some(held)
}
