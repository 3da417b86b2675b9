//! The store in memory.
ghost use Rattle.std.specs.Prelude.{◌≡◌, ◌+◌, false, [], Some, None, option_map, IfOk, IfErr, OnOk, OnErr};
ghost use Rattle.cache_changes.specs.Changes.{begins, removes};
ghost use Rattle.cache_changes.specs.Store.{after, empty_store, flying_at, is_found_at};
ghost use Rattle.cache_store.specs.declared.storage.StoreFault.{StoreFault as Fault};
ghost use Rattle.cache_store.specs.Agree.{Agree};
ghost use Rattle.cache_store.specs.Answers.{WriteAnswer, after_write, alive_key, left, IsFinished, in_flight, look_up, streamed};
ghost use Rattle.store_memory.specs.Kept.{stored_flight};
ghost use Rattle.cache_store.specs.Misses.{BeginAnswer};
ghost use Rattle.cache_store.specs.Readers.{readable, IsJoined, IsParted};
ghost use Rattle.store_memory.specs.Hits.{ReadAnswer, FitsPast};
ghost use Rattle.store_memory.specs.Misses.{are_numbers_spent};
ghost use Rattle.store_memory.specs.Shown.{shown_of};

use crate::alive::{self, Alive};
use crate::bodies::{self, Bodies};
use crate::flight::{Flight, Shown};
use crate::flights::{self, Flights};
use crate::readers::{self, AllReaders};
use cache_store::storage::{ReadStep, StoreFault};
use cache_words::key::HashBinary;
use std::alloc::Global;
use std::collections::{BTreeMap, HashMap};
use std::hash::{BuildHasher, BuildHasherDefault, FoldHasher};
use std::marker::Model;

mod ends;
mod finished;
mod renewals;
mod shown_body;
mod wholes;
mod writes;

/// Bodies and writes in flight, by stored key. A contract sees the plain state that changes leave, the number of the next
/// write, and the writes that have readers.
///
/// Keys are found by their hashes. `new` hashes with a fixed start, for keys that the caller chooses itself; `with_hasher`
/// takes a start of the caller's, for keys that attackers choose, who then can't slow look-ups down.
#[derive(Drop)]
pub struct MemCache<S: BuildHasher = BuildHasherDefault<FoldHasher>> {
    pub(crate) alloc: Global,
    bodies: Bodies<S>,
    flights: Flights,
    // Of each key the writes in flight that no removal met.
    alive: Alive<S>,
    readers: AllReaders,
    next: u64,
}

impl<S: BuildHasher> Model for MemCache<S> {
    ghost use Rattle.cache_store.specs.StoreState.{StoreState};

    ghost Value = { StoreState };

    ghost use Rattle.store_memory.specs.Alive.{has};
    ghost use Rattle.store_memory.specs.Kept.{bodies_of, flights_of, readings_of, IsSound};

    ghost view = { λ c. record {
      store = record { bodies = bodies_of c.bodies.entries; flying = flights_of (has c.alive) c.flights.entries };
      next = c.next;
      readings = readings_of c.readers.entries;
    } };

    ghost invariant = { λ c. IsSound (has c.alive) c.flights c.next };
}

impl MemCache<BuildHasherDefault<FoldHasher>> {
    /// Returns an empty store, under hashes with a fixed start. It takes no memory.
    pub fn new(alloc: Global) -> Self
        ensures { result ≡ record { store = empty_store; next = 0; readings = [] } }
    {
        MemCache::with_hasher(alloc, BuildHasherDefault::new())
    }
}

impl<S: BuildHasher + Copy> MemCache<S> {
    /// Returns an empty store, under hashes of that start. It takes no memory.
    pub fn with_hasher(alloc: Global, hasher: S) -> Self
        ensures { result ≡ record { store = empty_store; next = 0; readings = [] } }
    {
        MemCache {
            alloc,
            bodies: HashMap::with_hasher(alloc, hasher),
            flights: BTreeMap::new(alloc),
            alive: HashMap::with_hasher(alloc, hasher),
            readers: BTreeMap::new(alloc),
            next: 0,
        }
    }
}

impl<S: BuildHasher> MemCache<S> {
    // Removes what is stored under a key, and returns whether there was any.
    pub(crate) fn remove(&mut self, key: &HashBinary) -> bool
        ensures found { result ≡ is_found_at key.now self.old.store }
        ensures store { Agree self.new.store (after (removes key.now) self.old.store) }
        ensures others { (self.new.next ≡ self.old.next) × (self.new.readings ≡ self.old.readings) }
    {
        let stored = bodies::remove(&mut self.bodies, key);
        let flying = alive::take_all(&mut self.alive, key);
        stored || flying.is_some()
    }

    // Returns what a look-up of a key shows.
    pub(crate) fn shown(&self, key: &HashBinary) -> Option<Shown<'_>>
        ensures { option_map (shown_of key.now) result ≡ look_up key.now self.now.store }
    {
        match alive::first(&self.alive, key) {
            Some(number) => Some(Shown::Flying(
                number,
                self.flights.get(&number).unwrap().flight(),
            )),
            None => match bodies::get(&self.bodies, key) {
                Some(kept) => Some(Shown::Body(kept)),
                None => None,
            },
        }
    }

    // Does a step of reading a write from a place.
    pub(crate) fn read(&self, number: u64, place: usize) -> Result<ReadStep, StoreFault>
        ensures answer { ReadAnswer (readable number self.now) place result }
        ensures fits { FitsPast place result }
    {
        if let Some(kept) = self.flights.get(&number) {
            let flight = kept.flight();
            return flight.pieces.read_from(self.alloc, place, flight.ended);
        }
        match readers::left_of(&self.readers, number) {
            Some(buffer) => buffer.read_from(self.alloc, place),
            None => Ok(ReadStep::End),
        }
    }

    // Counts one more reader of a write.
    pub(crate) fn attach(&mut self, number: u64) -> Result<(), StoreFault>
        ensures fault { IfErr result (λ f. f ≡ Fault.Memory) }
        ensures ok { OnOk result (IsJoined number self.old self.new) }
        ensures err { OnErr result (self.new ≡ self.old) }
    {
        if let Err(fault) = readers::attach(&mut self.readers, number) {
            return Err(fault);
        }
        Ok(())
    }

    // Counts one reader of a write less.
    pub(crate) fn detach(&mut self, number: u64)
        ensures { IsParted number self.old self.new }
    {
        readers::detach(&mut self.readers, number);
    }

    // Returns the alive write of a key in flight of that number.
    pub(crate) fn flying(&self, key: &HashBinary, number: u64) -> Option<&Flight>
        ensures { option_map (λ f. in_flight (stored_flight (number, f.now))) result ≡ streamed key.now number self.now.store }
    {
        if alive::is_alive(&self.alive, key, number) {
            Some(self.flights.get(&number).unwrap().flight())
        } else {
            None
        }
    }
}
