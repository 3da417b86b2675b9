//! Writes: how they begin, go on and end.
ghost use Rattle.std.specs.Prelude.{◌≡◌, ◌+◌, false, length, Some, None, option_map, unwrap_or, IfOk, IfErr, OnOk, OnErr};
ghost use Rattle.cache_changes.specs.Changes.{begins};
ghost use Rattle.cache_changes.specs.Store.{after, flying_at};
ghost use Rattle.cache_store.specs.declared.storage.StoreFault.{StoreFault as Fault};
ghost use Rattle.cache_store.specs.Answers.{WriteAnswer, after_write, alive_key, left};
ghost use Rattle.cache_store.specs.Misses.{BeginAnswer};
ghost use Rattle.store_memory.specs.Misses.{are_numbers_spent, FinishesWith, FinishAnswer};

use super::MemCache;
use crate::counted_meta::TOO_LONG;
use crate::flight::{Buffer, Flight, Reserved};
use crate::handlers::MemMissHandler;
use crate::meta::reserved_for;
use crate::pieces::Pieces;
use crate::{alive, bodies, flights, readers};
use bytes::Bytes;
use cache_heads::CacheMeta;
use cache_store::storage::StoreFault;
use cache_words::key::HashBinary;
use head_packed::SharedHead;
use std::hash::BuildHasher;

impl<S: BuildHasher> MemCache<S> {
    // Begins a write, and returns its number.
    fn begin(&mut self, key: HashBinary, meta: Reserved) -> Result<u64, StoreFault>
        requires { are_numbers_spent self.old ≡ false }
        ensures number { IfOk result (λ n. n ≡ self.old.next) }
        ensures fresh { OnOk result (flying_at self.old.next self.old.store ≡ None) }
        ensures begun { OnOk result (self.new ≡ record self.old {
          store = after (begins (record { number = self.old.next; key = key; meta = meta })) self.old.store;
          next = self.old.next + 1;
        }) }
        ensures err { OnErr result (self.new ≡ self.old) }
        ensures fault { IfErr result (λ f. f ≡ Fault.Memory) }
    {
        let number = self.next;
        let next = number + 1;
        if let Err(fault) = alive::add(&mut self.alive, self.alloc, key, number) {
            return Err(fault);
        }
        let flight = Flight {
            key,
            meta,
            pieces: Pieces::new(self.alloc),
            ended: false,
        };
        if let Err(fault) = flights::put(&mut self.flights, self.alloc, number, flight) {
            alive::take_out(&mut self.alive, &key, number);
            return Err(fault);
        }
        self.next = next;
        Ok(number)
    }

    // Begins a write with a meta.
    pub(crate) fn begin_write(
        &mut self,
        key: HashBinary,
        meta: &CacheMeta,
    ) -> Result<MemMissHandler, StoreFault>
        ensures { BeginAnswer (λ h. h) (are_numbers_spent self.old) key meta.now self.old result self.new }
    {
        if self.next == u64::MAX {
            return Err(StoreFault::WriteNumbersSpent);
        }
        let reserved = match reserved_for(self.alloc, meta) {
            Ok(reserved) => reserved,
            Err(fault) => return Err(fault),
        };
        match self.begin(key, reserved) {
            Ok(number) => Ok(MemMissHandler::new(number)),
            Err(fault) => Err(fault),
        }
    }

    // Adds bytes to a write, and marks its end where they are the last.
    pub(crate) fn append(&mut self, number: u64, more: Bytes, eof: bool) -> Result<(), StoreFault>
        ensures answer { WriteAnswer (option_map (λ f. f.ended) (flying_at number self.old.store)) result }
        ensures ok { OnOk result (self.new ≡ record self.old { store = after_write number more eof self.old.store }) }
        ensures err { OnErr result (self.new ≡ self.old) }
    {
        if let Err(fault) = flights::append(&mut self.flights, self.alloc, number, more, eof) {
            return Err(fault);
        }
        Ok(())
    }

    // Returns how many bytes a write in flight has; 0 where there is none of that number.
    pub(crate) fn written(&self, number: u64) -> usize
        ensures { result ≡ unwrap_or (option_map (λ f. length f.stored.bytes) (flying_at number self.now.store)) 0 }
    {
        match self.flights.get(&number) {
            Some(kept) => kept.flight().pieces.len(),
            None => 0,
        }
    }

    /// Lends the head of the write in flight of a number, as who reads it knows; none where there is no such write. No memory is taken.
    pub fn write_head(&self, number: u64) -> Option<&SharedHead>
        ensures { option_map (λ h. h.now) result ≡ option_map (λ f. f.stored.meta.header) (flying_at number self.now.store) }
    {
        match self.flights.get(&number) {
            Some(kept) => Some(kept.flight().meta.packed().head()),
            None => None,
        }
    }

    /// Returns how many bytes the body of the write in flight of a number has so far, with those that it has outside; none where there is no
    /// such write. No memory is taken.
    pub fn write_size(&self, number: u64) -> Option<u128>
        ensures { result ≡ option_map (λ f. length f.stored.bytes + f.stored.meta.external) (flying_at number self.now.store) }
    {
        match self.flights.get(&number) {
            Some(kept) => {
                let flight = kept.flight();
                let external = flight.meta.packed().external();
                Some(flight.pieces.len() as u128 + external as u128)
            }
            None => None,
        }
    }

    // Gives a write up.
    pub(crate) fn leave(&mut self, number: u64)
        ensures { self.new ≡ left number self.old }
    {
        let Some(kept) = self.flights.remove(&number) else {
            return;
        };
        let Flight {
            key,
            pieces,
            ended,
            ..
        } = kept.into_flight();
        alive::take_out(&mut self.alive, &key, number);
        readers::leave_bytes(&mut self.readers, number, Buffer::InPieces(pieces), ended);
    }

    // Returns the key of a write that no removal met.
    pub(crate) fn key_of(&self, number: u64) -> Option<HashBinary>
        ensures { result ≡ alive_key (flying_at number self.now.store) }
    {
        let Some(key) = flights::key_of(&self.flights, number) else {
            return None;
        };
        if alive::is_alive(&self.alive, &key, number) {
            Some(key)
        } else {
            None
        }
    }

    // Finishes a write that no removal met, and returns what its body weighs.
    fn store_body(&mut self, key: HashBinary, number: u64) -> Result<usize, StoreFault>
        requires { alive_key (flying_at number self.old.store) ≡ Some key }
        ensures fault { IfErr result (λ f. f ≡ Fault.Memory) }
        ensures err { OnErr result (self.new ≡ self.old) }
        ensures ok { IfOk result (λ weight. FinishesWith number weight self.old self.new) }
    {
        let Ok(bytes) = flights::join(&self.flights, self.alloc, number) else {
            return Err(StoreFault::Memory);
        };
        let Ok(share) = readers::share_for(&self.readers, number, &bytes) else {
            return Err(StoreFault::Memory);
        };
        if bytes.len() >= TOO_LONG {
            return Err(StoreFault::Memory);
        }
        let Ok(()) = bodies::make_room(&mut self.bodies) else {
            return Err(StoreFault::Memory);
        };
        let flight = flights::take(&mut self.flights, number);
        alive::take_out(&mut self.alive, &key, number);
        readers::leave_share(&mut self.readers, number, share);
        let kept = flight.meta.filled(number, bytes);
        let weight = kept.weight();
        bodies::put(&mut self.bodies, key, kept);
        Ok(weight)
    }

    // Finishes a write, and returns what its body weighs.
    pub(crate) fn finish(&mut self, number: u64) -> Result<usize, StoreFault>
        ensures { FinishAnswer number self.old result self.new (alive_key (flying_at number self.old.store)) }
    {
        match self.key_of(number) {
            Some(key) => self.store_body(key, number),
            None => {
                self.leave(number);
                Err(StoreFault::WriteRemoved)
            }
        }
    }
}
