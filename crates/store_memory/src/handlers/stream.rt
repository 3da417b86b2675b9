//! Readers of writes, as they come.
ghost use Rattle.std.specs.Prelude.{◌≡◌};
ghost use Rattle.cache_store.specs.Readers.{readable};
ghost use Rattle.store_memory.specs.Hits.{ReadAnswer, moved};

use crate::MemCache;
use cache_store::storage::{ReadStep, StoreFault};
use std::hash::BuildHasher;
use std::marker::Model;

/// A reader of a write, as it comes. It is spent by its handler's `finish`, which lets the store forget the bytes.
pub struct PartialHit {
    number: u64,
    place: usize,
}

impl Model for PartialHit {
    ghost use Rattle.cache_store.specs.Readers.{StreamHit};

    ghost Value = { StreamHit };

    ghost view = { λ h. record { number = h.number; place = h.place } };
}

impl PartialHit {
    // Returns a reader of that write that has read nothing.
    pub(crate) fn new(number: u64) -> PartialHit
        ensures { result ≡ record { number = number; place = 0 } }
    {
        PartialHit { number, place: 0 }
    }

    /// Returns the number of its write.
    pub fn number(&self) -> u64
        ensures { result ≡ self.now.number }
    {
        self.number
    }

    /// Returns its place: how many bytes of its write it has read.
    pub fn place(&self) -> usize
        ensures { result ≡ self.now.place }
    {
        self.place
    }

    // Spends the reader, and returns the number of its write.
    pub(crate) fn spend(self) -> u64
        ensures { result ≡ self.number }
    {
        let PartialHit {
            number,
            place: _place,
        } = self;
        number
    }

    /// Reads all that was written past what was read; without any more, the end once no more comes, or `Pending`. Of a write
    /// that the store doesn't have it reads the end.
    ///
    /// # Errors
    ///
    /// `Memory` when out of memory; then it may be read again.
    pub fn read<S: BuildHasher>(&mut self, store: &MemCache<S>) -> Result<ReadStep, StoreFault>
        ensures answer { ReadAnswer (readable self.old.number store.now) self.old.place result }
        ensures after { self.new ≡ moved self.old result }
    {
        match store.read(self.number, self.place) {
            Ok(ReadStep::Bytes(bytes)) => {
                self.place += bytes.len();
                Ok(ReadStep::Bytes(bytes))
            }
            other => other,
        }
    }
}
