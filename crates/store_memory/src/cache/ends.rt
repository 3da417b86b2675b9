//! Whether all of a write came.
ghost use Rattle.std.specs.Prelude.{◌≡◌};
ghost use Rattle.cache_store.specs.Readers.{whole_past};

use super::MemCache;
use crate::readers;
use std::hash::BuildHasher;

impl<S: BuildHasher> MemCache<S> {
    /// Returns whether all of a write came, where a reader at that place has read what there is and no more comes; none where more is there, or
    /// may come. It is `false` where the write was given up before its end, and where the store doesn't have it. No memory is taken.
    pub fn whole_past(&self, number: u64, place: usize) -> Option<bool>
        ensures { result ≡ whole_past number place self.now }
    {
        let Some(kept) = self.flights.get(&number) else {
            return readers::whole_left(&self.readers, number, place);
        };
        let flight = kept.flight();
        if flight.ended && place >= flight.pieces.len() {
            Some(true)
        } else {
            None
        }
    }
}
