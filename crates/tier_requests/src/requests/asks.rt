//! What is asked of one of the requests, which changes nothing.
ghost use Rattle.std.specs.Prelude.{◌≡◌, option_map, option_and_then};
ghost use Rattle.std.specs.FinMap as finite;
ghost use Rattle.tier_model.specs.Sizes.{flight_size, unread_len};
ghost use Rattle.tier_requests.specs.Shelves.{shelf_of};

use super::Requests;
use crate::request::TierParts;
use std::hash::BuildHasher;

impl<S: BuildHasher> Requests<S> {
    /// Returns whether the look-ups of the request of that number ask for the lock, if it is open.
    pub fn asks(&self, id: u64) -> Option<bool>
        ensures { result ≡ option_map (λ q. q.asks) (finite.get self.now id) }
    {
        match self.table.get(&id) {
            Some(kept) => Some(kept.request().asks()),
            None => None,
        }
    }

    /// Returns how many bytes a whole body has that that request found and hasn't read.
    pub fn unread_len(&self, id: u64) -> Option<usize>
        ensures { result ≡ option_and_then (λ q. unread_len q.reader) (finite.get self.now id) }
    {
        match self.table.get(&id) {
            Some(kept) => kept.request().unread_len(),
            None => None,
        }
    }

    /// Returns how many bytes the body of that request's write has so far, with those that it has outside, if it has one in flight.
    pub fn write_size<E>(&self, id: u64, parts: &TierParts<S, E>) -> Option<u128>
        ensures { result ≡ option_and_then (λ q. option_and_then (flight_size (shelf_of parts.now.store)) q.write) (finite.get self.now id) }
    {
        match self.table.get(&id) {
            Some(kept) => kept.request().write_size(parts),
            None => None,
        }
    }
}
