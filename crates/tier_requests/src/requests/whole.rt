//! Whether all came of what one of the requests reads.
ghost use Rattle.std.specs.Prelude.{◌≡◌, option_and_then};
ghost use Rattle.std.specs.FinMap as finite;
ghost use Rattle.tier_model.specs.Answers.{whole_read};
ghost use Rattle.tier_requests.specs.Shelves.{shelf_of};

use super::Requests;
use crate::request::TierParts;
use std::hash::BuildHasher;

impl<S: BuildHasher> Requests<S> {
    /// Returns whether all of a body came, where the request of that number is open and read it to its end.
    pub fn is_whole<E>(&self, id: u64, parts: &TierParts<S, E>) -> Option<bool>
        ensures { result ≡ option_and_then (λ q. whole_read q.reader (shelf_of parts.now.store)) (finite.get self.now id) }
    {
        match self.table.get(&id) {
            Some(kept) => kept.request().is_whole(parts),
            None => None,
        }
    }
}
