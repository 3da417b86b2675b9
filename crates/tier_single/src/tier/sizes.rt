//! How large a write has become, and what a look-up found.
ghost use Rattle.std.specs.Prelude.{◌≡◌};
ghost use Rattle.tier_model.specs.Sizes.{write_size, found_len};

use super::Tier;
use std::hash::BuildHasher;

impl<const N: usize, S: BuildHasher> Tier<N, S> {
    /// Returns how many bytes the body of a request's write has so far, with those that it has outside, if it has one in flight. It changes
    /// nothing, and no memory is taken.
    pub fn write_size(&self, id: u64) -> Option<u128>
        ensures { result ≡ write_size self.now id }
    {
        self.requests.write_size(id, &self.parts)
    }

    /// Returns how many bytes a whole body has that a request found and hasn't read. It changes nothing, and no memory is taken.
    pub fn found_len(&self, id: u64) -> Option<usize>
        ensures { result ≡ found_len self.now id }
    {
        self.requests.unread_len(id)
    }
}
