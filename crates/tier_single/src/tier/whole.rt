//! Whether all came of what a request reads.
ghost use Rattle.std.specs.Prelude.{◌≡◌, Bool, Some};
ghost use Rattle.tier_model.specs.Answers.{whole_told};
ghost use Rattle.tier_model.specs.Calls.{History};
ghost use Rattle.tier_model.specs.Histories.{Opening};
ghost use Rattle.tier_model.specs.Past.{HasPast};
ghost use Rattle.tier_model.specs.Reads.{HasReadOut};

use super::Tier;
use std::hash::BuildHasher;

impl<const N: usize, S: BuildHasher> Tier<N, S> {
    /// Returns whether all of a body came to a request that read it to its end, as its caller asks where a read answered `End`: `Some(true)` of a
    /// finished body, and of a write that had its last piece or was finished; `Some(false)` of a write that was given up before, so that what
    /// was read is cut short. None where no request of that number is open, where it has nothing to read, and where more is there or may
    /// come. It changes nothing, and no memory is taken.
    pub fn is_whole(&self, request: u64) -> Option<bool>
        ensures told { result ≡ whole_told self.now request }
        ensures past { (start : Opening) (h : History) (all : Bool) → HasPast start self.now h → result ≡ Some all → HasReadOut start request all h }
    {
        self.requests.is_whole(request, &self.parts)
    }
}
