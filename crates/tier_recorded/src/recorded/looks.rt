//! What a recorded tier shows.
ghost use Rattle.std.specs.Prelude.{◌≡◌, ℕ, [], length};
ghost use Rattle.tier_model.specs.Answers.{whole_told};
ghost use Rattle.tier_recorded.specs.Histories.{HasTurns, records_of};
ghost use Rattle.tier_recorded.specs.Seats.{Shows, seat_of};
ghost use Rattle.tier_recorded.specs.Recorded.{IsReplayed};

use super::Recorded;
use crate::history::Record;
use crate::pass::SpentPass;
use crate::snapshot::Snapshot;
use rand_core::Rng;
use std::hash::BuildHasher;
use std::sync::ledger::Ledger;
use tier_single::Tier;

impl<const N: usize, R: Rng, L: Ledger, S: BuildHasher> Recorded<N, R, L, S> {
    /// Returns the tier: the replay of the history from the opening.
    pub fn tier(&self) -> &Tier<N, S>
        ensures same { result.now ≡ self.now.tier }
        ensures replayed { IsReplayed N self.now (R.stream self.now.opening.rng) (R.stream self.now.rng) }
    {
        &self.tier
    }

    /// Returns whether all of a body came to a request that read it to its end, as `Tier::is_whole` does. The call is in no record.
    pub fn is_whole(&self, request: u64) -> Option<bool>
        ensures { result ≡ whole_told self.now.tier request }
    {
        self.tier.is_whole(request)
    }

    /// Returns the history, the first call first.
    pub fn history(&self) -> &[Record]
        ensures same { result.now ≡ self.now.history }
        ensures turns { HasTurns [] self.now.history }
        ensures fits { (c : ℕ) → (seat_of c self.now.seats).records ≡ length (records_of c self.now.history) }
    {
        self.history.as_slice()
    }

    /// Returns the gathered passes, in the order in which they were gathered.
    pub fn gathered(&self) -> &[SpentPass]
        ensures same { result.now ≡ self.now.gathered }
        ensures shown { Shows self.now.seats self.now.history self.now.gathered }
    {
        self.gathered.as_slice()
    }

    /// Returns the generator, whose next words the tier draws next.
    pub fn rng(&self) -> &R
        ensures { result.now ≡ self.now.rng }
    {
        &self.rng
    }

    /// Returns how the tier began.
    pub fn opening(&self) -> &Snapshot<R>
        ensures { result.now ≡ self.now.opening }
    {
        &self.opening
    }
}

impl<const N: usize, R: Rng + Drop, L: Ledger, S: BuildHasher + Drop> Recorded<N, R, L, S> {
    /// Returns the tier, and ends its history.
    pub fn into_tier(self) -> Tier<N, S>
        ensures { result ≡ self.tier }
    {
        let Recorded { tier, .. } = self;
        tier
    }
}
