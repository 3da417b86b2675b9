//! What a counted tier shows.
ghost use Rattle.std.specs.Prelude.{◌≡◌, ◌+◌};
ghost use Rattle.tier_shared.specs.Counted.{IsCounted};

use super::Counted;
use rand_core::Rng;
use std::hash::BuildHasher;
use std::sync::ledger::Ledger;
use tier_recorded::Snapshot;
use tier_single::Tier;

impl<const N: usize, R: Rng, L: Ledger, S: BuildHasher> Counted<N, R, L, S> {
    /// Returns the tier: some events, as many as were counted, lead to it from the opening.
    pub fn tier(&self) -> &Tier<N, S>
        ensures same { result.now ≡ self.now.tier }
        ensures counted { IsCounted N self.now (R.stream self.now.opening.rng) (R.stream self.now.rng) }
    {
        &self.tier
    }

    /// Returns how the tier began.
    pub fn opening(&self) -> &Snapshot<R>
        ensures { result.now ≡ self.now.opening }
    {
        &self.opening
    }

    /// Returns the number of all calls.
    pub fn calls(&self) -> u64
        ensures { result ≡ self.now.calls }
    {
        self.calls
    }

    /// Returns the number of passes that are not gathered.
    pub fn outstanding(&self) -> u64
        ensures { result + self.now.gathered ≡ self.now.passes }
    {
        self.passes - self.gathered
    }
}

impl<const N: usize, R: Rng + Drop, L: Ledger, S: BuildHasher + Drop> Counted<N, R, L, S> {
    /// Returns the tier, and ends the counting.
    pub fn into_tier(self) -> Tier<N, S>
        ensures { result ≡ self.tier }
    {
        let Counted { tier, .. } = self;
        tier
    }
}
