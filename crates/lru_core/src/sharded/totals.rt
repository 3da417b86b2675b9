//! Sums of rows, of one shard or of all.

ghost use Rattle.std.specs.Prelude.{◌<◌};
ghost use Rattle.lru_core.specs.Units.{AreSums, IsSummed, IsChanged};

use crate::lru_unit::LruUnit;
use std::hash::BuildHasher;

// How many rows there are, and their weight.
#[derive(Clone, Copy)]
pub(super) struct Totals {
    pub(super) len: usize,
    pub(super) weight: usize,
}

impl Totals {
    // The sums of one shard.
    pub(super) fn of<T, S: BuildHasher>(unit: &LruUnit<T, S>) -> Totals
        ensures { AreSums result unit.now }
    {
        Totals {
            len: unit.len(),
            weight: unit.weight(),
        }
    }

    // Counts again the shard at `place`, which was changed and had the sums `before`.
    pub(super) fn recount<T, const N: usize, S: BuildHasher>(
        &mut self,
        units: &Vec<LruUnit<T, S>>,
        place: usize,
        before: Totals,
    )
        requires within { place < N }
        requires changed { IsChanged N units.now.items self.old before place }
        ensures { IsSummed N units.now.items self.new }
    {
        let after = Totals::of(&units[place]);
        self.len = self.len - before.len + after.len;
        self.weight = self.weight - before.weight + after.weight;
    }
}
