//! Reads.
ghost use Rattle.cache_words.specs.Time.{MomentValue};
ghost use Rattle.tier_single.specs.Acts.{Took};

use super::Tier;
use std::hash::BuildHasher;
use tier_model::event::{Action, Answer, TierFault};

impl<const N: usize, S: BuildHasher> Tier<N, S> {
    pub(super) fn read(&mut self, id: u64) -> Result<Answer, TierFault>
        ensures { (t : MomentValue) → Took self.old t (Action.Read id) result self.new }
    {
        self.requests.read(self.alloc, id, &self.parts)
    }
}
