//! Waits.
ghost use Rattle.tier_single.specs.Acts.{Took};

use super::Tier;
use cache_words::time::Moment;
use std::hash::BuildHasher;
use tier_model::event::{Action, Answer, TierFault};

impl<const N: usize, S: BuildHasher> Tier<N, S> {
    pub(super) fn poll(&mut self, moment: Moment, id: u64) -> Result<Answer, TierFault>
        ensures { Took self.old moment (Action.Poll id) result self.new }
    {
        self.requests.poll(self.alloc, id, &mut self.parts, moment)
    }
}
