//! How a write ends as a body.
ghost use Rattle.cache_words.specs.Time.{MomentValue};
ghost use Rattle.tier_single.specs.Acts.{StepsBy};

use super::Tier;
use rand_core::Rng;
use std::hash::BuildHasher;
use tier_model::event::{Action, Answer, TierFault};

impl<const N: usize, S: BuildHasher> Tier<N, S> {
    pub(super) fn finish<R: Rng>(&mut self, rng: &mut R, id: u64) -> Result<Answer, TierFault>
        ensures { (t : MomentValue) → StepsBy self.old (R.stream rng.old) (record { moment = t; action = Action.Finish id }) result self.new (R.stream rng.new) }
    {
        self.requests.finish(self.alloc, id, &mut self.parts, rng)
    }
}
