//! Look-ups.
ghost use Rattle.std.specs.Prelude.{◌≡◌};
ghost use Rattle.tier_single.specs.Acts.{Took};
ghost use Rattle.tier_single.specs.Counts.{found_after, absent_after};

use super::Tier;
use cache_words::time::Moment;
use std::hash::BuildHasher;
use tier_model::event::{Action, Answer, TierFault};

// How many look-ups found something, after one more.
fn found_after(outcome: &Result<Answer, TierFault>, found: u64) -> u64
    ensures { result ≡ found_after outcome.now found }
{
    match outcome {
        Ok(Answer::Absent { .. }) => found,
        Ok(_) => found.saturating_add(1),
        Err(_) => found,
    }
}

// How many found nothing.
fn absent_after(outcome: &Result<Answer, TierFault>, absent: u64) -> u64
    ensures { result ≡ absent_after outcome.now absent }
{
    match outcome {
        Ok(Answer::Absent { .. }) => absent.saturating_add(1),
        _ => absent,
    }
}

impl<const N: usize, S: BuildHasher> Tier<N, S> {
    pub(super) fn look_up(&mut self, moment: Moment, id: u64) -> Result<Answer, TierFault>
        ensures { Took self.old moment (Action.LookUp id) result self.new }
    {
        let outcome = self
            .requests
            .look_up(self.alloc, id, &mut self.parts, moment);
        self.parts.manager.shards_are_within();
        self.found = found_after(&outcome, self.found);
        self.absent = absent_after(&outcome, self.absent);
        outcome
    }
}
