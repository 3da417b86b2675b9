//! Finds that are counted.
ghost use Rattle.std.specs.Prelude.{◌≡◌, ◌+◌, IfOk, option_map};
ghost use Rattle.tier_model.specs.declared.event.Action.TheVariants.{LookUp};
ghost use Rattle.tier_recorded.specs.Recorded.{MatchRecorded};
ghost use Rattle.tier_single.specs.Hits.{FindsHead, OneFound, answer_found, at_moment, meta_of};
ghost use Rattle.tier_shared.specs.Counted.{Counts, Refuses};

use super::{CallPass, Counted};
use cache_words::time::Moment;
use rand_core::Rng;
use std::hash::BuildHasher;
use std::sync::ledger::Ledger;
use tier_single::{Answer, FoundMeta, TierFault};

impl<const N: usize, R: Rng, L: Ledger, S: BuildHasher> Counted<N, R, L, S> {
    /// Makes the call of a look-up, and returns with `Found` the meta of what was found, as `Tier::find` does.
    ///
    /// # Errors
    ///
    /// As of `step`.
    pub fn find(
        &mut self,
        pass: &mut CallPass<L>,
        moment: Moment,
        request: u64,
    ) -> Result<(Answer, Option<FoundMeta>), TierFault>
        ensures counted { MatchRecorded (answer_found result) (Refuses self.old self.new)
            (Counts self.old (R.stream self.old.rng) (at_moment moment (LookUp request)) (answer_found result) self.new (R.stream self.new.rng)) }
        ensures pass { MatchRecorded (answer_found result) (pass.new ≡ pass.old) (pass.new ≡ pass.old + 1) }
        ensures head { IfOk result (λ r. FindsHead self.old.tier request (option_map meta_of r.1)) }
        ensures one { IfOk result (λ r. OneFound moment request r.0 (option_map meta_of r.1)) }
    {
        if self.calls == u64::MAX {
            return Err(TierFault::NoRecord);
        }
        let found = self.tier.find(moment, request);
        pass.count(&mut self.book);
        self.calls += 1;
        found
    }
}
