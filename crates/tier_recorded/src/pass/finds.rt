//! Finds of a caller.
ghost use Rattle.std.specs.Prelude.{◌≡◌, ◌∷◌, ◌++◌, [], IfOk, length, option_map};
ghost use Rattle.tier_model.specs.declared.event.Action.TheVariants.{LookUp};
ghost use Rattle.tier_single.specs.Hits.{FindsHead, OneFound, answer_found, at_moment, meta_of};
ghost use Rattle.tier_recorded.specs.Histories.{own};
ghost use Rattle.tier_recorded.specs.Recorded.{MatchRecorded, Appends};

use super::Pass;
use crate::event::HeldTwice;
use crate::history::CallerRecord;
use crate::recorded::{Find, Recorded, Unrecorded};
use cache_words::time::Moment;
use rand_core::Rng;
use std::hash::BuildHasher;
use std::sync::ledger::Ledger;
use tier_single::TierFault;

impl<L: Ledger> Pass<L> {
    /// Makes the call of a look-up, and returns with `Found` the meta of what was found, as `Tier::find` does. The event is that look-up.
    ///
    /// # Errors
    ///
    /// As of `step`.
    pub fn find<const N: usize, R: Rng, S: BuildHasher>(
        &mut self,
        recorded: &mut Recorded<N, R, L, S>,
        event: HeldTwice,
        moment: Moment,
        request: u64,
    ) -> Find
        requires { event ≡ at_moment moment (LookUp request) }
        ensures caller { self.new.caller ≡ self.old.caller }
        ensures records { MatchRecorded (answer_found result) (self.new.records ≡ self.old.records) (self.new.records ≡ self.old.records ++ own event (answer_found result) ∷ []) }
        ensures history { MatchRecorded (answer_found result) (recorded.new ≡ recorded.old)
            (Appends recorded.old (R.stream recorded.old.rng) self.old.caller (length self.old.records) event (answer_found result) recorded.new (R.stream recorded.new.rng)) }
        ensures head { IfOk result (λ r. FindsHead recorded.old.tier request (option_map meta_of r.1)) }
        ensures one { IfOk result (λ r. OneFound moment request r.0 (option_map meta_of r.1)) }
    {
        let Ok(()) = self.records.reserve(1) else {
            return Err(TierFault::NoRecord);
        };
        let turn = self.records.len() as u64;
        let (theirs, mine) = event.apart();
        match recorded.record_find(self.caller, turn, &mut self.share, theirs, moment, request) {
            Ok((found, note)) => {
                self.records
                    .push_reserved(CallerRecord { event: mine, note });
                found
            }
            Err(Unrecorded) => Err(TierFault::NoRecord),
        }
    }
}
