//! How what a request found past its moment is confirmed.
ghost use Rattle.std.specs.Prelude.{◌≡◌, true, None, Some, option_map, MatchOption};
ghost use Rattle.std.specs.FinMap.{get};
ghost use Rattle.cache_words.specs.Time.{MomentValue};
ghost use Rattle.tier_model.specs.Checks.{can_revalidate};
ghost use Rattle.tier_single.specs.Acts.{StepsBy};
ghost use Rattle.tier_single.specs.Confirms.{IsConfirmedFor};

use super::Tier;
use crate::given::renewed_as_given;
use crate::put::{Renewal, Verdict, confirming, judge_header};
use bytes::Bytes;
use cache_heads::GivenMeta;
use cache_words::time::Moment;
use rand_core::Rng;
use std::hash::BuildHasher;
use tier_model::event::{Action, Answer, TierFault};

impl<const N: usize, S: BuildHasher> Tier<N, S> {
    // What a head gives that confirms what a request found, by the lines of both.
    fn confirm_judged(&self, moment: Moment, id: u64, head: &Bytes) -> Result<Renewal, TierFault>
        requires { option_map (λ q. can_revalidate q.phase q.gave_read) (get self.now.requests id) ≡ Some true }
        ensures { MatchOption (get self.now.requests id) ⊥ (λ q. IsConfirmedFor None moment head.now q self.now.shelf result) }
    {
        let sent = confirming(self.alloc, false, head)?;
        let found = self.requests.finds_its_body(id, &self.parts.store);
        if !found {
            return Err(TierFault::NotStored);
        }
        let merged = self.requests.merged(self.alloc, id, &sent)?;
        let verdict = judge_header(self.alloc, moment, merged)?;
        match verdict {
            Verdict::Kept(meta) => Ok(Renewal::Renewed(meta)),
            Verdict::NotKept(reason) => Ok(Renewal::NotRenewed(reason, sent)),
        }
    }

    // What a whole new head gives with what is said of it.
    fn confirm_given(&self, id: u64, head: &Bytes, given: GivenMeta) -> Result<Renewal, TierFault>
        requires { option_map (λ q. can_revalidate q.phase q.gave_read) (get self.now.requests id) ≡ Some true }
        ensures { (t : MomentValue) → MatchOption (get self.now.requests id) ⊥ (λ q. IsConfirmedFor (Some given) t head.now q self.now.shelf result) }
    {
        let header = confirming(self.alloc, true, head)?;
        let found = self.requests.finds_its_body(id, &self.parts.store);
        if !found {
            return Err(TierFault::NotStored);
        }
        let meta = renewed_as_given(given, header)?;
        Ok(Renewal::Renewed(meta))
    }

    // What a head gives that renews what a request found.
    fn confirm(
        &self,
        moment: Moment,
        id: u64,
        head: &Bytes,
        given: Option<GivenMeta>,
    ) -> Result<Renewal, TierFault>
        requires { option_map (λ q. can_revalidate q.phase q.gave_read) (get self.now.requests id) ≡ Some true }
        ensures { MatchOption (get self.now.requests id) ⊥ (λ q. IsConfirmedFor given moment head.now q self.now.shelf result) }
    {
        match given {
            None => self.confirm_judged(moment, id, head),
            Some(given) => self.confirm_given(id, head, given),
        }
    }

    pub(super) fn revalidate<R: Rng>(
        &mut self,
        rng: &mut R,
        moment: Moment,
        id: u64,
        head: &Bytes,
        given: Option<GivenMeta>,
    ) -> Result<Answer, TierFault>
        ensures { StepsBy self.old (R.stream rng.old) (record { moment = moment; action = Action.Revalidate id head.now given }) result self.new (R.stream rng.new) }
    {
        match self.requests.can_revalidate(id) {
            None => return Err(TierFault::NoRequest),
            Some(false) => return Err(TierFault::WrongPhase),
            Some(true) => {}
        }
        let renewal = self.confirm(moment, id, head, given)?;
        match renewal {
            Renewal::Renewed(meta) => {
                self.requests
                    .revalidate(self.alloc, id, &mut self.parts, rng, meta)
            }
            Renewal::NotRenewed(reason, sent) => {
                self.requests
                    .revalidate_uncacheable(id, &mut self.parts, sent);
                Ok(Answer::Uncacheable(reason))
            }
        }
    }
}
