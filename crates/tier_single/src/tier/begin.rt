//! How a write begins.
ghost use Rattle.tier_single.specs.Acts.{Took};

use super::Tier;
use crate::put::{Verdict, judge};
use bytes::Bytes;
use cache_heads::GivenMeta;
use cache_words::time::Moment;
use std::hash::BuildHasher;
use tier_model::event::{Action, Answer, TierFault};

impl<const N: usize, S: BuildHasher> Tier<N, S> {
    pub(super) fn begin(
        &mut self,
        moment: Moment,
        id: u64,
        head: &Bytes,
        given: Option<GivenMeta>,
    ) -> Result<Answer, TierFault>
        ensures { Took self.old moment (Action.Begin id head.now given) result self.new }
    {
        match self.requests.can_begin(id) {
            None => return Err(TierFault::NoRequest),
            Some(false) => return Err(TierFault::WrongPhase),
            Some(true) => {}
        }
        match judge(self.alloc, given, moment, head) {
            Ok(Verdict::Kept(meta)) => {
                self.requests.begin(self.alloc, id, &mut self.parts, meta)?;
                Ok(Answer::Begun)
            }
            Ok(Verdict::NotKept(reason)) => {
                self.requests.give_up(id, &mut self.parts);
                Ok(Answer::Uncacheable(reason))
            }
            Err(fault) => Err(fault),
        }
    }
}
