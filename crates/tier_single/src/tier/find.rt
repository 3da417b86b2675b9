//! Look-ups with the head of what they find.
ghost use Rattle.std.specs.Prelude.{◌≡◌, ◌∷◌, [], None, IsSome, IfOk, MatchResult, option_map};
ghost use Rattle.std.specs.FinMap.{get};
ghost use Rattle.rand_core.specs.Stream.{Stream};
ghost use Rattle.tier_model.specs.declared.event.Action.TheVariants.{LookUp};
ghost use Rattle.tier_model.specs.After.{by_request};
ghost use Rattle.tier_requests.specs.Shown.{meta_for_look};
ghost use Rattle.tier_single.specs.Hits.{FindsHead, OneFound, answer_found, at_moment, meta_of};
ghost use Rattle.tier_single.specs.Takes.{Takes};

use super::Tier;
use crate::found::{FoundMeta, shared_of};
use cache_words::time::Moment;
use std::alloc::AllocError;
use std::hash::BuildHasher;
use tier_model::event::{Answer, TierFault};
use tier_requests::faults::out_of_memory;

impl<const N: usize, S: BuildHasher> Tier<N, S> {
    // Returns a share of the meta of what a look-up of a request finds, if it may look up.
    fn meta_to_find(&self, id: u64) -> Result<Option<FoundMeta>, AllocError>
        ensures { let there = by_request None (get self.now.requests id) (λ q. meta_for_look q self.now.shelf) in
            MatchResult result (λ meta. option_map meta_of meta ≡ there) (λ _. IsSome there) }
    {
        match self.requests.shown(id, &self.parts.store) {
            None => Ok(None),
            Some(shown) => match shared_of(shown) {
                Ok(meta) => Ok(Some(meta)),
                Err(fault) => Err(fault),
            },
        }
    }

    /// Looks up for an open request, as the event does, and returns with `Found` the meta of what was found: its head is a share, and isn't
    /// copied. It is that of the write whose bytes the request reads then, of a write in flight too, whatever becomes of the key.
    ///
    /// # Errors
    ///
    /// Those of the look-up, which leave the tier as before.
    pub fn find(
        &mut self,
        moment: Moment,
        request: u64,
    ) -> Result<(Answer, Option<FoundMeta>), TierFault>
        ensures takes { (s : Stream) → Takes self.old s (at_moment moment (LookUp request) ∷ []) (answer_found result ∷ []) self.new s }
        ensures head { IfOk result (λ r. FindsHead self.old request (option_map meta_of r.1)) }
        ensures one { IfOk result (λ r. OneFound moment request r.0 (option_map meta_of r.1)) }
    {
        let Ok(meta) = self.meta_to_find(request) else {
            return Err(out_of_memory(self.alloc));
        };
        match self.look_up(moment, request) {
            Ok(answer) => Ok((answer, meta)),
            Err(fault) => Err(fault),
        }
    }
}
