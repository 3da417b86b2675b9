//! Look-ups that take what is found as stale.
ghost use Rattle.std.specs.Prelude.{◌≡◌, ◌≢◌, ◌∷◌, [], true, Some, Err, IfOk, option_map};
ghost use Rattle.std.specs.FinMap.{get};
ghost use Rattle.rand_core.specs.Stream.{Stream};
ghost use Rattle.tier_model.specs.declared.event.Action.TheVariants.{LookUp};
ghost use Rattle.tier_model.specs.declared.event.TierFault.TheVariants.{WrongPhase as AsWrongPhase};
ghost use Rattle.tier_single.specs.GivesUp.{last_moment};
ghost use Rattle.tier_single.specs.Hits.{FindsHead, answer_found, at_moment, meta_of};
ghost use Rattle.tier_single.specs.Takes.{Takes};

use super::Tier;
use crate::found::FoundMeta;
use cache_words::time::Moment;
use std::hash::BuildHasher;
use tier_model::event::{Answer, TierFault};

const LAST_NANOSECOND: u32 = 999_999_999;

// The last moment that there is.
fn last_moment() -> Moment
    ensures { result ≡ last_moment }
{
    match Moment::new(i64::MAX, LAST_NANOSECOND) {
        Some(moment) => moment,
        None => unreachable!(),
    }
}

impl<const N: usize, S: BuildHasher> Tier<N, S> {
    /// Looks up for a request whatever is stored, as stale: as `find` at the last moment that there is, when nothing is fresh but what is
    /// fresh for ever. So a client's `no-cache` is answered (RFC 9111, 5.2.1.4): what is found is validated. Only a request that was opened
    /// without the lock may: a permit of that moment would never age. So validations that clients ask for are not collapsed.
    ///
    /// # Errors
    ///
    /// `WrongPhase` of a request that was opened with the lock, and nothing has changed; else those of the look-up.
    pub fn lookup_stale(&mut self, request: u64) -> Result<(Answer, Option<FoundMeta>), TierFault>
        ensures locked { option_map (λ q. q.asks) (get self.old.requests request) ≡ Some true → (result ≡ Err AsWrongPhase) × (self.new ≡ self.old) }
        ensures takes { option_map (λ q. q.asks) (get self.old.requests request) ≢ Some true → (s : Stream) → Takes self.old s (at_moment last_moment (LookUp request) ∷ []) (answer_found result ∷ []) self.new s }
        ensures head { IfOk result (λ r. FindsHead self.old request (option_map meta_of r.1)) }
    {
        if self.requests.asks(request) == Some(true) {
            return Err(TierFault::WrongPhase);
        }
        self.find(last_moment(), request)
    }
}
