//! Requests whose response won't be stored.
ghost use Rattle.std.specs.Prelude.{◌≡◌, ◌⊎◌, ◌∷◌, [], None, IfErr};
ghost use Rattle.cache_words.specs.Time.{MomentValue};
ghost use Rattle.rand_core.specs.Stream.{Stream};
ghost use Rattle.tier_model.specs.NoStore.{no_store_head};
ghost use Rattle.tier_single.specs.Takes.{Takes};

use super::Tier;
use cache_heads::NoCacheReason;
use std::hash::BuildHasher;
use tier_model::event::{Action, Answer, TierFault};

impl<const N: usize, S: BuildHasher> Tier<N, S> {
    /// Says that the response of a request won't be stored: of each moment it is the begin of a write whose head is that of a response of
    /// status 200 that no cache may store. Its permit ends so, and who waits for it goes on at once; what is stale stays. After it only the
    /// drop of the request is allowed: who serves what is stale reads it before. It takes no memory.
    ///
    /// # Errors
    ///
    /// `NoRequest`, and `WrongPhase` where the request may not begin a write. All is as before.
    pub fn give_up(&mut self, id: u64) -> Result<Answer, TierFault>
        ensures takes { (t : MomentValue) (s : Stream) → Takes self.old s (record { moment = t; action = Action.Begin id no_store_head None } ∷ []) (result ∷ []) self.new s }
        ensures faults { IfErr result (λ f. (f ≡ TierFault.NoRequest) ⊎ (f ≡ TierFault.WrongPhase)) }
    {
        match self.requests.can_begin(id) {
            None => return Err(TierFault::NoRequest),
            Some(false) => return Err(TierFault::WrongPhase),
            Some(true) => {}
        }
        self.requests.give_up(id, &mut self.parts);
        Ok(Answer::Uncacheable(NoCacheReason::OriginNotCache))
    }
}
