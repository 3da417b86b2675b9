//! How a request opens, and how it ends.
ghost use Rattle.cache_words.specs.Time.{MomentValue};
ghost use Rattle.tier_single.specs.Acts.{Took};

use super::Tier;
use cache_words::key::CacheKey;
use std::hash::BuildHasher;
use tier_model::event::{Action, Answer, TierFault};
use tier_requests::OpenRequest;
use tier_requests::faults::out_of_memory;

impl<const N: usize, S: BuildHasher> Tier<N, S> {
    pub(super) fn open(&mut self, id: u64, key: &CacheKey, asks: bool) -> Result<Answer, TierFault>
        ensures { (t : MomentValue) → Took self.old t (Action.Open id key.now asks) result self.new }
    {
        if self.requests.contains(id) {
            return Err(TierFault::IdInUse);
        }
        let Ok(request) = OpenRequest::open(self.alloc, &mut self.parts, key, asks, self.wait)
        else {
            return Err(out_of_memory(self.alloc));
        };
        match self.requests.insert(id, request) {
            Ok(()) => Ok(Answer::Opened),
            Err(request) => {
                request.end(&mut self.parts);
                Err(out_of_memory(self.alloc))
            }
        }
    }

    pub(super) fn drop_request(&mut self, id: u64) -> Result<Answer, TierFault>
        ensures { (t : MomentValue) → Took self.old t (Action.Drop id) result self.new }
    {
        match self.requests.remove(id) {
            Some(request) => {
                request.end(&mut self.parts);
                Ok(Answer::Dropped)
            }
            None => Err(TierFault::NoRequest),
        }
    }
}
