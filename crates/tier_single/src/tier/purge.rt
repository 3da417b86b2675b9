//! What is stored goes.
ghost use Rattle.cache_words.specs.Time.{MomentValue};
ghost use Rattle.tier_single.specs.Acts.{Took};

use super::Tier;
use crate::bodies::remove;
use crate::keys::parts_of;
use cache_evict::EvictionManager;
use cache_words::key::CacheKey;
use std::hash::BuildHasher;
use tier_model::event::{Action, Answer, TierFault};

impl<const N: usize, S: BuildHasher> Tier<N, S> {
    pub(super) fn purge(&mut self, key: &CacheKey) -> Result<Answer, TierFault>
        ensures { (t : MomentValue) → Took self.old t (Action.Purge key.now) result self.new }
    {
        let (parts, stored) = parts_of(key);
        if remove(self.alloc, &mut self.parts.store, stored) {
            self.parts.manager.remove_parts(parts);
            return Ok(Answer::Purged(true));
        }
        Ok(Answer::Purged(false))
    }
}
