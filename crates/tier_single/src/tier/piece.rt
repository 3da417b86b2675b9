//! Bytes of writes.
ghost use Rattle.cache_words.specs.Time.{MomentValue};
ghost use Rattle.tier_single.specs.Acts.{Took};

use super::Tier;
use bytes::Bytes;
use std::hash::BuildHasher;
use tier_model::event::{Action, Answer, TierFault};

impl<const N: usize, S: BuildHasher> Tier<N, S> {
    pub(super) fn piece(&mut self, id: u64, bytes: &Bytes, end: bool) -> Result<Answer, TierFault>
        ensures { (t : MomentValue) → Took self.old t (Action.Piece id bytes.now end) result self.new }
    {
        self.requests
            .piece(self.alloc, id, &mut self.parts, bytes, end)
    }
}
