//! Events that are taken without an `Event`, and that look at no moment: of each moment the tier takes them alike.
ghost use Rattle.std.specs.Prelude.{◌∷◌, []};
ghost use Rattle.cache_words.specs.Time.{MomentValue};
ghost use Rattle.rand_core.specs.Stream.{Stream};
ghost use Rattle.tier_single.specs.Takes.{Takes};

use super::Tier;
use bytes::Bytes;
use cache_words::key::CacheKey;
use rand_core::Rng;
use std::hash::BuildHasher;
use tier_model::event::{Action, Answer, TierFault};

impl<const N: usize, S: BuildHasher> Tier<N, S> {
    /// Opens a request for a key, as `Action::Open` does.
    pub fn take_open(&mut self, id: u64, key: &CacheKey, asks: bool) -> Result<Answer, TierFault>
        ensures { (t : MomentValue) (s : Stream) → Takes self.old s (record { moment = t; action = Action.Open id key.now asks } ∷ []) (result ∷ []) self.new s }
    {
        self.open(id, key, asks)
    }

    /// Adds bytes to a request's write, as `Action::Piece` does.
    pub fn take_piece(&mut self, id: u64, bytes: &Bytes, end: bool) -> Result<Answer, TierFault>
        ensures { (t : MomentValue) (s : Stream) → Takes self.old s (record { moment = t; action = Action.Piece id bytes.now end } ∷ []) (result ∷ []) self.new s }
    {
        self.piece(id, bytes, end)
    }

    /// Ends a request's write, as `Action::Finish` does.
    pub fn take_finish<R: Rng>(&mut self, rng: &mut R, id: u64) -> Result<Answer, TierFault>
        ensures { (t : MomentValue) → Takes self.old (R.stream rng.old) (record { moment = t; action = Action.Finish id } ∷ []) (result ∷ []) self.new (R.stream rng.new) }
    {
        self.finish(rng, id)
    }

    /// Reads on in what a request found, or writes, as `Action::Read` does.
    pub fn take_read(&mut self, id: u64) -> Result<Answer, TierFault>
        ensures { (t : MomentValue) (s : Stream) → Takes self.old s (record { moment = t; action = Action.Read id } ∷ []) (result ∷ []) self.new s }
    {
        self.read(id)
    }

    /// Ends a request, as `Action::Drop` does.
    pub fn take_drop(&mut self, id: u64) -> Result<Answer, TierFault>
        ensures { (t : MomentValue) (s : Stream) → Takes self.old s (record { moment = t; action = Action.Drop id } ∷ []) (result ∷ []) self.new s }
    {
        self.drop_request(id)
    }

    /// Removes what is stored for a key, as `Action::Purge` does.
    pub fn take_purge(&mut self, key: &CacheKey) -> Result<Answer, TierFault>
        ensures { (t : MomentValue) (s : Stream) → Takes self.old s (record { moment = t; action = Action.Purge key.now } ∷ []) (result ∷ []) self.new s }
    {
        self.purge(key)
    }
}
