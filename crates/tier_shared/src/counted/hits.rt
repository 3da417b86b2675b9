//! Hits that are counted.
ghost use Rattle.std.specs.Prelude.{◌≡◌, ◌+◌, ◌<◌, ◌^◌, IfOk, option_map};
ghost use Rattle.tier_model.specs.Keys.{stored_key_of};
ghost use Rattle.tier_single.specs.Hits.{IsHitOf, MatchHit, OneHit, body_in};
ghost use Rattle.tier_recorded.specs.Hits.{MatchMade, hit_calls};
ghost use Rattle.tier_shared.specs.Counted.{CountsAll, RefusesHit};

use super::{CallPass, Counted};
use cache_words::key::CacheKey;
use cache_words::time::Moment;
use rand_core::Rng;
use std::hash::BuildHasher;
use std::sync::ledger::{Book, Ledger};
use tier_single::{Hit, TierFault};

// The most calls that a hit makes.
const MOST_CALLS: u64 = 4;

// How many calls a hit made.
fn calls_of(hit: &Result<Option<Hit>, TierFault>) -> u64
    ensures { result ≡ hit_calls hit.now }
{
    match hit {
        Ok(Some(_)) => 4,
        Ok(None) => 0,
        Err(TierFault::IdInUse | TierFault::Memory(_)) => 1,
        Err(_) => 3,
    }
}

impl<L: Ledger> CallPass<L> {
    // Counts some calls. The book has room for them.
    fn count_all(&mut self, book: &mut Book<L>, calls: u64)
        requires { book.old.total + calls < 2 ^ 64 }
        ensures calls { self.new ≡ self.old + calls }
        ensures total { book.new.total ≡ book.old.total + calls }
    {
        // The pass has no more calls than the book.
        book.audit(&mut self.share);
        book.add(&mut self.share, calls);
        self.calls += calls;
    }
}

impl<const N: usize, R: Rng, L: Ledger, S: BuildHasher> Counted<N, R, L, S> {
    /// Makes the calls of a hit, as `Tier::hit` does: the opening of the request, its look-up, its read and its drop, or none.
    ///
    /// # Errors
    ///
    /// The fault of the opening or of the look-up, whose calls are counted too. `NoRecord` only where 2^64 - 4 calls were counted: nothing
    /// changes then.
    pub fn hit(
        &mut self,
        pass: &mut CallPass<L>,
        moment: Moment,
        request: u64,
        key: &CacheKey,
    ) -> Result<Option<Hit>, TierFault>
        ensures counted { MatchMade result (RefusesHit self.old self.new) (MatchHit moment request key.now result
            (λ events outcomes. CountsAll self.old (R.stream self.old.rng) events outcomes self.new (R.stream self.new.rng)) (self.new ≡ self.old)) }
        ensures pass { MatchMade result (pass.new ≡ pass.old) (pass.new ≡ pass.old + hit_calls result) }
        ensures hit { IfOk result (λ hit. IsHitOf self.old.tier moment (stored_key_of key.now) (option_map body_in hit)) }
        ensures one { IfOk result (λ hit. OneHit moment (stored_key_of key.now) (option_map body_in hit)) }
    {
        if self.calls > u64::MAX - MOST_CALLS {
            return Err(TierFault::NoRecord);
        }
        let hit = self.tier.hit(moment, request, key);
        let calls = calls_of(&hit);
        pass.count_all(&mut self.book, calls);
        self.calls += calls;
        hit
    }
}
