//! Hits of a caller.
ghost use Rattle.std.specs.Prelude.{◌≡◌, ◌≤◌, ◌<◌, ◌+◌, ◌⊎◌, ◌++◌, Err, IfOk, length, option_map};
ghost use Rattle.tier_model.specs.declared.event.TierFault.TheVariants.{NoRecord};
ghost use Rattle.tier_model.specs.Keys.{stored_key_of};
ghost use Rattle.tier_single.specs.Hits.{IsHitOf, MatchHit, OneHit, body_in};
ghost use Rattle.tier_recorded.specs.Hits.{MatchMade, hit_calls, hit_events};
ghost use Rattle.tier_recorded.specs.Histories.{owns};
ghost use Rattle.tier_recorded.specs.Seats.{IsTurn};
ghost use Rattle.tier_recorded.specs.Recorded.{AppendsAll, KeepsAll};

use super::Pass;
use crate::hits::{HitEvents, MOST_CALLS, keep_all_own};
use crate::recorded::{HitCame, Recorded, Unrecorded};
use cache_words::key::CacheKey;
use cache_words::time::Moment;
use rand_core::Rng;
use std::hash::BuildHasher;
use std::sync::ledger::Ledger;
use tier_single::TierFault;

impl<L: Ledger> Pass<L> {
    /// Makes the calls of a hit, as `Tier::hit` does: the opening of the request, its look-up, its read and its drop, or none. The recorded tier
    /// and the pass keep each that was made. The events are those of these calls.
    ///
    /// # Errors
    ///
    /// The fault of the opening or of the look-up; the calls up to it are recorded too, with the drop of what was opened. `NoRecord` where
    /// there was no room for four records in the pass or in the recorded tier, and no memory for more; or where the pass is none of this
    /// tier's. Neither changes then.
    pub fn hit<const N: usize, R: Rng, S: BuildHasher>(
        &mut self,
        recorded: &mut Recorded<N, R, L, S>,
        events: HitEvents,
        moment: Moment,
        request: u64,
        key: &CacheKey,
    ) -> HitCame
        requires { events ≡ hit_events moment request key.now }
        ensures caller { self.new.caller ≡ self.old.caller }
        ensures records { MatchMade result (self.new.records ≡ self.old.records) (MatchHit moment request key.now result
            (λ events outcomes. self.new.records ≡ self.old.records ++ owns events outcomes) (self.new.records ≡ self.old.records)) }
        ensures history { MatchMade result (recorded.new ≡ recorded.old) (MatchHit moment request key.now result
            (λ events outcomes. AppendsAll recorded.old (R.stream recorded.old.rng) self.old.caller (length self.old.records) events outcomes recorded.new (R.stream recorded.new.rng))
            (KeepsAll recorded.old recorded.new)) }
        ensures hit { IfOk result (λ hit. IsHitOf recorded.old.tier moment (stored_key_of key.now) (option_map body_in hit)) }
        ensures one { IfOk result (λ hit. OneHit moment (stored_key_of key.now) (option_map body_in hit)) }
        ensures room { self.old.room ≤ self.new.room + hit_calls result }
        ensures reason { result ≡ Err NoRecord → IsTurn recorded.old.seats self.old.caller (length self.old.records) → (recorded.old.room < 4) ⊎ (self.old.room < 4) }
    {
        let Ok(()) = self.records.reserve(MOST_CALLS) else {
            return Err(TierFault::NoRecord);
        };
        let turn = self.records.len() as u64;
        let (theirs, mine) = events.apart();
        let share = &mut self.share;
        match recorded.record_hit(self.caller, turn, share, theirs, moment, request, key) {
            Ok((hit, notes)) => {
                keep_all_own(&mut self.records, mine, notes);
                hit
            }
            Err(Unrecorded) => Err(TierFault::NoRecord),
        }
    }
}
