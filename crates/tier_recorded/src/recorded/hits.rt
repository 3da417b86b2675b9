//! Hits that are recorded.
ghost use Rattle.std.specs.Prelude.{◌≡◌, ◌≢◌, ◌<◌, ◌+◌, IfOk, OnErr, Err, option_map};
ghost use Rattle.tier_model.specs.declared.event.TierFault.TheVariants.{NoRecord};
ghost use Rattle.tier_model.specs.Keys.{stored_key_of};
ghost use Rattle.tier_single.specs.Hits.{IsHitOf, MatchHit, OneHit, body_in};
ghost use Rattle.tier_recorded.specs.Hits.{hit_calls, hit_events, hit_notes};
ghost use Rattle.tier_recorded.specs.Recorded.{AppendsAll, KeepsAll, RefusesAll};

use super::{Recorded, Unrecorded, is_turn};
use crate::history::Seat;
use crate::hits::{CallEvents, HitNotes, MOST_CALLS, keep_all, noted_hit};
use cache_words::key::CacheKey;
use cache_words::time::Moment;
use rand_core::Rng;
use std::hash::BuildHasher;
use std::sync::ledger::{Ledger, Share};
use tier_single::{Hit, TierFault};

/// What came of a hit.
pub type HitCame = Result<Option<Hit>, TierFault>;

impl<const N: usize, R: Rng, L: Ledger, S: BuildHasher> Recorded<N, R, L, S> {
    // Makes the calls of a hit and keeps their records, or refuses them before anything is done. The events are those of the calls that it may
    // make, and the notes those of the calls that it made.
    pub(crate) fn record_hit(
        &mut self,
        caller: u64,
        turn: u64,
        mine: &mut Share<L>,
        events: CallEvents,
        moment: Moment,
        request: u64,
        key: &CacheKey,
    ) -> Result<(HitCame, HitNotes), Unrecorded>
        requires parts { 0 < mine.old.parts }
        requires events { events ≡ hit_events moment request key.now }
        ensures recorded { IfOk result (λ o. MatchHit moment request key.now o.0
            (λ events outcomes. AppendsAll self.old (R.stream self.old.rng) caller turn events outcomes self.new (R.stream self.new.rng)) (KeepsAll self.old self.new)) }
        ensures told { IfOk result (λ o. o.0 ≢ Err NoRecord) }
        ensures noted { IfOk result (λ o. o.1 ≡ hit_notes o.0) }
        ensures hit { IfOk result (λ o. IfOk o.0 (λ hit. IsHitOf self.old.tier moment (stored_key_of key.now) (option_map body_in hit))) }
        ensures one { IfOk result (λ o. IfOk o.0 (λ hit. OneHit moment (stored_key_of key.now) (option_map body_in hit))) }
        ensures counted { IfOk result (λ o. mine.new.amount ≡ mine.old.amount + hit_calls o.0) }
        ensures refused { OnErr result (RefusesAll 4 self.old caller turn self.new × (mine.new.amount ≡ mine.old.amount)) }
        ensures parts { mine.new.parts ≡ mine.old.parts }
    {
        if !is_turn(&self.seats, caller, turn) {
            return Err(Unrecorded);
        }
        let Ok(()) = self.history.reserve(MOST_CALLS) else {
            return Err(Unrecorded);
        };
        let hit = self.tier.hit(moment, request, key);
        let notes = noted_hit(&hit);
        let next = keep_all(&mut self.history, caller, turn, events, notes);
        self.seats[caller as usize] = Seat {
            records: next,
            is_gathered: false,
        };
        let calls = next - turn;
        self.book.add(mine, calls);
        Ok((hit, notes))
    }
}
