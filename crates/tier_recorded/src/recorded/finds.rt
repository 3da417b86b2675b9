//! Finds that are recorded.
ghost use Rattle.std.specs.Prelude.{◌≡◌, ◌≢◌, ◌<◌, ◌+◌, IfOk, OnOk, OnErr, Err, option_map};
ghost use Rattle.tier_model.specs.declared.event.Action.TheVariants.{LookUp};
ghost use Rattle.tier_model.specs.declared.event.TierFault.TheVariants.{NoRecord};
ghost use Rattle.tier_single.specs.Hits.{FindsHead, OneFound, answer_found, at_moment, meta_of};
ghost use Rattle.tier_recorded.specs.Notes.{note_of};
ghost use Rattle.tier_recorded.specs.Recorded.{Appends, Refuses};

use super::{Recorded, Unrecorded, is_turn};
use crate::event::SharedEvent;
use crate::history::{Record, Seat};
use crate::note::{Note, noted_find};
use cache_words::time::Moment;
use rand_core::Rng;
use std::hash::BuildHasher;
use std::sync::ledger::{Ledger, Share};
use tier_single::{Answer, FoundMeta, TierFault};

/// What came of a find.
pub type Find = Result<(Answer, Option<FoundMeta>), TierFault>;

impl<const N: usize, R: Rng, L: Ledger, S: BuildHasher> Recorded<N, R, L, S> {
    // Takes a look-up with the head of what it finds, and keeps its record, or refuses it before anything is done. The event is that look-up.
    pub(crate) fn record_find(
        &mut self,
        caller: u64,
        turn: u64,
        mine: &mut Share<L>,
        event: SharedEvent,
        moment: Moment,
        request: u64,
    ) -> Result<(Find, Note), Unrecorded>
        requires parts { 0 < mine.old.parts }
        requires event { event ≡ at_moment moment (LookUp request) }
        ensures recorded { IfOk result (λ o. Appends self.old (R.stream self.old.rng) caller turn event (answer_found o.0) self.new (R.stream self.new.rng)) }
        ensures told { IfOk result (λ o. answer_found o.0 ≢ Err NoRecord) }
        ensures noted { IfOk result (λ o. o.1 ≡ note_of (answer_found o.0)) }
        ensures head { IfOk result (λ o. IfOk o.0 (λ r. FindsHead self.old.tier request (option_map meta_of r.1))) }
        ensures one { IfOk result (λ o. IfOk o.0 (λ r. OneFound moment request r.0 (option_map meta_of r.1))) }
        ensures counted { OnOk result (mine.new.amount ≡ mine.old.amount + 1) }
        ensures refused { OnErr result (Refuses self.old caller turn self.new × (mine.new.amount ≡ mine.old.amount)) }
        ensures parts { mine.new.parts ≡ mine.old.parts }
    {
        if !is_turn(&self.seats, caller, turn) {
            return Err(Unrecorded);
        }
        let Ok(()) = self.history.reserve(1) else {
            return Err(Unrecorded);
        };
        let found = self.tier.find(moment, request);
        let note = noted_find(&found);
        self.history.push_reserved(Record {
            caller,
            turn,
            event,
            note,
        });
        self.seats[caller as usize] = Seat {
            records: turn + 1,
            is_gathered: false,
        };
        self.book.add(mine, 1);
        Ok((found, note))
    }
}
