//! Passes: what a caller holds.
ghost use Rattle.std.specs.Prelude.{◌≡◌, ◌≤◌, ◌+◌, ◌⊎◌, ◌∷◌, ◌++◌, [], Err, OnOk, length};
ghost use Rattle.tier_model.specs.declared.event.TierFault.TheVariants.{NoRecord};
ghost use Rattle.tier_recorded.specs.Histories.{own};
ghost use Rattle.tier_recorded.specs.Seats.{IsTurn};
ghost use Rattle.tier_recorded.specs.Recorded.{MatchRecorded, Appends};

mod finds;
mod hits;

use crate::event::HeldTwice;
use crate::history::CallerRecord;
use crate::recorded::{Recorded, Unrecorded};
use rand_core::Rng;
use std::alloc::{AllocError, Global};
use std::hash::BuildHasher;
use std::marker::Model;
use std::sync::ledger::{Ledger, Share};
use tier_model::event::{Answer, TierFault};

/// Why there is no pass.
#[derive(Clone, Copy, PartialEq, Eq, Debug)]
pub enum PassFault {
    /// The greatest number of passes was given.
    PassesSpent,
    /// The growth of a part was refused.
    Memory,
}

/// The right of one caller to make calls, with the records of those that it made. They are counted by its share of the
/// ledger. It grows by `Pass::step` alone, so each of its records is of a call that the recorded tier has.
///
/// A pass that is dropped stays outstanding.
#[derive(Drop)]
pub struct Pass<L: Ledger> {
    caller: u64,
    records: Vec<CallerRecord>,
    share: Share<L>,
}

impl<L: Ledger> Model for Pass<L> {
    ghost use Rattle.std.specs.Prelude.{◌≡◌, ◌-◌, length, vec_len, vec_capacity};
    ghost use Rattle.tier_recorded.specs.Seats.{PassState};

    ghost Value = { PassState };

    ghost view = { λ p. record { caller = p.caller; records = p.records.items; room = vec_capacity p.records - vec_len p.records } };

    ghost invariant = { λ p. (p.share.parts ≡ 1) × (p.share.amount ≡ length p.records.items) };
}

/// A pass that was gathered: whose it was, and the records of its calls.
#[derive(Drop)]
pub struct SpentPass {
    caller: u64,
    records: Vec<CallerRecord>,
}

impl Model for SpentPass {
    ghost use Rattle.std.specs.Prelude.{◌-◌, vec_len, vec_capacity};
    ghost use Rattle.tier_recorded.specs.Seats.{PassState};

    ghost Value = { PassState };

    ghost view = { λ p. record { caller = p.caller; records = p.records.items; room = vec_capacity p.records - vec_len p.records } };
}

impl SpentPass {
    /// Returns the number of the pass.
    pub fn caller(&self) -> u64
        ensures { result ≡ self.now.caller }
    {
        self.caller
    }

    /// Returns the records of the calls, in order.
    pub fn records(&self) -> &[CallerRecord]
        ensures { result.now ≡ self.now.records }
    {
        self.records.as_slice()
    }
}

impl<L: Ledger> Pass<L> {
    // A pass without records.
    pub(crate) fn new(alloc: Global, caller: u64, share: Share<L>) -> Pass<L>
        requires { (share.parts ≡ 1) × (share.amount ≡ 0) }
        ensures { (result.caller ≡ caller) × (result.records ≡ []) }
    {
        Pass {
            caller,
            records: Vec::new(alloc),
            share,
        }
    }

    /// Returns the number of the pass.
    pub fn caller(&self) -> u64
        ensures { result ≡ self.now.caller }
    {
        self.caller
    }

    /// Returns the records of the calls, in order.
    pub fn records(&self) -> &[CallerRecord]
        ensures { result.now ≡ self.now.records }
    {
        self.records.as_slice()
    }

    /// Makes room for the records of so many calls more.
    ///
    /// # Errors
    ///
    /// `AllocError` where there is no memory for it. Nothing changes.
    pub fn reserve(&mut self, more: usize) -> Result<(), AllocError>
        ensures room { OnOk result (more ≤ self.new.room) }
        ensures same { (self.new.caller ≡ self.old.caller) × (self.new.records ≡ self.old.records) × (self.old.room ≤ self.new.room) }
    {
        self.records.reserve(more)
    }

    /// Makes a call: the recorded tier takes the event, and both keep it with the note of the outcome.
    ///
    /// # Errors
    ///
    /// The tier's own fault, whose record is kept too. `NoRecord` where there was no room for a record in the pass or in the
    /// recorded tier, and no memory for more; or where the pass is none of this tier's. Neither changes then.
    pub fn step<const N: usize, R: Rng, S: BuildHasher>(
        &mut self,
        recorded: &mut Recorded<N, R, L, S>,
        event: HeldTwice,
    ) -> Result<Answer, TierFault>
        ensures caller { self.new.caller ≡ self.old.caller }
        ensures records { MatchRecorded result (self.new.records ≡ self.old.records) (self.new.records ≡ self.old.records ++ own event result ∷ []) }
        ensures history { MatchRecorded result (recorded.new ≡ recorded.old)
            (Appends recorded.old (R.stream recorded.old.rng) self.old.caller (length self.old.records) event result recorded.new (R.stream recorded.new.rng)) }
        ensures room { self.old.room ≤ self.new.room + 1 }
        ensures reason { result ≡ Err NoRecord → IsTurn recorded.old.seats self.old.caller (length self.old.records) → (recorded.old.room ≡ 0) ⊎ (self.old.room ≡ 0) }
    {
        let Ok(()) = self.records.reserve(1) else {
            return Err(TierFault::NoRecord);
        };
        let turn = self.records.len() as u64;
        let (theirs, mine) = event.apart();
        match recorded.record(self.caller, turn, &mut self.share, theirs) {
            Ok((outcome, note)) => {
                self.records
                    .push_reserved(CallerRecord { event: mine, note });
                outcome
            }
            Err(Unrecorded) => Err(TierFault::NoRecord),
        }
    }

    // Takes the pass apart.
    pub(crate) fn spend(self) -> (SpentPass, Share<L>)
        ensures pass { result.0 ≡ self }
        ensures share { (result.1.parts ≡ 1) × (result.1.amount ≡ length self.records) }
    {
        let Pass {
            caller,
            records,
            share,
        } = self;
        (SpentPass { caller, records }, share)
    }
}
