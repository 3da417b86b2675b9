//! A tier with its history.
ghost use Rattle.std.specs.Prelude.{◌≡◌, ◌≢◌, ◌<◌, ◌≤◌, ◌+◌, ◌^◌, ◌↔◌, ◌∷◌, ◌++◌, [], false, IsTrue, IfOk, IfErr, OnOk, OnErr, Err, length};
ghost use Rattle.tier_model.specs.declared.event.TierFault.TheVariants.{NoRecord};
ghost use Rattle.tier_recorded.specs.Notes.{note_of};
ghost use Rattle.tier_recorded.specs.Openings.{Opens};
ghost use Rattle.tier_recorded.specs.Seats.{stranger, IsTurn};
ghost use Rattle.tier_recorded.specs.Recorded.{MatchRecorded, Appends, Refuses, IsReplayed};

mod finds;
mod hits;
mod looks;
mod passes;

use crate::event::SharedEvent;
use crate::history::{Record, Seat};
use crate::note::{Note, noted};
use crate::pass::SpentPass;
use crate::snapshot::Snapshot;
pub use finds::Find;
pub use hits::HitCame;
use rand_core::Rng;
use std::alloc::{AllocError, Global};
use std::hash::{BuildHasher, BuildHasherDefault, FoldHasher};
use std::marker::Model;
use std::sync::ledger::{Blank, Book, Ledger, Share};
use tier_model::event::{Answer, TierFault};
use tier_single::Tier;

/// The parts of a recorded tier's ledger: one for each pass, and one for the tier itself.
pub const LEDGER_PARTS: u64 = 4294967296;

/// The most passes that a recorded tier gives.
pub const MOST_PASSES: usize = 4294967295;

// A call that was refused before anything was done.
#[derive(Drop)]
pub(crate) struct Unrecorded;

// Whether a caller with that seat may make its call of that number.
fn is_free(seat: Seat, turn: u64) -> bool
    ensures { IsTrue result ↔ (seat ≡ record { records = turn; is_gathered = false }) }
{
    seat.records == turn && !seat.is_gathered
}

// Whether it is the caller's turn of this number.
fn is_turn(seats: &Vec<Seat>, caller: u64, turn: u64) -> bool
    ensures { IsTrue result ↔ IsTurn seats.now.items caller turn }
{
    let place = caller as usize;
    if place >= seats.len() {
        return false;
    }
    is_free(seats[place], turn)
}

/// A tier with the history of its calls. The tier is always the replay of that history from its opening: the same events, the
/// opening generator's next words, and each note that of the outcome. Each turn is the number of the caller's earlier records.
#[derive(Drop)]
pub struct Recorded<
    const N: usize,
    R: Rng,
    L: Ledger,
    S: BuildHasher = BuildHasherDefault<FoldHasher>,
> {
    alloc: Global,
    opening: Snapshot<R>,
    tier: Tier<N, S>,
    rng: R,
    history: Vec<Record>,
    seats: Vec<Seat>,
    gathered: Vec<SpentPass>,
    book: Book<L>,
    // What is left of the ledger, and what the gathered passes gave back.
    owner: Share<L>,
}

impl<const N: usize, R: Rng, L: Ledger, S: BuildHasher> Model for Recorded<N, R, L, S> {
    ghost use Rattle.std.specs.Prelude.{◌≡◌, ◌+◌, ◌-◌, ◌^◌, [], length, vec_len, vec_capacity};
    ghost use Rattle.tier_recorded.specs.Histories.{HasTurns};
    ghost use Rattle.tier_recorded.specs.Seats.{AreSeated, total};
    ghost use Rattle.tier_recorded.specs.Recorded.{RecordedState, IsReplayed};
    ghost use Rattle.tier_recorded.specs.Codes.{recorded_code};
    ghost use Rattle.tier_single.specs.contracts.options.TierOptions.{the_row as options_row};
    ghost use Rattle.tier_recorded.specs.contracts.history.Record.{the_row as record_row};
    ghost use Rattle.tier_recorded.specs.contracts.history.CallerRecord.{the_row as own_row};
    ghost use Rattle.tier_recorded.specs.contracts.history.Seat.{the_row as seat_row};

    ghost Value = { RecordedState R };

    ghost coded = { recorded_code options_row.coded record_row.coded own_row.coded seat_row.coded R.code };

    ghost view = { λ a. record {
      opening = a.opening;
      tier = a.tier;
      rng = a.rng;
      history = a.history.items;
      seats = a.seats.items;
      gathered = a.gathered.items;
      room = vec_capacity a.history - vec_len a.history;
    } };

    ghost invariant = { λ a.
        IsReplayed N (record { opening = a.opening; tier = a.tier; rng = a.rng; history = a.history.items; seats = a.seats.items; gathered = a.gathered.items; room = 0 }) (R.stream a.opening.rng) (R.stream a.rng)
        × HasTurns [] a.history.items
        × AreSeated a.seats.items a.gathered.items a.history.items
        × (a.book.total ≡ length a.history.items)
        × (a.owner.parts + length a.seats.items ≡ 2 ^ 32 + length a.gathered.items)
        × (a.owner.amount ≡ total a.gathered.items)
        × (L.parts ≡ 4294967296) };
}

impl<const N: usize, R: Rng, L: Ledger, S: BuildHasher> Recorded<N, R, L, S> {
    /// Begins a history of a tier that is as the snapshot says, with a generator whose words are those of the snapshot's.
    pub fn open(
        alloc: Global,
        blank: Blank,
        opening: Snapshot<R>,
        tier: Tier<N, S>,
        rng: R,
    ) -> Recorded<N, R, L, S>
        requires opens { Opens N opening tier }
        requires words { R.stream opening.rng ≡ R.stream rng }
        requires blank { (blank.name ≡ L.name) × (blank.parts ≡ L.parts) × (L.parts ≡ 4294967296) }
        ensures tier { (result.tier ≡ tier) × (result.rng ≡ rng) × (result.opening ≡ opening) }
        ensures empty { (result.history ≡ []) × (result.seats ≡ []) × (result.gathered ≡ []) }
    {
        let (book, owner) = blank.open::<L>();
        Recorded {
            alloc,
            opening,
            tier,
            rng,
            history: Vec::new(alloc),
            seats: Vec::new(alloc),
            gathered: Vec::new(alloc),
            book,
            owner,
        }
    }

    // Takes an event and keeps its record, or refuses it before anything is done. The note is that of the outcome.
    pub(crate) fn record(
        &mut self,
        caller: u64,
        turn: u64,
        mine: &mut Share<L>,
        event: SharedEvent,
    ) -> Result<(Result<Answer, TierFault>, Note), Unrecorded>
        requires { 0 < mine.old.parts }
        ensures recorded { IfOk result (λ o. Appends self.old (R.stream self.old.rng) caller turn event o.0 self.new (R.stream self.new.rng)) }
        ensures told { IfOk result (λ o. o.0 ≢ Err NoRecord) }
        ensures noted { IfOk result (λ o. o.1 ≡ note_of o.0) }
        ensures counted { OnOk result (mine.new.amount ≡ mine.old.amount + 1) }
        ensures refused { OnErr result (Refuses self.old caller turn self.new × (mine.new.amount ≡ mine.old.amount)) }
        ensures parts { mine.new.parts ≡ mine.old.parts }
    {
        if !is_turn(&self.seats, caller, turn) {
            return Err(Unrecorded);
        }
        let Ok(()) = self.history.reserve(1) else {
            return Err(Unrecorded);
        };
        let outcome = self.tier.step(&mut self.rng, event.event());
        let note = noted(&outcome);
        self.history.push_reserved(Record {
            caller,
            turn,
            event,
            note,
        });
        self.seats[caller as usize] = Seat {
            records: turn + 1,
            is_gathered: false,
        };
        self.book.add(mine, 1);
        Ok((outcome, note))
    }

    /// Makes room in the history for so many calls more.
    ///
    /// # Errors
    ///
    /// `AllocError` where there is no memory for it. Nothing changes.
    pub fn reserve(&mut self, more: usize) -> Result<(), AllocError>
        ensures room { OnOk result (more ≤ self.new.room) }
        ensures same { self.new ≡ record self.old { room = self.new.room } }
        ensures grows { self.old.room ≤ self.new.room }
    {
        self.history.reserve(more)
    }

    /// Takes one event of a caller at its turn, answers it, and keeps its record.
    ///
    /// # Errors
    ///
    /// The tier's own fault, whose record is kept too. `NoRecord` where it isn't the caller's turn, its pass was gathered, or the room for the
    /// record is refused: nothing changes then.
    pub fn step(
        &mut self,
        caller: u64,
        turn: u64,
        mine: &mut Share<L>,
        event: SharedEvent,
    ) -> Result<Answer, TierFault>
        requires { 0 < mine.old.parts }
        ensures recorded { MatchRecorded result (Refuses self.old caller turn self.new)
            (Appends self.old (R.stream self.old.rng) caller turn event result self.new (R.stream self.new.rng)) }
        ensures counted { MatchRecorded result (mine.new.amount ≡ mine.old.amount) (mine.new.amount ≡ mine.old.amount + 1) }
        ensures parts { mine.new.parts ≡ mine.old.parts }
    {
        match self.record(caller, turn, mine, event) {
            Ok((outcome, _)) => outcome,
            Err(Unrecorded) => Err(TierFault::NoRecord),
        }
    }
}
