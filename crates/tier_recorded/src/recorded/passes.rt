//! Passes that a recorded tier gives, and takes back.
ghost use Rattle.std.specs.Prelude.{◌≡◌, ℕ, ◌+◌, ◌≤◌, ◌<◌, ◌∷◌, ◌++◌, [], IfOk, IfErr, OnOk, OnErr, length};
ghost use Rattle.tier_recorded.specs.declared.pass.PassFault.TheVariants.{PassesSpent, Memory};
ghost use Rattle.tier_recorded.specs.declared.gather.GatherFault.TheVariants.{PassDiffers};
ghost use Rattle.tier_recorded.specs.Seats.{stranger, total, OneDiffers};
ghost use Rattle.tier_recorded.specs.Histories.{HasTurns};
ghost use Rattle.tier_recorded.specs.Recorded.{IsClosed, IsReplayed};

use super::{MOST_PASSES, Recorded};
use crate::gather::{GatherFault, Gathered, NotGathered};
use crate::history::Seat;
use crate::marks::{marked, spend_all};
use crate::pass::{Pass, PassFault};
use rand_core::Rng;
use std::hash::BuildHasher;
use std::sync::ledger::Ledger;

impl<const N: usize, R: Rng, L: Ledger, S: BuildHasher> Recorded<N, R, L, S> {
    /// Gives a pass for a new caller.
    ///
    /// # Errors
    ///
    /// `PassesSpent` after 4294967295 passes, and `Memory`. Nothing changes.
    pub fn pass(&mut self) -> Result<Pass<L>, PassFault>
        ensures pass { IfOk result (λ pass. (pass.caller ≡ length self.old.seats) × (pass.records ≡ [])) }
        ensures seats { OnOk result (self.new ≡ record self.old { seats = self.old.seats ++ stranger ∷ [] }) }
        ensures err { OnErr result (self.new ≡ self.old) }
        ensures spent { IfErr result (λ fault. fault ≡ PassesSpent → 4294967295 ≤ length self.old.seats) }
        ensures most { OnOk result (length self.old.seats < 4294967295) }
        ensures memory { IfErr result (λ fault. fault ≡ Memory → length self.old.seats < 4294967295) }
    {
        if self.seats.len() >= MOST_PASSES {
            return Err(PassFault::PassesSpent);
        }
        let Ok(()) = self.seats.reserve(1) else {
            return Err(PassFault::Memory);
        };
        let caller = self.seats.len() as u64;
        self.seats.push_reserved(Seat {
            records: 0,
            is_gathered: false,
        });
        let share = self.owner.split_off(1, 0);
        Ok(Pass::new(self.alloc, caller, share))
    }

    /// Returns the number of passes that are not gathered.
    pub fn outstanding(&self) -> u64
        ensures { result + length self.now.gathered ≡ length self.now.seats }
    {
        (self.seats.len() - self.gathered.len()) as u64
    }

    /// Takes passes back, and keeps their records, if each is what the history has of its caller.
    ///
    /// # Errors
    ///
    /// `PassDiffers` where a pass isn't, and `Memory`. Nothing changes, and all passes come back.
    pub fn gather(&mut self, passes: Vec<Pass<L>>) -> Result<Gathered, NotGathered<L>>
        ensures gathered { OnOk result (self.new.gathered ≡ self.old.gathered ++ passes.items) }
        ensures counts { IfOk result (λ now. (now.outstanding + length self.new.gathered ≡ length self.new.seats) × (now.records ≡ length self.new.history)) }
        ensures held { IfOk result (λ now. total passes.items ≤ now.records) }
        ensures same { (self.new.tier ≡ self.old.tier) × (self.new.rng ≡ self.old.rng) × (self.new.history ≡ self.old.history) × (self.new.opening ≡ self.old.opening) }
        ensures seats { length self.new.seats ≡ length self.old.seats }
        ensures err { IfErr result (λ back. (back.passes.items ≡ passes.items) × (self.new ≡ self.old)) }
        ensures differs { IfErr result (λ back. (c turn : ℕ) → back.fault ≡ PassDiffers c turn → OneDiffers self.old.seats self.old.history passes.items c turn) }
    {
        let seats = match marked(
            self.alloc,
            self.history.as_slice(),
            self.seats.as_slice(),
            passes.as_slice(),
        ) {
            Ok(seats) => seats,
            Err(fault) => return Err(NotGathered { fault, passes }),
        };
        let Ok(()) = self.gathered.reserve(passes.len()) else {
            return Err(NotGathered {
                fault: GatherFault::Memory,
                passes,
            });
        };
        self.seats = seats;
        spend_all(&mut self.owner, &mut self.gathered, passes);
        // The gathered passes have no more records than the book.
        self.book.audit(&mut self.owner);
        Ok(Gathered {
            outstanding: (self.seats.len() - self.gathered.len()) as u64,
            records: self.history.len() as u64,
        })
    }

    /// Checks the book against the owner's share, which has every part once all passes are gathered.
    pub fn audit(&mut self)
        requires { length self.old.gathered ≡ length self.old.seats }
        ensures closed { IsClosed self.new }
        ensures replayed { IsReplayed N self.new (R.stream self.new.opening.rng) (R.stream self.new.rng) }
        ensures turns { HasTurns [] self.new.history }
        ensures same { self.new ≡ self.old }
    {
        self.book.audit(&mut self.owner);
    }
}
