//! A tier whose calls are counted.
ghost use Rattle.std.specs.Prelude.{◌≡◌, ◌+◌, ◌^◌, ◌<◌};
ghost use Rattle.tier_recorded.specs.Openings.{Opens};
ghost use Rattle.tier_recorded.specs.Recorded.{MatchRecorded};
ghost use Rattle.tier_shared.specs.Counted.{Counts, Refuses};

mod finds;
mod hits;
mod looks;
mod passes;

use rand_core::Rng;
use std::hash::{BuildHasher, BuildHasherDefault, FoldHasher};
use std::marker::Model;
use std::sync::ledger::{Blank, Book, Ledger, Share};
use tier_model::event::{Answer, Event, TierFault};
use tier_recorded::Snapshot;
use tier_single::Tier;

/// The right of one caller to make calls. A contract sees it as the number of the calls that were made with it.
///
/// It grows by `Counted::step` alone, and its share of the ledger counts the same. A pass that is dropped stays outstanding.
#[derive(Drop)]
pub struct CallPass<L: Ledger> {
    calls: u64,
    share: Share<L>,
}

impl<L: Ledger> Model for CallPass<L> {
    ghost use Rattle.std.specs.Prelude.{◌≡◌, ℕ};

    ghost Value = { ℕ };

    ghost view = { λ p. p.calls };

    ghost invariant = { λ p. (p.share.parts ≡ 1) × (p.share.amount ≡ p.calls) };
}

impl<L: Ledger> CallPass<L> {
    /// Returns the number of the calls that were made with the pass.
    pub fn calls(&self) -> u64
        ensures { result ≡ self.now }
    {
        self.calls
    }

    // Counts one call. The book has room for it.
    fn count(&mut self, book: &mut Book<L>)
        requires { book.old.total + 1 < 2 ^ 64 }
        ensures calls { self.new ≡ self.old + 1 }
        ensures total { book.new.total ≡ book.old.total + 1 }
    {
        // The pass has no more calls than the book.
        book.audit(&mut self.share);
        book.add(&mut self.share, 1);
        self.calls += 1;
    }
}

/// A tier whose calls are counted and not kept: of a call nothing stays but what it did to the tier, so its memory is the tier's,
/// however many calls were made. Some events, as many as were counted, always lead from the opening to the tier. Which events these
/// were isn't kept: `tier_recorded::Recorded` keeps them.
#[derive(Drop)]
pub struct Counted<
    const N: usize,
    R: Rng,
    L: Ledger,
    S: BuildHasher = BuildHasherDefault<FoldHasher>,
> {
    opening: Snapshot<R>,
    tier: Tier<N, S>,
    rng: R,
    calls: u64,
    passes: u64,
    gathered: u64,
    book: Book<L>,
    // What is left of the ledger, and what the gathered passes gave back.
    owner: Share<L>,
}

impl<const N: usize, R: Rng, L: Ledger, S: BuildHasher> Model for Counted<N, R, L, S> {
    ghost use Rattle.std.specs.Prelude.{◌≡◌, ◌+◌, ◌≤◌};
    ghost use Rattle.tier_shared.specs.Counted.{CountedState, IsCounted};
    ghost use Rattle.tier_shared.specs.Codes.{counted_code};
    ghost use Rattle.tier_single.specs.contracts.options.TierOptions.{the_row as options_row};

    ghost Value = { CountedState R };

    ghost coded = { counted_code options_row.coded R.code };

    ghost view = { λ a. record {
      opening = a.opening;
      tier = a.tier;
      rng = a.rng;
      calls = a.calls;
      passes = a.passes;
      gathered = a.gathered;
      returned = a.owner.amount;
    } };

    ghost invariant = { λ a.
        IsCounted N (record { opening = a.opening; tier = a.tier; rng = a.rng; calls = a.calls; passes = a.passes; gathered = a.gathered; returned = a.owner.amount }) (R.stream a.opening.rng)
        (R.stream a.rng)
        × (L.parts ≡ 4294967296)
        × (a.book.total ≡ a.calls)
        × (a.owner.parts + a.passes ≡ 4294967296 + a.gathered)
        × (a.gathered ≤ a.passes)
        × (a.passes ≤ 4294967295) };
}

impl<const N: usize, R: Rng, L: Ledger, S: BuildHasher> Counted<N, R, L, S> {
    /// Begins to count the calls of a tier that is as the snapshot says, with a generator whose words are those of the snapshot's.
    /// `blank` is the tier's ledger, of 4294967296 parts.
    pub fn open(blank: Blank, opening: Snapshot<R>, tier: Tier<N, S>, rng: R) -> Counted<N, R, L, S>
        requires opens { Opens N opening tier }
        requires words { R.stream opening.rng ≡ R.stream rng }
        requires blank { (blank.name ≡ L.name) × (blank.parts ≡ L.parts) × (L.parts ≡ 4294967296) }
        ensures { result ≡ record { opening = opening; tier = tier; rng = rng; calls = 0; passes = 0; gathered = 0; returned = 0 } }
    {
        let (book, owner) = blank.open::<L>();
        Counted {
            opening,
            tier,
            rng,
            calls: 0,
            passes: 0,
            gathered: 0,
            book,
            owner,
        }
    }

    /// Makes a call: the tier takes the event and answers it, and the call is counted, here and in the pass.
    ///
    /// # Errors
    ///
    /// The tier's own fault, whose call is counted too. `NoRecord` only where 2^64 - 1 calls were counted: nothing changes then.
    pub fn step(&mut self, pass: &mut CallPass<L>, event: &Event) -> Result<Answer, TierFault>
        ensures counted { MatchRecorded result (Refuses self.old self.new)
            (Counts self.old (R.stream self.old.rng) event.now result self.new (R.stream self.new.rng)) }
        ensures pass { MatchRecorded result (pass.new ≡ pass.old) (pass.new ≡ pass.old + 1) }
    {
        if self.calls == u64::MAX {
            return Err(TierFault::NoRecord);
        }
        let outcome = self.tier.step(&mut self.rng, event);
        pass.count(&mut self.book);
        self.calls += 1;
        outcome
    }
}
