//! Passes that a counted tier gives, and takes back.
ghost use Rattle.std.specs.Prelude.{◌≡◌, ◌+◌, ◌≤◌, IfOk, IfErr, OnOk, OnErr};
ghost use Rattle.tier_recorded.specs.declared.pass.PassFault.TheVariants.{PassesSpent};
ghost use Rattle.tier_shared.specs.Counted.{IsCounted};

use super::{CallPass, Counted};
use rand_core::Rng;
use std::hash::BuildHasher;
use std::sync::ledger::Ledger;
use tier_recorded::PassFault;

/// The most passes that a counted tier gives.
pub const MOST_PASSES: u64 = 4294967295;

impl<const N: usize, R: Rng, L: Ledger, S: BuildHasher> Counted<N, R, L, S> {
    /// Gives a pass for a new caller. It takes no memory.
    ///
    /// # Errors
    ///
    /// `PassesSpent` after 4294967295 passes. Nothing changes.
    pub fn pass(&mut self) -> Result<CallPass<L>, PassFault>
        ensures pass { IfOk result (λ pass. pass ≡ 0) }
        ensures passes { OnOk result (self.new ≡ record self.old { passes = self.old.passes + 1 }) }
        ensures spent { IfErr result (λ fault. (fault ≡ PassesSpent) × (4294967295 ≤ self.old.passes)) }
        ensures err { OnErr result (self.new ≡ self.old) }
    {
        if self.passes >= MOST_PASSES {
            return Err(PassFault::PassesSpent);
        }
        self.passes += 1;
        Ok(CallPass {
            calls: 0,
            share: self.owner.split_off(1, 0),
        })
    }

    /// Takes a pass back, with the calls that were made with it.
    pub fn gather(&mut self, pass: CallPass<L>)
        ensures { self.new ≡ record self.old { gathered = self.old.gathered + 1; returned = self.old.returned + pass } }
    {
        let CallPass { calls: _, share } = pass;
        self.owner.merge(share);
        self.gathered += 1;
    }

    /// Checks the book against the owner's share, which has every part once all passes are gathered: all calls that were counted were
    /// made with these passes.
    pub fn audit(&mut self)
        requires { self.old.gathered ≡ self.old.passes }
        ensures same { self.new ≡ self.old }
        ensures whole { self.new.calls ≡ self.new.returned }
        ensures counted { IsCounted N self.new (R.stream self.new.opening.rng) (R.stream self.new.rng) }
    {
        self.book.audit(&mut self.owner);
    }
}
