//! The changes of which the calls are made.
ghost use Rattle.std.specs.Prelude.{◌≡◌, OnOk, OnErr, IfOk, IfErr, IfSome, IsSome, Some};
ghost use Rattle.std.specs.FinMap as finite;
ghost use Rattle.cache_lock.specs.Changes.{gives, lends, stores, spends};
ghost use Rattle.cache_lock.specs.State.{after, after_all, without_core};
ghost use Rattle.cache_lock.specs.Answers.{to_wait_for, locked_by, IsRefused, is_lendable, lend_changes, wait_outcome};

use super::CacheLock;
use crate::fault::LockFault;
use crate::fills::{UnusableFills, WaitOutcome};
use crate::lock_core::{HeldCore, LockCore};
use crate::status::LockStatus;
use crate::tokens::{Locked, ReadLock, WritePermit};
use cache_words::key::HashBinary;
use cache_words::time::Moment;
use std::alloc::AllocError;
use std::hash::BuildHasher;

impl<S: BuildHasher> CacheLock<S> {
    // The core that who asks for a key is to wait for.
    pub(super) fn to_wait_for(&self, key: &HashBinary) -> Option<u64>
        ensures number { result ≡ to_wait_for key.now self.now }
        ensures there { IfSome result (λ n. IsSome (finite.get self.now.cores n)) }
    {
        let number = self.current.get(key)?;
        match self.cores.get(number)?.core.status {
            LockStatus::Dangling | LockStatus::AgeTimeout => None,
            _ => Some(number),
        }
    }

    // Names a core once more. Returns false where it isn't there, or can't be named again.
    pub(super) fn name_again(&mut self, number: u64) -> bool
        ensures answer { result ≡ is_lendable (finite.get self.old.cores number) }
        ensures change { self.new ≡ after_all (lend_changes number (finite.get self.old.cores number)) self.old }
    {
        let Some(&held) = self.cores.get(number) else {
            return false;
        };
        if held.names == u64::MAX {
            return false;
        }
        let names = held.names + 1;
        self.cores.set(number, HeldCore { names, ..held });
        true
    }

    // Gives a read lock of a core that is there.
    pub(super) fn wait_for(&mut self, number: u64) -> Result<Locked, LockFault>
        requires { IsSome (finite.get self.old.cores number) }
        ensures answer { IfOk result (λ l. l ≡ locked_by self.old (Some number)) }
        ensures change { OnOk result (self.new ≡ after (lends number) self.old) }
        ensures err { OnErr result (self.new ≡ self.old) }
        ensures refused { IfErr result (IsRefused self.old (Some number)) }
    {
        if self.name_again(number) {
            Ok(Locked::Read(ReadLock { number }))
        } else {
            Err(LockFault::CoreNumbersSpent)
        }
    }

    // Gives the permit of a key, under the next number.
    pub(super) fn give(
        &mut self,
        key: HashBinary,
        stale_writer: bool,
        moment: Moment,
    ) -> Result<Locked, LockFault>
        ensures answer { IfOk result (λ l. l ≡ locked_by self.old None) }
        ensures change { OnOk result (self.new ≡ after (gives self.old.next key stale_writer moment) self.old) }
        ensures err { OnErr result (self.new ≡ self.old) }
        ensures refused { IfErr result (IsRefused self.old None) }
    {
        let number = self.next;
        if number == u64::MAX {
            return Err(LockFault::CoreNumbersSpent);
        }
        let core = LockCore::new(self.age_timeout, stale_writer, moment);
        let held = HeldCore {
            core,
            key,
            names: 1,
        };
        self.cores.insert(number, held)?;
        match self.current.insert(key, number) {
            Ok(()) => {
                self.next = number + 1;
                Ok(Locked::Write(WritePermit { number }))
            }
            Err(AllocError) => {
                self.cores.remove(number);
                Err(LockFault::Memory)
            }
        }
    }

    // Stores a status in a core.
    pub(super) fn store(&mut self, number: u64, status: LockStatus)
        ensures { self.new ≡ after (stores number status) self.old }
    {
        if let Some(&held) = self.cores.get(number) {
            let core = LockCore {
                status,
                ..held.core
            };
            self.cores.set(number, HeldCore { core, ..held });
        }
    }

    // Takes back a name of a core, which goes with the last.
    pub(super) fn spend(&mut self, number: u64)
        ensures { self.new ≡ after (spends number) self.old }
    {
        if let Some(&held) = self.cores.get(number) {
            if held.names <= 1 {
                self.forget(number, &held.key);
            } else {
                let names = held.names - 1;
                self.cores.set(number, HeldCore { names, ..held });
            }
        }
    }

    // Stores a status in a core, and takes back a name of it: what goes with its last name isn't written before.
    #[tactic(auto, using(crate::proofs::EndLaws::ended))]
    pub(super) fn end(&mut self, number: u64, status: LockStatus)
        ensures { self.new ≡ after (spends number) (after (stores number status) self.old) }
    {
        if let Some(&held) = self.cores.get(number) {
            let is_last = held.names <= 1;
            if is_last {
                self.forget(number, &held.key);
            } else {
                let core = LockCore {
                    status,
                    ..held.core
                };
                let names = held.names - 1;
                self.cores.set(
                    number,
                    HeldCore {
                        core,
                        names,
                        ..held
                    },
                );
            }
        }
    }

    // Takes a core out, and out of the table if it is its key's.
    fn forget(&mut self, number: u64, key: &HashBinary)
        ensures { self.new ≡ without_core number key.now self.old }
    {
        self.cores.remove(number);
        self.published.remove_any(number);
        if self.current.get(key) == Some(number) {
            self.current.remove(key);
        }
    }

    // How the wait for a core ends.
    pub(super) fn outcome(
        &self,
        number: u64,
        fills: &UnusableFills,
        moment: Moment,
    ) -> Option<WaitOutcome>
        ensures { result ≡ wait_outcome number fills.now.fills.items moment self.now }
    {
        let Some(held) = self.cores.get(number) else {
            return Some(WaitOutcome::Released);
        };
        if !matches!(held.core.status, LockStatus::Waiting) {
            return Some(WaitOutcome::Released);
        }
        if held.core.is_over_age(moment) {
            return Some(WaitOutcome::AgeTimeout);
        }
        let tokens = match self.published.get(number) {
            Some(published) => published.tokens(),
            None => &[],
        };
        fills.first_match(tokens).map(WaitOutcome::Abandoned)
    }
}
