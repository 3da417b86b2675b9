//! What a release changes.
ghost use Rattle.std.specs.Prelude.{◌≡◌, ◌<◌, Some};
ghost use Rattle.std.specs.FinMap as finite;
ghost use Rattle.cache_lock.specs.Status.{is_aged};
ghost use Rattle.cache_lock.specs.State.{is_number};
ghost use Rattle.cache_lock.specs.Released.{without_last, without_key, keys_left, shared_left};

use super::CacheLock;
use crate::lock_core::{HeldCore, LockCore};
use crate::status::LockStatus;
use cache_words::key::HashBinary;
use std::hash::BuildHasher;

impl<S: BuildHasher> CacheLock<S> {
    // Takes a core out that has one name. Returns it, and one that has more too, which stays.
    pub(super) fn take_last(&mut self, number: u64) -> Option<HeldCore>
        ensures was { result ≡ finite.get self.old.cores number }
        ensures left { self.new ≡ record self.old { cores = without_last number (finite.get self.old.cores number) self.old.cores } }
    {
        self.cores.take_last(number)
    }

    // Takes a key out whose core has that number. Returns whether it had.
    pub(super) fn remove_if(&mut self, key: &HashBinary, number: u64) -> bool
        ensures was { result ≡ is_number number (finite.get self.old.current key.now) }
        ensures left { self.new ≡ record self.old { current = without_key number key.now self.old.current } }
    {
        self.current.remove_if(key, number)
    }

    // What goes with a core that was taken out: the tokens, and the keys that have it.
    pub(super) fn release_last(&mut self, key: &HashBinary, number: u64, held: &HeldCore)
        ensures { self.new ≡ record self.old {
          published = finite.remove self.old.published number;
          current = keys_left (is_aged held.now.core.status) number key.now held.now self.old.current;
        } }
    {
        self.published.remove_any(number);
        if matches!(held.core.status, LockStatus::AgeTimeout) {
            self.current.remove_if(&held.key, number);
        } else {
            self.current.remove_both(key, &held.key, number);
        }
    }

    // What changes where others name the core too.
    pub(super) fn release_shared(
        &mut self,
        key: &HashBinary,
        number: u64,
        reason: LockStatus,
        held: &HeldCore,
    )
        requires there { finite.get self.old.cores number ≡ Some held.now }
        requires more { 1 < held.now.names }
        ensures { self.new ≡ shared_left (is_aged held.now.core.status) number key.now reason held.now self.old }
    {
        let names = held.names - 1;
        if matches!(held.core.status, LockStatus::AgeTimeout) {
            self.cores.set(number, HeldCore { names, ..*held });
            return;
        }
        let status = if self.current.remove_if(key, number) {
            reason
        } else {
            LockStatus::Dangling
        };
        let core = LockCore {
            status,
            ..held.core
        };
        self.cores.set(
            number,
            HeldCore {
                core,
                names,
                ..*held
            },
        );
    }
}
