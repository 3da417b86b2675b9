//! The write in flight.
ghost use Rattle.std.specs.Prelude.{◌≡◌, [], filter, not, is_some, unwrap_or, if◌then◌else◌, true, Some, IfSome, IfNone, length, option_map, OnOk, OnErr};
ghost use Rattle.cache_changes.specs.Store.{flying_at, is_of, marked, ended, with_bytes};
ghost use Rattle.cache_store.specs.Answers.{FinishesWith, WriteAnswer, after_write, alive_key, left};
ghost use Rattle.cache_store.specs.Ids.{IsGiven};
ghost use Rattle.test_requests.specs.OneBody.{flying_in, held_in, id_in, id_for};

use super::{Flight, OneBody};
use bytes::Bytes;
use cache_store::storage::StoreFault;
use cache_words::key::HashBinary;

impl Flight {
    pub(crate) fn mark(&mut self, key: &HashBinary)
        ensures { flying_in self.new ≡ marked (Some key.now) (flying_in self.old) }
    {
        self.removed = self.removed || self.row.key == *key;
    }

    // Adds bytes, which are the last where `eof` says so.
    pub(crate) fn add(&mut self, more: &Bytes, eof: bool) -> Result<(), StoreFault>
        ensures answer { WriteAnswer (Some self.old.ended) result }
        ensures ok { OnOk result (flying_in self.new ≡ (if eof then ended (with_bytes more.now (flying_in self.old)) else with_bytes more.now (flying_in self.old))) }
        ensures err { OnErr result (flying_in self.new ≡ flying_in self.old) }
        ensures same { self.new.row.number ≡ self.old.row.number }
    {
        if self.ended {
            return Err(StoreFault::AfterEnd);
        }
        if self.row.bytes.extend_from_slice(more.as_slice()).is_err() {
            return Err(StoreFault::Memory);
        }
        self.ended = eof;
        Ok(())
    }
}

impl OneBody {
    // Whether that write is in flight, and no removal met it.
    pub(crate) fn is_alive(&self, number: u64) -> bool
        ensures { result ≡ is_some (alive_key (flying_at number (held_in self.now).store)) }
    {
        match &self.flight {
            Some(flight) => flight.row.number == number && !flight.removed,
            None => false,
        }
    }

    // How much of it was written.
    pub(crate) fn written(&self, number: u64) -> usize
        ensures { result ≡ unwrap_or (option_map (λ f. length f.stored.bytes) (flying_at number (held_in self.now).store)) 0 }
    {
        match &self.flight {
            Some(flight) if flight.row.number == number => flight.row.bytes.len(),
            _ => 0,
        }
    }

    pub(crate) fn add(&mut self, number: u64, more: &Bytes, eof: bool) -> Result<(), StoreFault>
        ensures answer { WriteAnswer (option_map (λ f. f.ended) (flying_at number (held_in self.old).store)) result }
        ensures ok { OnOk result (held_in self.new ≡ record (held_in self.old) { store = after_write number more.now eof (held_in self.old).store }) }
        ensures err { OnErr result (held_in self.new ≡ held_in self.old) }
        ensures body { self.new.body ≡ self.old.body }
    {
        match &mut self.flight {
            Some(flight) if flight.row.number == number => flight.add(more, eof),
            _ => Err(StoreFault::WriteRemoved),
        }
    }

    // Gives that write up.
    pub(crate) fn give_up(&mut self, number: u64)
        ensures left { held_in self.new ≡ left number (held_in self.old) }
        ensures body { self.new.body ≡ self.old.body }
    {
        match &self.flight {
            Some(flight) if flight.row.number == number => self.flight = None,
            _ => {}
        }
    }
}

impl OneBody {
    // Whether there is room for a body of that key.
    fn has_room(&self, key: &HashBinary) -> bool
        ensures { result ≡ true → filter (λ y. not (is_of key.now y)) (held_in self.now).store.bodies ≡ [] }
    {
        match &self.body {
            Some(row) => row.key == *key,
            None => true,
        }
    }

    // Ends an alive write: its body takes the place of the one that is there, which is of its key, or, where that is of another key, there is no room.
    pub(crate) fn land(&mut self, number: u64) -> Option<usize>
        requires { is_some (alive_key (flying_at number (held_in self.old).store)) ≡ true }
        ensures landed { IfSome result (λ size. FinishesWith number size (held_in self.old) (held_in self.new)) }
        ensures ids { IfSome result (λ _. IsGiven (alive_key (flying_at number (held_in self.old).store)) (Some (id_for number)) (id_in self.old.body) (id_in self.new.body)) }
        ensures full { IfNone result (self.new ≡ self.old) }
    {
        let Some(flight) = self.flight.take() else {
            return None;
        };
        if !self.has_room(&flight.row.key) {
            self.flight = Some(flight);
            return None;
        }
        let size = flight.row.bytes.len();
        let Flight { row, .. } = flight;
        self.body = Some(row);
        Some(size)
    }
}
