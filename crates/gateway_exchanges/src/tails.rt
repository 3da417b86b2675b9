//! What comes of a body past what is stored of it: it grew too long to be stored, and its clients read on in its tail.
ghost use Rattle.std.specs.Prelude.{◌≡◌, ◌==◌, length, Some, OnOk, OnErr, option_copied};
ghost use Rattle.std.specs.FinMap.{insert, remove};
ghost use Rattle.gateway_exchanges.specs.Tails.{new_tail, end_of, bytes_from, is_lost, kept_from, taken, joined, ended, passed, left, no_tails, tail_at, with_change, is_last_reader, without_user, gone_at, bytes_gone};
ghost use Rattle.gateway_exchanges.specs.TailMaps.{tails_of};

use crate::kept::KeptBytes;
use gateway_steps::state::Ending;
use seeded_hashing::SeededState;
use std::alloc::{AllocError, Global};
use std::collections::HashMap;
use std::marker::Model;

/// What came of a body past what is stored of it.
#[derive(Drop)]
pub struct Tail {
    /// So many bytes are stored in front of it.
    pub after: u64,
    /// The place of the first byte that is kept.
    pub start: u64,
    pub bytes: KeptBytes,
    pub ending: Ending,
    /// Who reads in what was stored yet.
    pub readers: u64,
    /// Who reads in any of it.
    pub users: u64,
}

impl Tail {
    /// Behind so many bytes; whoever stores is its first reader. It takes no memory.
    pub fn new(alloc: Global, after: u64) -> Tail
        ensures { result ≡ new_tail after }
    {
        Tail {
            after,
            start: after,
            bytes: KeptBytes::new(alloc),
            ending: Ending::GoesOn,
            readers: 1,
            users: 1,
        }
    }

    /// The place behind its last byte.
    pub fn end(&self) -> u64
        ensures { result ≡ end_of self.now }
    {
        self.start.saturating_add(self.bytes.len() as u64)
    }

    /// Its bytes from a place on, of those that are kept.
    pub fn bytes_from(&self, place: u64) -> &[u8]
        ensures { result.now ≡ bytes_from place self.now }
    {
        self.bytes.from(place.saturating_sub(self.start) as usize)
    }

    /// Whether bytes of it are gone that who is at this place lacks.
    pub fn is_lost(&self, place: u64) -> bool
        ensures { result ≡ is_lost place self.now }
    {
        place < self.start && self.after < self.start
    }

    // Where what is kept begins, by the place of its own client.
    fn kept_from(&self, place: u64, most: u64) -> u64
        ensures { result ≡ kept_from place most self.now }
    {
        let behind = place.min(self.end().saturating_sub(most));
        self.start.max(self.after.max(behind))
    }

    /// Adds bytes. It keeps what its own client lacks, at that place; of what that has taken, no more than so many bytes.
    pub fn take(&mut self, piece: &[u8], place: u64, most: u64) -> Result<(), AllocError>
        ensures ok { OnOk result (self.new ≡ taken piece.now place most self.old) }
        ensures err { OnErr result (self.new ≡ self.old) }
    {
        self.bytes.add(piece)?;
        let start = self.kept_from(place, most);
        self.bytes.drop_front((start - self.start) as usize);
        self.start = start;
        Ok(())
    }

    /// So many more read in it.
    pub fn join(&mut self, count: u64)
        ensures { self.new ≡ joined count self.old }
    {
        self.readers = self.readers.saturating_add(count);
        self.users = self.users.saturating_add(count);
    }
}

/// The tails, each by the number of the exchange that stores.
#[derive(Drop)]
pub struct Tails {
    alloc: Global,
    open: HashMap<u64, Tail, SeededState>,
}

impl Model for Tails {
    ghost use Rattle.gateway_exchanges.specs.Tails.{TailMap, tails_code};

    ghost Value = { TailMap };

    ghost coded = { tails_code };

    ghost use Rattle.gateway_exchanges.specs.TailFields.{tails_in};

    ghost view = { tails_in };
}

impl Tails {
    /// None. It takes no memory.
    pub fn new(alloc: Global, hasher: SeededState) -> Tails
        ensures { result ≡ no_tails }
    {
        Tails {
            alloc,
            open: HashMap::with_hasher(alloc, hasher),
        }
    }

    /// The tail of what an exchange stores.
    pub fn get(&self, x: u64) -> Option<&Tail>
        ensures { option_copied result ≡ tail_at x self.now }
    {
        self.open.get(&x)
    }

    /// Begins one, behind so many bytes that are stored.
    pub fn begin(&mut self, x: u64, after: u64) -> Result<(), AllocError>
        ensures ok { OnOk result (self.new ≡ insert self.old x (new_tail after)) }
        ensures err { OnErr result (self.new ≡ self.old) }
    {
        self.open.insert(x, Tail::new(self.alloc, after))?;
        Ok(())
    }

    /// So many more read in it.
    pub fn join(&mut self, x: u64, count: u64)
        ensures { self.new ≡ with_change x (joined count) self.old }
    {
        if let Some(tail) = self.open.get_mut(&x) {
            tail.join(count);
        }
    }

    /// Adds bytes to one, as `Tail::take` does.
    pub fn take(&mut self, x: u64, piece: &[u8], place: u64, most: u64) -> Result<(), AllocError>
        ensures ok { OnOk result (self.new ≡ with_change x (taken piece.now place most) self.old) }
        ensures err { OnErr result (self.new ≡ self.old) }
    {
        match self.open.get_mut(&x) {
            Some(tail) => tail.take(piece, place, most),
            None => Ok(()),
        }
    }

    /// Its body is over, or broke off.
    pub fn end(&mut self, x: u64, ending: Ending)
        ensures { self.new ≡ with_change x (ended ending) self.old }
    {
        if let Some(tail) = self.open.get_mut(&x) {
            tail.ending = ending;
        }
    }

    /// One of its readers has passed what is stored: whether that was the last.
    pub fn pass(&mut self, x: u64) -> bool
        ensures last { result ≡ is_last_reader (tail_at x self.old) }
        ensures left { self.new ≡ with_change x passed self.old }
    {
        match self.open.get_mut(&x) {
            Some(tail) => pass_tail(tail),
            None => false,
        }
    }

    /// One of its users reads no more; with the last it goes. Returns how many bytes went.
    pub fn leave(&mut self, x: u64) -> u64
        ensures gone { result ≡ bytes_gone (tail_at x self.old) }
        ensures left { self.new ≡ without_user x self.old }
    {
        match leave_at(&mut self.open, x) {
            None => 0,
            Some(bytes) => {
                remove_tail(&mut self.open, x);
                bytes
            }
        }
    }
}

type Open = HashMap<u64, Tail, SeededState>;

fn leave_at(open: &mut Open, x: u64) -> Option<u64>
    ensures gone { result ≡ gone_at (tail_at x (tails_of open.old)) }
    ensures left { tails_of open.new ≡ with_change x left (tails_of open.old) }
{
    match open.get_mut(&x) {
        Some(tail) => leave_tail(tail),
        None => None,
    }
}

fn remove_tail(open: &mut Open, x: u64)
    ensures { tails_of open.new ≡ remove (tails_of open.old) x }
{
    let _tail = open.remove(&x);
}

// Whether it was the last one.
fn pass_tail(tail: &mut Tail) -> bool
    ensures last { result ≡ (tail.old.readers == 1) }
    ensures left { tail.new ≡ passed tail.old }
{
    let is_last = tail.readers == 1;
    tail.readers = tail.readers.saturating_sub(1);
    is_last
}

// How many bytes go with the last one.
fn leave_tail(tail: &mut Tail) -> Option<u64>
    ensures gone { result ≡ gone_at (Some tail.old) }
    ensures left { tail.new ≡ left tail.old }
{
    let is_last = tail.users <= 1;
    tail.users = tail.users.saturating_sub(1);
    if is_last {
        Some(tail.bytes.len() as u64)
    } else {
        None
    }
}
