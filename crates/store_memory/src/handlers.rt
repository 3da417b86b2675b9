//! Readers and writers of the store in memory.
ghost use Rattle.std.specs.Prelude.{◌≡◌, ◌≢◌, [], length, OnErr};
ghost use Rattle.store_memory.specs.Hits.{unread, WholeAnswer, after_read, next_bytes, SeekAnswer};

use bytes::Bytes;
use cache_store::storage::{ReadStep, StoreFault};
use head_packed::SharedHead;
use std::marker::Model;

mod hit;
mod miss;
mod stream;

pub use miss::MemMissHandler;
pub use stream::PartialHit;

/// A reader of what is stored under a key. It is spent by `finish`.
pub enum MemHitHandler {
    /// Of a finished body.
    Complete(CompleteHit),
    /// Of a write, as it comes.
    Partial(PartialHit),
}

/// A reader of a finished body, which it keeps with its head whatever becomes of the key.
#[derive(Drop)]
pub struct CompleteHit {
    number: u64,
    body: Bytes,
    weight: usize,
    head: SharedHead,
    start: usize,
    stop: usize,
    done: bool,
}

impl Model for CompleteHit {
    ghost use Rattle.std.specs.Prelude.{◌≤◌, length};
    ghost use Rattle.store_memory.specs.Hits.{WholeHit};

    ghost Value = { WholeHit };

    ghost view = { λ h. record { number = h.number; body = h.body; weight = h.weight; head = h.head; start = h.start; stop = h.stop; done = h.done } };

    ghost invariant = { λ h. (h.start ≤ h.stop) × (h.stop ≤ length h.body) };
}

impl CompleteHit {
    // Returns a reader of the body of that write, which weighs so much and has that head, that has read nothing.
    pub(crate) fn new(number: u64, body: Bytes, weight: usize, head: SharedHead) -> CompleteHit
        ensures { result ≡ unread number body weight head }
    {
        let stop = body.len();
        CompleteHit {
            number,
            body,
            weight,
            head,
            start: 0,
            stop,
            done: false,
        }
    }

    // Returns the number of the write whose body it is.
    pub(crate) fn number(&self) -> u64
        ensures { result ≡ self.now.number }
    {
        self.number
    }

    // Returns what the body weighed when it was found.
    pub(crate) fn weight(&self) -> usize
        ensures { result ≡ self.now.weight }
    {
        self.weight
    }

    /// Lends the head of the response, as it was when the body was found. A clone of it is a share.
    pub fn head(&self) -> &SharedHead
        ensures { result.now ≡ self.now.head }
    {
        &self.head
    }

    /// Returns how many bytes the body has.
    pub fn len(&self) -> usize
        ensures { result ≡ length self.now.body }
    {
        self.body.len()
    }

    /// Reads what is set at once, without a copy, and then the end.
    ///
    /// # Errors
    ///
    /// `Memory` when out of memory; then it may be read again.
    pub fn read(&mut self) -> Result<ReadStep, StoreFault>
        ensures answer { WholeAnswer self.old.done self.old result }
        ensures ahead { OnErr result (next_bytes self.old ≢ []) }
        ensures after { self.new ≡ after_read self.old result }
    {
        if self.done {
            return Ok(ReadStep::End);
        }
        match self.body.slice(self.start..self.stop) {
            Ok(bytes) => {
                self.done = true;
                Ok(ReadStep::Bytes(bytes))
            }
            Err(_) => Err(StoreFault::Memory),
        }
    }

    /// Sets what is read next: from `start` to `end` or, where that is less, to the body's end.
    ///
    /// # Errors
    ///
    /// `SeekRange` where `start` isn't within the body, or `end` is below it; then an earlier range stays.
    pub fn seek(&mut self, start: usize, end: Option<usize>) -> Result<(), StoreFault>
        ensures { SeekAnswer start end self.old result self.new }
    {
        let end = match end {
            Some(end) => end,
            None => self.body.len(),
        };
        if start >= self.body.len() || end < start {
            return Err(StoreFault::SeekRange);
        }
        self.start = start;
        self.stop = end.min(self.body.len());
        self.done = false;
        Ok(())
    }
}
