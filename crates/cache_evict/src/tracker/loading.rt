//! Rows as text.

ghost use Rattle.std.specs.Prelude.{◌≡◌, None, IfOk, IfErr, OnOk, OnErr};
ghost use Rattle.cache_entries.specs.BorrowedEntry.{borrowed_entry};
ghost use Rattle.cache_entries.specs.BorrowedRow.{borrowed_row};
ghost use Rattle.cache_entries.specs.RowText.{recency_at};
ghost use Rattle.cache_entries.specs.Rows.{weight_of};
ghost use Rattle.cache_evict.specs.Loads.{loaded, IsLoadRefusal, Loads};
ghost use Rattle.cache_evict.specs.Managed.{rows_of, put_last, HasNoOtherReason};
ghost use Rattle.cache_evict.specs.Numbered.{LeadsHome};
ghost use Rattle.cache_evict.specs.Refusals.{IsRefusal};

use super::hashing::borrowed_hash;
use super::rows::{End, put_first};
use super::{Refusal, Tracker};
use crate::load_fault::LoadFault;
use cache_entries::entry::CacheEntryKey;
use cache_entries::pack::{BorrowedEntry, BorrowedRow, take_row};
use cache_words::pack::Cursor;
use std::alloc::Global;
use std::hash::BuildHasher;

/// What becomes of a row that is read whose entry is tracked.
#[derive(Clone, Copy)]
pub enum Again {
    /// Nothing: the entry stays where it is, with the weight that it has.
    PassedOver,
    /// The entry moves to the front, with the weight that was read.
    MovedFirst,
}

impl<const N: usize, S: BuildHasher> Tracker<N, S> {
    /// Puts the rows of a text last, each in its entry's shard, until one can't be read or put. What follows the text is
    /// passed over.
    pub fn load(&mut self, alloc: Global, bytes: &[u8], again: Again) -> Result<(), LoadFault>
        ensures { Loads again N (recency_at bytes.now) self.old self.new result }
    {
        let mut cursor = Cursor { rest: bytes };
        let count = cursor.array()?;
        'rows: for _ in 0..count {
            let row = take_row(&mut cursor)?;
            self.load_row(alloc, &row, again)?;
        }
        Ok(())
    }

    // Puts a row last in its entry's shard, unless the entry is tracked. It copies no entry but one that it puts.
    fn load_row(
        &mut self,
        alloc: Global,
        row: &BorrowedRow<'_>,
        again: Again,
    ) -> Result<(), Refusal>
        ensures ok { OnOk result (self.new ≡ loaded again N (borrowed_row row.now) self.old) }
        ensures err { OnErr result (self.new ≡ self.old) }
        ensures why { IfErr result (IsLoadRefusal again N (borrowed_row row.now) self.old) }
    {
        match self.numbers.number_of_borrowed(row.entry) {
            Some(number) => match again {
                Again::PassedOver => Ok(()),
                Again::MovedFirst => put_first(&mut self.core, number, row.weight),
            },
            None => self.put_borrowed(alloc, row.entry, row.weight),
        }
    }

    // Looks for room for an entry that isn't tracked and whose tag is borrowed, and returns its hash.
    fn look_for_borrowed(&self, entry: BorrowedEntry<'_>, weight: usize) -> Result<u64, Refusal>
        requires { weight_of (borrowed_entry entry) (rows_of N (borrowed_entry entry) self.now) ≡ None }
        ensures hash { IfOk result (λ hash. LeadsHome N (borrowed_entry entry.entry) hash) }
        ensures room { OnOk result (HasNoOtherReason N (borrowed_entry entry.entry) weight self.now) }
        ensures why { IfErr result (IsRefusal N (borrowed_entry entry.entry) weight self.now) }
    {
        self.look_for_room(borrowed_hash(entry), weight)
    }

    // A copy of an entry that isn't tracked and whose tag is borrowed, with its hash, once there is room for it with that weight.
    fn owned_new(
        &self,
        alloc: Global,
        entry: BorrowedEntry<'_>,
        weight: usize,
    ) -> Result<(CacheEntryKey, u64), Refusal>
        requires { weight_of (borrowed_entry entry) (rows_of N (borrowed_entry entry) self.now) ≡ None }
        ensures copy { IfOk result (λ new. new.0 ≡ borrowed_entry entry.entry) }
        ensures hash { IfOk result (λ new. LeadsHome N (borrowed_entry entry.entry) new.1) }
        ensures room { OnOk result (HasNoOtherReason N (borrowed_entry entry.entry) weight self.now) }
        ensures why { IfErr result (IsRefusal N (borrowed_entry entry.entry) weight self.now) }
    {
        let hash = self.look_for_borrowed(entry, weight)?;
        let copy = owned(alloc, entry)?;
        Ok((copy, hash))
    }

    // Puts a copy of such an entry last.
    fn put_borrowed(
        &mut self,
        alloc: Global,
        entry: BorrowedEntry<'_>,
        weight: usize,
    ) -> Result<(), Refusal>
        requires { weight_of (borrowed_entry entry) (rows_of N (borrowed_entry entry) self.old) ≡ None }
        ensures ok { OnOk result (self.new ≡ put_last N (borrowed_entry entry.entry) weight self.old) }
        ensures err { OnErr result (self.new ≡ self.old) }
        ensures why { IfErr result (IsRefusal N (borrowed_entry entry.entry) weight self.old) }
    {
        let (copy, hash) = self.owned_new(alloc, entry, weight)?;
        self.put_new(copy, hash, weight, End::Last)
    }
}

// A copy of an entry whose tag is borrowed.
fn owned(alloc: Global, entry: BorrowedEntry<'_>) -> Result<CacheEntryKey, Refusal>
    ensures copy { IfOk result (λ copy. copy ≡ borrowed_entry entry.entry) }
    ensures memory { IfErr result (λ refusal. refusal ≡ Refusal.Memory) }
{
    match entry.to_entry(alloc) {
        Ok(copy) => Ok(copy),
        Err(_) => Err(Refusal::Memory),
    }
}
