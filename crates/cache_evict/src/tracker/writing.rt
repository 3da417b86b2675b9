//! Rows that are written.

ghost use Rattle.std.specs.Prelude.{◌≡◌, ◌++◌, ◌∷◌, ◌<◌, ◌≤◌, ◌^◌, ◌≢◌, ℕ, None, [], length, map, flat_map, option_map, IfSome, IfOk, OnOk, OnErr, IsErrOf, MatchOption};
ghost use Rattle.std.specs.List.{AllByRecursion};
ghost use Rattle.cache_entries.specs.Entry.{key_of, number_of, owned_of};
ghost use Rattle.cache_entries.specs.EntryText.{HasText};
ghost use Rattle.cache_entries.specs.Writable.{IsEntry, IsRow};
ghost use Rattle.cache_entries.specs.RowText.{SpellsRecency, row_text, recency_text};
ghost use Rattle.cache_words.specs.Pack.{IsHash};
ghost use Rattle.cache_words.specs.Forms.{shortest, arrays};
ghost use Rattle.cache_evict.specs.Loads.{CantBeWritten, HasLongTag};
ghost use Rattle.cache_evict.specs.Managed.{rows_at, IsLast};
ghost use Rattle.lru_numbers.specs.Names.{name_at};
ghost use Rattle.cache_evict.specs.Numbered.{AreNamed, row_of_pair, entry_of_pair};

use super::Tracker;
use cache_entries::entry::{CacheEntryId, CacheEntryKey, CacheEntryKeyRef};
use cache_entries::pack::put_row;
use cache_words::key::HashBinary;
use cache_words::pack::{PackWriteFault, writing};
use lru_core::lru_unit::LruUnitIter;
use lru_numbers::Numbers;
use std::alloc::{AllocError, Global};
use std::hash::BuildHasher;

impl<const N: usize, S: BuildHasher> Tracker<N, S> {
    /// Returns the entry of a shard that was used longest ago.
    pub fn peek_lru(&self, shard: usize) -> Option<&CacheEntryKey>
        requires { shard < N }
        ensures { MatchOption result (rows_at self.now.shards shard ≡ []) (λ e. IsLast (rows_at self.now.shards shard) e.now) }
    {
        let (number, _weight) = self.core.peek_lru(shard)?;
        self.numbers.entry_of(*number)
    }

    /// Returns the text of the entries of a shard with their weights, most recent first.
    pub fn text_of(&self, alloc: Global, shard: usize) -> Result<Vec<u8>, PackWriteFault>
        requires { shard < N }
        ensures ok { IfOk result (λ v. v.items ≡ recency_text (rows_at self.now.shards shard)) }
        ensures spelled { IfOk result (λ v. SpellsRecency (rows_at self.now.shards shard) v.items) }
        ensures long { IsErrOf result PackWriteFault.TooLong → CantBeWritten (rows_at self.now.shards shard) }
    {
        let mut out = head_of(alloc, self.core.shard_len(shard))?;
        match put_rows(&mut out, &self.numbers, self.core.iter(shard)) {
            Ok(()) => Ok(out),
            Err(fault) => Err(fault),
        }
    }

    /// Returns the entries of a shard, most recent first.
    pub fn entries(&self, alloc: Global, shard: usize) -> Result<Vec<CacheEntryKey>, AllocError>
        requires { shard < N }
        ensures { IfOk result (λ v. v.items ≡ map (λ r. r.entry) (rows_at self.now.shards shard)) }
    {
        let mut out = Vec::new(alloc);
        match add_entries(&mut out, &self.numbers, self.core.iter(shard)) {
            Ok(()) => Ok(out),
            Err(fault) => Err(fault),
        }
    }
}

// Adds the entries of numbers.
fn add_entries<const N: usize, S: BuildHasher>(
    out: &mut Vec<CacheEntryKey>,
    numbers: &Numbers<N, S>,
    rows: LruUnitIter<'_, u64>,
) -> Result<(), AllocError>
    requires { AreNamed (name_at numbers.now) rows }
    ensures { OnOk result (out.new.items ≡ out.old.items ++ map (entry_of_pair (name_at numbers.now)) rows.entry) }
{
    let mut left = rows;
    'rows: while let Some((number, _weight)) = left.next() {
        add_entry(out, numbers, *number)?;
    }
    Ok(())
}

// Adds the entry of a number.
fn add_entry<const N: usize, S: BuildHasher>(
    out: &mut Vec<CacheEntryKey>,
    numbers: &Numbers<N, S>,
    number: u64,
) -> Result<(), AllocError>
    requires { name_at numbers.now number ≢ None }
    ensures { OnOk result ((w : ℕ) → out.new.items ≡ out.old.items ++ entry_of_pair (name_at numbers.now) (number, w) ∷ []) }
{
    let entry = numbers.entry_of(number).unwrap();
    let copy: Result<_, _> = entry.clone();
    out.push(copy?)?;
    Ok(())
}

// The head of a text of so many rows.
fn head_of(alloc: Global, count: usize) -> Result<Vec<u8>, PackWriteFault>
    ensures ok { IfOk result (λ out. out.items ≡ shortest arrays count) }
    ensures short { OnOk result (count < 2 ^ 32) }
    ensures long { IsErrOf result PackWriteFault.TooLong → 2 ^ 32 ≤ count }
{
    if count > u32::MAX as usize {
        return Err(PackWriteFault::TooLong);
    }
    let mut out = Vec::new(alloc);
    writing::put_array(&mut out, count as u32)?;
    Ok(out)
}

// Adds the rows of the entries of numbers.
fn put_rows<const N: usize, S: BuildHasher>(
    out: &mut Vec<u8>,
    numbers: &Numbers<N, S>,
    rows: LruUnitIter<'_, u64>,
) -> Result<(), PackWriteFault>
    requires { AreNamed (name_at numbers.now) rows }
    ensures ok { OnOk result (out.new.items ≡ out.old.items ++ flat_map row_text (map (row_of_pair (name_at numbers.now)) rows.entry)) }
    ensures fits { OnOk result (AllByRecursion IsRow (map (row_of_pair (name_at numbers.now)) rows.entry)) }
    ensures long { IsErrOf result PackWriteFault.TooLong → HasLongTag (map (row_of_pair (name_at numbers.now)) rows.entry) }
{
    let mut left = rows;
    'rows: while let Some((number, weight)) = left.next() {
        put_numbered(out, numbers, *number, weight)?;
    }
    Ok(())
}

// Adds the row of the entry of a number.
fn put_numbered<const N: usize, S: BuildHasher>(
    out: &mut Vec<u8>,
    numbers: &Numbers<N, S>,
    number: u64,
    weight: usize,
) -> Result<(), PackWriteFault>
    requires { name_at numbers.now number ≢ None }
    ensures ok { OnOk result (out.new.items ≡ out.old.items ++ row_text (row_of_pair (name_at numbers.now) (number, weight))) }
    ensures fits { OnOk result (IsRow (row_of_pair (name_at numbers.now) (number, weight))) }
    ensures long { IsErrOf result PackWriteFault.TooLong → 2 ^ 32 ≤ length (key_of (row_of_pair (name_at numbers.now) (number, weight)).entry).user_tag }
{
    let entry = numbers.entry_of(number).unwrap();
    put_row(out, checked(entry), weight)
}

// The entry, with what holds of each entry in memory.
fn checked(entry: &CacheEntryKey) -> CacheEntryKeyRef<'_>
    ensures same { owned_of result ≡ entry.now }
    ensures fits { HasText entry.now → IsEntry entry.now }
{
    let key = entry.key();
    let _tag = key.user_tag.as_str();
    check_hash(key.primary);
    check_variance(key.variance);
    check_id(entry.entry_id());
    CacheEntryKeyRef::from(entry)
}

// A hash has 16 bytes.
fn check_hash(hash: HashBinary)
    ensures { IsHash hash }
{}

fn check_variance(variance: Option<HashBinary>)
    ensures { IfSome variance IsHash }
{
    if let Some(hash) = variance {
        check_hash(hash);
    }
}

// An id is a number below 2^64.
fn check_id(id: Option<CacheEntryId>)
    ensures { IfSome (option_map number_of id) (λ n. n < 2 ^ 64) }
{
    if let Some(id) = id {
        let _number = id.get();
    }
}
