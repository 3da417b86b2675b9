//! Entries and their numbers.

ghost use Rattle.std.specs.Prelude.{◌≡◌, ℕ, ◌==◌, ◌<◌, ◌+◌, [], length, Some, IfSome, IfNone, IfOk, OnOk, OnErr, option_copied};
ghost use Rattle.std.specs.List.{fold};
ghost use Rattle.cache_entries.specs.Entry.{owned_of};
ghost use Rattle.cache_entries.specs.BorrowedEntry.{borrowed_entry};
ghost use Rattle.lru_numbers.specs.Hashed.{table_writes};
ghost use Rattle.lru_numbers.specs.Parts.{entry_with_parts};
ghost use Rattle.lru_numbers.specs.Names.{name_at, IsOneToOne, HasNoNumber, with_name, without_name, IsFirstFree, IsSpent, HasMany};
ghost use Rattle.lru_core.specs.declared.rows.TheConstants.{MOST_ROWS};

mod search;
mod table;

use crate::fault::NumbersFault;
use crate::parts::KeyParts;
use crate::query::Query;
use crate::table_key::TableKey;
use cache_entries::entry::{CacheEntryKey, CacheEntryKeyRef};
use cache_entries::pack::BorrowedEntry;
use indexmap::IndexMap;
use lru_core::MOST_ROWS;
use search::first_free;
use std::alloc::{AllocError, Global};
use std::collections::HashMap;
use std::hash::{BuildHasher, BuildHasherDefault, FoldHasher, Hash, Hasher};
use std::marker::Model;
use table::{move_place, put_entry, put_place, room_for, take_place};

/// Entries and their numbers, N numbers apart for entries whose hashes are the same. A contract sees the pairs of entry and
/// number.
///
/// Both are found by their hashes. `new` hashes with a fixed start, for entries that the caller chooses itself;
/// `with_hasher` takes a start of the caller's: `SeededState` or std's `RandomState`, for entries that attackers choose. No part
/// of an entry is hashed in a write of more than eight bytes, so no choice of parts takes the start out of the hash.
#[derive(Drop)]
pub struct Numbers<const N: usize, S: BuildHasher = BuildHasherDefault<FoldHasher>> {
    entries: IndexMap<TableKey, u64, S>,
    // The index of each number's entry.
    places: HashMap<u64, usize, S>,
}

impl<const N: usize, S: BuildHasher> Model for Numbers<N, S> {
    ghost use Rattle.std.specs.Prelude.{ℕ, List, nat_eq};
    ghost use Rattle.std.specs.HashMap.{get};
    ghost use Rattle.cache_entries.specs.declared.entry.CacheEntryKey.{CacheEntryKey};

    ghost Value = { List (CacheEntryKey × ℕ) };

    ghost use Rattle.std.specs.Prelude.{◌<◌};
    ghost use Rattle.lru_numbers.specs.Places.{IsPlaced};

    ghost view = { λ n. n.entries.entries };

    ghost invariant = { λ n. (0 < N) × IsPlaced (get nat_eq n.places) n.entries.entries };
}

impl<const N: usize> Numbers<N, BuildHasherDefault<FoldHasher>> {
    /// Returns numbers that no entry has yet, under hashes with a fixed start. It takes no memory.
    pub fn new(alloc: Global) -> Self
        requires { 0 < N }
        ensures { result ≡ [] }
    {
        Numbers::with_hasher(alloc, BuildHasherDefault::new())
    }
}

impl<const N: usize, S: BuildHasher + Copy> Numbers<N, S> {
    /// Returns numbers that no entry has yet, under hashes of that start. It takes no memory.
    pub fn with_hasher(alloc: Global, hasher: S) -> Self
        requires { 0 < N }
        ensures { result ≡ [] }
    {
        Numbers {
            entries: IndexMap::with_hasher(alloc, hasher),
            places: HashMap::with_hasher(alloc, hasher),
        }
    }
}

impl<const N: usize, S: BuildHasher + Copy> Numbers<N, S> {
    /// The same, with room for so many entries.
    ///
    /// # Errors
    ///
    /// No memory for that room.
    pub fn with_capacity_and_hasher(
        alloc: Global,
        capacity: usize,
        hasher: S,
    ) -> Result<Self, AllocError>
        requires { 0 < N }
        ensures { IfOk result (λ numbers. numbers ≡ []) }
    {
        let mut numbers = Numbers::with_hasher(alloc, hasher);
        room_for(&mut numbers.entries, &mut numbers.places, capacity)?;
        Ok(numbers)
    }
}

impl<const N: usize, S: BuildHasher> Numbers<N, S> {
    /// Returns how many entries have a number.
    pub fn len(&self) -> usize
        ensures count { result ≡ length self.now }
        ensures one { IsOneToOne (name_at self.now) }
    {
        self.entries.len()
    }

    /// Returns whether no entry has a number.
    pub fn is_empty(&self) -> bool
        ensures { result ≡ (length self.now == 0) }
    {
        self.len() == 0
    }

    /// Returns the number of an entry.
    pub fn number_of(&self, entry: CacheEntryKeyRef<'_>) -> Option<u64>
        ensures some { IfSome result (λ k. name_at self.now k ≡ Some (owned_of entry.entry)) }
        ensures none { IfNone result (HasNoNumber (name_at self.now) (owned_of entry.entry)) }
    {
        self.entries.get(Query::of(entry)).copied()
    }

    /// Returns the hash of an entry by the tables' hasher: it is where the search for a free number may begin. A clause sees that
    /// the entry's parts are hashed from some start.
    pub fn hash_of(&self, entry: CacheEntryKeyRef<'_>) -> u64
        ensures { (start : S) × (result ≡ S.Hasher.finish (fold S.Hasher.write (S.build_hasher start) (table_writes (owned_of entry.entry)))) }
    {
        let mut state = self.entries.hasher().build_hasher();
        Query::of(entry).hash(&mut state);
        state.finish()
    }

    /// Returns the number of the entry of a key alone, by the key's parts.
    pub fn number_of_parts(&self, parts: KeyParts<'_>) -> Option<u64>
        ensures some { IfSome result (λ k. name_at self.now k ≡ Some (entry_with_parts parts.entry)) }
        ensures none { IfNone result (HasNoNumber (name_at self.now) (entry_with_parts parts.entry)) }
    {
        self.number_of_borrowed(parts.to_borrowed())
    }

    /// Returns the number of an entry whose tag is borrowed, as of a row that was read. It copies nothing.
    pub fn number_of_borrowed(&self, entry: BorrowedEntry<'_>) -> Option<u64>
        ensures some { IfSome result (λ k. name_at self.now k ≡ Some (borrowed_entry entry.entry)) }
        ensures none { IfNone result (HasNoNumber (name_at self.now) (borrowed_entry entry.entry)) }
    {
        self.entries.get(Query { entry }).copied()
    }

    /// Returns the entry of a number.
    pub fn entry_of(&self, number: u64) -> Option<&CacheEntryKey>
        ensures { option_copied result ≡ name_at self.now number }
    {
        let i = *self.places.get(&number)?;
        let (entry, _number) = self.entries.get_index(i)?;
        Some(entry.entry())
    }

    /// Gives an entry that has none a number: the first free one of the hash, the hash + N and so on below 2^64, then of the
    /// hash modulo N, that + N and so on below the hash. It costs one look-up for each taken number on the way.
    ///
    /// # Errors
    ///
    /// `Length` where 2415919104 entries have a number, else `NumbersSpent` where each number of the hash has an entry, else
    /// `Memory`. Each has the entry, and nothing has changed.
    pub fn give(&mut self, entry: CacheEntryKey, hash: u64) -> Result<u64, NumbersFault>
        requires { HasNoNumber (name_at self.old) entry }
        ensures first { IfOk result (λ k. IsFirstFree N (name_at self.old) hash k) }
        ensures named { IfOk result (λ k. (i : ℕ) → name_at self.new i ≡ with_name (name_at self.old) k entry i) }
        ensures len { OnOk result (length self.new ≡ length self.old + 1) }
        ensures err { OnErr result (self.new ≡ self.old) }
        ensures memory { (back : CacheEntryKey) → result ≡ Err (NumbersFault.Memory back) → (back ≡ entry) × (length self.old < MOST_ROWS) × (k : ℕ) × IsFirstFree N (name_at self.old) hash k }
        ensures long { (back : CacheEntryKey) → result ≡ Err (NumbersFault.Length back) → (back ≡ entry) × HasMany MOST_ROWS (name_at self.old) }
        ensures spent { (back : CacheEntryKey) → result ≡ Err (NumbersFault.NumbersSpent back) → (back ≡ entry) × IsSpent N (name_at self.old) hash }
    {
        let place = self.entries.len();
        if place >= MOST_ROWS {
            return Err(NumbersFault::Length(entry));
        }
        let Some(number) = first_free(&self.places, N as u64, hash) else {
            return Err(NumbersFault::NumbersSpent(entry));
        };
        if room_for(&mut self.entries, &mut self.places, 1).is_err() {
            return Err(NumbersFault::Memory(entry));
        }
        put_entry(&mut self.entries, entry, number);
        put_place(&mut self.places, number, place);
        Ok(number)
    }

    /// Takes a number back, and returns the entry that had it.
    pub fn give_back(&mut self, number: u64) -> Option<CacheEntryKey>
        ensures value { result ≡ name_at self.old number }
        ensures after { (i : ℕ) → name_at self.new i ≡ without_name (name_at self.old) number i }
        ensures len { IfSome result (λ _. length self.new + 1 ≡ length self.old) }
        ensures none { IfNone result (self.new ≡ self.old) }
    {
        let place = take_place(&mut self.places, number)?;
        let (entry, _number) = self.entries.swap_remove_index(place).unwrap();
        if let Some((_entry, moved)) = self.entries.get_index(place) {
            move_place(&mut self.places, *moved, place);
        }
        Some(entry.into_entry())
    }
}
