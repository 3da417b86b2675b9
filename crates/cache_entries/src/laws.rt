//! Laws of entries. Each is the contract of a function with an empty body.
ghost use Rattle.std.specs.Prelude.{◌≡◌, ◌↔◌, ◌<◌, ◌^◌, ◌++◌, ℕ, List, None, length, slice_index, true, false};
ghost use Rattle.std.specs.List.{AllByRecursion};
ghost use Rattle.std.specs.Ordering.{is_eq};
ghost use Rattle.cache_entries.specs.Entry.{owned_of, same_entry};
ghost use Rattle.cache_entries.specs.EntryText.{entry_text, SpellsEntry};
ghost use Rattle.cache_entries.specs.RowText.{row_text, recency_text, SpellsRow, SpellsRecency, recency_at};
ghost use Rattle.cache_entries.specs.Writable.{IsEntry, IsRow};

use crate::entry::{CacheEntryId, CacheEntryKey, CacheEntryKeyRef};
use crate::rows::Tracked;
use cache_words::key::CompactCacheKey;
use std::hash::Hash;

/// Two entries are the same exactly if they are equal, and that is what `==` and `cmp` say.
pub fn same_is_equal()
    ensures equal { (a b : CacheEntryKey) → (same_entry a b ≡ true) ↔ (a ≡ b) }
    ensures eq { (a b : CacheEntryKey) → ⟦<CacheEntryKey as PartialEq>⟧.eq a b ≡ same_entry a b }
    ensures cmp { (a b : CacheEntryKey) → is_eq (⟦<CacheEntryKey as Ord>⟧.cmp a b) ≡ same_entry a b }
    ensures hash { (a b : CacheEntryKey) → same_entry a b ≡ true → ⟦<CacheEntryKey as Hash>⟧.hash_input a ≡ ⟦<CacheEntryKey as Hash>⟧.hash_input b }
{}

/// A borrowed entry is compared and hashed as the entry that it stands for.
pub fn borrowed_is_owned()
    ensures eq { (a b : CacheEntryKeyRef) → ⟦<CacheEntryKeyRef<'static> as PartialEq>⟧.eq a b ≡ ⟦<CacheEntryKey as PartialEq>⟧.eq (owned_of a) (owned_of b) }
    ensures hash { (a : CacheEntryKeyRef) → ⟦<CacheEntryKeyRef<'static> as Hash>⟧.hash_input a ≡ ⟦<CacheEntryKey as Hash>⟧.hash_input (owned_of a) }
{}

/// A key without an id is another entry than that key with an id.
pub fn ids_tell_entries_apart()
    ensures without { (key : CompactCacheKey) (id : CacheEntryId) → same_entry (CacheEntryKey.KeyOnly key) (CacheEntryKey.Identified key id) ≡ false }
    ensures with { (key : CompactCacheKey) (i j : CacheEntryId) → same_entry (CacheEntryKey.Identified key i) (CacheEntryKey.Identified key j) ≡ true → i ≡ j }
{}

/// What a writer writes is a spelling of its value, so a reader reads it again, whatever follows.
pub fn written_is_spelled()
    ensures entry { (e : CacheEntryKey) → IsEntry e → SpellsEntry e (entry_text e) }
    ensures row { (r : Tracked) → IsRow r → SpellsRow r (row_text r) }
    ensures recency { (rows : List Tracked) → length rows < 2 ^ 32 → AllByRecursion IsRow rows → SpellsRecency rows (recency_text rows) }
{}

/// No spelling of one value begins a spelling of another.
pub fn one_spelling()
    ensures entry { (v w : CacheEntryKey) (a b x y : List ℕ) → SpellsEntry v a → SpellsEntry w b → a ++ x ≡ b ++ y → (v ≡ w) × (x ≡ y) }
    ensures row { (v w : Tracked) (a b x y : List ℕ) → SpellsRow v a → SpellsRow w b → a ++ x ≡ b ++ y → (v ≡ w) × (x ≡ y) }
{}

/// Rows are read without a fault exactly where the bytes begin with a spelling of an order of use, and then they are its rows.
pub fn rows_are_spelled()
    ensures again { (rows : List Tracked) (text rest : List ℕ) → SpellsRecency rows text → recency_at (text ++ rest) ≡ (rows, None) }
    ensures found { (bytes : List ℕ) → ((i : ℕ) → slice_index bytes i < 256) → (recency_at bytes).1 ≡ None
        → (text : List ℕ) × (rest : List ℕ) × SpellsRecency (recency_at bytes).0 text × (bytes ≡ text ++ rest) }
{}
