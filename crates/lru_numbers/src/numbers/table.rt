//! Calls of both maps, by what a look-up gives.

ghost use Rattle.std.specs.Prelude.{◌≡◌, ℕ, ◌<◌, ◌≤◌, ◌++◌, ◌∷◌, [], cond, None, Some, OnOk, nat_eq};
ghost use Rattle.std.specs.HashMap.{get, spare, IsUnchanged};
ghost use Rattle.cache_entries.specs.Entry.{same_entry};

use crate::table_key::TableKey;
use cache_entries::entry::CacheEntryKey;
use indexmap::IndexMap;
use std::alloc::AllocError;
use std::collections::HashMap;
use std::hash::BuildHasher;

// Takes the place of a number out.
pub(super) fn take_place<S: BuildHasher>(
    places: &mut HashMap<u64, usize, S>,
    number: u64,
) -> Option<usize>
    ensures value { result ≡ get nat_eq places.old number }
    ensures after { (q : ℕ) → get nat_eq places.new q ≡ cond (nat_eq number q) None (get nat_eq places.old q) }
{
    places.remove(&number)
}

// Puts a number that is there at another place.
pub(super) fn move_place<S: BuildHasher>(
    places: &mut HashMap<u64, usize, S>,
    number: u64,
    place: usize,
)
    requires { (is : ℕ) × (get nat_eq places.old number ≡ Some is) }
    ensures { (q : ℕ) → get nat_eq places.new q ≡ cond (nat_eq number q) (Some place) (get nat_eq places.old q) }
{
    let inserted: Result<_, _> = places.insert(number, place);
    let _old = inserted.unwrap();
}

// Puts a new number at its place.
pub(super) fn put_place<S: BuildHasher>(
    places: &mut HashMap<u64, usize, S>,
    number: u64,
    place: usize,
)
    requires { 0 < spare places.old }
    ensures { (q : ℕ) → get nat_eq places.new q ≡ cond (nat_eq number q) (Some place) (get nat_eq places.old q) }
{
    let inserted: Result<_, _> = places.insert(number, place);
    let _old = inserted.unwrap();
}

// Puts a new entry last.
pub(super) fn put_entry<S: BuildHasher>(
    entries: &mut IndexMap<TableKey, u64, S>,
    entry: CacheEntryKey,
    number: u64,
)
    requires room { 0 < spare entries.old }
    requires new { get same_entry entries.old entry ≡ None }
    ensures { entries.new.entries ≡ entries.old.entries ++ (entry, number) ∷ [] }
{
    let inserted: Result<_, _> = entries.insert(TableKey::new(entry), number);
    let _old = inserted.unwrap();
}

// Reserves room for so many more numbers.
pub(super) fn room_for<S: BuildHasher>(
    entries: &mut IndexMap<TableKey, u64, S>,
    places: &mut HashMap<u64, usize, S>,
    more: usize,
) -> Result<(), AllocError>
    ensures entries { IsUnchanged entries.old entries.new }
    ensures places { (q : ℕ) → get nat_eq places.new q ≡ get nat_eq places.old q }
    ensures room { OnOk result ((more ≤ spare entries.new) × (more ≤ spare places.new)) }
{
    entries.reserve(more)?;
    places.reserve(more)
}
