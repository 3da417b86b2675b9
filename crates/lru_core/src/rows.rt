//! Rows in the order of their use, found by their keys.

ghost use Rattle.std.specs.Prelude.{◌≡◌, ◌≢◌, ◌↔◌, ℕ, ◌+◌, ◌-◌, ◌<◌, ◌≤◌, ◌++◌, ◌∷◌, List, [], length, take, map, IsTrue, IsSome, is_some, IfSome, IfNone, IfOk, OnOk, OnErr, MatchOption, nat_eq, option_copied, not};
ghost use Rattle.std.specs.Option.{option_to_list};
ghost use Rattle.lru_core.specs.Rows.{only, others, promoted, put, reweighed, a_row, with_one};
ghost use Rattle.lru_core.specs.Updates.{Updates};
ghost use Rattle.lru_core.specs.declared.rows.Row.{Row};

mod slots;
mod table;

use lru_list::linked_list::{LinkedList, LinkedListIter, ListFault};
use slots::new_slot;
use std::alloc::{AllocError, Global};
use std::collections::HashMap;
use std::hash::BuildHasher;
use std::marker::Model;
use table::{index_of, put_key, room_for, take_key};

/// The most rows that a shard can have: the greatest capacity of a `HashMap`, which is below that of a list.
pub const MOST_ROWS: usize = 2415919104;

/// A row: what a key has, and what that weighs.
#[derive(Drop)]
pub struct Row<T> {
    pub key: u64,
    pub data: T,
    pub weight: usize,
}

/// An end of the rows.
#[derive(Clone, Copy)]
pub enum End {
    Front,
    Back,
}

/// Rows of distinct keys, most recent first.
#[derive(Drop)]
pub struct Rows<T, S: BuildHasher> {
    /// The index of each key in the list.
    table: HashMap<u64, usize, S>,
    list: LinkedList<Option<Row<T>>>,
}

impl<T, S: BuildHasher> Model for Rows<T, S> {
    ghost use Rattle.std.specs.Prelude.{List, nat_eq};
    ghost use Rattle.std.specs.HashMap.{get};
    ghost use Rattle.lru_core.specs.declared.rows.Row.{Row};

    ghost Value = { List (Row T) };

    ghost use Rattle.lru_core.specs.Tables.{IsTabled, rows_of};

    ghost view = { λ u. rows_of u.list.items u.list.order };

    ghost invariant = { λ u. IsTabled (get nat_eq u.table) u.list.items u.list.order };
}

impl<T, S: BuildHasher> Rows<T, S> {
    /// Returns the number of rows.
    pub fn len(&self) -> usize
        ensures { result ≡ length self.now }
    {
        self.list.len()
    }

    /// Returns the row of `key`.
    pub fn get(&self, key: u64) -> Option<&Row<T>>
        ensures { option_to_list (option_copied result) ≡ only key self.now }
    {
        let i = index_of(&self.table, key)?;
        self.list.item(i).as_ref()
    }

    /// Moves the row of `key` to the front, and returns whether there is one.
    pub fn promote(&mut self, key: u64) -> bool
        ensures found { IsTrue result ↔ (only key self.old ≢ []) }
        ensures after { self.new ≡ promoted key self.old }
    {
        match index_of(&self.table, key) {
            Some(i) => {
                self.list.promote(i);
                true
            }
            None => false,
        }
    }

    /// Returns whether the row of `key` is there and among the first `limit`. It looks at no others.
    pub fn is_near_head(&self, key: u64, limit: usize) -> bool
        ensures { IsTrue result ↔ (only key (take limit self.now) ≢ []) }
    {
        match index_of(&self.table, key) {
            Some(i) => self.list.is_near_head(i, limit),
            None => false,
        }
    }

    /// Returns the last row.
    pub fn last(&self) -> Option<&Row<T>>
        ensures { MatchOption result (self.now ≡ []) (λ r. (front : List (Row T)) × (self.now ≡ front ++ r.now ∷ [])) }
    {
        let i = self.list.tail()?;
        self.list.item(i).as_ref()
    }

    /// Returns the slots of the rows, in order. Each has its row.
    pub fn iter(&self) -> LinkedListIter<'_, Option<Row<T>>>
        ensures { result ≡ map (λ r. Some r) self.now }
    {
        self.list.iter()
    }

    /// Replaces the row of a key in its place, and returns the old one.
    pub fn replace(&mut self, row: Row<T>) -> Row<T>
        requires { only row.key self.old ≢ [] }
        ensures value { only row.key self.old ≡ result ∷ [] }
        ensures after { self.new ≡ put row self.old }
    {
        let i = index_of(&self.table, row.key).unwrap();
        self.list.replace(i, Some(row)).unwrap()
    }

    /// Replaces the row of a key by one at the front, and returns the old one.
    pub fn replace_first(&mut self, row: Row<T>) -> Row<T>
        requires { only row.key self.old ≢ [] }
        ensures value { only row.key self.old ≡ result ∷ [] }
        ensures after { self.new ≡ row ∷ others row.key self.old }
    {
        let i = index_of(&self.table, row.key).unwrap();
        let old = self.list.replace(i, Some(row)).unwrap();
        self.list.promote(i);
        old
    }
}

impl<T: Drop, S: BuildHasher + Copy> Rows<T, S> {
    /// Returns no rows, whose look-ups hash with that start. `capacity` is a hint: room for that many rows is reserved.
    pub fn with_hasher(alloc: Global, hasher: S, capacity: usize) -> Result<Self, AllocError>
        ensures { IfOk result (λ rows. rows ≡ []) }
    {
        Ok(Rows {
            table: HashMap::with_capacity_and_hasher(alloc, capacity, hasher)?,
            list: LinkedList::with_capacity(alloc, capacity)?,
        })
    }
}

impl<T: Drop, S: BuildHasher> Rows<T, S> {
    /// Reserves room for `additional` more rows. It is a hint.
    pub fn reserve(&mut self, additional: usize) -> Result<(), AllocError>
        ensures same { self.new ≡ self.old }
        ensures refused { OnErr result (0 < additional) }
    {
        room_for(&mut self.table, additional)?;
        self.list.reserve(additional)
    }

    /// Inserts a row of a new key at that end.
    pub fn push(&mut self, row: Row<T>, end: End) -> Result<(), ListFault<T>>
        requires { only row.key self.old ≡ [] }
        ensures ok { OnOk result (self.new ≡ with_one end row self.old) }
        ensures err { OnErr result (self.new ≡ self.old) }
        ensures memory { (back : T) → result ≡ Err (ListFault.Memory back) → (back ≡ row.data) × (length self.old < MOST_ROWS) }
        ensures full { (back : T) → result ≡ Err (ListFault.Full back) → (back ≡ row.data) × (MOST_ROWS ≤ length self.old) }
    {
        let key = row.key;
        match new_slot(&mut self.table, &mut self.list, Some(row), end) {
            Ok(i) => {
                put_key(&mut self.table, key, i);
                Ok(())
            }
            Err(ListFault::Memory(back)) => Err(ListFault::Memory(back.unwrap().data)),
            Err(ListFault::Full(back)) => Err(ListFault::Full(back.unwrap().data)),
        }
    }

    /// Inserts a row of a new key at the front, whose data is made once its room is reserved.
    pub fn push_with<F: FnOnce() -> T>(
        &mut self,
        key: u64,
        weight: usize,
        make: F,
    ) -> Result<(), ListFault<F>>
        requires callable { F.IsAlwaysCallable make }
        requires absent { only key self.old ≡ [] }
        ensures ok { OnOk result ((d : T) × F.post make d × (self.new ≡ a_row key d weight ∷ self.old)) }
        ensures err { OnErr result (self.new ≡ self.old) }
        ensures memory { (back : F) → result ≡ Err (ListFault.Memory back) → (back ≡ make) × (length self.old < MOST_ROWS) }
        ensures full { (back : F) → result ≡ Err (ListFault.Full back) → (back ≡ make) × (MOST_ROWS ≤ length self.old) }
    {
        match new_slot(&mut self.table, &mut self.list, None, End::Front) {
            Ok(i) => {
                let data = make();
                let _hole = self.list.replace(i, Some(Row { key, data, weight }));
                put_key(&mut self.table, key, i);
                Ok(())
            }
            Err(ListFault::Memory(_)) => Err(ListFault::Memory(make)),
            Err(ListFault::Full(_)) => Err(ListFault::Full(make)),
        }
    }

    /// Sets the weight of `key`, and returns the old one. The order stays.
    pub fn reweigh(&mut self, key: u64, weight: usize) -> usize
        requires { only key self.old ≢ [] }
        ensures value { map (λ r. r.weight) (only key self.old) ≡ result ∷ [] }
        ensures after { self.new ≡ reweighed key weight self.old }
    {
        let i = index_of(&self.table, key).unwrap();
        let Row {
            key,
            data,
            weight: old,
        } = self.list.replace(i, None).unwrap();
        let _hole = self.list.replace(i, Some(Row { key, data, weight }));
        old
    }

    /// Lets `update` change the data of `key`, and returns the weight that it asks for. The weight and the order stay.
    pub fn update<U: FnOnce(&mut T, usize) -> usize>(&mut self, key: u64, update: U) -> usize
        requires callable { U.IsAlwaysCallable update }
        requires present { only key self.old ≢ [] }
        ensures { (row : Row T) × (d : T) × (only key self.old ≡ row ∷ []) × Updates U.FnOnce update row.data row.weight d result × (self.new ≡ put (a_row key d row.weight) self.old) }
    {
        let i = index_of(&self.table, key).unwrap();
        let Row {
            key,
            mut data,
            weight,
        } = self.list.replace(i, None).unwrap();
        let wanted = update(&mut data, weight);
        let _hole = self.list.replace(i, Some(Row { key, data, weight }));
        wanted
    }

    /// Removes the row of `key`, and returns it.
    pub fn remove(&mut self, key: u64) -> Option<Row<T>>
        ensures value { option_to_list result ≡ only key self.old }
        ensures after { self.new ≡ others key self.old }
    {
        let i = take_key(&mut self.table, key)?;
        self.list.remove(i)
    }

    /// Removes the last row, and returns it.
    pub fn pop_last(&mut self) -> Option<Row<T>>
        ensures { MatchOption result ((self.old ≡ []) × (self.new ≡ self.old)) (λ r. self.old ≡ self.new ++ r ∷ []) }
    {
        let i = self.list.tail()?;
        let row = self.list.remove(i).unwrap();
        let _index = take_key(&mut self.table, row.key);
        Some(row)
    }
}
