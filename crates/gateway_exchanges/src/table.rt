//! The open exchanges, and which of them are at a key.
ghost use Rattle.std.specs.Prelude.{◌≡◌, ◌==◌, ◌∷◌, ℕ, [], length, slice_get, OnOk, OnErr, IfOk, IfSome, option_copied, option_map};
ghost use Rattle.std.specs.List.{list_any};
ghost use Rattle.std.specs.FinMap as finite;
ghost use Rattle.std.specs.FinMap.{insert};
ghost use Rattle.gateway_exchanges.specs.Places.{exchange_in, keys_in};
ghost use Rattle.gateway_exchanges.specs.Tables.{no_exchanges, has_place, exchange_at, numbers_at, with_place, with_exchange, without_exchange, without_number, keys_left, forgotten, with_number, with_numbers, numbers_of, added, others, IsRising, IsIndex};

use crate::exchange::Exchange;
use cache_words::key::HashBinary;
use seeded_hashing::SeededState;
use std::alloc::{AllocError, Global};
use std::collections::HashMap;
use std::marker::Model;

/// The exchanges by their numbers, and their numbers by the digests of their keys, each in the order in which they came. The one that a call is about is
/// out of the table while the call runs: only its place is kept.
#[derive(Drop)]
pub struct Table {
    alloc: Global,
    open: HashMap<u64, Option<Box<Exchange>>, SeededState>,
    by_key: HashMap<HashBinary, Vec<u64>, SeededState>,
}

impl Model for Table {
    ghost use Rattle.gateway_exchanges.specs.Tables.{Exchanges, exchanges_code};

    ghost Value = { Exchanges };

    ghost coded = { exchanges_code };

    ghost use Rattle.gateway_exchanges.specs.Tables.{IsTable};
    ghost use Rattle.gateway_exchanges.specs.TableFields.{exchanges_in};

    ghost view = { exchanges_in };

    ghost invariant = { λ t. IsTable (exchanges_in t) };
}

impl Table {
    /// An empty one. It takes no memory.
    pub fn new(alloc: Global, hasher: SeededState) -> Table
        ensures { result ≡ no_exchanges }
    {
        Table {
            alloc,
            open: HashMap::with_hasher(alloc, hasher),
            by_key: HashMap::with_hasher(alloc, hasher),
        }
    }

    /// How many exchanges are open.
    pub fn len(&self) -> usize
        ensures { result ≡ finite.len self.now.places }
    {
        self.open.len()
    }

    /// Whether none is.
    pub fn is_empty(&self) -> bool
        ensures { result ≡ (finite.len self.now.places == 0) }
    {
        self.len() == 0
    }

    /// Whether an exchange is open.
    pub fn contains(&self, x: u64) -> bool
        ensures { result ≡ has_place x self.now }
    {
        self.open.contains_key(&x)
    }

    /// Makes a place for an exchange.
    pub fn reserve(&mut self, x: u64) -> Result<(), AllocError>
        ensures ok { OnOk result (self.new ≡ with_place x None self.old) }
        ensures err { OnErr result (self.new ≡ self.old) }
    {
        self.open.insert(x, None)?;
        Ok(())
    }

    /// Takes an exchange out; its place is kept.
    pub fn take(&mut self, x: u64) -> Option<Box<Exchange>>
        ensures taken { option_map (λ b. b.value) result ≡ exchange_at x self.old }
        ensures numbered { IfSome result (λ b. b.value.x ≡ x) }
        ensures left { self.new ≡ without_exchange x self.old }
    {
        match self.open.get_mut(&x) {
            Some(place) => place.take(),
            None => None,
        }
    }

    /// Puts it back.
    pub fn put_back(&mut self, e: Box<Exchange>)
        ensures { self.new ≡ with_exchange e.value self.old }
    {
        if let Some(place) = self.open.get_mut(&e.x) {
            *place = Some(e);
        }
    }

    /// Forgets an exchange that was taken out, with its first key and the one that it has.
    pub fn forget(&mut self, x: u64, first: Option<HashBinary>, key: Option<HashBinary>)
        ensures { self.new ≡ forgotten x first key self.old }
    {
        let _place = self.open.remove(&x);
        leave_if(&mut self.by_key, x, &first);
        leave_if(&mut self.by_key, x, &key);
    }

    /// Notes that an exchange isn't at a key any more.
    pub fn leave_key(&mut self, x: u64, key: &HashBinary)
        ensures { self.new ≡ without_number x key.now self.old }
    {
        leave_key(&mut self.by_key, x, key);
    }

    /// The numbers of all exchanges that have a place.
    pub fn numbers(&self) -> Result<Vec<u64>, AllocError>
        ensures { IfOk result (λ numbers. (x : ℕ) → list_any (λ y. x == y) numbers.items ≡ has_place x self.now) }
    {
        let mut numbers = Vec::new(self.alloc);
        for x in self.open.keys() {
            numbers.push(*x)?;
        }
        Ok(numbers)
    }

    /// Notes that an exchange is at a key.
    pub fn join_key(&mut self, x: u64, key: &HashBinary) -> Result<(), AllocError>
        ensures ok { OnOk result (self.new ≡ with_number x key.now self.old) }
        ensures err { OnErr result (self.new ≡ self.old) }
    {
        join_key(self.alloc, &mut self.by_key, x, key)
    }

    /// How many exchanges are at a key.
    pub fn count_at(&self, key: &HashBinary) -> usize
        ensures { result ≡ length (numbers_at key.now self.now) }
    {
        match self.by_key.get(key) {
            Some(numbers) => numbers.as_slice().len(),
            None => 0,
        }
    }

    /// The number of one of them, by its place.
    pub fn number_at(&self, key: &HashBinary, place: usize) -> Option<u64>
        ensures { result ≡ slice_get (numbers_at key.now self.now) place }
    {
        match self.by_key.get(key) {
            Some(numbers) => number_in(numbers.as_slice(), place),
            None => None,
        }
    }

    /// An exchange that isn't taken out.
    pub fn get(&self, x: u64) -> Option<&Exchange>
        ensures value { option_copied result ≡ exchange_at x self.now }
        ensures numbered { IfSome result (λ e. e.now.x ≡ x) }
    {
        match self.open.get(&x) {
            Some(place) => exchange_in(place),
            None => None,
        }
    }
}

fn exchange_in(place: &Option<Box<Exchange>>) -> Option<&Exchange>
    ensures { option_copied result ≡ exchange_in place.now }
{
    match place {
        Some(e) => Some(&**e),
        None => None,
    }
}

fn number_in(numbers: &[u64], place: usize) -> Option<u64>
    ensures { result ≡ slice_get numbers.now place }
{
    numbers.get(place).copied()
}

type Index = HashMap<HashBinary, Vec<u64>, SeededState>;

// An exchange isn't at a key any more. A key that none is at isn't kept.
fn leave_key(by_key: &mut Index, x: u64, key: &HashBinary)
    ensures { keys_in by_key.new ≡ with_numbers key.now (others x (numbers_of key.now (keys_in by_key.old))) (keys_in by_key.old) }
{
    let is_last = match by_key.get_mut(key) {
        None => false,
        Some(numbers) => remove_number(numbers, x),
    };
    if is_last {
        let _numbers = by_key.remove(key);
    }
}

// The same of a key that it may have.
fn leave_if(by_key: &mut Index, x: u64, key: &Option<HashBinary>)
    ensures { keys_in by_key.new ≡ keys_left x key.now (keys_in by_key.old) }
{
    if let Some(key) = key {
        leave_key(by_key, x, key);
    }
}

fn join_key(alloc: Global, by_key: &mut Index, x: u64, key: &HashBinary) -> Result<(), AllocError>
    requires { IsIndex (keys_in by_key.old) }
    ensures ok { OnOk result (keys_in by_key.new ≡ with_numbers key.now (added x (numbers_of key.now (keys_in by_key.old))) (keys_in by_key.old)) }
    ensures err { OnErr result (keys_in by_key.new ≡ keys_in by_key.old) }
{
    match by_key.get_mut(key) {
        Some(numbers) => add_number(numbers, x),
        None => insert_first(alloc, by_key, x, key),
    }
}

fn insert_first(
    alloc: Global,
    by_key: &mut Index,
    x: u64,
    key: &HashBinary,
) -> Result<(), AllocError>
    ensures ok { OnOk result (keys_in by_key.new ≡ insert (keys_in by_key.old) key.now (x ∷ [])) }
    ensures err { OnErr result (keys_in by_key.new ≡ keys_in by_key.old) }
{
    let mut numbers = Vec::with_capacity(alloc, 1)?;
    numbers.push_reserved(x);
    by_key.insert(*key, numbers)?;
    Ok(())
}

// Adds a number among rising ones, once: mostly behind them, as numbers rise.
fn add_number(numbers: &mut Vec<u64>, x: u64) -> Result<(), AllocError>
    requires { IsRising numbers.old.items }
    ensures ok { OnOk result (numbers.new.items ≡ added x numbers.old.items) }
    ensures err { OnErr result (numbers.new.items ≡ numbers.old.items) }
{
    match numbers.binary_search(&x) {
        Ok(_) => Ok(()),
        Err(place) => {
            numbers.insert(place, x)?;
            Ok(())
        }
    }
}

// Removes a number. Returns whether none is left.
fn remove_number(numbers: &mut Vec<u64>, x: u64) -> bool
    ensures left { numbers.new.items ≡ others x numbers.old.items }
    ensures none { result ≡ (length numbers.new.items == 0) }
{
    numbers.retain(|y| *y != x);
    numbers.as_slice().is_empty()
}
