//! Requests as they go on.
ghost use Rattle.std.specs.Prelude.{◌≡◌, ℕ, ◌+◌, ◌-◌, ◌^◌, ◌<◌, ◌≤◌, ◌==◌, true, false, if◌then◌else◌, List, [], ◌∷◌, Option, length, slice_index, slice_index_or, IfOk, IfErr, OnOk, OnErr};
ghost use Rattle.curve_sizes.specs.Requests.{Request, asks, removes};
ghost use Rattle.curve_sizes.specs.Numbers.{numbered};
ghost use Rattle.curve_sizes.specs.declared.when.When.{When};
ghost use Rattle.curve_sizes.specs.declared.fault.CurveFault.TheVariants.{TooMany};
ghost use Rattle.curve_held.specs.Faults.{IsAddFault, IsFillingFault};
ghost use Rattle.curve_held.specs.State.{AreRising, IsFilled, IsGrown};

use crate::full::note_full;
use crate::row::Full;
use curve_sizes::{CurveFault, When};
use std::alloc::{AllocError, Global};

/// Which entries are there, and when caches of each limit were full first, as requests go on.
#[derive(Drop)]
pub struct Filling {
    pub(crate) limits: Vec<u64>,
    most: Option<u64>,
    // Of each entry, by its number, whether it was asked for and not removed since.
    there: Vec<bool>,
    // And the moment at which it was asked for last.
    pub(crate) latest: Vec<u64>,
    // What the entries weigh that are there, and how many they are.
    weight: u64,
    number: u64,
    // How many requests asked.
    asks: u64,
    // Of the first limits, the request that put entries out first.
    pub(crate) full: Vec<Full>,
    // An ask ended halfway, so nothing is known of the counts.
    is_broken: bool,
}

impl Filling {
    /// Nothing was asked for yet.
    pub fn new(alloc: Global, limits: &[u64], most: Option<u64>) -> Result<Filling, AllocError>
        requires { AreRising limits.now }
        ensures { IfOk result (λ f. IsFilled [] limits.now most f []) }
    {
        let mut own = Vec::with_capacity(alloc, limits.len())?;
        own.extend_from_slice(limits)?;
        Ok(Filling {
            limits: own,
            most,
            there: Vec::new(alloc),
            latest: Vec::new(alloc),
            weight: 0,
            number: 0,
            asks: 0,
            full: Vec::new(alloc),
            is_broken: false,
        })
    }

    /// A request asks for an entry of that weight: one of those that were asked for, or the next number.
    ///
    /// # Errors
    ///
    /// `TooHeavy` where the entries that are there would weigh 2^64 or more, `TooMany` where their number or that of the requests is
    /// spent, and `Memory`. It is broken then, and of no more use: no requests were told to it.
    pub fn ask(&mut self, entry: u32, weight: u64, when: When) -> Result<(), CurveFault>
        requires within { entry ≤ length self.old.there.items }
        requires even { length self.old.latest.items ≡ length self.old.there.items }
        requires rising { AreRising self.old.limits.items }
        requires few { length self.old.full.items ≤ length self.old.limits.items }
        ensures filled { OnOk result ((ws ws' limits : List ℕ) (mark : Option ℕ) (w : ℕ) (requests : List Request) → IsGrown ws ws' entry w → weight ≡ slice_index ws' entry
            → IsFilled ws limits mark self.old requests → IsFilled ws' limits mark self.new (asks (numbered entry) w when ∷ requests)) }
        ensures fault { IfErr result (IsFillingFault self.old entry weight) }
        ensures err { OnErr result (self.new.is_broken ≡ true) }
    {
        let done = self.count(entry, weight, when);
        if done.is_err() {
            self.is_broken = true;
        }
        done
    }

    // Counts a request. Where it can't, some of the counts may have changed.
    fn count(&mut self, entry: u32, weight: u64, when: When) -> Result<(), CurveFault>
        requires within { entry ≤ length self.old.there.items }
        requires even { length self.old.latest.items ≡ length self.old.there.items }
        requires rising { AreRising self.old.limits.items }
        requires few { length self.old.full.items ≤ length self.old.limits.items }
        ensures filled { OnOk result ((ws ws' limits : List ℕ) (mark : Option ℕ) (w : ℕ) (requests : List Request) → IsGrown ws ws' entry w → weight ≡ slice_index ws' entry
            → IsFilled ws limits mark self.old requests → IsFilled ws' limits mark self.new (asks (numbered entry) w when ∷ requests)) }
        ensures fault { IfErr result (IsFillingFault self.old entry weight) }
    {
        let was_there = enter(
            &mut self.there,
            &mut self.latest,
            entry as usize,
            when.moment,
        )?;
        self.add(was_there, weight)?;
        let asks = next(self.asks)?;
        self.asks = asks;
        let now = Full {
            asks,
            moment: when.moment,
        };
        note_full(
            self.limits.as_slice(),
            self.most,
            self.weight,
            self.number,
            now,
            &mut self.full,
        )?;
        Ok(())
    }

    // One entry more of that weight, but where it was there.
    fn add(&mut self, was_there: bool, weight: u64) -> Result<(), CurveFault>
        ensures fault { IfErr result (IsAddFault was_there weight self.old) }
        ensures added { OnOk result (self.new ≡ record self.old { weight = self.old.weight + (if was_there then 0 else weight); number = self.old.number + (if was_there then 0 else 1) }) }
    {
        if was_there {
            return Ok(());
        }
        let Some(all) = self.weight.checked_add(weight) else {
            return Err(CurveFault::TooHeavy);
        };
        let number = next(self.number)?;
        self.weight = all;
        self.number = number;
        Ok(())
    }

    /// An entry of that weight is removed.
    pub fn remove(&mut self, entry: u32, weight: u64)
        ensures { (ws limits : List ℕ) (mark : Option ℕ) (requests : List Request) → entry < length ws → weight ≡ slice_index ws entry
            → IsFilled ws limits mark self.old requests → IsFilled ws limits mark self.new (removes (numbered entry) ∷ requests) }
    {
        if is_there(self.there.as_slice(), entry as usize) {
            self.there[entry as usize] = false;
            self.weight = self.weight.saturating_sub(weight);
            self.number = self.number.saturating_sub(1);
        }
    }
}

// Whether an entry is there.
fn is_there(there: &[bool], entry: usize) -> bool
    ensures value { result ≡ slice_index_or there.now entry false }
    ensures within { result ≡ true → entry < length there.now }
{
    if entry < there.len() {
        return there[entry];
    }
    false
}

// One more.
fn next(count: u64) -> Result<u64, CurveFault>
    ensures more { IfOk result (λ n. n ≡ count + 1) }
    ensures fault { IfErr result (λ fault. (fault ≡ TooMany) × (count ≡ 2 ^ 64 - 1)) }
{
    count.checked_add(1).ok_or(CurveFault::TooMany)
}

// Notes that an entry is there, and the moment at which it's asked for. Returns whether it was there.
fn enter(
    there: &mut Vec<bool>,
    latest: &mut Vec<u64>,
    entry: usize,
    moment: u64,
) -> Result<bool, AllocError>
    requires within { entry ≤ length there.old.items }
    requires even { length latest.old.items ≡ length there.old.items }
    ensures was { IfOk result (λ was. was ≡ slice_index_or there.old.items entry false) }
    ensures there { OnOk result ((n : ℕ) → slice_index_or there.new.items n false ≡ (if n == entry then true else slice_index_or there.old.items n false)) }
    ensures latest { OnOk result ((n : ℕ) → slice_index latest.new.items n ≡ (if n == entry then moment else slice_index latest.old.items n)) }
    ensures known { entry < length there.old.items → OnOk result (length there.new.items ≡ length there.old.items) }
    ensures next { entry ≡ length there.old.items → OnOk result (length there.new.items ≡ length there.old.items + 1) }
    ensures even { OnOk result (length latest.new.items ≡ length there.new.items) }
{
    if entry == there.len() {
        there.push(true)?;
        latest.push(moment)?;
        return Ok(false);
    }
    let was_there = there[entry];
    there[entry] = true;
    latest[entry] = moment;
    Ok(was_there)
}
