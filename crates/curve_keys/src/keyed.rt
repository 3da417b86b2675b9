//! A curve that is fed requests by their keys.
ghost use Rattle.std.specs.Prelude.{◌≡◌, ℕ, ◌-◌, ◌<◌, ◌≤◌, ◌^◌, true, List, [], ◌∷◌, ◌++◌, length, slice_index, slice_index_or, map, Some, None, is_some, IsSome, IfOk, IfErr, OnOk, OnErr};
ghost use Rattle.std.specs.List.{AllByRecursion};
ghost use Rattle.cache_entries.specs.declared.entry.CacheEntryKey.{CacheEntryKey};
ghost use Rattle.curve_sizes.specs.Requests.{Request, asks, removes, is_among, AreFirst};
ghost use Rattle.curve_timed.specs.Timed.{timed_of};
ghost use Rattle.curve_timed.specs.Rows.{AreFresh};
ghost use Rattle.curve_sizes.specs.Rows.{empty_row, limits_of};
ghost use Rattle.curve_held.specs.Held.{AreHeld};
ghost use Rattle.curve_held.specs.Faults.{IsWalkFault};
ghost use Rattle.curve_sizes.specs.declared.fault.CurveFault.TheVariants.{TooMany};
ghost use Rattle.curve_timed.specs.Marks.{AreMarks, HasMarkRows};
ghost use Rattle.curve_keys.specs.Keys.{keyed, number_of, IsFedKeys, IsNumbered, AreSameLimits};
ghost use Rattle.curve_keys.specs.Misses.{is_hit};
ghost use Rattle.curve_keys.specs.Pasts.{repeated, asked_known};
ghost use Rattle.curve_keys.specs.Repeats.{AreRepeats};
ghost use Rattle.curve_timed.specs.Counting.{IsFedTimed};
ghost use Rattle.curve_sizes.specs.Numbers.{numbered, mark_of};

use crate::repeats::Repeats;
use curve_held::HeldRow;
use curve_sizes::{CurveFault, SizeCurve, When};
use curve_timed::{Every, FreshRow, Mark, TimedCurve};
use seeded_hashing::SeededState;
use std::alloc::{AllocError, Global};
use std::collections::HashMap;

/// What caches find of requests by keys, as they go on. Each key has a number; the hashes of the keys start as the caller says.
#[derive(Drop)]
pub struct KeyedCurve {
    curve: TimedCurve,
    numbers: HashMap<Vec<u8>, u32, SeededState>,
    repeats: Repeats,
    // An ask ended halfway, so nothing is known of the counts.
    pub(crate) is_broken: bool,
}

impl KeyedCurve {
    /// A curve at these limits that was fed nothing; of fresh finds too where `is_timed`, and with marks where spans have a length.
    pub fn new(
        alloc: Global,
        hasher: SeededState,
        limits: &[u64],
        watermark: Option<u64>,
        is_timed: bool,
        every: Option<Every>,
    ) -> Result<KeyedCurve, AllocError>
        requires { (i j : ℕ) (d : ℕ) → i ≤ j → j < length limits.now → slice_index_or limits.now i d ≤ slice_index_or limits.now j d }
        ensures fed { IfOk result (λ c. IsFedKeys c []) }
        ensures table { IfOk result (λ c. c.curve.curve.table ≡ map empty_row limits.now) }
        ensures mark { IfOk result (λ c. mark_of c.curve.curve.watermark ≡ watermark) }
        ensures every { IfOk result (λ c. c.curve.every ≡ every) }
        ensures timed { IfOk result (λ c. is_some c.curve.fresh ≡ is_timed) }
    {
        let numbers = HashMap::with_hasher(alloc, hasher);
        let curve = TimedCurve::new(alloc, limits, watermark, is_timed, every)?;
        let repeats = Repeats::new(alloc);
        Ok(KeyedCurve {
            curve,
            numbers,
            repeats,
            is_broken: false,
        })
    }

    // Counts a request that asks for a key, and returns the key's number.
    fn ask(&mut self, alloc: Global, key: &[u8], weight: u64, when: When) -> Result<u32, CurveFault>
        requires { (requests : List Request) × IsFedKeys self.old requests }
        ensures fed { OnOk result ((requests : List Request) → IsFedKeys self.old requests → IsFedKeys self.new (asks (keyed key.now) weight when ∷ requests)) }
        ensures mark { OnOk result (mark_of self.new.curve.curve.watermark ≡ mark_of self.old.curve.curve.watermark) }
        ensures limits { OnOk result (limits_of self.new.curve.curve.table ≡ limits_of self.old.curve.curve.table) }
        ensures every { OnOk result (self.new.curve.every ≡ self.old.curve.every) }
        ensures timed { OnOk result (is_some self.new.curve.fresh ≡ is_some self.old.curve.fresh) }
        ensures number { IfOk result (λ n. number_of self.new.numbers key.now ≡ Some n) }
    {
        let number = number_for(&mut self.numbers, alloc, key, self.curve.curve().entries())?;
        ask_entry(
            &mut self.curve,
            &mut self.repeats,
            alloc,
            number,
            weight,
            when,
        )?;
        Ok(number)
    }

    // Counts so many requests that ask for the key of a number.
    fn ask_number(
        &mut self,
        alloc: Global,
        number: u32,
        weight: u64,
        when: When,
        times: u64,
    ) -> Result<(), CurveFault>
        requires fed { (requests : List Request) × IsFedKeys self.old requests }
        requires within { number < length self.old.curve.curve.weights.items }
        ensures fed { OnOk result ((key : List ℕ) (requests : List Request) → number_of self.old.numbers key ≡ Some number → IsFedKeys self.old requests
            → IsFedKeys self.new (repeated times (asks (keyed key) weight when) requests)) }
        ensures same { OnOk result (AreSameLimits self.old self.new) }
        ensures some { OnErr result (0 < times) }
    {
        for _ in 0..times {
            ask_entry(
                &mut self.curve,
                &mut self.repeats,
                alloc,
                number,
                weight,
                when,
            )?;
        }
        Ok(())
    }

    // Counts so many requests that ask for a key, one at least.
    fn ask_some(
        &mut self,
        alloc: Global,
        key: &[u8],
        weight: u64,
        when: When,
        times: u64,
    ) -> Result<(), CurveFault>
        requires some { 0 < times }
        requires fed { (requests : List Request) × IsFedKeys self.old requests }
        ensures fed { OnOk result ((requests : List Request) → IsFedKeys self.old requests → IsFedKeys self.new (repeated times (asks (keyed key.now) weight when) requests)) }
        ensures same { OnOk result (AreSameLimits self.old self.new) }
    {
        let number = self.ask(alloc, key, weight, when)?;
        self.ask_number(alloc, number, weight, when, times - 1)?;
        Ok(())
    }

    /// Counts so many requests that ask for a key.
    ///
    /// # Errors
    ///
    /// Where one of them isn't counted, as `TimedCurve::ask` says, or there are no more numbers for keys (`TooMany`); never where there is
    /// none. The curve is broken then, and of no more use: no requests were fed to it.
    pub fn ask_times(
        &mut self,
        alloc: Global,
        key: &[u8],
        weight: u64,
        when: When,
        times: u64,
    ) -> Result<(), CurveFault>
        requires { (requests : List Request) × IsFedKeys self.old requests }
        ensures fed { OnOk result ((requests : List Request) → IsFedKeys self.old requests → IsFedKeys self.new (repeated times (asks (keyed key.now) weight when) requests)) }
        ensures same { OnOk result (AreSameLimits self.old self.new) }
        ensures some { OnErr result (0 < times) }
        ensures err { OnErr result (self.new.is_broken ≡ true) }
    {
        if times == 0 {
            return Ok(());
        }
        let done = self.ask_some(alloc, key, weight, when, times);
        if done.is_err() {
            self.is_broken = true;
        }
        done
    }

    // Counts so many requests that ask for the key of a number by the weight that it has.
    fn ask_own(
        &mut self,
        alloc: Global,
        number: u32,
        when: When,
        times: u64,
    ) -> Result<(), CurveFault>
        requires fed { (requests : List Request) × IsFedKeys self.old requests }
        requires within { number < length self.old.curve.curve.weights.items }
        ensures fed { OnOk result ((key : List ℕ) (requests : List Request) → number_of self.old.numbers key ≡ Some number → IsFedKeys self.old requests
            → IsFedKeys self.new (repeated times (asks (keyed key) (slice_index self.old.curve.curve.weights.items number) when) requests)) }
        ensures same { OnOk result (AreSameLimits self.old self.new) }
        ensures some { OnErr result (0 < times) }
        ensures err { OnErr result (self.new.is_broken ≡ true) }
    {
        let weight = self.curve.curve().weight(number);
        let done = self.ask_number(alloc, number, weight, when, times);
        if done.is_err() {
            self.is_broken = true;
        }
        done
    }

    /// Counts so many requests that ask for a key by the weight that it has, and returns whether it has one. Nothing is done where it wasn't
    /// asked for.
    ///
    /// # Errors
    ///
    /// Where one of them isn't counted, as `TimedCurve::ask` says; never where there is none. The curve is broken then, and of no more
    /// use: no requests were fed to it.
    pub fn ask_known(
        &mut self,
        alloc: Global,
        key: &[u8],
        when: When,
        times: u64,
    ) -> Result<bool, CurveFault>
        requires { (requests : List Request) × IsFedKeys self.old requests }
        ensures fed { IfOk result (λ yes. (requests : List Request) → IsFedKeys self.old requests
            → (yes ≡ is_among (keyed key.now) requests) × IsFedKeys self.new (asked_known key.now when times requests)) }
        ensures same { OnOk result (AreSameLimits self.old self.new) }
        ensures some { OnErr result (0 < times) }
        ensures err { OnErr result (self.new.is_broken ≡ true) }
    {
        match number_in(&self.numbers, key) {
            None => Ok(false),
            Some(number) => {
                self.ask_own(alloc, number, when, times)?;
                Ok(true)
            }
        }
    }

    /// Counts the removal of a key. Nothing is done where it wasn't asked for.
    ///
    /// # Errors
    ///
    /// `TooMany` where 2^64 - 1 removals were counted; the curve is as before.
    pub fn remove(&mut self, alloc: Global, key: &[u8]) -> Result<(), CurveFault>
        requires { (requests : List Request) × IsFedKeys self.old requests }
        ensures fed { OnOk result ((requests : List Request) → IsFedKeys self.old requests → IsFedKeys self.new (removes (keyed key.now) ∷ requests)) }
        ensures mark { OnOk result (mark_of self.new.curve.curve.watermark ≡ mark_of self.old.curve.curve.watermark) }
        ensures limits { OnOk result (limits_of self.new.curve.curve.table ≡ limits_of self.old.curve.curve.table) }
        ensures every { OnOk result (self.new.curve.every ≡ self.old.curve.every) }
        ensures timed { OnOk result (is_some self.new.curve.fresh ≡ is_some self.old.curve.fresh) }
        ensures fault { IfErr result (λ fault. (fault ≡ TooMany) × (self.old.curve.curve.totals.removed ≡ 2 ^ 64 - 1)) }
        ensures err { OnErr result (self.new ≡ self.old) }
    {
        if let Some(number) = self.numbers.get(key) {
            self.curve.remove(alloc, *number)?;
        }
        Ok(())
    }

    /// Whether the limit of a number serves a request for a key: it holds it, and fresh where fresh finds are counted.
    pub fn is_hit(&self, key: &[u8], at: usize, moment: u64) -> bool
        requires { (requests : List Request) × IsFedKeys self.now requests }
        ensures { self.now.curve.fresh ≡ None → (requests : List Request) → IsFedKeys self.now requests → (weight : CacheEntryKey → ℕ) → AreFirst weight requests
            → at < length self.now.curve.curve.table
            → result ≡ is_hit weight (slice_index (limits_of self.now.curve.curve.table) at) (mark_of self.now.curve.curve.watermark) key.now requests }
    {
        match number_in(&self.numbers, key) {
            None => false,
            Some(number) => self.curve.is_hit(number, at, moment),
        }
    }

    /// The curve by numbers.
    pub fn curve(&self) -> &SizeCurve
        ensures { result.now ≡ self.now.curve.curve }
    {
        self.curve.curve()
    }

    /// The keys that are asked for more than once.
    pub fn repeats(&self) -> &Repeats
        ensures { result.now ≡ self.now.repeats }
    {
        &self.repeats
    }

    /// What is found fresh under each limit; nothing where that isn't asked for.
    pub fn fresh_rows(&self, alloc: Global) -> Result<Vec<FreshRow>, AllocError>
        requires { (requests : List Request) × IsFedKeys self.now requests }
        ensures rows { IfOk result (λ rows. (requests : List Request) → IsFedKeys self.now requests → (weight : CacheEntryKey → ℕ) → AreFirst weight requests
            → AreFresh weight (mark_of self.now.curve.curve.watermark) (timed_of requests) rows.items) }
        ensures limits { IsSome self.now.curve.fresh → IfOk result (λ rows. map (λ r. r.limit) rows.items ≡ limits_of self.now.curve.curve.table) }
    {
        let rows = self.curve.fresh_rows(alloc)?;
        Ok(rows)
    }

    /// The marks.
    pub fn marks(&self) -> &[Mark]
        ensures value { result.now ≡ self.now.curve.marks.items }
        ensures rows { (requests : List Request) → IsFedKeys self.now requests
            → AllByRecursion (HasMarkRows (limits_of self.now.curve.curve.table) (is_some self.now.curve.fresh)) result.now }
        ensures marks { (requests : List Request) → IsFedKeys self.now requests → (weight : CacheEntryKey → ℕ) → AreFirst weight requests
            → AreMarks weight (mark_of self.now.curve.curve.watermark) self.now.curve.every requests result.now }
    {
        self.curve.marks()
    }

    /// What is held under each limit, and when it was full first.
    ///
    /// # Errors
    ///
    /// `Memory`, and `TooMany` where there are 2^32 keys or more.
    pub fn held_rows(&self, alloc: Global) -> Result<Vec<HeldRow>, CurveFault>
        requires { (requests : List Request) × IsFedKeys self.now requests }
        ensures held { IfOk result (λ rows. (requests : List Request) → IsFedKeys self.now requests → (weight : CacheEntryKey → ℕ) → AreFirst weight requests
            → AreHeld weight (mark_of self.now.curve.curve.watermark) requests (limits_of self.now.curve.curve.table) rows.items) }
        ensures fault { IfErr result (IsWalkFault (length self.now.curve.curve.weights.items)) }
    {
        let rows = self.curve.held_rows(alloc)?;
        Ok(rows)
    }
}

// Counts a request for an entry: one of those that were asked for, or the next number.
fn ask_entry(
    curve: &mut TimedCurve,
    repeats: &mut Repeats,
    alloc: Global,
    entry: u32,
    weight: u64,
    when: When,
) -> Result<(), CurveFault>
    requires within { entry ≤ length curve.old.curve.weights.items }
    requires fed { (numbers : List Request) × IsFedTimed curve.old numbers × AreRepeats curve.old.curve.weights.items repeats.old numbers }
    ensures fed { OnOk result ((numbers : List Request) → IsFedTimed curve.old numbers → IsFedTimed curve.new (asks (numbered entry) weight when ∷ numbers)) }
    ensures repeats { OnOk result ((numbers : List Request) → IsFedTimed curve.old numbers → AreRepeats curve.old.curve.weights.items repeats.old numbers
        → AreRepeats curve.new.curve.weights.items repeats.new (asks (numbered entry) weight when ∷ numbers)) }
    ensures mark { OnOk result (mark_of curve.new.curve.watermark ≡ mark_of curve.old.curve.watermark) }
    ensures limits { OnOk result (limits_of curve.new.curve.table ≡ limits_of curve.old.curve.table) }
    ensures known { entry < length curve.old.curve.weights.items → OnOk result (curve.new.curve.weights.items ≡ curve.old.curve.weights.items) }
    ensures next { entry ≡ length curve.old.curve.weights.items → OnOk result (curve.new.curve.weights.items ≡ curve.old.curve.weights.items ++ weight ∷ []) }
    ensures every { OnOk result (curve.new.every ≡ curve.old.every) }
    ensures timed { OnOk result (is_some curve.new.fresh ≡ is_some curve.old.fresh) }
{
    curve.ask(alloc, entry, weight, when)?;
    let own = curve.curve().weight(entry);
    repeats.ask(alloc, entry, own)?;
    Ok(())
}

// The number of a key, where it has one.
fn number_in(numbers: &HashMap<Vec<u8>, u32, SeededState>, key: &[u8]) -> Option<u32>
    ensures { result ≡ number_of numbers.now key.now }
{
    numbers.get(key).copied()
}

// The number of a key; the next one where it has none.
fn number_for(
    numbers: &mut HashMap<Vec<u8>, u32, SeededState>,
    alloc: Global,
    key: &[u8],
    next: usize,
) -> Result<u32, CurveFault>
    ensures { IfOk result (λ n. IsNumbered (number_of numbers.old) (number_of numbers.new) key.now next n) }
{
    if let Some(number) = numbers.get(key) {
        return Ok(*number);
    }
    let Ok(number) = u32::try_from(next) else {
        return Err(CurveFault::TooMany);
    };
    let mut owned = Vec::with_capacity(alloc, key.len())?;
    owned.extend_from_slice(key)?;
    numbers.insert(owned, number)?;
    Ok(number)
}
