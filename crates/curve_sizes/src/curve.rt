//! A curve that is fed one request after another.
ghost use Rattle.std.specs.Prelude.{◌≡◌, ◌≢◌, ◌⊎◌, ℕ, ◌-◌, ◌<◌, ◌≤◌, ◌^◌, nat_le, true, List, [], ◌∷◌, ◌++◌, length, map, slice_index, slice_index_or, Some, None, IfSome, IfOk, IfErr, OnOk, OnErr};
ghost use Rattle.cache_entries.specs.declared.entry.CacheEntryKey.{CacheEntryKey};
ghost use Rattle.curve_loads.specs.Steps.{has_row, held};
ghost use Rattle.curve_heights.specs.Places.{asked};
ghost use Rattle.curve_heights.specs.Slots.{nobody};
ghost use Rattle.curve_sizes.specs.Numbers.{IsFed, numbered, rows_after, mark_of, is_found, Agrees};
ghost use Rattle.curve_sizes.specs.Requests.{Request, asks, removes, steps_of, asked_in, removed_in, entries_in};
ghost use Rattle.curve_sizes.specs.Rows.{empty_row, limits_of, HasRoom};
ghost use Rattle.curve_sizes.specs.Faults.{own_of, MayAsk, IsAskFault, IsMarkFault};
ghost use Rattle.curve_sizes.specs.declared.when.When.{When};
ghost use Rattle.curve_sizes.specs.declared.fault.CurveFault.TheVariants.{TooMany, TooHeavy};

use crate::fault::CurveFault;
use crate::row::CurveRow;
use crate::table::Table;
use crate::totals::{Totals, add_ask, add_removal};
use crate::watermark::{Watermark, ask_marked, is_past_mark, marked, remove_marked};
use curve_heights::TraceHeights;
use std::alloc::{AllocError, Global};

/// What caches find, as requests go on.
#[derive(Drop)]
pub struct SizeCurve {
    table: Table,
    by_weight: TraceHeights,
    watermark: Option<Watermark>,
    // Of each entry, by its number, what its first request says.
    weights: Vec<u64>,
    totals: Totals,
    // An ask ended halfway, so nothing is known of the counts.
    is_broken: bool,
}

impl SizeCurve {
    /// A curve at these limits that was fed nothing.
    pub fn new(
        alloc: Global,
        limits: &[u64],
        watermark: Option<u64>,
    ) -> Result<SizeCurve, AllocError>
        requires { (i j : ℕ) (d : ℕ) → i ≤ j → j < length limits.now → slice_index_or limits.now i d ≤ slice_index_or limits.now j d }
        ensures fed { IfOk result (λ c. IsFed c []) }
        ensures table { IfOk result (λ c. c.table ≡ map empty_row limits.now) }
        ensures mark { IfOk result (λ c. mark_of c.watermark ≡ watermark) }
    {
        Ok(SizeCurve {
            table: Table::new(alloc, limits)?,
            by_weight: TraceHeights::new(alloc),
            watermark: marked(alloc, watermark),
            weights: Vec::new(alloc),
            totals: Totals {
                asks: 0,
                removed: 0,
                odd: 0,
                bytes: 0,
                said: 0,
            },
            is_broken: false,
        })
    }

    /// How many entries were asked for.
    pub fn entries(&self) -> usize
        ensures value { result ≡ length self.now.weights.items }
        ensures counted { (requests : List Request) → IsFed self.now requests → result ≡ entries_in requests }
    {
        self.weights.len()
    }

    /// How many limits there are.
    pub fn limits(&self) -> usize
        ensures { result ≡ length self.now.table }
    {
        self.table.len()
    }

    /// What an entry weighs that was asked for: what its first request says.
    pub fn weight(&self, entry: u32) -> u64
        requires { entry < length self.now.weights.items }
        ensures { result ≡ slice_index self.now.weights.items entry }
    {
        self.weights[entry as usize]
    }

    /// How many requests were counted.
    pub fn totals(&self) -> Totals
        ensures value { result ≡ self.now.totals }
        ensures asks { (requests : List Request) → IsFed self.now requests → result.asks ≡ asked_in requests }
        ensures removed { (requests : List Request) → IsFed self.now requests → result.removed ≡ removed_in requests }
    {
        self.totals
    }

    /// The rows.
    pub fn rows(&self, alloc: Global) -> Result<Vec<CurveRow>, AllocError>
        ensures { IfOk result (λ rows. rows.items ≡ self.now.table) }
    {
        self.table.rows(alloc)
    }

    /// Which limit is the first that holds an entry now; their number where none does.
    pub fn first_held(&self, entry: u32) -> usize
        ensures within { result ≤ length self.now.table }
        ensures first { (requests : List Request) → IsFed self.now requests → (weight : CacheEntryKey → ℕ) → Agrees weight self.now.weights.items → (k : ℕ) → k < length self.now.table
            → nat_le result k ≡ has_row (numbered entry) (held weight (slice_index (limits_of self.now.table) k) (mark_of self.now.watermark) (steps_of requests)) }
    {
        let height = self.by_weight.height(entry);
        let is_past = is_past_mark(&self.watermark, entry);
        first_at(&self.table, height, is_past)
    }

    /// Counts a request for an entry: one of those that were asked for, or the next number. Returns which limit is the first that held it;
    /// their number where none did.
    ///
    /// # Errors
    ///
    /// `TooHeavy` where entries and holes would then weigh 2^64 or more, `TooMany` where a count or the numbers are spent, and `Memory`
    /// only where neither holds. The curve is as before, or broken, and then it is of no more use: no requests were fed to it.
    pub fn ask(&mut self, alloc: Global, entry: u32, weight: u64) -> Result<usize, CurveFault>
        requires { entry ≤ length self.old.weights.items }
        ensures fed { OnOk result ((requests : List Request) (when : When) → IsFed self.old requests → IsFed self.new (asks (numbered entry) weight when ∷ requests)) }
        ensures first { IfOk result (λ first. (requests : List Request) → IsFed self.old requests → (weight : CacheEntryKey → ℕ) → Agrees weight self.old.weights.items
            → (k : ℕ) → k < length self.old.table → nat_le first k ≡ has_row (numbered entry) (held weight (slice_index (limits_of self.old.table) k) (mark_of self.old.watermark) (steps_of requests))) }
        ensures mark { OnOk result (mark_of self.new.watermark ≡ mark_of self.old.watermark) }
        ensures limits { OnOk result (limits_of self.new.table ≡ limits_of self.old.table) }
        ensures known { entry < length self.old.weights.items → OnOk result (self.new.weights.items ≡ self.old.weights.items) }
        ensures next { entry ≡ length self.old.weights.items → OnOk result (self.new.weights.items ≡ self.old.weights.items ++ weight ∷ []) }
        ensures may { OnOk result (MayAsk self.old entry weight) }
        ensures fault { IfErr result (IsAskFault self.old entry weight) }
        ensures err { OnErr result ((self.new ≡ self.old) ⊎ (self.new.is_broken ≡ true)) }
        ensures heavy { IfErr result (λ fault. fault ≡ TooHeavy → self.new ≡ self.old) }
    {
        let own = own_weight(self.weights.as_slice(), entry, weight);
        if self.totals.asks == u64::MAX {
            return Err(CurveFault::TooMany);
        }
        if !self.table.has_room(own) {
            return Err(CurveFault::TooMany);
        }
        let height = self.by_weight.height(entry);
        let is_past = is_past_mark(&self.watermark, entry);
        self.by_weight.ask(alloc, entry, own)?;
        match follow(alloc, &mut self.weights, &mut self.watermark, entry, weight) {
            Ok(()) => {
                let first = count(&mut self.table, height, is_past, own);
                add_ask(&mut self.totals, own, weight);
                Ok(first)
            }
            Err(fault) => {
                self.is_broken = true;
                Err(fault)
            }
        }
    }

    /// Counts the removal of an entry that was asked for.
    pub fn remove(&mut self, alloc: Global, entry: u32) -> Result<(), CurveFault>
        requires { entry < length self.old.weights.items }
        ensures fed { OnOk result ((requests : List Request) → IsFed self.old requests → IsFed self.new (removes (numbered entry) ∷ requests)) }
        ensures mark { OnOk result (mark_of self.new.watermark ≡ mark_of self.old.watermark) }
        ensures limits { OnOk result (limits_of self.new.table ≡ limits_of self.old.table) }
        ensures same { OnOk result (self.new.weights.items ≡ self.old.weights.items) }
        ensures counts { OnOk result (self.old.totals.removed < 2 ^ 64 - 1) }
        ensures fault { IfErr result (λ fault. (fault ≡ TooMany) × (self.old.totals.removed ≡ 2 ^ 64 - 1)) }
        ensures err { OnErr result (self.new ≡ self.old) }
    {
        add_removal(&mut self.totals)?;
        self.by_weight.remove(alloc, entry)?;
        remove_marked(alloc, &mut self.watermark, entry)?;
        Ok(())
    }
}

// What an entry weighs: what its first request says.
fn own_weight(weights: &[u64], entry: u32, weight: u64) -> u64
    requires { entry ≤ length weights.now }
    ensures { result ≡ own_of weights.now entry weight }
{
    if entry as usize == weights.len() {
        weight
    } else {
        weights[entry as usize]
    }
}

// What comes after an entry was put first by weight: it is put first by number, and a new one's weight is kept.
#[tactic(auto, using(crate::proofs::FaultLaws::memory_is))]
fn follow(
    alloc: Global,
    weights: &mut Vec<u64>,
    watermark: &mut Option<Watermark>,
    entry: u32,
    weight: u64,
) -> Result<(), CurveFault>
    requires { entry ≢ nobody }
    ensures old { entry < length weights.old.items → OnOk result (weights.new.items ≡ weights.old.items) }
    ensures first { entry ≡ length weights.old.items → OnOk result (weights.new.items ≡ weights.old.items ++ weight ∷ []) }
    ensures none { watermark.old ≡ None → watermark.new ≡ None }
    ensures some { OnOk result (IfSome watermark.old (λ m. watermark.new ≡ Some (record m { heights = asked entry 1 m.heights }))) }
    ensures fault { IfErr result (IsMarkFault watermark.old entry) }
{
    ask_marked(alloc, watermark, entry)?;
    if entry as usize == weights.len() {
        weights.push(weight)?;
    }
    Ok(())
}

// Which limit is the first that holds an entry of that height.
fn first_at(table: &Table, height: Option<u64>, is_past: bool) -> usize
    ensures within { result ≤ length table.now }
    ensures first { (k : ℕ) → k < length table.now → nat_le result k ≡ is_found height is_past (slice_index (limits_of table.now) k) }
{
    match height {
        None => table.len(),
        Some(height) => {
            if is_past {
                table.len()
            } else {
                table.first(height)
            }
        }
    }
}

// Counts a request for an entry of that height, and returns which limit is the first that held it.
fn count(table: &mut Table, height: Option<u64>, is_past: bool, weight: u64) -> usize
    requires { HasRoom weight table.old }
    ensures rows { table.new ≡ rows_after height is_past weight table.old }
    ensures limits { limits_of table.new ≡ limits_of table.old }
    ensures first { (k : ℕ) → k < length table.old → nat_le result k ≡ is_found height is_past (slice_index (limits_of table.old) k) }
{
    match height {
        None => table.len(),
        Some(height) => {
            if is_past {
                table.len()
            } else {
                table.count(height, weight)
            }
        }
    }
}
