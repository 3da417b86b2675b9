//! A curve that is fed one request after another, at moments.
ghost use Rattle.std.specs.Prelude.{◌≡◌, ℕ, ◌-◌, ◌<◌, ◌≤◌, ◌^◌, ◌&&◌, true, List, [], ◌∷◌, ◌++◌, length, map, slice_index, slice_index_or, IfOk, IfErr, IsSome, OnOk, OnErr, is_some};
ghost use Rattle.cache_entries.specs.declared.entry.CacheEntryKey.{CacheEntryKey};
ghost use Rattle.curve_sizes.specs.Numbers.{numbered, mark_of, Agrees};
ghost use Rattle.curve_loads.specs.Steps.{has_row, held};
ghost use Rattle.curve_sizes.specs.Requests.{Request, asks, removes, steps_of};
ghost use Rattle.curve_sizes.specs.Rows.{empty_row, limits_of};
ghost use Rattle.curve_timed.specs.Timed.{timed_of};
ghost use Rattle.curve_timed.specs.Rows.{AreFresh};
ghost use Rattle.curve_timed.specs.Counting.{IsFedTimed, is_fresh_at};
ghost use Rattle.curve_timed.specs.Faults.{IsTimedFault};
ghost use Rattle.curve_held.specs.Held.{AreHeld};
ghost use Rattle.curve_held.specs.Faults.{IsWalkFault};
ghost use Rattle.curve_sizes.specs.declared.fault.CurveFault.TheVariants.{TooMany};

use crate::count::{count_fresh, is_fresh_at, table_for};
use crate::every::Every;
use crate::marking::{fresh_of, mark};
use crate::marks::Mark;
use crate::row::FreshRow;
use curve_held::{Filling, HeldRow};
use curve_runs::FreshTable;
use curve_sizes::{CurveFault, SizeCurve, When};
use std::alloc::{AllocError, Global};

/// What caches find, and what they find fresh if that is asked for, as requests go on.
#[derive(Drop)]
pub struct TimedCurve {
    curve: SizeCurve,
    fresh: Option<FreshTable>,
    filling: Filling,
    every: Option<Every>,
    // The span of the last request, where spans are wanted.
    span: Option<u64>,
    marks: Vec<Mark>,
    // An ask ended halfway, so nothing is known of the counts.
    is_broken: bool,
}

impl TimedCurve {
    /// A curve at these limits that was fed nothing; of fresh finds too where `is_timed`, and with marks where spans have a length.
    pub fn new(
        alloc: Global,
        limits: &[u64],
        watermark: Option<u64>,
        is_timed: bool,
        every: Option<Every>,
    ) -> Result<TimedCurve, AllocError>
        requires { (i j : ℕ) (d : ℕ) → i ≤ j → j < length limits.now → slice_index_or limits.now i d ≤ slice_index_or limits.now j d }
        ensures fed { IfOk result (λ c. IsFedTimed c []) }
        ensures table { IfOk result (λ c. c.curve.table ≡ map empty_row limits.now) }
        ensures mark { IfOk result (λ c. mark_of c.curve.watermark ≡ watermark) }
        ensures every { IfOk result (λ c. c.every ≡ every) }
        ensures timed { IfOk result (λ c. is_some c.fresh ≡ is_timed) }
    {
        let curve = SizeCurve::new(alloc, limits, watermark)?;
        let fresh = table_for(alloc, limits.len(), is_timed)?;
        let filling = Filling::new(alloc, limits, watermark)?;
        Ok(TimedCurve {
            curve,
            fresh,
            filling,
            every,
            span: None,
            marks: Vec::new(alloc),
            is_broken: false,
        })
    }

    /// The curve without moments.
    pub fn curve(&self) -> &SizeCurve
        ensures { result.now ≡ self.now.curve }
    {
        &self.curve
    }

    /// Counts a request for an entry: one of those that were asked for, or the next number.
    ///
    /// # Errors
    ///
    /// `TooHeavy` where entries and holes, or the entries that are there, would then weigh 2^64 or more, `TooMany` where a count, the
    /// numbers or the moments are spent, and `Memory`. The curve is broken then, and of no more use: no requests were fed to it.
    pub fn ask(
        &mut self,
        alloc: Global,
        entry: u32,
        weight: u64,
        when: When,
    ) -> Result<(), CurveFault>
        requires within { entry ≤ length self.old.curve.weights.items }
        requires fed { (requests : List Request) × IsFedTimed self.old requests }
        ensures fed { OnOk result ((requests : List Request) → IsFedTimed self.old requests → IsFedTimed self.new (asks (numbered entry) weight when ∷ requests)) }
        ensures mark { OnOk result (mark_of self.new.curve.watermark ≡ mark_of self.old.curve.watermark) }
        ensures limits { OnOk result (limits_of self.new.curve.table ≡ limits_of self.old.curve.table) }
        ensures known { entry < length self.old.curve.weights.items → OnOk result (self.new.curve.weights.items ≡ self.old.curve.weights.items) }
        ensures next { entry ≡ length self.old.curve.weights.items → OnOk result (self.new.curve.weights.items ≡ self.old.curve.weights.items ++ weight ∷ []) }
        ensures every { OnOk result (self.new.every ≡ self.old.every) }
        ensures timed { OnOk result (is_some self.new.fresh ≡ is_some self.old.fresh) }
        ensures fault { IfErr result (IsTimedFault self.old entry weight) }
        ensures err { OnErr result (self.new.is_broken ≡ true) }
    {
        let done = self.count(alloc, entry, weight, when);
        if done.is_err() {
            self.is_broken = true;
        }
        done
    }

    // Counts a request. Where it can't, some of the counts may have changed.
    fn count(
        &mut self,
        alloc: Global,
        entry: u32,
        weight: u64,
        when: When,
    ) -> Result<(), CurveFault>
        requires within { entry ≤ length self.old.curve.weights.items }
        requires fed { (requests : List Request) × IsFedTimed self.old requests }
        ensures fed { OnOk result ((requests : List Request) → IsFedTimed self.old requests → IsFedTimed self.new (asks (numbered entry) weight when ∷ requests)) }
        ensures mark { OnOk result (mark_of self.new.curve.watermark ≡ mark_of self.old.curve.watermark) }
        ensures limits { OnOk result (limits_of self.new.curve.table ≡ limits_of self.old.curve.table) }
        ensures known { entry < length self.old.curve.weights.items → OnOk result (self.new.curve.weights.items ≡ self.old.curve.weights.items) }
        ensures next { entry ≡ length self.old.curve.weights.items → OnOk result (self.new.curve.weights.items ≡ self.old.curve.weights.items ++ weight ∷ []) }
        ensures every { OnOk result (self.new.every ≡ self.old.every) }
        ensures timed { OnOk result (is_some self.new.fresh ≡ is_some self.old.fresh) }
        ensures fault { IfErr result (IsTimedFault self.old entry weight) }
    {
        mark(
            alloc,
            &self.curve,
            &self.fresh,
            &self.filling,
            self.every,
            &mut self.span,
            &mut self.marks,
            when.moment,
        )?;
        let first = self.curve.ask(alloc, entry, weight)?;
        let own = self.curve.weight(entry);
        count_fresh(alloc, &mut self.fresh, entry, own, first, when)?;
        self.filling.ask(entry, own, when)?;
        Ok(())
    }

    /// Counts the removal of an entry that was asked for.
    ///
    /// # Errors
    ///
    /// `TooMany` where 2^64 - 1 removals were counted; the curve is as before.
    pub fn remove(&mut self, alloc: Global, entry: u32) -> Result<(), CurveFault>
        requires { entry < length self.old.curve.weights.items }
        ensures fed { OnOk result ((requests : List Request) → IsFedTimed self.old requests → IsFedTimed self.new (removes (numbered entry) ∷ requests)) }
        ensures mark { OnOk result (mark_of self.new.curve.watermark ≡ mark_of self.old.curve.watermark) }
        ensures limits { OnOk result (limits_of self.new.curve.table ≡ limits_of self.old.curve.table) }
        ensures same { OnOk result (self.new.curve.weights.items ≡ self.old.curve.weights.items) }
        ensures every { OnOk result (self.new.every ≡ self.old.every) }
        ensures timed { OnOk result (is_some self.new.fresh ≡ is_some self.old.fresh) }
        ensures fault { IfErr result (λ fault. (fault ≡ TooMany) × (self.old.curve.totals.removed ≡ 2 ^ 64 - 1)) }
        ensures err { OnErr result (self.new ≡ self.old) }
    {
        let own = self.curve.weight(entry);
        self.curve.remove(alloc, entry)?;
        self.filling.remove(entry, own);
        Ok(())
    }

    /// Whether the limit of a number serves a request for an entry that was asked for: it holds it, and fresh where fresh finds are
    /// counted.
    pub fn is_hit(&self, entry: u32, at: usize, moment: u64) -> bool
        requires within { entry < length self.now.curve.weights.items }
        requires fed { (requests : List Request) × IsFedTimed self.now requests }
        ensures { (requests : List Request) → IsFedTimed self.now requests → (weight : CacheEntryKey → ℕ) → Agrees weight self.now.curve.weights.items
            → at < length self.now.curve.table
            → result ≡ (has_row (numbered entry) (held weight (slice_index (limits_of self.now.curve.table) at) (mark_of self.now.curve.watermark) (steps_of requests))
            && is_fresh_at self.now.fresh entry at moment) }
    {
        let first = self.curve.first_held(entry);
        let is_fresh = is_fresh_at(&self.fresh, entry, at, moment);
        first <= at && is_fresh
    }

    /// What is found fresh under each limit; nothing where that isn't asked for.
    pub fn fresh_rows(&self, alloc: Global) -> Result<Vec<FreshRow>, AllocError>
        requires { (requests : List Request) × IsFedTimed self.now requests }
        ensures rows { IfOk result (λ rows. (requests : List Request) → IsFedTimed self.now requests → (weight : CacheEntryKey → ℕ) → Agrees weight self.now.curve.weights.items
            → AreFresh weight (mark_of self.now.curve.watermark) (timed_of requests) rows.items) }
        ensures limits { IsSome self.now.fresh → IfOk result (λ rows. map (λ r. r.limit) rows.items ≡ limits_of self.now.curve.table) }
    {
        let rows = fresh_of(alloc, &self.curve, &self.fresh)?;
        Ok(rows)
    }

    /// The marks.
    pub fn marks(&self) -> &[Mark]
        ensures { result.now ≡ self.now.marks.items }
    {
        self.marks.as_slice()
    }

    /// What is held under each limit, and when it was full first.
    ///
    /// # Errors
    ///
    /// `Memory`, and `TooMany` where there are 2^32 entries or more.
    pub fn held_rows(&self, alloc: Global) -> Result<Vec<HeldRow>, CurveFault>
        requires { (requests : List Request) × IsFedTimed self.now requests }
        ensures held { IfOk result (λ rows. (requests : List Request) → IsFedTimed self.now requests → (weight : CacheEntryKey → ℕ) → Agrees weight self.now.curve.weights.items
            → AreHeld weight (mark_of self.now.curve.watermark) requests (limits_of self.now.curve.table) rows.items) }
        ensures fault { IfErr result (IsWalkFault (length self.now.curve.weights.items)) }
    {
        let rows = self.filling.rows(alloc, &self.curve)?;
        Ok(rows)
    }
}
