//! What caches find of the lines of a trace, one after another.
ghost use Rattle.std.specs.Prelude.{◌≡◌, ℕ, ◌≤◌, ◌<◌, length, slice_index, slice_index_or, map, true, None, is_some, IfOk, IfErr, OnOk, OnErr, ◌+◌, if◌then◌else◌};
ghost use Rattle.cache_entries.specs.declared.entry.CacheEntryKey.{CacheEntryKey};
ghost use Rattle.curve_sizes.specs.Requests.{AreFirst};
ghost use Rattle.curve_sizes.specs.Rows.{empty_row, limits_of};
ghost use Rattle.curve_sizes.specs.Numbers.{mark_of};
ghost use Rattle.curve_sizes.specs.declared.fault.CurveFault.TheVariants.{Memory, TooHeavy, TooMany};
ghost use Rattle.curve_keys.specs.Faults.{IsLineFault};
ghost use Rattle.curve_keys.specs.Keys.{AreSameLimits};
ghost use Rattle.curve_keys.specs.Misses.{is_hit, goes_on_by};
ghost use Rattle.curve_keys.specs.Pasts.{Past, nothing_read, IsRead, with_lifetime, told_in, onto, onto_by, line_for, is_said};
ghost use Rattle.curve_keys.specs.declared.said.Said.TheVariants.{Removal, Weight, Known, Told};

use crate::keyed::KeyedCurve;
use crate::said::{Said, is_said};
use crate::told::Lifetimes;
use curve_sizes::{CurveFault, When};
use curve_timed::Every;
use seeded_hashing::SeededState;
use std::alloc::{AllocError, Global};

/// What caches find of the lines of a trace, as they go on.
#[derive(Drop)]
pub struct Reading {
    /// The curve.
    pub curve: KeyedCurve,
    told: Lifetimes,
    /// How many lines asked for a key without a weight, and told none.
    pub unweighed: u64,
}

impl Reading {
    /// A curve at these limits, of no lines; of fresh finds too where `is_timed`, and with marks where spans have a length.
    pub fn new(
        alloc: Global,
        hasher: SeededState,
        limits: &[u64],
        watermark: Option<u64>,
        is_timed: bool,
        every: Option<Every>,
    ) -> Result<Reading, AllocError>
        requires { (i j : ℕ) (d : ℕ) → i ≤ j → j < length limits.now → slice_index_or limits.now i d ≤ slice_index_or limits.now j d }
        ensures read { IfOk result (λ r. IsRead r nothing_read) }
        ensures table { IfOk result (λ r. r.curve.curve.curve.table ≡ map empty_row limits.now) }
        ensures mark { IfOk result (λ r. mark_of r.curve.curve.curve.watermark ≡ watermark) }
        ensures every { IfOk result (λ r. r.curve.curve.every ≡ every) }
        ensures timed { IfOk result (λ r. is_some r.curve.curve.fresh ≡ is_timed) }
    {
        let curve = KeyedCurve::new(alloc, hasher, limits, watermark, is_timed, every)?;
        let told = Lifetimes::new(alloc, hasher);
        Ok(Reading {
            curve,
            told,
            unweighed: 0,
        })
    }

    // When a key is asked for: with the lifetime that it was told last, where the line has none.
    fn when_of(&self, key: &[u8], when: When) -> When
        ensures { result ≡ with_lifetime (told_in self.now.told key.now) when }
    {
        if when.lifetime == 0 {
            return When {
                moment: when.moment,
                lifetime: self.told.of(key),
            };
        }
        when
    }

    fn ask(
        &mut self,
        alloc: Global,
        key: &[u8],
        weight: u64,
        when: When,
        times: u64,
    ) -> Result<(), CurveFault>
        requires { (past : Past) × IsRead self.old past }
        ensures read { OnOk result ((past : Past) → IsRead self.old past
            → IsRead self.new (onto_by (Weight weight) (record { key = key.now; said = Weight weight; when = when; times = times }) past)) }
        ensures same { OnOk result (AreSameLimits self.old.curve self.new.curve) }
        ensures some { OnErr result (0 < times) }
    {
        let when = self.when_of(key, when);
        self.curve.ask_times(alloc, key, weight, when, times)?;
        Ok(())
    }

    fn ask_known(
        &mut self,
        alloc: Global,
        key: &[u8],
        when: When,
        times: u64,
    ) -> Result<(), CurveFault>
        requires { (past : Past) × IsRead self.old past }
        ensures read { OnOk result ((past : Past) → IsRead self.old past → IsRead self.new (onto_by Known (record { key = key.now; said = Known; when = when; times = times }) past)) }
        ensures same { OnOk result (AreSameLimits self.old.curve self.new.curve) }
        ensures fault { IfErr result (λ fault. fault ≡ TooHeavy → 0 < times) }
    {
        let when = self.when_of(key, when);
        let yes = self.curve.ask_known(alloc, key, when, times)?;
        let unweighed = counted(self.unweighed, yes)?;
        self.unweighed = unweighed;
        Ok(())
    }

    fn remove(
        &mut self,
        alloc: Global,
        key: &[u8],
        when: When,
        times: u64,
    ) -> Result<(), CurveFault>
        requires { (past : Past) × IsRead self.old past }
        ensures read { OnOk result ((past : Past) → IsRead self.old past → IsRead self.new (onto_by Removal (record { key = key.now; said = Removal; when = when; times = times }) past)) }
        ensures same { OnOk result (AreSameLimits self.old.curve self.new.curve) }
        ensures fault { IfErr result (λ fault. fault ≡ TooMany) }
    {
        self.curve.remove(alloc, key)?;
        Ok(())
    }

    fn tell(&mut self, alloc: Global, key: &[u8], when: When, times: u64) -> Result<(), CurveFault>
        ensures read { OnOk result ((past : Past) → IsRead self.old past → IsRead self.new (onto_by Told (record { key = key.now; said = Told; when = when; times = times }) past)) }
        ensures same { OnOk result (AreSameLimits self.old.curve self.new.curve) }
        ensures fault { IfErr result (λ fault. fault ≡ Memory) }
    {
        self.told.tell(alloc, key, when.lifetime)?;
        Ok(())
    }

    // Feeds what a line says of a key.
    fn feed_said(
        &mut self,
        alloc: Global,
        key: &[u8],
        said: Said,
        when: When,
        times: u64,
    ) -> Result<(), CurveFault>
        requires { (past : Past) × IsRead self.old past }
        ensures read { OnOk result ((past : Past) → IsRead self.old past → IsRead self.new (onto (line_for key.now said when times) past)) }
        ensures same { OnOk result (AreSameLimits self.old.curve self.new.curve) }
        ensures fault { IfErr result (IsLineFault said times) }
    {
        match said {
            Said::Removal => self.remove(alloc, key, when, times),
            Said::Weight(weight) => self.ask(alloc, key, weight, when, times),
            Said::Known => self.ask_known(alloc, key, when, times),
            Said::Told => self.tell(alloc, key, when, times),
            Said::Other => Ok(()),
            Said::Wrong => Ok(()),
        }
    }

    /// Whether what a line says of a key goes on from the limit of a number to the next cache: all but a request that it serves.
    pub fn goes_on(&self, at: usize, key: &[u8], said: Said, when: When) -> bool
        requires { (past : Past) × IsRead self.now past }
        ensures { self.now.curve.curve.fresh ≡ None → (past : Past) → IsRead self.now past → (weight : CacheEntryKey → ℕ) → AreFirst weight past.requests
            → at < length self.now.curve.curve.curve.table
            → result ≡ goes_on_by said (is_hit weight (slice_index (limits_of self.now.curve.curve.curve.table) at) (mark_of self.now.curve.curve.curve.watermark) key.now past.requests) }
    {
        match said {
            Said::Weight(_) | Said::Known => !self.curve.is_hit(key, at, when.moment),
            Said::Removal | Said::Told => true,
            Said::Other | Said::Wrong => false,
        }
    }

    /// Feeds what a line says of a key, and returns whether that is anything.
    ///
    /// # Errors
    ///
    /// `TooHeavy` where entries would weigh 2^64 or more, which a line says that asks, `TooMany` where a count, the numbers or the moments
    /// are spent, and `Memory`. The curve is broken then, and of no more use: nothing was read.
    pub fn feed(
        &mut self,
        alloc: Global,
        key: &[u8],
        said: Said,
        when: When,
        times: u64,
    ) -> Result<bool, CurveFault>
        requires { (past : Past) × IsRead self.old past }
        ensures read { OnOk result ((past : Past) → IsRead self.old past → IsRead self.new (onto (line_for key.now said when times) past)) }
        ensures told { IfOk result (λ yes. yes ≡ is_said said) }
        ensures same { OnOk result (AreSameLimits self.old.curve self.new.curve) }
        ensures fault { IfErr result (IsLineFault said times) }
        ensures err { OnErr result (self.new.curve.is_broken ≡ true) }
    {
        match self.feed_said(alloc, key, said, when, times) {
            Ok(()) => Ok(is_said(said)),
            Err(fault) => {
                self.curve.is_broken = true;
                Err(fault)
            }
        }
    }
}

// One line more, but where `yes`.
fn counted(count: u64, yes: bool) -> Result<u64, CurveFault>
    ensures more { IfOk result (λ n. n ≡ count + (if yes then 0 else 1)) }
    ensures fault { IfErr result (λ fault. fault ≡ TooMany) }
{
    if yes {
        return Ok(count);
    }
    count.checked_add(1).ok_or(CurveFault::TooMany)
}
