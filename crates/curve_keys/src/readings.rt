//! What caches find of the lines of a trace, of each of some parts of the keys.
ghost use Rattle.std.specs.Prelude.{◌≡◌, ℕ, ◌+◌, ◌-◌, ◌<◌, ◌≤◌, ◌^◌, min, true, length, slice_index_or, IfOk, IfErr, OnOk, OnErr, IfSome};
ghost use Rattle.std.specs.List.{AllZip, AllByRecursion};
ghost use Rattle.curve_sizes.specs.declared.fault.CurveFault.TheVariants.{TooMany};
ghost use Rattle.curve_keys.specs.Faults.{IsLineFault, AreSpent, IsFeedFault};
ghost use Rattle.curve_keys.specs.Parts.{place_of, is_in};
ghost use Rattle.curve_keys.specs.Pasts.{line_for, is_said};
ghost use Rattle.curve_keys.specs.Shares.{entries_of, AddsTo, AddsSome, AddsLine, IsMissed, IsReady, AreReady, IsNew, IsFinished, asks_by, says_by, others_by};

use crate::hash::{is_at, is_in, place_of};
use crate::part::Part;
use crate::reading::Reading;
use crate::said::{Said, is_said};
use curve_held::HeldRow;
use curve_sizes::{CurveFault, When};
use curve_timed::{Every, FreshRow};
use seeded_hashing::SeededState;
use std::alloc::{AllocError, Global};

/// What is read of one part of the keys; without a part, of all.
#[derive(Drop)]
pub struct PartReading {
    /// The part.
    pub part: Option<Part>,
    /// What is read of it.
    pub reading: Reading,
    /// What is found fresh under each limit, once that was noted; nothing where it isn't asked for.
    pub fresh: Vec<FreshRow>,
    /// What is held under each limit, and when it was full first, once that was noted.
    pub held: Vec<HeldRow>,
}

impl PartReading {
    // Whether a key is in the part. Its place may be known.
    fn has(&self, place: Option<u64>, key: &[u8]) -> bool
        requires { IfSome place (λ p. p ≡ place_of key.now) }
        ensures { result ≡ is_in self.now.part key.now }
    {
        match place {
            None => is_in(self.part, key),
            Some(place) => is_at(self.part, place),
        }
    }

    // Feeds what a line says of a key, if that is in the part.
    fn feed(
        &mut self,
        alloc: Global,
        place: Option<u64>,
        key: &[u8],
        said: Said,
        when: When,
        times: u64,
    ) -> Result<(), CurveFault>
        requires place { IfSome place (λ p. p ≡ place_of key.now) }
        requires said { is_said said ≡ true }
        requires ready { IsReady self.old }
        ensures added { OnOk result (AddsTo (record { key = key.now; said = said; when = when; times = times }) self.old self.new) }
        ensures fault { IfErr result (IsLineFault said times) }
        ensures err { OnErr result (self.new.reading.curve.is_broken ≡ true) }
    {
        if !self.has(place, key) {
            return Ok(());
        }
        self.reading.feed(alloc, key, said, when, times)?;
        Ok(())
    }

    // Notes what is found fresh, and what is held.
    fn finish(&mut self, alloc: Global) -> Result<(), CurveFault>
        requires { IsReady self.old }
        ensures { OnOk result (IsFinished self.old self.new) }
    {
        self.fresh = self.reading.curve.fresh_rows(alloc)?;
        self.held = self.reading.curve.held_rows(alloc)?;
        Ok(())
    }
}

/// What caches find of the lines of a trace, of each of some parts of the keys, as they go on.
#[derive(Drop)]
pub struct Readings {
    /// What is read of each part.
    pub parts: Vec<PartReading>,
    /// How many requests ask, whatever the part of their key.
    pub asked: u64,
    /// What these say that they weigh.
    pub said: u128,
    /// How many lines were of a key, and no requests.
    pub others: u64,
    // The limit of which it is told what goes on, by its place; nothing where that isn't asked for.
    misses: Option<usize>,
    /// Whether the last line that said something goes on from that limit to the next cache.
    pub missed: bool,
}

impl Readings {
    /// Curves of these parts at these limits, of no lines; of fresh finds too where `is_timed`, and with marks where spans have a length.
    /// Of all keys it is told of each line whether it goes on from the limit of a place, where one is named.
    pub fn new(
        alloc: Global,
        hasher: SeededState,
        parts: &[Option<Part>],
        limits: &[u64],
        watermark: Option<u64>,
        is_timed: bool,
        every: Option<Every>,
        misses: Option<usize>,
    ) -> Result<Readings, AllocError>
        requires { (i j : ℕ) (d : ℕ) → i ≤ j → j < length limits.now → slice_index_or limits.now i d ≤ slice_index_or limits.now j d }
        ensures parts { IfOk result (λ r. AllZip (IsNew limits.now watermark is_timed every) parts.now r.parts.items) }
        ensures asked { IfOk result (λ r. r.asked ≡ 0) }
        ensures said { IfOk result (λ r. r.said ≡ 0) }
        ensures others { IfOk result (λ r. r.others ≡ 0) }
        ensures misses { IfOk result (λ r. r.misses ≡ misses) }
    {
        let mut all = Vec::with_capacity(alloc, parts.len())?;
        for part in parts {
            let reading = Reading::new(alloc, hasher, limits, watermark, is_timed, every)?;
            all.push(PartReading {
                part: *part,
                reading,
                fresh: Vec::new(alloc),
                held: Vec::new(alloc),
            })?;
        }
        Ok(Readings {
            parts: all,
            asked: 0,
            said: 0,
            others: 0,
            misses,
            missed: false,
        })
    }

    /// How many entries were asked for, in all parts together.
    pub fn entries(&self) -> usize
        ensures { result ≡ min (entries_of self.now.parts.items) (2 ^ 64 - 1) }
    {
        let mut all: usize = 0;
        for part in &self.parts {
            all = all.saturating_add(part.reading.curve.curve().entries());
        }
        all
    }

    // The place of a key, where several parts want it.
    fn place(&self, key: &[u8]) -> Option<u64>
        ensures { IfSome result (λ p. p ≡ place_of key.now) }
    {
        if self.parts.len() < 2 {
            return None;
        }
        Some(place_of(key))
    }

    // Counts the requests of a line that says this, or the line itself where it makes none.
    fn count(&mut self, said: Said, times: u64) -> Result<(), CurveFault>
        ensures asked { OnOk result (self.new.asked ≡ self.old.asked + asks_by said times) }
        ensures said { OnOk result (self.new.said ≡ self.old.said + says_by said times) }
        ensures others { OnOk result (self.new.others ≡ self.old.others + others_by said) }
        ensures parts { self.new.parts ≡ self.old.parts }
        ensures misses { self.new.misses ≡ self.old.misses }
        ensures fault { IfErr result (λ fault. (fault ≡ TooMany) × AreSpent said times self.old) }
        ensures err { OnErr result (self.new ≡ self.old) }
    {
        let says = says_by(said, times)?;
        let Some(asked) = self.asked.checked_add(asks_by(said, times)) else {
            return Err(CurveFault::TooMany);
        };
        let Some(all) = self.said.checked_add(says) else {
            return Err(CurveFault::TooMany);
        };
        let Some(others) = self.others.checked_add(others_by(said)) else {
            return Err(CurveFault::TooMany);
        };
        self.asked = asked;
        self.said = all;
        self.others = others;
        Ok(())
    }

    // Whether what a line says of a key goes on, where that is asked for.
    fn is_missed(&self, key: &[u8], said: Said, when: When) -> bool
        requires { AreReady self.now }
        ensures { (times : ℕ) → IsMissed self.now.misses (record { key = key.now; said = said; when = when; times = times }) result self.now.parts.items }
    {
        let Some(at) = self.misses else {
            return false;
        };
        if self.parts.len() != 1 {
            return false;
        }
        self.parts[0].reading.goes_on(at, key, said, when)
    }

    // Feeds what a line says of a key, which is something.
    fn feed_said(
        &mut self,
        alloc: Global,
        key: &[u8],
        said: Said,
        when: When,
        times: u64,
    ) -> Result<(), CurveFault>
        requires said { is_said said ≡ true }
        requires ready { AreReady self.old }
        ensures added { OnOk result (AddsSome (record { key = key.now; said = said; when = when; times = times }) self.old self.new) }
        ensures fault { IfErr result (IsFeedFault said times self.old self.new) }
    {
        let missed = self.is_missed(key, said, when);
        self.count(said, times)?;
        let place = self.place(key);
        feed_parts(&mut self.parts, alloc, place, key, said, when, times)?;
        self.missed = missed;
        Ok(())
    }

    /// Feeds what a line says of a key to the part that has it, and returns whether that is anything.
    ///
    /// # Errors
    ///
    /// `TooMany` where the counts of all parts together are spent; then nothing has changed. Else where a part couldn't be fed, as
    /// `Reading::feed` says: that part is broken then, so that nothing more can be read.
    pub fn feed(
        &mut self,
        alloc: Global,
        key: &[u8],
        said: Said,
        when: When,
        times: u64,
    ) -> Result<bool, CurveFault>
        requires { AreReady self.old }
        ensures fed { OnOk result (AddsLine (line_for key.now said when times) self.old self.new) }
        ensures told { IfOk result (λ yes. yes ≡ is_said said) }
        ensures fault { IfErr result (IsFeedFault said times self.old self.new) }
    {
        if !is_said(said) {
            return Ok(false);
        }
        self.feed_said(alloc, key, said, when, times)?;
        Ok(true)
    }

    /// Notes what is found fresh in each part, and what is held, once all lines were fed.
    pub fn finish(&mut self, alloc: Global) -> Result<(), CurveFault>
        requires { AreReady self.old }
        ensures parts { OnOk result (AllZip IsFinished self.old.parts.items self.new.parts.items) }
        ensures asked { self.new.asked ≡ self.old.asked }
        ensures said { self.new.said ≡ self.old.said }
        ensures others { self.new.others ≡ self.old.others }
    {
        finish_parts(&mut self.parts, alloc)?;
        Ok(())
    }
}

// Feeds what a line says of a key to each part that has it.
fn feed_parts(
    parts: &mut Vec<PartReading>,
    alloc: Global,
    place: Option<u64>,
    key: &[u8],
    said: Said,
    when: When,
    times: u64,
) -> Result<(), CurveFault>
    requires place { IfSome place (λ p. p ≡ place_of key.now) }
    requires said { is_said said ≡ true }
    requires ready { AllByRecursion IsReady parts.old.items }
    ensures added { OnOk result (AllZip (AddsTo (record { key = key.now; said = said; when = when; times = times })) parts.old.items parts.new.items) }
    ensures fault { IfErr result (IsLineFault said times) }
    ensures err { OnErr result (AllByRecursion IsReady parts.new.items → ⊥) }
{
    for i in 0..parts.len() {
        parts[i].feed(alloc, place, key, said, when, times)?;
    }
    Ok(())
}

// Notes what is found fresh in each part, and what is held.
fn finish_parts(parts: &mut Vec<PartReading>, alloc: Global) -> Result<(), CurveFault>
    requires { AllByRecursion IsReady parts.old.items }
    ensures { OnOk result (AllZip IsFinished parts.old.items parts.new.items) }
{
    for i in 0..parts.len() {
        parts[i].finish(alloc)?;
    }
    Ok(())
}

// How many requests a line makes that ask.
fn asks_by(said: Said, times: u64) -> u64
    ensures { result ≡ asks_by said times }
{
    match said {
        Said::Weight(_) | Said::Known => times,
        Said::Removal | Said::Told | Said::Other | Said::Wrong => 0,
    }
}

// What these say that they weigh.
fn says_by(said: Said, times: u64) -> Result<u128, CurveFault>
    ensures says { IfOk result (λ n. n ≡ says_by said times) }
    ensures fault { IfErr result (λ fault. (fault ≡ TooMany) × (2 ^ 128 ≤ says_by said times)) }
{
    match said {
        Said::Weight(weight) => u128::from(weight)
            .checked_mul(u128::from(times))
            .ok_or(CurveFault::TooMany),
        Said::Known | Said::Removal | Said::Told | Said::Other | Said::Wrong => Ok(0),
    }
}

// How many lines are of a key and no request.
fn others_by(said: Said) -> u64
    ensures { result ≡ others_by said }
{
    match said {
        Said::Told | Said::Other => 1,
        Said::Weight(_) | Said::Known | Said::Removal | Said::Wrong => 0,
    }
}
