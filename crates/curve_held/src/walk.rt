//! What is held at the end.
ghost use Rattle.std.specs.Prelude.{◌≡◌, ℕ, ◌+◌, ◌<◌, ◌≤◌, ◌^◌, List, None, length, replicate, slice_index, slice_index_or, IfOk, IfErr, OnOk};
ghost use Rattle.std.specs.List.{slice_get};
ghost use Rattle.cache_entries.specs.declared.entry.CacheEntryKey.{CacheEntryKey};
ghost use Rattle.curve_runs.specs.Counts.{counted, added};
ghost use Rattle.curve_sizes.specs.Requests.{Request};
ghost use Rattle.curve_sizes.specs.Numbers.{Agrees, IsFed, mark_of};
ghost use Rattle.curve_sizes.specs.Rows.{limits_of};
ghost use Rattle.curve_sizes.specs.declared.fault.CurveFault.TheVariants.{TooMany};
ghost use Rattle.curve_held.specs.Faults.{IsWalkFault};
ghost use Rattle.curve_held.specs.Held.{AreHeld};
ghost use Rattle.curve_held.specs.State.{IsFilled};
ghost use Rattle.curve_held.specs.Walks.{IsWalked, row_at};

use crate::filling::Filling;
use crate::oldest::{note, running};
use crate::row::{Full, HeldRow};
use curve_runs::{RunsFault, Spans};
use curve_sizes::{CurveFault, SizeCurve};
use std::alloc::{AllocError, Global};

// How many entries each limit holds, and the least moment at which one was asked for last that it holds and no lesser limit does.
#[derive(Drop)]
struct Walked {
    counts: Spans,
    oldest: Vec<Option<u64>>,
}

// Counts an entry that the limits hold from one on.
fn count(counts: &mut Spans, first: usize, sizes: usize) -> Result<(), CurveFault>
    requires { first ≤ sizes }
    ensures added { OnOk result ((i : ℕ) → i < length counts.old.begun.items → counted i counts.new ≡ counted i counts.old + added first sizes 1 i) }
    ensures sizes { OnOk result (length counts.new.begun.items ≡ length counts.old.begun.items) }
    ensures total { OnOk result (counts.new.total ≤ counts.old.total + 1) }
    ensures fault { IfErr result (λ fault. (fault ≡ TooMany) × (2 ^ 128 ≤ counts.old.total + 1)) }
{
    match counts.add(first, sizes, 1) {
        Ok(()) => Ok(()),
        Err(RunsFault::Memory) => Err(CurveFault::Memory),
        Err(RunsFault::TooMany) => Err(CurveFault::TooMany),
    }
}

// No entries yet, at so many limits.
fn nothing(alloc: Global, sizes: usize) -> Result<Walked, AllocError>
    ensures counts { IfOk result (λ w. (i : ℕ) → counted i w.counts ≡ 0) }
    ensures sizes { IfOk result (λ w. length w.counts.begun.items ≡ sizes) }
    ensures total { IfOk result (λ w. w.counts.total ≡ 0) }
    ensures oldest { IfOk result (λ w. w.oldest.items ≡ replicate sizes None) }
{
    let counts = Spans::new(alloc, sizes)?;
    let mut oldest = Vec::with_capacity(alloc, sizes)?;
    for _ in 0..sizes {
        oldest.push(None)?;
    }
    Ok(Walked { counts, oldest })
}

// Goes over all entries.
fn walk(alloc: Global, curve: &SizeCurve, latest: &[u64]) -> Result<Walked, CurveFault>
    requires { length latest.now ≡ length curve.now.weights.items }
    ensures walked { IfOk result (λ w. IsWalked curve.now latest.now (length curve.now.weights.items) w.counts w.oldest.items) }
    ensures fault { IfErr result (IsWalkFault (length curve.now.weights.items)) }
{
    let Ok(entries) = u32::try_from(curve.entries()) else {
        return Err(CurveFault::TooMany);
    };
    let sizes = curve.limits();
    let Walked {
        mut counts,
        mut oldest,
    } = nothing(alloc, sizes)?;
    for entry in 0..entries {
        let first = curve.first_held(entry);
        count(&mut counts, first, sizes)?;
        note(&mut oldest, first, latest[entry as usize]);
    }
    Ok(Walked { counts, oldest })
}

// The element at a place, if there is one.
fn full_in(full: &[Full], at: usize) -> Option<Full>
    ensures { result ≡ slice_get full.now at }
{
    if at < full.len() {
        return Some(full[at]);
    }
    None
}

// The rows.
fn joined(
    alloc: Global,
    counts: &[u128],
    oldest: &[Option<u64>],
    full: &[Full],
) -> Result<Vec<HeldRow>, AllocError>
    requires { length oldest.now ≡ length counts.now }
    ensures len { IfOk result (λ rows. length rows.items ≡ length counts.now) }
    ensures rows { IfOk result (λ rows. (k : ℕ) (d : HeldRow) → k < length counts.now → slice_index_or rows.items k d ≡ row_at counts.now oldest.now full.now k) }
{
    let mut rows = Vec::with_capacity(alloc, counts.len())?;
    for i in 0..counts.len() {
        let row = HeldRow {
            entries: counts[i],
            oldest: oldest[i],
            full: full_in(full, i),
        };
        rows.push(row)?;
    }
    Ok(rows)
}

impl Filling {
    /// What a cache of each limit of a curve holds, which was fed the same requests.
    ///
    /// # Errors
    ///
    /// `Memory`, and `TooMany` where there are 2^32 entries or more.
    pub fn rows(&self, alloc: Global, curve: &SizeCurve) -> Result<Vec<HeldRow>, CurveFault>
        requires { length self.now.latest.items ≡ length curve.now.weights.items }
        ensures held { IfOk result (λ rows. (requests : List Request) → IsFed curve.now requests
            → IsFilled curve.now.weights.items (limits_of curve.now.table) (mark_of curve.now.watermark) self.now requests
            → (weight : CacheEntryKey → ℕ) → Agrees weight curve.now.weights.items
            → AreHeld weight (mark_of curve.now.watermark) requests (limits_of curve.now.table) rows.items) }
        ensures fault { IfErr result (IsWalkFault (length curve.now.weights.items)) }
    {
        let walked = walk(alloc, curve, self.latest.as_slice())?;
        let counts = walked.counts.rows(alloc)?;
        let oldest = running(alloc, walked.oldest.as_slice())?;
        let rows = joined(
            alloc,
            counts.as_slice(),
            oldest.as_slice(),
            self.full.as_slice(),
        )?;
        Ok(rows)
    }
}
