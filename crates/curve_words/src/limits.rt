//! The limits of caches.
ghost use Rattle.std.specs.Prelude.{◌≡◌, ◌↔◌, ◌<◌, ◌≤◌, IfOk, IfSome, IsSome};
ghost use Rattle.std.specs.List.Sorted.{IsNonDecreasing};
ghost use Rattle.curve_words.specs.Sizes.{IsBetween};

use crate::scaled::{precise, product, ratio, rounded};
use std::alloc::{AllocError, Global};

/// Limits, none greater than a later one.
#[derive(Drop)]
pub struct Limits {
    all: Vec<u64>,
    ghost rising: { IsNonDecreasing all.items },
}

/// The most limits between two ends.
pub const MOST_STEPS: u64 = 100_000;

impl Limits {
    /// These limits, where none is greater than a later one.
    pub fn new(all: Vec<u64>) -> Option<Limits>
        ensures limits { IfSome result (λ l. l.all.items ≡ all.items) }
        ensures variant { IsSome result ↔ IsNonDecreasing all.items }
    {
        if all.as_slice().is_sorted() {
            return Some(Limits { all });
        }
        None
    }

    /// So many limits between two ends, by ratios that are equal but for rounding. There are none where the first end is 0 or past
    /// the last, and where there are fewer than 2 or more than `MOST_STEPS`.
    pub fn between(
        alloc: Global,
        from: u64,
        to: u64,
        count: u64,
    ) -> Result<Option<Limits>, AllocError>
        ensures limits { IfOk result (λ o. IfSome o (λ l. IsBetween from to count l.all.items)) }
        ensures variant { IfOk result (λ o. IsSome o ↔ ((0 < from) × (from ≤ to) × (2 ≤ count) × (count ≤ MOST_STEPS))) }
    {
        if from == 0 || to < from || count < 2 || count > MOST_STEPS {
            return Ok(None);
        }
        let by = ratio(precise(from), precise(to), count - 1);
        let mut reached = precise(from);
        let mut last = from;
        let mut all = Vec::new(alloc);
        all.push(from)?;
        for step in 2..count {
            reached = product(reached, by);
            last = clamped(rounded(reached), last, to);
            all.push(last)?;
        }
        all.push(to)?;
        Ok(Some(Limits { all }))
    }

    /// The limits.
    pub fn as_slice(&self) -> &[u64]
        ensures value { result.now ≡ self.now.all.items }
        ensures rising { IsNonDecreasing result.now }
    {
        self.all.as_slice()
    }
}

// The nearest number between two ends.
fn clamped(number: u64, low: u64, high: u64) -> u64
    requires { low ≤ high }
    ensures low { low ≤ result }
    ensures high { result ≤ high }
{
    if number < low {
        return low;
    }
    if number > high {
        return high;
    }
    number
}
