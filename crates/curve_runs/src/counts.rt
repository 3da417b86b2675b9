//! Counting at sizes.
ghost use Rattle.std.specs.Prelude.{◌≡◌, ℕ, ◌+◌, ◌<◌, ◌≤◌, ◌^◌, length, slice_index, slice_set, IfOk, OnOk, OnErr, IfErr};
ghost use Rattle.curve_runs.specs.Counts.{counted, added};
ghost use Rattle.curve_runs.specs.declared.fault.RunsFault.TheVariants.{TooMany};

use crate::fault::RunsFault;
use crate::spans::Spans;
use std::alloc::{AllocError, Global};

// Adds to one of the numbers.
fn add_at(numbers: &mut Vec<u128>, at: usize, value: u64)
    requires within { at < length numbers.old.items }
    requires fits { slice_index numbers.old.items at + value < 2 ^ 128 }
    ensures { numbers.new.items ≡ slice_set numbers.old.items at (slice_index numbers.old.items at + value) }
{
    numbers[at] += u128::from(value);
}

impl Spans {
    /// Nothing counted at so many sizes.
    pub fn new(alloc: Global, sizes: usize) -> Result<Spans, AllocError>
        ensures none { IfOk result (λ s. (i : ℕ) → counted i s ≡ 0) }
        ensures sizes { IfOk result (λ s. length s.begun.items ≡ sizes) }
        ensures total { IfOk result (λ s. s.total ≡ 0) }
    {
        Ok(Spans {
            begun: vec![in alloc; 0u128; sizes]?,
            ended: vec![in alloc; 0u128; sizes]?,
            total: 0,
        })
    }

    /// Counts a value from one size on and before another.
    pub fn add(&mut self, from: usize, to: usize, value: u64) -> Result<(), RunsFault>
        requires { from ≤ to }
        ensures added { OnOk result ((i : ℕ) → i < length self.old.begun.items → counted i self.new ≡ counted i self.old + added from to value i) }
        ensures sizes { OnOk result (length self.new.begun.items ≡ length self.old.begun.items) }
        ensures total { OnOk result (self.new.total ≤ self.old.total + value) }
        ensures err { OnErr result (self.new ≡ self.old) }
        ensures fault { IfErr result (λ fault. (fault ≡ TooMany) × (2 ^ 128 ≤ self.old.total + value)) }
    {
        if from >= self.begun.len() {
            return Ok(());
        }
        if u128::MAX - u128::from(value) < self.total {
            return Err(RunsFault::TooMany);
        }
        self.total += u128::from(value);
        add_at(&mut self.begun, from, value);
        if to < self.ended.len() {
            add_at(&mut self.ended, to, value);
        }
        Ok(())
    }

    /// What was counted at each size.
    pub fn rows(&self, alloc: Global) -> Result<Vec<u128>, AllocError>
        ensures rows { IfOk result (λ rows. (i : ℕ) → i < length rows.items → slice_index rows.items i ≡ counted i self.now) }
        ensures sizes { IfOk result (λ rows. length rows.items ≡ length self.now.begun.items) }
    {
        let mut rows = Vec::with_capacity(alloc, self.begun.len())?;
        let mut more: u128 = 0;
        for i in 0..self.begun.len() {
            more = more + self.begun[i] - self.ended[i];
            rows.push(more)?;
        }
        Ok(rows)
    }
}
