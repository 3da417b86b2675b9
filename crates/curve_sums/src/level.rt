//! One level of sums.
ghost use Rattle.std.specs.Prelude.{◌≡◌, ◌+◌, ◌-◌, ◌*◌, ◌/◌, ◌<◌, ◌≤◌, ◌^◌, length, sum, take, slice_index, slice_set, IfOk};
ghost use Rattle.curve_sums.specs.Levels.{AreBlockSums};

use std::alloc::{AllocError, Global};

// Numbers in a block.
pub(crate) const BLOCK: usize = 64;

// Adds to a number.
pub(crate) fn raise(level: &mut Vec<u64>, at: usize, more: u64)
    requires within { at < length level.old.items }
    requires fits { sum level.old.items + more < 2 ^ 64 }
    ensures { level.new.items ≡ slice_set level.old.items at (slice_index level.old.items at + more) }
{
    level[at] += more;
}

// Takes from a number.
pub(crate) fn lower(level: &mut Vec<u64>, at: usize, less: u64)
    requires within { at < length level.old.items }
    requires enough { less ≤ slice_index level.old.items at }
    ensures { level.new.items ≡ slice_set level.old.items at (slice_index level.old.items at - less) }
{
    level[at] -= less;
}

// The sum of the numbers from a place on, before another.
pub(crate) fn between(level: &[u64], from: usize, end: usize) -> u64
    requires within { (from ≤ end) × (end ≤ length level.now) }
    requires fits { sum level.now < 2 ^ 64 }
    ensures { sum (take from level.now) + result ≡ sum (take end level.now) }
{
    let mut all = 0;
    for cell in &level[from..end] {
        all += *cell;
    }
    all
}

// The first place whose number isn't 0, where those before one are.
pub(crate) fn first_from(level: &[u64], from: usize) -> usize
    requires before { sum (take from level.now) ≡ 0 }
    requires some { 0 < sum level.now }
    ensures { (result < length level.now) × (sum (take result level.now) ≡ 0) × (0 < slice_index level.now result) }
{
    let mut at = from;
    while level[at] == 0 {
        at += 1;
    }
    at
}

// The sums of the blocks of a level.
pub(crate) fn blocks_of(alloc: Global, level: &[u64]) -> Result<Vec<u64>, AllocError>
    requires { sum level.now < 2 ^ 64 }
    ensures { IfOk result (λ above. AreBlockSums level.now above.items) }
{
    let mut above = Vec::with_capacity(alloc, level.len() / BLOCK + 1)?;
    for block in 0..level.len() / BLOCK + 1 {
        let from = BLOCK * block;
        let end = level.len().min(from + BLOCK);
        let all = between(level, from, end);
        above.push(all)?;
    }
    Ok(above)
}
