//! When caches are full.
ghost use Rattle.std.specs.Prelude.{◌≡◌, ℕ, ◌≤◌, ◌<◌, length, slice_index, slice_index_or, OnOk};
ghost use Rattle.curve_loads.specs.Steps.{exceeds};
ghost use Rattle.curve_held.specs.State.{IsNoted};

use crate::row::Full;
use std::alloc::AllocError;

// Whether entries of that weight and number pass the limits.
fn is_over(limit: u64, most: Option<u64>, weight: u64, number: u64) -> bool
    ensures { result ≡ exceeds limit most weight number }
{
    if limit < weight {
        return true;
    }
    match most {
        None => false,
        Some(most) => most < number,
    }
}

// Notes a request at the limits, after those that were noted, which entries of that weight and number pass.
pub(crate) fn note_full(
    limits: &[u64],
    most: Option<u64>,
    weight: u64,
    number: u64,
    now: Full,
    full: &mut Vec<Full>,
) -> Result<(), AllocError>
    requires rising { (i j : ℕ) → i ≤ j → j < length limits.now → slice_index limits.now i ≤ slice_index limits.now j }
    requires within { length full.old.items ≤ length limits.now }
    ensures { OnOk result (IsNoted limits.now most weight number now full.old.items full.new.items) }
{
    for at in full.len()..limits.len() {
        if !is_over(limits[at], most, weight, number) {
            return Ok(());
        }
        full.push(now)?;
    }
    Ok(())
}
