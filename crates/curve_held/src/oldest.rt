//! The least moments.
ghost use Rattle.std.specs.Prelude.{◌≡◌, length, slice_index_or, slice_set, if◌then◌else◌, nat_lt, None, Some, IfOk};
ghost use Rattle.curve_held.specs.Held.{sooner};
ghost use Rattle.curve_held.specs.State.{running, noted_at};

use std::alloc::{AllocError, Global};

// The lesser of two moments, if there are any.
fn sooner(moment: Option<u64>, other: Option<u64>) -> Option<u64>
    ensures { result ≡ sooner moment other }
{
    match moment {
        None => other,
        Some(moment) => {
            match other {
                None => Some(moment),
                Some(other) => Some(moment.min(other)),
            }
        }
    }
}

// Notes a moment at a place, if there is such a place: the least one is kept.
pub(crate) fn note(moments: &mut Vec<Option<u64>>, at: usize, moment: u64)
    ensures { moments.new.items ≡ noted_at at moment moments.old.items }
{
    if at < moments.len() {
        moments[at] = sooner(Some(moment), moments[at]);
    }
}

// The least moment of each place and all before it.
pub(crate) fn running(
    alloc: Global,
    moments: &[Option<u64>],
) -> Result<Vec<Option<u64>>, AllocError>
    ensures { IfOk result (λ rows. rows.items ≡ running None moments.now) }
{
    let mut rows = Vec::with_capacity(alloc, moments.len())?;
    let mut least = None;
    for moment in moments {
        least = sooner(least, *moment);
        rows.push(least)?;
    }
    Ok(rows)
}
