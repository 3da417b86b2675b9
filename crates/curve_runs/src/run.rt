//! Runs of one entry.
ghost use Rattle.std.specs.Prelude.{◌≡◌, ℕ, ◌<◌, ◌≤◌, ◌∷◌, [], ◌++◌, nat_le, if◌then◌else◌, IfOk, OnOk};
ghost use Rattle.curve_runs.specs.Runs.{given, at, loaded};

use std::alloc::AllocError;

/// The sizes below `end` that no run before this one has, and the first moment at which their last load is stale.
#[derive(Clone, Copy)]
pub struct Run {
    pub end: usize,
    pub since: u64,
}

/// A request for an entry at a moment: which size is the first that holds it, and from when on a load by this request is stale.
#[derive(Clone, Copy)]
pub struct Load {
    pub first: usize,
    pub moment: u64,
    pub since: u64,
}

// Adds a run, unless it has no sizes.
fn close(runs: &mut Vec<Run>, run: Run) -> Result<(), AllocError>
    ensures { OnOk result ((i : ℕ) → given i runs.new.items ≡ given i (runs.old.items ++ run ∷ [])) }
{
    if run.end > 0 {
        runs.push(run)?;
    }
    Ok(())
}

// What a size has that holds the entry.
fn kept(load: Load, since: u64) -> u64
    ensures { result ≡ (if nat_le since load.moment then load.since else since) }
{
    if since <= load.moment {
        load.since
    } else {
        since
    }
}

// The last run after a next one, which isn't shorter: it goes on to there, or is closed.
fn joined(runs: &mut Vec<Run>, last: Run, next: Run) -> Result<Run, AllocError>
    requires { last.end ≤ next.end }
    ensures end { IfOk result (λ run. run.end ≡ next.end) }
    ensures given { IfOk result (λ run. (i : ℕ) → given i (runs.new.items ++ run ∷ []) ≡ given i (runs.old.items ++ last ∷ next ∷ [])) }
{
    if last.since == next.since {
        return Ok(next);
    }
    close(runs, last)?;
    Ok(next)
}

// The last run after a run of before the request, of which it takes what goes past it.
fn continued(runs: &mut Vec<Run>, load: Load, last: Run, old: Run) -> Result<Run, AllocError>
    ensures past { old.end ≤ last.end → OnOk result (runs.new.items ≡ runs.old.items) }
    ensures same { old.end ≤ last.end → IfOk result (λ run. run ≡ last) }
    ensures end { last.end < old.end → IfOk result (λ run. run.end ≡ old.end) }
    ensures given { last.end < old.end → IfOk result (λ run. (i : ℕ) → given i (runs.new.items ++ run ∷ [])
        ≡ given i (runs.old.items ++ last ∷ record { end = old.end; since = if nat_le old.since load.moment then load.since else old.since } ∷ [])) }
{
    if old.end <= last.end {
        return Ok(last);
    }
    let next = Run {
        end: old.end,
        since: kept(load, old.since),
    };
    joined(runs, last, next)
}

/// The runs of an entry after a request, of so many sizes: those that it loads have the load's moment, the others keep theirs.
pub fn renew(old: &[Run], load: Load, sizes: usize, new: &mut Vec<Run>) -> Result<(), AllocError>
    ensures { OnOk result ((i : ℕ) → i < sizes → at i new.new.items ≡ loaded load i (at i old.now)) }
{
    new.clear();
    let mut last = Run {
        end: load.first,
        since: load.since,
    };
    for run in old {
        last = continued(new, load, last, *run)?;
    }
    let none = Run {
        end: sizes,
        since: 0,
    };
    let last = continued(new, load, last, none)?;
    close(new, last)?;
    Ok(())
}

// What a size has by these runs.
pub(crate) fn since_at(runs: &[Run], size: usize) -> u64
    ensures { result ≡ at size runs.now }
{
    for run in runs {
        if size < run.end {
            return run.since;
        }
    }
    0
}
