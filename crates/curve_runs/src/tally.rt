//! What a request finds fresh, by the runs of its entry.
ghost use Rattle.std.specs.Prelude.{◌≡◌, ℕ, ◌+◌, ◌<◌, ◌≤◌, nat_lt, if◌then◌else◌, length, IfOk, OnOk};
ghost use Rattle.curve_runs.specs.Runs.{at};
ghost use Rattle.curve_runs.specs.Counts.{counted, added, fresh};

use crate::fault::RunsFault;
use crate::run::{Load, Run};
use crate::spans::Spans;

// Counts the sizes of a run that aren't before `begin`, and returns where they end.
fn count_run(
    counts: &mut Spans,
    load: Load,
    value: u64,
    begin: usize,
    run: Run,
) -> Result<usize, RunsFault>
    ensures past { run.end ≤ begin → IfOk result (λ end. end ≡ begin) }
    ensures same { run.end ≤ begin → OnOk result (counts.new ≡ counts.old) }
    ensures end { begin < run.end → IfOk result (λ end. end ≡ run.end) }
    ensures more { begin < run.end → OnOk result ((i : ℕ) → i < length counts.old.begun.items
        → counted i counts.new ≡ counted i counts.old + (if nat_lt load.moment run.since then added begin run.end value i else 0)) }
    ensures sizes { OnOk result (length counts.new.begun.items ≡ length counts.old.begun.items) }
{
    if run.end <= begin {
        return Ok(begin);
    }
    if load.moment < run.since {
        counts.add(begin, run.end, value)?;
    }
    Ok(run.end)
}

/// Counts a value at each size at which a request finds its entry fresh, which has these runs.
pub(crate) fn tally(
    counts: &mut Spans,
    runs: &[Run],
    load: Load,
    value: u64,
) -> Result<(), RunsFault>
    ensures added { OnOk result ((i : ℕ) → i < length counts.old.begun.items → counted i counts.new ≡ counted i counts.old + fresh load value i (at i runs.now)) }
    ensures sizes { OnOk result (length counts.new.begun.items ≡ length counts.old.begun.items) }
{
    let mut begin = load.first;
    for run in runs {
        begin = count_run(counts, load, value, begin, *run)?;
    }
    Ok(())
}
