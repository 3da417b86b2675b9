//! Counting of what is found fresh.
ghost use Rattle.std.specs.Prelude.{◌≡◌, ◌≢◌, ℕ, ◌<◌, ◌≤◌, ◌^◌, List, [], length, Option, None, Some, IfSome, IfOk, IfErr, OnOk, is_some};
ghost use Rattle.curve_fresh.specs.Fresh.{stale_from};
ghost use Rattle.curve_runs.specs.declared.table.FreshTable.{FreshTable};
ghost use Rattle.curve_sizes.specs.declared.fault.CurveFault.TheVariants.{TooHeavy, TooMany};
ghost use Rattle.curve_timed.specs.Faults.{IsFreshFault};
ghost use Rattle.curve_timed.specs.Counting.{IsCounted, IsFedFresh, is_fresh_at};

use curve_runs::{FreshTable, Load, RunsFault};
use curve_sizes::{CurveFault, When};
use std::alloc::{AllocError, Global};

// The table of what is found fresh, if it is asked for.
pub(crate) fn table_for(
    alloc: Global,
    sizes: usize,
    is_timed: bool,
) -> Result<Option<FreshTable>, AllocError>
    ensures fed { IfOk result (λ o. IfSome o (λ t. (limits : List ℕ) (mark : Option ℕ) → length limits ≡ sizes → IsFedFresh [] limits mark t [])) }
    ensures some { IfOk result (λ o. is_some o ≡ is_timed) }
{
    if is_timed {
        let table = FreshTable::new(alloc, sizes)?;
        return Ok(Some(table));
    }
    Ok(None)
}

// From when on a load is stale.
fn stale_from(when: When) -> Result<u64, CurveFault>
    ensures ok { IfOk result (λ since. since ≡ stale_from when.moment when.lifetime) }
    ensures fault { IfErr result (λ fault. (fault ≡ TooMany) × (2 ^ 64 ≤ stale_from when.moment when.lifetime)) }
{
    if when.lifetime == 0 {
        return Ok(when.moment);
    }
    if u64::MAX - when.moment <= when.lifetime {
        return Err(CurveFault::TooMany);
    }
    Ok(when.moment + when.lifetime + 1)
}

// Counts a request for an entry of that weight.
fn count(
    alloc: Global,
    table: &mut FreshTable,
    entry: u32,
    weight: u64,
    load: Load,
) -> Result<(), CurveFault>
    requires { entry ≤ length table.old.runs.items }
    ensures counted { OnOk result (IsCounted table.old table.new entry weight load) }
    ensures fault { IfErr result (λ fault. fault ≢ TooHeavy) }
{
    match table.ask(alloc, entry, weight, load) {
        Ok(()) => Ok(()),
        Err(RunsFault::Memory) => Err(CurveFault::Memory),
        Err(RunsFault::TooMany) => Err(CurveFault::TooMany),
    }
}

// Counts a request for an entry of that weight, which the limits held from some first one on, if fresh finds are asked for.
pub(crate) fn count_fresh(
    alloc: Global,
    fresh: &mut Option<FreshTable>,
    entry: u32,
    weight: u64,
    first: usize,
    when: When,
) -> Result<(), CurveFault>
    requires { IfSome fresh.old (λ t. entry ≤ length t.runs.items) }
    ensures none { fresh.old ≡ None → fresh.new ≡ None }
    ensures same { OnOk result (is_some fresh.new ≡ is_some fresh.old) }
    ensures some { OnOk result (IfSome fresh.old (λ t. (t' : FreshTable) × (fresh.new ≡ Some t')
        × IsCounted t t' entry weight (record { first = first; moment = when.moment; since = stale_from when.moment when.lifetime }))) }
    ensures fault { IfErr result (IsFreshFault fresh.old) }
{
    if let Some(table) = fresh {
        let load = Load {
            first,
            moment: when.moment,
            since: stale_from(when)?,
        };
        count(alloc, table, entry, weight, load)?;
    }
    Ok(())
}

// Whether the last load of an entry at the limit of a number isn't stale at a moment. So it is where fresh finds aren't asked for.
pub(crate) fn is_fresh_at(fresh: &Option<FreshTable>, entry: u32, at: usize, moment: u64) -> bool
    requires { IfSome fresh.now (λ t. entry < length t.runs.items) }
    ensures { result ≡ is_fresh_at fresh.now entry at moment }
{
    match fresh {
        None => true,
        Some(table) => moment < table.since(entry, at),
    }
}
