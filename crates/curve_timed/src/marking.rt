//! Marking what was found so far.
ghost use Rattle.std.specs.Prelude.{◌≡◌, ℕ, List, ◌∷◌, Option, map, length, is_some, IfOk, IfErr, IsSome, OnOk};
ghost use Rattle.std.specs.List.{AllByRecursion};
ghost use Rattle.cache_entries.specs.declared.entry.CacheEntryKey.{CacheEntryKey};
ghost use Rattle.curve_sizes.specs.declared.when.When.{When};
ghost use Rattle.curve_sizes.specs.Numbers.{mark_of, Agrees, IsFed};
ghost use Rattle.curve_sizes.specs.Requests.{Request, asks};
ghost use Rattle.curve_sizes.specs.Rows.{limits_of};
ghost use Rattle.curve_held.specs.State.{IsFilled};
ghost use Rattle.curve_held.specs.Faults.{IsWalkFault};
ghost use Rattle.curve_timed.specs.Timed.{timed_of};
ghost use Rattle.curve_timed.specs.Rows.{AreFresh};
ghost use Rattle.curve_timed.specs.Counting.{IsFreshFed, IsMarked};
ghost use Rattle.curve_timed.specs.Marks.{IsSoFar, HasMarkRows};

use crate::every::Every;
use crate::marks::Mark;
use crate::row::{FreshRow, zipped};
use curve_held::Filling;
use curve_runs::FreshTable;
use curve_sizes::{CurveFault, SizeCurve};
use std::alloc::{AllocError, Global};

// What is found fresh under each limit; nothing where that isn't asked for.
pub(crate) fn fresh_of(
    alloc: Global,
    curve: &SizeCurve,
    fresh: &Option<FreshTable>,
) -> Result<Vec<FreshRow>, AllocError>
    requires { (requests : List Request) × IsFreshFed curve.now fresh.now requests }
    ensures rows { IfOk result (λ rows. (requests : List Request) → IsFreshFed curve.now fresh.now requests → (weight : CacheEntryKey → ℕ) → Agrees weight curve.now.weights.items
        → AreFresh weight (mark_of curve.now.watermark) (timed_of requests) rows.items) }
    ensures limits { IsSome fresh.now → IfOk result (λ rows. map (λ r. r.limit) rows.items ≡ limits_of curve.now.table) }
{
    match fresh {
        None => Ok(Vec::new(alloc)),
        Some(table) => {
            let rows = curve.rows(alloc)?;
            let finds = table.finds(alloc)?;
            let bytes = table.bytes(alloc)?;
            let all = zipped(alloc, rows.as_slice(), finds.as_slice(), bytes.as_slice())?;
            Ok(all)
        }
    }
}

// What was found so far.
fn so_far(
    alloc: Global,
    curve: &SizeCurve,
    fresh: &Option<FreshTable>,
    filling: &Filling,
    at: u64,
) -> Result<Mark, CurveFault>
    requires fed { (requests : List Request) × IsFreshFed curve.now fresh.now requests }
    requires even { length filling.now.latest.items ≡ length curve.now.weights.items }
    ensures at { IfOk result (λ m. m.at ≡ at) }
    ensures found { IfOk result (λ m. (requests : List Request) → IsFed curve.now requests → IsFreshFed curve.now fresh.now requests
        → IsFilled curve.now.weights.items (limits_of curve.now.table) (mark_of curve.now.watermark) filling.now requests
        → (weight : CacheEntryKey → ℕ) → Agrees weight curve.now.weights.items → IsSoFar weight (mark_of curve.now.watermark) requests m) }
    ensures rows { IfOk result (λ m. HasMarkRows (limits_of curve.now.table) (is_some fresh.now) m) }
    ensures fault { IfErr result (IsWalkFault (length curve.now.weights.items)) }
{
    let totals = curve.totals();
    let rows = curve.rows(alloc)?;
    let fresh = fresh_of(alloc, curve, fresh)?;
    let held = filling.rows(alloc, curve)?;
    Ok(Mark {
        at,
        asks: totals.asks,
        bytes: totals.bytes,
        rows,
        fresh,
        held,
    })
}

// Marks what was found so far, where a request that comes at a moment is past the span of those before it.
pub(crate) fn mark(
    alloc: Global,
    curve: &SizeCurve,
    fresh: &Option<FreshTable>,
    filling: &Filling,
    every: Option<Every>,
    span: &mut Option<u64>,
    marks: &mut Vec<Mark>,
    moment: u64,
) -> Result<(), CurveFault>
    requires fed { (requests : List Request) × IsFreshFed curve.now fresh.now requests }
    requires even { length filling.now.latest.items ≡ length curve.now.weights.items }
    ensures marked { OnOk result ((requests : List Request) (e : CacheEntryKey) (w : ℕ) (t : When) → IsFed curve.now requests → IsFreshFed curve.now fresh.now requests
        → IsFilled curve.now.weights.items (limits_of curve.now.table) (mark_of curve.now.watermark) filling.now requests → t.moment ≡ moment
        → IsMarked curve.now.weights.items (mark_of curve.now.watermark) every span.old marks.old.items requests
        → IsMarked curve.now.weights.items (mark_of curve.now.watermark) every span.new marks.new.items (asks e w t ∷ requests)) }
    ensures rows { OnOk result (AllByRecursion (HasMarkRows (limits_of curve.now.table) (is_some fresh.now)) marks.old.items
        → AllByRecursion (HasMarkRows (limits_of curve.now.table) (is_some fresh.now)) marks.new.items) }
    ensures fault { IfErr result (IsWalkFault (length curve.now.weights.items)) }
{
    let Some(every) = every else {
        return Ok(());
    };
    let at = every.from(moment);
    let Some(begun) = *span else {
        *span = Some(at);
        return Ok(());
    };
    if every.has(begun, moment) {
        return Ok(());
    }
    let made = so_far(alloc, curve, fresh, filling, at)?;
    marks.push(made)?;
    *span = Some(at);
    Ok(())
}
