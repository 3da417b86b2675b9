//! Calls that are refused since a shard can't count the weight.

ghost use Rattle.std.specs.Prelude.{◌<◌};

use crate::managers::names::{A, B, Name};
use crate::managers::shards::shards_do;
use crate::managers::steps::Step;
use std::alloc::Global;

/// What is admitted first, and the call.
type Row = (Name, usize, Step);

/// Whether a manager of N shards refuses the call, and keeps what was admitted.
fn is_refused<const N: usize>(alloc: Global, row: Row) -> bool
    requires { 0 < N }
{
    let (name, size, call) = row;
    let steps = [Step::Admit(name, size, &[]), call, Step::Holds(size, 1)];
    shards_do::<N>(alloc, (usize::MAX, 0, None), None, &[], &steps)
}

/// What one shard can count is 2^64 - 1.
const ONE: &[Row] = &[
    (A, usize::MAX, Step::AdmitHeavy(B, 1)),
    (A, usize::MAX, Step::AccessHeavy(B, 1)),
    (A, usize::MAX, Step::RaiseHeavy(B, 1)),
    (A, usize::MAX, Step::RaiseHeavy(A, 1)),
    (A, 2, Step::AdmitHeavy(B, usize::MAX)),
];

/// What a shard of four can count.
const MOST: usize = 4_611_686_018_427_387_903;

/// What a shard of four can't count.
const HEAVY: usize = 4_611_686_018_427_387_904;

/// By the hashes of their texts both are in shard 2.
const FOUR: &[Row] = &[
    (A, MOST, Step::AdmitHeavy(B, 1)),
    (A, MOST, Step::AccessHeavy(B, 1)),
    (A, MOST, Step::RaiseHeavy(B, 1)),
    (A, MOST, Step::RaiseHeavy(A, 1)),
    (A, MOST, Step::AdmitHeavy(A, HEAVY)),
    (A, 1, Step::AdmitHeavy(B, HEAVY)),
    (A, 1, Step::AccessHeavy(B, HEAVY)),
    (A, 1, Step::RaiseHeavy(B, HEAVY)),
];

#[test]
fn heavy_entries_are_told(rt: HostRuntime) {
    for &row in ONE {
        assert!(rt; is_refused::<1>(rt.alloc(), row));
    }
    for &row in FOUR {
        assert!(rt; is_refused::<4>(rt.alloc(), row));
    }
}
