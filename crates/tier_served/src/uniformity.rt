//! Uniform requests.
ghost use Rattle.std.specs.Prelude.{◌↔◌, IfOk, IsTrue, List, Option};
ghost use Rattle.tier_loads.specs.Requests.{PlainRequest};
ghost use Rattle.tier_served.specs.Uniform.{AreSeenAs, IsUniform};

use crate::request::Request;
use crate::seen::{Table, note_next, see};
use std::alloc::{AllocError, Global};
use std::collections::HashMap;
use std::hash::BuildHasher;

/// Returns whether requests are uniform: each response is whole and gives a meta that can be written at its moment, and
/// each stored key has one entry, also where it is purged, and one weight: what its body takes with that meta. The answer goes by what the parser makes of each response; where its
/// default options read all the heads, there is only one such reading.
///
/// In time that grows as the requests and their responses do; stored keys, which are digests, are found by their hashes, from a start of the caller's.
///
/// # Errors
///
/// `AllocError` where memory runs out, and where a `usize` can't count a weight.
pub fn uniform<S: BuildHasher + Drop>(
    alloc: Global,
    hasher: S,
    requests: &[Request],
) -> Result<bool, AllocError>
    ensures { IfOk result (λ yes. (seen : List (Option PlainRequest)) × AreSeenAs requests.now seen × (IsTrue yes ↔ IsUniform seen)) }
{
    let mut table: Table<S> = HashMap::with_hasher(alloc, hasher);
    let mut alike = true;
    let mut i = requests.len();
    while i > 0 {
        i -= 1;
        let seen = see(alloc, &requests[i])?;
        alike = note_next(&mut table, alike, seen)?;
    }
    Ok(alike)
}
