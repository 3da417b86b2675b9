//! The first free number.

ghost use Rattle.std.specs.Prelude.{◌≡◌, ◌<◌, ◌≤◌, ◌^◌, IfSome, IfNone, nat_eq};
ghost use Rattle.std.specs.HashMap.{get};
ghost use Rattle.lru_numbers.specs.Names.{IsFirstFree, IsSpent};
ghost use Rattle.lru_numbers.specs.Places.{IsNextFree, HasNoneFree};

use std::collections::HashMap;
use std::hash::BuildHasher;

// The first number in its turn that has no place, among those of the hash's rest.
pub(super) fn first_free<S: BuildHasher>(
    places: &HashMap<u64, usize, S>,
    step: u64,
    hash: u64,
) -> Option<u64>
    requires { 0 < step }
    ensures some { IfSome result (IsFirstFree step (get nat_eq places.now) hash) }
    ensures none { IfNone result (IsSpent step (get nat_eq places.now) hash) }
{
    if let Some(number) = next_free(places, step, hash, u64::MAX) {
        return Some(number);
    }
    if hash < step {
        return None;
    }
    next_free(places, step, hash % step, hash - step)
}

// The least number from `from` up to `last` that has no place, among those `step` apart from `from`.
fn next_free<S: BuildHasher>(
    places: &HashMap<u64, usize, S>,
    step: u64,
    from: u64,
    last: u64,
) -> Option<u64>
    requires step { 0 < step }
    requires order { from ≤ last }
    ensures some { IfSome result (IsNextFree step (get nat_eq places.now) from last) }
    ensures none { IfNone result (HasNoneFree step (get nat_eq places.now) from last) }
{
    let mut number = from;
    'numbers: while places.contains_key(&number) {
        if last - number < step {
            return None;
        }
        number += step;
    }
    Some(number)
}
