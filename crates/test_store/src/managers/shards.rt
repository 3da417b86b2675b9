//! Shards of a manager.

ghost use Rattle.std.specs.Prelude.{◌<◌};

use crate::managers::names::{A, B, C, E, Name, is, item};
use crate::managers::steps::{Step, all_done, is_done};
use cache_evict::{LoadFault, lru};
use rand_core::SeedableRng;
use rand_pcg::Pcg64;
use std::alloc::Global;

/// A call, with what it must return.
#[derive(Clone, Copy)]
pub enum Look {
    /// The number of shards.
    Shards(usize),
    /// The shard of an entry.
    ShardOf(Name, usize),
    /// The weight and the number of the entries of a shard.
    Holds(usize, usize, usize),
    /// The entry of a shard that was used longest ago.
    Last(usize, Option<Name>),
    /// The weight of an entry.
    Weight(Name, Option<usize>),
    SetLimit(usize),
    /// A call of any manager.
    Any(Step),
}

fn is_seen<const N: usize>(alloc: Global, manager: &mut lru::Manager<N>, look: Look) -> bool {
    match look {
        Look::Shards(count) => manager.shards() == count,
        Look::ShardOf(name, shard) => manager.get_shard_for_key(&item(alloc, name)) == shard,
        Look::Weight(name, weight) => manager.peek_weight(&item(alloc, name)) == weight,
        Look::Holds(shard, weight, len) => {
            shard < manager.shards()
                && manager.shard_weight(shard) == weight
                && manager.shard_len(shard) == len
        }
        Look::Last(shard, name) => {
            shard < manager.shards() && is(alloc, manager.peek_lru(shard), name)
        }
        Look::SetLimit(limit) => {
            manager.set_weight_limit(limit);
            manager.weight_limit() == limit
        }
        Look::Any(step) => is_done(alloc, manager, &mut Pcg64::seed_from_u64(1), step),
    }
}

fn all_seen<const N: usize>(alloc: Global, manager: &mut lru::Manager<N>, looks: &[Look]) -> bool {
    for &look in looks {
        if !is_seen(alloc, manager, look) {
            return false;
        }
    }
    true
}

/// Bytes that are loaded first, with what the load must return.
pub type Load<'a> = Option<(&'a [u8], Result<(), LoadFault>)>;

/// The weight that all entries may have, the entries that there is room for, and the entries that there may be.
type Bounds = (usize, usize, Option<usize>);

/// Whether a load, all looks and then all calls of a manager of N shards come true; false when out of memory.
pub fn shards_do<const N: usize>(
    alloc: Global,
    bounds: Bounds,
    load: Load<'_>,
    looks: &[Look],
    steps: &[Step],
) -> bool
    requires { 0 < N }
{
    let (limit, capacity, watermark) = bounds;
    match lru::Manager::<N>::with_capacity_and_watermark(alloc, limit, capacity, watermark) {
        Ok(mut manager) => {
            let loaded = match load {
                Some((bytes, wanted)) => manager.deserialize_shard(alloc, bytes) == wanted,
                None => true,
            };
            loaded && all_seen(alloc, &mut manager, looks) && all_done(alloc, &mut manager, steps)
        }
        Err(_) => false,
    }
}

const AA: Name = (b"aa", None);

const FOUR: &[Look] = &[
    Look::Shards(4),
    // By the hash of the entry's text, 0xea9a2ac3dcd6c63c.
    Look::ShardOf(AA, 0),
    Look::Any(Step::Admit(AA, 3, &[])),
    Look::Holds(0, 3, 1),
    Look::Holds(1, 0, 0),
    Look::Weight(AA, Some(3)),
    Look::Weight(A, None),
    Look::Last(0, Some(AA)),
    Look::Last(1, None),
    Look::SetLimit(2),
    Look::Any(Step::Access(A, 1, false)),
    Look::Any(Step::Holds(4, 2)),
];

const LAST_GOES: &[Look] = &[
    // By the hashes of their texts all three are in shard 2, so the draws don't count.
    Look::ShardOf(A, 2),
    Look::ShardOf(B, 2),
    Look::ShardOf(E, 2),
    Look::Any(Step::Admit(A, 4, &[])),
    Look::Any(Step::Admit(B, 5, &[])),
    Look::Any(Step::Admit(E, 3, &[A])),
    Look::Holds(2, 8, 2),
    Look::Last(2, Some(B)),
    Look::Any(Step::Evicted(4, 1)),
];

/// An entry is admitted under a limit that was lowered.
const LOWERED: &[Look] = &[
    Look::Any(Step::Admit(A, 1, &[])),
    Look::Any(Step::Admit(B, 1, &[])),
    Look::SetLimit(1),
    Look::Any(Step::Holds(2, 2)),
    Look::Any(Step::Admit(C, 1, &[A, B])),
    Look::SetLimit(10),
    Look::Any(Step::Holds(1, 1)),
];

const SIXTEEN: &[Look] = &[Look::ShardOf(AA, 12)];

#[test]
fn shards_are_shown_and_their_last_goes(rt: HostRuntime) {
    assert!(rt; shards_do::<4>(rt.alloc(), (9, 8, None), None, FOUR, &[]));
    assert!(rt; shards_do::<16>(rt.alloc(), (9, 0, None), None, SIXTEEN, &[]));
    assert!(rt; shards_do::<4>(rt.alloc(), (9, 0, None), None, LAST_GOES, &[]));
    assert!(rt; shards_do::<1>(rt.alloc(), (4, 10, None), None, LOWERED, &[]));
}
