//! Entries of both managers that are weighed anew, and evictions by themselves.

ghost use Rattle.std.specs.Prelude.{◌<◌};

use cache_entries::entry::CacheEntryKey;
use cache_evict::{EvictFault, EvictionManager, lru, simple_lru};
use cache_words::key::CompactCacheKey;
use cache_words::text::Text;
use cache_words::time::Moment;
use rand_core::SeedableRng;
use rand_pcg::Pcg64;
use std::alloc::Global;

/// A call on the entry of a key, with what it must return.
#[derive(Clone, Copy)]
enum Step {
    /// It is put with a weight, and evicts nothing.
    Put(u8, usize),
    /// It gets another weight, and had that one.
    Anew(u8, usize, Option<usize>),
    /// The same is refused, since the shard can't count the weight.
    Heavy(u8, usize),
    /// These go, in order.
    Evict(&'static [u8]),
    /// The weight and the number of all entries.
    Holds(usize, usize),
}

/// What the entries may weigh, and the calls.
type Case = (usize, &'static [Step]);

const CASES: &[Case] = &[
    // The only entry goes.
    (
        4,
        &[
            Step::Put(1, 1),
            Step::Anew(1, 5, Some(1)),
            Step::Holds(5, 1),
            Step::Evict(&[1]),
            Step::Holds(0, 0),
        ],
    ),
    // The entry stays where it is in the order.
    (
        6,
        &[
            Step::Put(1, 1),
            Step::Put(2, 2),
            Step::Put(3, 1),
            Step::Anew(1, 4, Some(1)),
            Step::Anew(2, 3, Some(2)),
            Step::Holds(8, 3),
            Step::Evict(&[1]),
            Step::Holds(4, 2),
            Step::Anew(3, 7, Some(1)),
            Step::Evict(&[2, 3]),
        ],
    ),
    // A lighter weight leaves room.
    (
        4,
        &[
            Step::Put(1, 4),
            Step::Anew(1, 1, Some(4)),
            Step::Put(2, 3),
            Step::Evict(&[]),
            Step::Holds(4, 2),
        ],
    ),
    // An entry that isn't tracked is put first.
    (
        4,
        &[
            Step::Put(1, 2),
            Step::Anew(2, 3, None),
            Step::Holds(5, 2),
            Step::Evict(&[1]),
            Step::Anew(2, 4, Some(3)),
            Step::Evict(&[]),
            Step::Holds(4, 1),
        ],
    ),
    // What can't be counted is refused, and all stays.
    (
        usize::MAX,
        &[
            Step::Put(1, usize::MAX - 1),
            Step::Put(2, 1),
            Step::Heavy(2, 2),
            Step::Heavy(1, usize::MAX),
            Step::Heavy(3, 1),
            Step::Anew(2, 1, Some(1)),
            Step::Holds(usize::MAX, 2),
            Step::Evict(&[]),
        ],
    ),
];

/// An entry weighs 0 in one list.
const NOTHING: &[Step] = &[
    Step::Put(1, 2),
    Step::Anew(1, 0, Some(2)),
    Step::Anew(2, 0, None),
    Step::Holds(0, 2),
];

/// In shards it weighs 1 at least.
const ONE_AT_LEAST: &[Step] = &[
    Step::Put(1, 2),
    Step::Anew(1, 0, Some(2)),
    Step::Anew(2, 0, None),
    Step::Holds(2, 2),
];

/// The entry of a key.
fn entry(alloc: Global, key: u8) -> CacheEntryKey {
    CacheEntryKey::key_only(CompactCacheKey {
        primary: [key; 16],
        variance: None,
        user_tag: Text::from_string(String::new(alloc)),
    })
}

/// Whether the entries are those of the keys, in order.
fn are(alloc: Global, entries: &[CacheEntryKey], keys: &[u8]) -> bool {
    let mut number = 0usize;
    for &key in keys {
        if entries.get(number) != Some(&entry(alloc, key)) {
            return false;
        }
        number = number.wrapping_add(1);
    }
    entries.len() == keys.len()
}

/// Whether an admission or evictions returned those.
fn are_evicted(
    alloc: Global,
    evicted: Result<Vec<CacheEntryKey>, EvictFault>,
    keys: &[u8],
) -> bool {
    match evicted {
        Ok(evicted) => are(alloc, evicted.as_slice(), keys),
        Err(_) => false,
    }
}

/// Whether a new weight was refused as one that can't be counted.
fn is_heavy(weighed: Result<Option<usize>, EvictFault>) -> bool {
    match weighed {
        Err(EvictFault::Weight(evicted)) => evicted.is_empty(),
        _ => false,
    }
}

/// Whether the call returns that.
fn is_done<M: EvictionManager>(
    alloc: Global,
    manager: &mut M,
    rng: &mut Pcg64,
    step: Step,
) -> bool {
    match step {
        Step::Put(key, size) => {
            let put = manager.admit(alloc, entry(alloc, key), size, Moment::from_seconds(0), rng);
            are_evicted(alloc, put, &[])
        }
        Step::Anew(key, size, old) => {
            manager.reweigh(alloc, &entry(alloc, key), size).ok() == Some(old)
        }
        Step::Heavy(key, size) => is_heavy(manager.reweigh(alloc, &entry(alloc, key), size)),
        Step::Evict(keys) => are_evicted(alloc, manager.evict(alloc, rng), keys),
        Step::Holds(size, items) => {
            manager.total_size() == size && manager.total_items() == items
        }
    }
}

/// Whether all calls come true.
fn all_done<M: EvictionManager>(alloc: Global, manager: &mut M, steps: &[Step]) -> bool {
    let mut rng = Pcg64::seed_from_u64(1);
    for &step in steps {
        if !is_done(alloc, manager, &mut rng, step) {
            return false;
        }
    }
    true
}

/// Whether all calls of one list do.
fn list_does(alloc: Global, limit: usize, steps: &[Step]) -> bool {
    match simple_lru::Manager::new(alloc, limit) {
        Ok(mut list) => all_done(alloc, &mut list, steps),
        Err(_) => false,
    }
}

/// The same of N shards.
fn shards_do<const N: usize>(alloc: Global, limit: usize, steps: &[Step]) -> bool
    requires { 0 < N }
{
    match lru::Manager::<N>::with_capacity(alloc, limit, 0) {
        Ok(mut shards) => all_done(alloc, &mut shards, steps),
        Err(_) => false,
    }
}

#[test]
fn entries_are_weighed_anew(rt: HostRuntime) {
    for &(limit, steps) in CASES {
        assert!(rt; list_does(rt.alloc(), limit, steps));
        assert!(rt; shards_do::<1>(rt.alloc(), limit, steps));
    }
    assert!(rt; list_does(rt.alloc(), 9, NOTHING));
    assert!(rt; shards_do::<1>(rt.alloc(), 9, ONE_AT_LEAST));
}
