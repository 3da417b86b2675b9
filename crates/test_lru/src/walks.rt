//! Evictions down to a limit.

use lru_core::LruCore;
use rand_core::SeedableRng;
use rand_pcg::Pcg64;
use std::alloc::Global;

/// How many of six rows of weight 2 are evicted to the limit, by the draws of a seed; `None` where memory is refused.
fn evicted(core: &mut LruCore<u64, 2>, alloc: Global, seed: u64) -> Option<usize> {
    for key in 2..8 {
        core.admit(key, key, 2).ok()?;
    }
    let mut rng = Pcg64::seed_from_u64(seed);
    match core.evict_to_limit(alloc, &mut rng) {
        Ok(pairs) => Some(pairs.len()),
        Err(_) => None,
    }
}

/// Whether both shards together have three rows that weigh 6, and as many were evicted.
fn are_left(core: &LruCore<u64, 2>) -> bool {
    core.evicted_len() == 3
        && core.evicted_weight() == 6
        && core.len() == 3
        && core.weight() == 6
        && core.shards() == 2
        && core.shard_len(0).wrapping_add(core.shard_len(1)) == 3
        && core.shard_weight(0).wrapping_add(core.shard_weight(1)) == 6
}

/// Whether of six rows of weight 2 three are evicted to a limit of 6, and three left.
fn evicts(alloc: Global, seed: u64) -> bool {
    match LruCore::with_capacity(alloc, 6, 10) {
        Ok(mut core) => {
            core.reserve_shard(1, 3).is_ok()
                && evicted(&mut core, alloc, seed) == Some(3)
                && are_left(&core)
        }
        Err(_) => false,
    }
}

#[test]
fn evicts_to_its_limit_whatever_the_draws(rt: HostRuntime) {
    for seed in 0..8 {
        assert!(rt; evicts(rt.alloc(), seed));
    }
}
