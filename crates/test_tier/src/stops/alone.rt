//! Saves of which one call fails.
ghost use Rattle.std.specs.Prelude.{◌≡◌, ◌<◌, length};

use super::{Files, LIMIT, Left, OLD, Plan, Told, age, leaves, put_all, saved};
use std::alloc::Global;
use tier_single::tier::Tier;

// The call that fails alone, the shards whose files are old then, and how many files the next start removes.
const ONE: &[(usize, usize, usize)] = &[(1, 1, 0), (2, 1, 0), (3, 1, 1), (4, 1, 1), (5, 1, 1)];

fn fails_alone<const N: usize>(alloc: Global, words: &[u32], left: Left) -> bool
    requires { (0 < N) × (length words.now ≡ N) }
{
    match Tier::<N>::new(alloc, LIMIT, None, age(), None) {
        Ok(mut tier) => {
            let names = b"abcdef".as_slice();
            let _put = put_all(alloc, &mut tier, names);
            let old = saved::<N>(alloc, words, OLD);
            let new = saved::<N>(alloc, words, names);
            leaves(alloc, &tier, &Files { old, new }, words, names, left)
        }
        Err(_) => false,
    }
}

// Each call of a save at one shard.
fn each_fails_alone(alloc: Global) -> bool {
    let mut all = true;
    for &(call, to, removed) in ONE {
        let left = Left {
            plan: Plan::Once(call),
            told: Told::Folder,
            from: 0,
            to,
            removed,
        };
        all = fails_alone::<1>(alloc, &[7], left) && all;
    }
    all
}

// The tenth call at four shards creates the third one's file.
const THIRD: Left = Left {
    plan: Plan::Once(10),
    told: Told::Report(3, 1),
    from: 2,
    to: 3,
    removed: 0,
};

#[test]
fn one_failing_call_of_a_save_fails_its_shard(rt: HostRuntime) {
    assert!(rt; each_fails_alone(rt.alloc()));
    assert!(rt; fails_alone::<4>(rt.alloc(), &[7, 8, 9, 7], THIRD));
}
