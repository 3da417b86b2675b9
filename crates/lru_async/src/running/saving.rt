//! Handing out the rows of all shards.

ghost use Rattle.std.specs.Prelude.{◌≡◌, ◌≤◌};
ghost use Rattle.lru_async.specs.Saving.{Writes};

use super::AsyncLru;
use std::hash::Hash;
use std::sync::Wait;

/// The rows of a shard, most recent first: clones of their keys, with their weights.
#[derive(Debug, Drop)]
pub struct ShardData<K> {
    pub shard: usize,
    pub items: Vec<(K, usize)>,
}

impl<K: Hash + Clone, const N: usize> AsyncLru<K, N> {
    /// Hands the rows of each shard to `write_shard`, in turn, and returns for how many shards it returned `Ok`. A shard whose question
    /// is refused, as where there is no memory for the clones, is left out. Clones are to equal what they are clones of.
    pub fn save<R: Wait, E: Drop, W: FnMut(ShardData<K>) -> Result<(), E>>(
        &self,
        rt: &R,
        write_shard: &mut W,
    ) -> usize
        requires callable { (state : W) (rows : _) → W.pre state rows }
        requires clones { (key copy : K) → K.is_clone key copy → copy ≡ key }
        ensures writes { Writes (λ before rows r after. W.step before rows r after) N result write_shard.old write_shard.new }
        ensures count { result ≤ N }
    {
        let mut written = 0;
        for shard in 0..N {
            let Ok(items) = self.snapshot_shard(rt, shard) else {
                continue;
            };
            match write_shard(ShardData { shard, items }) {
                Ok(()) => written += 1,
                Err(_error) => continue,
            }
        }
        written
    }
}
