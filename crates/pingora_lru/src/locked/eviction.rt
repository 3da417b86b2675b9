//! Evictions, each of the last row of a shard.

ghost use Rattle.std.specs.Prelude.{◌≡◌, ◌<◌, ◌-◌, List, length, slice_get, vec_len, Some, IfSome, IfOk, IfErr};
ghost use Rattle.std.specs.Option.{option_map};
ghost use Rattle.lru_core.specs.Rows.{pair_of};
ghost use Rattle.lru_core.specs.declared.rows.Row.{Row};
ghost use Rattle.pingora_lru.specs.Draws.{Draws, after_steps};

use super::Lru;
use crate::counts::Sums;
use crate::edits::evict;
use rand_core::Rng;
use std::alloc::Global;
use std::hash::BuildHasher;
use std::sync::Wait;

impl<T: Drop, const N: usize, S: BuildHasher> Lru<T, N, S> {
    /// Evicts the last row of the shard of that number modulo N, whatever the limit.
    pub fn evict_shard<R: Wait>(&self, rt: &R, shard: u64) -> Option<(T, usize)>
        ensures { (rows : List (Row T)) × (result ≡ option_map pair_of (slice_get rows (length rows - 1))) }
    {
        self.evict_at(rt, self.place_of(shard))
    }

    /// One step of eviction, by two draws: if the weight is past the limit or the number of rows past the watermark, it
    /// removes the last row of the longer of the two shards that the draws name, of the first if they are equally long;
    /// if that shard is empty, of the next non-empty one around the circle.
    pub fn evict_step<R: Wait>(&self, rt: &R, a: u64, b: u64) -> Option<(T, usize)>
        ensures { IfSome result (λ pair. (rows : List (Row T)) × (Some pair ≡ option_map pair_of (slice_get rows (length rows - 1)))) }
    {
        if !self.counts.is_over() {
            return None;
        }
        let first = self.place_of(a);
        let second = self.place_of(b);
        let mut place = if self.shard_len(rt, first) < self.shard_len(rt, second) {
            second
        } else {
            first
        };
        'circle: for _ in 0..N {
            let gone = self.evict_at(rt, place);
            if gone.is_some() {
                return gone;
            }
            place = if place + 1 == N { 0 } else { place + 1 };
        }
        None
    }

    /// Evicts by steps, each by the next two words of the generator, until neither limit is passed, but at most as many rows as
    /// there are when it begins, so that rows which others admit meanwhile don't hold it. If memory for a pair runs out, it
    /// stops before the draws for that pair, and its error has the pairs so far.
    pub fn evict_to_limit<R: Wait, G: Rng>(
        &self,
        rt: &R,
        alloc: Global,
        rng: &mut G,
    ) -> Result<Vec<(T, usize)>, Vec<(T, usize)>>
        ensures draws { IfOk result (λ v. Draws (vec_len v) (G.stream rng.old) (G.stream rng.new)) }
        ensures drawn { IfErr result (λ v. G.stream rng.new ≡ after_steps (vec_len v) (G.stream rng.old)) }
    {
        let mut pairs = Vec::new(alloc);
        'steps: for _ in 0..self.len() {
            if !self.counts.is_over() {
                break;
            }
            if pairs.reserve(1).is_err() {
                return Err(pairs);
            }
            let a = rng.next_u64();
            let b = rng.next_u64();
            match self.evict_step(rt, a, b) {
                Some(pair) => pairs.push_reserved(pair),
                None => break,
            }
        }
        Ok(pairs)
    }

    // Removes the last row of a shard, and counts it.
    fn evict_at<R: Wait>(&self, rt: &R, place: usize) -> Option<(T, usize)>
        requires { place < N }
        ensures { (rows : List (Row T)) × (result ≡ option_map pair_of (slice_get rows (length rows - 1))) }
    {
        let mut unit = self.shards[place].lock(rt);
        let before = Sums::of(&*unit);
        let gone = evict(&mut *unit);
        self.counts.recount(&*unit, before);
        if let Some(pair) = &gone {
            self.counts.evicted(pair.1);
        }
        gone
    }
}
