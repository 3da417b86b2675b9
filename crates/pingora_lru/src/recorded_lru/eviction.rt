//! Evictions, each of the last row of a shard.

ghost use Rattle.std.specs.Prelude.{◌<◌, vec_len, Some, IfOk, IfErr, IfSome};
ghost use Rattle.pingora_lru.specs.Draws.{Draws};
ghost use Rattle.pingora_lru.specs.Records.{IsReply, AreEvicted};

use super::RecordedLru;
use crate::call::{LruCall, Reply};
use rand_core::Rng;
use std::alloc::{AllocError, Global};
use std::hash::BuildHasher;
use std::sync::Wait;

impl<T: Drop, const N: usize, S: BuildHasher> RecordedLru<T, N, S> {
    /// Evicts the last row of the shard of that number modulo N, whatever the limit.
    ///
    /// # Errors
    ///
    /// No room in the record. Nothing changes.
    pub fn evict_shard<R: Wait>(&self, rt: &R, shard: u64) -> Result<Option<(T, usize)>, AllocError>
        ensures { IfOk result (λ gone. IsReply LruCall.Evict (Reply.Taken gone)) }
    {
        self.evict_at(rt, self.shard_of(shard))
    }

    /// One step of eviction, as `Lru::evict_step`. A look at an empty shard is kept as an eviction that took nothing.
    ///
    /// # Errors
    ///
    /// No room in a record. Nothing was taken.
    pub fn evict_step<R: Wait>(
        &self,
        rt: &R,
        a: u64,
        b: u64,
    ) -> Result<Option<(T, usize)>, AllocError>
        ensures { IfOk result (λ gone. IfSome gone (λ row. IsReply LruCall.Evict (Reply.Taken (Some row)))) }
    {
        if !self.counts.is_over() {
            return Ok(None);
        }
        let first = self.shard_of(a);
        let second = self.shard_of(b);
        let mut place = if self.shard_len(rt, first) < self.shard_len(rt, second) {
            second
        } else {
            first
        };
        'circle: for _ in 0..N {
            let gone = self.evict_at(rt, place)?;
            if gone.is_some() {
                return Ok(gone);
            }
            place = if place + 1 == N { 0 } else { place + 1 };
        }
        Ok(None)
    }

    /// Evicts as `Lru::evict_to_limit`. If memory for a pair runs out, it stops before the draws for that pair, and if a record
    /// has no room, after them; its error has the pairs so far.
    pub fn evict_to_limit<R: Wait, G: Rng>(
        &self,
        rt: &R,
        alloc: Global,
        rng: &mut G,
    ) -> Result<Vec<(T, usize)>, Vec<(T, usize)>>
        ensures pairs { IfOk result (λ v. AreEvicted v.items) }
        ensures draws { IfOk result (λ v. Draws (vec_len v) (G.stream rng.old) (G.stream rng.new)) }
        ensures refused { IfErr result (λ v. AreEvicted v.items) }
        ensures drawn { IfErr result (λ v. Draws (vec_len v) (G.stream rng.old) (G.stream rng.new)) }
    {
        let mut pairs = Vec::new(alloc);
        'steps: for _ in 0..self.len() {
            if !self.counts.is_over() {
                break;
            }
            if pairs.reserve(1).is_err() {
                return Err(pairs);
            }
            let a = rng.next_u64();
            let b = rng.next_u64();
            match self.evict_step(rt, a, b) {
                Ok(Some(pair)) => pairs.push_reserved(pair),
                Ok(None) => break,
                Err(_) => return Err(pairs),
            }
        }
        Ok(pairs)
    }

    /// Removes the row of `key`, and returns its data and weight.
    ///
    /// # Errors
    ///
    /// No room in the record. Nothing changes.
    pub fn remove<R: Wait>(&self, rt: &R, key: u64) -> Result<Option<(T, usize)>, AllocError>
        ensures { IfOk result (λ gone. IsReply (LruCall.Remove key) (Reply.Taken gone)) }
    {
        match self.step(rt, self.shard_of(key), LruCall::Remove(key)) {
            Ok(Reply::Taken(row)) => Ok(row),
            Ok(_) => unreachable!(),
            Err(_) => Err(AllocError),
        }
    }

    // Evicts the last row of a shard.
    fn evict_at<R: Wait>(&self, rt: &R, shard: usize) -> Result<Option<(T, usize)>, AllocError>
        requires { shard < N }
        ensures { IfOk result (λ gone. IsReply LruCall.Evict (Reply.Taken gone)) }
    {
        match self.step(rt, shard, LruCall::Evict) {
            Ok(Reply::Taken(row)) => Ok(row),
            Ok(_) => unreachable!(),
            Err(_) => Err(AllocError),
        }
    }
}
