//! The predictor.
ghost use Rattle.std.specs.Prelude.{◌≡◌, ◌<◌, [], replicate, is_none, IfOk, OnOk, OnErr};
ghost use Rattle.std.specs.NonZero.{non_zero_usize_get};
ghost use Rattle.lru.specs.LruCache.{lru_cache};
ghost use Rattle.request_predictor.specs.Reasons.{at_least_one, no_reasons, list_number, listed_reason, without_key, with_key, is_remembered};

use crate::key_predictor::CacheablePredictor;
use crate::skipped::{CustomReasonPredicate, NothingSkipped};
use cache_heads::NoCacheReason;
use cache_words::key::{CacheHashKey, CacheKey, HashBinary};
use lru::LruCache;
use std::alloc::{AllocError, Global};
use std::hash::{BuildHasher, BuildHasherDefault, FoldHasher};
use std::marker::Model;
use std::num::NonZeroUsize;

/// Remembers which keys lately had a response that may not be stored, and why. A contract sees N lists of keys with reasons. Each
/// list has a bounded length, and begins with the key that was marked last.
///
/// Keys are found by their hashes. `new` hashes with a fixed start, for keys that the caller chooses itself; `with_hasher`
/// takes a start of the caller's, for keys that attackers choose, who then can't slow look-ups down.
#[derive(Drop)]
pub struct Predictor<
    const N: usize,
    P: CustomReasonPredicate + Drop = NothingSkipped,
    S: BuildHasher + Drop = BuildHasherDefault<FoldHasher>,
> {
    lists: Vec<LruCache<HashBinary, NoCacheReason, S>>,
    skipped: Option<P>,
}

// A capacity; 0 is 1.
fn at_least_one(capacity: usize) -> NonZeroUsize
    ensures { non_zero_usize_get result ≡ at_least_one capacity }
{
    if capacity == 0 {
        return NonZeroUsize::MIN;
    }
    match NonZeroUsize::new(capacity) {
        Some(capacity) => capacity,
        None => NonZeroUsize::MIN,
    }
}

impl<const N: usize, P: CustomReasonPredicate + Drop, S: BuildHasher + Drop> Model
    for Predictor<N, P, S> {
    ghost use Rattle.std.specs.Prelude.{◌≡◌, ◌<◌, length};
    ghost use Rattle.request_predictor.specs.Reasons.{Predictions};

    ghost Value = { Predictions P };

    ghost view = { λ p. record { lists = p.lists.items; skipped = p.skipped } };

    ghost invariant = { λ p. (0 < N) × (length p.lists.items ≡ N) };
}

impl<const N: usize, P: CustomReasonPredicate + Drop> Predictor<N, P> {
    /// Returns a predictor without marks, under hashes with a fixed start, whose lists have that capacity; 0 is 1. Custom
    /// reasons that the predicate names are not remembered.
    pub fn new(
        alloc: Global,
        capacity: usize,
        skipped: Option<P>,
    ) -> Result<Predictor<N, P>, AllocError>
        requires { 0 < N }
        ensures { IfOk result (λ p. p ≡ no_reasons N capacity skipped) }
    {
        Predictor::with_hasher(alloc, capacity, skipped, BuildHasherDefault::new())
    }
}

impl<const N: usize, P: CustomReasonPredicate + Drop, S: BuildHasher + Copy + Drop> Predictor<
    N,
    P,
    S,
> {
    /// The same, with hashes of that start.
    pub fn with_hasher(
        alloc: Global,
        capacity: usize,
        skipped: Option<P>,
        hasher: S,
    ) -> Result<Predictor<N, P, S>, AllocError>
        requires { 0 < N }
        ensures { IfOk result (λ p. p ≡ no_reasons N capacity skipped) }
    {
        let most = at_least_one(capacity);
        let lists = Self::empty_lists(alloc, N, most, hasher)?;
        Ok(Predictor { lists, skipped })
    }

    // Lists without marks, of that capacity.
    fn empty_lists(
        alloc: Global,
        number: usize,
        capacity: NonZeroUsize,
        hasher: S,
    ) -> Result<Vec<LruCache<HashBinary, NoCacheReason, S>>, AllocError>
        ensures { IfOk result (λ v. v.items ≡ replicate number (lru_cache [] (non_zero_usize_get capacity))) }
    {
        let mut lists = Vec::new(alloc);
        'lists: for _ in 0..number {
            let mut list = LruCache::unbounded_with_hasher(alloc, hasher)?;
            list.resize(capacity);
            lists.push(list)?;
        }
        Ok(lists)
    }
}

impl<const N: usize, P: CustomReasonPredicate + Drop, S: BuildHasher + Drop> Predictor<N, P, S> {
    // The number of a key's list.
    fn list_number(key: &HashBinary) -> usize
        requires { 0 < N }
        ensures value { result ≡ list_number N key.now }
        ensures below { result < N }
    {
        (u128::from_be_bytes(*key) % (N as u128)) as usize
    }

    // Whether a reason is remembered.
    fn is_remembered(&self, reason: &NoCacheReason) -> bool
        ensures { result ≡ is_remembered P.skips self.now.skipped reason.now }
    {
        match reason {
            NoCacheReason::OriginNotCache | NoCacheReason::ResponseTooLarge => true,
            NoCacheReason::Custom(text) => match &self.skipped {
                Some(predicate) => !predicate.is_skipped(text),
                None => true,
            },
            _ => false,
        }
    }

    // Puts the key first in its list, with this reason. Returns whether it wasn't listed.
    fn put_first(&mut self, key: HashBinary, reason: NoCacheReason) -> Result<bool, AllocError>
        ensures answer { IfOk result (λ r. r ≡ is_none (listed_reason N key self.old)) }
        ensures change { OnOk result (self.new ≡ with_key N key reason self.old) }
        ensures err { OnErr result (self.new ≡ self.old) }
    {
        let list = &mut self.lists[Self::list_number(&key)];
        let old = list.put(key, reason)?;
        Ok(old.is_none())
    }
}

impl<const N: usize, P: CustomReasonPredicate + Drop, S: BuildHasher + Drop> CacheablePredictor
    for Predictor<N, P, S> {
    ghost reason_of = { λ p key. listed_reason N key p };

    ghost tells = { λ p key. listed_reason N key p };

    ghost remembers = { λ p reason. is_remembered P.skips p.skipped reason };

    ghost unmarked = { λ p key. without_key N key p };

    ghost marked = { λ p key reason. with_key N key reason p };

    fn cacheable_prediction(&self, key: &CacheKey) -> bool {
        self.predicted_uncacheable_reason(key).is_none()
    }

    /// Returns the reason for which the key was marked last, while it is listed. Looking doesn't move it in its list.
    fn predicted_uncacheable_reason(&self, key: &CacheKey) -> Option<NoCacheReason> {
        let key = key.primary_bin();
        self.lists[Self::list_number(&key)].peek(&key).copied()
    }

    /// Takes the key out of its list. Returns whether it wasn't listed.
    fn mark_cacheable(&mut self, key: &CacheKey) -> bool {
        let key = key.primary_bin();
        let list = &mut self.lists[Self::list_number(&key)];
        list.pop(&key).is_none()
    }

    /// Puts the key first in its list, with this reason, if such a reason is remembered; a full list loses its last key.
    /// Returns `None` where the reason isn't remembered, and else whether the key wasn't listed. Out of memory nothing
    /// changes.
    fn mark_uncacheable(
        &mut self,
        key: &CacheKey,
        reason: NoCacheReason,
    ) -> Result<Option<bool>, AllocError> {
        if self.is_remembered(&reason) {
            let is_new = self.put_first(key.primary_bin(), reason)?;
            Ok(Some(is_new))
        } else {
            Ok(None)
        }
    }
}
