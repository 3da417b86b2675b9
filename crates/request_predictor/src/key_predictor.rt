//! What a predictor is asked for.
ghost use Rattle.std.specs.Prelude.{◌≡◌, ℕ, Bool, List, Option, Some, None, is_none, IfSome, IfOk, OnOk, OnErr, if◌then◌else◌};
ghost use Rattle.cache_words.specs.Key.{key_of};
ghost use Rattle.cache_heads.specs.declared.reason.NoCacheReason.{NoCacheReason};

use cache_heads::NoCacheReason;
use cache_words::key::CacheKey;
use std::alloc::AllocError;

/// Predicts which responses are kept, by what was marked. Keys are distinguished by the hash of what is requested: by what
/// a response varies isn't known before a look-up.
pub trait CacheablePredictor {
    // The reason for which a key is marked as not kept, if it is.
    ghost reason_of: { Self → List ℕ → Option NoCacheReason };

    // The reason that the predictor gives for a key.
    ghost tells: { Self → List ℕ → Option NoCacheReason };

    // Whether such a reason is remembered.
    ghost remembers: { Self → NoCacheReason → Bool };

    // The predictor once a key was marked as kept.
    ghost unmarked: { Self → List ℕ → Self };

    // The predictor once a key was marked as not kept, for that reason.
    ghost marked: { Self → List ℕ → NoCacheReason → Self };

    /// Returns whether a response of the key is predicted to be kept: no reason against it is known. Nothing changes.
    fn cacheable_prediction(&self, key: &CacheKey) -> bool
        ensures { result ≡ is_none (reason_of self.now (key_of key.now).primary) };

    /// Returns the reason that the predictor gives for the key: the one for which it is marked as not kept, or none. A predictor that
    /// gives no reasons returns `None`, which the original's trait has as its default.
    fn predicted_uncacheable_reason(&self, key: &CacheKey) -> Option<NoCacheReason>
        ensures answer { result ≡ tells self.now (key_of key.now).primary }
        ensures told { IfSome result (λ r. reason_of self.now (key_of key.now).primary ≡ Some r) };

    /// Marks the key as kept. Returns false if it was marked as not kept.
    fn mark_cacheable(&mut self, key: &CacheKey) -> bool
        ensures answer { result ≡ is_none (reason_of self.old (key_of key.now).primary) }
        ensures change { self.new ≡ unmarked self.old (key_of key.now).primary };

    /// Marks the key as not kept, if the reason is remembered. Returns `None` where it isn't, and else whether the key
    /// wasn't marked so before. Out of memory nothing changes.
    fn mark_uncacheable(
        &mut self,
        key: &CacheKey,
        reason: NoCacheReason,
    ) -> Result<Option<bool>, AllocError>
        ensures answer { IfOk result (λ r. r ≡ (if remembers self.old reason then Some (is_none (reason_of self.old (key_of key.now).primary)) else None)) }
        ensures change { OnOk result (self.new ≡ (if remembers self.old reason then marked self.old (key_of key.now).primary reason else self.old)) }
        ensures err { OnErr result (self.new ≡ self.old) };
}
