//! A request, off and on.
ghost use Rattle.std.specs.Prelude.{◌≡◌, None, true, false};
ghost use Rattle.request_phases.specs.Phases.{is_disabled, is_enabled, is_bypass, is_upstream_used};
ghost use Rattle.request_phases.specs.Digests.{added};
ghost use Rattle.request_phases.specs.Locks.{held};
ghost use Rattle.request_cache.specs.Request.{unused, enabled_with};

use cache_heads::{CacheMeta, NoCacheReason};
use cache_store::admission::Decision;
use cache_store::max_file_size::MaxFileSizeTracker;
use cache_store::storage::Storage;
use cache_words::key::{CacheKey, HashBinary};
use cache_words::time::{Duration, Moment};
use request_phases::{CacheOptionOverrides, CachePhase, HttpCacheDigest, LockAbandon, RequestLock};
use std::marker::Model;

/// Which parts of a cache a request uses beside its store.
#[derive(Clone, Copy, Debug, PartialEq, Eq)]
pub struct Uses {
    /// The manager, which tracks what is stored and evicts.
    pub eviction: bool,
    /// The predictor.
    pub predictor: bool,
    /// The lock of the keys.
    pub lock: bool,
}

/// A request to a cache: its phase, and what it holds of the cache, whose parts are lent to each call.
///
/// It can't be dropped: `end` gives back what it holds. A contract sees all of its fields.
pub struct HttpCache<S: Storage> {
    pub(crate) phase: CachePhase,
    pub(crate) digest: HttpCacheDigest,
    pub(crate) key: Option<CacheKey>,
    pub(crate) size: Option<MaxFileSizeTracker>,
    pub(crate) predicts: bool,
    pub(crate) predicted: Option<NoCacheReason>,
    pub(crate) evicts: bool,
    pub(crate) admits: bool,
    pub(crate) lock: RequestLock,
    pub(crate) meta: Option<CacheMeta>,
    // An older response isn't found.
    pub(crate) valid_after: Option<Moment>,
    // The variance of the stale response that a new one replaces.
    pub(crate) stale_variance: Option<HashBinary>,
    pub(crate) reader: Option<S::Hit>,
    pub(crate) writer: Option<S::Miss>,
}

impl<S: Storage> Model for HttpCache<S> {
    ghost use Rattle.request_cache.specs.Request.{Request, IsKeyed, IsIdleWhenDisabled};

    ghost Value = { Request S.Hit S.Miss };

    ghost view = { λ r. record {
      phase = r.phase;
      digest = r.digest;
      key = r.key;
      size = r.size;
      predicts = r.predicts;
      predicted = r.predicted;
      evicts = r.evicts;
      admits = r.admits;
      lock = r.lock;
      meta = r.meta;
      valid_after = r.valid_after;
      stale_variance = r.stale_variance;
      reader = r.reader;
      writer = r.writer;
    } };

    ghost invariant = { λ r. IsKeyed r.phase r.key × IsIdleWhenDisabled r.phase r.reader r.writer r.lock };
}

impl<S: Storage> HttpCache<S> {
    /// Returns a request that uses no cache.
    #[inline(always)]
    pub fn new() -> HttpCache<S>
        ensures { result ≡ unused }
    {
        HttpCache {
            phase: CachePhase::Disabled(NoCacheReason::NeverEnabled),
            digest: HttpCacheDigest::default(),
            key: None,
            size: None,
            predicts: false,
            predicted: None,
            evicts: false,
            admits: false,
            lock: RequestLock::off(),
            meta: None,
            valid_after: None,
            stale_variance: None,
            reader: None,
            writer: None,
        }
    }

    /// Lets the request use a cache, with those parts of it. All is anew but what the request reports of itself; nothing is held of the lock.
    #[tactic(auto, using(crate::proofs::EndLaws::nothing_held_yet))]
    #[inline(always)]
    pub fn enable(&mut self, uses: Uses, overrides: Option<CacheOptionOverrides>)
        requires { is_disabled self.old.phase ≡ true }
        ensures enabled { self.new ≡ enabled_with uses overrides self.old }
        ensures nothing_held { held self.new.lock ≡ None }
    {
        self.phase = CachePhase::Uninit;
        self.key = None;
        self.size = None;
        self.predicts = uses.predictor;
        self.predicted = None;
        self.evicts = uses.eviction;
        self.admits = false;
        self.meta = None;
        self.valid_after = None;
        self.stale_variance = None;
        self.lock.set(uses.lock, overrides);
    }

    /// Returns the phase.
    pub fn phase(&self) -> CachePhase
        ensures { result ≡ self.now.phase }
    {
        self.phase
    }

    /// Returns whether the request uses the cache: it is neither off nor passed by.
    pub fn enabled(&self) -> bool
        ensures { result ≡ is_enabled self.now.phase }
    {
        self.phase.is_enabled()
    }

    /// Returns whether the request passes the cache by.
    pub fn bypassing(&self) -> bool
        ensures { result ≡ is_bypass self.now.phase }
    {
        self.phase.is_bypass()
    }

    /// Returns whether the response comes from upstream.
    pub fn upstream_used(&self) -> bool
        ensures { result ≡ is_upstream_used self.now.phase }
    {
        self.phase.is_upstream_used()
    }

    /// Returns how long the request waited for permits, if it did.
    pub fn lock_duration(&self) -> Option<Duration>
        ensures { result ≡ self.now.digest.lock_duration }
    {
        self.digest.lock_duration
    }

    /// Returns how long look-ups took, if that was added.
    pub fn lookup_duration(&self) -> Option<Duration>
        ensures { result ≡ self.now.digest.lookup_duration }
    {
        self.digest.lookup_duration
    }

    /// Adds a time of a look-up. A sum past the greatest time is the greatest.
    pub fn add_lookup_duration(&mut self, time: Duration)
        ensures { self.new ≡ record self.old { digest = record self.old.digest { lookup_duration = added self.old.digest.lookup_duration time } } }
    {
        self.digest.add_lookup_duration(time);
    }

    /// Returns why the last wait was given up that a fill ended.
    pub fn lock_abandon(&self) -> Option<LockAbandon>
        ensures { result ≡ self.now.digest.lock_abandon }
    {
        self.digest.lock_abandon
    }

    /// Returns what the admission policy decided, if it was asked.
    pub fn admission_decision(&self) -> Option<Decision>
        ensures { result ≡ self.now.digest.admission }
    {
        self.digest.admission
    }
}
