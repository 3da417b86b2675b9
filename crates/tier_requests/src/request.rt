//! A request.
ghost use Rattle.std.specs.Prelude.{◌≡◌, false, IfOk, Some, None};
ghost use Rattle.cache_lock.specs.State.{after_all};
ghost use Rattle.tier_model.specs.Keys.{entry_of};
ghost use Rattle.tier_model.specs.Checks.{has_permit, is_waiting, can_begin};
ghost use Rattle.tier_model.specs.State.{closed};
ghost use Rattle.tier_model.specs.After.{opened_request, leave_of, turned, on_write};
ghost use Rattle.tier_model.specs.Shelf.{landed};
ghost use Rattle.tier_requests.specs.Shelves.{shelf_of};
ghost use Rattle.tier_requests.specs.Plain.{opened_with, given_of};

use bytes::Bytes;
use cache_lock::CacheLock;
use cache_store::storage::HandleHit;
use cache_words::key::CacheKey;
use cache_words::time::Duration;
use head_packed::HeldMeta;
use request_cache::{HttpCache, Uses};
use request_phases::{CacheOptionOverrides, CachePhase};
use request_store::{CacheParts, NoPolicy};
use std::hash::BuildHasher;
use std::marker::Model;
use store_memory::MemCache;
use tier_model::event::LockGiven;

/// What the requests of a tier are lent: the store, the order of use and the lock. Nothing predicts, and all is admitted.
pub type TierParts<S, E> = CacheParts<MemCache<S>, E, (), CacheLock<S>, NoPolicy>;

/// What an open request holds. It can't be dropped: `end` gives it back.
pub struct Request<S: BuildHasher> {
    pub(crate) cache: HttpCache<MemCache<S>>,
    // Its look-ups ask for the lock.
    pub(crate) asks: bool,
    // The longest that it waits in all.
    pub(crate) wait: Option<Duration>,
    // Its last look-up gave it a wait.
    pub(crate) gave_read: bool,
    // The number of the write that it found past its moment, of use while it holds the meta of that.
    pub(crate) seen: u64,
    // The meta of that, whose head is a share of what the store keeps. Boxed, so that a request without one stays small.
    pub(crate) held: Option<Box<HeldMeta>>,
    // A whole body that was found, until it is read: to read it then takes no memory. Once it was read its reader is gone, and no
    // bytes stand here: nothing keeps the body.
    pub(crate) unread: Option<Bytes>,
}

impl<S: BuildHasher> Model for Request<S> {
    ghost use Rattle.tier_model.specs.State.{Request as Plain};
    ghost use Rattle.tier_requests.specs.Codes.{request_code};

    ghost Value = { Plain };

    ghost coded = { request_code };

    ghost use Rattle.tier_requests.specs.Plain.{share_of, plain_of, IsDriven};

    ghost view = { λ r. plain_of r.cache r.asks r.wait r.gave_read r.seen (share_of r.held) r.unread };

    ghost invariant = { λ r. IsDriven r.cache r.asks r.wait r.gave_read (share_of r.held) r.unread };
}

// A request to a cache under that key.
#[inline(always)]
fn opened<S: BuildHasher>(
    key: CacheKey,
    asks: bool,
    wait: &Option<Duration>,
) -> HttpCache<MemCache<S>>
    ensures { result ≡ opened_with key asks wait.now }
{
    let mut cache = HttpCache::new();
    let uses = Uses {
        eviction: true,
        predictor: false,
        lock: asks,
    };
    let options = CacheOptionOverrides {
        wait_timeout: *wait,
        max_lock_retries: None,
    };
    cache.enable(uses, Some(options));
    cache.set_cache_key(key);
    cache
}

// A request that was just opened, under a key that is kept.
#[inline(always)]
pub(crate) fn opened_request<S: BuildHasher>(
    key: CacheKey,
    asks: bool,
    wait: Option<Duration>,
) -> Request<S>
    ensures { result ≡ opened_request wait (entry_of key) asks }
{
    let cache = opened(key, asks, &wait);
    Request {
        cache,
        asks,
        wait,
        gave_read: false,
        seen: 0,
        held: None,
        unread: None,
    }
}

impl<S: BuildHasher> Request<S> {
    // Ends the request: its write is left, its reader is spent, and a permit is dropped or a wait left.
    pub(crate) fn end<E>(self, parts: &mut TierParts<S, E>)
        ensures shelf { shelf_of parts.new.store ≡ turned self.reader closed (on_write self.write (landed false) (shelf_of parts.old.store)) }
        ensures lock { parts.new.lock ≡ after_all (leave_of self.held) parts.old.lock }
        ensures parts { parts.new ≡ record parts.old { store = parts.new.store; lock = parts.new.lock } }
    {
        let Request {
            cache,
            asks: _,
            wait: _,
            gave_read: _,
            seen: _,
            held: _,
            unread: _,
        } = self;
        cache.end(parts);
    }

    // Whether its look-ups ask for the lock.
    pub(crate) fn asks(&self) -> bool
        ensures { result ≡ self.now.asks }
    {
        self.asks
    }

    // Whether the request holds a permit.
    pub(crate) fn has_permit(&self) -> bool
        ensures { result ≡ has_permit self.now.held }
    {
        self.cache.is_cache_lock_writer()
    }

    // Whether the request waits for another's permit.
    pub(crate) fn is_waiting(&self) -> bool
        ensures { result ≡ is_waiting self.now.held }
    {
        self.cache.is_cache_locked()
    }

    /// Returns whether the request may begin a write.
    pub fn can_begin(&self) -> bool
        ensures { result ≡ can_begin self.now.phase self.now.gave_read }
    {
        match self.cache.phase() {
            CachePhase::Miss => self.cache.maybe_cache_meta().is_none(),
            CachePhase::Stale => !self.gave_read,
            _ => false,
        }
    }

    // Spends the reader, if there is one.
    pub(crate) fn spend_reader<E>(&mut self, parts: &mut TierParts<S, E>)
        ensures request { self.new ≡ record self.old { reader = closed } }
        ensures shelf { shelf_of parts.new.store ≡ turned self.old.reader closed (shelf_of parts.old.store) }
        ensures parts { parts.new ≡ record parts.old { store = parts.new.store } }
    {
        self.unread = None;
        if let Some(hit) = self.cache.take_reader() {
            hit.finish(&mut parts.store);
        }
    }

    // What it holds of the lock.
    pub(crate) fn given(&self) -> LockGiven
        ensures { result ≡ given_of self.now.held }
    {
        if self.has_permit() {
            return LockGiven::Write;
        }
        if self.is_waiting() {
            return LockGiven::Read;
        }
        LockGiven::None
    }
}
