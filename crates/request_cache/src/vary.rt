//! What a response varies by.
ghost use Rattle.std.specs.Prelude.{◌≡◌, Some, None, true, is_some, if◌then◌else◌};
ghost use Rattle.cache_heads.specs.Meta.{provenance_of};
ghost use Rattle.request_phases.specs.Locks.{held, let_go};
ghost use Rattle.request_phases.specs.Phases.{can_vary, is_write_phase};
ghost use Rattle.request_store.specs.Variants.{same_variance};
ghost use Rattle.request_cache.specs.Variants.{variance_of, varying, variance_then, begins_family, leaves_key, with_variance, lock_varied};

use crate::request::HttpCache;
use cache_heads::CacheMeta;
use cache_lock::{CacheKeyLock, LockStatus};
use cache_store::storage::Storage;
use cache_words::key::HashBinary;
use request_phases::CachePhase;
use request_store::{CacheParts, same_variance, variance_of, vary_meta};

impl<S: Storage> HttpCache<S> {
    /// Goes on to the variant with that variance of the response that was found, whose meta this is; variants that are older than that aren't
    /// found then. Returns whether the response is that variant. Where it is, and the key has no variance yet, the key keeps none, since the
    /// first of the variants is stored under the key alone. Nothing may be held of the lock, which `holds_lock` tells: what is held is held
    /// under the key as it was, and would end under another.
    pub fn cache_vary_lookup(&mut self, variance: HashBinary, meta: &CacheMeta) -> bool
        requires phase { can_vary self.old.phase ≡ true }
        requires nothing_held { held self.old.lock ≡ None }
        ensures found { result ≡ same_variance meta.now.internal.variance (Some variance) }
        ensures request { self.new ≡ record self.old { valid_after = Some (provenance_of meta.now.internal); key = varying (variance_then result variance (variance_of self.old.key)) self.old.key } }
    {
        self.valid_after = Some(meta.provenance());
        let is_found = same_variance(meta.variance(), Some(variance));
        let Some(key) = &mut self.key else {
            unreachable!()
        };
        let is_first = key.get_variance_key().is_none();
        if !(is_found && is_first) {
            key.set_variance_key(variance);
        }
        is_found
    }

    // Whether a response of that variance begins a family of variants.
    fn begins_family(&self, variance: Option<HashBinary>) -> bool
        requires { is_some self.now.key ≡ true }
        ensures { result ≡ begins_family variance self.now }
    {
        let Some(key) = &self.key else { unreachable!() };
        let before = match variance_of(key) {
            Some(before) => Some(before),
            None => self.stale_variance,
        };
        matches!(self.phase, CachePhase::Expired) && !same_variance(before, variance)
    }

    // Leaves the key of another variance: what is held under it is released, and the key keeps no variance.
    fn leave_key<E, P, L: CacheKeyLock, A>(
        &mut self,
        parts: &mut CacheParts<S, E, P, L, A>,
        variance: Option<HashBinary>,
    )
        requires { is_some self.old.key ≡ true }
        ensures request { let leaves = leaves_key variance self.old.key in
            self.new ≡ record self.old { key = if leaves then varying None self.old.key else self.old.key; lock = if leaves then let_go self.old.lock else self.old.lock } }
        ensures lock { L.state parts.new.lock ≡ lock_varied variance self.old (L.state parts.old.lock) }
        ensures parts { parts.new ≡ record parts.old { lock = parts.new.lock } }
    {
        let Some(key) = &mut self.key else {
            unreachable!()
        };
        let before = variance_of(key);
        if before.is_none() || same_variance(before, variance) {
            return;
        }
        self.lock.release(&mut parts.lock, key, LockStatus::Done);
        key.remove_variance_key();
    }

    /// Sets the variance of the response that is stored. One that replaces a stale response of another variance begins a family of
    /// variants, so it goes back to its own creation. A key of another variance loses it, so that the response is stored under the key alone:
    /// what is held under the key before is released as done. The variance of the stale response is forgotten.
    pub fn update_variance<E, P, L: CacheKeyLock, A>(
        &mut self,
        parts: &mut CacheParts<S, E, P, L, A>,
        variance: Option<HashBinary>,
    )
        requires phase { is_write_phase self.old.phase ≡ true }
        requires meta { is_some self.old.meta ≡ true }
        ensures request { self.new ≡ with_variance variance self.old }
        ensures lock { L.state parts.new.lock ≡ lock_varied variance self.old (L.state parts.old.lock) }
        ensures parts { parts.new ≡ record parts.old { lock = parts.new.lock } }
    {
        let anew = self.begins_family(variance);
        let Some(meta) = &mut self.meta else {
            unreachable!()
        };
        vary_meta(meta, variance, anew);
        self.stale_variance = None;
        self.leave_key(parts, variance);
    }
}
