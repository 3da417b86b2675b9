//! The key of a request.
ghost use Rattle.std.specs.Prelude.{◌≡◌, Some, None, true, option_map, if◌then◌else◌, is_some};
ghost use Rattle.request_phases.specs.declared.phase.CachePhase.TheVariants.{CacheKey as KeyPhase};
ghost use Rattle.request_phases.specs.Phases.{can_set_key, may_have_key};
ghost use Rattle.request_phases.specs.Locks.{held};

use crate::request::HttpCache;
use cache_store::storage::Storage;
use cache_words::key::CacheKey;
use request_phases::CachePhase;

impl<S: Storage> HttpCache<S> {
    /// Sets the key, whose digest is taken once, here. Nothing may be held of the lock then, which `holds_lock` tells: a permit and a read lock are of the key before, and
    /// under another key they would end what another request holds.
    #[inline(always)]
    pub fn set_cache_key(&mut self, mut key: CacheKey)
        requires phase { can_set_key self.old.phase ≡ true }
        requires nothing_held { held self.old.lock ≡ None }
        ensures { self.new ≡ record self.old { phase = KeyPhase; key = Some key } }
    {
        key.keep_digest();
        self.key = Some(key);
        self.phase = CachePhase::CacheKey;
    }

    /// Returns the key.
    pub fn cache_key(&self) -> &CacheKey
        requires { is_some self.now.key ≡ true }
        ensures { self.now.key ≡ Some result.now }
    {
        let Some(key) = &self.key else { unreachable!() };
        key
    }

    /// Returns the key, if there is one. A request that never used a cache, or uses one and has no key yet, has none.
    pub fn maybe_cache_key(&self) -> Option<&CacheKey>
        ensures { option_map (λ k. k.now) result ≡ (if may_have_key self.now.phase then self.now.key else None) }
    {
        if self.phase.may_have_key() {
            self.key.as_ref()
        } else {
            None
        }
    }
}
