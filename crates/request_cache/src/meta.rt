//! The meta of a request, and the phases that need no part of the cache.
ghost use Rattle.std.specs.Prelude.{◌≡◌, ◌&&◌, Some, None, true, is_some, option_map, if◌then◌else◌};
ghost use Rattle.request_phases.specs.declared.phase.CachePhase.TheVariants as phases;
ghost use Rattle.request_phases.specs.Phases.{can_miss, is_stale_phase, has_reader_phase, has_meta_phase, can_serve_stale};
ghost use Rattle.request_cache.specs.Stale.{serves_on_error, serves_while_updating};

use crate::request::HttpCache;
use cache_heads::CacheMeta;
use cache_store::storage::Storage;
use cache_words::time::Moment;
use request_phases::CachePhase;

impl<S: Storage> HttpCache<S> {
    /// Goes on to `Miss`: no response was found, or one is stored though the cache was passed by. No meta is there then; a reader stays.
    pub fn cache_miss(&mut self)
        requires { can_miss self.old.phase ≡ true }
        ensures { self.new ≡ record self.old { phase = phases.Miss; meta = None; stale_variance = None } }
    {
        self.phase = CachePhase::Miss;
        self.meta = None;
        self.stale_variance = None;
    }

    /// Goes on to `StaleUpdating`: another request updates the stale response.
    pub fn set_stale_updating(&mut self)
        requires { is_stale_phase self.old.phase ≡ true }
        ensures { self.new ≡ record self.old { phase = phases.StaleUpdating } }
    {
        self.phase = CachePhase::StaleUpdating;
    }

    /// Returns the meta.
    pub fn cache_meta(&self) -> &CacheMeta
        requires phase { has_meta_phase self.now.phase ≡ true }
        requires meta { is_some self.now.meta ≡ true }
        ensures { self.now.meta ≡ Some result.now }
    {
        let Some(meta) = &self.meta else {
            unreachable!()
        };
        meta
    }

    /// Returns the meta, if there is one. There is none before a response was found or missed.
    pub fn maybe_cache_meta(&self) -> Option<&CacheMeta>
        ensures { option_map (λ m. m.now) result ≡ (if has_meta_phase self.now.phase then self.now.meta else None) }
    {
        if self.phase.has_meta_phase() {
            self.meta.as_ref()
        } else {
            None
        }
    }

    /// Lets go of the meta of a response that was found, for a request that needs no more of it than its phase: a stale response can't be
    /// revalidated then, nor served past its time.
    pub fn forget_cache_meta(&mut self)
        requires { has_reader_phase self.old.phase ≡ true }
        ensures { self.new ≡ record self.old { meta = None } }
    {
        let _forgotten = self.meta.take();
    }

    /// Returns whether the stale response may be served at that moment after an error.
    pub fn can_serve_stale_error(&self, moment: Moment) -> bool
        ensures { result ≡ (can_serve_stale self.now.phase && serves_on_error self.now.meta moment) }
    {
        self.phase.can_serve_stale()
            && match &self.meta {
                Some(meta) => meta.serve_stale_if_error(moment),
                None => false,
            }
    }

    /// Returns whether the stale response may be served at that moment while it is updated.
    pub fn can_serve_stale_updating(&self, moment: Moment) -> bool
        ensures { result ≡ (can_serve_stale self.now.phase && serves_while_updating self.now.meta moment) }
    {
        self.phase.can_serve_stale()
            && match &self.meta {
                Some(meta) => meta.serve_stale_while_revalidate(moment),
                None => false,
            }
    }
}
