//! Tracing, which does nothing: a span has one value.
ghost use Rattle.std.specs.Prelude.{◌≡◌, not, is_some};
ghost use Rattle.request_phases.specs.Phases.{is_disabled};

use crate::request::HttpCache;
use cache_store::storage::Storage;
use cache_store::trace::{Span, SpanHandle};

impl<S: Storage> HttpCache<S> {
    /// Sets the span that those of the request are within: nothing is kept of it.
    pub fn enable_tracing(&mut self, _parent_span: Span)
        ensures { self.new ≡ self.old }
    {}

    /// Returns what names the outer span, unless the request uses no cache.
    pub fn get_cache_span(&self) -> Option<SpanHandle>
        ensures { is_some result ≡ not (is_disabled self.now.phase) }
    {
        if self.phase.is_disabled() {
            None
        } else {
            Some(Span::inactive().handle())
        }
    }

    /// Returns what names the span of a miss, unless the request uses no cache.
    pub fn get_miss_span(&self) -> Option<SpanHandle>
        ensures { is_some result ≡ not (is_disabled self.now.phase) }
    {
        self.get_cache_span()
    }

    /// Returns what names the span of a hit, unless the request uses no cache.
    pub fn get_hit_span(&self) -> Option<SpanHandle>
        ensures { is_some result ≡ not (is_disabled self.now.phase) }
    {
        self.get_cache_span()
    }

    /// Marks the request as one of another request's: nothing is kept of it.
    pub fn tag_as_subrequest(&mut self)
        ensures { self.new ≡ self.old }
    {}
}
