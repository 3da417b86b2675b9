//! Tracing that does nothing. No closure is called, and each type has one value, which is what a clause says of a result.
ghost use Rattle.std.specs.Prelude.{◌≡◌};
ghost use Rattle.cache_store.specs.Traces.{no_tag, no_span, no_handle, no_options, no_spans};

use cache_heads::CacheMeta;
use cache_words::time::Moment;

/// A name with a value, neither of which is kept.
#[derive(Debug, Drop)]
pub struct Tag {
    nothing: (),
}

impl Tag {
    /// Makes a tag.
    pub fn new<N: Drop, V: Drop>(_name: N, _value: V) -> Tag
        ensures { result ≡ no_tag }
    {
        Tag { nothing: () }
    }
}

/// A span of time, which isn't measured.
#[derive(Debug, Drop)]
pub struct Span {
    nothing: (),
}

/// What names a span.
#[derive(Debug, Drop)]
pub struct SpanHandle {
    nothing: (),
}

/// What a span is started from.
#[derive(Debug, Drop)]
pub struct SpanOptionsPlaceholder {
    nothing: (),
}

impl SpanOptionsPlaceholder {
    /// Starts a span.
    pub fn start(self) -> SpanOptionsPlaceholder
        ensures { result ≡ no_options }
    {
        self
    }
}

impl Span {
    /// Makes a span.
    pub fn inactive() -> Span
        ensures { result ≡ no_span }
    {
        Span { nothing: () }
    }

    /// Returns what names the span.
    pub fn handle(&self) -> SpanHandle
        ensures { result ≡ no_handle }
    {
        SpanHandle { nothing: () }
    }

    /// Makes a span within this one.
    pub fn child<F>(&self, _name: &'static str, _f: F) -> Span
    where
        F: FnOnce(SpanOptionsPlaceholder) -> SpanOptionsPlaceholder + Drop,
        ensures { result ≡ no_span }
    {
        Span::inactive()
    }

    /// Adds nothing.
    pub fn set_tag<F: FnOnce() -> Tag + Drop>(&self, _f: F)
        ensures { self.now ≡ no_span }
    {}

    /// Adds nothing.
    pub fn set_tags<F, I>(&self, _f: F)
    where
        F: FnOnce() -> I + Drop,
        I: IntoIterator<Item = Tag>,
        ensures { self.now ≡ no_span }
    {}

    /// Ends nothing.
    pub fn set_finish_time<F: Fn() -> Moment + Drop>(&self, _f: F)
        ensures { self.now ≡ no_span }
    {}
}

/// Adds nothing of the meta.
pub fn tag_span_with_meta(span: &mut Span, _meta: &CacheMeta)
    ensures { span.new ≡ span.old }
{}

/// The spans of a request.
#[derive(Debug, Drop)]
pub struct CacheTraceCTX {
    /// The span that the others are within.
    pub cache_span: Span,
    /// The span of a miss.
    pub miss_span: Span,
    /// The span of a hit.
    pub hit_span: Span,
}

impl CacheTraceCTX {
    /// Makes spans.
    pub fn new() -> CacheTraceCTX
        ensures { result ≡ no_spans }
    {
        CacheTraceCTX {
            cache_span: Span::inactive(),
            miss_span: Span::inactive(),
            hit_span: Span::inactive(),
        }
    }

    /// Sets the span that the others are within.
    pub fn enable(&mut self, cache_span: Span)
        ensures { self.new ≡ record self.old { cache_span = cache_span } }
    {
        self.cache_span = cache_span;
    }

    /// Returns what names the outer span.
    pub fn get_cache_span(&self) -> SpanHandle
        ensures { result ≡ no_handle }
    {
        self.cache_span.handle()
    }

    /// Makes a span within the outer one.
    pub fn child(&self, name: &'static str) -> Span
        ensures { result ≡ no_span }
    {
        self.cache_span.child(name, |options| options.start())
    }

    /// Starts the span of a miss.
    pub fn start_miss_span(&mut self)
        ensures { self.new ≡ self.old }
    {
        self.miss_span = self.child("miss");
    }

    /// Returns what names the span of a miss.
    pub fn get_miss_span(&self) -> SpanHandle
        ensures { result ≡ no_handle }
    {
        self.miss_span.handle()
    }

    /// Ends nothing: no clock is read.
    pub fn finish_miss_span(&mut self)
        ensures { self.new ≡ self.old }
    {}

    /// Starts the span of a hit.
    pub fn start_hit_span(&mut self)
        ensures { self.new ≡ self.old }
    {
        self.hit_span = self.child("hit");
    }

    /// Returns what names the span of a hit.
    pub fn get_hit_span(&self) -> SpanHandle
        ensures { result ≡ no_handle }
    {
        self.hit_span.handle()
    }

    /// Ends nothing: no clock is read.
    pub fn finish_hit_span(&mut self)
        ensures { self.new ≡ self.old }
    {}

    /// Adds nothing of the meta to the span of a hit.
    pub fn log_meta_in_hit_span(&mut self, meta: &CacheMeta)
        ensures { self.new ≡ self.old }
    {
        tag_span_with_meta(&mut self.hit_span, meta);
    }

    /// Adds nothing of the meta to the span of a miss.
    pub fn log_meta_in_miss_span(&mut self, meta: &CacheMeta)
        ensures { self.new ≡ self.old }
    {
        tag_span_with_meta(&mut self.miss_span, meta);
    }
}
