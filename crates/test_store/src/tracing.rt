//! Tracing that does nothing.
use crate::samples;
use cache_store::trace::{CacheTraceCTX, Span, Tag, tag_span_with_meta};
use cache_words::time::Moment;
use std::cell::Cell;
use std::test::*;

#[test]
fn spans_call_nothing(rt: HostRuntime) {
    let calls = Cell::new(0u32);
    let outer = Span::inactive();
    let inner = outer.child("inner", |options| {
        calls.set(1);
        options.start()
    });
    inner.set_tag(|| {
        calls.set(2);
        Tag::new("name", 1u8)
    });
    inner.set_tags(|| {
        calls.set(3);
        [Tag::new("first", "a"), Tag::new("second", true)]
    });
    inner.set_finish_time(|| {
        calls.set(4);
        Moment::from_seconds(1000)
    });
    assert!(rt; calls.get() == 0);
}

#[test]
fn contexts_keep_their_spans(rt: HostRuntime) {
    let meta = samples::meta(rt.alloc(), 1010);
    let mut context = CacheTraceCTX::new();
    context.enable(Span::inactive());
    context.start_hit_span();
    context.log_meta_in_hit_span(&meta);
    context.finish_hit_span();
    context.start_miss_span();
    context.log_meta_in_miss_span(&meta);
    context.finish_miss_span();
    let mut child = context.child("child");
    tag_span_with_meta(&mut child, &meta);
    let handles = [
        context.get_cache_span(),
        context.get_hit_span(),
        context.get_miss_span(),
        child.handle(),
    ];
    assert!(rt; handles.len() == 4);
}
