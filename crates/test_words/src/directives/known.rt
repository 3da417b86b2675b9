//! What is known of a response's directives without memory, and the verdict by it.
use crate::made::{Field, head};
use cache_heads::filters::resp_cacheable_by_lines;
use cache_heads::meta::NeverByStatus;
use cache_heads::{CacheMetaDefaults, RespCacheable};
use cache_words::time::{Duration, Moment};
use head_directives::{KnownDirectives, ResponseHeader};
use std::alloc::Global;

// Whether storing is forbidden, the seconds of freshness and of both stale windows, and whether fields are listed.
type Answers = (bool, Option<u64>, Option<u64>, Option<u64>, bool);

// The lines, and the answers if there are directives.
type Row = (&'static [Field], Option<Answers>);

const ROWS: &[Row] = &[
    (
        &[("cache-control", b"public, max-age=46")],
        Some((false, Some(46), None, None, false)),
    ),
    (
        &[("cache-control", b"Max-Age=46, S-MAXAGE=\"12\"")],
        Some((false, Some(12), Some(0), Some(0), false)),
    ),
    (
        &[
            ("cache-control", b"max-age=1"),
            ("cache-control", b"max-age=+7"),
        ],
        Some((false, Some(7), None, None, false)),
    ),
    (
        &[("cache-control", b"no-cache, stale-if-error=9")],
        Some((false, Some(0), None, Some(9), false)),
    ),
    (
        &[("cache-control", b"no-store, stale-while-revalidate=5")],
        Some((true, None, Some(5), None, false)),
    ),
    (
        &[("cache-control", b"private")],
        Some((true, None, None, None, false)),
    ),
    (
        &[("cache-control", b"private=\"x-a\", max-age=3")],
        Some((false, Some(3), None, None, true)),
    ),
    (
        &[("cache-control", b"no-cache=x-b, max-age=3")],
        Some((false, Some(3), None, None, true)),
    ),
    (
        &[(
            "cache-control",
            b"max-age=3, must-revalidate, stale-if-error=9",
        )],
        Some((false, Some(3), Some(0), Some(0), false)),
    ),
    (
        &[("cache-control", b"s-maxage=x, max-age=3")],
        Some((false, None, Some(0), Some(0), false)),
    ),
    (
        &[("cache-control", b"")],
        Some((false, None, None, None, false)),
    ),
    (&[("etag", b"a")], None),
];

fn seconds_of(span: Option<Duration>) -> Option<u64> {
    match span {
        Some(span) => Some(span.seconds()),
        None => None,
    }
}

// The answers to one head's directives.
fn answers(header: &ResponseHeader) -> Option<Answers> {
    match KnownDirectives::from_resp_headers(header) {
        Some(known) => Some((
            known.forbids_storing(),
            seconds_of(known.fresh_duration()),
            seconds_of(known.serve_stale_while_revalidate_duration()),
            seconds_of(known.serve_stale_if_error_duration()),
            known.lists_fields(),
        )),
        None => None,
    }
}

fn is_known(alloc: Global, row: &Row) -> bool {
    answers(&head(alloc, row.0)) == row.1
}

#[test]
fn known_directives(rt: HostRuntime) {
    for row in ROWS {
        assert!(rt; is_known(rt.alloc(), row));
    }
}

// Lines, and until when a response with them that came at 1000 is fresh, and how many fields are kept of it.
const VERDICTS: &[(&[Field], Option<(i64, usize)>)] = &[
    (
        &[("cache-control", b"max-age=10"), ("x-a", b"1")],
        Some((1010, 2)),
    ),
    (
        &[("cache-control", b"max-age=10, private=x-a"), ("x-a", b"1")],
        Some((1010, 1)),
    ),
    (
        &[("expires", b"Thu, 01 Jan 1970 00:16:45 GMT")],
        Some((1005, 1)),
    ),
    (&[("cache-control", b"no-store, max-age=10")], None),
];

fn is_verdict(alloc: Global, lines: &[Field], want: Option<(i64, usize)>) -> bool {
    let defaults = CacheMetaDefaults::new(NeverByStatus, 0, 0);
    let now = Moment::from_seconds(1000);
    match resp_cacheable_by_lines(alloc, now, head(alloc, lines), &defaults) {
        Ok(RespCacheable::Cacheable(meta)) => {
            want == Some((meta.fresh_until().seconds(), meta.header.headers.len()))
        }
        Ok(RespCacheable::Uncacheable(_)) => want.is_none(),
        Err(_) => false,
    }
}

#[test]
fn verdicts_by_lines(rt: HostRuntime) {
    for &(lines, want) in VERDICTS {
        assert!(rt; is_verdict(rt.alloc(), lines, want));
    }
}
