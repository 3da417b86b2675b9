//! Metas in memory.
use super::meta;
use cache_heads::meta::CacheMeta;
use cache_words::key::HashBinary;
use cache_words::time::Moment;
use http::StatusCode;
use std::alloc::Global;

// A call that changes a meta.
#[derive(Clone, Copy)]
enum Step {
    SetEpoch(i64),
    RemoveEpoch,
    SetProvenance(i64),
    ResetProvenance,
    // another end of freshness, at a moment, with windows of 1 and 2 seconds
    Update(i64, i64),
    ExpireAt(i64),
    DisableStale,
    SetVariance(HashBinary),
    SetVarianceKey(HashBinary),
    RemoveVariance,
}

fn apply(meta: &mut CacheMeta, step: Step) {
    match step {
        Step::SetEpoch(at) => meta.set_epoch_override(Moment::from_seconds(at)),
        Step::RemoveEpoch => meta.remove_epoch_override(),
        Step::SetProvenance(at) => meta.set_provenance(Moment::from_seconds(at)),
        Step::ResetProvenance => meta.reset_provenance_to_created(),
        Step::Update(until, now) => {
            let until = Moment::from_seconds(until);
            meta.update_freshness(until, 1, 2, Moment::from_seconds(now));
        }
        Step::ExpireAt(at) => meta.expire_at(Moment::from_seconds(at)),
        Step::DisableStale => meta.disable_serve_stale(),
        Step::SetVariance(hash) => meta.set_variance(hash),
        Step::SetVarianceKey(hash) => meta.set_variance_key(hash),
        Step::RemoveVariance => meta.remove_variance(),
    }
}

// The seconds of `created`, `updated`, `provenance`, `epoch` and `fresh_until`.
fn moments(meta: &CacheMeta) -> [i64; 5] {
    [
        meta.created().seconds(),
        meta.updated().seconds(),
        meta.provenance().seconds(),
        meta.epoch().seconds(),
        meta.fresh_until().seconds(),
    ]
}

// The lifetime and both windows.
fn spans(meta: &CacheMeta) -> [u64; 3] {
    [
        meta.fresh_sec(),
        meta.stale_while_revalidate_sec() as u64,
        meta.stale_if_error_sec() as u64,
    ]
}

// Whether the response is fresh, may be served while it is validated, and on errors.
fn served(meta: &CacheMeta, time: Moment) -> [bool; 3] {
    [
        meta.is_fresh(time),
        meta.serve_stale_while_revalidate(time),
        meta.serve_stale_if_error(time),
    ]
}

// What a meta shows.
#[derive(Clone, Copy)]
enum Look {
    Moments([i64; 5]),
    Spans([u64; 3]),
    Override(Option<i64>),
    Variance(Option<HashBinary>),
    // at a moment
    Served(i64, [bool; 3]),
    Age(i64, u64),
}

fn override_of(meta: &CacheMeta) -> Option<i64> {
    match meta.epoch_override() {
        Some(moment) => Some(moment.seconds()),
        None => None,
    }
}

fn is_shown(meta: &CacheMeta, look: Look) -> bool {
    match look {
        Look::Moments(expected) => moments(meta) == expected,
        Look::Spans(expected) => spans(meta) == expected,
        Look::Override(expected) => override_of(meta) == expected,
        Look::Variance(expected) => meta.variance() == expected,
        Look::Served(at, expected) => served(meta, Moment::from_seconds(at)) == expected,
        Look::Age(at, expected) => meta.age(Moment::from_seconds(at)).seconds() == expected,
    }
}

// A call if there is one, and what the meta then shows.
type Row = (Option<Step>, Look);

fn all_done(meta: &mut CacheMeta, rows: &[Row]) -> bool {
    for &(step, look) in rows {
        if let Some(step) = step {
            apply(meta, step);
        }
        if !is_shown(meta, look) {
            return false;
        }
    }
    true
}

const MADE: [i64; 5] = [1000, 1000, 1000, 1000, 1010];

const LASTING: [u64; 3] = [10, 5, 60];

const MOVED: [i64; 5] = [1000, 1010, 1000, 1010, 1016];

const ENDED: [i64; 5] = [1000, 1010, 1000, 1010, 1000];

const CHANGES: &[Row] = &[
    (Some(Step::RemoveVariance), Look::Moments(MADE)),
    (None, Look::Spans(LASTING)),
    (
        Some(Step::SetEpoch(1016)),
        Look::Moments([1000, 1000, 1000, 1016, 1010]),
    ),
    (None, Look::Spans([0, 5, 60])),
    (Some(Step::RemoveEpoch), Look::Moments(MADE)),
    (None, Look::Spans(LASTING)),
    (
        Some(Step::SetProvenance(1016)),
        Look::Moments([1000, 1000, 1016, 1000, 1010]),
    ),
    (None, Look::Spans(LASTING)),
    (Some(Step::ResetProvenance), Look::Moments(MADE)),
    (None, Look::Spans(LASTING)),
    (Some(Step::Update(1016, 1010)), Look::Moments(MOVED)),
    (None, Look::Spans([6, 1, 2])),
    (Some(Step::ExpireAt(1017)), Look::Moments(MOVED)),
    (None, Look::Spans([6, 1, 2])),
    (Some(Step::ExpireAt(1000)), Look::Moments(ENDED)),
    (None, Look::Spans([0, 1, 2])),
    (Some(Step::DisableStale), Look::Moments(ENDED)),
    (None, Look::Spans([0, 0, 0])),
];

const SET: &[Row] = &[
    (Some(Step::DisableStale), Look::Override(None)),
    (None, Look::Variance(None)),
    (Some(Step::SetEpoch(1016)), Look::Override(Some(1016))),
    (None, Look::Variance(None)),
    (Some(Step::SetVariance([1; 16])), Look::Override(Some(1016))),
    (None, Look::Variance(Some([1; 16]))),
    (
        Some(Step::SetVarianceKey([2; 16])),
        Look::Override(Some(1016)),
    ),
    (None, Look::Variance(Some([2; 16]))),
    (Some(Step::RemoveEpoch), Look::Override(None)),
    (None, Look::Variance(Some([2; 16]))),
    (Some(Step::RemoveVariance), Look::Override(None)),
    (None, Look::Variance(None)),
];

const SERVED: &[Row] = &[
    (None, Look::Served(1010, [true, true, true])),
    (None, Look::Served(1011, [false, true, true])),
    (None, Look::Served(1015, [false, true, true])),
    (None, Look::Served(1016, [false, false, true])),
    (None, Look::Served(1070, [false, false, true])),
    (None, Look::Served(1071, [false, false, false])),
    (None, Look::Age(999, 0)),
    (None, Look::Age(1000, 0)),
    (None, Look::Age(1010, 10)),
];

// Whether a meta's head is lent to be changed, copied, and shown.
fn lends_and_copies(meta: &mut CacheMeta) -> bool {
    meta.response_header_mut().status = StatusCode::NOT_FOUND;
    match meta.response_header_copy() {
        Ok(copy) => {
            copy.status == StatusCode::NOT_FOUND
                && copy.headers.len() == 1
                && meta.response_header().headers.contains_key("etag")
                && meta.headers().len() == 1
        }
        Err(_) => false,
    }
}

fn does(alloc: Global, rows: &[Row]) -> bool {
    let mut meta = meta(alloc);
    all_done(&mut meta, rows) && lends_and_copies(&mut meta)
}

#[test]
fn metas_change_and_lend_their_heads(rt: HostRuntime) {
    assert!(rt; does(rt.alloc(), CHANGES));
    assert!(rt; does(rt.alloc(), SET));
    assert!(rt; does(rt.alloc(), SERVED));
}
