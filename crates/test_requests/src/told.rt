//! What a request reports of itself.
use crate::answer::{Answer, NONE, REFUSED, reason_or_none, size_or_none, yes_or_no};
use crate::call::{Flag, Told};
use crate::metas::{key_variance, letter, meta_variance, provenance, until};
use crate::step::{Step, reason};
use cache_store::admission::Decision;
use cache_store::storage::Storage;
use cache_words::time::Duration;
use request_cache::HttpCache;
use request_phases::{CachePhase, LockAbandon};

/// Whether it is so.
pub fn is_so<S: Storage>(request: &HttpCache<S>, flag: Flag, step: Step<'_>) -> bool {
    match flag {
        Flag::Enabled => request.enabled(),
        Flag::Bypassing => request.bypassing(),
        Flag::Upstream => request.upstream_used(),
        Flag::HoldsLock => request.holds_lock(),
        Flag::Releasable => request.is_releasable(reason(step.first)),
        Flag::ServesOnError => request.can_serve_stale_error(step.moment()),
        Flag::ServesUpdating => request.can_serve_stale_updating(step.moment()),
        Flag::HasReader => request.has_reader(),
        Flag::HasWriter => request.has_writer(),
        Flag::CacheSpan => request.get_cache_span().is_some(),
        Flag::HitSpan => request.get_hit_span().is_some(),
        Flag::MissSpan => request.get_miss_span().is_some(),
    }
}

// For which reason the cache is off, or its response isn't kept.
fn off_for(phase: CachePhase) -> Answer {
    match phase {
        CachePhase::Disabled(reason) => Answer::Word(reason.as_str()),
        CachePhase::RevalidatedNoCache(reason) => Answer::Word(reason.as_str()),
        _ => NONE,
    }
}

// What it holds of the lock.
fn held<S: Storage>(request: &HttpCache<S>) -> Answer {
    if request.phase().is_never_enabled() || !request.is_cache_lock_on() {
        return Answer::Word("off");
    }
    if request.is_cache_lock_writer() {
        return Answer::Word("permit");
    }
    if request.is_cache_locked() {
        Answer::Word("read")
    } else {
        Answer::Word("nothing")
    }
}

fn seconds(time: Option<Duration>) -> Answer {
    match time {
        Some(time) => Answer::Number(time.seconds()),
        None => NONE,
    }
}

fn decision(decision: Option<Decision>) -> Answer {
    match decision {
        Some(Decision::Defer { observed }) => Answer::Decided("deferred", observed),
        Some(Decision::Ready { observed }) => Answer::Decided("ready", observed),
        None => NONE,
    }
}

fn abandoned(abandon: Option<LockAbandon>) -> Answer {
    match abandon {
        Some(abandon) => Answer::Abandoned(abandon.reason.as_str(), abandon.token),
        None => NONE,
    }
}

/// What it tells.
pub fn told<S: Storage>(request: &HttpCache<S>, told: Told) -> Answer {
    match told {
        Told::OffFor => off_for(request.phase()),
        Told::PredictedReason => reason_or_none(request.predicted_uncacheable_reason()),
        Told::Holds => held(request),
        Told::Waited => seconds(request.lock_duration()),
        Told::Time => seconds(request.lookup_duration()),
        Told::Decided => decision(request.admission_decision()),
        Told::Abandoned => abandoned(request.lock_abandon()),
        Told::MaybeKey => letter(request.maybe_cache_key()),
        Told::KeyLent if request.maybe_cache_key().is_some() => letter(Some(request.cache_key())),
        Told::KeyVariance => key_variance(request.maybe_cache_key()),
        Told::MaybeMeta => until(request.maybe_cache_meta()),
        Told::MetaLent if request.maybe_cache_meta().is_some() => {
            until(Some(request.cache_meta()))
        }
        Told::MetaVariance => meta_variance(request.maybe_cache_meta()),
        Told::Provenance => provenance(request.maybe_cache_meta()),
        Told::Retries if !request.phase().is_never_enabled() => {
            size_or_none(request.cache_lock_max_retries())
        }
        Told::MostBytes if !request.phase().is_never_enabled() => {
            size_or_none(request.max_file_size_bytes())
        }
        Told::Exceeded if !request.phase().is_never_enabled() => {
            yes_or_no(request.exceeded_max_file_size())
        }
        _ => REFUSED,
    }
}

/// Whether what is being written can be read, if a store is used.
pub fn streams(streams: Option<bool>) -> Answer {
    match streams {
        Some(streams) => yes_or_no(streams),
        None => NONE,
    }
}
