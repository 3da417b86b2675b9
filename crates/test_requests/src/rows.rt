//! Rows of steps.
use crate::answer::{Answer, REFUSED, yes_or_no};
use crate::call::Call;
use crate::locks::{move_permit, publish, wait};
use crate::looks::{looked, looked_at};
use crate::noting::Notes;
use crate::reads::{moved, push_read};
use crate::stale::{push_head, push_merged, revalidated};
use crate::step::{Step, reason, status, variance};
use crate::stored::{became_uncacheable, found};
use crate::text::Text;
use crate::told::{is_so, streams, told};
use crate::turns::{led, set_key, turned};
use crate::world::{burden, told_until, tracked};
use crate::writes::{finish, kept, write};
use cache_evict::EvictionManager;
use cache_lock::CacheKeyLock;
use cache_store::admission::AdmissionPolicy;
use cache_store::storage::Storage;
use request_cache::HttpCache;
use request_phases::HitStatus;
use request_predictor::CacheablePredictor;
use request_store::CacheParts;
use std::alloc::Global;

// Does a call of the lock, of the writer or of a part of the cache, and says what it answers.
fn part_answer<
    S: Storage,
    E: EvictionManager + Notes,
    P: CacheablePredictor,
    L: CacheKeyLock,
    A: AdmissionPolicy,
>(
    alloc: Global,
    request: &mut HttpCache<S>,
    parts: &mut CacheParts<S, E, P, L, A>,
    step: Step<'_>,
) -> Answer {
    match step.call {
        Call::Keep(keep) => kept(alloc, request, parts, keep, step),
        Call::Revalidate => revalidated(alloc, request, parts, step),
        Call::Streams => streams(request.support_streaming_partial_write(&parts.store)),
        Call::Write => write(alloc, request, parts, step.first),
        Call::Finish => finish(alloc, request, parts),
        Call::Wait => wait(alloc, request, parts, step.moment()),
        Call::Publish => publish(alloc, request, parts, step.number()),
        Call::BecameUncacheable => became_uncacheable(request, parts, reason(step.first)),
        Call::Tracked => tracked(alloc, parts, step.letter()),
        Call::ToldUntil => told_until(parts),
        Call::Burden => burden(alloc, parts, step.letter()),
        _ => REFUSED,
    }
}

// Does a step, and says what it answers.
fn answer_of<
    S: Storage,
    E: EvictionManager + Notes,
    P: CacheablePredictor,
    L: CacheKeyLock,
    A: AdmissionPolicy,
>(
    alloc: Global,
    request: &mut HttpCache<S>,
    other: &mut HttpCache<S>,
    parts: &mut CacheParts<S, E, P, L, A>,
    step: Step<'_>,
) -> Answer {
    match step.call {
        Call::Flag(flag) => yes_or_no(is_so(request, flag, step)),
        Call::Told(question) => told(request, question),
        Call::Turn(turn) => turned(request, turn, step),
        Call::Lead(lead) => led(alloc, request, parts, lead, reason(step.first)),
        Call::Find(find) => found(request, parts, find, step),
        Call::Look => {
            let status = status(step.second);
            looked(alloc, request, parts, step.moment(), status, None)
        }
        Call::Vary => match variance(step.second) {
            None => REFUSED,
            some => looked(alloc, request, parts, step.moment(), HitStatus::Fresh, some),
        },
        Call::LookAt => looked_at(alloc, request, parts, step.moment()),
        Call::Key => set_key(alloc, request, step.letter()),
        Call::MoveReader => moved(request, false),
        Call::MoveWriter => moved(request, true),
        Call::MovePermit => move_permit(request, other),
        _ => part_answer(alloc, request, parts, step),
    }
}

// Does a step of a request, and appends what it answers and the phase that it leaves.
fn push_step<
    S: Storage,
    E: EvictionManager + Notes,
    P: CacheablePredictor,
    L: CacheKeyLock,
    A: AdmissionPolicy,
>(
    alloc: Global,
    request: &mut HttpCache<S>,
    other: &mut HttpCache<S>,
    parts: &mut CacheParts<S, E, P, L, A>,
    step: Step<'_>,
    text: &mut Text,
) {
    text.push(": ");
    match step.call {
        Call::Read => push_read(request, parts, false, text),
        Call::ReadBack => push_read(request, parts, true, text),
        Call::Merge => push_merged(alloc, request, text),
        Call::Head => push_head(request, text),
        _ => text.push_answer(answer_of(alloc, request, other, parts, step)),
    }
    text.push(", ");
    text.push(request.phase().as_str());
}

// Appends lines, each with what its step comes to; a line without a step is a row's name.
fn push_lines<
    S: Storage,
    E: EvictionManager + Notes,
    P: CacheablePredictor,
    L: CacheKeyLock,
    A: AdmissionPolicy,
>(
    alloc: Global,
    first: &mut HttpCache<S>,
    second: &mut HttpCache<S>,
    parts: &mut CacheParts<S, E, P, L, A>,
    row: &str,
    text: &mut Text,
) {
    for line in row.lines() {
        let step = Step::new(line);
        text.push(line);
        match step.request {
            1 => push_step(alloc, first, second, parts, step, text),
            2 => push_step(alloc, second, first, parts, step, text),
            _ => {}
        }
        text.push("\n");
    }
}

/// Appends the lines of a row, each with what its step comes to, over a cache.
pub fn push_row<
    S: Storage,
    E: EvictionManager + Notes,
    P: CacheablePredictor,
    L: CacheKeyLock,
    A: AdmissionPolicy,
>(alloc: Global, parts: &mut CacheParts<S, E, P, L, A>, row: &str, text: &mut Text) {
    let mut first = HttpCache::new();
    let mut second = HttpCache::new();
    push_lines(alloc, &mut first, &mut second, parts, row, text);
    first.end(parts);
    second.end(parts);
}
