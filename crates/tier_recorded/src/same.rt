//! What distinguishes events.
ghost use Rattle.std.specs.Prelude.{◌≡◌, ◌↔◌, IsTrue};
ghost use Rattle.tier_model.specs.declared.event.Action.TheVariants.{Open, LookUp, Poll, Begin, Revalidate, Piece, Finish, Read, Drop, Purge, Put};
ghost use Rattle.tier_recorded.specs.Seen.{seen_key, seen_action, seen};

use bytes::Bytes;
use cache_heads::GivenMeta;
use cache_words::key::{CacheHashKey, CacheKey};
use tier_model::event::{Action, Event, Pieces};

// Whether two keys are the same to a cache.
fn is_same_key(a: &CacheKey, b: &CacheKey) -> bool
    ensures { IsTrue result ↔ (seen_key a.now ≡ seen_key b.now) }
{
    a.primary_key() == b.primary_key()
        && a.user_tag == b.user_tag
        && a.variance_bin() == b.variance_bin()
        && a.primary_bin() == b.primary_bin()
}

fn are_same_pieces(a: &Pieces, b: &Pieces) -> bool
    ensures { IsTrue result ↔ (a.now ≡ b.now) }
{
    a.as_slice() == b.as_slice()
}

fn are_same_moments(a: &GivenMeta, b: &GivenMeta) -> bool
    ensures { IsTrue result ↔ ((a.now.fresh_until ≡ b.now.fresh_until) × (a.now.created ≡ b.now.created) × (a.now.updated ≡ b.now.updated) × (a.now.provenance ≡ b.now.provenance)) }
{
    a.fresh_until == b.fresh_until
        && a.created == b.created
        && a.updated == b.updated
        && a.provenance == b.provenance
}

// Whether what two callers say of a response is the same.
fn is_same_given(a: &GivenMeta, b: &GivenMeta) -> bool
    ensures { IsTrue result ↔ (a.now ≡ b.now) }
{
    are_same_moments(a, b)
        && a.stale_while_revalidate_sec == b.stale_while_revalidate_sec
        && a.stale_if_error_sec == b.stale_if_error_sec
        && a.external() == b.external()
}

fn are_same_given(a: &Option<GivenMeta>, b: &Option<GivenMeta>) -> bool
    ensures { IsTrue result ↔ (a.now ≡ b.now) }
{
    match (a, b) {
        (None, None) => true,
        (Some(a), Some(b)) => is_same_given(a, b),
        _ => false,
    }
}

fn is_open(b: &Action, id: u64, with: &CacheKey, asks: bool) -> bool
    ensures { IsTrue result ↔ (Open id (seen_key with.now) asks ≡ seen_action b.now) }
{
    match b {
        Action::Open { request, key, lock } => {
            id == *request && asks == *lock && is_same_key(with, key)
        }
        _ => false,
    }
}

fn is_look_up(b: &Action, id: u64) -> bool
    ensures { IsTrue result ↔ (LookUp id ≡ seen_action b.now) }
{
    match b {
        Action::LookUp { request } => id == *request,
        _ => false,
    }
}

fn is_poll(b: &Action, id: u64) -> bool
    ensures { IsTrue result ↔ (Poll id ≡ seen_action b.now) }
{
    match b {
        Action::Poll { request } => id == *request,
        _ => false,
    }
}

fn is_begin(b: &Action, id: u64, with: &Bytes, meta: &Option<GivenMeta>) -> bool
    ensures { IsTrue result ↔ (Begin id with.now meta.now ≡ seen_action b.now) }
{
    match b {
        Action::Begin {
            request,
            head,
            given,
        } => id == *request && with == head && are_same_given(meta, given),
        _ => false,
    }
}

fn is_revalidate(b: &Action, id: u64, with: &Bytes, meta: &Option<GivenMeta>) -> bool
    ensures { IsTrue result ↔ (Revalidate id with.now meta.now ≡ seen_action b.now) }
{
    match b {
        Action::Revalidate {
            request,
            head,
            given,
        } => id == *request && with == head && are_same_given(meta, given),
        _ => false,
    }
}

fn is_piece(b: &Action, id: u64, with: &Bytes, is_last: bool) -> bool
    ensures { IsTrue result ↔ (Piece id with.now is_last ≡ seen_action b.now) }
{
    match b {
        Action::Piece {
            request,
            bytes,
            end,
        } => id == *request && is_last == *end && with == bytes,
        _ => false,
    }
}

fn is_finish(b: &Action, id: u64) -> bool
    ensures { IsTrue result ↔ (Finish id ≡ seen_action b.now) }
{
    match b {
        Action::Finish { request } => id == *request,
        _ => false,
    }
}

fn is_read(b: &Action, id: u64) -> bool
    ensures { IsTrue result ↔ (Read id ≡ seen_action b.now) }
{
    match b {
        Action::Read { request } => id == *request,
        _ => false,
    }
}

fn is_drop(b: &Action, id: u64) -> bool
    ensures { IsTrue result ↔ (Drop id ≡ seen_action b.now) }
{
    match b {
        Action::Drop { request } => id == *request,
        _ => false,
    }
}

fn is_purge(b: &Action, with: &CacheKey) -> bool
    ensures { IsTrue result ↔ (Purge (seen_key with.now) ≡ seen_action b.now) }
{
    match b {
        Action::Purge { key } => is_same_key(with, key),
        _ => false,
    }
}

fn is_put(b: &Action, with: &CacheKey, parts: &Pieces, meta: &Option<GivenMeta>) -> bool
    ensures { IsTrue result ↔ (Put (seen_key with.now) parts.now meta.now ≡ seen_action b.now) }
{
    match b {
        Action::Put { key, pieces, given } => {
            is_same_key(with, key) && are_same_pieces(parts, pieces) && are_same_given(meta, given)
        }
        _ => false,
    }
}

fn is_same_action(a: &Action, b: &Action) -> bool
    ensures { IsTrue result ↔ (seen_action a.now ≡ seen_action b.now) }
{
    match a {
        Action::Open { request, key, lock } => is_open(b, *request, key, *lock),
        Action::LookUp { request } => is_look_up(b, *request),
        Action::Poll { request } => is_poll(b, *request),
        Action::Begin {
            request,
            head,
            given,
        } => is_begin(b, *request, head, given),
        Action::Revalidate {
            request,
            head,
            given,
        } => is_revalidate(b, *request, head, given),
        Action::Piece {
            request,
            bytes,
            end,
        } => is_piece(b, *request, bytes, *end),
        Action::Finish { request } => is_finish(b, *request),
        Action::Read { request } => is_read(b, *request),
        Action::Drop { request } => is_drop(b, *request),
        Action::Purge { key } => is_purge(b, key),
        Action::Put { key, pieces, given } => is_put(b, key, pieces, given),
    }
}

/// Returns whether two events are the same, as far as a cache can see.
pub fn is_same_event(a: &Event, b: &Event) -> bool
    ensures { IsTrue result ↔ (seen a.now ≡ seen b.now) }
{
    a.moment == b.moment && is_same_action(&a.action, &b.action)
}
