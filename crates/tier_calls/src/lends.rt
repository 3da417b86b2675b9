//! What is lent to a program in C.
ghost use Rattle.std.specs.Prelude.{◌≡◌, length, option_map};
ghost use Rattle.tier_calls.specs.Shown.{IsHeadOf, IsNoHead, IsEntryOf, IsEntryShown, bytes_or_none, no_moment, words_of_moment};

use crate::statuses;
use crate::structs::{EntryShown, HeadShown, Lent, MomentWords};
use cache_entries::entry::CacheEntryKey;
use cache_words::time::Moment;
use head_metas::versions::InternalMetaV2;
use head_packed::SharedHead;

/// Lends bytes.
pub(crate) fn lent(bytes: &[u8]) -> Lent
    ensures { result.len ≡ length bytes.now }
{
    match bytes.first() {
        Some(first) => Lent {
            at: std::ptr::from_ref(first),
            len: bytes.len(),
        },
        None => nothing(),
    }
}

/// Lends no bytes.
pub(crate) fn nothing() -> Lent
    ensures { result.len ≡ 0 }
{
    Lent {
        at: std::ptr::null(),
        len: 0,
    }
}

// The words of a moment; the seconds are 0 before 1970.
fn words_of(moment: Moment) -> MomentWords
    ensures { result ≡ words_of_moment moment }
{
    MomentWords {
        seconds: u64::try_from(moment.seconds()).unwrap_or(0),
        nanoseconds: u64::from(moment.nanoseconds()),
    }
}

/// Lends a head, with what is kept beside it, of a body of so many bytes.
pub(crate) fn head_shown(
    head: &SharedHead,
    internal: &InternalMetaV2,
    external: u64,
    body_len: u64,
) -> HeadShown
    ensures { IsHeadOf head.now internal.now external body_len result }
{
    let text = head.text();
    HeadShown {
        status: u64::from(head.status().as_u16()),
        lines: head.lines(),
        fresh_until: words_of(internal.fresh_until),
        created: words_of(internal.created),
        updated: words_of(internal.updated),
        provenance: words_of(internal.provenance.unwrap_or(internal.created)),
        stale_while_revalidate: u64::from(internal.stale_while_revalidate_sec),
        stale_if_error: u64::from(internal.stale_if_error_sec),
        external,
        block: lent(text),
        body_len,
    }
}

fn no_moment() -> MomentWords
    ensures { result ≡ no_moment }
{
    MomentWords {
        seconds: 0,
        nanoseconds: 0,
    }
}

/// Lends no head.
pub(crate) fn no_head() -> HeadShown
    ensures { IsNoHead result }
{
    HeadShown {
        status: 0,
        lines: 0,
        fresh_until: no_moment(),
        created: no_moment(),
        updated: no_moment(),
        provenance: no_moment(),
        stale_while_revalidate: 0,
        stale_if_error: 0,
        external: 0,
        block: nothing(),
        body_len: 0,
    }
}

/// Lends an entry, if there is one, whose body has so many bytes outside.
pub(crate) fn entry_shown(entry: Option<&CacheEntryKey>, external: u64) -> EntryShown
    ensures { IsEntryShown (option_map (λ e. e.now) entry.entry) external result }
{
    match entry {
        Some(entry) => there(entry, external),
        None => EntryShown {
            status: statuses::NOTHING_SHOWN,
            foreign: 0,
            primary: nothing(),
            variance: nothing(),
            tag: nothing(),
            external: 0,
        },
    }
}

fn there(entry: &CacheEntryKey, external: u64) -> EntryShown
    ensures { IsEntryOf entry.now external result }
{
    let key = entry.key();
    EntryShown {
        status: statuses::SHOWN,
        foreign: u64::from(entry.entry_id().is_some()),
        primary: lent(&key.primary),
        variance: variance_of(&key.variance),
        tag: lent(key.user_tag.as_str().as_bytes()),
        external,
    }
}

fn variance_of(variance: &Option<[u8; 16]>) -> Lent
    ensures { result.len ≡ length (bytes_or_none variance.now) }
{
    match variance {
        Some(variance) => lent(variance),
        None => nothing(),
    }
}
