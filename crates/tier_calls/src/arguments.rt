//! What the arguments of calls stand for.
ghost use Rattle.std.specs.Prelude.{◌≡◌, ◌≤◌, ◌⊎◌, ◌∷◌, [], None, Some, length, IfOk, IfErr, string_bytes};
ghost use Rattle.cache_words.specs.Key.{CacheKeyValue};
ghost use Rattle.tier_calls.specs.Arguments.{moment_at, moment_in, IsKeyIn, IsNoKey, by_digests, digests_in, given_in, meta_in, window_in};

use crate::statuses;
use crate::structs::{MetaWords, MomentWords};
use bytes::Bytes;
use cache_heads::GivenMeta;
use cache_words::key::{CacheKey, HashBinary, hash_key};
use cache_words::time::Moment;
use std::alloc::{AllocError, Global};
use std::str;
use tier_model::event::Pieces;

// The first second that no moment has.
const NO_SECOND: u64 = 1 << 63;

// The first number of seconds that no window has.
const NO_WINDOW: u64 = 1 << 32;

/// The moment of these numbers, if there is one.
pub(crate) fn moment_at(seconds: u64, nanoseconds: u64) -> Option<Moment>
    ensures { result ≡ moment_at seconds nanoseconds }
{
    if seconds >= NO_SECOND || nanoseconds >= 1_000_000_000 {
        return None;
    }
    Moment::new(seconds as i64, nanoseconds as u32)
}

fn moment_of(words: MomentWords) -> Option<Moment>
    ensures { result ≡ moment_in words }
{
    moment_at(words.seconds, words.nanoseconds)
}

fn window_of(seconds: u64) -> Option<u32>
    ensures { result ≡ window_in seconds }
{
    if seconds >= NO_WINDOW {
        return None;
    }
    Some(seconds as u32)
}

fn meta_of(meta: &MetaWords) -> Option<GivenMeta>
    ensures { result ≡ meta_in meta.now }
{
    if meta.reserved != 0 {
        return None;
    }
    let fresh_until = moment_of(meta.fresh_until)?;
    let created = moment_of(meta.created)?;
    let updated = moment_of(meta.updated)?;
    let provenance = moment_of(meta.provenance)?;
    let stale_while_revalidate_sec = window_of(meta.stale_while_revalidate)?;
    let stale_if_error_sec = window_of(meta.stale_if_error)?;
    let mut given = GivenMeta::new(
        fresh_until,
        created,
        stale_while_revalidate_sec,
        stale_if_error_sec,
    );
    given.updated = updated;
    given.provenance = provenance;
    given.with_external(meta.external)
}

/// What a caller says of a response, which may be nothing: of the number 0.
pub(crate) fn given_of(given: u64, meta: &MetaWords) -> Option<Option<GivenMeta>>
    ensures { result ≡ given_in given meta.now }
{
    match given {
        0 => Some(None),
        1 => match meta_of(meta) {
            Some(meta) => Some(Some(meta)),
            None => None,
        },
        _ => None,
    }
}

// A digest of so many bytes.
fn digest_of(bytes: &[u8]) -> HashBinary
    requires { length bytes.now ≡ 16 }
    ensures { result ≡ bytes.now }
{
    let mut digest = [0; 16];
    digest.copy_from_slice(bytes);
    digest
}

/// The digest of what is requested, and that of a variance.
#[derive(Clone, Copy)]
pub(crate) struct Digests {
    primary: HashBinary,
    variance: Option<HashBinary>,
}

fn one(primary: HashBinary) -> Digests
    ensures { result ≡ record { primary = primary; variance = None } }
{
    Digests {
        primary,
        variance: None,
    }
}

fn both(primary: HashBinary, variance: HashBinary) -> Digests
    ensures { result ≡ record { primary = primary; variance = Some variance } }
{
    Digests {
        primary,
        variance: Some(variance),
    }
}

/// The digests of a key by these arguments.
pub(crate) fn digests_of(digested: u64, key: &[u8]) -> Option<Digests>
    ensures { result ≡ digests_in digested key.now }
{
    if digested == 0 {
        return Some(one(hash_key(key)));
    }
    if digested == 1 && key.len() == 16 {
        return Some(one(digest_of(key)));
    }
    if digested == 1 && key.len() == 32 {
        let primary = digest_of(&key[..16]);
        let variance = digest_of(&key[16..]);
        return Some(both(primary, variance));
    }
    None
}

// The key of these digests. It takes no memory but for its tag.
fn key_by(alloc: Global, digests: Digests, tag: String) -> CacheKey
    ensures { result ≡ by_digests digests.primary digests.variance (string_bytes tag) }
{
    let mut key = CacheKey::new(Vec::new(alloc), tag);
    key.set_primary_bin_override(digests.primary);
    if let Some(variance) = digests.variance {
        key.set_variance_key(variance);
    }
    key
}

/// The key of these digests, without a tag. It takes no memory.
pub(crate) fn untagged(alloc: Global, digests: Digests) -> CacheKey
    ensures { result ≡ by_digests digests.primary digests.variance [] }
{
    key_by(alloc, digests, String::new(alloc))
}

/// The key of these arguments.
///
/// # Errors
///
/// `BAD_CALL`: there is none. `MEMORY`: there is no memory for its tag.
pub(crate) fn key_of(alloc: Global, digested: u64, key: &[u8], tag: &[u8]) -> Result<CacheKey, u64>
    ensures ok { IfOk result (λ k. IsKeyIn digested key.now tag.now k) }
    ensures err { IfErr result (λ status. ((status ≡ 20) × IsNoKey digested key.now tag.now) ⊎ ((status ≡ 13) × ((k : CacheKeyValue) × IsKeyIn digested key.now tag.now k))) }
{
    let Some(digests) = digests_of(digested, key) else {
        return Err(statuses::BAD_CALL);
    };
    let Ok(tag) = str::from_utf8(tag) else {
        return Err(statuses::BAD_CALL);
    };
    match String::from_str(alloc, tag) {
        Ok(tag) => Ok(key_by(alloc, digests, tag)),
        Err(_) => Err(statuses::MEMORY),
    }
}

/// A copy of bytes.
pub(crate) fn copied(alloc: Global, bytes: &[u8]) -> Result<Bytes, AllocError>
    ensures { IfOk result (λ copy. copy ≡ bytes.now) }
{
    let copy = bytes.to_vec(alloc)?;
    match Bytes::from_vec(copy) {
        Ok(bytes) => Ok(bytes),
        Err(_) => Err(AllocError),
    }
}

/// A response of a head and a body, copied.
pub(crate) fn pieces_of(alloc: Global, head: &[u8], body: &[u8]) -> Result<Pieces, AllocError>
    ensures { IfOk result (λ pieces. pieces ≡ head.now ∷ body.now ∷ []) }
{
    let head = copied(alloc, head)?;
    let body = copied(alloc, body)?;
    let mut pieces = Vec::with_capacity(alloc, 2)?;
    pieces.push_reserved(head);
    pieces.push_reserved(body);
    Ok(Pieces::from_vec(pieces))
}
