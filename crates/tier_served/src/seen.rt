//! What is known of requests by their stored keys.
ghost use Rattle.std.specs.Prelude.{◌≡◌, ◌==◌, ◌∷◌, IfOk, List, Option, option_map, true};
ghost use Rattle.std.specs.Cmp.Lexicographic.{pointwise};
ghost use Rattle.std.specs.HashMap.{get};
ghost use Rattle.tier_loads.specs.Requests.{PlainRequest};
ghost use Rattle.tier_served.specs.Uniform.{IsSeenAs};
ghost use Rattle.tier_served.specs.Known.{shown, fits, fits_all, fitting, AreNoted, Knows};

use crate::request::{Method, Request};
use crate::weight::stored_weight;
use cache_entries::entry::CacheEntryKey;
use cache_words::key::{CacheHashKey, HashBinary};
use std::alloc::{AllocError, Global};
use std::collections::HashMap;
use std::hash::BuildHasher;

// The entry of requests, and what the bodies weigh that they ask for, where one asks.
#[derive(Drop)]
pub(crate) struct Seen {
    pub(crate) entry: CacheEntryKey,
    pub(crate) weight: Option<usize>,
}

// What is known of each stored key.
pub(crate) type Table<S> = HashMap<HashBinary, Seen, S>;

// What is seen of a request: nothing where its response isn't stored.
pub(crate) fn see(alloc: Global, request: &Request) -> Result<Option<Seen>, AllocError>
    ensures { IfOk result (λ seen. (p : Option PlainRequest) × IsSeenAs request.now p × (seen ≡ option_map shown p)) }
{
    let entry = CacheEntryKey::key_only(request.key.to_compact()?);
    match &request.method {
        Method::Purge => Ok(Some(Seen {
            entry,
            weight: None,
        })),
        Method::Get { response } => match stored_weight(alloc, request.moment, response)? {
            Some(weight) => Ok(Some(Seen {
                entry,
                weight: Some(weight),
            })),
            None => Ok(None),
        },
    }
}

// Whether both are of one entry and, where both ask, of one weight.
fn fits(known: &Seen, seen: &Seen) -> bool
    ensures { result ≡ fits known.now seen.now }
{
    known.entry == seen.entry
        && match (known.weight, seen.weight) {
            (Some(a), Some(b)) => a == b,
            _ => true,
        }
}

// The weight that is known of a stored key with what was seen; nothing where that doesn't fit.
fn fitting<S: BuildHasher>(
    table: &Table<S>,
    stored: &HashBinary,
    seen: &Seen,
) -> Option<Option<usize>>
    ensures { result ≡ fitting (get (pointwise ◌==◌) table.now stored.now) seen.now }
{
    let Some(known) = table.get(stored) else {
        return Some(seen.weight);
    };
    if !fits(known, seen) {
        return None;
    }
    Some(known.weight.or(seen.weight))
}

// Notes what was seen of a request, where it fits what is known, and returns whether it does.
fn note<S: BuildHasher>(table: &mut Table<S>, seen: Seen) -> Result<bool, AllocError>
    ensures { (p : PlainRequest) (known : List PlainRequest) → seen ≡ shown p → Knows table.old known
        → IfOk result (λ yes. (yes ≡ fits_all p known) × (yes ≡ true → Knows table.new (p ∷ known))) }
{
    let stored = seen.entry.key().combined_bin();
    let Some(weight) = fitting(table, &stored, &seen) else {
        return Ok(false);
    };
    let entry = seen.entry;
    table.insert(stored, Seen { entry, weight })?;
    Ok(true)
}

// Notes what was seen next of requests that are alike or not, and returns whether they are with it.
pub(crate) fn note_next<S: BuildHasher>(
    table: &mut Table<S>,
    alike: bool,
    seen: Option<Seen>,
) -> Result<bool, AllocError>
    ensures { (p : Option PlainRequest) (before : List (Option PlainRequest)) → seen ≡ option_map shown p → AreNoted alike before (Knows table.old)
        → IfOk result (λ yes. AreNoted yes (p ∷ before) (Knows table.new)) }
{
    let Some(seen) = seen else {
        return Ok(false);
    };
    if !alike {
        return Ok(false);
    }
    note(table, seen)
}
