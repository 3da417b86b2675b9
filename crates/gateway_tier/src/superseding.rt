//! Whose responses a write supersedes: those of requests that went earlier, which would be found where it is stored.
ghost use Rattle.std.specs.Prelude.{◌≡◌, ◌==◌, ◌&&◌, not, map, length, nat_eq, filter, false, IfOk};
ghost use Rattle.std.specs.Option.{option_map_or};
ghost use Rattle.std.specs.Cmp.Lexicographic.{pointwise};
ghost use Rattle.cache_words.specs.Blake.{blake2b_128};
ghost use Rattle.gateway_rules.specs.Options.{options_of};
ghost use Rattle.gateway_exchanges.specs.Tables.{numbers_at};
ghost use Rattle.gateway_tier.specs.Moves.{is_first};
ghost use Rattle.gateway_tier.specs.Superseding.{keys_by, has_digest, has_sole_key, is_found_at, asked_earlier, is_earlier, earlier_at};

use crate::moving::is_first;
use crate::waking::is_at;
use cache_words::key::{HashBinary, hash_key};
use gateway_exchanges::exchange::Exchange;
use gateway_state::state::Gateway;
use rules_ffi_arguments::bad::Bad;

fn is_of(key: &Vec<u8>, digest: &HashBinary) -> bool
    ensures { result ≡ pointwise nat_eq (blake2b_128 key.now.items) digest.now }
{
    hash_key(key.as_slice()) == *digest
}

// Whether one of these keys has that digest.
fn has_digest(keys: &[Vec<u8>], digest: &HashBinary) -> bool
    ensures { result ≡ has_digest digest.now (map (λ key. key.items) keys.now) }
{
    for key in keys {
        if is_of(key, digest) {
            return true;
        }
    }
    false
}

// Whether one of its second keys, by the list of another, has that digest.
fn has_key(g: &Gateway, e: &Exchange, index: &[u8], place: &HashBinary) -> Result<bool, Bad>
    ensures { IfOk result (λ has. has ≡ has_digest place.now (keys_by (options_of g.now.rules) e.now index.now)) }
{
    let keys = g.rules.secondary_keys(&e.request, index)?;
    Ok(has_digest(keys.as_slice(), place))
}

// Whether the list by which a response is stored has one set.
fn has_one_set(g: &Gateway, e: &Exchange) -> Result<bool, Bad>
    ensures { IfOk result (λ one. one ≡ (length (keys_by (options_of g.now.rules) e.now e.now.index) == 1)) }
{
    let keys = g.rules.secondary_keys(&e.request, e.index.as_slice())?;
    Ok(keys.as_slice().len() == 1)
}

fn has_same_index(e: &Exchange, other: &Exchange) -> bool
    ensures { result ≡ pointwise nat_eq e.now.index other.now.index }
{
    e.index.as_slice() == other.index.as_slice()
}

fn has_same_first(e: &Exchange, other: &Exchange) -> bool
    ensures { result ≡ option_map_or (λ first. is_first first other.now) e.now.first false }
{
    match &e.first {
        Some(first) => is_first(other, first),
        None => false,
    }
}

fn asked_earlier(e: &Exchange, other: &Exchange) -> bool
    ensures { result ≡ asked_earlier e.now other.now }
{
    has_same_first(e, other) && other.awaits_head() && other.sequence() < e.sequence()
}

// Whether what the other asks for would be found at that place. `sole`: the list has one set, so that who looked by it has no key but that under which it is.
fn is_found_at(
    g: &Gateway,
    e: &Exchange,
    other: &Exchange,
    place: &HashBinary,
    sole: bool,
) -> Result<bool, Bad>
    requires { sole ≡ (length (keys_by (options_of g.now.rules) e.now e.now.index) == 1) }
    ensures { IfOk result (λ found. found ≡ is_found_at (options_of g.now.rules) e.now place.now other.now) }
{
    if is_first(e, place) || is_at(other, place) {
        return Ok(true);
    }
    if sole && has_same_index(e, other) {
        return Ok(false);
    }
    has_key(g, other, e.index.as_slice(), place)
}

// The same of the exchange of a number that asked earlier, unless it is taken out.
fn is_earlier(
    g: &Gateway,
    e: &Exchange,
    y: u64,
    place: &HashBinary,
    sole: bool,
) -> Result<bool, Bad>
    requires { sole ≡ (length (keys_by (options_of g.now.rules) e.now e.now.index) == 1) }
    ensures { IfOk result (λ earlier. earlier ≡ is_earlier (options_of g.now.rules) e.now place.now g.now.table y) }
{
    match g.table.get(y) {
        Some(other) => is_earlier_one(g, e, other, place, sole),
        None => Ok(false),
    }
}

fn is_earlier_one(
    g: &Gateway,
    e: &Exchange,
    other: &Exchange,
    place: &HashBinary,
    sole: bool,
) -> Result<bool, Bad>
    requires { sole ≡ (length (keys_by (options_of g.now.rules) e.now e.now.index) == 1) }
    ensures { IfOk result (λ earlier. earlier ≡ (asked_earlier e.now other.now && is_found_at (options_of g.now.rules) e.now place.now other.now)) }
{
    if asked_earlier(e, other) {
        is_found_at(g, e, other, place, sole)
    } else {
        Ok(false)
    }
}

/// Of those at the first key who asked the origin earlier, and whose response would be found at that place.
pub(crate) fn earlier_at(g: &Gateway, e: &Exchange, place: &HashBinary) -> Result<Vec<u64>, Bad>
    ensures { IfOk result (λ numbers. numbers.items ≡ earlier_at (options_of g.now.rules) e.now place.now g.now.table) }
{
    match &e.first {
        Some(first) => earlier_of(g, e, first, place),
        None => Ok(Vec::new(g.alloc)),
    }
}

fn earlier_of(
    g: &Gateway,
    e: &Exchange,
    first: &HashBinary,
    place: &HashBinary,
) -> Result<Vec<u64>, Bad>
    ensures { IfOk result (λ numbers. numbers.items ≡ filter (is_earlier (options_of g.now.rules) e.now place.now g.now.table) (numbers_at first.now g.now.table)) }
{
    let sole = has_one_set(g, e)?;
    let mut numbers = Vec::new(g.alloc);
    for at in 0..g.table.count_at(first) {
        let y = g.table.number_at(first, at).unwrap_or(0);
        if is_earlier(g, e, y, place, sole)? {
            numbers.push(y)?;
        }
    }
    Ok(numbers)
}
