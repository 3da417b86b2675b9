//! The part of each key.
ghost use Rattle.std.specs.Prelude.{◌≡◌};
ghost use Rattle.curve_keys.specs.Parts.{hashed, place_of, is_at, is_in};

use crate::part::Part;

// FNV-1a of 64 bits.
fn hashed(key: &[u8]) -> u64
    ensures { result ≡ hashed 14695981039346656037 key.now }
{
    let mut hash: u64 = 14695981039346656037;
    for byte in key {
        hash = (hash ^ u64::from(*byte)).wrapping_mul(1099511628211);
    }
    hash
}

// The place of a key, by which it has its part.
pub(crate) fn place_of(key: &[u8]) -> u64
    ensures { result ≡ place_of key.now }
{
    hashed(key) % 1_000_000_007
}

// Whether keys of a place are in the part; without one all are.
pub(crate) fn is_at(part: Option<Part>, place: u64) -> bool
    ensures { result ≡ is_at part place }
{
    match part {
        None => true,
        Some(part) => place % part.of() == part.index(),
    }
}

// Whether a key is in the part; without one all are.
pub fn is_in(part: Option<Part>, key: &[u8]) -> bool
    ensures { result ≡ is_in part key.now }
{
    match part {
        None => true,
        Some(_) => is_at(part, place_of(key)),
    }
}
