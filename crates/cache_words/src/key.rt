//! The keys that name what a cache holds.
ghost use Rattle.std.specs.Prelude.{◌≡◌, ◌↔◌, ◌++◌, ◌<◌, length, slice_index, Some, None, IsSome, IfSome, IfNone, IfOk, Ok, IsUtf8, string_bytes, option_map};
ghost use Rattle.std.specs.List.{AllPass};
ghost use Rattle.hex.specs.Hex.{encode_lower, decode_of, is_hex_digit};
ghost use Rattle.cache_words.specs.Blake.{blake2b_128};
ghost use Rattle.cache_words.specs.Key.{Key, CacheKeyValue, key_of, combined, shown};

use crate::blake::{Blake2b128, digest};
use crate::text::Text;
use hex::FromHex;
use std::alloc::{AllocError, Global};
use std::convert::AsSlice;
use std::marker::Model;
use std::{fmt, str};

/// A hash: 16 bytes of BLAKE2b.
pub type HashBinary = [u8; 16];

/// The hash of the bytes.
pub fn hash_key<K: AsSlice<u8> + Drop>(key: K) -> HashBinary
    ensures { result ≡ blake2b_128 (K.items key) }
{
    digest(key.as_slice())
}

/// The first byte of a text's hash.
pub fn hash_u8(key: &str) -> u8
    ensures { result ≡ slice_index (blake2b_128 key.now) 0 }
{
    hash_key(key)[0]
}

/// The hash that 32 hex digits of either case spell; `None` for any other text.
pub fn str2hex(s: &str) -> Option<HashBinary>
    ensures value { IfSome result (λ hash. decode_of s.now ≡ Ok hash) }
    ensures found { IsSome result ↔ ((length s.now ≡ 32) × AllPass is_hex_digit s.now) }
{
    <HashBinary as FromHex>::from_hex(s).ok()
}

/// What names a cached response: a hash of what is requested, and one of what the response varies by.
pub trait CacheHashKey {
    // The key as a cache keeps it.
    ghost key: { Self → Key };

    /// The hash of what is requested.
    fn primary_bin(&self) -> HashBinary
        ensures { result ≡ (key self.now).primary };

    /// The hash of what the response varies by, if it does.
    fn variance_bin(&self) -> Option<HashBinary>
        ensures { result ≡ (key self.now).variance };

    /// The owner's tag, which is in no hash.
    fn user_tag(&self) -> &str
        ensures { result.now ≡ (key self.now).user_tag };

    /// One hash for both: the primary one, or without a variance that of the two hashes, one after the other.
    fn combined_bin(&self) -> HashBinary
        ensures { result ≡ combined (key self.now) }
    {
        let primary = self.primary_bin();
        match self.variance_bin() {
            Some(variance) => {
                let mut hasher = Blake2b128::new();
                hasher.update(&primary);
                hasher.update(&variance);
                hasher.finalize()
            }
            None => primary,
        }
    }

    /// The primary hash in hex.
    fn primary(&self, alloc: Global) -> Result<String, AllocError>
        ensures { IfOk result (λ s. string_bytes s ≡ encode_lower (key self.now).primary) }
    {
        hex::encode(alloc, self.primary_bin())
    }

    /// The variance's hash in hex, if there is one.
    fn variance(&self, alloc: Global) -> Result<Option<String>, AllocError>
        ensures { IfOk result (λ text. option_map string_bytes text ≡ option_map encode_lower (key self.now).variance) }
    {
        match self.variance_bin() {
            Some(variance) => Ok(Some(hex::encode(alloc, variance)?)),
            None => Ok(None),
        }
    }

    /// The combined hash in hex.
    fn combined(&self, alloc: Global) -> Result<String, AllocError>
        ensures { IfOk result (λ s. string_bytes s ≡ encode_lower (combined (key self.now))) }
    {
        hex::encode(alloc, self.combined_bin())
    }
}

/// A key as it is requested. Its primary part is mostly text, but may be any bytes.
#[derive(Debug, Drop)]
pub struct CacheKey {
    primary: Vec<u8>,
    primary_bin_override: Option<HashBinary>,
    variance: Option<HashBinary>,
    // The hash of `primary`, once `keep_digest` took it.
    digest: Option<HashBinary>,
    /// The owner's tag, which is in no hash.
    pub user_tag: Text,
}

impl Model for CacheKey {
    ghost use Rattle.cache_words.specs.Key.{CacheKeyValue};

    ghost Value = { CacheKeyValue };

    ghost use Rattle.std.specs.Prelude.{◌≡◌, IfSome};
    ghost use Rattle.cache_words.specs.Blake.{blake2b_128};

    ghost view = { λ k. record { primary = k.primary.items; primary_bin_override = k.primary_bin_override; variance = k.variance; user_tag = k.user_tag } };

    ghost invariant = { λ k. IfSome k.digest (λ d. d ≡ blake2b_128 k.primary.items) };
}

/// A key as a cache keeps it: hashes in place of what is requested.
#[derive(Clone, PartialEq, Eq, PartialOrd, Ord, Hash, Debug, Drop)]
pub struct CompactCacheKey {
    /// The hash of what is requested.
    pub primary: HashBinary,
    /// The hash of what the response varies by, if it does.
    pub variance: Option<HashBinary>,
    /// The owner's tag.
    pub user_tag: Text,
}

mod calls;
mod display;
