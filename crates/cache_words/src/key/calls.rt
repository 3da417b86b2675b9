//! The calls of keys.
ghost use Rattle.std.specs.Prelude.{◌≡◌, Some, None, IfSome, IfNone, IfOk, IsUtf8, string_bytes, [], replicate};
ghost use Rattle.cache_words.specs.Key.{CacheKeyValue, key_of, shown};
ghost use Rattle.cache_words.specs.CompactKey.{compact_view};

use super::{CacheHashKey, CacheKey, CompactCacheKey, HashBinary, hash_key};
use crate::text::Text;
use std::alloc::{AllocError, Global};
use std::{fmt, str};

impl CacheKey {
    /// A key without an override and without a variance.
    pub fn new(primary: Vec<u8>, user_tag: String) -> CacheKey
        ensures { result ≡ record { primary = primary.items; primary_bin_override = None; variance = None; user_tag = string_bytes user_tag } }
    {
        CacheKey {
            primary,
            primary_bin_override: None,
            variance: None,
            digest: None,
            user_tag: Text::from_string(user_tag),
        }
    }

    /// The bytes of what is requested.
    pub fn primary_key(&self) -> &[u8]
        ensures { result.now ≡ self.now.primary }
    {
        &self.primary
    }

    /// What is requested as text, if it is text.
    pub fn primary_key_str(&self) -> Option<&str>
        ensures some { IfSome result (λ s. (s.now ≡ self.now.primary) × IsUtf8 s.now) }
        ensures none { IfNone result (IsUtf8 self.now.primary → ⊥) }
    {
        str::from_utf8(self.primary.as_slice()).ok()
    }

    /// Sets what the response varies by.
    pub fn set_variance_key(&mut self, key: HashBinary)
        ensures { self.new ≡ record self.old { variance = Some key } }
    {
        self.variance = Some(key);
    }

    /// What the response varies by, if that was set.
    pub fn get_variance_key(&self) -> Option<&HashBinary>
        ensures some { IfSome result (λ v. self.now.variance ≡ Some v.now) }
        ensures none { IfNone result (self.now.variance ≡ None) }
    {
        self.variance.as_ref()
    }

    /// Removes what the response varies by.
    pub fn remove_variance_key(&mut self)
        ensures { self.new ≡ record self.old { variance = None } }
    {
        self.variance = None;
    }

    /// Puts a hash in place of that of what is requested.
    pub fn set_primary_bin_override(&mut self, key: HashBinary)
        ensures { self.new ≡ record self.old { primary_bin_override = Some key } }
    {
        self.primary_bin_override = Some(key);
    }

    /// Takes the hash of what is requested now, so that later calls find it ready. The key stays as it is.
    pub fn keep_digest(&mut self)
        ensures { self.new ≡ self.old }
    {
        if self.primary_bin_override.is_none() && self.digest.is_none() {
            self.digest = Some(hash_key(self.primary.as_slice()));
        }
    }

    /// The key as a cache keeps it. Its three hashes are this key's.
    pub fn to_compact(&self) -> Result<CompactCacheKey, AllocError>
        ensures { IfOk result (λ c. compact_view c ≡ key_of self.now) }
    {
        Ok(CompactCacheKey {
            primary: self.primary_bin(),
            variance: self.variance,
            user_tag: self.user_tag.clone()?,
        })
    }
}

impl CompactCacheKey {
    /// A key of zeros, without a variance and with an empty tag.
    pub fn empty(alloc: Global) -> CompactCacheKey
        ensures { compact_view result ≡ record { primary = replicate 16 0; variance = None; user_tag = [] } }
    {
        CompactCacheKey {
            primary: [0; 16],
            variance: None,
            user_tag: Text::from_string(String::new(alloc)),
        }
    }
}

impl Clone for CacheKey {
    ghost is_clone = { λ k copy. copy ≡ k };

    fn clone(&self) -> Result<CacheKey, AllocError> {
        Ok(CacheKey {
            primary: self.primary.clone()?,
            primary_bin_override: self.primary_bin_override,
            variance: self.variance,
            digest: self.digest,
            user_tag: self.user_tag.clone()?,
        })
    }
}

impl CacheHashKey for CacheKey {
    ghost key = { key_of };

    fn primary_bin(&self) -> HashBinary {
        match (self.primary_bin_override, self.digest) {
            (Some(hash), _) => hash,
            (None, Some(digest)) => digest,
            (None, None) => hash_key(self.primary.as_slice()),
        }
    }

    fn variance_bin(&self) -> Option<HashBinary> {
        self.get_variance_key().copied()
    }

    fn user_tag(&self) -> &str {
        self.user_tag.as_str()
    }
}

impl CacheHashKey for CompactCacheKey {
    ghost key = { compact_view };

    fn primary_bin(&self) -> HashBinary {
        self.primary
    }

    fn variance_bin(&self) -> Option<HashBinary> {
        self.variance
    }

    fn user_tag(&self) -> &str {
        self.user_tag.as_str()
    }
}
