//! Entries, owned and borrowed.
ghost use Rattle.std.specs.Prelude.{◌≡◌, option_map, Some, None, IfOk, [], replicate};
ghost use Rattle.std.specs.Cmp.{partial_equiv_from_equiv, on_per, on_equiv};
ghost use Rattle.cache_words.specs.CompactKey.{compact_view};
ghost use Rattle.cache_entries.specs.Entry.{number_of, owned_of, entry_with, same_entry, id_of, key_of, entry_writes};
ghost use Rattle.cache_entries.specs.EntryShown.{shown_entry};
ghost use Rattle.cache_entries.specs.SameEntry.{entries_equivalence, same-hashed, same_entry-tells};

use cache_words::key::CompactCacheKey;
use indexmap::Equivalent;
use std::alloc::{AllocError, Global};
use std::fmt;
use std::hash::{Hash, Hasher};

/// The id of one stored body.
#[derive(Clone, Copy, PartialEq, Eq, PartialOrd, Ord, Hash, Debug)]
pub struct CacheEntryId(u64);

impl CacheEntryId {
    /// The id of this number.
    pub fn new(value: u64) -> CacheEntryId
        ensures { number_of result ≡ value }
    {
        CacheEntryId(value)
    }

    /// The number.
    pub fn get(self) -> u64
        ensures { result ≡ number_of self }
    {
        self.0
    }
}

/// What the order of use tracks: a kept key with its tag, and an id where the store gave one.
#[derive(PartialOrd, Ord, Debug, Drop)]
pub enum CacheEntryKey {
    /// A key alone.
    KeyOnly(CompactCacheKey),
    /// A key, and the id of one body stored under it.
    Identified {
        /// The key.
        key: CompactCacheKey,
        /// The id.
        id: CacheEntryId,
    },
}

/// A borrowed entry. It is compared and hashed as the entry that it stands for, so a map of entries is searched by it
/// without a copy.
#[derive(Clone, Copy, Debug)]
pub enum CacheEntryKeyRef<'a> {
    /// A key alone.
    KeyOnly(&'a CompactCacheKey),
    /// A key, and the id of one body stored under it.
    Identified {
        /// The key.
        key: &'a CompactCacheKey,
        /// The id.
        id: CacheEntryId,
    },
}

impl CacheEntryKey {
    /// The entry of a key, with an id or without one.
    pub fn from_entry_id(key: CompactCacheKey, id: Option<CacheEntryId>) -> CacheEntryKey
        ensures { result ≡ entry_with key (option_map number_of id) }
    {
        match id {
            Some(id) => CacheEntryKey::Identified { key, id },
            None => CacheEntryKey::KeyOnly(key),
        }
    }

    /// The entry of a key alone.
    pub fn key_only(key: CompactCacheKey) -> CacheEntryKey
        ensures { result ≡ CacheEntryKey.KeyOnly key }
    {
        CacheEntryKey::KeyOnly(key)
    }

    /// The entry of a key and an id.
    pub fn identified(key: CompactCacheKey, id: CacheEntryId) -> CacheEntryKey
        ensures { result ≡ CacheEntryKey.Identified key id }
    {
        CacheEntryKey::Identified { key, id }
    }

    /// The entry of a key of zeros, without a variance, a tag or an id.
    pub fn empty(alloc: Global) -> CacheEntryKey
        ensures key { compact_view (key_of result) ≡ record { primary = replicate 16 0; variance = None; user_tag = [] } }
        ensures id { id_of result ≡ None }
    {
        CacheEntryKey::KeyOnly(CompactCacheKey::empty(alloc))
    }

    /// The key.
    pub fn key(&self) -> &CompactCacheKey
        ensures { result.now ≡ key_of self.now }
    {
        match self {
            CacheEntryKey::KeyOnly(key) => key,
            CacheEntryKey::Identified { key, .. } => key,
        }
    }

    /// The key, which is given away.
    pub fn into_key(self) -> CompactCacheKey
        ensures { result ≡ key_of self }
    {
        match self {
            CacheEntryKey::KeyOnly(key) => key,
            CacheEntryKey::Identified { key, .. } => key,
        }
    }

    /// The id, if there is one.
    pub fn entry_id(&self) -> Option<CacheEntryId>
        ensures { option_map number_of result ≡ id_of self.now }
    {
        match self {
            CacheEntryKey::KeyOnly(_) => None,
            CacheEntryKey::Identified { id, .. } => Some(*id),
        }
    }
}

impl<'a> CacheEntryKeyRef<'a> {
    /// The entry of a key, with an id or without one.
    pub fn from_entry_id(key: &'a CompactCacheKey, id: Option<CacheEntryId>) -> CacheEntryKeyRef<'a>
        ensures { owned_of result ≡ entry_with key.now (option_map number_of id) }
    {
        match id {
            Some(id) => CacheEntryKeyRef::Identified { key, id },
            None => CacheEntryKeyRef::KeyOnly(key),
        }
    }

    /// The key.
    pub fn key(self) -> &'a CompactCacheKey
        ensures { result.now ≡ key_of (owned_of self.entry) }
    {
        match self {
            CacheEntryKeyRef::KeyOnly(key) => key,
            CacheEntryKeyRef::Identified { key, .. } => key,
        }
    }

    /// The id, if there is one.
    pub fn entry_id(self) -> Option<CacheEntryId>
        ensures { option_map number_of result ≡ id_of (owned_of self.entry) }
    {
        match self {
            CacheEntryKeyRef::KeyOnly(_) => None,
            CacheEntryKeyRef::Identified { id, .. } => Some(id),
        }
    }

    /// A copy that owns its key.
    pub fn to_entry(self) -> Result<CacheEntryKey, AllocError>
        ensures { IfOk result (λ copy. copy ≡ owned_of self.entry) }
    {
        match self {
            CacheEntryKeyRef::KeyOnly(key) => Ok(CacheEntryKey::KeyOnly(key.clone()?)),
            CacheEntryKeyRef::Identified { key, id } => {
                let key = key.clone()?;
                Ok(CacheEntryKey::Identified { key, id })
            }
        }
    }

    // The key, and the id if there is one.
    fn parts(&self) -> (&'a CompactCacheKey, Option<CacheEntryId>)
        ensures key { result.0.now ≡ key_of (owned_of self.now) }
        ensures id { option_map number_of result.1 ≡ id_of (owned_of self.now) }
    {
        match self {
            CacheEntryKeyRef::KeyOnly(key) => (*key, None),
            CacheEntryKeyRef::Identified { key, id } => (*key, Some(*id)),
        }
    }
}

impl<'a> From<&'a CacheEntryKey> for CacheEntryKeyRef<'a> {
    ghost from_gives = { λ entry borrowed. owned_of borrowed ≡ entry.now };

    fn from(entry: &'a CacheEntryKey) -> CacheEntryKeyRef<'a> {
        match entry {
            CacheEntryKey::KeyOnly(key) => CacheEntryKeyRef::KeyOnly(key),
            CacheEntryKey::Identified { key, id } => CacheEntryKeyRef::Identified { key, id: *id },
        }
    }
}

impl Clone for CacheEntryKey {
    ghost is_clone = { λ entry copy. copy ≡ entry };

    fn clone(&self) -> Result<CacheEntryKey, AllocError> {
        CacheEntryKeyRef::from(self).to_entry()
    }
}

impl PartialEq for CacheEntryKey {
    ghost eq = { same_entry };

    ghost laws = { partial_equiv_from_equiv entries_equivalence };

    fn eq(&self, other: &CacheEntryKey) -> bool {
        CacheEntryKeyRef::from(self) == CacheEntryKeyRef::from(other)
    }
}

impl Eq for CacheEntryKey {
    ghost laws = { entries_equivalence };
}

impl<'a> PartialEq for CacheEntryKeyRef<'a> {
    ghost eq = { λ a b. same_entry (owned_of a) (owned_of b) };

    ghost laws = { on_per owned_of (partial_equiv_from_equiv entries_equivalence) };

    fn eq(&self, other: &CacheEntryKeyRef<'a>) -> bool {
        self.parts() == other.parts()
    }
}

impl<'a> Eq for CacheEntryKeyRef<'a> {
    ghost laws = { on_equiv owned_of entries_equivalence };
}

impl Hash for CacheEntryKey {
    ghost hash_input = { entry_writes };

    ghost respects_eq = { same-hashed same_entry same_entry-tells entry_writes };

    fn hash<H: Hasher>(&self, state: &mut H) {
        CacheEntryKeyRef::from(self).hash(state);
    }
}

impl<'a> Hash for CacheEntryKeyRef<'a> {
    ghost hash_input = { λ entry. entry_writes (owned_of entry) };

    ghost respects_eq = { λ a b. same-hashed same_entry same_entry-tells entry_writes (owned_of a) (owned_of b) };

    fn hash<H: Hasher>(&self, state: &mut H) {
        self.parts().hash(state);
    }
}

impl<'a> Equivalent<CacheEntryKey> for CacheEntryKeyRef<'a> {
    ghost equivalent = { λ query entry. same_entry (owned_of query) entry };

    ghost respects_hash = { λ query entry. same-hashed same_entry same_entry-tells entry_writes (owned_of query) entry };

    ghost respects_eq = { λ query a b. entries_equivalence.congr (owned_of query) a b };

    fn equivalent(&self, entry: &CacheEntryKey) -> bool {
        *self == CacheEntryKeyRef::from(entry)
    }
}

impl fmt::Display for CacheEntryKey {
    ghost output = { λ entry. Some (shown_entry entry) };

    fn fmt<W: fmt::Write>(&self, f: &mut fmt::Formatter<W>) -> fmt::Result {
        fmt::Display::fmt(&CacheEntryKeyRef::from(self), f)
    }
}

impl<'a> fmt::Display for CacheEntryKeyRef<'a> {
    ghost output = { λ entry. Some (shown_entry (owned_of entry)) };

    fn fmt<W: fmt::Write>(&self, f: &mut fmt::Formatter<W>) -> fmt::Result {
        match self {
            CacheEntryKeyRef::KeyOnly(key) => fmt::Display::fmt(*key, f),
            CacheEntryKeyRef::Identified { key, id } => {
                let id = id.get();
                write!(f, "{key}, entry ID: {id:x}")
            }
        }
    }
}
