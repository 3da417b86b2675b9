//! What a store is asked for, and what it answers.
ghost use Rattle.std.specs.Prelude.{◌≡◌, Some, IfSome, option_map};
ghost use Rattle.cache_entries.specs.Entry.{number_of, owned_of, id_of};
ghost use Rattle.cache_store.specs.Storage.{key_of_target, removed_of, IsTargetsId, target_text, store_fault_text};

use bytes::Bytes;
use cache_entries::entry::{CacheEntryId, CacheEntryKey, CacheEntryKeyRef};
use cache_words::key::CompactCacheKey;
use std::error::Error;
use std::fmt;

mod handlers;
mod store;
pub mod streaming_write;

pub use handlers::{Contents, HandleHit, HandleMiss};
pub use store::{Found, FoundAt, FreshLook, HitHandler, MissFault, MissHandler, Storage};

/// Why a body is purged.
#[derive(Clone, Copy, PartialEq, Eq, Debug)]
pub enum PurgeType {
    /// The store is full.
    Eviction,
    /// What it holds is no longer valid.
    Invalidation,
}

/// What a purge does with a body.
#[derive(Clone, Copy, PartialEq, Eq, Debug)]
pub enum PurgeAction {
    /// Removes it.
    Delete,
    /// Lets it go stale.
    Expire,
}

/// What came of a purge.
#[derive(Clone, Copy, PartialEq, Eq, Debug)]
pub enum PurgeOutcome {
    /// Nothing was found.
    NotFound,
    /// What was found is removed; with the id of the body, where the store gives ids.
    Purged(Option<CacheEntryId>),
    /// What was found is stale from the given moment.
    Expired,
}

/// How a write ended.
#[derive(Clone, Copy, PartialEq, Eq, Debug)]
pub enum MissFinishType {
    /// A body of this weight was stored.
    Created(usize),
    /// This much was added to a weight, which the second number bounds where there is one.
    Appended(usize, Option<usize>),
}

/// One step of reading a body.
#[derive(Debug, Drop)]
pub enum ReadStep {
    /// The bytes that come next.
    Bytes(Bytes),
    /// More may come, but is not written yet.
    Pending,
    /// The body has been read.
    End,
}

/// What is to be purged.
#[derive(Clone, Copy, PartialEq, Eq, Debug)]
pub enum PurgeTarget<'a> {
    /// Whatever is stored under a key.
    Active(&'a CompactCacheKey),
    /// One entry.
    Exact(&'a CacheEntryKey),
}

impl<'a> PurgeTarget<'a> {
    /// Returns the key.
    pub fn key(self) -> &'a CompactCacheKey
        ensures { result.now ≡ key_of_target self.entry }
    {
        match self {
            PurgeTarget::Active(key) => key,
            PurgeTarget::Exact(entry) => entry.key(),
        }
    }

    /// Returns the entry that a purge of this target removed, where the store answered with this id. An exact target's id
    /// can't be another than its own.
    pub fn removed_entry(self, id: Option<CacheEntryId>) -> CacheEntryKeyRef<'a>
        requires { IsTargetsId self (option_map number_of id) }
        ensures entry { owned_of result ≡ removed_of self.entry (option_map number_of id) }
        ensures id { IfSome id (λ one. id_of (owned_of result) ≡ Some (number_of one)) }
    {
        match self {
            PurgeTarget::Active(key) => CacheEntryKeyRef::from_entry_id(key, id),
            PurgeTarget::Exact(entry) => CacheEntryKeyRef::from(entry),
        }
    }
}

impl<'a> fmt::Display for PurgeTarget<'a> {
    ghost output = { λ target. Some (target_text target) };

    fn fmt<W: fmt::Write>(&self, f: &mut fmt::Formatter<W>) -> fmt::Result {
        match self {
            PurgeTarget::Active(key) => write!(f, "active entry for {key}"),
            PurgeTarget::Exact(entry) => fmt::Display::fmt(*entry, f),
        }
    }
}

/// Why a store refuses a call.
#[derive(Clone, Copy, PartialEq, Eq, Debug)]
pub enum StoreFault {
    /// There is no memory.
    Memory = 1,
    /// The write's key was purged since the write began.
    WriteRemoved = 2,
    /// The write's end was already marked.
    AfterEnd = 3,
    /// The range to read isn't within the body.
    SeekRange = 4,
    /// No meta is stored under the key.
    NoMeta = 5,
    /// Each number of a write has been used.
    WriteNumbersSpent = 6,
    /// A moment of the meta can't be written.
    MetaMoment = 7,
}

impl fmt::Display for StoreFault {
    ghost output = { λ fault. Some (store_fault_text fault) };

    fn fmt<W: fmt::Write>(&self, f: &mut fmt::Formatter<W>) -> fmt::Result {
        f.write_str(match self {
            StoreFault::Memory => "out of memory",
            StoreFault::WriteRemoved => "the key was purged since the write began",
            StoreFault::AfterEnd => "the end of the write was already marked",
            StoreFault::SeekRange => "the range is not within the body",
            StoreFault::NoMeta => "no meta is stored under the key",
            StoreFault::WriteNumbersSpent => "no number is left for a write",
            StoreFault::MetaMoment => "a moment of the meta can't be written",
        })
    }
}

impl Error for StoreFault {}
