//! What a store holds, and the handlers that it gives out.
ghost use Rattle.std.specs.Prelude.{◌≡◌, ℕ, Bool, List, Option, true, length, option_map, unwrap_or, is_none, IsOk, IfErr, IfSome, OnOk, OnErr, MatchResult};
ghost use Rattle.cache_changes.specs.Changes.{StoredKey};
ghost use Rattle.cache_changes.specs.Store.{Stored, flying_at};
ghost use Rattle.cache_heads.specs.declared.meta.CacheMeta.{CacheMeta as Meta};
ghost use Rattle.head_lines.specs.declared.header.ResponseHeader.{ResponseHeader as Head};
ghost use Rattle.cache_entries.specs.declared.entry.CacheEntryId.{CacheEntryId as Id};
ghost use Rattle.cache_store.specs.declared.storage.MissFinishType.{MissFinishType as FinishType};
ghost use Rattle.cache_store.specs.declared.storage.StoreFault.{StoreFault as Fault};
ghost use Rattle.cache_store.specs.Answers.{WriteAnswer, after_write, alive_key, left};
ghost use Rattle.cache_store.specs.StoreState.{StoreState};
ghost use Rattle.cache_store.specs.Ids.{IsGiven};
ghost use Rattle.cache_store.specs.Misses.{MissAnswer, IsAlike};
ghost use Rattle.cache_store.specs.Readers.{Reader, IsStep, IsEmptyOnce, IsRange, IsSought, PartsReader, ReadsSame, ahead};

use super::store::MissFault;
use super::{MissFinishType, ReadStep, StoreFault};
use bytes::Bytes;
use cache_entries::entry::CacheEntryId;

/// What a store holds, as contracts see it: bodies, writes in flight, the number of the next write, and the writes that have
/// readers; with the ids of what is stored. A trait of its own, since the handlers' contracts speak of it too.
pub trait Contents {
    ghost held: { Self → StoreState };

    // The id of what is stored under a key, in a store that gives ids.
    ghost ids: { Self → StoredKey → Option Id };

    // What a body weighs in the order of use.
    ghost weigh: { Stored Meta → ℕ };

    // The number of the write that a tag names, if it names any.
    ghost tagged: { Option (List ℕ) → Option ℕ };
}

/// What reads a body from a store. A contract sees what it is to read, whether it has given no piece since it was made or set to a
/// range, whether reading is a use of the entry, the entry's weight and id, whether a range can be set, and the head, if the reader holds it.
pub trait HandleHit<S: Contents> {
    ghost reader: { Self → Reader };

    ghost unread: { Self → Bool };

    ghost counts: { Self → Bool };

    ghost weight: { Self → ℕ };

    ghost id: { Self → Option Id };

    ghost seekable: { Self → Bool };

    // The head of what is read, of a reader that holds it.
    ghost head: { Self → Option Head };

    /// Does a step of reading. At an end, or where no more is written yet, it takes no memory. Of what is empty it may give one
    /// empty piece; every other piece has bytes.
    ///
    /// # Errors
    ///
    /// `Memory` when out of memory; then it may be read again.
    fn read_body(&mut self, store: &mut S) -> Result<ReadStep, StoreFault>
        ensures step { IsStep (ahead (reader self.old) (S.held store.old)) result (ahead (reader self.new) (S.held store.old)) }
        ensures once { IsEmptyOnce (unread self.old) result (unread self.new) }
        ensures reads { ReadsSame (reader self.old) (reader self.new) }
        ensures same { S.held store.new ≡ S.held store.old }
        ensures ids { S.ids store.new ≡ S.ids store.old };

    /// Ends the reading.
    fn finish(self, store: &mut S)
        ensures parts { PartsReader (reader self) (S.held store.old) (S.held store.new) }
        ensures ids { S.ids store.new ≡ S.ids store.old };

    /// Returns whether `seek` can set a range. A reader whose `seek` is always refused returns `false`.
    fn can_seek(&self) -> bool
        ensures { result ≡ seekable self.now };

    /// Returns whether `seek_multipart` can set ranges.
    fn can_seek_multipart(&self) -> bool
        ensures { result ≡ seekable self.now }
    {
        self.can_seek()
    }

    /// Sets what is read next: from `start` to `end` or, where that is less, to the body's end.
    ///
    /// # Errors
    ///
    /// `SeekRange` where the reader can't be set, `start` isn't within the body, or `end` is below it; an earlier range stays.
    fn seek(&mut self, start: usize, end: Option<usize>) -> Result<(), StoreFault>
        ensures sought { MatchResult result (λ _. IsSought start end (reader self.old) (reader self.new)) (λ f. (f ≡ Fault.SeekRange) × (reader self.new ≡ reader self.old)) }
        ensures seekable { OnOk result (seekable self.old ≡ true) }
        ensures within { seekable self.old ≡ true → IsRange start end (reader self.old) → IsOk result };

    /// Sets one of several ranges.
    ///
    /// # Errors
    ///
    /// Those of `seek`.
    fn seek_multipart(&mut self, start: usize, end: Option<usize>) -> Result<(), StoreFault>
        ensures sought { MatchResult result (λ _. IsSought start end (reader self.old) (reader self.new)) (λ f. (f ≡ Fault.SeekRange) × (reader self.new ≡ reader self.old)) }
        ensures seekable { OnOk result (seekable self.old ≡ true) }
        ensures within { seekable self.old ≡ true → IsRange start end (reader self.old) → IsOk result }
    {
        self.seek(start, end)
    }

    /// Returns whether the reading is a use of the entry. Most readers return `true`.
    fn should_count_access(&self) -> bool
        ensures { result ≡ counts self.now };

    /// Returns the weight of the entry. A reader of a store that weighs no body returns 0.
    fn get_eviction_weight(&self) -> usize
        ensures { result ≡ weight self.now };

    /// Returns the id of the body. A reader of a store that gives no ids returns `None`.
    fn entry_id(&self) -> Option<CacheEntryId>
        ensures { result ≡ id self.now };
}

/// What writes a body to a store. A contract sees the number of its write and the tag by which that is looked up, if any; the id that the
/// store gives its body, if any; and what a finish answers for a body.
pub trait HandleMiss<S: Contents> {
    ghost number: { Self → ℕ };

    ghost tag: { Self → Option (List ℕ) };

    ghost id: { Self → Option Id };

    ghost told: { Stored Meta → FinishType };

    /// Adds bytes, which are the last where `eof` says so. `more` may be a small part of a buffer, as of a whole response: a
    /// store that keeps it and doesn't copy its bytes keeps that buffer.
    ///
    /// # Errors
    ///
    /// `WriteRemoved` where the store doesn't have the write, and else `AfterEnd` where its end was marked; `Memory` when out of
    /// memory. Nothing has changed.
    fn write_body(&mut self, store: &mut S, more: Bytes, eof: bool) -> Result<(), StoreFault>
        ensures answer { WriteAnswer (option_map (λ f. f.ended) (flying_at (number self.old) (S.held store.old).store)) result }
        ensures ok { OnOk result (S.held store.new ≡ record (S.held store.old) { store = after_write (number self.old) more eof (S.held store.old).store }) }
        ensures err { OnErr result (S.held store.new ≡ S.held store.old) }
        ensures same { number self.new ≡ number self.old }
        ensures same_tag { tag self.new ≡ tag self.old }
        ensures same_id { id self.new ≡ id self.old }
        ensures ids { S.ids store.new ≡ S.ids store.old };

    /// Stores the body.
    ///
    /// # Errors
    ///
    /// `WriteRemoved` exactly where a removal met the write, or the store doesn't have it, which is then given up; `Memory` when
    /// out of memory, with the handler, and nothing has changed.
    fn finish(self, store: &mut S) -> Result<MissFinishType, MissFault<Self>>
        ensures finished { MissAnswer number told (alive_key (flying_at (number self) (S.held store.old).store)) (number self) (S.held store.old) result (S.held store.new) }
        ensures ids { MatchResult result (λ _. IsGiven (alive_key (flying_at (number self) (S.held store.old).store)) (id self) (S.ids store.old) (S.ids store.new))
            (λ _. S.ids store.new ≡ S.ids store.old) }
        ensures again { IfErr result (IsAlike id tag self) };

    /// Returns how many bytes were written; 0 where the store doesn't have the write.
    fn len(&self, store: &S) -> usize
        ensures { result ≡ unwrap_or (option_map (λ f. length f.stored.bytes) (flying_at (number self.now) (S.held store.now).store)) 0 };

    /// Returns whether a removal met the write, or the store doesn't have it, so that `finish` would be refused as `WriteRemoved`. It takes
    /// no memory.
    fn is_removed(&self, store: &S) -> bool
        ensures { result ≡ is_none (alive_key (flying_at (number self.now) (S.held store.now).store)) };

    /// Gives the write up.
    fn leave(self, store: &mut S)
        ensures left { S.held store.new ≡ left (number self) (S.held store.old) }
        ensures ids { S.ids store.new ≡ S.ids store.old };

    /// Lends the tag by which the write is looked up. A writer of a store without tags returns `None`.
    fn streaming_write_tag(&self) -> Option<&[u8]>
        ensures tag { option_map (λ t. t.now) result ≡ tag self.now }
        ensures named { IfSome (S.tagged (tag self.now)) (λ n. n ≡ number self.now) };

    /// Returns the id of the body. A writer of a store that gives no ids returns `None`.
    fn entry_id(&self) -> Option<CacheEntryId>
        ensures { result ≡ id self.now };
}
