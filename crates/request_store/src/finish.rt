//! How a write is finished.
ghost use Rattle.std.specs.Prelude.{◌≡◌, Bool, Some, true, IfOk, OnErr, MatchResult};
ghost use Rattle.cache_entries.specs.declared.entry.CacheEntryKey.{CacheEntryKey as EntryKey};
ghost use Rattle.request_store.specs.Admissions.{rules_of, cache_of};
ghost use Rattle.request_store.specs.Entries.{entry_at};
ghost use Rattle.request_store.specs.Finishes.{IsOutOfMemory, fault_of_admission, IsStored, IsUnstored, AreEntries, AdmitAnswer};

use crate::faults::{FinishFault, Finished};
use crate::{AdmitFault, CacheParts, Done, admit};
use cache_evict::{CacheEntryId, CacheEntryKey, EvictionManager};
use cache_store::storage::{HandleMiss, MissFault, MissFinishType, Storage};
use cache_words::key::CacheKey;
use cache_words::time::Moment;
use rand_core::Rng;
use std::alloc::{AllocError, Global};

/// An entry, twice.
pub type Entries = (CacheEntryKey, CacheEntryKey);

/// What a store reports of a body that it stored, how long that is, and the body's entry where it is to be admitted.
#[derive(Drop)]
pub struct Stored {
    /// What the store reports.
    pub kind: MissFinishType,
    /// How many bytes the body has.
    pub length: usize,
    /// The entry, where the manager is on.
    pub entries: Option<Entries>,
}

/// Returns that memory ran out before anything was done.
pub fn out_of_memory(alloc: Global) -> FinishFault
    ensures { IsOutOfMemory result }
{
    FinishFault::Memory(Done {
        stored: false,
        admitted: false,
        evicted: Vec::new(alloc),
    })
}

// A fault of the admission as one of the finish.
fn told_of_admission(fault: AdmitFault) -> FinishFault
    ensures { result ≡ fault_of_admission fault }
{
    match fault {
        AdmitFault::Weight(done) => FinishFault::Weight(done),
        AdmitFault::Length(done) => FinishFault::Length(done),
        AdmitFault::NumbersSpent(done) => FinishFault::NumbersSpent(done),
        AdmitFault::Memory(done) => FinishFault::Memory(done),
    }
}

/// Returns the entry of a key, with that id.
///
/// # Errors
///
/// Out of memory.
pub fn entry_of(key: &CacheKey, id: Option<CacheEntryId>) -> Result<CacheEntryKey, AllocError>
    ensures { IfOk result (λ e. e ≡ entry_at (Some key.now) id) }
{
    let compact = key.to_compact()?;
    Ok(CacheEntryKey::from_entry_id(compact, id))
}

// The entry of a key, twice, where the manager is on.
fn entries_of(
    evicts: bool,
    key: &CacheKey,
    id: Option<CacheEntryId>,
) -> Result<Option<Entries>, AllocError>
    ensures entries { IfOk result (AreEntries evicts (entry_at (Some key.now) id)) }
    ensures on { OnErr result (evicts ≡ true) }
{
    if !evicts {
        return Ok(None);
    }
    let entry = entry_of(key, id)?;
    let again = entry_of(key, id)?;
    Ok(Some((entry, again)))
}

// What is told where memory ran out for the entry: the writer is handed back, but a write that was removed is given up, as its finish
// would do.
fn unstored<S: Storage>(store: &mut S, writer: S::Miss) -> MissFault<S::Miss>
    ensures { IsUnstored S.held S.ids S.Miss.number S.Miss.id S.Miss.tag writer result store.old store.new }
{
    if writer.is_removed(store) {
        writer.leave(store);
        return MissFault::WriteRemoved;
    }
    MissFault::Memory(writer)
}

/// Stores a body, once there is memory for its entry, which is wanted where the manager is on.
///
/// # Errors
///
/// `WriteRemoved` exactly where a removal met the write, which is given up; `Memory`, with the writer, and nothing has changed.
pub fn store_body<S: Storage>(
    store: &mut S,
    key: &CacheKey,
    evicts: bool,
    writer: S::Miss,
) -> Result<Stored, MissFault<S::Miss>>
    ensures { MatchResult result
        (λ done. IsStored S.held S.ids S.Miss.number S.Miss.id S.Miss.told writer done.kind done.length store.old store.new
        × AreEntries evicts (entry_at (Some key.now) (S.Miss.id writer)) done.entries)
        (λ fault. IsUnstored S.held S.ids S.Miss.number S.Miss.id S.Miss.tag writer fault store.old store.new) }
{
    let Ok(entries) = entries_of(evicts, key, writer.entry_id()) else {
        return Err(unstored(store, writer));
    };
    let length = writer.len(store);
    match writer.finish(store) {
        Ok(kind) => Ok(Stored {
            kind,
            length,
            entries,
        }),
        Err(fault) => Err(fault),
    }
}

// Admits a body that was stored.
fn admit_body<S: Storage, E: EvictionManager, P, L, A, R: Rng>(
    alloc: Global,
    parts: &mut CacheParts<S, E, P, L, A>,
    rng: &mut R,
    fresh_until: Moment,
    kind: MissFinishType,
    length: usize,
    entries: Entries,
) -> Result<Option<Finished>, FinishFault>
    requires { entries.1 ≡ entries.0 }
    ensures admitted { let rules = rules_of S.held S.ids S.purged_as S.is_spent S.Miss.told E.shard_count E.weighed E.pick in
        let old = cache_of parts.old.store (E.managed parts.old.manager) (R.stream rng.old) in let new = cache_of parts.new.store (E.managed parts.new.manager) (R.stream rng.new) in
        AdmitAnswer rules S.Miss.number S.Miss.id true kind length entries.0 result old new }
    ensures parts { parts.new ≡ record parts.old { store = parts.new.store; manager = parts.new.manager } }
{
    let (entry, again) = entries;
    match admit(alloc, parts, rng, kind, entry, &again, fresh_until) {
        Ok(evicted) => Ok(Some(Finished {
            kind,
            length,
            evicted,
        })),
        Err(fault) => Err(told_of_admission(fault)),
    }
}

/// Admits a body that was stored, where its entry is wanted.
///
/// # Errors
///
/// Those of the admission: what was stored is taken back.
pub fn admit_stored<S: Storage, E: EvictionManager, P, L, A, R: Rng>(
    alloc: Global,
    parts: &mut CacheParts<S, E, P, L, A>,
    rng: &mut R,
    fresh_until: Moment,
    stored: Stored,
) -> Result<Option<Finished>, FinishFault>
    requires { (evicts : Bool) × (e : EntryKey) × AreEntries evicts e stored.entries }
    ensures admitted { let rules = rules_of S.held S.ids S.purged_as S.is_spent S.Miss.told E.shard_count E.weighed E.pick in
        let old = cache_of parts.old.store (E.managed parts.old.manager) (R.stream rng.old) in let new = cache_of parts.new.store (E.managed parts.new.manager) (R.stream rng.new) in
        (evicts : Bool) (e : EntryKey) → AreEntries evicts e stored.entries → AdmitAnswer rules S.Miss.number S.Miss.id evicts stored.kind stored.length e result old new }
    ensures parts { parts.new ≡ record parts.old { store = parts.new.store; manager = parts.new.manager } }
{
    let Stored {
        kind,
        length,
        entries,
    } = stored;
    match entries {
        Some(entries) => admit_body(alloc, parts, rng, fresh_until, kind, length, entries),
        None => Ok(Some(Finished {
            kind,
            length,
            evicted: Vec::new(alloc),
        })),
    }
}
