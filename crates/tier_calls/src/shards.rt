//! A tier of one, four or sixteen shards.
ghost use Rattle.std.specs.Prelude.{◌≡◌, ◌<◌, ◌↔◌, [], Option, Some, None, IfOk, IfSome, IfNone, List, ℕ, replicate, option_map, option_and_then};
ghost use Rattle.cache_entries.specs.declared.entry.CacheEntryKey.{CacheEntryKey};
ghost use Rattle.cache_heads.specs.declared.meta.CacheMeta.{CacheMeta};
ghost use Rattle.cache_words.specs.Time.{MomentValue};
ghost use Rattle.rand_core.specs.Stream.{Stream};
ghost use Rattle.tier_calls.specs.Hits.{FindsIn, LooksUpStale, HitsIn};
ghost use Rattle.tier_model.specs.Sizes.{write_size};
ghost use Rattle.tier_model.specs.NoStore.{no_store_head};
ghost use Rattle.tier_calls.specs.Restarts.{SavesAs, SavesIn, Starts, StartsIn};
ghost use Rattle.tier_calls.specs.Tiers.{state_of, status_of, IsCount, made_with, finished_at, finished_in, whole_in, found_in, outside_in, entries_at, entries_of, Steps};
ghost use Rattle.tier_model.specs.Histories.{empty_opening};
ghost use Rattle.tier_model.specs.Past.{HasPast};
ghost use Rattle.tier_model.specs.State.{State, empty_state};
ghost use Rattle.tier_model.specs.Reports.{report_of};

use crate::statuses;
use bytes::Bytes;
use cache_entries::entry::CacheEntryKey;
use cache_words::key::{CacheHashKey, CacheKey, HashBinary};
use cache_words::time::{Duration, Moment};
use head_packed::PackedMeta;
use lru_files::persistence::MemFolder;
use rand_core::Rng;
use seeded_hashing::SeededState;
use std::alloc::{AllocError, Global};
use tier_model::event::{Action, Answer, Event, TierFault};
use tier_model::report::Report;
use tier_single::tier::Tier;
use tier_single::{FoundMeta, Hit};

// Where the files of the shards lie in a folder in memory.
pub(crate) const DIR: &str = "tier";

/// How many shards were saved, and how many not.
#[derive(Clone, Copy)]
pub struct Saved {
    pub saved: u64,
    pub failed: u64,
}

/// How many shards were loaded, had no file, and had a fault.
#[derive(Clone, Copy)]
pub struct Loaded {
    pub loaded: u64,
    pub missing: u64,
    pub errored: u64,
}

/// Why nothing was loaded.
#[derive(Clone, Copy)]
pub enum StartFault {
    /// The tier isn't new.
    NotNew,
    Memory,
}

/// What a tier is made with.
#[derive(Clone, Copy)]
pub struct Settings {
    pub hasher: SeededState,
    pub limit: usize,
    pub watermark: Option<usize>,
    pub age: Duration,
    pub wait: Option<Duration>,
}

/// A tier, or none: there was no memory for one, or no tier has so many shards.
#[derive(Drop)]
pub enum Shards {
    NoMemory,
    NoSuchCount,
    One(Tier<1, SeededState>),
    Four(Tier<4, SeededState>),
    Sixteen(Tier<16, SeededState>),
}

impl Shards {
    /// Makes an empty tier of so many shards.
    pub fn new(alloc: Global, shards: u64, settings: &Settings) -> Shards
        ensures empty { (s : State) → state_of result ≡ Some s → (s ≡ empty_state (made_with shards settings.now)) × HasPast (empty_opening (made_with shards settings.now)) s [] }
        ensures count { (status_of result ≡ 20) ↔ ¬ (IsCount shards) }
    {
        match shards {
            1 => match made::<1>(alloc, settings) {
                Some(tier) => Shards::One(tier),
                None => Shards::NoMemory,
            },
            4 => match made::<4>(alloc, settings) {
                Some(tier) => Shards::Four(tier),
                None => Shards::NoMemory,
            },
            16 => match made::<16>(alloc, settings) {
                Some(tier) => Shards::Sixteen(tier),
                None => Shards::NoMemory,
            },
            _ => Shards::NoSuchCount,
        }
    }

    /// Whether a tier is there: `READY`, `MEMORY` or `BAD_CALL`.
    pub fn status(&self) -> u64
        ensures { result ≡ status_of self.now }
    {
        match self {
            Shards::NoMemory => statuses::MEMORY,
            Shards::NoSuchCount => statuses::BAD_CALL,
            _ => statuses::READY,
        }
    }

    /// Has the tier take an event. Without a tier nothing is done.
    pub fn step<R: Rng>(&mut self, rng: &mut R, event: &Event) -> Option<Result<Answer, TierFault>>
        ensures some { IfSome result (λ outcome. Steps self.old (R.stream rng.old) event.now outcome self.new (R.stream rng.new)) }
        ensures none { IfNone result ((state_of self.old ≡ None) × (self.new ≡ self.old) × (rng.new ≡ rng.old)) }
    {
        match self {
            Shards::NoMemory | Shards::NoSuchCount => None,
            Shards::One(tier) => Some(tier.step(rng, event)),
            Shards::Four(tier) => Some(tier.step(rng, event)),
            Shards::Sixteen(tier) => Some(tier.step(rng, event)),
        }
    }

    /// Returns what the tier did and holds.
    pub fn report(&self) -> Option<Report>
        ensures some { IfSome result (λ report. (s : State) × (state_of self.now ≡ Some s) × (report ≡ report_of s)) }
        ensures none { IfNone result (state_of self.now ≡ None) }
    {
        match self {
            Shards::NoMemory | Shards::NoSuchCount => None,
            Shards::One(tier) => Some(tier.report()),
            Shards::Four(tier) => Some(tier.report()),
            Shards::Sixteen(tier) => Some(tier.report()),
        }
    }

    /// Opens a request for a key.
    pub fn open(&mut self, id: u64, key: &CacheKey, asks: bool) -> Option<Result<Answer, TierFault>>
        ensures some { IfSome result (λ outcome. (t : MomentValue) (s : Stream) → Steps self.old s (record { moment = t; action = Action.Open id key.now asks }) outcome self.new s) }
        ensures none { IfNone result ((state_of self.old ≡ None) × (self.new ≡ self.old)) }
    {
        match self {
            Shards::NoMemory | Shards::NoSuchCount => None,
            Shards::One(tier) => Some(tier.take_open(id, key, asks)),
            Shards::Four(tier) => Some(tier.take_open(id, key, asks)),
            Shards::Sixteen(tier) => Some(tier.take_open(id, key, asks)),
        }
    }

    /// Adds bytes to a request's write.
    pub fn piece(&mut self, id: u64, bytes: &Bytes, end: bool) -> Option<Result<Answer, TierFault>>
        ensures some { IfSome result (λ outcome. (t : MomentValue) (s : Stream) → Steps self.old s (record { moment = t; action = Action.Piece id bytes.now end }) outcome self.new s) }
        ensures none { IfNone result ((state_of self.old ≡ None) × (self.new ≡ self.old)) }
    {
        match self {
            Shards::NoMemory | Shards::NoSuchCount => None,
            Shards::One(tier) => Some(tier.take_piece(id, bytes, end)),
            Shards::Four(tier) => Some(tier.take_piece(id, bytes, end)),
            Shards::Sixteen(tier) => Some(tier.take_piece(id, bytes, end)),
        }
    }

    /// Returns how many bytes the body of a request's write has so far, with those that it has outside, if it has one in flight.
    pub fn write_size(&self, id: u64) -> Option<u128>
        ensures { result ≡ option_and_then (λ s. write_size s id) (state_of self.now) }
    {
        match self {
            Shards::NoMemory | Shards::NoSuchCount => None,
            Shards::One(tier) => tier.write_size(id),
            Shards::Four(tier) => tier.write_size(id),
            Shards::Sixteen(tier) => tier.write_size(id),
        }
    }

    /// Returns how many bytes a whole body has that a request found and hasn't read.
    pub fn found_len(&self, id: u64) -> Option<usize>
        ensures { result ≡ found_in self.now id }
    {
        match self {
            Shards::NoMemory | Shards::NoSuchCount => None,
            Shards::One(tier) => tier.found_len(id),
            Shards::Four(tier) => tier.found_len(id),
            Shards::Sixteen(tier) => tier.found_len(id),
        }
    }

    /// Says that the response of a request won't be stored.
    pub fn give_up(&mut self, id: u64) -> Option<Result<Answer, TierFault>>
        ensures some { IfSome result (λ outcome. (t : MomentValue) (s : Stream) → Steps self.old s (record { moment = t; action = Action.Begin id no_store_head None }) outcome self.new s) }
        ensures none { IfNone result ((state_of self.old ≡ None) × (self.new ≡ self.old)) }
    {
        match self {
            Shards::NoMemory | Shards::NoSuchCount => None,
            Shards::One(tier) => Some(tier.give_up(id)),
            Shards::Four(tier) => Some(tier.give_up(id)),
            Shards::Sixteen(tier) => Some(tier.give_up(id)),
        }
    }

    /// Looks up for a request whatever is stored, as stale.
    pub fn lookup_stale(
        &mut self,
        id: u64,
    ) -> Option<Result<(Answer, Option<FoundMeta>), TierFault>>
        ensures some { IfSome result (λ r. LooksUpStale self.old id r self.new) }
        ensures none { IfNone result ((state_of self.old ≡ None) × (self.new ≡ self.old)) }
    {
        match self {
            Shards::NoMemory | Shards::NoSuchCount => None,
            Shards::One(tier) => Some(tier.lookup_stale(id)),
            Shards::Four(tier) => Some(tier.lookup_stale(id)),
            Shards::Sixteen(tier) => Some(tier.lookup_stale(id)),
        }
    }

    /// Returns the sum of the entries' weights, and how many they are.
    pub fn weight(&self) -> Option<(u64, u64)>
        ensures some { IfSome result (λ w. (s : State) × (state_of self.now ≡ Some s) × (w ≡ ((report_of s).weight, (report_of s).tracked))) }
        ensures none { IfNone result (state_of self.now ≡ None) }
    {
        match self {
            Shards::NoMemory | Shards::NoSuchCount => None,
            Shards::One(tier) => Some(tier.weight()),
            Shards::Four(tier) => Some(tier.weight()),
            Shards::Sixteen(tier) => Some(tier.weight()),
        }
    }

    /// Returns how many bytes the finished body of an entry's key has outside; 0 without one.
    pub fn outside(&self, entry: &CacheEntryKey) -> u64
        ensures { result ≡ outside_in self.now entry.now }
    {
        match self.finished(&entry.key().combined_bin()) {
            Some((meta, _body)) => meta.external(),
            None => 0,
        }
    }

    /// Ends a request's write.
    pub fn finish<R: Rng>(&mut self, rng: &mut R, id: u64) -> Option<Result<Answer, TierFault>>
        ensures some { IfSome result (λ outcome. (t : MomentValue) → Steps self.old (R.stream rng.old) (record { moment = t; action = Action.Finish id }) outcome self.new (R.stream rng.new)) }
        ensures none { IfNone result ((state_of self.old ≡ None) × (self.new ≡ self.old) × (rng.new ≡ rng.old)) }
    {
        match self {
            Shards::NoMemory | Shards::NoSuchCount => None,
            Shards::One(tier) => Some(tier.take_finish(rng, id)),
            Shards::Four(tier) => Some(tier.take_finish(rng, id)),
            Shards::Sixteen(tier) => Some(tier.take_finish(rng, id)),
        }
    }

    /// Reads on in what a request found, or writes.
    pub fn read(&mut self, id: u64) -> Option<Result<Answer, TierFault>>
        ensures some { IfSome result (λ outcome. (t : MomentValue) (s : Stream) → Steps self.old s (record { moment = t; action = Action.Read id }) outcome self.new s) }
        ensures none { IfNone result ((state_of self.old ≡ None) × (self.new ≡ self.old)) }
    {
        match self {
            Shards::NoMemory | Shards::NoSuchCount => None,
            Shards::One(tier) => Some(tier.take_read(id)),
            Shards::Four(tier) => Some(tier.take_read(id)),
            Shards::Sixteen(tier) => Some(tier.take_read(id)),
        }
    }

    /// Returns whether all came of what a request reads, where it was read to its end.
    pub fn is_whole(&self, id: u64) -> Option<bool>
        ensures { result ≡ whole_in self.now id }
    {
        match self {
            Shards::NoMemory | Shards::NoSuchCount => None,
            Shards::One(tier) => tier.is_whole(id),
            Shards::Four(tier) => tier.is_whole(id),
            Shards::Sixteen(tier) => tier.is_whole(id),
        }
    }

    /// Ends a request.
    pub fn drop_request(&mut self, id: u64) -> Option<Result<Answer, TierFault>>
        ensures some { IfSome result (λ outcome. (t : MomentValue) (s : Stream) → Steps self.old s (record { moment = t; action = Action.Drop id }) outcome self.new s) }
        ensures none { IfNone result ((state_of self.old ≡ None) × (self.new ≡ self.old)) }
    {
        match self {
            Shards::NoMemory | Shards::NoSuchCount => None,
            Shards::One(tier) => Some(tier.take_drop(id)),
            Shards::Four(tier) => Some(tier.take_drop(id)),
            Shards::Sixteen(tier) => Some(tier.take_drop(id)),
        }
    }

    /// Removes what is stored for a key.
    pub fn purge(&mut self, key: &CacheKey) -> Option<Result<Answer, TierFault>>
        ensures some { IfSome result (λ outcome. (t : MomentValue) (s : Stream) → Steps self.old s (record { moment = t; action = Action.Purge key.now }) outcome self.new s) }
        ensures none { IfNone result ((state_of self.old ≡ None) × (self.new ≡ self.old)) }
    {
        match self {
            Shards::NoMemory | Shards::NoSuchCount => None,
            Shards::One(tier) => Some(tier.take_purge(key)),
            Shards::Four(tier) => Some(tier.take_purge(key)),
            Shards::Sixteen(tier) => Some(tier.take_purge(key)),
        }
    }

    /// Looks up for a request, and returns with what was found its meta.
    pub fn find(
        &mut self,
        moment: Moment,
        id: u64,
    ) -> Option<Result<(Answer, Option<FoundMeta>), TierFault>>
        ensures some { IfSome result (λ r. FindsIn self.old moment id r self.new) }
        ensures none { IfNone result ((state_of self.old ≡ None) × (self.new ≡ self.old)) }
    {
        match self {
            Shards::NoMemory | Shards::NoSuchCount => None,
            Shards::One(tier) => Some(tier.find(moment, id)),
            Shards::Four(tier) => Some(tier.find(moment, id)),
            Shards::Sixteen(tier) => Some(tier.find(moment, id)),
        }
    }

    /// Returns the body of a key, where it is whole and fresh.
    pub fn hit(&mut self, moment: Moment, key: &CacheKey) -> Option<Result<Option<Hit>, TierFault>>
        ensures some { IfSome result (λ r. HitsIn self.old moment key.now r self.new) }
        ensures none { IfNone result ((state_of self.old ≡ None) × (self.new ≡ self.old)) }
    {
        match self {
            Shards::NoMemory | Shards::NoSuchCount => None,
            Shards::One(tier) => Some(tier.hit_alone(moment, key)),
            Shards::Four(tier) => Some(tier.hit_alone(moment, key)),
            Shards::Sixteen(tier) => Some(tier.hit_alone(moment, key)),
        }
    }

    /// Lends the finished body of a stored key, with its meta.
    pub fn finished(&self, stored: &HashBinary) -> Option<(&PackedMeta, &Bytes)>
        ensures { option_map {U = CacheMeta × List ℕ} (λ f. (f.0.now, f.1.now)) result ≡ finished_in self.now stored.now }
    {
        match self {
            Shards::NoMemory | Shards::NoSuchCount => None,
            Shards::One(tier) => finished_by(tier, stored),
            Shards::Four(tier) => finished_by(tier, stored),
            Shards::Sixteen(tier) => finished_by(tier, stored),
        }
    }

    /// Returns the entries of a shard, most recently used first. None: there is no such shard.
    pub fn entries(
        &self,
        alloc: Global,
        shard: u64,
    ) -> Option<Result<Vec<CacheEntryKey>, AllocError>>
        ensures some { IfSome result (λ came. (xs : List CacheEntryKey) × (entries_at self.now shard ≡ Some xs) × IfOk came (λ v. v.items ≡ xs)) }
        ensures none { IfNone result (entries_at self.now shard ≡ None) }
    {
        match self {
            Shards::NoMemory | Shards::NoSuchCount => None,
            Shards::One(tier) => entries_of(tier, alloc, shard as usize),
            Shards::Four(tier) => entries_of(tier, alloc, shard as usize),
            Shards::Sixteen(tier) => entries_of(tier, alloc, shard as usize),
        }
    }

    /// Saves the order of use, each shard to a file in `DIR`, in a folder that has no files.
    pub fn save(&self, folder: &mut MemFolder) -> Option<Result<Saved, TierFault>>
        ensures none { IfNone result (state_of self.now ≡ None) }
        ensures some { IfSome result (λ came. SavesIn self.now folder.old came folder.new) }
    {
        match self {
            Shards::NoMemory | Shards::NoSuchCount => None,
            Shards::One(tier) => Some(save_one(tier, folder, &[0; 1])),
            Shards::Four(tier) => Some(save_one(tier, folder, &[0; 4])),
            Shards::Sixteen(tier) => Some(save_one(tier, folder, &[0; 16])),
        }
    }

    /// Loads the order of use from the files in `DIR`, of a tier that is new.
    pub fn start(&mut self, folder: &mut MemFolder) -> Option<Result<Loaded, StartFault>>
        ensures none { IfNone result ((state_of self.old ≡ None) × (self.new ≡ self.old) × (folder.new ≡ folder.old)) }
        ensures some { IfSome result (λ came. StartsIn self.old folder.old came self.new folder.new) }
    {
        match self {
            Shards::NoMemory | Shards::NoSuchCount => None,
            Shards::One(tier) => Some(start_one(tier, folder)),
            Shards::Four(tier) => Some(start_one(tier, folder)),
            Shards::Sixteen(tier) => Some(start_one(tier, folder)),
        }
    }
}

fn made<const N: usize>(alloc: Global, settings: &Settings) -> Option<Tier<N, SeededState>>
    requires { 0 < N }
    ensures { IfSome result (λ tier. (tier ≡ empty_state (made_with N settings.now)) × HasPast (empty_opening (made_with N settings.now)) tier []) }
{
    let Settings {
        hasher,
        limit,
        watermark,
        age,
        wait,
    } = *settings;
    Tier::with_hasher(alloc, hasher, limit, watermark, age, wait).ok()
}

fn save_one<const N: usize>(
    tier: &Tier<N, SeededState>,
    folder: &mut MemFolder,
    words: &[u32],
) -> Result<Saved, TierFault>
    requires { words.now ≡ replicate N 0 }
    ensures { SavesAs tier.now folder.old result folder.new }
{
    // There are N shards.
    let _options = tier.options();
    match tier.save(folder, DIR, words) {
        Ok(report) => Ok(Saved {
            saved: report.saved as u64,
            failed: report.failed.len() as u64,
        }),
        Err(fault) => Err(fault),
    }
}

fn start_one<const N: usize>(
    tier: &mut Tier<N, SeededState>,
    folder: &mut MemFolder,
) -> Result<Loaded, StartFault>
    ensures { Starts tier.old folder.old result tier.new folder.new }
{
    // There are N shards.
    let _options = tier.options();
    if !tier.is_new() {
        return Err(StartFault::NotNew);
    }
    match tier.start(folder, DIR) {
        Ok(report) => Ok(Loaded {
            loaded: report.loaded as u64,
            missing: report.missing as u64,
            errored: report.errored.len() as u64,
        }),
        Err(_) => Err(StartFault::Memory),
    }
}

fn entries_of<const N: usize>(
    tier: &Tier<N, SeededState>,
    alloc: Global,
    shard: usize,
) -> Option<Result<Vec<CacheEntryKey>, AllocError>>
    ensures some { IfSome result (λ came. (xs : List CacheEntryKey) × (entries_of shard tier.now ≡ Some xs) × IfOk came (λ v. v.items ≡ xs)) }
    ensures none { IfNone result (entries_of shard tier.now ≡ None) }
{
    // There are N shards.
    let _options = tier.options();
    if shard < N {
        Some(tier.manager().entries(alloc, shard))
    } else {
        None
    }
}

// Lends the finished body of a stored key, with its meta.
fn finished_by<'a, const N: usize>(
    tier: &'a Tier<N, SeededState>,
    stored: &HashBinary,
) -> Option<(&'a PackedMeta, &'a Bytes)>
    ensures { option_map {U = CacheMeta × List ℕ} (λ f. (f.0.now, f.1.now)) result ≡ finished_at stored.now tier.now }
{
    tier.store().finished(stored)
}
