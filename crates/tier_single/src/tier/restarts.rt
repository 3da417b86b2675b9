//! Restarts: the order of use is saved to files, and another tier starts from them.
ghost use Rattle.std.specs.Prelude.{◌≡◌, ◌↔◌, [], length, IsTrue};
ghost use Rattle.lru_files.specs.Folder.{StopsLeave};
ghost use Rattle.cache_changes.specs.Changes.{StoredKey};
ghost use Rattle.cache_changes.specs.Writes.{IsFound};
ghost use Rattle.cache_evict.specs.Managed.{fresh};
ghost use Rattle.cache_evict.specs.Saves.{AreOldOrWhole};
ghost use Rattle.cache_evict.specs.Stored.{file_at, temp_at, lru_stored};
ghost use Rattle.tier_model.specs.Histories.{changes_of};
ghost use Rattle.tier_model.specs.Past.{HasPast};
ghost use Rattle.tier_model.specs.Started.{HasOnlyOrder, IsNew, opening_of, settings_of};
ghost use Rattle.tier_requests.specs.Shelves.{bodies_in};
ghost use Rattle.tier_single.specs.Restarts.{IsToldOfFiles, IsUnused, SavesOrder, LoadsOrder};

use super::Tier;
use crate::bodies::count;
use cache_evict::lru::Manager;
use cache_evict::{EvictFault, EvictionManager, LoadFault, PackWriteFault};
use lru_files::persistence::{Folder, ShardLoadReport, ShardSaveReport};
use std::alloc::Global;
use std::hash::BuildHasher;
use tier_model::event::TierFault;
use tier_requests::TierParts;
use tier_requests::faults::{fault_for, nothing_done};

impl<const N: usize, S: BuildHasher> Tier<N, S> {
    /// Returns whether the tier holds nothing and has counted nothing: nothing is stored or written, no entry is tracked, no request is
    /// open, and nothing was found, absent or evicted. So after `start` it tracks just what the files have. An event that was refused
    /// without `stored` leaves a tier new: a number that it used up doesn't count.
    pub fn is_new(&self) -> bool
        ensures { IsTrue result ↔ IsNew self.now }
    {
        if !self.has_only_order() {
            return false;
        }
        self.parts.manager.total_items() == 0
    }

    /// Returns whether the tier holds nothing but its order of use, and has counted nothing. A new tier does so, and one that was
    /// started from files and was given no event.
    pub fn has_only_order(&self) -> bool
        ensures { IsTrue result ↔ HasOnlyOrder self.now }
    {
        if !are_zero(self.found, self.absent) {
            return false;
        }
        self.requests.is_empty() && are_unused(&self.parts)
    }

    /// Saves the order of use, each shard to a file in `dir`, which is made first. The texts are written under temporary names,
    /// made distinct by the words, one word a shard (`manager().shards()` are asked for); a word is for one save alone. Wherever
    /// the save is stopped, each shard's file is as before or has the whole text. Those that failed are in the report.
    ///
    /// # Errors
    ///
    /// `Folder` where no shard was saved. `Memory` where there is no memory for the paths or the report, and then nothing was done.
    pub fn save<F: Folder>(
        &self,
        folder: &mut F,
        dir: &str,
        words: &[u32],
    ) -> Result<ShardSaveReport<PackWriteFault>, TierFault>
        requires words { length words.now ≡ N }
        ensures saved { SavesOrder F.did F.failures_of F.keeps F.files N dir.now self.now.managed words.now folder.old folder.new result }
        ensures stops { F.keeps → StopsLeave F.did F.opened F.files
            (AreOldOrWhole self.now.managed N (file_at lru_stored dir.now) (temp_at lru_stored dir.now words.now) (F.files folder.old)) folder.old folder.new }
    {
        let came = self.parts.manager.save(self.alloc, folder, dir, words);
        told_of_files(self.alloc, came)
    }

    /// Loads the order of use that was saved to `dir`, into a tier that is new: what it then tracks is what the files have. Nothing else
    /// is loaded: no key is found. What it does and answers from then on is that of a tier that began with these entries.
    ///
    /// # Errors
    ///
    /// `Memory` where there is no memory for the report: nothing was done.
    pub fn start<F: Folder>(
        &mut self,
        folder: &mut F,
        dir: &str,
    ) -> Result<ShardLoadReport<LoadFault>, TierFault>
        requires new { IsNew self.old }
        ensures loads { LoadsOrder F.did F.failures_of F.keeps F.files N dir.now (fresh N self.old.managed.limit self.old.managed.watermark) self.new.managed
            folder.old folder.new result }
        ensures others { self.new ≡ record self.old { managed = self.new.managed } }
        ensures settings { settings_of self.new ≡ settings_of self.old }
        ensures only_order { HasOnlyOrder self.new }
        ensures past { HasPast (opening_of self.new) self.new [] }
        ensures nothing { (k : StoredKey) → ¬ IsFound k (changes_of (opening_of self.new) []) }
    {
        let came = self.parts.manager.load(self.alloc, folder, dir);
        self.parts.manager.shards_are_within();
        told_of_files(self.alloc, came)
    }
}

// What the tier reports of what came of the files.
fn told_of_files<T>(alloc: Global, came: Result<T, EvictFault>) -> Result<T, TierFault>
    ensures { IsToldOfFiles came result }
{
    match came {
        Ok(report) => Ok(report),
        Err(fault) => Err(fault_for(fault, nothing_done(alloc))),
    }
}

// Whether nothing is stored, and no eviction was counted.
fn are_unused<const N: usize, S: BuildHasher>(parts: &TierParts<S, Manager<N, S>>) -> bool
    ensures { IsTrue result ↔ IsUnused (bodies_in parts.now.store.store.bodies) parts.now.manager }
{
    let bodies = count(&parts.store);
    let size = parts.manager.evicted_size() as u64;
    let items = parts.manager.evicted_items() as u64;
    if !are_zero(size, items) {
        return false;
    }
    bodies == 0
}

fn are_zero(a: u64, b: u64) -> bool
    ensures { IsTrue result ↔ ((a ≡ 0) × (b ≡ 0)) }
{
    a == 0 && b == 0
}
