//! Laws of managers. Each is the contract of a function with an empty body.

ghost use Rattle.std.specs.Prelude.{◌≡◌, ◌⊎◌, ◌<◌, ℕ, List, [], length, slice_set, Option, Ok};
ghost use Rattle.std.specs.List.{AllByRecursion};
ghost use Rattle.cache_entries.specs.Rows.{AreDistinct};
ghost use Rattle.cache_entries.specs.declared.rows.Tracked.{Tracked};
ghost use Rattle.cache_evict.specs.Loads.{appended, restored, all_put, SpellEach, LoadsInTurn};
ghost use Rattle.cache_evict.specs.FileLoads.{HasRows, LoadsStored, TakesShard};
ghost use Rattle.cache_evict.specs.Saves.{Saves};
ghost use Rattle.cache_evict.specs.Stored.{Stored, file_at, temp_at};
ghost use Rattle.cache_evict.specs.Stored.Stored.{Sharded, Single as OneFile};
ghost use Rattle.cache_evict.specs.Turns.{Turn, LeaveInTurn, IsOfOneSave};
ghost use Rattle.cache_evict.specs.declared.load_fault.LoadFault.{LoadFault};
ghost use Rattle.cache_words.specs.declared.pack.fault.PackWriteFault.{PackWriteFault};
ghost use Rattle.lru_files.specs.Folder.{Files, IsSame};
ghost use Rattle.lru_files.specs.declared.fault.ShardLoadReport.{ShardLoadReport};
ghost use Rattle.lru_files.specs.declared.fault.ShardSaveReport.{ShardSaveReport};
ghost use Rattle.lru_files.specs.Load as file;
ghost use Rattle.rand_core.specs.Stream.{Stream};
ghost use Rattle.cache_entries.specs.declared.entry.CacheEntryKey.{CacheEntryKey};
ghost use Rattle.cache_evict.specs.Managed.{Managed, IsSharded, fresh, rows_at, shard_of};
ghost use Rattle.cache_evict.specs.Runs.{ManagerCall, AreSized, Runs};

use crate::manager::EvictionManager;
use crate::{lru, simple_lru};
use lru_files::persistence::Folder;

type Shard = lru::Manager<1>;

type Single = simple_lru::Manager;

/// At one shard, from the same entries under the same limits, both managers evict the same entries at each call, and leave the
/// same, whatever is drawn. The calls are admissions, accesses and removals: the law says nothing of `increment_weight`.
pub fn both_evict_alike()
    ensures { (calls : List ManagerCall) (old new new' : Managed) (s rest s' rest' : Stream) (gone gone' : List (List CacheEntryKey)) → AreSized calls
        → Runs ⟦<Shard as EvictionManager>⟧.pick 1 ⟦<Shard as EvictionManager>⟧.weighed old s calls gone new rest
        → Runs ⟦<Single as EvictionManager>⟧.pick 1 ⟦<Single as EvictionManager>⟧.weighed old s' calls gone' new' rest'
        → (gone ≡ gone') × (new ≡ new') }
{}

/// Rows of one shard, none of an entry twice, are the shard's rows again once they are put into it in turn while it is empty. So
/// what is read is what was written.
pub fn written_rows_are_read()
    ensures appended { (n s : ℕ) (m : Managed) → s < length m.shards → (rows : List Tracked) → rows_at m.shards s ≡ [] → AreDistinct rows → AllByRecursion (λ r. shard_of n r.entry ≡ s) rows
        → all_put (appended n) rows m ≡ record m { shards = slice_set m.shards s rows } }
    ensures restored { (n s : ℕ) (m : Managed) → s < length m.shards → (rows : List Tracked) → rows_at m.shards s ≡ [] → AreDistinct rows → AllByRecursion (λ r. shard_of n r.entry ≡ s) rows
        → all_put (restored n) rows m ≡ record m { shards = slice_set m.shards s rows } }
{}

/// The texts of all shards, loaded in turn into as many fresh shards, give the same shards, whatever the limits are.
pub fn saved_shards_are_loaded()
    ensures { (n limit : ℕ) (watermark : Option ℕ) (m new : Managed) (texts : List (List ℕ)) → IsSharded n m → SpellEach m.shards texts
        → LoadsInTurn n texts (fresh n limit watermark) new → new.shards ≡ m.shards }
{}

/// Files of the rows of shards, each file by itself, loaded in turn into as many fresh shards, give the same shards, whatever the
/// limits are; a shard without rows may have no file.
pub fn saved_files_are_loaded<F: Folder>()
    ensures { (files : ℕ → Option (List ℕ)) (n limit : ℕ) (watermark : Option ℕ) (m new : Managed) (loaded absent : ℕ) → F.keeps → IsSharded n m
        → ((i : ℕ) → i < n → HasRows (rows_at m.shards i) (files i))
        → file.Loads F.keeps files (TakesShard n) n loaded absent [] (fresh n limit watermark) new → new.shards ≡ m.shards }
{}

/// After any number of saves, stopped or not, and of loads between them, each shard's file is as before the first, or has the
/// whole text that one of the saves had for that shard.
pub fn each_file_is_of_one_save()
    ensures { (n : ℕ) (at : ℕ → List ℕ) (turns : List Turn) (old new : Files) → LeaveInTurn n at turns old new
        → (i : ℕ) → i < n → (new (at i) ≡ old (at i)) ⊎ IsOfOneSave n at turns i new }
{}

/// What was saved, no shard failing, and is then loaded from the same files, none faulty, is the same shards again, whatever
/// the limits are; with each shard in a file of its own, and with one list in one file.
pub fn what_was_saved_is_loaded<F: Folder>()
    ensures shards { (name dir words : List ℕ) (n limit : ℕ) (watermark : Option ℕ) (m new : Managed) (old saved start end : F)
        (report : ShardSaveReport PackWriteFault) (loads : ShardLoadReport LoadFault) → F.keeps → IsSharded n m
        → Saves F.did F.failures_of F.keeps F.files m n (file_at (Sharded name) dir) (temp_at (Sharded name) dir words) dir old saved (Ok report) → report.failed.items ≡ []
        → IsSame (F.files saved) (F.files start)
        → LoadsStored F.did F.failures_of F.keeps F.files n (Sharded name) dir (fresh n limit watermark) new start end (Ok loads) → loads.errored.items ≡ []
        → new.shards ≡ m.shards }
    ensures one { (name dir words : List ℕ) (limit : ℕ) (watermark : Option ℕ) (m new : Managed) (old saved start end : F)
        (report : ShardSaveReport PackWriteFault) (loads : ShardLoadReport LoadFault) → F.keeps → IsSharded 1 m
        → Saves F.did F.failures_of F.keeps F.files m 1 (file_at (OneFile name) dir) (temp_at (OneFile name) dir words) dir old saved (Ok report)
        → IsSame (F.files saved) (F.files start)
        → LoadsStored F.did F.failures_of F.keeps F.files 1 (OneFile name) dir (fresh 1 limit watermark) new start end (Ok loads)
        → new.shards ≡ m.shards }
{}
