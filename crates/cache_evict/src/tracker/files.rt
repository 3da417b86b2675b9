//! Shards in files.

ghost use Rattle.std.specs.Prelude.{◌≡◌, ◌<◌, IfOk, IfErr, length, codes, string_bytes};
ghost use Rattle.lru_files.specs.Folder.{StopsLeave, path_in};
ghost use Rattle.cache_evict.specs.FileLoads.{IsRowFault, LoadsFile, LoadsStored, TakesText};
ghost use Rattle.cache_evict.specs.Managed.{rows_at};
ghost use Rattle.cache_evict.specs.Saves.{AreOldOrWhole, IsUnwritten, Saves};
ghost use Rattle.cache_evict.specs.Stored.{Answers, IsText, Serializes, file_at, temp_at, single_temp, lru_stored, simple_stored};

use super::{Again, Tracker};
use crate::fault::EvictFault;
use crate::load_fault::LoadFault;
use cache_words::pack::PackWriteFault;
use lru_files::persistence::{
    Folder, ShardFileError, ShardLoadFailure, ShardLoadReport, ShardSaveError, ShardSaveReport,
    ShardSaveSetupError, TempFileCleanupReport, hex_word, load_shards, replace, save_shards,
};
use std::alloc::{AllocError, Global};
use std::hash::BuildHasher;

impl<const N: usize, S: BuildHasher> Tracker<N, S> {
    /// Saves each shard to a file of its own.
    pub fn save_shards<F: Folder>(
        &self,
        alloc: Global,
        folder: &mut F,
        dir: &str,
        words: &[u32],
    ) -> Result<ShardSaveReport<PackWriteFault>, EvictFault>
        requires { length words.now ≡ N }
        ensures saved { Saves F.did F.failures_of F.keeps F.files self.now N (file_at lru_stored dir.now) (temp_at lru_stored dir.now words.now) dir.now folder.old folder.new result }
        ensures stops { F.keeps → StopsLeave F.did F.opened F.files
            (AreOldOrWhole self.now N (file_at lru_stored dir.now) (temp_at lru_stored dir.now words.now) (F.files folder.old)) folder.old folder.new }
    {
        let _ = &self.numbers;
        let text = move |shard: usize| -> Result<Vec<u8>, PackWriteFault>
            requires { shard < N }
            ensures { Serializes (rows_at self.entry.now.shards shard) result }
        { self.text_of(alloc, shard) };
        let saved = save_shards(alloc, folder, dir, "lru.data", N, words, text);
        answered(alloc, saved)
    }

    /// Loads the file of each shard, in order. A row of a tracked entry is passed over.
    pub fn load_shards<F: Folder>(
        &mut self,
        alloc: Global,
        folder: &mut F,
        dir: &str,
    ) -> Result<ShardLoadReport<LoadFault>, EvictFault>
        ensures { LoadsStored F.did F.failures_of F.keeps F.files N lru_stored dir.now self.old self.new folder.old folder.new result }
    {
        let mut take = move |_shard: usize, bytes: Vec<u8>| -> Result<(), LoadFault>
            ensures { TakesText Again.PassedOver N self.entry.now bytes.items result self.exit.now }
        { self.load(alloc, bytes.as_slice(), Again::PassedOver) };
        match load_shards(alloc, folder, dir, "lru.data", N, &mut take) {
            Ok(report) => Ok(report),
            Err(_) => Err(EvictFault::Memory(Vec::new(alloc))),
        }
    }

    /// Saves the one shard to a file.
    pub fn save_file<F: Folder>(
        &self,
        alloc: Global,
        folder: &mut F,
        dir: &str,
        words: &[u32],
    ) -> Result<ShardSaveReport<PackWriteFault>, EvictFault>
        requires words { length words.now ≡ N }
        requires one { N ≡ 1 }
        ensures saved { Saves F.did F.failures_of F.keeps F.files self.now N (file_at simple_stored dir.now) (temp_at simple_stored dir.now words.now) dir.now folder.old folder.new result }
        ensures stops { F.keeps → StopsLeave F.did F.opened F.files
            (AreOldOrWhole self.now N (file_at simple_stored dir.now) (temp_at simple_stored dir.now words.now) (F.files folder.old)) folder.old folder.new }
    {
        let (temp, path, bytes) = self.to_write(alloc, dir, words[0])?;
        let Ok(()) = folder.make(dir) else {
            return Err(EvictFault::File(Vec::new(alloc)));
        };
        match replace(folder, temp.as_str(), path.as_str(), bytes.as_slice()) {
            Ok(()) => Ok(ShardSaveReport {
                saved: 1,
                failed: Vec::new(alloc),
            }),
            Err(_call) => Err(EvictFault::File(Vec::new(alloc))),
        }
    }

    // The temporary path and the path of the first shard's file, and its text.
    fn to_write(
        &self,
        alloc: Global,
        dir: &str,
        word: u32,
    ) -> Result<(String, String, Vec<u8>), EvictFault>
        requires { N ≡ 1 }
        ensures temp { IfOk result (λ r. string_bytes r.0 ≡ path_in dir.now (single_temp (codes "simple_lru.data") word)) }
        ensures path { IfOk result (λ r. string_bytes r.1 ≡ file_at simple_stored dir.now 0) }
        ensures text { IfOk result (λ r. IsText (rows_at self.now.shards 0) r.2.items) }
        ensures refused { IfErr result IsUnwritten }
    {
        let Ok(temp) = temp_path(alloc, dir, "simple_lru.data", word) else {
            return Err(EvictFault::Memory(Vec::new(alloc)));
        };
        let Ok(path) = file_path(alloc, dir) else {
            return Err(EvictFault::Memory(Vec::new(alloc)));
        };
        match self.text_of(alloc, 0) {
            Ok(bytes) => Ok((temp, path, bytes)),
            Err(_fault) => Err(EvictFault::File(Vec::new(alloc))),
        }
    }

    /// Loads the file of the one shard. A row of a tracked entry moves it to the front.
    pub fn load_file<F: Folder>(
        &mut self,
        alloc: Global,
        folder: &mut F,
        dir: &str,
    ) -> Result<ShardLoadReport<LoadFault>, EvictFault>
        ensures { LoadsStored F.did F.failures_of F.keeps F.files N simple_stored dir.now self.old self.new folder.old folder.new result }
    {
        let Ok(path) = file_path(alloc, dir) else {
            return Err(EvictFault::Memory(Vec::new(alloc)));
        };
        match self.take_file(alloc, folder, path.as_str()) {
            Ok(true) => Ok(ShardLoadReport {
                loaded: 1,
                missing: 0,
                errored: Vec::new(alloc),
                cleanup: TempFileCleanupReport {
                    removed: 0,
                    failed: Vec::new(alloc),
                },
            }),
            Ok(false) => Err(EvictFault::File(Vec::new(alloc))),
            Err(ShardLoadFailure::Deserialize(fault)) => Err(row_fault(alloc, fault)),
            Err(ShardLoadFailure::Io(_call)) => Err(EvictFault::File(Vec::new(alloc))),
            Err(ShardLoadFailure::Memory) => Err(EvictFault::Memory(Vec::new(alloc))),
        }
    }

    // Takes the rows of a file; false if there is none.
    fn take_file<F: Folder>(
        &mut self,
        alloc: Global,
        folder: &mut F,
        path: &str,
    ) -> Result<bool, ShardLoadFailure<LoadFault>>
        ensures { LoadsFile F.did F.failures_of F.keeps F.files N path.now self.old self.new folder.old folder.new result }
    {
        let Ok(found) = folder.open(path) else {
            return Err(ShardLoadFailure::Io(ShardFileError::Open));
        };
        if !found {
            return Ok(false);
        }
        let Ok(bytes) = folder.read() else {
            return Err(ShardLoadFailure::Io(ShardFileError::Read));
        };
        match self.load(alloc, bytes.as_slice(), Again::MovedFirst) {
            Ok(()) => Ok(true),
            Err(fault) => Err(ShardLoadFailure::Deserialize(fault)),
        }
    }
}

// The answer to a save that ended so.
fn answered(
    alloc: Global,
    saved: Result<ShardSaveReport<PackWriteFault>, ShardSaveError<PackWriteFault>>,
) -> Result<ShardSaveReport<PackWriteFault>, EvictFault>
    ensures { Answers saved result }
{
    match saved {
        Ok(report) => Ok(report),
        Err(ShardSaveError::Setup(ShardSaveSetupError::Memory)) => {
            Err(EvictFault::Memory(Vec::new(alloc)))
        }
        Err(ShardSaveError::Setup(ShardSaveSetupError::CreateDir)) => {
            Err(EvictFault::File(Vec::new(alloc)))
        }
        Err(ShardSaveError::AllShardsFailed(_failed)) => Err(EvictFault::File(Vec::new(alloc))),
    }
}

// The fault of a text that wasn't loaded.
fn row_fault(alloc: Global, fault: LoadFault) -> EvictFault
    ensures { IsRowFault fault result }
{
    match fault {
        LoadFault::Memory => EvictFault::Memory(Vec::new(alloc)),
        _ => EvictFault::File(Vec::new(alloc)),
    }
}

// The path of the file of one list.
fn file_path(alloc: Global, dir: &str) -> Result<String, AllocError>
    ensures { IfOk result (λ path. string_bytes path ≡ file_at simple_stored dir.now 0) }
{
    format!(in alloc; "{dir}/simple_lru.data")
}

// The path under which a list is written before it is renamed to that file.
fn temp_path(alloc: Global, dir: &str, file_name: &str, word: u32) -> Result<String, AllocError>
    ensures { IfOk result (λ path. string_bytes path ≡ path_in dir.now (single_temp file_name.now word)) }
{
    let word = hex_word(alloc, word)?;
    format!(in alloc; "{dir}/{file_name}.{word}.tmp")
}
