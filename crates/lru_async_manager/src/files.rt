//! Entries in files.

ghost use Rattle.std.specs.Prelude.{◌≡◌, ◌<◌, None, Some, length, codes, IfErr, OnOk};
ghost use Rattle.lru_files.specs.Folder.{StopsLeave};
ghost use Rattle.lru_files.specs.Save.{AreOldOrNew};
ghost use Rattle.cache_entries.specs.RowText.{recency_at};
ghost use Rattle.lru_async_manager.specs.Files.{Answers, IsMemory, IsOfRow, IsRead, IsSomeText, LoadsTexts, SavesTexts};

use crate::fault::{RowsFault, TextFault};
use crate::manager::Manager;
use cache_entries::pack::take_row;
use cache_evict::EvictFault;
use cache_words::pack::{Cursor, PackFault};
use lru_files::persistence::{
    Folder, ShardLoadReport, ShardSaveError, ShardSaveReport, ShardSaveSetupError, load_shards,
    save_shards,
};
use std::alloc::Global;
use std::sync::Wait;

impl<const N: usize> Manager<N> {
    /// Saves the entries of each shard with their weights to its file `lru.data.i` in `dir`, which is made first. The texts are
    /// written under temporary names, made distinct by the words; a word is for one save alone. Wherever the save is stopped, each
    /// shard's file is as before or has the whole text of some moment of the save. Those that failed are in the report.
    ///
    /// # Errors
    ///
    /// `File` where no shard was saved, whatever each failed for. `Memory` where there is no memory for the report: no call of the
    /// folder was made.
    pub fn save<R: Wait, F: Folder>(
        &self,
        rt: &R,
        alloc: Global,
        folder: &mut F,
        dir: &str,
        words: &[u32],
    ) -> Result<ShardSaveReport<TextFault>, EvictFault>
        requires { length words.now ≡ N }
        ensures saved { SavesTexts F.did F.failures_of F.keeps F.files N dir.now words.now folder.old folder.new result }
        ensures stops { F.keeps → StopsLeave F.did F.opened F.files
            (AreOldOrNew dir.now (codes "lru.data") words.now (λ shard. IsSomeText) N (F.files folder.old)) folder.old folder.new }
        ensures uncalled { IsMemory result → folder.new ≡ folder.old }
    {
        let text = move |shard: usize| -> Result<Vec<u8>, TextFault>
            requires { shard < N }
            ensures { IsSomeText result }
        { self.serialize_shard(rt, alloc, shard) };
        let saved = save_shards(alloc, folder, dir, "lru.data", N, words, text);
        answered(alloc, saved)
    }

    /// Loads what was saved to `dir`: the rows of each text are put at the back, as `insert_tail` puts them. No row of a faulty text
    /// is put. Its shard counts as errored, as one does whose row was refused; the rows before that stay.
    ///
    /// # Errors
    ///
    /// `Memory` where there is no memory for the report: nothing was done.
    pub fn load<R: Wait, F: Folder>(
        &self,
        rt: &R,
        alloc: Global,
        folder: &mut F,
        dir: &str,
    ) -> Result<ShardLoadReport<RowsFault>, EvictFault>
        ensures { LoadsTexts F.did F.failures_of F.keeps F.files N dir.now folder.old folder.new result }
    {
        let mut put = move |_shard: usize, bytes: Vec<u8>| -> Result<(), RowsFault>
            ensures { IsRead bytes.items result }
        { self.put_text(rt, alloc, bytes.as_slice()) };
        match load_shards(alloc, folder, dir, "lru.data", N, &mut put) {
            Ok(report) => Ok(report),
            Err(_) => Err(EvictFault::Memory(Vec::new(alloc))),
        }
    }

    // Puts the rows of a text at the back, unless it is faulty.
    fn put_text<R: Wait>(&self, rt: &R, alloc: Global, bytes: &[u8]) -> Result<(), RowsFault>
        ensures { IsRead bytes.now result }
    {
        match check(bytes) {
            Ok(()) => self.put_rows(rt, alloc, bytes),
            Err(fault) => Err(RowsFault::Text(fault)),
        }
    }

    // Puts the rows of a text at the back, until one can't be put or read.
    fn put_rows<R: Wait>(&self, rt: &R, alloc: Global, bytes: &[u8]) -> Result<(), RowsFault>
        ensures { IfErr result IsOfRow }
    {
        let mut cursor = Cursor { rest: bytes };
        let Ok(count) = cursor.array() else {
            return Ok(());
        };
        for _ in 0..count {
            let Ok(row) = take_row(&mut cursor) else {
                return Ok(());
            };
            let Ok(item) = row.entry.to_entry(alloc) else {
                return Err(RowsFault::Memory);
            };
            match self.insert_tail(rt, item, row.weight) {
                Ok(_is_new) => {}
                Err(fault) => return Err(RowsFault::Put(fault)),
            }
        }
        Ok(())
    }
}

// The answer to a save that ended so.
fn answered(
    alloc: Global,
    saved: Result<ShardSaveReport<TextFault>, ShardSaveError<TextFault>>,
) -> Result<ShardSaveReport<TextFault>, EvictFault>
    ensures { Answers saved result }
{
    match saved {
        Ok(report) => Ok(report),
        Err(ShardSaveError::Setup(ShardSaveSetupError::Memory)) => {
            Err(EvictFault::Memory(Vec::new(alloc)))
        }
        Err(ShardSaveError::Setup(ShardSaveSetupError::CreateDir)) => {
            Err(EvictFault::File(Vec::new(alloc)))
        }
        Err(ShardSaveError::AllShardsFailed(_failed)) => Err(EvictFault::File(Vec::new(alloc))),
    }
}

// Reads a text to its end, or to its first fault.
fn check(bytes: &[u8]) -> Result<(), PackFault>
    ensures ok { OnOk result ((recency_at bytes.now).1 ≡ None) }
    ensures fault { IfErr result (λ fault. (recency_at bytes.now).1 ≡ Some fault) }
{
    let mut cursor = Cursor { rest: bytes };
    let count = match cursor.array() {
        Ok(count) => count,
        Err(fault) => return Err(fault),
    };
    'rows: for _ in 0..count {
        let _row = match take_row(&mut cursor) {
            Ok(row) => row,
            Err(fault) => return Err(fault),
        };
    }
    Ok(())
}
