//! Restarts: the files of the shards are handed over as bytes, and the caller writes them.
ghost use Rattle.std.specs.Prelude.{◌≡◌, OnOk, OnErr, IfOk, string_bytes, option_map};
ghost use Rattle.lru_files.specs.Folder.{IsPut, IsSame};
ghost use Rattle.lru_files.specs.MemFolder.{files_of};
ghost use Rattle.tier_calls.specs.Called.{IsFile, IsFileOut, IsHandFile, IsSave, IsStart};
ghost use Rattle.tier_calls.specs.Restarts.{file_path};

use super::TierHandle;
use crate::lends::{lent, nothing};
use crate::shards::{DIR, StartFault};
use crate::statuses;
use crate::structs::{CallAnswer, FileShown};
use crate::told::{fault_number, plain};
use lru_files::persistence::MemFolder;
use std::alloc::{AllocError, Global};

// The path of a shard's file.
fn path_of(alloc: Global, shard: u64) -> Result<String, AllocError>
    ensures { IfOk result (λ path. string_bytes path ≡ file_path shard) }
{
    format!(in alloc; "{DIR}/lru.data.{shard}")
}

impl TierHandle {
    /// Saves the order of use to the files of the shards.
    pub fn save(&mut self, out: &mut CallAnswer)
        ensures { IsSave self.old out.new self.new }
    {
        *out = self.save_all();
    }

    fn save_all(&mut self) -> CallAnswer
        ensures { IsSave self.old result self.new }
    {
        let mut folder = MemFolder::new(self.alloc);
        match self.tier.save(&mut folder) {
            Some(Ok(report)) => {
                self.folder = folder;
                CallAnswer {
                    number: report.saved,
                    second: report.failed,
                    ..plain(statuses::SAVED)
                }
            }
            Some(Err(fault)) => plain(fault_number(&fault)),
            None => plain(statuses::BAD_CALL),
        }
    }

    /// Starts a new tier from the files that were handed in.
    pub fn start(&mut self, out: &mut CallAnswer)
        ensures { IsStart self.old out.new self.new }
    {
        *out = match self.tier.start(&mut self.folder) {
            Some(Ok(report)) => CallAnswer {
                number: report.loaded,
                second: report.missing,
                third: report.errored,
                ..plain(statuses::STARTED)
            },
            Some(Err(StartFault::NotNew)) => plain(statuses::NOT_NEW),
            Some(Err(StartFault::Memory)) => plain(statuses::MEMORY),
            None => plain(statuses::BAD_CALL),
        };
    }

    /// Keeps the file of a shard.
    pub fn hand_file(&mut self, shard: u64, bytes: &[u8], out: &mut CallAnswer)
        ensures { IsHandFile self.old shard bytes.now out.new self.new }
    {
        *out = match self.keep_file(shard, bytes) {
            Ok(()) => plain(statuses::READY),
            Err(_) => plain(statuses::MEMORY),
        };
    }

    fn keep_file(&mut self, shard: u64, bytes: &[u8]) -> Result<(), AllocError>
        ensures ok { OnOk result (IsPut (files_of self.old.folder) (files_of self.new.folder) (file_path shard) bytes.now) }
        ensures err { OnErr result (IsSame (files_of self.old.folder) (files_of self.new.folder)) }
        ensures others { self.new ≡ record self.old { folder = self.new.folder } }
    {
        let path = path_of(self.alloc, shard)?;
        self.folder.put(path.as_str(), bytes)
    }

    /// Shows the file of a shard.
    pub fn file(&mut self, shard: u64, out: &mut FileShown)
        ensures { IsFile self.old shard out.new self.new }
    {
        *out = match path_of(self.alloc, shard) {
            Ok(path) => file_shown(self.folder.bytes(path.as_str())),
            Err(_) => no_file(statuses::MEMORY),
        };
    }
}

fn file_shown(file: Option<&[u8]>) -> FileShown
    ensures { IsFileOut (option_map (λ bytes. bytes.now) file.entry) result }
{
    match file {
        Some(bytes) => FileShown {
            status: statuses::SHOWN,
            bytes: lent(bytes),
        },
        None => no_file(statuses::NOTHING_SHOWN),
    }
}

fn no_file(status: u64) -> FileShown
    ensures { (result.status ≡ status) × (result.bytes.len ≡ 0) }
{
    FileShown {
        status,
        bytes: nothing(),
    }
}
