//! Saves, loads and calls of any folder, with what they must return.
use lru_files::persistence::{
    Folder, ShardFileError, ShardLoadFailure, ShardLoadReport, ShardSaveError, ShardSaveFailure,
    ShardSaveSetupError, load_shards, replace, save_shards, save_shards_async,
};
use std::alloc::{AllocError, Global};

/// A text; none is a list that fails, or no file.
pub type Text = Option<&'static [u8]>;

/// What a save answers: how many were saved, how many failed, and the first of these with the call on its file; or what failed before.
#[derive(Clone, Copy, PartialEq, Eq)]
pub enum Answer {
    Setup(ShardSaveSetupError),
    AllFailed(usize, Option<(usize, ShardFileError)>),
    Report(usize, usize, Option<(usize, ShardFileError)>),
}

fn first_of(failed: &[(usize, ShardSaveFailure<AllocError>)]) -> Option<(usize, ShardFileError)> {
    match failed.first()? {
        (shard, ShardSaveFailure::Io(call)) => Some((*shard, *call)),
        _ => None,
    }
}

/// The two calls that save.
#[derive(Clone, Copy)]
pub enum Saver {
    Plain,
    Async,
}

/// Saves as many of the texts as there are words, each as a shard's list.
pub fn save<F: Folder>(
    alloc: Global,
    folder: &mut F,
    saver: Saver,
    dir: &str,
    words: &[u32],
    texts: &[Text],
) -> Answer {
    let list = |shard: usize| match texts.get(shard) {
        Some(Some(text)) => text.to_vec(alloc),
        _ => Err(AllocError),
    };
    let saved = match saver {
        Saver::Plain => save_shards(alloc, folder, dir, "lru.data", words.len(), words, list),
        Saver::Async => save_shards_async(alloc, folder, dir, "lru.data", words.len(), words, list),
    };
    match saved {
        Ok(report) => Answer::Report(
            report.saved,
            report.failed.len(),
            first_of(report.failed.as_slice()),
        ),
        Err(ShardSaveError::Setup(error)) => Answer::Setup(error),
        Err(ShardSaveError::AllShardsFailed(failed)) => {
            Answer::AllFailed(failed.len(), first_of(failed.as_slice()))
        }
    }
}

/// A shard that failed: the call on its file, or none where its list was refused.
pub type Failed = Option<(usize, Option<ShardFileError>)>;

/// What a load reports.
#[derive(Clone, Copy)]
pub struct Told {
    /// How many shards were loaded; each one's number and bytes, one after the other.
    pub loaded: usize,
    pub texts: &'static [u8],
    /// How many shards were missing, and which failed.
    pub missing: usize,
    pub failed: Failed,
    pub failed_next: Failed,
    /// How many temporary files were removed, and what failed in that.
    pub removed: usize,
    pub unremoved: Option<ShardFileError>,
}

fn failure(report: &ShardLoadReport<()>, i: usize) -> Failed {
    match report.errored.get(i)? {
        (shard, ShardLoadFailure::Io(call)) => Some((*shard, Some(*call))),
        (shard, ShardLoadFailure::Deserialize(())) => Some((*shard, None)),
        (_, ShardLoadFailure::Memory) => None,
    }
}

fn is_told(report: &ShardLoadReport<()>, told: Told) -> bool {
    report.loaded == told.loaded
        && report.missing == told.missing
        && failure(report, 0) == told.failed
        && failure(report, 1) == told.failed_next
        && report.cleanup.removed == told.removed
        && report.cleanup.failed.first().copied() == told.unremoved
}

/// Whether a load of so many shards, which refuses an empty list, reports this.
pub fn loads<F: Folder>(
    alloc: Global,
    folder: &mut F,
    dir: &str,
    shards: usize,
    told: Told,
) -> bool {
    let mut loaded = Vec::new(alloc);
    let report = load_shards(
        alloc,
        folder,
        dir,
        "lru.data",
        shards,
        &mut |shard: usize, bytes: Vec<u8>| -> Result<(), ()> {
            if bytes.is_empty()
                || loaded.push(b'0' + (shard % 10) as u8).is_err()
                || loaded.extend_from_slice(bytes.as_slice()).is_err()
            {
                return Err(());
            }
            Ok(())
        },
    );
    match report {
        Ok(report) => is_told(&report, told) && loaded.as_slice() == told.texts,
        Err(_) => false,
    }
}

/// A call of a folder, with what it must return.
#[derive(Clone, Copy)]
pub enum Call {
    Make(&'static str),
    Create(&'static str, bool),
    Write(&'static [u8], bool),
    Flush,
    Rename(&'static str, &'static str),
    Remove(&'static str),
    /// None is a fault.
    Open(&'static str, Option<bool>),
    List(&'static str, bool),
    /// The temporary path, the path, the bytes, and the call that fails.
    Replace(&'static str, &'static str, &'static [u8], Option<ShardFileError>),
    Failures(u64),
}

pub fn is_done<F: Folder>(folder: &mut F, call: Call) -> bool {
    match call {
        Call::Make(dir) => folder.make(dir).is_ok(),
        Call::Create(path, created) => folder.create(path).is_ok() == created,
        Call::Write(bytes, written) => folder.write(bytes).is_ok() == written,
        Call::Flush => folder.flush().is_ok(),
        Call::Rename(from, to) => folder.rename(from, to).is_ok(),
        Call::Remove(path) => folder.remove(path).is_ok(),
        Call::Open(path, found) => folder.open(path).ok() == found,
        Call::List(dir, listed) => folder.list(dir).is_ok() == listed,
        Call::Replace(temp, path, bytes, failed) => {
            temp != path && replace(folder, temp, path, bytes).err() == failed
        }
        Call::Failures(count) => folder.failures() == count,
    }
}
