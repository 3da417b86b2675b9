// Loading shards from their files.
ghost use Rattle.std.specs.Prelude.{◌≡◌, ◌≤◌, ◌<◌, ◌+◌, ℕ, [], IfOk, OnErr, map, filter, string_bytes, length, MatchResult, vec_capacity};
ghost use Rattle.lru_files.specs.Folder.{IsSame, path_in};
ghost use Rattle.lru_files.specs.Load.{AreRemovals, CleansUp, Loads, LoadsOne, LoadTells, Removes, ShardsStay, load_error};
ghost use Rattle.lru_files.specs.Names.{is_temp_name, shard_path};
ghost use Rattle.lru_files.specs.Told.{Tells};

use crate::fault::{ShardFileError, ShardLoadFailure, ShardLoadReport, TempFileCleanupReport};
use crate::folder::{Folder, ListFault};
use crate::names;
use std::alloc::{AllocError, Global};

/// Removes the names in `dir` that begin with `file_name` and end in `.tmp`, and hands the bytes of each shard's file `file_name.i` to
/// `deserialize`, in order.
///
/// A shard without a file is missing; one that fails doesn't stop the others. Where there is no memory for the report, nothing was done.
pub fn load_shards<F: Folder, E: Drop, D: FnMut(usize, Vec<u8>) -> Result<(), E>>(
    alloc: Global,
    folder: &mut F,
    dir: &str,
    file_name: &str,
    shards: usize,
    deserialize: &mut D,
) -> Result<ShardLoadReport<E>, AllocError>
    requires callable { (state : D) (shard : ℕ) (bytes : _) → shard < shards → D.pre state shard bytes }

    // Each shard's outcome, in order, and the states of `deserialize` between them.
    ensures loads { IfOk result (λ report. Loads F.keeps (λ shard. F.files folder.old (shard_path dir.now file_name.now shard))
        (λ before shard bytes r after. (given : _) × (given.items ≡ bytes) × D.step before shard given r after)
        shards report.loaded report.missing report.errored.items deserialize.old deserialize.new) }
    ensures counts { IfOk result (λ report. report.loaded + report.missing + length report.errored.items ≡ shards) }

    // The temporary files went; the shards' files stay.
    ensures cleaned { F.keeps → IfOk result (λ report. CleansUp dir.now file_name.now (F.files folder.old) (F.files folder.new) report.cleanup) }
    ensures stay { F.keeps → ShardsStay dir.now file_name.now (F.files folder.old) (F.files folder.new) }

    ensures refused { OnErr result ((deserialize.new ≡ deserialize.old) × (F.keeps → IsSame (F.files folder.old) (F.files folder.new))) }
    ensures told { LoadTells F.did F.failures_of folder.old folder.new result }
{
    let mut errored = Vec::with_capacity(alloc, shards)?;
    let cleanup = clean_up(alloc, folder, dir, file_name)?;
    let mut loaded = 0;
    let mut missing = 0;
    for shard in 0..shards {
        let found = match load_shard(alloc, folder, dir, file_name, shard, deserialize) {
            Ok(found) => found,
            Err(failure) => {
                errored.push_reserved((shard, failure));
                continue;
            }
        };
        if !found {
            missing += 1;
            continue;
        }
        loaded += 1;
    }
    Ok(ShardLoadReport {
        loaded,
        missing,
        errored,
        cleanup,
    })
}

// Loads one shard; false if it has no file.
fn load_shard<F: Folder, E, D: FnMut(usize, Vec<u8>) -> Result<(), E>>(
    alloc: Global,
    folder: &mut F,
    dir: &str,
    file_name: &str,
    shard: usize,
    deserialize: &mut D,
) -> Result<bool, ShardLoadFailure<E>>
    requires { (bytes : _) → D.pre deserialize.old shard bytes }
    ensures loaded { LoadsOne F.keeps (F.files folder.old (shard_path dir.now file_name.now shard))
        (λ bytes r after. (given : _) × (given.items ≡ bytes) × D.step deserialize.old shard given r after) deserialize.old deserialize.new result }
    ensures files { F.keeps → IsSame (F.files folder.old) (F.files folder.new) }
    ensures told { Tells F.did F.failures_of (load_error result) folder.old folder.new }
{
    let Ok(path) = names::shard_path(alloc, dir, file_name, shard) else {
        return Err(ShardLoadFailure::Memory);
    };
    let Ok(found) = folder.open(path.as_str()) else {
        return Err(ShardLoadFailure::Io(ShardFileError::Open));
    };
    if !found {
        return Ok(false);
    }
    let Ok(bytes) = folder.read() else {
        return Err(ShardLoadFailure::Io(ShardFileError::Read));
    };
    match deserialize(shard, bytes) {
        Ok(()) => Ok(true),
        Err(error) => Err(ShardLoadFailure::Deserialize(error)),
    }
}

// The paths of the temporary files among these names.
fn temp_paths(
    alloc: Global,
    dir: &str,
    file_name: &str,
    names: &[String],
) -> Result<Vec<String>, AllocError>
    ensures { IfOk result (λ paths. map string_bytes paths.items ≡ map (path_in dir.now) (filter (is_temp_name file_name.now) (map string_bytes names.now))) }
{
    let mut paths = Vec::new(alloc);
    for name in names {
        let bytes = name.as_str().as_bytes();
        if bytes.starts_with(file_name.as_bytes()) && bytes.ends_with(b".tmp") {
            let name = name.as_str();
            paths.push(format!(in alloc; "{dir}/{name}")?)?;
        }
    }
    Ok(paths)
}

// Removes the files at these paths, and takes a failure of each that isn't removed into the report, which has room.
fn remove_all<F: Folder>(
    folder: &mut F,
    paths: &[String],
    mut failed: Vec<ShardFileError>,
) -> TempFileCleanupReport
    requires none { failed.items ≡ [] }
    requires room { length paths.now ≤ vec_capacity failed }
    ensures removed { F.keeps → Removes (map string_bytes paths.now) result.removed (F.files folder.old) (F.files folder.new) }
    ensures all { result.removed + length result.failed.items ≡ length paths.now }
    ensures failed { AreRemovals result.failed.items }
    ensures told { Tells F.did F.failures_of result.failed.items folder.old folder.new }
{
    let mut removed = 0;
    for path in paths {
        let Ok(()) = folder.remove(path.as_str()) else {
            failed.push_reserved(ShardFileError::Remove);
            continue;
        };
        removed += 1;
    }
    TempFileCleanupReport { removed, failed }
}

// Removes the temporary files of earlier saves. Where memory is refused, nothing was removed.
fn clean_up<F: Folder>(
    alloc: Global,
    folder: &mut F,
    dir: &str,
    file_name: &str,
) -> Result<TempFileCleanupReport, AllocError>
    ensures cleaned { F.keeps → MatchResult result (λ report. CleansUp dir.now file_name.now (F.files folder.old) (F.files folder.new) report)
        (λ _. IsSame (F.files folder.old) (F.files folder.new)) }
    ensures told { MatchResult result (λ report. Tells F.did F.failures_of report.failed.items folder.old folder.new)
        (λ _. Tells F.did F.failures_of [] folder.old folder.new) }
{
    let mut failed = Vec::with_capacity(alloc, 1)?;
    let names = match folder.list(dir) {
        Ok(names) => names,
        Err(ListFault::Dir) => {
            failed.push_reserved(ShardFileError::ReadDir);
            return Ok(TempFileCleanupReport { removed: 0, failed });
        }
        Err(ListFault::Entry) => {
            failed.push_reserved(ShardFileError::ReadDirEntry);
            return Ok(TempFileCleanupReport { removed: 0, failed });
        }
    };
    let paths = temp_paths(alloc, dir, file_name, names.as_slice())?;
    failed.reserve(paths.len())?;
    Ok(remove_all(folder, paths.as_slice(), failed))
}
