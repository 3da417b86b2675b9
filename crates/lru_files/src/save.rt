// Saving shards, each to a file of its own, by way of a temporary file.
ghost use Rattle.std.specs.Prelude.{◌≡◌, ◌≢◌, ◌<◌, ℕ, length, slice_index};
ghost use Rattle.lru_files.specs.Folder.{StopsLeave};
ghost use Rattle.lru_files.specs.Names.{shard_path, temp_path};
ghost use Rattle.lru_files.specs.Save.{AreOldOrNew, IsOldOrNew, IsOneOldOrNew, LeftByWriting, OneLeft, SaveCounts, SaveLeft, SaveTells, error_in, file_error};
ghost use Rattle.lru_files.specs.Told.{Tells};

use crate::fault::{
    ShardFileError, ShardSaveError, ShardSaveFailure, ShardSaveReport, ShardSaveSetupError,
};
use crate::folder::Folder;
use crate::names;
use std::alloc::Global;

/// Puts these bytes at the path: they are written under another one and flushed, and then the file is renamed.
pub fn replace<F: Folder>(
    folder: &mut F,
    temp: &str,
    path: &str,
    bytes: &[u8],
) -> Result<(), ShardFileError>
    requires { temp.now ≢ path.now }
    ensures left { F.keeps → LeftByWriting (F.files folder.old) (F.files folder.new) temp.now path.now bytes.now result }
    ensures stops { F.keeps → StopsLeave F.did F.opened F.files (IsOldOrNew (F.files folder.old) temp.now path.now bytes.now) folder.old folder.new }
    ensures told { Tells F.did F.failures_of (error_in result) folder.old folder.new }
{
    let Ok(()) = folder.create(temp) else {
        return Err(ShardFileError::Create);
    };
    let Ok(()) = folder.write(bytes) else {
        return Err(ShardFileError::Write);
    };
    let Ok(()) = folder.flush() else {
        return Err(ShardFileError::Flush);
    };
    let Ok(()) = folder.rename(temp, path) else {
        return Err(ShardFileError::Rename);
    };
    Ok(())
}

/// Saves each shard to the file `file_name.i` in `dir`, which is made first: `serialize` gives its bytes, which are written under
/// `file_name.i.WORD.tmp`, where `WORD` is the shard's word in hex, and flushed; then the file is renamed.
///
/// A shard that fails doesn't stop the others; its temporary file stays.
pub fn save_shards<F: Folder, E: Drop, S: Fn(usize) -> Result<Vec<u8>, E>>(
    alloc: Global,
    folder: &mut F,
    dir: &str,
    file_name: &str,
    shards: usize,
    words: &[u32],
    serialize: S,
) -> Result<ShardSaveReport<E>, ShardSaveError<E>>
    requires words { length words.now ≡ shards }
    requires callable { (shard : ℕ) → shard < shards → S.pre serialize shard }

    // Each shard's file and temporary file are what its outcome says, and nothing else changed.
    ensures left { F.keeps → SaveLeft dir.now file_name.now words.now (λ shard r. S.post serialize shard r) shards (F.files folder.old) (F.files folder.new) result }

    // A save stopped anywhere leaves each shard's file as before or with all the bytes to be saved.
    ensures stops { F.keeps → StopsLeave F.did F.opened F.files
        (AreOldOrNew dir.now file_name.now words.now (λ shard r. S.post serialize shard r) shards (F.files folder.old)) folder.old folder.new }

    ensures counts { SaveCounts shards result }
    ensures told { SaveTells F.did F.failures_of dir.now folder.old folder.new result }
{
    let Ok(mut failed) = Vec::with_capacity(alloc, shards) else {
        return Err(ShardSaveError::Setup(ShardSaveSetupError::Memory));
    };
    let Ok(()) = folder.make(dir) else {
        return Err(ShardSaveError::Setup(ShardSaveSetupError::CreateDir));
    };
    let mut saved = 0;
    for shard in 0..shards {
        let word = words[shard];
        if let Err(failure) = save_shard(alloc, folder, dir, file_name, shard, word, &serialize) {
            failed.push_reserved((shard, failure));
            continue;
        }
        saved += 1;
    }
    if saved == 0 && shards > 0 {
        return Err(ShardSaveError::AllShardsFailed(failed));
    }
    Ok(ShardSaveReport { saved, failed })
}

/// Does what [`save_shards`] does: a call that waits for nothing needs no task of its own.
pub fn save_shards_async<F: Folder, E: Drop, S: Fn(usize) -> Result<Vec<u8>, E>>(
    alloc: Global,
    folder: &mut F,
    dir: &str,
    file_name: &str,
    shards: usize,
    words: &[u32],
    serialize: S,
) -> Result<ShardSaveReport<E>, ShardSaveError<E>>
    requires words { length words.now ≡ shards }
    requires callable { (shard : ℕ) → shard < shards → S.pre serialize shard }

    // As of `save_shards`.
    ensures left { F.keeps → SaveLeft dir.now file_name.now words.now (λ shard r. S.post serialize shard r) shards (F.files folder.old) (F.files folder.new) result }
    ensures stops { F.keeps → StopsLeave F.did F.opened F.files
        (AreOldOrNew dir.now file_name.now words.now (λ shard r. S.post serialize shard r) shards (F.files folder.old)) folder.old folder.new }
    ensures counts { SaveCounts shards result }
    ensures told { SaveTells F.did F.failures_of dir.now folder.old folder.new result }
{
    save_shards(alloc, folder, dir, file_name, shards, words, serialize)
}

// Saves one shard.
fn save_shard<F: Folder, E, S: Fn(usize) -> Result<Vec<u8>, E>>(
    alloc: Global,
    folder: &mut F,
    dir: &str,
    file_name: &str,
    shard: usize,
    word: u32,
    serialize: &S,
) -> Result<(), ShardSaveFailure<E>>
    requires { S.pre serialize.now shard }
    ensures left { F.keeps → OneLeft (λ r. S.post serialize.now shard r)
        (temp_path dir.now file_name.now shard word) (shard_path dir.now file_name.now shard) (F.files folder.old) (F.files folder.new) result }
    ensures stops { F.keeps → StopsLeave F.did F.opened F.files
        (IsOneOldOrNew (λ r. S.post serialize.now shard r) (temp_path dir.now file_name.now shard word) (shard_path dir.now file_name.now shard) (F.files folder.old)) folder.old folder.new }
    ensures told { Tells F.did F.failures_of (file_error result) folder.old folder.new }
{
    let Ok(temp) = names::temp_path(alloc, dir, file_name, shard, word) else {
        return Err(ShardSaveFailure::Memory);
    };
    let Ok(path) = names::shard_path(alloc, dir, file_name, shard) else {
        return Err(ShardSaveFailure::Memory);
    };
    let bytes = match serialize(shard) {
        Ok(bytes) => bytes,
        Err(e) => return Err(ShardSaveFailure::Serialize(e)),
    };
    match replace(folder, temp.as_str(), path.as_str(), bytes.as_slice()) {
        Ok(()) => Ok(()),
        Err(call) => Err(ShardSaveFailure::Io(call)),
    }
}
