// The reports of a save and a load, and what can fail in them.

/// The call on a file of a shard that failed.
#[derive(Clone, Copy, Debug, PartialEq, Eq)]
pub enum ShardFileError {
    Create,
    Write,
    Flush,
    Rename,
    Open,
    Read,
    ReadDir,
    ReadDirEntry,
    Remove,
}

/// Why a save ended before any shard was written.
#[derive(Clone, Copy, Debug, PartialEq, Eq)]
pub enum ShardSaveSetupError {
    /// The folder could not be made.
    CreateDir,
    /// There was no memory for the report.
    Memory,
}

/// Why one shard was not saved.
#[derive(Debug, PartialEq, Eq, Drop)]
pub enum ShardSaveFailure<E> {
    /// The caller's `serialize` failed.
    Serialize(E),
    /// A call on one of the shard's files failed.
    Io(ShardFileError),
    /// There was no memory for the names of the shard's files.
    Memory,
}

/// How many shards were saved, and the others by number, in order.
#[derive(Debug, PartialEq, Eq, Drop)]
pub struct ShardSaveReport<E> {
    pub saved: usize,
    pub failed: Vec<(usize, ShardSaveFailure<E>)>,
}

/// Why a save failed as a whole.
#[derive(Debug, PartialEq, Eq, Drop)]
pub enum ShardSaveError<E> {
    /// No shard was tried.
    Setup(ShardSaveSetupError),
    /// Each shard failed: by number, in order.
    AllShardsFailed(Vec<(usize, ShardSaveFailure<E>)>),
}

/// Why one shard was not loaded.
#[derive(Debug, PartialEq, Eq, Drop)]
pub enum ShardLoadFailure<E> {
    /// A call on the shard's file failed.
    Io(ShardFileError),
    /// The caller's `deserialize` failed.
    Deserialize(E),
    /// There was no memory for the name of the shard's file.
    Memory,
}

/// How many temporary files of earlier saves were removed, and what failed in that.
#[derive(Debug, PartialEq, Eq, Drop)]
pub struct TempFileCleanupReport {
    pub removed: usize,
    pub failed: Vec<ShardFileError>,
}

/// How many shards were loaded, how many had no file, the others by number, in order, and the removal of temporary files before.
#[derive(Debug, PartialEq, Eq, Drop)]
pub struct ShardLoadReport<E> {
    pub loaded: usize,
    pub missing: usize,
    pub errored: Vec<(usize, ShardLoadFailure<E>)>,
    pub cleanup: TempFileCleanupReport,
}
