//! Saving shards to files and loading them again.
pub use crate::fault::{
    ShardFileError, ShardLoadFailure, ShardLoadReport, ShardSaveError, ShardSaveFailure,
    ShardSaveReport, ShardSaveSetupError, TempFileCleanupReport,
};
pub use crate::folder::{Folder, FolderFault, ListFault};
pub use crate::host_folder::HostFolder;
pub use crate::load::load_shards;
pub use crate::mem_folder::MemFolder;
pub use crate::names::hex_word;
pub use crate::save::{replace, save_shards, save_shards_async};
pub use crate::test_folder::TestFolder;
