//! An order of use that outlives a restart: each shard's list is saved to a file of its own, over any folder, and loaded again.
//!
//! A save writes a temporary file and renames it. `persistence` has the folder's trait, the host's folder, one in memory, and the reports.
//!
//! Its contract is that of `persistence::save_shards`: wherever the calls stop, within a write too, each shard's file is as it was or has its
//! whole new text.
//! The managers of `cache_evict` and `lru_async_manager` save by it. The original:
//! <https://docs.rs/pingora-lru/0.9.1/pingora_lru/persistence/>.
#![tactic(auto)]

mod fault;
mod folder;
mod host_folder;
mod load;
mod mem_folder;
mod names;
pub mod persistence;
mod save;
mod test_folder;
