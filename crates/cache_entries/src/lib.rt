//! Entries of a cache's order of use: a kept key, and the id of one stored body where there is one.
//!
//! An entry is owned (`CacheEntryKey`) or borrowed (`CacheEntryKeyRef`); both are equal, hashed and shown alike. `pack` writes and
//! reads an entry, and a row of the order of use, as the files keep it.
//!
//! Its contract is the law `rows_are_spelled`: rows are read without a fault exactly where the bytes begin with a spelling of them.
//! Managers of `cache_evict` track entries, and stores name the body that they purge by one.
#![tactic(auto)]

pub mod entry;
pub mod laws;
pub mod pack;
pub mod rows;
