//! Entries and rows as MessagePack. Writers write the shortest form to a `Sink`; readers take every listed form from a
//! `Cursor`, borrow from its input and allocate nothing.
use crate::entry::CacheEntryId;
use cache_words::pack::BorrowedKey;
pub use reading::{take_entry, take_row};
pub use writing::{entry_hash, put_entry, put_row};

mod borrowed;
mod reading;
mod writing;

/// An entry whose tag is borrowed from the bytes that it was read from.
#[derive(Clone, Copy, Debug)]
pub struct BorrowedEntry<'a> {
    /// The key.
    pub key: BorrowedKey<'a>,
    /// The id, if there is one.
    pub id: Option<CacheEntryId>,
}

/// A row in the order of use whose tag is borrowed from the bytes that it was read from.
#[derive(Clone, Copy, Debug)]
pub struct BorrowedRow<'a> {
    /// The entry.
    pub entry: BorrowedEntry<'a>,
    /// What it weighs.
    pub weight: usize,
}
