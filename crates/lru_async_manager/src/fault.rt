//! Why there is no text of a shard, and why the rows of one aren't put.

ghost use Rattle.std.specs.Prelude.{◌≡◌, Some};
ghost use Rattle.lru_async_manager.specs.FaultTexts.{rows_fault_text, text_fault_text};

use cache_entries::entry::CacheEntryKey;
use cache_words::pack::PackFault;
use lru_async::TailFault;
use std::error::Error;
use std::fmt;

/// Why there is no text of a shard. Nothing has changed.
#[derive(Clone, Copy, Debug, PartialEq, Eq)]
pub enum TextFault {
    /// There is no memory for the question, the entries' clones or the text.
    Memory,
    /// The shard's actor has ended, which it doesn't before the shutdown.
    Closed,
    /// No form counts the entries, or the bytes of a tag.
    TooLong,
}

impl fmt::Display for TextFault {
    ghost output = { λ fault. Some (text_fault_text fault) };

    fn fmt<W: fmt::Write>(&self, f: &mut fmt::Formatter<W>) -> fmt::Result {
        f.write_str(match self {
            TextFault::Memory => "out of memory",
            TextFault::Closed => "the shard's actor has ended",
            TextFault::TooLong => "too many entries, or a tag that is too long",
        })
    }
}

impl Error for TextFault {}

/// Why the rows of a text of a shard weren't all put.
#[derive(Debug, Drop)]
pub enum RowsFault {
    /// The text can't be read, so none was put.
    Text(PackFault),
    /// There is no memory for one more entry. The rows before it stay.
    Memory,
    /// A row was refused. The rows before it stay.
    Put(TailFault<CacheEntryKey>),
}

impl fmt::Display for RowsFault {
    ghost output = { λ fault. Some (rows_fault_text fault) };

    fn fmt<W: fmt::Write>(&self, f: &mut fmt::Formatter<W>) -> fmt::Result {
        match self {
            RowsFault::Text(fault) => fmt::Display::fmt(fault, f),
            RowsFault::Memory => f.write_str("out of memory"),
            RowsFault::Put(fault) => fmt::Display::fmt(fault, f),
        }
    }
}

impl Error for RowsFault {}
