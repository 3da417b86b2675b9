//! What came of a put.

ghost use Rattle.std.specs.Prelude.{◌≡◌, Some};
ghost use Rattle.head_lines.specs.ErrorNames.{type_name};
ghost use Rattle.request_puts.specs.Texts.{fault_type_name, put_fault_text};

use super::INCOMPLETE_BODY;
use cache_evict::CacheEntryKey;
use cache_heads::{ErrorType, NoCacheReason};
use cache_store::max_file_size::ERR_RESPONSE_TOO_LARGE;
pub use request_store::Done;
use std::error::Error;
use std::fmt;

/// What came of a put that was not refused.
#[derive(Debug, Drop)]
pub enum PutOutcome {
    /// The body was stored. Where it weighs more than the limit its own entry is among the evicted, and it is gone again.
    Stored {
        /// The body's length in bytes.
        size: usize,
        /// The entries that were evicted, in order, perhaps this one too.
        evicted: Vec<CacheEntryKey>,
    },
    /// The response is whole and not kept.
    Uncacheable(NoCacheReason),
}

/// Why a put was refused.
#[derive(Debug, Drop)]
pub enum PutFault {
    /// The bytes are no head, or one that is out of bounds.
    BadHead,
    /// The body is larger than the greatest size that is kept.
    ResponseTooLarge,
    /// The response ends too early.
    Incomplete,
    /// A moment of the meta can't be written.
    MetaMoment,
    /// Each number of a write has been used.
    WriteNumbersSpent,
    /// The weight of the entry's shard can't be counted.
    Weight(Done),
    /// There is no room for one more entry.
    Length(Done),
    /// No number is left for the entry's hash.
    NumbersSpent(Done),
    /// There is no memory.
    Memory(Done),
}

impl PutFault {
    /// Returns the type of the error, as a server names it.
    pub fn etype(&self) -> ErrorType
        ensures { type_name result ≡ fault_type_name self.now }
    {
        match self {
            PutFault::BadHead => ErrorType::InvalidHTTPHeader,
            PutFault::ResponseTooLarge => ERR_RESPONSE_TOO_LARGE,
            PutFault::Incomplete => INCOMPLETE_BODY,
            _ => ErrorType::InternalError,
        }
    }
}

impl fmt::Display for PutFault {
    ghost output = { λ fault. Some (put_fault_text fault) };

    fn fmt<W: fmt::Write>(&self, f: &mut fmt::Formatter<W>) -> fmt::Result {
        f.write_str(match self {
            PutFault::BadHead => "the bytes are no head, or one out of bounds",
            PutFault::ResponseTooLarge => "response too large",
            PutFault::Incomplete => "the response ends too early",
            PutFault::MetaMoment => "a moment of the meta can't be written",
            PutFault::WriteNumbersSpent => "no number is left for a write",
            PutFault::Weight(_) => "the weight of the shard could not be counted",
            PutFault::Length(_) => "there is no room for one more entry",
            PutFault::NumbersSpent(_) => "no number is left for the entry's hash",
            PutFault::Memory(_) => "out of memory",
        })
    }
}

impl Error for PutFault {}
