//! What steps answer.
use cache_heads::NoCacheReason;
use cache_store::storage::StoreFault;
use std::alloc::AllocError;
use std::fmt::Write;

/// What a step answers.
#[derive(Clone, Copy)]
pub enum Answer {
    Word(&'static str),
    Number(u64),
    /// A moment, in seconds.
    Second(i64),
    Letter(char),
    /// A body of that length was found.
    Body(usize),
    /// A body of that size was stored, with so many evictions.
    Created(usize, usize),
    /// So much was added to a body, with so many evictions.
    Appended(usize, usize),
    /// A stale response was renewed, with so many evictions.
    Renewed(usize),
    /// A policy decided so, when it had been asked so often.
    Decided(&'static str, u32),
    /// A wait was given up for a fill.
    Abandoned(&'static str, u64),
}

/// The call was done, and answers nothing.
pub const DONE: Answer = Answer::Word("done");

/// The call answers that there is none.
pub const NONE: Answer = Answer::Word("none");

/// The call isn't allowed, or there is none of that word.
pub const REFUSED: Answer = Answer::Word("refused");

/// There was no memory.
pub const NO_MEMORY: Answer = Answer::Word("memory");

impl Answer {
    /// Appends the answer's text.
    pub fn push_to(self, text: &mut String) -> Result<(), AllocError> {
        match self {
            Answer::Word(word) => text.push_str(word),
            Answer::Number(number) => write!(text, "{number}"),
            Answer::Second(second) => write!(text, "{second}"),
            Answer::Letter(letter) => text.push(letter),
            Answer::Body(length) => write!(text, "body {length}"),
            Answer::Created(size, evicted) => write!(text, "created {size} evicted {evicted}"),
            Answer::Appended(size, evicted) => write!(text, "appended {size} evicted {evicted}"),
            Answer::Renewed(evicted) => write!(text, "renewed evicted {evicted}"),
            Answer::Decided(word, observed) => write!(text, "{word} {observed}"),
            Answer::Abandoned(reason, token) => write!(text, "abandoned {reason} {token}"),
        }
    }
}

pub fn yes_or_no(flag: bool) -> Answer {
    Answer::Word(if flag { "yes" } else { "no" })
}

pub fn size_or_none(size: Option<usize>) -> Answer {
    match size {
        Some(size) => Answer::Number(size as u64),
        None => NONE,
    }
}

pub fn reason_or_none(reason: Option<NoCacheReason>) -> Answer {
    match reason {
        Some(reason) => Answer::Word(reason.as_str()),
        None => NONE,
    }
}

/// A variance of 16 equal bytes, by one of them.
pub fn variance_or_none(variance: Option<[u8; 16]>) -> Answer {
    match variance {
        Some(bytes) => Answer::Number(bytes[0] as u64),
        None => NONE,
    }
}

/// A fault of the store, by its name.
pub fn fault(fault: StoreFault) -> Answer {
    Answer::Word(match fault {
        StoreFault::Memory => "memory",
        StoreFault::WriteRemoved => "write-removed",
        StoreFault::AfterEnd => "after-end",
        StoreFault::SeekRange => "seek-range",
        StoreFault::NoMeta => "no-meta",
        StoreFault::WriteNumbersSpent => "numbers-spent",
        StoreFault::MetaMoment => "meta-moment",
    })
}

/// Done, but where the store refuses.
pub fn done_or_fault(made: Result<(), StoreFault>) -> Answer {
    match made {
        Ok(()) => DONE,
        Err(refusal) => fault(refusal),
    }
}
