//! Notes: what a history keeps of an outcome.
ghost use Rattle.std.specs.Prelude.{◌≡◌};
ghost use Rattle.tier_recorded.specs.Notes.{note_of, answer_note, bytes_note, done_note, fault_note};
ghost use Rattle.tier_single.specs.Hits.{answer_found};

use bytes::Bytes;
use cache_heads::NoCacheReason;
use cache_lock::LockStatus;
use cache_words::key::{HashBinary, hash_key};
use tier_model::event::{Answer, Done, LockGiven, TierFault};
use tier_single::FoundMeta;

/// An answer that isn't `Uncacheable`, with the length and digest of its bytes and the number of its evicted entries in their place.
#[derive(Clone, Copy, PartialEq, Eq, Debug)]
pub enum AnswerNote {
    Opened,
    Found {
        fresh: bool,
        complete: bool,
        lock: LockGiven,
    },
    Absent {
        lock: LockGiven,
    },
    Waited(Option<LockStatus>),
    Begun,
    Written,
    Bytes {
        length: usize,
        digest: HashBinary,
    },
    Pending,
    End,
    Dropped,
    Purged(bool),
    Finished {
        length: usize,
        evicted: usize,
    },
    Revalidated {
        evicted: usize,
    },
}

/// What was done before a refusal, with the number of the evicted entries in their place.
#[derive(Clone, Copy, PartialEq, Eq, Debug)]
pub struct DoneNote {
    pub stored: bool,
    pub admitted: bool,
    pub evicted: usize,
}

/// A fault, with the number of its evicted entries in their place.
#[derive(Clone, Copy, PartialEq, Eq, Debug)]
pub enum FaultNote {
    NoRequest,
    IdInUse,
    WrongPhase,
    Waiting,
    AfterEnd,
    BadHead,
    WriteRemoved,
    BeforeEpoch,
    Incomplete,
    NumbersSpent(DoneNote),
    TooHeavy(DoneNote),
    TooLong(DoneNote),
    Memory(DoneNote),
    Folder,
    NoRecord,
    NotStored,
}

/// What a history keeps of an outcome. It takes no memory, whatever the outcome holds.
#[derive(Clone, Copy, PartialEq, Eq, Debug)]
pub enum Note {
    Answered(AnswerNote),
    Uncacheable(NoCacheReason),
    Refused(FaultNote),
}

// The note of bytes that were read.
pub(crate) fn bytes_note(bytes: &Bytes) -> AnswerNote
    ensures { result ≡ bytes_note bytes.now }
{
    AnswerNote::Bytes {
        length: bytes.len(),
        digest: hash_key(bytes.as_slice()),
    }
}

fn answer_note(answer: &Answer) -> Note
    ensures { result ≡ answer_note answer.now }
{
    Note::Answered(match answer {
        Answer::Opened => AnswerNote::Opened,
        Answer::Found {
            fresh,
            complete,
            lock,
        } => AnswerNote::Found {
            fresh: *fresh,
            complete: *complete,
            lock: *lock,
        },
        Answer::Absent { lock } => AnswerNote::Absent { lock: *lock },
        Answer::Waited(ended) => AnswerNote::Waited(*ended),
        Answer::Begun => AnswerNote::Begun,
        Answer::Written => AnswerNote::Written,
        Answer::Bytes(bytes) => bytes_note(bytes),
        Answer::Pending => AnswerNote::Pending,
        Answer::End => AnswerNote::End,
        Answer::Dropped => AnswerNote::Dropped,
        Answer::Purged(was_there) => AnswerNote::Purged(*was_there),
        Answer::Finished { length, evicted } => AnswerNote::Finished {
            length: *length,
            evicted: evicted.as_slice().len(),
        },
        Answer::Revalidated { evicted: gone } => AnswerNote::Revalidated {
            evicted: gone.as_slice().len(),
        },
        Answer::Uncacheable(reason) => return Note::Uncacheable(*reason),
    })
}

fn done_note(done: &Done) -> DoneNote
    ensures { result ≡ done_note done.now }
{
    DoneNote {
        stored: done.stored,
        admitted: done.admitted,
        evicted: done.evicted.as_slice().len(),
    }
}

pub(crate) fn fault_note(fault: &TierFault) -> FaultNote
    ensures { result ≡ fault_note fault.now }
{
    match fault {
        TierFault::NoRequest => FaultNote::NoRequest,
        TierFault::IdInUse => FaultNote::IdInUse,
        TierFault::WrongPhase => FaultNote::WrongPhase,
        TierFault::Waiting => FaultNote::Waiting,
        TierFault::AfterEnd => FaultNote::AfterEnd,
        TierFault::BadHead => FaultNote::BadHead,
        TierFault::WriteRemoved => FaultNote::WriteRemoved,
        TierFault::BeforeEpoch => FaultNote::BeforeEpoch,
        TierFault::Incomplete => FaultNote::Incomplete,
        TierFault::NumbersSpent(done) => FaultNote::NumbersSpent(done_note(done)),
        TierFault::TooHeavy(done) => FaultNote::TooHeavy(done_note(done)),
        TierFault::TooLong(done) => FaultNote::TooLong(done_note(done)),
        TierFault::Memory(done) => FaultNote::Memory(done_note(done)),
        TierFault::Folder => FaultNote::Folder,
        TierFault::NoRecord => FaultNote::NoRecord,
        TierFault::NotStored => FaultNote::NotStored,
    }
}

/// Returns the note of an outcome.
pub fn noted(outcome: &Result<Answer, TierFault>) -> Note
    ensures { result ≡ note_of outcome.now }
{
    match outcome {
        Ok(answer) => answer_note(answer),
        Err(fault) => Note::Refused(fault_note(fault)),
    }
}

// The note of a find's outcome.
pub(crate) fn noted_find(found: &Result<(Answer, Option<FoundMeta>), TierFault>) -> Note
    ensures { result ≡ note_of (answer_found found.now) }
{
    match found {
        Ok((answer, _)) => answer_note(answer),
        Err(fault) => Note::Refused(fault_note(fault)),
    }
}
