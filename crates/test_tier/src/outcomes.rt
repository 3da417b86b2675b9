//! What comes of events, as plain values.
use tier_model::event::{Answer, Done, LockGiven, TierFault};

// What came of an event, as a plain value.
#[derive(Clone, Copy, PartialEq, Eq)]
pub(crate) enum Outcome {
    Opened,
    // Fresh and complete.
    Found,
    // Stale and complete.
    Stale(LockGiven),
    // Fresh, of a write in flight.
    Partial,
    Absent(LockGiven),
    // A wait or a read has nothing yet.
    Pending,
    Begun,
    Written,
    // Whether the bytes are `xx`.
    Read(bool),
    // All is read.
    Ended,
    // A body of so many bytes, with so many evictions.
    Finished(usize, usize),
    Dropped,
    Purged(bool),
    // With so many evictions.
    Revalidated(usize),
    // Memory ran out before the event was made.
    Unasked,
    // Memory ran out before anything was done.
    Refused,
    // Memory ran out before the admission of a body, or before its first eviction or that of a revalidation, so that it was taken back.
    TakenBack,
    // Memory ran out after so many evictions for a body that was admitted, so that it was taken back.
    CutShort(usize),
    // Whether its body was stored, whether it was admitted, and how many evictions there were.
    TooHeavy(bool, bool, usize),
    NoRequest,
    WrongPhase,
    WriteRemoved,
    Else,
}

// What memory ran out after.
fn refused_after(done: &Done) -> Outcome {
    match (done.stored, done.admitted, done.evicted.as_slice().len()) {
        (true, _, 0) => Outcome::TakenBack,
        (true, true, evicted) => Outcome::CutShort(evicted),
        (false, false, 0) => Outcome::Refused,
        _ => Outcome::Else,
    }
}

pub(crate) fn outcome_of(answer: &Result<Answer, TierFault>) -> Outcome {
    match answer {
        Ok(Answer::Opened) => Outcome::Opened,
        Ok(
            Answer::Found {
                fresh: true,
                complete: true,
                lock: LockGiven::None,
            },
        ) => Outcome::Found,
        Ok(
            Answer::Found {
                fresh: true,
                complete: false,
                lock: LockGiven::None,
            },
        ) => Outcome::Partial,
        Ok(
            Answer::Found {
                fresh: false,
                complete: true,
                lock,
            },
        ) => Outcome::Stale(*lock),
        Ok(Answer::Absent { lock }) => Outcome::Absent(*lock),
        Ok(Answer::Waited(None) | Answer::Pending) => Outcome::Pending,
        Ok(Answer::Begun) => Outcome::Begun,
        Ok(Answer::Written) => Outcome::Written,
        Ok(Answer::Bytes(bytes)) => Outcome::Read(bytes.as_slice() == b"xx".as_slice()),
        Ok(Answer::End) => Outcome::Ended,
        Ok(Answer::Finished { length, evicted }) => {
            Outcome::Finished(*length, evicted.as_slice().len())
        }
        Ok(Answer::Dropped) => Outcome::Dropped,
        Ok(Answer::Revalidated { evicted }) => Outcome::Revalidated(evicted.as_slice().len()),
        Ok(Answer::Purged(was)) => Outcome::Purged(*was),
        Err(TierFault::Memory(done)) => refused_after(done),
        Err(TierFault::TooHeavy(done)) => {
            Outcome::TooHeavy(done.stored, done.admitted, done.evicted.as_slice().len())
        }
        Err(TierFault::NoRequest) => Outcome::NoRequest,
        Err(TierFault::WrongPhase) => Outcome::WrongPhase,
        Err(TierFault::WriteRemoved) => Outcome::WriteRemoved,
        _ => Outcome::Else,
    }
}

pub(crate) fn is_answer(outcome: Outcome) -> bool {
    !matches!(
        outcome,
        Outcome::Unasked
            | Outcome::Refused
            | Outcome::TakenBack
            | Outcome::CutShort(_)
            | Outcome::Else
    )
}
