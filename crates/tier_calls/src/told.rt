//! What a call tells.
ghost use Rattle.std.specs.Prelude.{◌≡◌, length};
ghost use Rattle.tier_calls.specs.Tiers.{whole_in};
ghost use Rattle.tier_calls.specs.Told.{told_of, read_told, told_with, told_of_answer, told_of_fault, fault_number, permit_number, plain, told_done, evicted_in};

use crate::shards::Shards;
use crate::statuses;
use crate::structs::CallAnswer;
use std::alloc::Global;
use tier_model::event::{Answer, Done, Entries, LockGiven, TierFault};

/// What tells a status alone.
pub fn plain(status: u64) -> CallAnswer
    ensures { result ≡ plain status }
{
    CallAnswer {
        status,
        number: 0,
        evicted: 0,
        fresh: 0,
        complete: 0,
        permit: 0,
        stored: 0,
        admitted: 0,
        second: 0,
        third: 0,
        reserved: [0; 2],
    }
}

/// What tells a status and a number.
pub fn numbered(status: u64, number: u64) -> CallAnswer
    ensures { result ≡ record (plain status) { number = number } }
{
    CallAnswer {
        number,
        ..plain(status)
    }
}

/// What an outcome tells.
pub fn told_of(outcome: &Result<Answer, TierFault>) -> CallAnswer
    ensures { result ≡ told_of outcome.now }
{
    match outcome {
        Ok(answer) => told_of_answer(answer),
        Err(fault) => told_of_fault(fault),
    }
}

/// What the outcome of a read tells, of the tier after it: with the end, whether all of what was read came.
pub fn read_told(tier: &Shards, id: u64, outcome: &Result<Answer, TierFault>) -> CallAnswer
    ensures { result ≡ read_told (whole_in tier.now id) outcome.now }
{
    match outcome {
        Ok(answer) => told_with(tier, id, answer),
        Err(fault) => told_of_fault(fault),
    }
}

fn told_with(tier: &Shards, id: u64, answer: &Answer) -> CallAnswer
    ensures { result ≡ told_with (whole_in tier.now id) answer.now }
{
    match answer {
        Answer::End => CallAnswer {
            complete: u64::from(tier.is_whole(id).unwrap_or(false)),
            ..plain(statuses::END)
        },
        _ => told_of_answer(answer),
    }
}

/// The entries that an event evicted, also one that was refused.
pub fn evicted_in(alloc: Global, outcome: Result<Answer, TierFault>) -> Entries
    ensures { result ≡ evicted_in outcome }
{
    match outcome {
        Ok(Answer::Finished { length: _, evicted }) => evicted,
        Ok(Answer::Revalidated { evicted }) => evicted,
        Ok(_) => Entries::new(alloc),
        Err(
            TierFault::NumbersSpent(done)
            | TierFault::TooHeavy(done)
            | TierFault::TooLong(done)
            | TierFault::Memory(done),
        ) => evicted_before(done),
        Err(_) => Entries::new(alloc),
    }
}

// The entries that went before a refusal.
fn evicted_before(done: Done) -> Entries
    ensures { result ≡ done.evicted }
{
    let Done {
        stored: _,
        admitted: _,
        evicted,
    } = done;
    evicted
}

pub(crate) fn told_of_answer(answer: &Answer) -> CallAnswer
    ensures { result ≡ told_of_answer answer.now }
{
    match answer {
        Answer::Opened => plain(statuses::OPENED),
        Answer::Found {
            fresh,
            complete,
            lock,
        } => CallAnswer {
            fresh: u64::from(*fresh),
            complete: u64::from(*complete),
            permit: permit_number(*lock),
            ..plain(statuses::FOUND)
        },
        Answer::Absent { lock } => CallAnswer {
            permit: permit_number(*lock),
            ..plain(statuses::ABSENT)
        },
        Answer::Waited(None) => plain(statuses::WAITING),
        Answer::Waited(Some(status)) => numbered(statuses::WAITED, u64::from(u8::from(*status))),
        Answer::Begun => plain(statuses::BEGUN),
        Answer::Written => plain(statuses::WRITTEN),
        Answer::Bytes(bytes) => numbered(statuses::BYTES, bytes.len() as u64),
        Answer::Pending => plain(statuses::PENDING),
        Answer::End => plain(statuses::END),
        Answer::Dropped => plain(statuses::DROPPED),
        Answer::Purged(true) => plain(statuses::PURGED),
        Answer::Purged(false) => plain(statuses::NOTHING),
        Answer::Finished { length, evicted } => CallAnswer {
            evicted: evicted.as_slice().len() as u64,
            ..numbered(statuses::FINISHED, *length as u64)
        },
        Answer::Revalidated { evicted } => revalidated(evicted),
        Answer::Uncacheable(_) => numbered(statuses::UNCACHEABLE, statuses::OTHER_REASON),
    }
}

// What tells a revalidation, with the entries that went.
fn revalidated(gone: &Entries) -> CallAnswer
    ensures { result ≡ record (plain 50) { evicted = length gone.now } }
{
    CallAnswer {
        evicted: gone.as_slice().len() as u64,
        ..plain(statuses::REVALIDATED)
    }
}

pub(crate) fn told_of_fault(fault: &TierFault) -> CallAnswer
    ensures { result ≡ told_of_fault fault.now }
{
    let number = fault_number(fault);
    match fault {
        TierFault::NumbersSpent(done)
        | TierFault::TooHeavy(done)
        | TierFault::TooLong(done)
        | TierFault::Memory(done) => told_done(number, done),
        _ => plain(number),
    }
}

fn told_done(number: u64, done: &Done) -> CallAnswer
    ensures { result ≡ told_done number done.now }
{
    CallAnswer {
        stored: u64::from(done.stored),
        admitted: u64::from(done.admitted),
        evicted: done.evicted.as_slice().len() as u64,
        ..plain(number)
    }
}

/// A fault's number, as a trace's answers have it.
pub fn fault_number(fault: &TierFault) -> u64
    ensures { result ≡ fault_number fault.now }
{
    match fault {
        TierFault::NoRequest => 1,
        TierFault::IdInUse => 2,
        TierFault::WrongPhase => 3,
        TierFault::Waiting => 4,
        TierFault::AfterEnd => 5,
        TierFault::BadHead => 6,
        TierFault::WriteRemoved => 7,
        TierFault::BeforeEpoch => 8,
        TierFault::Incomplete => 9,
        TierFault::NumbersSpent(_) => 10,
        TierFault::TooHeavy(_) => 11,
        TierFault::TooLong(_) => 12,
        TierFault::Memory(_) => statuses::MEMORY,
        TierFault::Folder => statuses::FOLDER,
        TierFault::NoRecord => 15,
        TierFault::NotStored => 17,
    }
}

// What was got of the permit: nothing, the permit, a wait for another's.
fn permit_number(lock: LockGiven) -> u64
    ensures { result ≡ permit_number lock }
{
    match lock {
        LockGiven::None => 0,
        LockGiven::Write => 1,
        LockGiven::Read => 2,
    }
}
