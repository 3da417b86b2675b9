//! What a tier reports of faults, and of puts.
ghost use Rattle.std.specs.Prelude.{◌≡◌, IfErr};
ghost use Rattle.tier_single.specs.Puts.{done_as, answer_as, IsToldAs, IsTellable, IsToldOf};

use cache_heads::NoCacheReason;
use request_puts::put::{Done as PutDone, PutFault, PutOutcome};
use std::alloc::Global;
use tier_model::event::{Answer, Done, Entries, TierFault};
use tier_requests::faults::nothing_done;

// What came of a put that was not refused.
fn answer_as(outcome: PutOutcome) -> Result<Answer, TierFault>
    ensures { result ≡ answer_as outcome }
{
    match outcome {
        PutOutcome::Stored { size, evicted } => Ok(Answer::Finished {
            length: size,
            evicted: Entries::from_vec(evicted),
        }),
        PutOutcome::Uncacheable(NoCacheReason::StorageError) => Err(TierFault::BeforeEpoch),
        PutOutcome::Uncacheable(reason) => Ok(Answer::Uncacheable(reason)),
    }
}

// What a put did.
fn done_as(done: PutDone) -> Done
    ensures { result ≡ done_as done }
{
    Done {
        stored: done.stored,
        admitted: done.admitted,
        evicted: Entries::from_vec(done.evicted),
    }
}

// Why a put was refused.
fn told_as(alloc: Global, fault: PutFault) -> TierFault
    requires { IsTellable fault }
    ensures { IsToldAs fault result }
{
    match fault {
        PutFault::BadHead => TierFault::BadHead,
        PutFault::Incomplete => TierFault::Incomplete,
        PutFault::WriteNumbersSpent => TierFault::NumbersSpent(nothing_done(alloc)),
        PutFault::Weight(done) => TierFault::TooHeavy(done_as(done)),
        PutFault::Length(done) => TierFault::TooLong(done_as(done)),
        PutFault::NumbersSpent(done) => TierFault::NumbersSpent(done_as(done)),
        PutFault::Memory(done) => TierFault::Memory(done_as(done)),
        PutFault::ResponseTooLarge | PutFault::MetaMoment => unreachable!(),
    }
}

// What came of a put.
pub(super) fn told_of(
    alloc: Global,
    came: Result<PutOutcome, PutFault>,
) -> Result<Answer, TierFault>
    requires { IfErr came IsTellable }
    ensures { IsToldOf came result }
{
    match came {
        Ok(outcome) => answer_as(outcome),
        Err(fault) => Err(told_as(alloc, fault)),
    }
}
