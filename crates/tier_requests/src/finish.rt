//! How a request's write ends as a body.
ghost use Rattle.std.specs.Prelude.{◌≡◌};
ghost use Rattle.request_store.specs.Admissions.{cache_of};
ghost use Rattle.tier_requests.specs.Finishes.{done_as, told_as, told_of, FinishAnswer};

use crate::request::{Request, TierParts};
use cache_evict::EvictionManager;
use rand_core::Rng;
use request_cache::{FinishFault, Finished};
use request_store::Done as StoreDone;
use std::alloc::Global;
use std::hash::BuildHasher;
use tier_model::event::{Answer, Done, Entries, TierFault};

// What a finish did before it was refused.
pub(crate) fn done_as(done: StoreDone) -> Done
    ensures { result ≡ done_as done }
{
    Done {
        stored: done.stored,
        admitted: done.admitted,
        evicted: Entries::from_vec(done.evicted),
    }
}

// Why a finish was refused.
fn told_as(fault: FinishFault) -> TierFault
    ensures { result ≡ told_as fault }
{
    match fault {
        FinishFault::WriteRemoved => TierFault::WriteRemoved,
        FinishFault::Weight(done) => TierFault::TooHeavy(done_as(done)),
        FinishFault::Length(done) => TierFault::TooLong(done_as(done)),
        FinishFault::NumbersSpent(done) => TierFault::NumbersSpent(done_as(done)),
        FinishFault::Memory(done) => TierFault::Memory(done_as(done)),
    }
}

// What came of a finish.
fn told_of(came: Result<Option<Finished>, FinishFault>) -> Result<Answer, TierFault>
    ensures { result ≡ told_of came }
{
    match came {
        Ok(Some(finished)) => Ok(Answer::Finished {
            length: finished.length,
            evicted: Entries::from_vec(finished.evicted),
        }),
        Ok(None) => Err(TierFault::WrongPhase),
        Err(fault) => Err(told_as(fault)),
    }
}

impl<S: BuildHasher> Request<S> {
    /// Ends the request's write: its bytes are a body.
    pub fn finish<E: EvictionManager, R: Rng>(
        &mut self,
        alloc: Global,
        parts: &mut TierParts<S, E>,
        rng: &mut R,
    ) -> Result<Answer, TierFault>
        ensures answer { FinishAnswer E.shard_count E.weighed E.pick self.old.write self.old (cache_of parts.old.store (E.managed parts.old.manager) (R.stream rng.old))
            result self.new (cache_of parts.new.store (E.managed parts.new.manager) (R.stream rng.new)) }
        ensures lock { parts.new.lock ≡ parts.old.lock }
        ensures parts { parts.new ≡ record parts.old { store = parts.new.store; manager = parts.new.manager; lock = parts.new.lock } }
    {
        if !self.cache.phase().is_write_phase() {
            return Err(TierFault::WrongPhase);
        }
        told_of(self.cache.finish_miss_handler(alloc, parts, rng))
    }
}
