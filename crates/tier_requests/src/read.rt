//! Reads of a request.
ghost use Rattle.std.specs.Prelude.{◌≡◌, Some, []};
ghost use Rattle.tier_model.specs.Checks.{has_reader};
ghost use Rattle.tier_requests.specs.Shelves.{shelf_of};
ghost use Rattle.tier_requests.specs.Rows.{ReadAnswer};
ghost use Rattle.tier_requests.specs.Steps.{answer_for, read_whole, read_without};

use crate::faults::out_of_memory;
use crate::request::{Request, TierParts};
use bytes::Bytes;
use cache_store::storage::{ReadStep, StoreFault};
use std::alloc::Global;
use std::hash::BuildHasher;
use store_memory::handlers::MemHitHandler;
use tier_model::event::{Answer, TierFault};

// Reads all of a body, if it wasn't read yet: no bytes are left of it.
fn read_whole(unread: &mut Option<Bytes>) -> Answer
    ensures answer { result ≡ read_whole unread.old }
    ensures left { unread.new ≡ Some [] }
{
    match unread.replace(Bytes::new()) {
        Some(bytes) => Answer::Bytes(bytes),
        None => Answer::End,
    }
}

// What is reported where no reader is left.
fn read_without(unread: &Option<Bytes>) -> Result<Answer, TierFault>
    ensures { result ≡ read_without unread.now }
{
    match unread {
        Some(_) => Ok(Answer::End),
        None => Err(TierFault::WrongPhase),
    }
}

// What a step of reading is answered.
fn answer_for(alloc: Global, step: Result<ReadStep, StoreFault>) -> Result<Answer, TierFault>
    ensures { result ≡ answer_for step }
{
    match step {
        Ok(ReadStep::Bytes(bytes)) => Ok(Answer::Bytes(bytes)),
        Ok(ReadStep::Pending) => Ok(Answer::Pending),
        Ok(ReadStep::End) => Ok(Answer::End),
        Err(_) => Err(out_of_memory(alloc)),
    }
}

impl<S: BuildHasher> Request<S> {
    /// Reads on in what the last look-up found, or in what the request writes. A body that was read is kept no longer.
    #[inline(always)]
    pub fn read<E>(&mut self, alloc: Global, parts: &TierParts<S, E>) -> Result<Answer, TierFault>
        ensures { ReadAnswer (has_reader self.old.reader) self.old (shelf_of parts.now.store) result self.new }
    {
        let Some(hit) = self.cache.take_reader() else {
            return read_without(&self.unread);
        };
        match hit {
            MemHitHandler::Complete(_read) => Ok(read_whole(&mut self.unread)),
            MemHitHandler::Partial(stream) => {
                let mut stream = stream;
                let step = stream.read(&parts.store);
                self.cache.put_reader(MemHitHandler::Partial(stream));
                answer_for(alloc, step)
            }
        }
    }
}
