//! Bytes of a request's write.
ghost use Rattle.std.specs.Prelude.{◌≡◌, option_map, option_and_then};
ghost use Rattle.tier_model.specs.Shelf.{flying_at};
ghost use Rattle.tier_model.specs.Sizes.{flight_size};
ghost use Rattle.tier_requests.specs.Shelves.{shelf_of};
ghost use Rattle.tier_requests.specs.Rows.{PieceAnswer};
ghost use Rattle.tier_requests.specs.Steps.{WriteStep, told_of_piece};

use crate::faults::out_of_memory;
use crate::request::{Request, TierParts};
use bytes::Bytes;
use cache_store::storage::{HandleMiss, StoreFault};
use std::alloc::Global;
use std::hash::BuildHasher;
use store_memory::MemCache;
use store_memory::handlers::MemMissHandler;
use tier_model::event::{Answer, TierFault};

// Adds a share of the bytes to a write. Where there is no memory for the share, it is asked still whether the write has ended.
fn write_piece<S: BuildHasher>(
    writer: &mut MemMissHandler,
    store: &mut MemCache<S>,
    bytes: &Bytes,
    end: bool,
) -> Result<(), StoreFault>
    ensures step { WriteStep (option_map (λ f. f.ended) (flying_at writer.old (shelf_of store.old).flying)) bytes.now end writer.old (shelf_of store.old) result (shelf_of store.new) }
    ensures writer { writer.new ≡ writer.old }
{
    match bytes.clone() {
        Ok(share) => writer.write_body(store, share, end),
        Err(_) => match writer.write_body(store, Bytes::new(), false) {
            Ok(()) => Err(StoreFault::Memory),
            Err(fault) => Err(fault),
        },
    }
}

// What is reported of bytes that were written or not.
fn told_of_piece(alloc: Global, outcome: Result<(), StoreFault>) -> Result<Answer, TierFault>
    ensures { result ≡ told_of_piece outcome }
{
    match outcome {
        Ok(()) => Ok(Answer::Written),
        Err(StoreFault::AfterEnd) => Err(TierFault::AfterEnd),
        Err(_) => Err(out_of_memory(alloc)),
    }
}

impl<S: BuildHasher> Request<S> {
    /// Returns how many bytes the body of the request's write has so far, with those that it has outside, if it has one in flight. No memory is
    /// taken.
    pub fn write_size<E>(&self, parts: &TierParts<S, E>) -> Option<u128>
        ensures { result ≡ option_and_then (flight_size (shelf_of parts.now.store)) self.now.write }
    {
        match self.cache.writer() {
            Some(writer) => parts.store.write_size(writer.number()),
            None => None,
        }
    }

    /// Adds bytes to the request's write.
    pub fn piece<E>(
        &mut self,
        alloc: Global,
        parts: &mut TierParts<S, E>,
        bytes: &Bytes,
        end: bool,
    ) -> Result<Answer, TierFault>
        ensures answer { PieceAnswer self.old.write bytes.now end (shelf_of parts.old.store) result (shelf_of parts.new.store) }
        ensures request { self.new ≡ self.old }
        ensures parts { parts.new ≡ record parts.old { store = parts.new.store } }
    {
        let Some(writer) = self.cache.take_writer() else {
            return Err(TierFault::WrongPhase);
        };
        let mut writer = writer;
        let outcome = write_piece(&mut writer, &mut parts.store, bytes, end);
        self.cache.put_writer(writer);
        told_of_piece(alloc, outcome)
    }
}
