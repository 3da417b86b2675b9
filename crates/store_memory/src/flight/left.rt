//! The bytes that readers are left with.
ghost use Rattle.std.specs.Prelude.{◌≡◌, Some, length, true};
ghost use Rattle.store_memory.specs.Hits.{ReadAnswer, FitsPast};
ghost use Rattle.store_memory.specs.Kept.{bytes_in};

use super::Buffer;
use bytes::Bytes;
use cache_store::storage::{ReadStep, StoreFault};
use std::alloc::Global;

impl Buffer {
    // Returns how many bytes there are.
    pub(crate) fn len(&self) -> usize
        ensures { result ≡ length (bytes_in self.now) }
    {
        match self {
            Buffer::InPieces(pieces) => pieces.len(),
            Buffer::Whole(bytes) => bytes.len(),
        }
    }

    // Does a step of reading from a place.
    pub(crate) fn read_from(&self, alloc: Global, place: usize) -> Result<ReadStep, StoreFault>
        ensures answer { ReadAnswer (Some (bytes_in self.now, true)) place result }
        ensures fits { FitsPast place result }
    {
        match self {
            Buffer::InPieces(pieces) => pieces.read_from(alloc, place, true),
            Buffer::Whole(bytes) => read_whole(bytes, place),
        }
    }
}

// Does a step of reading bytes that are in one piece.
fn read_whole(bytes: &Bytes, place: usize) -> Result<ReadStep, StoreFault>
    ensures answer { ReadAnswer (Some (bytes.now, true)) place result }
    ensures fits { FitsPast place result }
{
    if place >= bytes.len() {
        return Ok(ReadStep::End);
    }
    match bytes.slice(place..) {
        Ok(rest) => Ok(ReadStep::Bytes(rest)),
        Err(_) => Err(StoreFault::Memory),
    }
}
