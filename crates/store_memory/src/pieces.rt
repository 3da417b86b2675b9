//! The bytes of a write, in the pieces in which they came.
ghost use Rattle.std.specs.Prelude.{◌≡◌, ◌++◌, ◌<◌, [], ℕ, length, drop, Some, IfOk, OnOk, OnErr};
ghost use Rattle.store_memory.specs.Hits.{ReadAnswer, FitsPast};
ghost use Rattle.store_memory.specs.Pieces.{bytes_of, EndAt, IsIn};

use bytes::{Bytes, BytesMut};
use cache_store::storage::{ReadStep, StoreFault};
use std::alloc::{AllocError, Global};
use std::marker::Model;

// A later piece that is shorter than this is copied into a block that it shares with others like it, so that it doesn't take a buffer of
// its own, nor keep a larger one that it was cut from.
const SMALL: usize = 64;

// How long such a block is. It is short, since most writes have few small pieces.
const BLOCK: usize = 256;

// A piece of a write, and how many bytes come up to its end.
#[derive(Drop)]
pub(crate) struct Piece {
    end: usize,
    bytes: Bytes,
}

// The bytes of a write, in the order in which they came. A contract sees them as one list.
#[derive(Drop)]
pub(crate) struct Pieces {
    items: Vec<Piece>,
    // Room for small pieces.
    block: BytesMut,
}

impl Model for Pieces {
    ghost use Rattle.std.specs.Prelude.{◌≡◌, ℕ, List, []};
    ghost use Rattle.store_memory.specs.Pieces.{bytes_of, EndAt};

    ghost Value = { List ℕ };

    ghost view = { λ p. bytes_of p.items.items };

    ghost invariant = { λ p. EndAt 0 p.items.items × (p.block.items ≡ []) };
}

impl Pieces {
    // Returns no pieces. It takes no memory.
    pub(crate) fn new(alloc: Global) -> Pieces
        ensures { result ≡ [] }
    {
        Pieces {
            items: Vec::new(alloc),
            block: BytesMut::new(alloc),
        }
    }

    // Returns how many bytes there are.
    pub(crate) fn len(&self) -> usize
        ensures { result ≡ length self.now }
    {
        match self.items.last() {
            Some(piece) => piece.end,
            None => 0,
        }
    }

    // Adds a piece at the end. One without bytes isn't kept.
    pub(crate) fn push(&mut self, alloc: Global, more: Bytes) -> Result<(), AllocError>
        ensures ok { OnOk result (self.new ≡ self.old ++ more) }
        ensures err { OnErr result (self.new ≡ self.old) }
    {
        let Some(end) = self.len().checked_add(more.len()) else {
            return Err(AllocError);
        };
        if more.is_empty() {
            return Ok(());
        }
        let is_first = self.items.is_empty();
        self.items.reserve(1)?;
        let bytes = kept(&mut self.block, alloc, more, is_first)?;
        self.items.push_reserved(Piece { end, bytes });
        Ok(())
    }

    // Does a step of reading from a place.
    pub(crate) fn read_from(
        &self,
        alloc: Global,
        place: usize,
        over: bool,
    ) -> Result<ReadStep, StoreFault>
        ensures answer { ReadAnswer (Some (self.now, over)) place result }
        ensures fits { FitsPast place result }
    {
        if place < self.len() {
            return match all_from(&self.items, alloc, place) {
                Ok(bytes) => Ok(ReadStep::Bytes(bytes)),
                Err(_) => Err(StoreFault::Memory),
            };
        }
        Ok(if over {
            ReadStep::End
        } else {
            ReadStep::Pending
        })
    }

    // Copies all bytes into a buffer that is no longer than they are. The pieces stay.
    pub(crate) fn join(&self, alloc: Global) -> Result<Bytes, AllocError>
        ensures { IfOk result (λ bytes. bytes ≡ self.now) }
    {
        joined(alloc, self.len(), &[], &self.items)
    }
}

// Returns a piece as it is kept: the first as it came, and a later one, if it is small, in a block.
fn kept(
    block: &mut BytesMut,
    alloc: Global,
    more: Bytes,
    is_first: bool,
) -> Result<Bytes, AllocError>
    requires { block.old.items ≡ [] }
    ensures value { IfOk result (λ bytes. bytes ≡ more) }
    ensures empty { block.new.items ≡ [] }
{
    if is_first || more.len() >= SMALL {
        return Ok(more);
    }
    in_block(block, alloc, more.as_slice())
}

// Copies bytes into a block, which is begun anew where its room is short.
fn in_block(block: &mut BytesMut, alloc: Global, more: &[u8]) -> Result<Bytes, AllocError>
    requires { block.old.items ≡ [] }
    ensures value { IfOk result (λ bytes. bytes ≡ more.now) }
    ensures empty { block.new.items ≡ [] }
{
    let len = more.len();
    if block.capacity() < len {
        *block = BytesMut::with_capacity(alloc, BLOCK.max(len))?;
    }
    block.extend_reserved(more);
    let front = block.freeze_to(len);
    if front.is_err() {
        block.clear();
    }
    front
}

// Returns the bytes from a place on: shared where they are in one piece, and else copied into one buffer.
fn all_from(pieces: &[Piece], alloc: Global, place: usize) -> Result<Bytes, AllocError>
    requires ends { EndAt 0 pieces.now }
    requires within { place < length (bytes_of pieces.now) }
    ensures { IfOk result (λ bytes. bytes ≡ drop place (bytes_of pieces.now)) }
{
    let i = index_at(pieces, place);
    let piece = &pieces[i];
    let left = piece.end - place;
    let from = piece.bytes.len() - left;
    if i + 1 == pieces.len() {
        return piece.bytes.slice(from..);
    }
    let more = pieces[pieces.len() - 1].end - place;
    joined(
        alloc,
        more,
        &piece.bytes.as_slice()[from..],
        &pieces[i + 1..],
    )
}

// Returns the index of the piece that a place is in, by halving.
fn index_at(pieces: &[Piece], place: usize) -> usize
    requires ends { EndAt 0 pieces.now }
    requires within { place < length (bytes_of pieces.now) }
    ensures { IsIn place result pieces.now }
{
    let mut low = 0;
    let mut high = pieces.len() - 1;
    while low < high {
        let middle = low + (high - low) / 2;
        if pieces[middle].end <= place {
            low = middle + 1;
        } else {
            high = middle;
        }
    }
    low
}

// Copies bytes, and all pieces after them, into a buffer with room for so many.
fn joined(alloc: Global, len: usize, first: &[u8], others: &[Piece]) -> Result<Bytes, AllocError>
    ensures { IfOk result (λ bytes. bytes ≡ first.now ++ bytes_of others.now) }
{
    let mut all = Vec::with_capacity(alloc, len)?;
    all.extend_from_slice(first)?;
    for piece in others {
        all.extend_from_slice(piece.bytes.as_slice())?;
    }
    Ok(Bytes::from_vec(all)?)
}
