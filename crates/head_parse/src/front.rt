//! What the front of some bytes is read as.
ghost use Rattle.std.specs.Prelude.{◌≡◌, ◌⊎◌, IfOk};
ghost use Rattle.httparse.specs.Grammar.{NeverHasResponse};
ghost use Rattle.head_parse.specs.Heads.{IsBegun, IsFrontOf};

use crate::head::{Head, HeadFault, read_plainly, waits_with_a_line_more};
use crate::lenient::read_leniently;
use std::alloc::{AllocError, Global};

// What the front of some bytes is.
#[derive(Drop)]
pub(crate) enum Front {
    // A head.
    Found(Head),
    // The beginning of a head.
    Begun,
    // No head, or one out of bounds.
    Refused,
}

// The front of bytes whose head has too many lines. The lenient options are asked only where no head is whole even with
// a line more: they may still wait for a folded value to go on.
fn front_too_long(alloc: Global, bytes: &[u8]) -> Result<Front, AllocError>
    ensures { IfOk result (λ front. (front ≡ Front.Refused) ⊎ ((front ≡ Front.Begun) × IsBegun bytes.now)) }
{
    if !waits_with_a_line_more(bytes) {
        return Ok(Front::Refused);
    }
    match read_leniently(alloc, bytes) {
        Ok(None) => Ok(Front::Begun),
        Err(HeadFault::Memory) => Err(AllocError),
        Ok(Some(_)) | Err(_) => Ok(Front::Refused),
    }
}

// The front of bytes that the parser's default options refuse.
fn front_leniently(alloc: Global, bytes: &[u8]) -> Result<Front, AllocError>
    requires { NeverHasResponse bytes.now }
    ensures { IfOk result (IsFrontOf bytes.now) }
{
    match read_leniently(alloc, bytes) {
        Ok(Some(head)) => Ok(Front::Found(head)),
        Ok(None) => Ok(Front::Begun),
        Err(HeadFault::Memory) => Err(AllocError),
        Err(_) => Ok(Front::Refused),
    }
}

// What the front of some bytes is.
pub(crate) fn read_front(alloc: Global, bytes: &[u8]) -> Result<Front, AllocError>
    ensures { IfOk result (IsFrontOf bytes.now) }
{
    match read_plainly(alloc, bytes) {
        Ok(Some(head)) => Ok(Front::Found(head)),
        Ok(None) => Ok(Front::Begun),
        Err(HeadFault::Memory) => Err(AllocError),
        Err(HeadFault::Bounds) => Ok(Front::Refused),
        Err(HeadFault::TooLong) => front_too_long(alloc, bytes),
        Err(HeadFault::Refused) => front_leniently(alloc, bytes),
    }
}
