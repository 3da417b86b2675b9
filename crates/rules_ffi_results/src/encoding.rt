//! What is sent round the data of a chunk.
ghost use Rattle.std.specs.Prelude.{◌≡◌, Some, IfOk};
ghost use Rattle.rules_ffi_results.specs.Numbers.{blank};
ghost use Rattle.rules_ffi_results.specs.Telling.{Writes};
ghost use Rattle.rules_ffi_results.specs.Encoded.{chunk_front, encoded};

use crate::marks::{DONE, MEMORY, NO_ROOM, NOWHERE, blank};
use rules_ffi_arguments::room::{add_text, put};
use rules_ffi_arguments::shapes::Out;
use std::alloc::{AllocError, Global};

/// What is sent round so many bytes of data: in `head` what goes in front of them, in `more` what goes behind; of 0 the last chunk, without trailers.
pub fn encode(alloc: Global, length: u64, room: &mut [u8], out: &mut Out)
    ensures { Writes blank (Some (encoded length)) room.old room.new out.new }
{
    *out = match encoded(alloc, length) {
        Err(_) => blank(MEMORY, 0),
        Ok((text, told)) => {
            if put(room, text.as_slice()) {
                told
            } else {
                blank(NO_ROOM, text.len() as u64)
            }
        }
    };
}

fn encoded(alloc: Global, length: u64) -> Result<(Vec<u8>, Out), AllocError>
    ensures { IfOk result (λ t. (t.0.items, t.1) ≡ encoded length) }
{
    let mut text = Vec::new(alloc);
    let front = chunk_front(alloc, length)?;
    let head = add_text(&mut text, front.as_slice())?;
    let mut told = Out {
        length,
        head,
        ..blank(DONE, 0)
    };
    told.more = if length == 0 {
        NOWHERE
    } else {
        add_text(&mut text, b"\r\n")?
    };
    Ok((text, told))
}

#[tactic(auto, unfolding(crate::specs::Encoded::chunk_front))]
fn chunk_front(alloc: Global, length: u64) -> Result<Vec<u8>, AllocError>
    ensures { IfOk result (λ t. t.items ≡ chunk_front length) }
{
    let size = format!(in alloc; "{length:x}")?;
    let mut text = Vec::from_slice(alloc, size.as_bytes())?;
    text.extend_from_slice(b"\r\n")?;
    if length == 0 {
        text.extend_from_slice(b"\r\n")?;
    }
    Ok(text)
}
