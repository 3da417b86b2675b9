//! Rooms for the texts that the calls of the rules write.
ghost use Rattle.std.specs.Prelude.{◌≡◌, ◌≤◌, length, take, IfOk};
ghost use Rattle.gateway_rules.specs.Rooms.{seen, told_by};

use crate::Rules;
use rules_ffi_arguments::bad::Bad;
use rules_ffi_results::marks::{BAD_CALL, MEMORY, NO_ROOM};
use std::alloc::AllocError;

// The bytes that a text has beside what it is made of.
const USUAL: usize = 256;

impl Rules {
    // A room for a text that is made of so many bytes.
    pub(crate) fn room(&self, bytes: usize) -> Result<Vec<u8>, AllocError>
        ensures { IfOk result (λ v. bytes ≤ length v.items) }
    {
        vec![in self.alloc; 0u8; bytes.saturating_mul(2).saturating_add(USUAL)]
    }
}

/// Whether a call was done, by its status.
pub fn done(status: u64) -> Result<(), Bad>
    ensures { result ≡ told_by status tt }
{
    match status {
        MEMORY => Err(Bad::Memory),
        BAD_CALL | NO_ROOM => Err(Bad::Call),
        _ => Ok(()),
    }
}

/// The text of a call that was done: so many bytes at the front of its room.
pub fn text_in(mut room: Vec<u8>, status: u64, len: u64) -> Result<Vec<u8>, Bad>
    ensures { seen (λ v. v.items) result ≡ told_by status (take len room.items) }
{
    match status {
        MEMORY => Err(Bad::Memory),
        BAD_CALL | NO_ROOM => Err(Bad::Call),
        _ => {
            room.truncate(len as usize);
            Ok(room)
        }
    }
}
