//! A text with the parts of a table.
ghost use Rattle.std.specs.Prelude.{Some};
ghost use Rattle.rules_ffi_results.specs.Numbers.{blank};
ghost use Rattle.rules_ffi_results.specs.Sending.{sent_view, Answering};

use crate::marks::{NO_ROOM, blank};
use crate::parts::put_parts;
use rules_ffi_arguments::room::put;
use rules_ffi_arguments::shapes::{Out, PartShape};

/// What is sent: the text, what is told of it, and where the parts stand.
#[derive(Drop)]
pub struct Sent {
    /// The text.
    pub text: Vec<u8>,
    /// What is told of it.
    pub told: Out,
    /// Where the parts stand.
    pub parts: Vec<PartShape>,
}

/// Writes an answer's text and parts, if they fit.
pub fn placed(sent: &Sent, room: &mut [u8], parts: &mut [PartShape]) -> Out
    ensures { Answering blank (Some (sent_view sent.now)) room.old room.new parts.old parts.new result }
{
    let fits = sent.parts.len() <= parts.len();
    if fits && put(room, sent.text.as_slice()) {
        put_parts(parts, sent.parts.as_slice());
        sent.told
    } else {
        blank(NO_ROOM, sent.text.len() as u64)
    }
}
