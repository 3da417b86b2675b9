//! Reading a response's head.
ghost use Rattle.std.specs.Prelude.{◌≡◌, Some};
ghost use Rattle.rules_ffi_arguments.specs.Given.{Gives};
ghost use Rattle.rules_ffi_arguments.specs.Moments.{moment_in};
ghost use Rattle.rules_ffi.specs.Responses.{blank_response, sent_method, answered_in};
ghost use Rattle.rules_ffi.specs.Dated.{WritesDated};

use http1_message::response::{date_text, read_dated};
use rules_ffi_arguments::bad::Bad;
use rules_ffi_arguments::moments::moment_in;
use rules_ffi_arguments::options::{lists_in, options};
use rules_ffi_arguments::room::put;
use rules_ffi_arguments::shapes::{OptionNumbers, ResponseShape};
use rules_ffi_results::marks::{BAD_CALL, MEMORY, NO_ROOM};
use rules_quick::response::read_plain_response;
use rules_quick::told_response::told;
pub use rules_quick::told_response::unread;
use std::alloc::Global;

/// The method that was sent, as far as it counts for a response.
pub fn sent_method(head_sent: u64) -> &'static [u8]
    ensures { result.now ≡ sent_method head_sent }
{
    if head_sent == 0 { b"GET" } else { b"HEAD" }
}

/// Reads the head of a response.
pub fn read_response(
    alloc: Global,
    numbers: &OptionNumbers,
    words: &[u8],
    head_sent: u64,
    seconds: u64,
    nanoseconds: u64,
    bytes: &[u8],
    room: &mut [u8],
    out: &mut ResponseShape,
)
    ensures { WritesDated blank_response (moment_in seconds nanoseconds) (answered_in numbers.now words.now head_sent bytes.now) room.old room.new out.new }
{
    *out = match moment_in(seconds, nanoseconds) {
        Err(Bad::Memory) => unread(MEMORY, 0, 0),
        Err(Bad::Call) => unread(BAD_CALL, 0, 0),
        Ok(came) => placed(alloc, numbers, words, head_sent, bytes, came, room),
    };
}

fn placed(
    alloc: Global,
    numbers: &OptionNumbers,
    words: &[u8],
    head_sent: u64,
    bytes: &[u8],
    came: u64,
    room: &mut [u8],
) -> ResponseShape
    ensures { WritesDated blank_response (Some came) (answered_in numbers.now words.now head_sent bytes.now) room.old room.new result }
{
    match answered(alloc, numbers, words, head_sent, bytes, date_text(came)) {
        Err(Bad::Memory) => unread(MEMORY, 0, 0),
        Err(Bad::Call) => unread(BAD_CALL, 0, 0),
        Ok((text, shape)) => {
            if put(room, text.as_slice()) {
                shape
            } else {
                unread(NO_ROOM, text.len() as u64, 0)
            }
        }
    }
}

#[tactic(auto, unfolding(crate::specs::Responses::answered_in))]
fn answered(
    alloc: Global,
    numbers: &OptionNumbers,
    words: &[u8],
    head_sent: u64,
    bytes: &[u8],
    date: [u8; 29],
) -> Result<(Vec<u8>, ResponseShape), Bad>
    ensures { Gives (λ t. (t.0.items, t.1)) result (answered_in numbers.now words.now head_sent bytes.now date) }
{
    let lists = lists_in(alloc, words)?;
    let options = options(numbers, &lists)?;
    if head_sent == 0 {
        if let Some(told) = read_plain_response(alloc, bytes, date, &options)? {
            return Ok(told);
        }
    }
    let first = read_dated(alloc, bytes, sent_method(head_sent), date, &options)?;
    Ok(told(alloc, &first)?)
}
