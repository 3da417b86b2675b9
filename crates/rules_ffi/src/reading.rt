//! Reading a request's head, and what is to be done with it.
ghost use Rattle.std.specs.Prelude.{◌≡◌};
ghost use Rattle.rules_ffi_arguments.specs.Given.{Gives};
ghost use Rattle.rules_ffi_results.specs.Telling.{Writes};
ghost use Rattle.rules_ffi.specs.Requests.{head_length, blank_request, asked_in};

use http1_message::request::read_request as hear;
use http1_message_parts::end::head_end as end_of_head;
use rules_ffi_arguments::bad::Bad;
use rules_ffi_arguments::options::{lists_in, options};
use rules_ffi_arguments::room::put;
use rules_ffi_arguments::shapes::{OptionNumbers, RequestShape};
use rules_ffi_results::marks::{BAD_CALL, MEMORY, NO_ROOM};
use rules_quick::plain::read_plain;
use rules_quick::told_request::told;
pub use rules_quick::told_request::unread;
use std::alloc::Global;

/// Where a head ends in the bytes that came: how many it has, or 0. `from`: how many were there at the last call.
pub fn head_end(bytes: &[u8], from: u64) -> u64
    ensures { result ≡ head_length from bytes.now }
{
    let first = usize::try_from(from).unwrap_or(usize::MAX);
    match end_of_head(bytes, first) {
        None => 0,
        Some(n) => n as u64,
    }
}

/// Reads the head of a request, and plans.
pub fn read_request(
    alloc: Global,
    numbers: &OptionNumbers,
    words: &[u8],
    bytes: &[u8],
    room: &mut [u8],
    out: &mut RequestShape,
)
    ensures { Writes blank_request (asked_in numbers.now words.now bytes.now) room.old room.new out.new }
{
    *out = match asked(alloc, numbers, words, bytes) {
        Err(Bad::Memory) => unread(MEMORY, 0, 0, 0),
        Err(Bad::Call) => unread(BAD_CALL, 0, 0, 0),
        Ok((text, shape)) => {
            if put(room, text.as_slice()) {
                shape
            } else {
                unread(NO_ROOM, text.len() as u64, 0, 0)
            }
        }
    };
}

#[tactic(auto, unfolding(crate::specs::Requests::asked_in))]
fn asked(
    alloc: Global,
    numbers: &OptionNumbers,
    words: &[u8],
    bytes: &[u8],
) -> Result<(Vec<u8>, RequestShape), Bad>
    ensures { Gives (λ t. (t.0.items, t.1)) result (asked_in numbers.now words.now bytes.now) }
{
    let lists = lists_in(alloc, words)?;
    let options = options(numbers, &lists)?;
    if let Some(told) = read_plain(alloc, bytes, &options)? {
        return Ok(told);
    }
    let first = hear(alloc, bytes, &options)?;
    Ok(told(alloc, &first, &options)?)
}
