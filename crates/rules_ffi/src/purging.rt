//! The keys that a response makes out of date.
ghost use Rattle.std.specs.Prelude.{◌≡◌, map, option_map, IfOk};
ghost use Rattle.rules_ffi_arguments.specs.Given.{Gives};
ghost use Rattle.rules_ffi_results.specs.Telling.{Writes};
ghost use Rattle.rules_ffi_results.specs.Numbers.{blank};
ghost use Rattle.rules_ffi.specs.Keys.{ended, listed, purged_in, told_keys};

use rules_ffi_arguments::bad::Bad;
use rules_ffi_arguments::options::{lists_in, options};
use rules_ffi_arguments::request::request;
use rules_ffi_arguments::response::response;
use rules_ffi_arguments::room::put;
use rules_ffi_arguments::shapes::{OptionNumbers, Out, RequestShape, ResponseShape, Span};
use rules_ffi_arguments::spans::lines_in;
use rules_ffi_results::marks::{BAD_CALL, DONE, MEMORY, NO_ROOM, blank};
use rules_forward::purge::invalidates as out_of_date;
use std::alloc::{AllocError, Global};

/// The keys to purge once this response has come: `count`, each with a LF behind it in `more`.
pub fn invalidates(
    alloc: Global,
    numbers: &OptionNumbers,
    words: &[u8],
    shape: &RequestShape,
    text: &[u8],
    came_as: &ResponseShape,
    came_text: &[u8],
    room: &mut [u8],
    out: &mut Out,
)
    ensures { Writes blank (option_map told_keys (purged_in numbers.now words.now shape.now text.now came_as.now came_text.now)) room.old room.new out.new }
{
    *out = match purged(alloc, numbers, words, shape, text, came_as, came_text) {
        Err(Bad::Memory) => blank(MEMORY, 0),
        Err(Bad::Call) => blank(BAD_CALL, 0),
        Ok((text, count)) => {
            let to = text.len() as u64;
            if put(room, text.as_slice()) {
                Out {
                    count,
                    more: Span { from: 0, to },
                    ..blank(DONE, 0)
                }
            } else {
                blank(NO_ROOM, to)
            }
        }
    };
}

#[tactic(auto, unfolding(crate::specs::Keys::purged_in))]
fn purged(
    alloc: Global,
    numbers: &OptionNumbers,
    words: &[u8],
    shape: &RequestShape,
    text: &[u8],
    came_as: &ResponseShape,
    came_text: &[u8],
) -> Result<(Vec<u8>, u64), Bad>
    ensures { Gives (λ t. (t.0.items, t.1)) result (option_map listed (purged_in numbers.now words.now shape.now text.now came_as.now came_text.now)) }
{
    let lists = lists_in(alloc, words)?;
    let options = options(numbers, &lists)?;
    let lines = lines_in(alloc, text, shape.lines)?;
    let request = request(shape, text, lines.as_slice(), options.scheme)?;
    let fields = lines_in(alloc, came_text, came_as.lines)?;
    let response = response(came_as, fields.as_slice())?;
    let keys = out_of_date(alloc, &request, &response, &options)?;
    let text = ended(alloc, keys.as_slice())?;
    Ok((text, keys.len() as u64))
}

// Each key with a LF behind it.
fn ended(alloc: Global, keys: &[Vec<u8>]) -> Result<Vec<u8>, AllocError>
    ensures { IfOk result (λ t. t.items ≡ ended (map (λ k. k.items) keys.now)) }
{
    let mut text = Vec::new(alloc);
    for key in keys {
        text.extend_from_slice(key.as_slice())?;
        text.push(b'\n')?;
    }
    Ok(text)
}
