//! What may be stored is judged, and what is stored confirmed.
ghost use Rattle.rules_ffi_results.specs.Telling.{Writes};
ghost use Rattle.rules_ffi_results.specs.Keeping.{unkept};
ghost use Rattle.rules_ffi.specs.Judgements.{judged_in, renewed_in};

use rules_ffi::judging::judge;
use rules_ffi::renewing::freshen;
use std::alloc::Global;

#[unsafe(no_mangle)]
pub extern "C" fn cache_rules1_decide_store(
    alloc: Global,
    numbers: &rules_ffi_arguments::shapes::OptionNumbers,
    words: &[u8],
    request: &rules_ffi_arguments::shapes::RequestShape,
    text: &[u8],
    head_sent: u64,
    response: &rules_ffi_arguments::shapes::ResponseShape,
    came_text: &[u8],
    asked_seconds: u64,
    asked_nanoseconds: u64,
    came_seconds: u64,
    came_nanoseconds: u64,
    list: &[u8],
    found: &rules_ffi_arguments::shapes::HeadShape,
    block: &[u8],
    room: &mut [u8],
    out: &mut rules_ffi_arguments::shapes::KeptShape,
)
    ensures { Writes unkept (judged_in numbers.now words.now request.now text.now head_sent response.now came_text.now
        (asked_seconds, asked_nanoseconds) (came_seconds, came_nanoseconds) list.now found.now block.now) room.old room.new out.new }
{
    let asked = (asked_seconds, asked_nanoseconds);
    let came = (came_seconds, came_nanoseconds);
    judge(
        alloc, numbers, words, request, text, head_sent, response, came_text, asked, came, list,
        found, block, room, out,
    );
}

#[unsafe(no_mangle)]
pub extern "C" fn cache_rules1_freshen(
    alloc: Global,
    numbers: &rules_ffi_arguments::shapes::OptionNumbers,
    words: &[u8],
    request: &rules_ffi_arguments::shapes::RequestShape,
    text: &[u8],
    stored: &rules_ffi_arguments::shapes::HeadShape,
    block: &[u8],
    length: u64,
    response: &rules_ffi_arguments::shapes::ResponseShape,
    came_text: &[u8],
    asked_seconds: u64,
    asked_nanoseconds: u64,
    came_seconds: u64,
    came_nanoseconds: u64,
    room: &mut [u8],
    out: &mut rules_ffi_arguments::shapes::KeptShape,
)
    ensures { Writes unkept (renewed_in numbers.now words.now request.now text.now stored.now block.now length response.now came_text.now
        (asked_seconds, asked_nanoseconds) (came_seconds, came_nanoseconds)) room.old room.new out.new }
{
    let asked = (asked_seconds, asked_nanoseconds);
    let came = (came_seconds, came_nanoseconds);
    freshen(
        alloc, numbers, words, request, text, stored, block, length, response, came_text, asked,
        came, room, out,
    );
}
