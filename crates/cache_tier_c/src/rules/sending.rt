//! What is sent.
ghost use Rattle.rules_ffi_arguments.specs.Moments.{moment_in};
ghost use Rattle.rules_ffi_results.specs.Telling.{Writes};
ghost use Rattle.rules_ffi_results.specs.Numbers.{blank};
ghost use Rattle.rules_ffi.specs.Dated.{WritesDated};
ghost use Rattle.rules_ffi.specs.Plains.{plain_in};
ghost use Rattle.rules_ffi.specs.Sends.{sent_in};
ghost use Rattle.rules_serving.specs.Answers.{reply_in, served_in, told_in};
ghost use Rattle.rules_ffi_results.specs.Sending.{Answers};

use rules_ffi::plain::plain;
use rules_ffi::sending::forward;
use rules_serving::answering::answer;
use rules_serving::serving::serve;
use rules_serving::telling::told;
use std::alloc::Global;

#[unsafe(no_mangle)]
pub extern "C" fn cache_rules1_forward_request(
    alloc: Global,
    numbers: &rules_ffi_arguments::shapes::OptionNumbers,
    words: &[u8],
    request: &rules_ffi_arguments::shapes::RequestShape,
    text: &[u8],
    what: u64,
    stored: &rules_ffi_arguments::shapes::HeadShape,
    block: &[u8],
    peer: &[u8],
    room: &mut [u8],
    out: &mut rules_ffi_arguments::shapes::Out,
)
    ensures { Writes blank (sent_in numbers.now words.now request.now text.now what stored.now block.now peer.now) room.old room.new out.new }
{
    forward(
        alloc, numbers, words, request, text, what, stored, block, peer, room, out,
    );
}

#[unsafe(no_mangle)]
pub extern "C" fn cache_rules1_serve_stored(
    alloc: Global,
    numbers: &rules_ffi_arguments::shapes::OptionNumbers,
    words: &[u8],
    request: &rules_ffi_arguments::shapes::RequestShape,
    text: &[u8],
    stored: &rules_ffi_arguments::shapes::HeadShape,
    block: &[u8],
    length: u64,
    seconds: u64,
    nanoseconds: u64,
    how: &rules_ffi_arguments::shapes::How,
    room: &mut [u8],
    parts: &mut [rules_ffi_arguments::shapes::PartShape],
    out: &mut rules_ffi_arguments::shapes::Out,
)
    ensures { Answers blank (reply_in numbers.now words.now request.now text.now stored.now block.now length seconds nanoseconds how.now)
        room.old room.new parts.old parts.new out.new }
{
    answer(
        alloc,
        numbers,
        words,
        request,
        text,
        stored,
        block,
        length,
        seconds,
        nanoseconds,
        how,
        room,
        parts,
        out,
    );
}

#[unsafe(no_mangle)]
pub extern "C" fn cache_rules1_reuse_stored(
    alloc: Global,
    numbers: &rules_ffi_arguments::shapes::OptionNumbers,
    words: &[u8],
    request: &rules_ffi_arguments::shapes::RequestShape,
    text: &[u8],
    stored: &rules_ffi_arguments::shapes::HeadShape,
    block: &[u8],
    length: u64,
    seconds: u64,
    nanoseconds: u64,
    how: &rules_ffi_arguments::shapes::How,
    room: &mut [u8],
    parts: &mut [rules_ffi_arguments::shapes::PartShape],
    out: &mut rules_ffi_arguments::shapes::Out,
)
    ensures { Answers blank (served_in numbers.now words.now request.now text.now stored.now block.now length seconds nanoseconds how.now)
        room.old room.new parts.old parts.new out.new }
{
    serve(
        alloc,
        numbers,
        words,
        request,
        text,
        stored,
        block,
        length,
        seconds,
        nanoseconds,
        how,
        room,
        parts,
        out,
    );
}

#[unsafe(no_mangle)]
pub extern "C" fn cache_rules1_relay_response(
    alloc: Global,
    numbers: &rules_ffi_arguments::shapes::OptionNumbers,
    words: &[u8],
    request: &rules_ffi_arguments::shapes::RequestShape,
    text: &[u8],
    response: &rules_ffi_arguments::shapes::ResponseShape,
    came_text: &[u8],
    asked_seconds: u64,
    asked_nanoseconds: u64,
    came_seconds: u64,
    came_nanoseconds: u64,
    how: &rules_ffi_arguments::shapes::How,
    room: &mut [u8],
    parts: &mut [rules_ffi_arguments::shapes::PartShape],
    out: &mut rules_ffi_arguments::shapes::Out,
)
    ensures { Answers blank (told_in numbers.now words.now request.now text.now response.now came_text.now
        (asked_seconds, asked_nanoseconds) (came_seconds, came_nanoseconds) how.now) room.old room.new parts.old parts.new out.new }
{
    let asked = (asked_seconds, asked_nanoseconds);
    let came = (came_seconds, came_nanoseconds);
    told(
        alloc, numbers, words, request, text, response, came_text, asked, came, how, room, parts,
        out,
    );
}

#[unsafe(no_mangle)]
pub extern "C" fn cache_rules1_make_response(
    alloc: Global,
    numbers: &rules_ffi_arguments::shapes::OptionNumbers,
    words: &[u8],
    request: &rules_ffi_arguments::shapes::RequestShape,
    text: &[u8],
    code: u64,
    reason: u64,
    seconds: u64,
    nanoseconds: u64,
    room: &mut [u8],
    out: &mut rules_ffi_arguments::shapes::Out,
)
    ensures { WritesDated blank (moment_in seconds nanoseconds) (plain_in numbers.now words.now request.now code reason) room.old room.new out.new }
{
    let _ = text;
    plain(
        alloc,
        numbers,
        words,
        request,
        code,
        reason,
        seconds,
        nanoseconds,
        room,
        out,
    );
}
