//! Heads and bodies are read, and options checked.
ghost use Rattle.std.specs.Prelude.{◌≡◌, Some};
ghost use Rattle.rules_ffi_arguments.specs.Moments.{moment_in};
ghost use Rattle.rules_ffi_results.specs.Telling.{Writes};
ghost use Rattle.rules_ffi_results.specs.Numbers.{blank};
ghost use Rattle.rules_ffi_results.specs.Encoded.{encoded};
ghost use Rattle.rules_ffi_results.specs.Bodies.{refused_call, decoded};
ghost use Rattle.rules_serving.specs.Choices.{checked};
ghost use Rattle.rules_ffi.specs.Requests.{head_length, blank_request, asked_in};
ghost use Rattle.rules_ffi.specs.Responses.{blank_response, answered_in};
ghost use Rattle.rules_ffi.specs.Dated.{WritesDated};

use rules_ffi::reading::{head_end, read_request};
use rules_ffi::responses::read_response;
use rules_ffi_results::body::decode;
use rules_ffi_results::encoding::encode;
use rules_serving::choosing::check;
use std::alloc::Global;

#[unsafe(no_mangle)]
pub extern "C" fn cache_rules1_check_options(
    numbers: &rules_ffi_arguments::shapes::OptionNumbers,
    words: &[u8],
    out: &mut rules_ffi_arguments::shapes::Out,
)
    ensures { out.new ≡ checked numbers.now words.now }
{
    check(numbers, words, out);
}

#[unsafe(no_mangle)]
pub extern "C" fn cache_rules1_head_end(bytes: &[u8], from: u64) -> u64
    ensures { result ≡ head_length from bytes.now }
{
    head_end(bytes, from)
}

#[unsafe(no_mangle)]
pub extern "C" fn cache_rules1_parse_request(
    alloc: Global,
    numbers: &rules_ffi_arguments::shapes::OptionNumbers,
    words: &[u8],
    bytes: &[u8],
    room: &mut [u8],
    out: &mut rules_ffi_arguments::shapes::RequestShape,
)
    ensures { Writes blank_request (asked_in numbers.now words.now bytes.now) room.old room.new out.new }
{
    read_request(alloc, numbers, words, bytes, room, out);
}

#[unsafe(no_mangle)]
pub extern "C" fn cache_rules1_parse_response(
    alloc: Global,
    numbers: &rules_ffi_arguments::shapes::OptionNumbers,
    words: &[u8],
    head_sent: u64,
    seconds: u64,
    nanoseconds: u64,
    bytes: &[u8],
    room: &mut [u8],
    out: &mut rules_ffi_arguments::shapes::ResponseShape,
)
    ensures { WritesDated blank_response (moment_in seconds nanoseconds) (answered_in numbers.now words.now head_sent bytes.now) room.old room.new out.new }
{
    read_response(
        alloc,
        numbers,
        words,
        head_sent,
        seconds,
        nanoseconds,
        bytes,
        room,
        out,
    );
}

#[unsafe(no_mangle)]
pub extern "C" fn cache_rules1_decode_body(
    alloc: Global,
    body: &mut rules_ffi_arguments::shapes::BodyShape,
    bytes: &[u8],
    room: &mut [u8],
    out: &mut rules_ffi_arguments::shapes::PieceShape,
)
    ensures { Writes (refused_call body.old) (decoded body.old bytes.now) room.old room.new (out.new, body.new) }
{
    decode(alloc, body, bytes, room, out);
}

#[unsafe(no_mangle)]
pub extern "C" fn cache_rules1_encode_chunk(
    alloc: Global,
    length: u64,
    room: &mut [u8],
    out: &mut rules_ffi_arguments::shapes::Out,
)
    ensures { Writes blank (Some (encoded length)) room.old room.new out.new }
{
    encode(alloc, length, room, out);
}
