//! What is stored is chosen, spared or removed.
ghost use Rattle.std.specs.Prelude.{option_map};
ghost use Rattle.rules_ffi_results.specs.Telling.{Tells, Writes};
ghost use Rattle.rules_ffi_results.specs.Numbers.{blank};
ghost use Rattle.rules_ffi_results.specs.Keeping.{unkept};
ghost use Rattle.rules_serving.specs.Choices.{prepared_in, told_words, use_in, told_use, spared_in, told_spare};
ghost use Rattle.rules_ffi_results.specs.Sending.{Answers};
ghost use Rattle.rules_ffi.specs.Lists.{second_keys_in, listed_in};
ghost use Rattle.rules_ffi.specs.Keys.{purged_in, told_keys};

use rules_ffi::listing::list;
use rules_ffi::purging::invalidates;
use rules_ffi::variants::variant;
use rules_serving::choosing::{choose, prepare, spare};
use std::alloc::Global;

#[unsafe(no_mangle)]
pub extern "C" fn cache_rules1_prepare_settings(
    alloc: Global,
    numbers: &rules_ffi_arguments::shapes::OptionNumbers,
    words: &[u8],
    room: &mut [u8],
    out: &mut rules_ffi_arguments::shapes::Out,
)
    ensures { Writes blank (option_map told_words (prepared_in numbers.now words.now)) room.old room.new out.new }
{
    prepare(alloc, numbers, words, room, out);
}

#[unsafe(no_mangle)]
pub extern "C" fn cache_rules1_secondary_keys(
    alloc: Global,
    numbers: &rules_ffi_arguments::shapes::OptionNumbers,
    words: &[u8],
    request: &rules_ffi_arguments::shapes::RequestShape,
    text: &[u8],
    found: &[u8],
    room: &mut [u8],
    parts: &mut [rules_ffi_arguments::shapes::PartShape],
    out: &mut rules_ffi_arguments::shapes::Out,
)
    ensures { Answers blank (second_keys_in numbers.now words.now request.now text.now found.now) room.old room.new parts.old parts.new out.new }
{
    variant(
        alloc, numbers, words, request, text, found, room, parts, out,
    );
}

#[unsafe(no_mangle)]
pub extern "C" fn cache_rules1_update_vary_index(
    alloc: Global,
    numbers: &rules_ffi_arguments::shapes::OptionNumbers,
    words: &[u8],
    response: &rules_ffi_arguments::shapes::ResponseShape,
    text: &[u8],
    seconds: u64,
    nanoseconds: u64,
    found: &[u8],
    token: &[u8],
    room: &mut [u8],
    out: &mut rules_ffi_arguments::shapes::KeptShape,
)
    ensures { Writes unkept (listed_in numbers.now words.now response.now text.now seconds nanoseconds found.now token.now) room.old room.new out.new }
{
    list(
        alloc,
        numbers,
        words,
        response,
        text,
        seconds,
        nanoseconds,
        found,
        token,
        room,
        out,
    );
}

#[unsafe(no_mangle)]
pub extern "C" fn cache_rules1_decide_reuse(
    alloc: Global,
    numbers: &rules_ffi_arguments::shapes::OptionNumbers,
    words: &[u8],
    request: &rules_ffi_arguments::shapes::RequestShape,
    text: &[u8],
    stored: &rules_ffi_arguments::shapes::HeadShape,
    block: &[u8],
    seconds: u64,
    nanoseconds: u64,
    out: &mut rules_ffi_arguments::shapes::Out,
)
    ensures { Tells blank (option_map told_use (use_in numbers.now words.now request.now text.now stored.now block.now seconds nanoseconds)) out.new }
{
    choose(
        alloc,
        numbers,
        words,
        request,
        text,
        stored,
        block,
        seconds,
        nanoseconds,
        out,
    );
}

#[unsafe(no_mangle)]
pub extern "C" fn cache_rules1_stale_on_error(
    alloc: Global,
    numbers: &rules_ffi_arguments::shapes::OptionNumbers,
    words: &[u8],
    request: &rules_ffi_arguments::shapes::RequestShape,
    text: &[u8],
    stored: &rules_ffi_arguments::shapes::HeadShape,
    block: &[u8],
    seconds: u64,
    nanoseconds: u64,
    code: u64,
    out: &mut rules_ffi_arguments::shapes::Out,
)
    ensures { Tells blank (option_map told_spare (spared_in numbers.now words.now request.now text.now stored.now block.now seconds nanoseconds code)) out.new }
{
    spare(
        alloc,
        numbers,
        words,
        request,
        text,
        stored,
        block,
        seconds,
        nanoseconds,
        code,
        out,
    );
}

#[unsafe(no_mangle)]
pub extern "C" fn cache_rules1_invalidated_keys(
    alloc: Global,
    numbers: &rules_ffi_arguments::shapes::OptionNumbers,
    words: &[u8],
    request: &rules_ffi_arguments::shapes::RequestShape,
    text: &[u8],
    response: &rules_ffi_arguments::shapes::ResponseShape,
    came_text: &[u8],
    room: &mut [u8],
    out: &mut rules_ffi_arguments::shapes::Out,
)
    ensures { Writes blank (option_map told_keys (purged_in numbers.now words.now request.now text.now response.now came_text.now)) room.old room.new out.new }
{
    invalidates(
        alloc, numbers, words, request, text, response, came_text, room, out,
    );
}
