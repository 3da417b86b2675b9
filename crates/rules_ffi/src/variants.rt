//! The second keys of a request: one for each set of a list of variants.
ghost use Rattle.std.specs.Prelude.{◌≡◌, ◌++◌, ◌∷◌, [], map, Some, IfOk};
ghost use Rattle.rules_fields.specs.Fields.{fields};
ghost use Rattle.rules_fields.specs.Texts.{small};
ghost use Rattle.rules_fields.specs.Types.{asked_of, chosen};
ghost use Rattle.rules_response.specs.Reply.{piece_of};
ghost use Rattle.rules_reuse.specs.Keys.{key_of};
ghost use Rattle.rules_reuse.specs.Variants.{secondary};
ghost use Rattle.rules_ffi_arguments.specs.Given.{Gives};
ghost use Rattle.rules_ffi_results.specs.Numbers.{blank};
ghost use Rattle.rules_ffi_results.specs.Sending.{sent_view, Answers};
ghost use Rattle.rules_ffi.specs.Sets.{ended};
ghost use Rattle.rules_ffi.specs.SetViews.{set_of};
ghost use Rattle.rules_ffi.specs.Lists.{second_key, keys_of, told_keys, second_keys_in};

use crate::sets::{VarySet, add_names, sets_of};
use rules_ffi_arguments::bad::Bad;
use rules_ffi_arguments::options::{lists_in, options};
use rules_ffi_arguments::request::request;
use rules_ffi_arguments::shapes::{OptionNumbers, Out, PartShape, RequestShape};
use rules_ffi_arguments::spans::lines_in;
use rules_ffi_results::marks::{BAD_CALL, DONE, MEMORY, blank};
use rules_ffi_results::parts::add_parts;
use rules_ffi_results::sending::{Sent, placed};
use rules_fields::Line;
use rules_fields::types::{Options, Request};
use rules_response::answering::Part;
use rules_reuse::keys::key;
use rules_reuse::variants::secondary;
use std::alloc::{AllocError, Global};

/// The second keys of a request by a list, one for each set in their order: `count`, each as `before` of its part. Each has the first key, the set's
/// token, and the values of its names.
pub fn variant(
    alloc: Global,
    numbers: &OptionNumbers,
    words: &[u8],
    shape: &RequestShape,
    text: &[u8],
    list: &[u8],
    room: &mut [u8],
    parts: &mut [PartShape],
    out: &mut Out,
)
    ensures { Answers blank (second_keys_in numbers.now words.now shape.now text.now list.now) room.old room.new parts.old parts.new out.new }
{
    *out = match second_keys(alloc, numbers, words, shape, text, list) {
        Err(Bad::Memory) => blank(MEMORY, 0),
        Err(Bad::Call) => blank(BAD_CALL, 0),
        Ok(sent) => placed(&sent, room, parts),
    };
}

#[tactic(auto, unfolding(crate::specs::Lists::second_keys_in))]
fn second_keys(
    alloc: Global,
    numbers: &OptionNumbers,
    words: &[u8],
    shape: &RequestShape,
    text: &[u8],
    list: &[u8],
) -> Result<Sent, Bad>
    ensures { Gives sent_view result (second_keys_in numbers.now words.now shape.now text.now list.now) }
{
    let lists = lists_in(alloc, words)?;
    let options = options(numbers, &lists)?;
    let asked = lines_in(alloc, text, shape.lines)?;
    let request = request(shape, text, asked.as_slice(), options.scheme)?;
    let keys = keys_of(alloc, &request, list, &options)?;
    Ok(told_keys(alloc, keys.as_slice())?)
}

fn told_keys(alloc: Global, keys: &[Part]) -> Result<Sent, AllocError>
    ensures { IfOk result (λ s. sent_view s ≡ told_keys (map piece_of keys.now)) }
{
    let mut text = Vec::new(alloc);
    let parts = add_parts(alloc, &mut text, keys)?;
    let told = Out {
        count: keys.len() as u64,
        ..blank(DONE, 0)
    };
    Ok(Sent { text, told, parts })
}

/// The second keys, each in front of nothing of a body.
pub fn keys_of(
    alloc: Global,
    request: &Request<'_>,
    list: &[u8],
    options: &Options<'_>,
) -> Result<Vec<Part>, AllocError>
    ensures { IfOk result (λ v. map piece_of v.items ≡ keys_of (asked_of request.now) list.now (chosen options.now)) }
{
    let sets = sets_of(alloc, list)?;
    keys_by(alloc, request, sets.as_slice(), options)
}

// One for each set.
fn keys_by(
    alloc: Global,
    request: &Request<'_>,
    sets: &[VarySet<'_>],
    options: &Options<'_>,
) -> Result<Vec<Part>, AllocError>
    ensures { IfOk result (λ v. map piece_of v.items ≡ map (λ s. record { before = second_key (asked_of request.now) (chosen options.now) s; from = 0; to = Some 0 }) (map set_of sets.now)) }
{
    let first = key(alloc, request, options)?;
    let mut keys = Vec::new(alloc);
    for set in sets {
        keys.push(Part {
            before: second_key(alloc, request, first.as_slice(), set)?,
            from: 0,
            to: Some(0),
        })?;
    }
    Ok(keys)
}

// The values that a request has of the names of a set.
fn values_of(alloc: Global, set: &VarySet<'_>, lines: &[Line<'_>]) -> Result<Vec<u8>, AllocError>
    ensures { IfOk result (λ v. v.items ≡ secondary (map small (set_of set.now).names) (fields lines.now)) }
{
    secondary(alloc, set.names.as_slice(), lines)
}

// The second key by a set, behind the first key.
fn second_key(
    alloc: Global,
    request: &Request<'_>,
    first: &[u8],
    set: &VarySet<'_>,
) -> Result<Vec<u8>, AllocError>
    ensures { IfOk result (λ k. k.items ≡ ended (first.now ∷ (set_of set.now).token ∷ []) ++ secondary (map small (set_of set.now).names) (asked_of request.now).lines) }
{
    let values = values_of(alloc, set, request.lines)?;
    let mut second = Vec::new(alloc);
    add_names(&mut second, &[first, set.token])?;
    second.extend_from_slice(values.as_slice())?;
    Ok(second)
}
