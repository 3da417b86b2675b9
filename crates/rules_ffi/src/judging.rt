//! Whether a response is stored.
ghost use Rattle.std.specs.Prelude.{◌≡◌, option_map, IfOk};
ghost use Rattle.rules_fields.specs.Types.{asked_of, answered_of, kept_of, chosen};
ghost use Rattle.rules_storage.specs.Kept.{judged};
ghost use Rattle.rules_ffi_results.specs.Shown.{dropped};
ghost use Rattle.rules_ffi_arguments.specs.Given.{Gives};
ghost use Rattle.rules_ffi_results.specs.Telling.{Writes};
ghost use Rattle.rules_ffi_results.specs.Keeping.{unkept};
ghost use Rattle.rules_ffi.specs.Judgements.{judged_method, outdates, moves, found_of, told_judged, judge_told, judged_in};

use crate::responses::sent_method;
use crate::sets::{varies, vary_alike};
use rules_ffi_arguments::bad::Bad;
use rules_ffi_arguments::kept::kept;
use rules_ffi_arguments::moments::moment_in;
use rules_ffi_arguments::options::{lists_in, options};
use rules_ffi_arguments::request::request;
use rules_ffi_arguments::response::response;
use rules_ffi_arguments::room::put;
use rules_ffi_arguments::shapes::{
    HeadShape, KeptShape, OptionNumbers, RequestShape, ResponseShape,
};
use rules_ffi_arguments::spans::{block_lines, lines_in};
use rules_ffi_results::keeping::{keeping, leaving, not_kept, unkept};
use rules_ffi_results::marks::{BAD_CALL, MEMORY, NO_ROOM};
use rules_fields::lines::without;
use rules_fields::types::{Kept, Options, Request, Response};
use rules_storage::age::{arrival, is_fresh};
use rules_storage::judging::judge as judged_by;
use rules_storage::kept::Judged;
use rules_storage::predicting::predicts_uncacheable;
use std::alloc::{AllocError, Global};

// The method by which a response is judged: HEAD where it was sent; GET where it was sent for a HEAD; else the request's.
fn judged_method(head_sent: u64, method: &[u8]) -> &[u8]
    ensures { result.now ≡ judged_method head_sent method.now }
{
    if head_sent == 0 && method != b"HEAD".as_slice() {
        method
    } else {
        sent_method(head_sent)
    }
}

/// Whether a response is stored: KEPT or NOT_KEPT. `list` is the body of the list that was found, or none. `found` is the head that was found under
/// the key that was looked up, and `block` its lines; nothing was found where its status is 0.
pub fn judge(
    alloc: Global,
    numbers: &OptionNumbers,
    words: &[u8],
    shape: &RequestShape,
    text: &[u8],
    head_sent: u64,
    came_as: &ResponseShape,
    came_text: &[u8],
    asked: (u64, u64),
    came: (u64, u64),
    list: &[u8],
    found: &HeadShape,
    block: &[u8],
    room: &mut [u8],
    out: &mut KeptShape,
)
    ensures { Writes unkept (judged_in numbers.now words.now shape.now text.now head_sent came_as.now came_text.now
        (asked.0, asked.1) (came.0, came.1) list.now found.now block.now) room.old room.new out.new }
{
    *out = match judged(
        alloc, numbers, words, shape, text, head_sent, came_as, came_text, asked, came, list,
        found, block,
    ) {
        Err(Bad::Memory) => unkept(MEMORY, 0),
        Err(Bad::Call) => unkept(BAD_CALL, 0),
        Ok((text, told)) => {
            if put(room, text.as_slice()) {
                told
            } else {
                unkept(NO_ROOM, text.len() as u64)
            }
        }
    };
}

#[tactic(auto, unfolding(crate::specs::Judgements::judged_in))]
fn judged(
    alloc: Global,
    numbers: &OptionNumbers,
    words: &[u8],
    shape: &RequestShape,
    text: &[u8],
    head_sent: u64,
    came_as: &ResponseShape,
    came_text: &[u8],
    asked: (u64, u64),
    came: (u64, u64),
    list: &[u8],
    found: &HeadShape,
    block: &[u8],
) -> Result<(Vec<u8>, KeptShape), Bad>
    ensures { Gives (λ t. (t.0.items, t.1)) result (judged_in numbers.now words.now shape.now text.now head_sent came_as.now came_text.now
        (asked.0, asked.1) (came.0, came.1) list.now found.now block.now) }
{
    let lists = lists_in(alloc, words)?;
    let options = options(numbers, &lists)?;
    let lines = lines_in(alloc, text, shape.lines)?;
    let request = request(shape, text, lines.as_slice(), options.scheme)?;
    let fields = lines_in(alloc, came_text, came_as.lines)?;
    let response = response(came_as, fields.as_slice())?;
    let asked = moment_in(asked.0, asked.1)?;
    let came = moment_in(came.0, came.1)?;
    let stored = block_lines(alloc, block)?;
    let found = kept(found, stored.as_slice())?;
    let method = judged_method(head_sent, request.method);
    Ok(judge_told(
        alloc,
        &request,
        method,
        &response,
        asked,
        came,
        list,
        found_of(&found),
        &options,
    )?)
}

// What was found: nothing where it has no status.
fn found_of<'a>(kept: &'a Kept<'a>) -> Option<&'a Kept<'a>>
    ensures { option_map (λ k. kept_of k.now) result ≡ found_of (kept_of kept.now) }
{
    if kept.status == 0 { None } else { Some(kept) }
}

fn judge_told(
    alloc: Global,
    request: &Request<'_>,
    method: &[u8],
    response: &Response<'_>,
    asked: u64,
    came: u64,
    list: &[u8],
    found: Option<&Kept<'_>>,
    options: &Options<'_>,
) -> Result<(Vec<u8>, KeptShape), AllocError>
    ensures { IfOk result (λ t. (t.0.items, t.1) ≡ judge_told (asked_of request.now) method.now (answered_of response.now) asked came list.now
        (option_map (λ k. kept_of k.now) found.entry) (chosen options.now)) }
{
    let varies = varies(alloc, list, response.lines)?;
    let arrived = arrival(alloc, response.lines, asked, came, options)?;
    let code = response.status;
    let judgement = judged_by(
        alloc, request, method, response, asked, came, found, code, options,
    )?;
    let moves = moves(alloc, list, found, response, came)?;
    if options.response_drops.is_empty() {
        return told_judged(alloc, &judgement, request, arrived, response, varies, moves);
    }
    told_dropped(
        alloc, &judgement, request, arrived, response, options, varies, moves,
    )
}

// What is told where the operator drops fields of what is shown.
fn told_dropped(
    alloc: Global,
    judgement: &Judged<'_>,
    request: &Request<'_>,
    arrived: i128,
    response: &Response<'_>,
    options: &Options<'_>,
    varies: bool,
    moves: bool,
) -> Result<(Vec<u8>, KeptShape), AllocError>
    ensures { IfOk result (λ t. (t.0.items, t.1) ≡ told_judged (judged judgement.now) (asked_of request.now) arrived (dropped (chosen options.now) (answered_of response.now)) varies moves) }
{
    let lines = without(alloc, response.lines, options.response_drops)?;
    let shown = Response {
        lines: lines.as_slice(),
        ..*response
    };
    told_judged(alloc, judgement, request, arrived, &shown, varies, moves)
}

// Whether what was found stands under another set of Vary than a response, and isn't fresh.
fn outdates(
    alloc: Global,
    kept: &Kept<'_>,
    response: &Response<'_>,
    came: u64,
) -> Result<bool, AllocError>
    ensures { IfOk result (λ b. b ≡ outdates (kept_of kept.now) (answered_of response.now) came) }
{
    let alike = vary_alike(alloc, kept.lines, response.lines)?;
    Ok(!alike && !is_fresh(kept.arrival, kept.lifetime, came))
}

/// Whether a response that is kept takes the place of what was found, by a list, under another key.
pub fn moves(
    alloc: Global,
    list: &[u8],
    found: Option<&Kept<'_>>,
    response: &Response<'_>,
    came: u64,
) -> Result<bool, AllocError>
    ensures { IfOk result (λ b. b ≡ moves list.now (option_map (λ k. kept_of k.now) found.entry) (answered_of response.now) came) }
{
    if list.is_empty() {
        return Ok(false);
    }
    match found {
        None => Ok(false),
        Some(kept) => outdates(alloc, kept, response, came),
    }
}

fn told_judged(
    alloc: Global,
    judgement: &Judged<'_>,
    request: &Request<'_>,
    arrived: i128,
    response: &Response<'_>,
    varies: bool,
    moves: bool,
) -> Result<(Vec<u8>, KeptShape), AllocError>
    ensures { IfOk result (λ t. (t.0.items, t.1) ≡ told_judged (judged judgement.now) (asked_of request.now) arrived (answered_of response.now) varies moves) }
{
    match judgement {
        Judged::Kept(stored) => keeping(alloc, stored, response, varies, moves),
        Judged::Refused(reason, removes) => {
            let predicts = predicts_uncacheable(*reason, request);
            let told = not_kept(*reason, *removes, predicts);
            leaving(alloc, told, arrived, response)
        }
    }
}
