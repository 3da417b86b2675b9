//! What a confirmation makes of what is stored.
ghost use Rattle.std.specs.Prelude.{◌≡◌, option_map, Some, IfOk};
ghost use Rattle.std.specs.Option.{option_map_or};
ghost use Rattle.rules_fields.specs.Types.{asked_of, answered_of, kept_of, chosen};
ghost use Rattle.rules_storage.specs.Kept.{stored_head, judged};
ghost use Rattle.rules_ffi_results.specs.Shown.{dropped, shown};
ghost use Rattle.rules_response.specs.Merged.{merged_of};
ghost use Rattle.rules_ffi_arguments.specs.Given.{Gives};
ghost use Rattle.rules_ffi_results.specs.Telling.{Writes};
ghost use Rattle.rules_ffi_results.specs.Keeping.{unkept};
ghost use Rattle.rules_ffi.specs.Judgements.{renewing, told_renewed, told_merged, merged, renewed_in};

use crate::sets::vary_alike;
use rules_ffi_arguments::bad::Bad;
use rules_ffi_arguments::kept::kept;
use rules_ffi_arguments::moments::moment_in;
use rules_ffi_arguments::options::{lists_in, options};
use rules_ffi_arguments::request::request;
use rules_ffi_arguments::response::response;
use rules_ffi_arguments::room::put;
use rules_ffi_arguments::shapes::{
    HeadShape, KeptShape, OptionNumbers, RequestShape, ResponseShape,
};
use rules_ffi_arguments::spans::{block_lines, lines_in};
use rules_ffi_results::keeping::{keeping, leaving, not_kept, unkept};
use rules_ffi_results::marks::{BAD_CALL, MEMORY, NO_ROOM, NOT_KEPT, OTHER, mark};
use rules_fields::lines::without;
use rules_fields::types::{Kept, Options, Request, Response};
use rules_response::confirming::{Merged, freshen as freshened, freshen_by_head, stored_from};
use rules_storage::age::arrival;
use rules_storage::good::is_good;
use rules_storage::kept::{Judged, Stored};
use rules_storage::predicting::predicts_uncacheable;
use std::alloc::{AllocError, Global};

/// What a 304 makes of what is stored, or a 200 to HEAD, where `length` is that of the stored body.
pub fn freshen(
    alloc: Global,
    numbers: &OptionNumbers,
    words: &[u8],
    shape: &RequestShape,
    text: &[u8],
    head: &HeadShape,
    block: &[u8],
    length: u64,
    came_as: &ResponseShape,
    came_text: &[u8],
    asked: (u64, u64),
    came: (u64, u64),
    room: &mut [u8],
    out: &mut KeptShape,
)
    ensures { Writes unkept (renewed_in numbers.now words.now shape.now text.now head.now block.now length came_as.now came_text.now
        (asked.0, asked.1) (came.0, came.1)) room.old room.new out.new }
{
    *out = match renewed(
        alloc, numbers, words, shape, text, head, block, length, came_as, came_text, asked, came,
    ) {
        Err(Bad::Memory) => unkept(MEMORY, 0),
        Err(Bad::Call) => unkept(BAD_CALL, 0),
        Ok((text, told)) => {
            if put(room, text.as_slice()) {
                told
            } else {
                unkept(NO_ROOM, text.len() as u64)
            }
        }
    };
}

fn merged<'a>(
    alloc: Global,
    kept: &Kept<'a>,
    length: u64,
    response: &Response<'a>,
) -> Result<Option<Merged<'a>>, AllocError>
    ensures { IfOk result (λ m. option_map merged_of m ≡ merged (kept_of kept.now) length (answered_of response.now)) }
{
    if response.status == 304 {
        freshened(alloc, kept, response)
    } else {
        freshen_by_head(alloc, kept, length, response)
    }
}

#[tactic(auto, unfolding(crate::specs::Judgements::renewed_in))]
fn renewed(
    alloc: Global,
    numbers: &OptionNumbers,
    words: &[u8],
    shape: &RequestShape,
    text: &[u8],
    head: &HeadShape,
    block: &[u8],
    length: u64,
    came_as: &ResponseShape,
    came_text: &[u8],
    asked: (u64, u64),
    came: (u64, u64),
) -> Result<(Vec<u8>, KeptShape), Bad>
    ensures { Gives (λ t. (t.0.items, t.1)) result (renewed_in numbers.now words.now shape.now text.now head.now block.now length came_as.now
        came_text.now (asked.0, asked.1) (came.0, came.1)) }
{
    let lists = lists_in(alloc, words)?;
    let options = options(numbers, &lists)?;
    let lines = lines_in(alloc, text, shape.lines)?;
    let request = request(shape, text, lines.as_slice(), options.scheme)?;
    let stored = block_lines(alloc, block)?;
    let kept = kept(head, stored.as_slice())?;
    let fields = lines_in(alloc, came_text, came_as.lines)?;
    let response = response(came_as, fields.as_slice())?;
    let asked = moment_in(asked.0, asked.1)?;
    let came = moment_in(came.0, came.1)?;
    let merged = merged(alloc, &kept, length, &response)?;
    Ok(told_merged(
        alloc, &merged, &kept, &response, &request, asked, came, &options,
    )?)
}

// What the merged head gives, where there is one.
fn told_merged(
    alloc: Global,
    merged: &Option<Merged<'_>>,
    kept: &Kept<'_>,
    response: &Response<'_>,
    request: &Request<'_>,
    asked: u64,
    came: u64,
    options: &Options<'_>,
) -> Result<(Vec<u8>, KeptShape), AllocError>
    ensures { IfOk result (λ t. (t.0.items, t.1) ≡ told_merged (option_map merged_of merged.now) (kept_of kept.now) (answered_of response.now) (asked_of request.now) asked came (chosen options.now)) }
{
    match merged {
        None => {
            let told = KeptShape {
                removes: mark(!is_good(kept, came), 1),
                ..unkept(OTHER, 0)
            };
            Ok((Vec::new(alloc), told))
        }
        Some(merged) => of_merged(alloc, merged, kept, response, request, asked, came, options),
    }
}

fn of_merged(
    alloc: Global,
    merged: &Merged<'_>,
    kept: &Kept<'_>,
    response: &Response<'_>,
    request: &Request<'_>,
    asked: u64,
    came: u64,
    options: &Options<'_>,
) -> Result<(Vec<u8>, KeptShape), AllocError>
    ensures { IfOk result (λ t. (t.0.items, t.1) ≡ told_merged (Some (merged_of merged.now)) (kept_of kept.now) (answered_of response.now) (asked_of request.now) asked came (chosen options.now)) }
{
    let whole = merged.response();
    let alike = vary_alike(alloc, kept.lines, whole.lines)?;
    let arrived = arrival(alloc, whole.lines, asked, came, options)?;
    let stored = stored_from(alloc, kept, response, merged, options)?;
    let judged = chosen_head(&stored, merged);
    let judgement = judged.judge(alloc, request, asked, came, kept, response.status, options)?;
    let goes = !is_good(kept, came);
    told_shown(
        alloc, &judgement, request, arrived, &whole, options, alike, goes,
    )
}

// What is told, of lines without those that the operator drops.
fn told_shown(
    alloc: Global,
    judgement: &Judged<'_>,
    request: &Request<'_>,
    arrived: i128,
    response: &Response<'_>,
    options: &Options<'_>,
    alike: bool,
    goes: bool,
) -> Result<(Vec<u8>, KeptShape), AllocError>
    ensures { IfOk result (λ t. (t.0.items, t.1) ≡ told_renewed (judged judgement.now) (asked_of request.now) arrived (shown (chosen options.now) (answered_of response.now)) alike goes) }
{
    if options.response_drops.is_empty() {
        return told_renewed(alloc, judgement, request, arrived, response, alike, goes);
    }
    told_dropped(
        alloc, judgement, request, arrived, response, options, alike, goes,
    )
}

// What is told where the operator drops fields of what is shown.
fn told_dropped(
    alloc: Global,
    judgement: &Judged<'_>,
    request: &Request<'_>,
    arrived: i128,
    response: &Response<'_>,
    options: &Options<'_>,
    alike: bool,
    goes: bool,
) -> Result<(Vec<u8>, KeptShape), AllocError>
    ensures { IfOk result (λ t. (t.0.items, t.1) ≡ told_renewed (judged judgement.now) (asked_of request.now) arrived (dropped (chosen options.now) (answered_of response.now)) alike goes) }
{
    let lines = without(alloc, response.lines, options.response_drops)?;
    let shown = Response {
        lines: lines.as_slice(),
        ..*response
    };
    told_renewed(alloc, judgement, request, arrived, &shown, alike, goes)
}

// What is stored of a merged head, where that is another.
fn chosen_head<'a>(stored: &'a Option<Merged<'a>>, merged: &'a Merged<'a>) -> &'a Merged<'a>
    ensures { merged_of result.now ≡ option_map_or merged_of stored.now (merged_of merged.now) }
{
    match stored {
        None => merged,
        Some(stored) => stored,
    }
}

fn told_renewed(
    alloc: Global,
    judgement: &Judged<'_>,
    request: &Request<'_>,
    arrived: i128,
    response: &Response<'_>,
    alike: bool,
    goes: bool,
) -> Result<(Vec<u8>, KeptShape), AllocError>
    ensures { IfOk result (λ t. (t.0.items, t.1) ≡ told_renewed (judged judgement.now) (asked_of request.now) arrived (answered_of response.now) alike goes) }
{
    match judgement {
        Judged::Kept(stored) => renewing(alloc, stored, response, alike, goes),
        Judged::Refused(reason, removes) => {
            let predicts = predicts_uncacheable(*reason, request);
            let told = not_kept(*reason, *removes, predicts);
            leaving(alloc, told, arrived, response)
        }
    }
}

// What was confirmed; where it varies by other names than what is stored it isn't stored, and what is stored goes unless it is good.
fn renewing(
    alloc: Global,
    stored: &Stored<'_>,
    response: &Response<'_>,
    alike: bool,
    goes: bool,
) -> Result<(Vec<u8>, KeptShape), AllocError>
    ensures { IfOk result (λ t. (t.0.items, t.1) ≡ renewing (stored_head stored.now) (answered_of response.now) alike goes) }
{
    if alike {
        return keeping(alloc, stored, response, false, false);
    }
    let told = KeptShape {
        removes: mark(goes, 1),
        ..unkept(NOT_KEPT, 0)
    };
    leaving(alloc, told, stored.arrival, response)
}
