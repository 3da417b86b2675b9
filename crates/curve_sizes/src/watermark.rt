//! The most entries that a cache tracks.
ghost use Rattle.std.specs.Prelude.{◌≡◌, ◌≢◌, [], IfSome, IfErr, IsOk, OnOk, None, Some};
ghost use Rattle.curve_heights.specs.Places.{asked, removed};
ghost use Rattle.curve_heights.specs.Slots.{nobody};
ghost use Rattle.curve_sizes.specs.Faults.{IsNumberFault, IsMarkFault};
ghost use Rattle.curve_sizes.specs.Numbers.{is_past_mark, past, mark_of};

use crate::fault::CurveFault;
use curve_heights::{HeightFault, TraceHeights};
use std::alloc::Global;

/// The most entries that a cache tracks, and the heights by number.
#[derive(Drop)]
pub struct Watermark {
    most: u64,
    heights: TraceHeights,
}

// A watermark, with no heights yet.
pub(crate) fn marked(alloc: Global, watermark: Option<u64>) -> Option<Watermark>
    ensures mark { mark_of result ≡ watermark }
    ensures none { IfSome result (λ m. m.heights ≡ []) }
{
    match watermark {
        None => None,
        Some(most) => Some(Watermark {
            most,
            heights: TraceHeights::new(alloc),
        }),
    }
}

// Whether an entry's height by number is past the watermark, if there is one.
pub(crate) fn is_past_mark(watermark: &Option<Watermark>, entry: u32) -> bool
    ensures { result ≡ is_past_mark watermark.now entry }
{
    match watermark {
        None => false,
        Some(mark) => is_past(mark.most, mark.heights.height(entry)),
    }
}

fn is_past(most: u64, number: Option<u64>) -> bool
    ensures { result ≡ past most number }
{
    match number {
        None => false,
        Some(number) => most < number,
    }
}

// Puts an entry first, by number.
fn ask_number(alloc: Global, heights: &mut TraceHeights, entry: u32) -> Result<(), CurveFault>
    requires { entry ≢ nobody }
    ensures ok { OnOk result (heights.new ≡ asked entry 1 heights.old) }
    ensures fault { IfErr result (IsNumberFault heights.old entry) }
{
    match heights.ask(alloc, entry, 1) {
        Ok(()) => Ok(()),
        Err(HeightFault::Memory) => Err(CurveFault::Memory),
        Err(HeightFault::TooHeavy | HeightFault::TooMany) => Err(CurveFault::TooMany),
    }
}

// Puts an entry first among the heights by number.
pub(crate) fn ask_marked(
    alloc: Global,
    watermark: &mut Option<Watermark>,
    entry: u32,
) -> Result<(), CurveFault>
    requires { entry ≢ nobody }
    ensures none { watermark.old ≡ None → watermark.new ≡ None }
    ensures some { OnOk result (IfSome watermark.old (λ m. watermark.new ≡ Some (record m { heights = asked entry 1 m.heights }))) }
    ensures fault { IfErr result (IsMarkFault watermark.old entry) }
{
    if let Some(mark) = watermark {
        ask_number(alloc, &mut mark.heights, entry)?;
    }
    Ok(())
}

// Removes an entry from the heights by number.
pub(crate) fn remove_marked(
    alloc: Global,
    watermark: &mut Option<Watermark>,
    entry: u32,
) -> Result<(), CurveFault>
    ensures none { watermark.old ≡ None → watermark.new ≡ None }
    ensures some { OnOk result (IfSome watermark.old (λ m. watermark.new ≡ Some (record m { heights = removed entry m.heights }))) }
    ensures done { IsOk result }
{
    if let Some(mark) = watermark {
        mark.heights.remove(alloc, entry)?;
    }
    Ok(())
}
