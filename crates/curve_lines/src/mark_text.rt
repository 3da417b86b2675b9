//! The rows by moments: what was found so far, and what is held.
ghost use Rattle.std.specs.Prelude.{◌≡◌, ◌++◌, IfOk, OnOk, string_bytes};
ghost use Rattle.std.specs.List.{flat_map};
ghost use Rattle.curve_lines.specs.MarkTexts.{marks_head, mark_front, mark_found, mark_oldest, mark_row, mark_text, marks_text};

use crate::fault::RunFault;
use crate::held_text::optional;
use crate::text::add;
use crate::timed_text::limit_name;
use curve_held::HeldRow;
use curve_sizes::CurveRow;
use curve_timed::{Every, FreshRow, Mark};
use std::alloc::{AllocError, Global};

// The moment and the limit, and of the requests before it how many ask and what their entries weigh.
fn front(alloc: Global, caches: u64, mark: &Mark, limit: u64) -> Result<String, AllocError>
    ensures { IfOk result (λ text. string_bytes text ≡ mark_front caches mark.now limit) }
{
    let at = mark.at;
    let asks = mark.asks;
    let bytes = mark.bytes;
    let limit = limit_name(alloc, caches, limit)?;
    format!(in alloc; "{at},{limit},{asks},{bytes}")
}

// What is found of them, and found fresh.
fn found(alloc: Global, row: CurveRow, fresh: FreshRow) -> Result<String, AllocError>
    ensures { IfOk result (λ text. string_bytes text ≡ mark_found row fresh) }
{
    let finds = row.finds;
    let bytes = row.bytes;
    let fresh_finds = fresh.finds;
    let fresh_bytes = fresh.bytes;
    format!(in alloc; ",{finds},{bytes},{fresh_finds},{fresh_bytes}")
}

// When the one of the entries was asked for that was used longest ago.
fn oldest(alloc: Global, own: HeldRow) -> Result<String, AllocError>
    ensures { IfOk result (λ text. string_bytes text ≡ mark_oldest own) }
{
    let oldest = optional(alloc, own.oldest)?;
    format!(in alloc; ",{oldest}\n")
}

// Adds the line of a row.
fn add_mark_row(
    alloc: Global,
    text: &mut Vec<u8>,
    caches: u64,
    mark: &Mark,
    row: CurveRow,
    fresh: FreshRow,
    own: HeldRow,
) -> Result<(), AllocError>
    ensures { OnOk result (text.new.items ≡ text.old.items ++ mark_row caches mark.now row fresh own) }
{
    add(text, front(alloc, caches, mark, row.limit)?.as_str())?;
    add(text, found(alloc, row, fresh)?.as_str())?;
    add(text, oldest(alloc, own)?.as_str())?;
    Ok(())
}

// Adds the lines of a moment.
fn add_mark(alloc: Global, text: &mut Vec<u8>, caches: u64, mark: &Mark) -> Result<(), AllocError>
    ensures { OnOk result (text.new.items ≡ text.old.items ++ mark_text caches mark.now) }
{
    let count = mark.rows.len().min(mark.fresh.len()).min(mark.held.len());
    for i in 0..count {
        add_mark_row(
            alloc,
            text,
            caches,
            mark,
            mark.rows[i],
            mark.fresh[i],
            mark.held[i],
        )?;
    }
    Ok(())
}

// Adds the lines of all moments, with their head.
fn add_all(alloc: Global, text: &mut Vec<u8>, caches: u64, marks: &[Mark]) -> Result<(), AllocError>
    ensures { OnOk result (text.new.items ≡ text.old.items ++ (marks_head ++ flat_map (mark_text caches) marks.now)) }
{
    add(
        text,
        "interval_end,size,requests,request_bytes,hits,hit_bytes,fresh_hits,fresh_hit_bytes,lru_victim_used_at\n",
    )?;
    for mark in marks {
        add_mark(alloc, text, caches, mark)?;
    }
    Ok(())
}

// Adds the lines of all moments, where spans have a length.
pub(crate) fn add_marks(
    alloc: Global,
    text: &mut Vec<u8>,
    every: Option<Every>,
    caches: u64,
    marks: &[Mark],
) -> Result<(), RunFault>
    ensures { OnOk result (text.new.items ≡ text.old.items ++ marks_text every caches marks.now) }
{
    match every {
        None => Ok(()),
        Some(_) => {
            add_all(alloc, text, caches, marks)?;
            Ok(())
        }
    }
}
