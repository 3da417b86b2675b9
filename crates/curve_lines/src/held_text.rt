//! What a cache holds, as columns.
ghost use Rattle.std.specs.Prelude.{◌≡◌, IfOk, option_map, string_bytes};
ghost use Rattle.curve_lines.specs.HeldTexts.{optional_text, held_text, held_timed_text};

use curve_held::{Full, HeldRow};
use std::alloc::{AllocError, Global};

// A number, if there is one.
pub(crate) fn optional(alloc: Global, number: Option<u64>) -> Result<String, AllocError>
    ensures { IfOk result (λ text. string_bytes text ≡ optional_text number) }
{
    match number {
        None => Ok(String::new(alloc)),
        Some(number) => format!(in alloc; "{number}"),
    }
}

// How many requests asked up to the first that put an entry out.
fn asks_of(full: Option<Full>) -> Option<u64>
    ensures { result ≡ option_map (λ f. f.asks) full }
{
    match full {
        None => None,
        Some(full) => Some(full.asks),
    }
}

// The moment of that request.
fn moment_of(full: Option<Full>) -> Option<u64>
    ensures { result ≡ option_map (λ f. f.moment) full }
{
    match full {
        None => None,
        Some(full) => Some(full.moment),
    }
}

// How many entries are held, and which request was the first that put an entry out.
pub(crate) fn held(alloc: Global, row: HeldRow) -> Result<String, AllocError>
    ensures { IfOk result (λ text. string_bytes text ≡ held_text row) }
{
    let entries = row.entries;
    let full = optional(alloc, asks_of(row.full))?;
    format!(in alloc; ",{entries},{full}")
}

// The same by moments, and the least moment at which one of them was asked for last.
pub(crate) fn held_timed(alloc: Global, row: HeldRow) -> Result<String, AllocError>
    ensures { IfOk result (λ text. string_bytes text ≡ held_timed_text row) }
{
    let entries = row.entries;
    let full = optional(alloc, moment_of(row.full))?;
    let oldest = optional(alloc, row.oldest)?;
    format!(in alloc; ",{entries},{full},{oldest}")
}
