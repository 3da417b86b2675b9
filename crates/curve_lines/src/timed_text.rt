//! The text of what was found, and found fresh.
ghost use Rattle.std.specs.Prelude.{◌≡◌, ◌++◌, ◌<◌, IfOk, OnOk, string_bytes};
ghost use Rattle.curve_lines.specs.TimedTexts.{limit_text, share_text, timed_row, timed_rows, lifetime_text, timed_text};

use crate::fault::RunFault;
use crate::format::Rules;
use crate::held_text::held_timed;
use crate::text::{
    LineCounts, add, caches_of, hundredths, kind_line, lines_line, part_line, percent,
    requests_line,
};
use curve_held::HeldRow;
use curve_keys::Part;
use curve_sizes::{CurveRow, Totals};
use curve_timed::FreshRow;
use std::alloc::{AllocError, Global};

// The limit of all the caches together.
pub(crate) fn limit_name(alloc: Global, caches: u64, limit: u64) -> Result<String, AllocError>
    ensures { IfOk result (λ text. string_bytes text ≡ limit_text caches limit) }
{
    if limit == u64::MAX {
        return format!(in alloc; "unlimited");
    }
    let limit = u128::from(limit) * u128::from(caches);
    format!(in alloc; "{limit}")
}

// Adds what was found, and its shares of all requests and of what they weigh.
fn add_share(
    alloc: Global,
    text: &mut Vec<u8>,
    finds: u128,
    bytes: u128,
    asks: u64,
    all: u128,
) -> Result<(), RunFault>
    ensures { OnOk result (text.new.items ≡ text.old.items ++ share_text finds bytes asks all) }
{
    let of_asks = hundredths(finds, u128::from(asks))?;
    let of_bytes = hundredths(bytes, all)?;
    let first = percent(alloc, of_asks)?;
    let second = percent(alloc, of_bytes)?;
    add(
        text,
        format!(in alloc; ",{finds},{bytes},{first},{second}")?.as_str(),
    )?;
    Ok(())
}

// Adds the line of a row.
fn add_timed_row(
    alloc: Global,
    text: &mut Vec<u8>,
    caches: u64,
    totals: Totals,
    row: CurveRow,
    fresh: FreshRow,
    own: HeldRow,
) -> Result<(), RunFault>
    ensures { OnOk result (text.new.items ≡ text.old.items ++ timed_row caches totals row fresh own) }
{
    add(text, limit_name(alloc, caches, row.limit)?.as_str())?;
    add_share(
        alloc,
        text,
        u128::from(row.finds),
        row.bytes,
        totals.asks,
        totals.bytes,
    )?;
    add_share(
        alloc,
        text,
        fresh.finds,
        fresh.bytes,
        totals.asks,
        totals.bytes,
    )?;
    add(text, held_timed(alloc, own)?.as_str())?;
    add(text, "\n")?;
    Ok(())
}

// Adds the lines of the rows.
fn add_timed_rows(
    alloc: Global,
    text: &mut Vec<u8>,
    caches: u64,
    totals: Totals,
    rows: &[CurveRow],
    fresh: &[FreshRow],
    owns: &[HeldRow],
) -> Result<(), RunFault>
    ensures { OnOk result (text.new.items ≡ text.old.items ++ timed_rows caches totals rows.now fresh.now owns.now) }
{
    let count = rows.len().min(fresh.len()).min(owns.len());
    for i in 0..count {
        add_timed_row(alloc, text, caches, totals, rows[i], fresh[i], owns[i])?;
    }
    Ok(())
}

// For how many seconds each response was fresh whose column didn't say that.
fn lifetime_line(alloc: Global, lifetime: Option<u64>) -> Result<String, AllocError>
    ensures { IfOk result (λ text. string_bytes text ≡ lifetime_text lifetime) }
{
    match lifetime {
        None => format!(in alloc; " ttl="),
        Some(lifetime) => format!(in alloc; " ttl={lifetime}"),
    }
}

// The text of a curve with moments.
pub(crate) fn timed_text_of(
    alloc: Global,
    rules: &Rules,
    part: Option<Part>,
    rows: &[CurveRow],
    fresh: &[FreshRow],
    owns: &[HeldRow],
    totals: Totals,
    entries: usize,
    lines: LineCounts,
) -> Result<Vec<u8>, RunFault>
    ensures { IfOk result (λ text. text.items ≡ timed_text rules.now part rows.now fresh.now owns.now totals entries lines) }
{
    let mut text = Vec::new(alloc);
    add(
        &mut text,
        "size,hits,hit_bytes,hit_percent,byte_hit_percent,fresh_hits,fresh_hit_bytes,fresh_hit_percent,fresh_byte_hit_percent,entries,first_eviction_at,lru_victim_used_at\n",
    )?;
    add_timed_rows(alloc, &mut text, caches_of(part), totals, rows, fresh, owns)?;
    add(&mut text, requests_line(alloc, totals, entries)?.as_str())?;
    add(
        &mut text,
        lines_line(alloc, rules.is_sample, totals, lines)?.as_str(),
    )?;
    add(&mut text, lifetime_line(alloc, rules.lifetime)?.as_str())?;
    add(&mut text, part_line(alloc, rules, part, lines)?.as_str())?;
    add(&mut text, kind_line(alloc, part, totals.odd)?.as_str())?;
    Ok(text)
}
