//! The text of what was found.
ghost use Rattle.std.specs.Prelude.{◌≡◌, ◌++◌, IfOk, OnOk, string_bytes};
ghost use Rattle.curve_lines.specs.Texts.{hundredths, percent_text, caches_of, counts_text, row_text, rows_text, requests_text, bytes_text, others_text, repeats_text, rest_text, lines_text, sample_text, part_text, kind_text, curve_text};

use crate::fault::RunFault;
use crate::format::Rules;
use crate::held_text::held;
use curve_held::HeldRow;
use curve_keys::Part;
use curve_sizes::{CurveRow, Totals};
use std::alloc::{AllocError, Global};

// How many lines or records there are: those that say nothing, that ask for a key without a weight and tell none, that are no requests,
// and all. How many requests ask in all parts of the keys, and what these say that they weigh. And how many keys are asked for more than
// once, with what they weigh.
#[derive(Clone, Copy)]
pub(crate) struct LineCounts {
    pub(crate) wrong: u64,
    pub(crate) unweighed: u64,
    pub(crate) others: u64,
    pub(crate) read: u64,
    pub(crate) asked: u64,
    pub(crate) said: u128,
    pub(crate) repeated: u64,
    pub(crate) repeated_bytes: u128,
}

// Hundredths of a percent, cut off.
pub(crate) fn hundredths(part: u128, whole: u128) -> Result<u128, RunFault>
    ensures { IfOk result (λ n. n ≡ hundredths part whole) }
{
    if whole == 0 {
        return Ok(0);
    }
    match part.checked_mul(10000) {
        None => Err(RunFault::TooMany),
        Some(scaled) => Ok(scaled / whole),
    }
}

// Hundredths of a percent as a text.
pub(crate) fn percent(alloc: Global, n: u128) -> Result<String, AllocError>
    ensures { IfOk result (λ text. string_bytes text ≡ percent_text n) }
{
    let whole = n / 100;
    let tens = n % 100 / 10;
    let ones = n % 10;
    format!(in alloc; "{whole}.{tens}{ones}")
}

// Among how many caches keys are dealt.
pub(crate) fn caches_of(part: Option<Part>) -> u64
    ensures { result ≡ caches_of part }
{
    match part {
        None => 1,
        Some(part) => part.of(),
    }
}

// The numbers of a row, whose limit is that of all the caches together.
fn counts(alloc: Global, caches: u64, row: CurveRow) -> Result<String, AllocError>
    ensures { IfOk result (λ text. string_bytes text ≡ counts_text caches row) }
{
    let limit = u128::from(row.limit) * u128::from(caches);
    let finds = row.finds;
    let bytes = row.bytes;
    format!(in alloc; "{limit},{finds},{bytes},")
}

// Adds a text.
pub(crate) fn add(text: &mut Vec<u8>, more: &str) -> Result<(), AllocError>
    ensures { OnOk result (text.new.items ≡ text.old.items ++ more.now) }
{
    text.extend_from_slice(more.as_bytes())?;
    Ok(())
}

// Adds the line of a row.
fn add_row(
    alloc: Global,
    text: &mut Vec<u8>,
    caches: u64,
    row: CurveRow,
    own: HeldRow,
    totals: Totals,
) -> Result<(), RunFault>
    ensures { OnOk result (text.new.items ≡ text.old.items ++ row_text caches totals.asks totals.bytes row own) }
{
    let a = hundredths(u128::from(row.finds), u128::from(totals.asks))?;
    let b = hundredths(row.bytes, totals.bytes)?;
    add(text, counts(alloc, caches, row)?.as_str())?;
    add(text, percent(alloc, a)?.as_str())?;
    add(text, ",")?;
    add(text, percent(alloc, b)?.as_str())?;
    add(text, held(alloc, own)?.as_str())?;
    add(text, "\n")?;
    Ok(())
}

// Adds the lines of the rows.
fn add_rows(
    alloc: Global,
    text: &mut Vec<u8>,
    caches: u64,
    rows: &[CurveRow],
    owns: &[HeldRow],
    totals: Totals,
) -> Result<(), RunFault>
    ensures { OnOk result (text.new.items ≡ text.old.items ++ rows_text caches totals.asks totals.bytes rows.now owns.now) }
{
    let count = rows.len().min(owns.len());
    for i in 0..count {
        add_row(alloc, text, caches, rows[i], owns[i], totals)?;
    }
    Ok(())
}

// How many requests, entries and removals there were.
pub(crate) fn requests_line(
    alloc: Global,
    totals: Totals,
    entries: usize,
) -> Result<String, AllocError>
    ensures { IfOk result (λ text. string_bytes text ≡ requests_text totals entries) }
{
    let asks = totals.asks;
    let removed = totals.removed;
    format!(in alloc; "# format=1 requests={asks} unique_keys={entries} deletes={removed}")
}

// How many bytes were asked for; of a sample by the requests themselves too.
fn bytes_line(alloc: Global, is_sample: bool, totals: Totals) -> Result<String, AllocError>
    ensures { IfOk result (λ text. string_bytes text ≡ bytes_text is_sample totals) }
{
    let bytes = totals.bytes;
    let said = totals.said;
    if is_sample {
        return format!(in alloc; "{bytes} stated_bytes={said}");
    }
    format!(in alloc; "{bytes}")
}

// How many lines asked without a weight, and how many were no requests, where there are any.
fn others_line(alloc: Global, unweighed: u64, others: u64) -> Result<String, AllocError>
    ensures { IfOk result (λ text. string_bytes text ≡ others_text unweighed others) }
{
    if unweighed == 0 {
        if others == 0 {
            return Ok(String::new(alloc));
        }
        return format!(in alloc; " other_ops={others}");
    }
    if others == 0 {
        return format!(in alloc; " requests_without_size={unweighed}");
    }
    format!(in alloc; " requests_without_size={unweighed} other_ops={others}")
}

// How many keys were asked for more than once, and what they weigh.
fn repeats_line(alloc: Global, lines: LineCounts) -> Result<String, AllocError>
    ensures { IfOk result (λ text. string_bytes text ≡ repeats_text lines) }
{
    let keys = lines.repeated;
    let bytes = lines.repeated_bytes;
    format!(in alloc; " repeated_keys={keys} repeated_key_bytes={bytes}")
}

// Both, one after the other.
fn others_and_repeats(alloc: Global, lines: LineCounts) -> Result<String, AllocError>
    ensures { IfOk result (λ text. string_bytes text ≡ rest_text lines) }
{
    let others = others_line(alloc, lines.unweighed, lines.others)?;
    let repeats = repeats_line(alloc, lines)?;
    format!(in alloc; "{others}{repeats}")
}

// What was odd, how many bytes were asked for, and how many keys came again.
pub(crate) fn lines_line(
    alloc: Global,
    is_sample: bool,
    totals: Totals,
    counts: LineCounts,
) -> Result<String, AllocError>
    ensures { IfOk result (λ text. string_bytes text ≡ lines_text is_sample totals counts) }
{
    let odd = totals.odd;
    let wrong = counts.wrong;
    let bytes = bytes_line(alloc, is_sample, totals)?;
    let others = others_and_repeats(alloc, counts)?;
    format!(in alloc; " size_changes={odd} skipped_lines={wrong} request_bytes={bytes}{others}")
}

// How many requests all parts of the keys have, beside a sample of them.
fn sample_line(alloc: Global, is_sample: bool, lines: LineCounts) -> Result<String, AllocError>
    ensures { IfOk result (λ text. string_bytes text ≡ sample_text is_sample lines) }
{
    let asked = lines.asked;
    let said = lines.said;
    if is_sample {
        return format!(in alloc; " total_requests={asked} total_bytes={said}\n");
    }
    format!(in alloc; "\n")
}

// How many lines or records were read, and which part of the keys it is.
pub(crate) fn part_line(
    alloc: Global,
    rules: &Rules,
    part: Option<Part>,
    lines: LineCounts,
) -> Result<String, AllocError>
    ensures { IfOk result (λ text. string_bytes text ≡ part_text rules.now lines part) }
{
    let read = lines.read;
    let Some(part) = part else {
        return format!(in alloc; " lines_read={read}\n");
    };
    let index = part.index();
    let of = part.of();
    let overhead = rules.overhead;
    let sample = sample_line(alloc, rules.is_sample, lines)?;
    format!(in alloc; " part={index}/{of} entry_overhead={overhead} lines_read={read}{sample}")
}

// The line that says what the rows are.
pub(crate) fn kind_line(alloc: Global, part: Option<Part>, odd: u64) -> Result<String, AllocError>
    ensures { IfOk result (λ text. string_bytes text ≡ kind_text part odd) }
{
    if let Some(part) = part {
        let of = part.of();
        return format!(in alloc; "# estimate: one of {of} parts of the keys\n");
    }
    if odd == 0 {
        return format!(in alloc; "# exact: one shard, each entry has one length\n");
    }
    format!(in alloc;
        "# estimate: one shard; requests by another length than their entry's first: {odd}\n"
    )
}

// The text of a curve.
pub(crate) fn text_of(
    alloc: Global,
    rules: &Rules,
    part: Option<Part>,
    rows: &[CurveRow],
    owns: &[HeldRow],
    totals: Totals,
    entries: usize,
    lines: LineCounts,
) -> Result<Vec<u8>, RunFault>
    ensures { IfOk result (λ text. text.items ≡ curve_text rules.now part rows.now owns.now totals entries lines) }
{
    let mut text = Vec::new(alloc);
    add(
        &mut text,
        "size,hits,hit_bytes,hit_percent,byte_hit_percent,entries,first_eviction_at\n",
    )?;
    add_rows(alloc, &mut text, caches_of(part), rows, owns, totals)?;
    add(&mut text, requests_line(alloc, totals, entries)?.as_str())?;
    add(
        &mut text,
        lines_line(alloc, rules.is_sample, totals, lines)?.as_str(),
    )?;
    add(&mut text, part_line(alloc, rules, part, lines)?.as_str())?;
    add(&mut text, kind_line(alloc, part, totals.odd)?.as_str())?;
    Ok(text)
}
