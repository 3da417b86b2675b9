//! Writing what was found.
ghost use Rattle.std.specs.Prelude.{◌≡◌, IfOk, OnOk};
ghost use Rattle.std.specs.Io.KnownBytes.{Appends};
ghost use Rattle.curve_lines.specs.PartTexts.{lines_of, text_by, found_text};
ghost use Rattle.curve_lines.specs.ColumnLines.{is_timed};

use crate::fault::RunFault;
use crate::format::Rules;
use crate::mark_text::add_marks;
use crate::read::Found;
use crate::text::{LineCounts, caches_of, text_of};
use crate::timed_text::timed_text_of;
use curve_keys::PartReading;
use std::alloc::Global;
use std::io::Write;

// How many lines there are, beside a part.
fn lines_of(found: &Found, part: &PartReading) -> LineCounts
    ensures { result ≡ lines_of found.now part.now }
{
    LineCounts {
        wrong: found.wrong,
        unweighed: part.reading.unweighed,
        others: found.readings.others,
        read: found.read,
        asked: found.readings.asked,
        said: found.readings.said,
        repeated: part.reading.curve.repeats().keys,
        repeated_bytes: part.reading.curve.repeats().bytes,
    }
}

// The text of what was found of a part.
fn part_text(
    alloc: Global,
    rules: &Rules,
    found: &Found,
    part: &PartReading,
) -> Result<Vec<u8>, RunFault>
    ensures { IfOk result (λ text. text.items ≡ text_by (is_timed rules.now.lifetime rules.now.columns) rules.now found.now part.now) }
{
    let curve = part.reading.curve.curve();
    let rows = curve.rows(alloc)?;
    if rules.is_timed() {
        let mut text = timed_text_of(
            alloc,
            rules,
            part.part,
            rows.as_slice(),
            part.fresh.as_slice(),
            part.held.as_slice(),
            curve.totals(),
            curve.entries(),
            lines_of(found, part),
        )?;
        add_marks(
            alloc,
            &mut text,
            rules.by,
            caches_of(part.part),
            part.reading.curve.marks(),
        )?;
        return Ok(text);
    }
    let text = text_of(
        alloc,
        rules,
        part.part,
        rows.as_slice(),
        part.held.as_slice(),
        curve.totals(),
        curve.entries(),
        lines_of(found, part),
    )?;
    Ok(text)
}

// The text of what was found, one part after another.
fn found_text(alloc: Global, rules: &Rules, found: &Found) -> Result<Vec<u8>, RunFault>
    ensures { IfOk result (λ text. text.items ≡ found_text rules.now found.now) }
{
    let mut text = Vec::new(alloc);
    for part in &found.readings.parts {
        let more = part_text(alloc, rules, found, part)?;
        text.extend_from_slice(more.as_slice())?;
    }
    Ok(text)
}

/// Writes what was found by these rules, one part after another: a head, a line for each limit, the totals, and a last line that says
/// whether the rows are exact. Of a part of the keys the limits are those of the caches of all parts together.
pub fn report<W: Write>(
    alloc: Global,
    writer: &mut W,
    rules: &Rules,
    found: &Found,
) -> Result<(), RunFault>
    ensures { OnOk result (Appends (W.contents writer.old) (W.contents writer.new) (found_text rules.now found.now)) }
{
    let text = found_text(alloc, rules, found)?;
    writer.write_all(text.as_slice())?;
    writer.flush()?;
    Ok(())
}
