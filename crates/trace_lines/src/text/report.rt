//! The line of the report.
ghost use Rattle.std.specs.Prelude.{◌≡◌, ◌++◌, ◌∷◌, [], codes, decimal, IfOk, OnOk, OnErr, string_bytes};
ghost use Rattle.trace_lines.specs.Texts.{look_ups_text, bodies_text, entries_text, external_text, report_text};

use super::add_line;
use std::alloc::{AllocError, Global};
use tier_model::report::Report;

/// Adds the last line: what the tier did and holds.
pub fn add_report_line(alloc: Global, out: &mut Vec<u8>, report: &Report) -> Result<(), AllocError>
    ensures ok { OnOk result (out.new.items ≡ out.old.items ++ (report_text report.now ++ 10 ∷ [])) }
    ensures err { OnErr result (out.new.items ≡ out.old.items) }
{
    let look_ups = look_ups(alloc, report)?;
    let bodies = bodies(alloc, report)?;
    let entries = entries(alloc, report)?;
    let outside = outside(alloc, report.external)?;
    let text = format!(in alloc; "report {look_ups} {bodies} {entries}{outside}")?;
    add_line(out, text.as_str())
}

fn look_ups(alloc: Global, report: &Report) -> Result<String, AllocError>
    ensures { IfOk result (λ text. string_bytes text ≡ look_ups_text report.now) }
{
    let Report { found, absent, .. } = *report;
    format!(in alloc; "found={found} absent={absent}")
}

fn bodies(alloc: Global, report: &Report) -> Result<String, AllocError>
    ensures { IfOk result (λ text. string_bytes text ≡ bodies_text report.now) }
{
    let Report {
        bodies,
        bytes,
        meta,
        ..
    } = *report;
    format!(in alloc; "bodies={bodies} bytes={bytes} meta={meta}")
}

fn entries(alloc: Global, report: &Report) -> Result<String, AllocError>
    ensures { IfOk result (λ text. string_bytes text ≡ entries_text report.now) }
{
    let Report {
        tracked,
        weight,
        evicted,
        ..
    } = *report;
    format!(in alloc; "tracked={tracked} weight={weight} evicted={evicted}")
}

// What bodies have outside is written only where they have something.
fn outside(alloc: Global, external: u64) -> Result<String, AllocError>
    ensures { IfOk result (λ text. string_bytes text ≡ external_text external) }
{
    if external == 0 {
        return Ok(String::new(alloc));
    }
    format!(in alloc; " external={external}")
}
