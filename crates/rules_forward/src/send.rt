//! What is asked of the origin (RFC 9111, 4.3.1).
ghost use Rattle.std.specs.Prelude.{◌≡◌, ◌++◌, map, option_map, IfOk, OnOk};
ghost use Rattle.rules_fields.specs.Fields.{fields};
ghost use Rattle.rules_fields.specs.Types.{asked_of, chosen, kept_of};
ghost use Rattle.rules_forward.specs.Send.{without_if, fill, tag_line, date_line, own_conditions, validate};

use rules_fields::Line;
use rules_fields::dates::date_of;
use rules_fields::lines::{first, without};
use rules_fields::tables::{CONDITIONS, RANGE_FIELDS, WHOLE_CONDITIONS};
use rules_fields::tags::tag_of;
use rules_fields::types::{Kept, Options, Request};
use std::alloc::{AllocError, Global};

fn without_if<'a>(
    alloc: Global,
    leaves: bool,
    names: &[&[u8]],
    lines: &[Line<'a>],
) -> Result<Vec<Line<'a>>, AllocError>
    ensures { IfOk result (λ kept. fields kept.items ≡ without_if leaves (map (λ n. n.now) names.now) (fields lines.now)) }
{
    if leaves {
        without(alloc, lines, names)
    } else {
        lines.to_vec(alloc)
    }
}

/// The method and the lines of the request that fetches what may be stored.
pub fn fill<'a>(
    alloc: Global,
    request: &Request<'a>,
    options: &Options<'_>,
) -> Result<(&'a [u8], Vec<Line<'a>>), AllocError>
    ensures { IfOk result (λ r. (r.0.now, fields r.1.items) ≡ fill (asked_of request.now) (chosen options.now)) }
{
    let whole = without_if(alloc, options.fills_ranges, RANGE_FIELDS, request.lines)?;
    let lines = without_if(
        alloc,
        options.fills_conditions,
        WHOLE_CONDITIONS,
        whole.as_slice(),
    )?;
    if options.fills_heads {
        return Ok((b"GET", lines));
    }
    Ok((request.method, lines))
}

fn add_tag<'a>(lines: &mut Vec<Line<'a>>, tag: Option<&'a [u8]>) -> Result<(), AllocError>
    ensures { OnOk result (fields lines.new.items ≡ fields lines.old.items ++ tag_line (option_map (λ t. t.now) tag.entry)) }
{
    if let Some(value) = tag
        && tag_of(value).is_some()
    {
        lines.push(Line {
            name: b"If-None-Match",
            value,
        })?;
    }
    Ok(())
}

fn add_date<'a>(
    alloc: Global,
    lines: &mut Vec<Line<'a>>,
    date: Option<&'a [u8]>,
) -> Result<(), AllocError>
    ensures { OnOk result (fields lines.new.items ≡ fields lines.old.items ++ date_line (option_map (λ t. t.now) date.entry)) }
{
    if let Some(value) = date
        && date_of(alloc, value)?.is_some()
    {
        lines.push(Line {
            name: b"If-Modified-Since",
            value,
        })?;
    }
    Ok(())
}

// The conditions by what is stored.
fn own_conditions<'a>(alloc: Global, kept: &Kept<'a>) -> Result<Vec<Line<'a>>, AllocError>
    ensures { IfOk result (λ own. fields own.items ≡ own_conditions (kept_of kept.now)) }
{
    let mut own = Vec::new(alloc);
    add_tag(&mut own, first(kept.lines, b"etag"))?;
    add_date(alloc, &mut own, first(kept.lines, b"last-modified"))?;
    Ok(own)
}

/// The lines of the request that asks whether what is stored still holds; `None` where it has nothing to ask by.
pub fn validate<'a>(
    alloc: Global,
    request: &Request<'a>,
    kept: &Kept<'a>,
) -> Result<Option<Vec<Line<'a>>>, AllocError>
    ensures { IfOk result (λ lines. option_map (λ v. fields v.items) lines ≡ validate (asked_of request.now) (kept_of kept.now)) }
{
    let own = own_conditions(alloc, kept)?;
    if own.is_empty() {
        return Ok(None);
    }
    let plain = without(alloc, request.lines, CONDITIONS)?;
    let mut lines = without(alloc, plain.as_slice(), &[b"range"])?;
    lines.extend_from_slice(own.as_slice())?;
    Ok(Some(lines))
}
