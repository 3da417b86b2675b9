//! The head as it is stored.
ghost use Rattle.std.specs.Prelude.{◌≡◌, IfOk};
ghost use Rattle.rules_fields.specs.Fields.{fields};
ghost use Rattle.rules_fields.specs.Texts.{small};
ghost use Rattle.rules_fields.specs.Meaning.{meanings};
ghost use Rattle.rules_fields.specs.Says.{said};
ghost use Rattle.rules_fields.specs.Types.{answered_of, chosen};
ghost use Rattle.rules_storage.specs.Judge.{is_listed, stays, stored_lines, kept_from, has_validator, opens_authorized};
ghost use Rattle.rules_storage.specs.Kept.{stored_head};

use crate::age::arrival;
use crate::kept::Stored;
use crate::lifetime::{lifetime, window};
use rules_fields::Line;
use rules_fields::asking::{has, lists_field};
use rules_fields::blanks::is_small;
use rules_fields::dates::date_of;
use rules_fields::directive::Directive;
use rules_fields::lines::first;
use rules_fields::says::Says;
use rules_fields::tables::{among, is_needed};
use rules_fields::tags::tag_of;
use rules_fields::types::{Options, Response};
use std::alloc::{AllocError, Global};

fn is_listed(ds: &[Directive<'_>], name: &[u8]) -> bool
    ensures { result ≡ is_listed (meanings ds.now) (small name.now) }
{
    lists_field(ds, b"private", name) || lists_field(ds, b"no-cache", name)
}

// Whether a line of a name is stored.
fn stays(ds: &[Directive<'_>], options: &Options<'_>, name: &[u8]) -> bool
    ensures { result ≡ stays (meanings ds.now) (chosen options.now) (small name.now) }
{
    let goes = is_listed(ds, name) && !is_needed(name);
    !(goes
        || is_small(name, b"age")
        || is_small(name, b"trailer")
        || among(options.response_drops, name))
}

/// The lines that are stored.
pub fn stored_lines<'a>(
    alloc: Global,
    ds: &[Directive<'_>],
    options: &Options<'_>,
    lines: &[Line<'a>],
) -> Result<Vec<Line<'a>>, AllocError>
    ensures { IfOk result (λ kept. fields kept.items ≡ stored_lines (meanings ds.now) (chosen options.now) (fields lines.now)) }
{
    let mut kept = Vec::with_capacity(alloc, lines.len())?;
    for line in lines {
        if stays(ds, options, line.name) {
            kept.push(*line)?;
        }
    }
    Ok(kept)
}

/// What would be stored.
#[tactic(auto, unfolding(crate::specs::Judge::kept_from))]
pub fn kept_from<'a>(
    alloc: Global,
    says: &Says<'_>,
    response: &Response<'a>,
    asked: u64,
    came: u64,
    options: &Options<'_>,
) -> Result<Stored<'a>, AllocError>
    ensures { IfOk result (λ kept. stored_head kept ≡ kept_from (said says.now) (answered_of response.now) asked came (chosen options.now)) }
{
    Ok(Stored {
        status: response.status,
        lines: stored_lines(alloc, says.directives.as_slice(), options, response.lines)?,
        length: response.framing.stated(),
        arrival: arrival(alloc, response.lines, asked, came, options)?,
        lifetime: lifetime(alloc, says, response.status, response.lines, came, options)?,
        stale_while_revalidate: window(
            says,
            b"stale-while-revalidate",
            options.stale_while_revalidate,
            options,
        ),
        stale_if_error: window(says, b"stale-if-error", options.stale_if_error, options),
    })
}

/// Whether there is an entity tag or a Last-Modified to validate by.
pub fn has_validator(alloc: Global, lines: &[Line<'_>]) -> Result<bool, AllocError>
    ensures { IfOk result (λ there. there ≡ has_validator (fields lines.now)) }
{
    if let Some(text) = first(lines, b"etag")
        && tag_of(text).is_some()
    {
        return Ok(true);
    }
    match first(lines, b"last-modified") {
        Some(text) => Ok(date_of(alloc, text)?.is_some()),
        None => Ok(false),
    }
}

/// Whether a response to a request with Authorization may be stored and used (RFC 9111, 3.5).
pub fn opens_authorized(says: &Says<'_>) -> bool
    ensures { result ≡ opens_authorized (said says.now) }
{
    let ds = says.directives.as_slice();
    has(ds, b"public") || has(ds, b"s-maxage") || has(ds, b"must-revalidate")
}
