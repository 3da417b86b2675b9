//! A request that was read.
ghost use Rattle.std.specs.Prelude.{◌≡◌};
ghost use Rattle.rules_fields.specs.Fields.{fields};
ghost use Rattle.rules_fields.specs.Types.{asked_of};
ghost use Rattle.rules_ffi_arguments.specs.Given.{Gives, NeedsNoMemory};
ghost use Rattle.rules_ffi_arguments.specs.Requests.{request_framing, minor_in, was_read, filled, asked_by};

use crate::bad::Bad;
use crate::options::has_mark;
use crate::shapes::RequestShape;
use crate::spans::text_in;
use rules_fields::Line;
use rules_fields::types::{Framing, Request};

fn request_framing(form: u64, length: u64) -> Result<Framing, Bad>
    ensures gives { Gives (λ f. f) result (request_framing form length) }
    ensures memory { NeedsNoMemory result }
{
    match form {
        0 => Ok(Framing::None),
        1 => Ok(Framing::Length(length)),
        2 => Ok(Framing::Chunked),
        _ => Err(Bad::Call),
    }
}

/// A minor version of HTTP/1.
pub fn minor_in(minor: u64) -> Result<u8, Bad>
    ensures gives { Gives (λ n. n) result (minor_in minor) }
    ensures memory { NeedsNoMemory result }
{
    match minor {
        0 => Ok(0),
        1 => Ok(1),
        _ => Err(Bad::Call),
    }
}

// Whether a call filled it, and read a request: `asked` begins where `lines` ends, and is the last. In a struct whose last words were zeroed it would
// say that a request has no condition and no Authorization.
fn was_read(shape: &RequestShape) -> bool
    ensures { result ≡ was_read shape.now }
{
    shape.status == 65 && shape.asked.from == shape.lines.to && shape.asked.to == shape.whole.to
}

/// A struct of a request that was read.
pub fn filled(shape: &RequestShape) -> Result<&RequestShape, Bad>
    ensures gives { Gives (λ s. s.now) result (filled shape.now) }
    ensures memory { NeedsNoMemory result }
{
    if was_read(shape) {
        Ok(shape)
    } else {
        Err(Bad::Call)
    }
}

/// A request that was read, over its lines.
#[tactic(auto, unfolding(crate::specs::Requests::asked_by))]
pub fn request<'a>(
    shape: &RequestShape,
    text: &'a [u8],
    lines: &'a [Line<'a>],
    scheme: &'a [u8],
) -> Result<Request<'a>, Bad>
    ensures gives { Gives asked_of result (asked_by shape.now text.now (fields lines.now) scheme.now) }
    ensures memory { NeedsNoMemory result }
{
    if !was_read(shape) {
        return Err(Bad::Call);
    }
    let framing = request_framing(shape.framing, shape.length)?;
    let minor = minor_in(shape.minor)?;
    let method = text_in(text, shape.method)?;
    let host = text_in(text, shape.host)?;
    let target = text_in(text, shape.target)?;
    Ok(Request {
        method,
        scheme,
        host,
        target,
        minor,
        lines,
        framing,
        takes_trailers: has_mark(shape.marks, 2),
    })
}
