//! A response that was read.
ghost use Rattle.std.specs.Prelude.{◌≡◌};
ghost use Rattle.rules_fields.specs.Fields.{fields};
ghost use Rattle.rules_fields.specs.Types.{answered_of};
ghost use Rattle.rules_ffi_arguments.specs.Given.{Gives, NeedsNoMemory};
ghost use Rattle.rules_ffi_arguments.specs.Responses.{response_framing, bodiless, code_in, was_read, answered_by};

use crate::bad::Bad;
use crate::request::minor_in;
use crate::shapes::ResponseShape;
use rules_fields::Line;
use rules_fields::types::{Framing, Response};

// That of no body, which states a length where HEAD was sent.
fn bodiless(length: u64) -> Framing
    ensures { result ≡ bodiless length }
{
    if length == u64::MAX {
        Framing::None
    } else {
        Framing::HeadLength(length)
    }
}

fn response_framing(form: u64, length: u64) -> Result<Framing, Bad>
    ensures gives { Gives (λ f. f) result (response_framing form length) }
    ensures memory { NeedsNoMemory result }
{
    match form {
        0 => Ok(bodiless(length)),
        1 => Ok(Framing::Length(length)),
        2 => Ok(Framing::Chunked),
        3 => Ok(Framing::Close),
        _ => Err(Bad::Call),
    }
}

/// A status.
pub fn code_in(code: u64) -> Result<u16, Bad>
    ensures gives { Gives (λ n. n) result (code_in code) }
    ensures memory { NeedsNoMemory result }
{
    if code < 1000 {
        Ok(code as u16)
    } else {
        Err(Bad::Call)
    }
}

// Whether a call filled it, and read a response.
fn was_read(shape: &ResponseShape) -> bool
    ensures { result ≡ was_read shape.now }
{
    let [a, b, c] = shape.reserved;
    shape.status == 65 && a == 0 && b == 0 && c == 0
}

/// A response that was read, over its lines.
#[tactic(auto, unfolding(crate::specs::Responses::answered_by))]
pub fn response<'a>(shape: &ResponseShape, lines: &'a [Line<'a>]) -> Result<Response<'a>, Bad>
    ensures gives { Gives answered_of result (answered_by shape.now (fields lines.now)) }
    ensures memory { NeedsNoMemory result }
{
    if !was_read(shape) {
        return Err(Bad::Call);
    }
    let framing = response_framing(shape.framing, shape.length)?;
    let minor = minor_in(shape.minor)?;
    let status = code_in(shape.code)?;
    Ok(Response {
        status,
        minor,
        lines,
        framing,
    })
}
