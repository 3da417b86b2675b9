//! The boundary between several parts of a body.
ghost use Rattle.std.specs.Prelude.{◌≡◌, IfOk, string_bytes, option_map};
ghost use Rattle.rules_fields.specs.Types.{asked_of, chosen};
ghost use Rattle.rules_serving.specs.Boundary.{bytes_of, message, boundary_of, boundary_in};

use cache_words::key::hash_key;
use hex::FromHexError;
use rules_fields::lines::has_line;
use rules_fields::types::{Options, Request};
use rules_reuse::keys::key;
use std::alloc::{AllocError, Global};

// The nanoseconds of a second.
const SECOND: u64 = 1_000_000_000;

/// The boundary of the parts that a request with a Range is answered by at a moment; none without a secret.
pub fn boundary_in(
    alloc: Global,
    request: &Request<'_>,
    now: u64,
    options: &Options<'_>,
) -> Result<Option<String>, AllocError>
    ensures { IfOk result (λ b. option_map string_bytes b ≡ boundary_in (asked_of request.now) now (chosen options.now)) }
{
    if options.secret.is_empty() || !has_line(request.lines, b"range") {
        return Ok(None);
    }
    Ok(Some(boundary_of(alloc, request, now, options)?))
}

#[tactic(auto, unfolding(crate::specs::Boundary::boundary_of))]
fn boundary_of(
    alloc: Global,
    request: &Request<'_>,
    now: u64,
    options: &Options<'_>,
) -> Result<String, AllocError>
    ensures { IfOk result (λ b. string_bytes b ≡ boundary_of (asked_of request.now) now (chosen options.now)) }
{
    let message = message(alloc, request, now, options)?;
    hex::encode(alloc, hash_key(message.as_slice()))
}

fn message(
    alloc: Global,
    request: &Request<'_>,
    now: u64,
    options: &Options<'_>,
) -> Result<Vec<u8>, AllocError>
    ensures { IfOk result (λ m. m.items ≡ message (asked_of request.now) now (chosen options.now)) }
{
    let mut message = bytes_of(alloc, options.secret)?;
    message.extend_from_slice(&(now / SECOND).to_be_bytes())?;
    message.extend_from_slice(&(now % SECOND).to_be_bytes())?;
    let key = key(alloc, request, options)?;
    message.extend_from_slice(key.as_slice())?;
    Ok(message)
}

// The bytes that hexadecimal digits say.
fn bytes_of(alloc: Global, digits: &[u8]) -> Result<Vec<u8>, AllocError>
    ensures { IfOk result (λ b. b.items ≡ bytes_of digits.now) }
{
    match hex::decode(alloc, digits) {
        Ok(bytes) => Ok(bytes),
        Err(FromHexError::OutOfMemory) => Err(AllocError),
        Err(_) => Ok(Vec::new(alloc)),
    }
}
