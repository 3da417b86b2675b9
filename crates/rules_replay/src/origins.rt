//! What goes to the origin.
use crate::show;
use rules_fields::types::{Options, Request};
use rules_forward::forward::forward;
use rules_forward::send::fill;
use std::alloc::{AllocError, Global};

/// The lines of a request as they are sent on.
pub fn forwarded(
    alloc: Global,
    request: &Request<'_>,
    peer: &[u8],
    options: &Options<'_>,
    out: &mut String,
) -> Result<(), AllocError> {
    let lines = forward(alloc, request, peer, options)?;
    show::begin(out, "lines")?;
    show::add_made(out, lines.as_slice())?;
    show::end(out)
}

/// The request that fetches what may be stored.
pub fn filled(
    alloc: Global,
    request: &Request<'_>,
    options: &Options<'_>,
    out: &mut String,
) -> Result<(), AllocError> {
    let (method, lines) = fill(alloc, request, options)?;
    show::begin(out, "fill")?;
    show::add_text(out, method)?;
    show::add_lines(out, lines.as_slice())?;
    show::end(out)
}
