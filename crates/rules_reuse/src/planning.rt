//! What a request asks of a cache.
ghost use Rattle.std.specs.Prelude.{◌≡◌, ◌||◌, IfOk, bytes_eq, codes};
ghost use Rattle.rules_fields.specs.Fields.{fields};
ghost use Rattle.rules_fields.specs.Meaning.{meanings};
ghost use Rattle.rules_fields.specs.Rows.{first_true};
ghost use Rattle.rules_fields.specs.Types.{asked_of, chosen};
ghost use Rattle.rules_reuse.specs.Planning.{passing, plan_of, asked_directives, reloads, has_content, is_last_forward, is_reload, only_if_cached};

use rules_fields::Line;
use rules_fields::asking::has;
use rules_fields::directive::Directive;
use rules_fields::lines::{first, has_line, lists};
use rules_fields::number::digits;
use rules_fields::reading::directives;
use rules_fields::types::{Framing, Options, Request};
use std::alloc::{AllocError, Global};

/// Why a request passes the cache: it is neither answered from what is stored, nor is what it brings stored.
#[derive(Clone, Copy, Debug, PartialEq, Eq)]
pub enum Why {
    /// Its method is neither GET nor HEAD, byte for byte.
    Method,
    /// It has content.
    Content,
    /// It has If-Match or If-Unmodified-Since, which the origin judges (RFC 9111, 4.3.2).
    Precondition,
    /// It has no-store.
    NoStore,
}

/// What a request asks of a cache.
#[derive(Clone, Copy, Debug, PartialEq, Eq)]
pub enum Plan {
    /// What is stored is looked up.
    Look,
    /// It passes the cache.
    Pass(Why),
    /// It was to go no further than here: it is answered by this status.
    LastForward(u16),
    /// It would pass, and only what is stored may answer it: 504.
    OnlyIfCached,
}

/// What a request asks of a cache.
pub fn plan_of(
    alloc: Global,
    request: &Request<'_>,
    options: &Options<'_>,
) -> Result<Plan, AllocError>
    ensures { IfOk result (λ p. p ≡ plan_of (asked_of request.now) (chosen options.now)) }
{
    if is_last_forward(request) {
        let status = if request.method == b"OPTIONS".as_slice() {
            204
        } else {
            501
        };
        return Ok(Plan::LastForward(status));
    }
    let ds = asked_directives(alloc, request, options)?;
    Ok(match why_passing(request, ds.as_slice()) {
        None => Plan::Look,
        Some(why) => {
            if has(ds.as_slice(), b"only-if-cached") {
                Plan::OnlyIfCached
            } else {
                Plan::Pass(why)
            }
        }
    })
}

// Why a request with these directives passes.
fn why_passing(request: &Request<'_>, ds: &[Directive<'_>]) -> Option<Why>
    ensures { result ≡ first_true (passing (asked_of request.now) (meanings ds.now)) }
{
    if !is_read(request.method) {
        return Some(Why::Method);
    }
    if has_content(request.framing) {
        return Some(Why::Content);
    }
    if has_line(request.lines, b"if-match") || has_line(request.lines, b"if-unmodified-since") {
        return Some(Why::Precondition);
    }
    if has(ds, b"no-store") {
        return Some(Why::NoStore);
    }
    None
}

fn is_read(method: &[u8]) -> bool
    ensures { result ≡ (bytes_eq method.now (codes "GET") || bytes_eq method.now (codes "HEAD")) }
{
    method == b"GET".as_slice() || method == b"HEAD".as_slice()
}

fn has_content(framing: Framing) -> bool
    ensures { result ≡ has_content framing }
{
    match framing {
        Framing::None => false,
        Framing::Length(n) => n != 0,
        _ => true,
    }
}

fn is_last_forward(request: &Request<'_>) -> bool
    ensures { result ≡ is_last_forward (asked_of request.now) }
{
    let counts = request.method == b"TRACE".as_slice() || request.method == b"OPTIONS".as_slice();
    if !counts {
        return false;
    }
    match first(request.lines, b"max-forwards") {
        None => false,
        Some(text) => digits(text) == Some(0),
    }
}

/// The directives of a request, where such count.
pub fn asked_directives<'a>(
    alloc: Global,
    request: &Request<'a>,
    options: &Options<'_>,
) -> Result<Vec<Directive<'a>>, AllocError>
    ensures { IfOk result (λ ds. meanings ds.items ≡ asked_directives (asked_of request.now) (chosen options.now)) }
{
    if options.heeds_requests {
        directives(alloc, request.lines, b"cache-control")
    } else {
        Ok(Vec::new(alloc))
    }
}

/// Whether directives and lines want what is stored validated: by no-cache, or by Pragma without Cache-Control (RFC 9111, 5.2.1.4, 5.4).
pub fn reloads(ds: &[Directive<'_>], lines: &[Line<'_>]) -> bool
    ensures { result ≡ reloads (meanings ds.now) (fields lines.now) }
{
    has(ds, b"no-cache") || ds.is_empty() && lists(lines, b"pragma", b"no-cache")
}

/// Whether a request wants what is stored validated.
pub fn is_reload(
    alloc: Global,
    request: &Request<'_>,
    options: &Options<'_>,
) -> Result<bool, AllocError>
    ensures { IfOk result (λ b. b ≡ is_reload (asked_of request.now) (chosen options.now)) }
{
    if !options.heeds_requests {
        return Ok(false);
    }
    let ds = asked_directives(alloc, request, options)?;
    Ok(reloads(ds.as_slice(), request.lines))
}

/// Whether 504 is the answer where nothing may be used (RFC 9111, 5.2.1.7).
pub fn only_if_cached(
    alloc: Global,
    request: &Request<'_>,
    options: &Options<'_>,
) -> Result<bool, AllocError>
    ensures { IfOk result (λ b. b ≡ only_if_cached (asked_of request.now) (chosen options.now)) }
{
    let ds = asked_directives(alloc, request, options)?;
    Ok(has(ds.as_slice(), b"only-if-cached"))
}
