//! The judgement.
ghost use Rattle.std.specs.Prelude.{◌≡◌, ◌==◌, ◌&&◌, ◌||◌, not, nat_lt, length, map, option_map, IfOk, bytes_eq, codes};
ghost use Rattle.std.specs.List.{list_any};
ghost use Rattle.rules_fields.specs.Fields.{fields, has_line};
ghost use Rattle.rules_fields.specs.Directives.{directives};
ghost use Rattle.rules_fields.specs.Asking.{has};
ghost use Rattle.rules_storage.specs.Lifetime.{is_explicit};
ghost use Rattle.rules_fields.specs.Says.{said};
ghost use Rattle.rules_fields.specs.Tables.{is_understood};
ghost use Rattle.rules_fields.specs.Types.{asked_of, answered_of, kept_of, chosen};
ghost use Rattle.rules_storage.specs.Judge.{forbids_store, is_private, is_never_stored, names, names_any, is_let_along, is_unkeyed, reason_of, first_why, refusal, judgement, has_freshness, is_usable, opens_authorized};
ghost use Rattle.rules_storage.specs.Kept.{stored_head, judged};

use crate::good::{is_error_outlasted, is_stale_outlasted, removes};
use crate::kept::{Judged, Stored};
use crate::lifetime::{forced, given, is_explicit};
use crate::reason::Reason;
use crate::selecting::counting;
use crate::stored::{has_validator, kept_from, opens_authorized};
use rules_fields::Line;
use rules_fields::asking::{alone, has};
use rules_fields::lines::{has_line, lists};
use rules_fields::reading::directives;
use rules_fields::rows::first_true;
use rules_fields::says::{Says, say_of};
use rules_fields::tables::{RANGE_FIELDS, WHOLE_CONDITIONS, is_heuristic, is_understood};
use rules_fields::types::{Kept, Options, Request, Response};
use std::alloc::{AllocError, Global};

/// Whether a response to a request is stored. `method` is the one that was sent, `found` what was found under the key that was looked up, and `code`
/// the status that came: that of the response, but of what a confirmation merged.
#[tactic(auto, unfolding(crate::specs::Judge::judgement))]
pub fn judge<'a>(
    alloc: Global,
    request: &Request<'_>,
    method: &[u8],
    response: &Response<'a>,
    asked: u64,
    came: u64,
    found: Option<&Kept<'_>>,
    code: u16,
    options: &Options<'_>,
) -> Result<Judged<'a>, AllocError>
    ensures { IfOk result (λ j. judged j ≡ judgement (asked_of request.now) method.now (answered_of response.now) asked came
        (option_map (λ k. kept_of k.now) found.entry) code (chosen options.now)) }
{
    let says = say_of(alloc, response.lines, options)?;
    let kept = kept_from(alloc, &says, response, asked, came, options)?;
    let why = reason_of(alloc, request, method, response, &says, &kept, options)?;
    match refusal(found, code, came, kept.lifetime, why) {
        Some((reason, removes)) => Ok(Judged::Refused(reason, removes)),
        None => Ok(Judged::Kept(kept)),
    }
}

// Why a response isn't stored: what was found outlasts an error, else by the table, else what was found outlasts what would be stale at once.
fn first_why(error: bool, why: Option<Reason>, stale: bool) -> Option<Reason>
    ensures { result ≡ first_why error why stale }
{
    match why {
        Some(why) => {
            if error {
                Some(Reason::StoredIsGood)
            } else {
                Some(why)
            }
        }
        None => {
            if error || stale {
                Some(Reason::StoredIsGood)
            } else {
                None
            }
        }
    }
}

// The same, and whether what was found goes; `why` is the table's reason.
fn refusal(
    found: Option<&Kept<'_>>,
    code: u16,
    came: u64,
    lifetime: u64,
    why: Option<Reason>,
) -> Option<(Reason, bool)>
    ensures { option_map (λ t. (t.0, t.1)) result ≡ refusal (option_map (λ k. kept_of k.now) found.entry) code came lifetime why }
{
    let error = is_error_outlasted(found, code, came);
    let stale = is_stale_outlasted(found, lifetime, came);
    match first_why(error, why, stale) {
        None => None,
        Some(reason) => Some((reason, removes(found, code, came, reason))),
    }
}

// Why a response isn't stored.
#[tactic(auto, unfolding(crate::specs::Judge::reason_of))]
fn reason_of(
    alloc: Global,
    request: &Request<'_>,
    method: &[u8],
    response: &Response<'_>,
    says: &Says<'_>,
    kept: &Stored<'_>,
    options: &Options<'_>,
) -> Result<Option<Reason>, AllocError>
    ensures { IfOk result (λ r. r ≡ reason_of (asked_of request.now) method.now (answered_of response.now) (said says.now) (stored_head kept.now) (chosen options.now)) }
{
    let status = response.status;
    let forbidden = request_forbids(alloc, request.lines, options)?;
    let unkeyed = is_unkeyed(alloc, response.lines, options)?;
    let usable = is_usable(alloc, kept, response.lines)?;
    let rows = [
        (Reason::Method, !is_get(method)),
        (Reason::Status, is_out_of_range(status)),
        (Reason::Partial, status == 206),
        (Reason::NotModified, status == 304),
        (Reason::NeverStore, is_never_stored(says, status, options)),
        (Reason::RequestNoStore, forbidden),
        (Reason::NotUnderstood, lacks_understanding(says, status)),
        (Reason::NoStore, forbids_store(says, options)),
        (Reason::Private, is_private(says, options)),
        (Reason::VaryAny, unkeyed),
        (Reason::Authorization, is_closed(request.lines, says)),
        (Reason::TooManyLines, has_too_many_lines(kept)),
        (Reason::SetCookie, has_cookie(kept, says, options)),
        (Reason::NoFreshness, !has_freshness(says, status, options)),
        (Reason::NeverUsable, !usable),
    ];
    Ok(first_true(&rows))
}

fn is_out_of_range(status: u16) -> bool
    ensures { result ≡ (nat_lt status 200 || nat_lt 599 status) }
{
    status < 200 || status > 599
}

fn request_forbids(
    alloc: Global,
    request: &[Line<'_>],
    options: &Options<'_>,
) -> Result<bool, AllocError>
    ensures { IfOk result (λ b. b ≡ ((chosen options.now).heeds_requests && has (codes "no-store") (directives (codes "cache-control") (fields request.now)))) }
{
    if !options.heeds_requests {
        return Ok(false);
    }
    let asked = directives(alloc, request, b"cache-control")?;
    Ok(has(asked.as_slice(), b"no-store"))
}

fn lacks_understanding(says: &Says<'_>, status: u16) -> bool
    ensures { result ≡ (has (codes "must-understand") (said says.now).directives && not (is_understood status)) }
{
    has(says.directives.as_slice(), b"must-understand") && !is_understood(status)
}

fn forbids_store(says: &Says<'_>, options: &Options<'_>) -> bool
    ensures { result ≡ forbids_store (said says.now) (chosen options.now) }
{
    let ds = says.directives.as_slice();
    has(ds, b"no-store") && !has(ds, b"must-understand") && !options.forces_private
}

fn is_private(says: &Says<'_>, options: &Options<'_>) -> bool
    ensures { result ≡ is_private (said says.now) (chosen options.now) }
{
    alone(says.directives.as_slice(), b"private") && !options.forces_private
}

// Whether a status is one that an odd request causes, and neither a targeted field nor the operator says for how long it is stored.
fn is_never_stored(says: &Says<'_>, status: u16, options: &Options<'_>) -> bool
    ensures { result ≡ is_never_stored status (said says.now) (chosen options.now) }
{
    is_among(options.never_stored, status)
        && !(says.is_targeted && is_explicit(says))
        && !given(options, status).is_some()
        && !forced(options, status).is_some()
}

fn is_among(statuses: &[u16], status: u16) -> bool
    ensures { result ≡ list_any (λ n. n == status) statuses.now }
{
    for n in statuses {
        if *n == status {
            return true;
        }
    }
    false
}

// Whether Vary names one of these.
fn names_any(names: &[&[u8]], lines: &[Line<'_>]) -> bool
    ensures { result ≡ names_any (map (λ n. n.now) names.now) (fields lines.now) }
{
    for name in names {
        if lists(lines, b"vary", name) {
            return true;
        }
    }
    false
}

// Whether it varies by a field that no key has, though the operator lets it go along with what is fetched.
fn is_let_along(lines: &[Line<'_>], options: &Options<'_>) -> bool
    ensures { result ≡ is_let_along (fields lines.now) (chosen options.now) }
{
    !options.fills_ranges && names_any(RANGE_FIELDS, lines)
        || !options.fills_conditions && names_any(WHOLE_CONDITIONS, lines)
}

// Whether it varies by what no key can tell: by more than 16 names, by anything, by a field that a proxy writes itself, or by one that goes along.
fn is_unkeyed(alloc: Global, lines: &[Line<'_>], options: &Options<'_>) -> Result<bool, AllocError>
    ensures { IfOk result (λ b. b ≡ is_unkeyed (fields lines.now) (chosen options.now)) }
{
    let names = counting(alloc, lines)?;
    Ok(names.len() > 16 || names_unkeyed(lines, options))
}

fn names_unkeyed(lines: &[Line<'_>], options: &Options<'_>) -> bool
    ensures { result ≡ (names (codes "*") (fields lines.now) || names (codes "via") (fields lines.now) || names (codes "te") (fields lines.now)
        || ((chosen options.now).forwards_for && names (codes "x-forwarded-for") (fields lines.now))
        || is_let_along (fields lines.now) (chosen options.now)) }
{
    lists(lines, b"vary", b"*")
        || lists(lines, b"vary", b"via")
        || lists(lines, b"vary", b"te")
        || options.forwards_for && lists(lines, b"vary", b"x-forwarded-for")
        || is_let_along(lines, options)
}

fn is_closed(request: &[Line<'_>], says: &Says<'_>) -> bool
    ensures { result ≡ (has_line (codes "authorization") (fields request.now) && not (opens_authorized (said says.now))) }
{
    has_line(request, b"authorization") && !opens_authorized(says)
}

fn has_too_many_lines(kept: &Stored<'_>) -> bool
    ensures { result ≡ nat_lt 256 (length (stored_head kept.now).lines) }
{
    let length = if kept.length.is_some() { 1 } else { 0 };
    kept.lines.len() > 256 - length
}

#[tactic(auto, using(crate::proofs::Clean::has_behind))]
fn has_cookie(kept: &Stored<'_>, says: &Says<'_>, options: &Options<'_>) -> bool
    ensures { result ≡ (has_line (codes "set-cookie") (stored_head kept.now).lines && not ((chosen options.now).stores_cookies && is_explicit (said says.now))) }
{
    has_line(kept.lines.as_slice(), b"set-cookie") && !(options.stores_cookies && is_explicit(says))
}

fn is_usable(alloc: Global, kept: &Stored<'_>, lines: &[Line<'_>]) -> Result<bool, AllocError>
    ensures { IfOk result (λ usable. usable ≡ is_usable (stored_head kept.now) (fields lines.now)) }
{
    if kept.lifetime != 0 || kept.stale_while_revalidate != 0 || kept.stale_if_error != 0 {
        return Ok(true);
    }
    has_validator(alloc, lines)
}

fn is_get(method: &[u8]) -> bool
    ensures { result ≡ bytes_eq method.now (codes "GET") }
{
    method == b"GET".as_slice()
}

fn has_freshness(says: &Says<'_>, status: u16, options: &Options<'_>) -> bool
    ensures { result ≡ has_freshness (said says.now) status (chosen options.now) }
{
    is_explicit(says)
        || has(says.directives.as_slice(), b"public")
        || is_heuristic(status)
        || given(options, status).is_some()
        || forced(options, status).is_some()
}
