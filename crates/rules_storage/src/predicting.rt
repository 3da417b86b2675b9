//! What a response that isn't stored says of the next one of its key.
ghost use Rattle.std.specs.Prelude.{◌≡◌};
ghost use Rattle.rules_fields.specs.Types.{asked_of};
ghost use Rattle.rules_storage.specs.Predicting.{is_lasting, is_personal, predicts_uncacheable};

use crate::reason::Reason;
use rules_fields::lines::has_line;
use rules_fields::types::Request;

// Whether a reason is one that an origin has for each response of a page.
fn is_lasting(why: Reason) -> bool
    ensures { result ≡ is_lasting why }
{
    match why {
        Reason::NoStore | Reason::Private | Reason::VaryAny | Reason::TooManyLines => true,
        _ => false,
    }
}

// Whether a request says who asks.
fn is_personal(request: &Request<'_>) -> bool
    ensures { result ≡ is_personal (asked_of request.now) }
{
    has_line(request.lines, b"authorization") || has_line(request.lines, b"cookie")
}

/// Whether the next response of the request's key won't be stored either, as this one isn't, for this reason: it isn't worth waiting for.
pub fn predicts_uncacheable(why: Reason, request: &Request<'_>) -> bool
    ensures { result ≡ predicts_uncacheable why (asked_of request.now) }
{
    is_lasting(why) && !is_personal(request)
}
