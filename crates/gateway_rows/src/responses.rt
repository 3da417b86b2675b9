//! What is done with a final head of the origin's.
ghost use Rattle.std.specs.Prelude.{◌≡◌};
ghost use Rattle.gateway_rows.specs.Responses.{
  response_row,
  stored_row,
  revalidate_row,
  may_store,
  is_error_that_stays,
  is_not_modified,
  is_passed,
  is_unstored,
};

use gateway_types::responses::{Heard, Keeping, ResponseVerdict, RevalidateVerdict, Revalidation};
use gateway_types::states::Fetch;

/// What is done with a final head.
pub fn response_row(heard: &Heard) -> ResponseVerdict
    ensures { result ≡ response_row heard.now }
{
    if heard.unasked {
        return ResponseVerdict::Bad;
    }
    if is_passed(heard.fetch) {
        return ResponseVerdict::RelayAndPurge;
    }
    if is_unstored(heard.fetch) {
        return ResponseVerdict::RelayUnstored;
    }
    stored_row(heard)
}

/// What is done with a final head, of what is to be stored.
fn stored_row(heard: &Heard) -> ResponseVerdict
    ensures { result ≡ stored_row heard.now }
{
    if heard.stale_answers {
        return ResponseVerdict::StaleOnError;
    }
    if heard.good && is_error_that_stays(heard.status) {
        return ResponseVerdict::Relay;
    }
    if heard.revalidates {
        return ResponseVerdict::Revalidate;
    }
    if heard.stores {
        ResponseVerdict::Store
    } else {
        ResponseVerdict::RelayAndRemove
    }
}

fn is_error_that_stays(status: u16) -> bool
    ensures { result ≡ is_error_that_stays status }
{
    status >= 400 && status != 404 && status != 410
}

fn is_passed(fetch: Fetch) -> bool
    ensures { result ≡ is_passed fetch }
{
    matches!(fetch, Fetch::Pass)
}

fn is_unstored(fetch: Fetch) -> bool
    ensures { result ≡ is_unstored fetch }
{
    matches!(fetch, Fetch::Unstored)
}

/// Whether what the rules keep is stored.
pub fn may_store(keeping: &Keeping) -> bool
    ensures { result ≡ may_store keeping.now }
{
    keeping.kept && !keeping.purged && !keeping.superseded && !keeping.too_long && !keeping.too_much
}

/// What is done with a response about what is stored.
pub fn revalidate_row(revalidation: &Revalidation) -> RevalidateVerdict
    ensures { result ≡ revalidate_row revalidation.now }
{
    let not_modified = is_not_modified(revalidation.status);
    if revalidation.other && not_modified {
        return RevalidateVerdict::Again;
    }
    match (revalidation.may_freshen, not_modified) {
        (true, true) => RevalidateVerdict::FreshenAndAnswer,
        (true, false) => RevalidateVerdict::FreshenAndRelay,
        (false, true) => RevalidateVerdict::Answer,
        (false, false) => RevalidateVerdict::Relay,
    }
}

fn is_not_modified(status: u16) -> bool
    ensures { result ≡ is_not_modified status }
{
    status == 304
}
