//! What a look-up leads to.
ghost use Rattle.std.specs.Prelude.{◌≡◌};
ghost use Rattle.gateway_rows.specs.Looks.{
  look_row,
  reuse_row,
  validation_row,
  is_asked_first,
  is_bypass,
  is_found,
  is_meanwhile,
  is_wait,
  is_whole,
  is_write,
};

use gateway_types::looks::{Found, Look, LookVerdict, Permit, Reuse};

/// What is done by what is found (RFC 9111, 4).
pub fn look_row(look: &Look) -> LookVerdict
    ensures { result ≡ look_row look.now }
{
    if is_found(look.found) && !look.too_old {
        return reuse_row(look);
    }
    if look.only_if_cached {
        return LookVerdict::Unavailable;
    }
    if look.predicted {
        return LookVerdict::Unstored;
    }
    if is_wait(look.permit) {
        return LookVerdict::Wait;
    }
    LookVerdict::Full
}

/// What is done by how what is found may answer.
pub fn reuse_row(shown: &Look) -> LookVerdict
    ensures { result ≡ reuse_row shown.now }
{
    if is_bypass(shown.reuse) {
        return if shown.only_if_cached {
            LookVerdict::Unavailable
        } else {
            LookVerdict::Pass
        };
    }
    if is_asked_first(shown.reuse) {
        return validation_row(shown);
    }
    if !is_whole(shown.found) {
        return LookVerdict::Collapse;
    }
    if is_meanwhile(shown.reuse) && is_write(shown.permit) {
        LookVerdict::HitAndValidate
    } else {
        LookVerdict::Hit
    }
}

/// What is done about what the origin must be asked of first.
fn validation_row(stale: &Look) -> LookVerdict
    ensures { result ≡ validation_row stale.now }
{
    if stale.only_if_cached {
        return LookVerdict::Unavailable;
    }
    if stale.fresh && !stale.past {
        return LookVerdict::LookPast;
    }
    if is_wait(stale.permit) {
        return LookVerdict::Wait;
    }
    if is_whole(stale.found) {
        LookVerdict::Conditional
    } else {
        LookVerdict::Full
    }
}

fn is_found(found: Found) -> bool
    ensures { result ≡ is_found found }
{
    !matches!(found, Found::Nothing)
}

fn is_whole(found: Found) -> bool
    ensures { result ≡ is_whole found }
{
    matches!(found, Found::Whole)
}

fn is_bypass(reuse: Reuse) -> bool
    ensures { result ≡ is_bypass reuse }
{
    matches!(reuse, Reuse::Bypass)
}

fn is_meanwhile(reuse: Reuse) -> bool
    ensures { result ≡ is_meanwhile reuse }
{
    matches!(reuse, Reuse::WhileRevalidating)
}

fn is_asked_first(reuse: Reuse) -> bool
    ensures { result ≡ is_asked_first reuse }
{
    matches!(reuse, Reuse::AfterValidation)
}

fn is_wait(permit: Permit) -> bool
    ensures { result ≡ is_wait permit }
{
    matches!(permit, Permit::Wait)
}

fn is_write(permit: Permit) -> bool
    ensures { result ≡ is_write permit }
{
    matches!(permit, Permit::Write)
}
