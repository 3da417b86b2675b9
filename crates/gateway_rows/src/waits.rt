//! How a wait for another's fetch ends.
ghost use Rattle.std.specs.Prelude.{◌≡◌};
ghost use Rattle.gateway_rows.specs.Waits.{wait_row, share_row, ends_alone, is_told, answers_itself, is_stale};

use gateway_types::looks::{LookVerdict, Reuse};
use gateway_types::waits::{Ended, ShareVerdict, Sharing, WaitVerdict, Waiting};

/// What becomes of a wait.
pub fn wait_row(waiting: &Waiting) -> WaitVerdict
    ensures { result ≡ wait_row waiting.now }
{
    if waiting.shares {
        return WaitVerdict::Share;
    }
    if waiting.over {
        return WaitVerdict::Alone;
    }
    if waiting.moved {
        return WaitVerdict::Again;
    }
    if waiting.refused || ends_alone(waiting.ended) {
        return WaitVerdict::Alone;
    }
    if is_told(waiting.ended) {
        WaitVerdict::Again
    } else {
        WaitVerdict::Wait
    }
}

fn ends_alone(ended: Option<Ended>) -> bool
    ensures { result ≡ ends_alone ended }
{
    matches!(ended, Some(Ended::GiveUp | Ended::WaitTimeout))
}

fn is_told(ended: Option<Ended>) -> bool
    ensures { result ≡ is_told ended }
{
    ended.is_some()
}

/// What is done for who waited for a fetch that failed, by what it finds itself.
pub fn share_row(sharing: &Sharing) -> ShareVerdict
    ensures { result ≡ share_row sharing.now }
{
    if answers_itself(sharing.look) {
        return ShareVerdict::AsFound;
    }
    if sharing.stale_answers && is_stale(sharing.reuse) {
        return ShareVerdict::StaleOnError;
    }
    if sharing.is_response {
        ShareVerdict::Alone
    } else {
        ShareVerdict::Generated
    }
}

fn answers_itself(look: LookVerdict) -> bool
    ensures { result ≡ answers_itself look }
{
    matches!(
        look,
        LookVerdict::Hit | LookVerdict::Collapse | LookVerdict::Pass | LookVerdict::Unavailable
    )
}

fn is_stale(reuse: Reuse) -> bool
    ensures { result ≡ is_stale reuse }
{
    matches!(reuse, Reuse::AfterValidation | Reuse::WhileRevalidating)
}
