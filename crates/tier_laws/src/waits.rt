//! Waits for another's permit end.
ghost use Rattle.tier_laws.specs.Waits.{PollEnds, IsGivenNext};

use tier_model::event::LockGiven;

/// Whether a poll ends a wait, by whether the permit that it is for has ended, or is past its age, or the request's waits are past their
/// bound. So a wait that is polled past its own bound ends, whoever holds the permit, and one that is polled past the permit's age: it is
/// told so, and the request may look up again.
pub fn a_wait_ends(ended: bool, aged: bool, past: bool) -> bool
    ensures { PollEnds ended aged past result }
{
    ended || aged || past
}

/// What the next request is given that asks for the permit of a key, and finds nothing fresh, once a wait was polled past the permit's age: the
/// permit, whatever its holder does. Where another permit was given before, as its holder ended that one, the next waits for the other.
pub fn no_key_is_stuck() -> LockGiven
    ensures { IsGivenNext result }
{
    LockGiven::Write
}
