//! Laws over definitions alone. The functions do nothing: their contracts are the laws.
ghost use Rattle.std.specs.Prelude.{◌≡◌, ◌↔◌, List, ℕ, Bool, None};
ghost use Rattle.cache_words.specs.Time.{DurationValue, MomentValue};
ghost use Rattle.cache_lock.specs.Changes.{Changes};
ghost use Rattle.cache_lock.specs.Answers.{to_wait_for, given_back, IsAsBefore};
ghost use Rattle.cache_lock.specs.State.{LockState, IsSound};
ghost use Rattle.cache_lock.specs.Waits.{Waits, IsOrderly, IsStateOf, state_of};

/// The state that orderly changes leave is what the changes say.
pub fn the_state_is_what_changes_say()
    ensures { (age : DurationValue) (changes : Changes) → IsOrderly changes → IsStateOf (state_of age changes) changes }
{}

/// A permit of a key is given exactly where none waits. A permit waits from when it is given until it is released, dropped or found
/// past its age by a poll.
pub fn a_permit_is_given_when_none_waits()
    ensures { (age : DurationValue) (changes : Changes) → IsOrderly changes → (key : List ℕ) → (to_wait_for key (state_of age changes) ≡ None) ↔ (Waits key changes → ⊥) }
{}

/// After a lock that is given and left at once, each core, whom each key waits for and how each wait ends are as before.
pub fn given_back()
    ensures { (s : LockState) → IsSound s → (key : List ℕ) (stale : Bool) (moment : MomentValue) → IsAsBefore (given_back key stale moment s) s }
{}

/// A state that is as before is still what the changes before it say.
pub fn a_state_as_before_is_still_of_its_changes()
    ensures { (new : LockState) (old : LockState) (changes : Changes) → IsAsBefore new old → IsStateOf old changes → IsStateOf new changes }
{}
