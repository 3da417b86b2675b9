//! A law over definitions alone. The function does nothing: its contract is the law.
ghost use Rattle.std.specs.Prelude.{◌≡◌, ℕ, ◌+◌, List, [], length};
ghost use Rattle.rand_core.specs.Stream.{Stream};
ghost use Rattle.tier_model.specs.Calls.{Call, extended};
ghost use Rattle.tier_model.specs.State.{State};
ghost use Rattle.tier_model.specs.Past.{HasPast};
ghost use Rattle.tier_model.specs.Started.{opening_of};
ghost use Rattle.tier_promise.specs.Promise.{Promise};
ghost use Rattle.tier_recorded.specs.Openings.{Opens};
ghost use Rattle.tier_shared.specs.Counted.{CountedState, IsCounted};

use rand_core::Rng;

/// A counted tier keeps the promise: some calls, as many as were counted, are its past and keep it together, from the opening with the rows
/// that its snapshot has in the texts.
pub fn counted_tiers_keep_the_promise<R: Rng>()
    ensures { (n : ℕ) (a : CountedState R) (s : Stream) (rest : Stream) → IsCounted n a s rest
        → (first : State) × Opens n a.opening first × ((calls : List Call) × (length calls ≡ a.calls) × HasPast (opening_of first) a.tier (extended [] calls)
        × Promise (opening_of first).settings ((opening_of first).first + (opening_of first).first_core) (opening_of first).loaded (extended [] calls)) }
{}
