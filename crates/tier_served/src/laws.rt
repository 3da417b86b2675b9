//! Laws of served requests. The functions do nothing: their contracts are the laws.
ghost use Rattle.std.specs.Prelude.{◌≡◌};
ghost use Rattle.tier_model.specs.Shelf.{Look};
ghost use Rattle.tier_model.specs.State.{State};
ghost use Rattle.tier_model.specs.Past.{HasAPast};
ghost use Rattle.tier_served.specs.Leaves.{came_and_went};

/// In a state that some history led to, a look-up whose request has ended left bodies, writes in flight and their readers as they were.
pub fn look_ups_leave_the_shelf()
    ensures { (s : State) (l : Look) → HasAPast s → came_and_went l s.shelf ≡ s.shelf }
{}
