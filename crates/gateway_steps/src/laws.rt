//! Laws of the steps. No code runs.
ghost use Rattle.std.specs.Prelude.{◌≡◌, true, false, is_some};
ghost use Rattle.gateway_steps.specs.declared.state.State.{State};
ghost use Rattle.gateway_steps.specs.Invariant.{IsExchange};
ghost use Rattle.gateway_steps.specs.Phases.{has_next, is_over, is_undecided};
ghost use Rattle.gateway_steps.specs.Runs.{IsStep, IsReached, GoesOneWay};

/// What holds of an exchange holds in each state that steps lead to.
pub fn steps_keep_what_holds()
    ensures { (s : State) → IsReached s → IsExchange s }
{}

/// The sides go one way, by each step: the client is answered once, a head is awaited before a body comes, and behind an answer nothing more is asked.
pub fn sides_go_one_way()
    ensures { (s s' : State) → IsExchange s → IsStep s s' → GoesOneWay s s' }
{}

/// What is over holds nothing at the tier: no request, no permit, no write, and others find nothing of it.
pub fn what_is_over_holds_nothing()
    ensures { (s : State) → IsExchange s → is_over s ≡ true
        → (s.tier.held ≡ false) × (is_some s.tier.permit ≡ false) × (s.tier.writes ≡ false) × (s.tier.joinable ≡ false) }
{}

/// Nobody is stuck: once it is decided what is done for its client, an exchange that isn't over goes on by the origin, by its request at the tier, or by
/// an answer that is all there.
pub fn nobody_is_stuck()
    ensures { (s : State) → IsExchange s → is_undecided s ≡ false → is_over s ≡ false → has_next s ≡ true }
{}
