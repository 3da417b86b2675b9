//! How often a request may be sent on (RFC 9110, 7.6.2).
ghost use Rattle.std.specs.Prelude.{◌≡◌, if◌then◌else◌, ℕ, List, true, Some, map, codes, option_and_then};
ghost use Rattle.rules_fields.specs.Numbers.{digits};
ghost use Rattle.rules_fields.specs.Fields.{all, first, without};
ghost use Rattle.rules_fields.specs.Types.{Asked, Chosen};
ghost use Rattle.rules_reuse.specs.Planning.{is_method, plan_of};
ghost use Rattle.rules_reuse.specs.declared.planning.Plan.TheVariants.{LastForward};
ghost use Rattle.rules_forward.specs.Forward.{is_counted, one_less, forward};

/// Of TRACE and OPTIONS each Max-Forwards is sent on one less, unless the operator drops it.
pub fn max_forwards_goes_down()
    ensures { (r : Asked) (peer : List ℕ) (o : Chosen) → is_counted r.method ≡ true
        → all (codes "max-forwards") (forward r peer o) ≡ map one_less (all (codes "max-forwards") (without o.drops r.lines)) }
{}

/// Where it is 0, the request is answered and not sent on: 204 to OPTIONS, 501 to TRACE.
pub fn the_last_is_answered()
    ensures { (r : Asked) (o : Chosen) → is_counted r.method ≡ true → option_and_then digits (first (codes "max-forwards") r.lines) ≡ Some 0
        → plan_of r o ≡ LastForward (if is_method r (codes "OPTIONS") then 204 else 501) }
{}
