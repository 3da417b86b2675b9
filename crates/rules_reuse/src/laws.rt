//! Laws of the definitions. No code runs.
ghost use Rattle.std.specs.Prelude.{◌≡◌, ◌⊎◌, ℕ, List, true, false, map, codes};
ghost use Rattle.std.specs.Option.{option_map_or};
ghost use Rattle.rules_fields.specs.Fields.{Field};
ghost use Rattle.rules_fields.specs.Types.{Asked, KeptHead, Chosen};
ghost use Rattle.rules_reuse.specs.Keys.{key_of, as_keyed};
ghost use Rattle.rules_reuse.specs.Variants.{value_in, secondary};
ghost use Rattle.rules_reuse.specs.Planning.{plan_of};
ghost use Rattle.rules_reuse.specs.declared.planning.Plan.TheVariants.{Look};
ghost use Rattle.rules_reuse.specs.Using.{use_of, goes_by_lines};
ghost use Rattle.rules_reuse.specs.Laws.{lacks, IsTarget};

/// Equal keys are of one scheme, one host and one target, as targets count by the operator's choice. Of what is read no scheme has a colon, no
/// host a slash, and a target is `*` or begins with a slash.
pub fn key_is_injective()
    ensures { (scheme other_scheme host other_host target other_target : List ℕ) (o : Chosen)
        → lacks 58 scheme ≡ true → lacks 58 other_scheme ≡ true → lacks 47 host ≡ true → lacks 47 other_host ≡ true
        → IsTarget target → IsTarget other_target
        → key_of scheme host target o ≡ key_of other_scheme other_host other_target o
        → (scheme ≡ other_scheme) × (host ≡ other_host) × (as_keyed o target ≡ as_keyed o other_target) }
{}

/// Equal second keys, by the same names, are of the same values, none of which has a line feed.
pub fn secondary_is_injective()
    ensures { (names : List (List ℕ)) (request other : List Field)
        → ((name : List ℕ) → option_map_or (lacks 10) (value_in request name) true ≡ true)
        → ((name : List ℕ) → option_map_or (lacks 10) (value_in other name) true ≡ true)
        → secondary names request ≡ secondary names other
        → map (value_in request) names ≡ map (value_in other) names }
{}

/// Only GET and HEAD, byte for byte, look up what is stored.
pub fn only_get_and_head_look_up()
    ensures { (request : Asked) (o : Chosen) → plan_of request o ≡ Look
        → (request.method ≡ codes "GET") ⊎ (request.method ≡ codes "HEAD") }
{}

/// Where the stored lines don't count, others give the same use.
pub fn use_goes_by_times()
    ensures { (request : Asked) (kept : KeptHead) (lines : List Field) (now : ℕ) (o : Chosen) → goes_by_lines request kept now o ≡ false
        → use_of request (record kept { lines = lines }) now o ≡ use_of request kept now o }
{}
