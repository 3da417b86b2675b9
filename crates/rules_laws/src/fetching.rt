//! What is fetched, and the keys under which it is stored (RFC 9111, 2 and 4.1).
ghost use Rattle.std.specs.Prelude.{◌≡◌, ℕ, List, [], ◌∷◌, true, false, codes};
ghost use Rattle.rules_fields.specs.Fields.{Field, without};
ghost use Rattle.rules_fields.specs.Tables.{among};
ghost use Rattle.rules_fields.specs.Types.{Asked, Chosen};
ghost use Rattle.rules_storage.specs.Judge.{names, is_unkeyed};
ghost use Rattle.rules_reuse.specs.Keys.{key_of};
ghost use Rattle.rules_reuse.specs.Laws.{lacks, IsTarget};
ghost use Rattle.rules_reuse.specs.Planning.{plan_of};
ghost use Rattle.rules_reuse.specs.declared.planning.Plan.TheVariants.{Look};
ghost use Rattle.rules_reuse.specs.Variants.{value_in};
ghost use Rattle.rules_forward.specs.Forward.{forward};
ghost use Rattle.rules_laws.specs.Fetched.{fetched, value_sent};

/// Requests with one key are of one host and one target, by which alone and the options the origin is sent its own: but where percent-codes are
/// folded. What is known of schemes, hosts and targets that are read is a premise.
pub fn one_key_is_one_fetch()
    ensures { (r other : Asked) (o : Chosen) → o.folds_percent ≡ false
        → lacks 58 r.scheme ≡ true → lacks 58 other.scheme ≡ true → lacks 47 r.host ≡ true → lacks 47 other.host ≡ true
        → IsTarget r.target → IsTarget other.target
        → key_of r.scheme r.host r.target o ≡ key_of other.scheme other.host other.target o
        → (r.host ≡ other.host) × (r.target ≡ other.target) }
{}

/// Each value in a second key is the one that the origin is sent as what may be stored is fetched: of a request that looks up, which has none of the lines
/// that the operator drops, and of a name in a Vary by which a response may be stored. `host` is in no second key, and no request that is read has Connection.
pub fn keyed_values_are_sent()
    ensures { (r : Asked) (host peer : List ℕ) (o : Chosen) (lines : List Field) (name : List ℕ)
        → plan_of r o ≡ Look → without o.drops r.lines ≡ r.lines
        → names name lines ≡ true → is_unkeyed lines o ≡ false → among (codes "host" ∷ codes "connection" ∷ []) name ≡ false
        → value_sent (forward (fetched r host o) peer o) name ≡ value_in r.lines name }
{}
