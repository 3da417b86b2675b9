//! How what is stored answers (RFC 9111, 3.5, 4.2, 4.2.4; RFC 9110, 13.2.2).
ghost use Rattle.std.specs.Prelude.{◌≡◌, ◌*◌, ℕ, List, Option, true, false, int_lt, pos};
ghost use Rattle.rules_fields.specs.Types.{Asked, KeptHead, Chosen};
ghost use Rattle.rules_storage.specs.Ages.{age, second};
ghost use Rattle.rules_reuse.specs.Using.{is_closed, must_validate, use_of};
ghost use Rattle.rules_reuse.specs.declared.using.Use.TheVariants.{Pass, Fresh, Stale};
ghost use Rattle.rules_response.specs.Matching.{matches};
ghost use Rattle.rules_response.specs.Answering.{answer_of};

/// What answers as fresh is younger than its lifetime.
pub fn what_is_fresh_is_younger()
    ensures { (request : Asked) (kept : KeptHead) (now : ℕ) (o : Chosen) → use_of request kept now o ≡ Fresh
        → int_lt (age kept.arrival now) (pos (kept.lifetime * second)) ≡ true }
{}

/// Nothing stale that must be validated answers because the client takes it so (max-stale).
pub fn what_is_stale_may_be_used()
    ensures { (request : Asked) (kept : KeptHead) (now : ℕ) (o : Chosen) → use_of request kept now o ≡ Stale → must_validate kept o ≡ false }
{}

/// Where a request has Authorization, nothing answers that isn't open to it.
pub fn what_is_closed_is_passed()
    ensures { (request : Asked) (kept : KeptHead) (now : ℕ) (o : Chosen) → is_closed request kept o ≡ true → use_of request kept now o ≡ Pass }
{}

/// The answer is 304 just where the client's condition lets it, for what is stored is never one.
pub fn only_what_matches_is_not_modified()
    ensures matching { (request : Asked) (kept : KeptHead) (length : Option ℕ) (now : ℕ) (boundary : Option (List ℕ)) (how : List (List ℕ)) (o : Chosen)
        → matches request kept ≡ true → (answer_of request kept length now boundary how o).status ≡ 304 }
    ensures others { (request : Asked) (kept : KeptHead) (length : Option ℕ) (now : ℕ) (boundary : Option (List ℕ)) (how : List (List ℕ)) (o : Chosen)
        → matches request kept ≡ false → (answer_of request kept length now boundary how o).status ≡ 304 → kept.status ≡ 304 }
{}
