//! What reads stored lines answers alike of lines in which each name has the same values, in the same order, as a store's map of them has.
ghost use Rattle.std.specs.Prelude.{◌≡◌, ℕ, List, Option, Some};
ghost use Rattle.rules_fields.specs.Fields.{Field, first, has_line, tokens};
ghost use Rattle.rules_fields.specs.Directives.{directives};
ghost use Rattle.rules_fields.specs.Says.{says};
ghost use Rattle.rules_fields.specs.Types.{Asked, KeptHead, Chosen};
ghost use Rattle.rules_reuse.specs.Using.{use_of, may_spare, error_of};
ghost use Rattle.rules_response.specs.Confirm.{confirms};
ghost use Rattle.rules_response.specs.Matching.{matches, range_counts};
ghost use Rattle.rules_response.specs.Answering.{answer_of};
ghost use Rattle.rules_forward.specs.Send.{validate};
ghost use Rattle.rules_laws.specs.Alike.{AreAlike, with_lines, AnswersAlike};

/// The first value of a name, the elements of all its values, the directives in them, and what counts of a head.
pub fn lines_are_read_alike()
    ensures first { (lines other : List Field) → AreAlike lines other → (name : List ℕ) → first name lines ≡ first name other }
    ensures tokens { (lines other : List Field) → AreAlike lines other → (name : List ℕ) → tokens name lines ≡ tokens name other }
    ensures directives { (lines other : List Field) → AreAlike lines other → (name : List ℕ) → directives name lines ≡ directives name other }
    ensures says { (lines other : List Field) → AreAlike lines other → (o : Chosen) → says lines o ≡ says other o }
{}

/// How what is stored may answer.
pub fn kept_is_used_alike()
    ensures use_of { (request : Asked) (kept : KeptHead) (other : List Field) → AreAlike kept.lines other → (now : ℕ) (o : Chosen)
        → use_of request kept now o ≡ use_of request (with_lines kept other) now o }
    ensures may_spare { (request : Asked) (kept : KeptHead) (other : List Field) → AreAlike kept.lines other → (now : ℕ) (status : Option ℕ) (o : Chosen)
        → may_spare request kept now status o ≡ may_spare request (with_lines kept other) now status o }
    ensures error_of { (kept : KeptHead) (other : List Field) → AreAlike kept.lines other → (o : Chosen)
        → error_of (Some kept) o ≡ error_of (Some (with_lines kept other)) o }
{}

/// Whether a client's condition lets 304 be the answer, whether a Range counts, and whether a 304 is of what is stored.
pub fn kept_is_matched_alike()
    ensures matches { (request : Asked) (kept : KeptHead) (other : List Field) → AreAlike kept.lines other → matches request kept ≡ matches request (with_lines kept other) }
    ensures range_counts { (request : Asked) (kept : KeptHead) (other : List Field) → AreAlike kept.lines other
        → range_counts request kept ≡ range_counts request (with_lines kept other) }
    ensures confirms { (lines other sent : List Field) → AreAlike lines other → confirms lines sent ≡ confirms other sent }
{}

/// What is asked of the origin to validate what is stored.
pub fn kept_is_validated_alike()
    ensures { (request : Asked) (kept : KeptHead) (other : List Field) → AreAlike kept.lines other
        → validate request kept ≡ validate request (with_lines kept other) }
{}

/// The answer: its status, its pieces of the body, and its lines in which each name has the same values in the same order.
pub fn kept_is_answered_alike()
    ensures { (request : Asked) (kept : KeptHead) (other : List Field) → AreAlike kept.lines other → (length : Option ℕ) (now : ℕ) (boundary : Option (List ℕ)) (how : List (List ℕ)) (o : Chosen)
        → AnswersAlike (answer_of request kept length now boundary how o) (answer_of request (with_lines kept other) length now boundary how o) }
{}
