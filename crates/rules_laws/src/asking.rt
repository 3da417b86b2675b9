//! How what is stored, or came, answers goes by a few lines of the request alone, which `read_request` therefore writes once more.
ghost use Rattle.std.specs.Prelude.{◌≡◌, ℕ, List, Option};
ghost use Rattle.rules_fields.specs.Types.{Asked, Answered, KeptHead, Chosen};
ghost use Rattle.rules_reuse.specs.Using.{use_of, may_spare};
ghost use Rattle.rules_response.specs.Answering.{answer_of};
ghost use Rattle.rules_response.specs.Told.{told_reply};
ghost use Rattle.rules_response.specs.declared.telling.Fetch.{Fetch};
ghost use Rattle.rules_laws.specs.Asking.{with_asked};

/// Without its other lines a request is answered the same.
pub fn other_lines_count_for_nothing()
    ensures use_of { (request : Asked) (kept : KeptHead) (now : ℕ) (o : Chosen) → use_of (with_asked request) kept now o ≡ use_of request kept now o }
    ensures may_spare { (request : Asked) (kept : KeptHead) (now : ℕ) (status : Option ℕ) (o : Chosen)
        → may_spare (with_asked request) kept now status o ≡ may_spare request kept now status o }
    ensures answer_of { (request : Asked) (kept : KeptHead) (length : Option ℕ) (now : ℕ) (boundary : Option (List ℕ)) (how : List (List ℕ)) (o : Chosen)
        → answer_of (with_asked request) kept length now boundary how o ≡ answer_of request kept length now boundary how o }
    ensures told_reply { (fetch : Fetch) (request : Asked) (p : Answered) (asked came : ℕ) (how : List (List ℕ)) (o : Chosen)
        → told_reply fetch (with_asked request) p asked came how o ≡ told_reply fetch request p asked came how o }
{}
