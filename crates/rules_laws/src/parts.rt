//! The parts of a 206.
ghost use Rattle.std.specs.Prelude.{◌≡◌, ◌∷◌, ℕ, List, true, Some, codes};
ghost use Rattle.std.specs.List.{list_all};
ghost use Rattle.std.specs.Fmt.{decimal};
ghost use Rattle.rules_fields.specs.Fields.{first};
ghost use Rattle.rules_fields.specs.Types.{KeptHead, Chosen};
ghost use Rattle.rules_response.specs.Ranges.{ranges};
ghost use Rattle.rules_response.specs.Answering.{by_parts};
ghost use Rattle.rules_laws.specs.Parts.{lies_in, sent_length};

/// The parts that a Range names have a byte at least, and lie in the body.
pub fn parts_lie_in_the_body()
    ensures { (text : List ℕ) (length most : ℕ) (parts : List (ℕ × ℕ)) → ranges text length most ≡ Some parts → list_all (lies_in length) parts ≡ true }
{}

/// Content-Length of an answer of one or several parts is the number of bytes that are sent.
pub fn parts_state_their_length()
    ensures { (p : ℕ × ℕ) (ps : List (ℕ × ℕ)) (kept : KeptHead) (n now : ℕ) (boundary : List ℕ) (how : List (List ℕ)) (o : Chosen)
        → first (codes "content-length") (by_parts (p ∷ ps) kept n now boundary how o).lines ≡ Some (decimal (sent_length (by_parts (p ∷ ps) kept n now boundary how o))) }
{}
