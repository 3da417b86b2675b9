//! Laws of the definitions. No code runs.
ghost use Rattle.std.specs.Prelude.{◌≡◌, List, ◌∷◌, take, true};
ghost use Rattle.std.specs.List.{list_all};
ghost use Rattle.rules_ffi.specs.Sets.{Set, sets_of, list_body, is_set};

/// A list that is written is read back: the new set in front, and of the others at most three.
pub fn lists_are_read_back()
    ensures { (s : Set) (sets : List Set) → list_all is_set (s ∷ take 3 sets) ≡ true → sets_of (list_body s.token s.names sets) ≡ s ∷ take 3 sets }
{}
