//! Laws of the definitions. No code runs.
ghost use Rattle.std.specs.Prelude.{◌≡◌, ◌↔◌, List, ℕ};
ghost use Rattle.head_directives.specs.Written.{Written};
ghost use Rattle.head_directives.specs.Reads.{HoldsDirectives};
ghost use Rattle.std.specs.Prelude.{None};
ghost use Rattle.std.specs.List.{flat_map};
ghost use Rattle.head_directives.specs.Keeps.{kept, last_of, value_named};
ghost use Rattle.head_directives.specs.Walk.{directives};

/// A line holds one list of directives, and no other: the one that the search finds.
pub fn one_reading()
    ensures { (line : List ℕ) (ds : List Written) → HoldsDirectives line ds ↔ (directives line ≡ ds) }
{}

/// The value under a name is that of the last directive with this name, in whatever case, over all
/// lines. That is this cache's choice, and not RFC 9111's.
pub fn last_value_counts()
    ensures { (lines : List (List ℕ)) (name : List ℕ) → value_named name (kept lines) ≡ last_of name None (flat_map directives lines) }
{}
