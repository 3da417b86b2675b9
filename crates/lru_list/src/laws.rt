//! Laws about the definitions of the contracts. Each is the contract of a function that does nothing.

ghost use Rattle.std.specs.Prelude.{◌≡◌, ◌≤◌, ◌++◌, List, [], length, reverse};
ghost use Rattle.lru_list.specs.BothEnds.{Call, Gives, from_front, from_back};

/// Any mixture of calls at both ends gives each item once, those from the front in order and those from the back in
/// reverse, and as many calls as there are items leave none. `view` reads an item.
pub fn both_ends_give_each_item_once<A, B>()
    ensures once { (view : A → B) (calls : List (Call A)) (xs rest : List B) → Gives view xs calls rest → from_front view calls ++ (rest ++ reverse (from_back view calls)) ≡ xs }
    ensures ends { (view : A → B) (calls : List (Call A)) (xs rest : List B) → Gives view xs calls rest → length xs ≤ length calls → rest ≡ [] }
{}
