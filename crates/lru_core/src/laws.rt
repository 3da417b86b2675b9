//! Laws about the definitions of the contracts. Each is the contract of a function that does nothing.

ghost use Rattle.std.specs.Prelude.{◌≡◌, ℕ, ◌≤◌, ◌++◌, List, [], length, map, reverse, false};
ghost use Rattle.std.specs.Borrow.{Bor};
ghost use Rattle.lru_list.specs.BothEnds.{Call, Gives, from_front, from_back};
ghost use Rattle.lru_core.specs.Rows.{promoted, reweighed, shown_pair};
ghost use Rattle.lru_core.specs.Orders.{Distinct, with_all_last};
ghost use Rattle.lru_core.specs.Cores.{Core, is_over, Evicts};
ghost use Rattle.lru_core.specs.Fronts.{LeavesLongestFront};
ghost use Rattle.lru_core.specs.declared.rows.Row.{Row};
ghost use Rattle.rand_core.specs.Stream.{Stream};

/// Moving a key to the front twice is the same as moving it once.
pub fn promoting_twice_is_once<T>()
    ensures { (k : ℕ) (rows : List (Row T)) → promoted k (promoted k rows) ≡ promoted k rows }
{}

/// Another weight changes no order.
pub fn weights_change_no_order<T>()
    ensures { (k w : ℕ) (rows : List (Row T)) → map (λ r. r.key) (reweighed k w rows) ≡ map (λ r. r.key) rows }
{}

/// Rows of distinct keys, inserted in order into an empty shard, each at the back, are those rows.
pub fn rows_put_in_order_keep_it<T>()
    ensures { (rows : List (Row T)) → Distinct rows → with_all_last [] rows ≡ rows }
{}

/// Any mixture of calls at both ends of a shard's iterator gives each item once, those from the front in order and those
/// from the back in reverse, and as many calls as there are items leave none.
pub fn a_shard_gives_each_item_once<T>()
    ensures once { (calls : List (Call (Bor T × ℕ))) (xs rest : List (T × ℕ)) → Gives shown_pair xs calls rest → from_front shown_pair calls ++ (rest ++ reverse (from_back shown_pair calls)) ≡ xs }
    ensures ends { (calls : List (Call (Bor T × ℕ))) (xs rest : List (T × ℕ)) → Gives shown_pair xs calls rest → length xs ≤ length calls → rest ≡ [] }
{}

/// At one shard, what evictions to the limits leave is the longest front of the order of use that is within both.
pub fn evictions_leave_the_longest_front<T>()
    ensures { (old new : Core T) (pairs : List (T × ℕ)) (s rest : Stream) → length old.shards ≡ 1 → Evicts 1 old pairs s new rest → is_over new ≡ false → LeavesLongestFront old new }
{}
