//! A look at each row of a shard.

ghost use Rattle.std.specs.List.{FoldsTo};
ghost use Rattle.lru_core.specs.Rows.{pairs_of};
ghost use Rattle.lru_core.specs.Updates.{Visits};

use lru_core::lru_unit::LruUnit;
use std::hash::BuildHasher;

// Calls `f` with the data and the weight of each row, most recent first.
pub(crate) fn visit<T, S: BuildHasher, F: FnMut((&T, usize))>(unit: &LruUnit<T, S>, f: &mut F)
    requires { F.IsAlwaysCallable f.old }
    ensures called { FoldsTo (Visits F.FnMut) f.old (pairs_of unit.now.rows) f.new }
    ensures again { F.IsAlwaysCallable f.new }
{
    let mut items = unit.iter();
    'items: while let Some(item) = items.next() {
        f(item);
    }
}
