//! Which shard the next eviction takes from.

ghost use Rattle.std.specs.Prelude.{◌≡◌, ◌%◌, ◌<◌, [], List, ℕ, length, map, IfSome, IfNone};
ghost use Rattle.lru_core.specs.declared.rows.Row.{Row};
ghost use Rattle.lru_core.specs.Cores.{longer_of_two, next_of, first_nonempty_from};
ghost use Rattle.lru_async.specs.Picks.{IsPick};

// Returns, of shards with these numbers of rows, the one that an eviction by two draws takes from: the longer of the two that
// the draws name, of the first if they are equally long; if that is empty, the next non-empty one around the circle.
pub(crate) fn pick(lens: &[usize], a: u64, b: u64) -> Option<usize>
    ensures some { IfSome result (IsPick lens.now a b) }
    ensures none { IfNone result (lens.now ≡ []) }
{
    if lens.is_empty() {
        return None;
    }
    Some(first_nonempty(lens, longer(lens, a, b)))
}

// The longer of the shards that two draws name, the first if they are equally long.
fn longer(lens: &[usize], a: u64, b: u64) -> usize
    requires { 0 < length lens.now }
    ensures value { (shards : List (List (Row ℕ))) → map length shards ≡ lens.now → result ≡ longer_of_two shards (a % length lens.now) (b % length lens.now) }
    ensures within { result < length lens.now }
{
    let first = a as usize % lens.len();
    let second = b as usize % lens.len();
    if lens[first] < lens[second] {
        second
    } else {
        first
    }
}

// The first non-empty shard from `from` on, wrapping around; `from` if all are empty.
fn first_nonempty(lens: &[usize], from: usize) -> usize
    requires { from < length lens.now }
    ensures { (shards : List (List (Row ℕ))) → map length shards ≡ lens.now → result ≡ first_nonempty_from (length lens.now) shards (length lens.now) from }
{
    let mut i = from;
    'circle: for _ in 0..lens.len() {
        if lens[i] != 0 {
            return i;
        }
        i = next_of(i, lens.len());
    }
    i
}

// The shard after `i` on a circle of `n`.
fn next_of(i: usize, n: usize) -> usize
    requires { i < n }
    ensures value { result ≡ next_of n i }
    ensures within { result < n }
{
    if i + 1 == n { 0 } else { i + 1 }
}
