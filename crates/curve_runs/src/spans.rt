//! Counts by size, of which neighbours get the same.
ghost use Rattle.std.specs.Prelude.{◌≡◌, ℕ, ◌≤◌, length};
ghost use Rattle.curve_runs.specs.Sums.{front};

/// Counts by size: a count of some neighbours takes two steps, however many they are.
#[derive(Drop)]
pub struct Spans {
    // What begins at each size, and what has ended there.
    pub(crate) begun: Vec<u128>,
    pub(crate) ended: Vec<u128>,
    // All that began.
    pub(crate) total: u128,
    ghost even: { length ended.items ≡ length begun.items },
    ghost within: { (n : ℕ) → front n ended.items ≤ front n begun.items },
    ghost all: { (n : ℕ) → front n begun.items ≤ total },
}
