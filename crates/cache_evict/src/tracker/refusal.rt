//! Why an entry isn't put into its shard.

/// Why an entry isn't put into its shard.
#[derive(Clone, Copy, Debug)]
pub enum Refusal {
    /// There is no memory for one more entry.
    Memory,
    /// The weight of the shard could not be counted.
    Weight,
    /// The shard has no room for one more entry.
    Length,
    /// No number is left for the entry.
    Spent,
}
