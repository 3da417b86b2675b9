//! What a cache holds.

/// A request that puts entries out: how many requests asked up to it and with it, and its moment.
#[derive(Clone, Copy, PartialEq, Eq, Debug)]
pub struct Full {
    pub asks: u64,
    pub moment: u64,
}

/// What a cache holds at the end.
#[derive(Clone, Copy, PartialEq, Eq, Debug)]
pub struct HeldRow {
    /// How many entries.
    pub entries: u128,
    /// Of the moments at which they were asked for last the least; nothing where none is held.
    pub oldest: Option<u64>,
    /// The first request that put entries out, if one did.
    pub full: Option<Full>,
}
