//! Places.

/// An entry with its weight, and what the holes right in front of it weigh.
#[derive(Clone, Copy)]
pub struct Place {
    pub holes: u64,
    pub entry: u32,
    pub weight: u64,
}
