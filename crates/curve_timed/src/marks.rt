//! What was found up to a moment.

use crate::row::FreshRow;
use curve_held::HeldRow;
use curve_sizes::CurveRow;

/// What was found of the requests before the first that came at a moment or later.
#[derive(Drop)]
pub struct Mark {
    /// The moment.
    pub at: u64,
    /// How many of these requests ask, and what their entries weigh.
    pub asks: u64,
    pub bytes: u128,
    /// What each limit finds of them, and what it finds fresh.
    pub rows: Vec<CurveRow>,
    pub fresh: Vec<FreshRow>,
    /// What a cache of each limit holds after them, and when it was full first.
    pub held: Vec<HeldRow>,
}
