//! Rows of a curve.

/// What is found under a limit: how many requests find their entry, and what these entries weigh together.
#[derive(Clone, Copy, PartialEq, Eq, Debug)]
pub struct CurveRow {
    pub limit: u64,
    pub finds: u64,
    pub bytes: u128,
}
