//! What is stored of a response, and a judgement.
use crate::reason::Reason;
use rules_fields::Line;

/// What is stored of a response, beside its body. Its lines are lent from the response's head.
#[derive(Debug, Drop)]
pub struct Stored<'a> {
    /// The status.
    pub status: u16,
    /// The lines in order, but for Content-Length, which comes last.
    pub lines: Vec<Line<'a>>,
    /// The number of Content-Length, where the framing stated one.
    pub length: Option<u64>,
    /// The moment at which the age was 0.
    pub arrival: i128,
    /// The seconds for which it is fresh.
    pub lifetime: u64,
    /// The seconds after that in which it may be used while it is fetched anew.
    pub stale_while_revalidate: u64,
    /// The seconds after that in which it may be used in the place of an error.
    pub stale_if_error: u64,
}

/// A judgement.
#[derive(Debug, Drop)]
pub enum Judged<'a> {
    /// It is stored.
    Kept(Stored<'a>),
    /// It isn't, and why; and whether what was found under the key that was looked up goes.
    Refused(Reason, bool),
}
