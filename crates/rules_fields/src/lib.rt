//! Texts and field lines (RFC 9110, 5): what the rules of a cache read in a head.
//!
//! A line lends its name and its value from wherever the head lies. A head is a list of lines in their order.
#![tactic(auto)]

pub mod asking;
pub mod blanks;
pub mod dates;
pub mod directive;
pub mod lines;
pub mod number;
pub mod reading;
pub mod rows;
pub mod says;
pub mod tables;
pub mod tags;
pub mod targeted;
pub mod types;

/// A field line: its name in any case, and its value without blanks round it.
#[derive(Clone, Copy, Debug, PartialEq, Eq)]
pub struct Line<'a> {
    /// The name.
    pub name: &'a [u8],
    /// The value.
    pub value: &'a [u8],
}
