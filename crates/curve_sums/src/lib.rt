//! Numbers with sums over them.
//!
//! Its contract: `total`, `get`, `through` and `first` say of a plain list of numbers what their names say.
//! `curve_heights` keeps the weights of a row of cells in it.
#![tactic(auto)]

mod level;
mod sums;

pub use sums::BlockSums;
