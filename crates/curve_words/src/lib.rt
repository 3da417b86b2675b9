//! Words of lines: what stands between blanks or delimiters, and the numbers, times and sizes that they say.
//!
//! Its contracts are those of `number`, `moment`, `size`, of the calls of `Columns`, and of the type `Limits`.
//! `curve_lines` reads the lines of a trace by them.
#![tactic(auto)]

mod columns;
mod limits;
mod listed;
mod scaled;
mod sizes;
mod time;
mod words;

pub use columns::Columns;
pub use limits::{Limits, MOST_STEPS};
pub use listed::Total;
pub use sizes::{digits, size};
pub use time::moment;
pub use words::{after_blanks, after_word, number, word_of};
