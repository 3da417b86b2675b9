//! Numbers of entries.

pub use lru_numbers::{Numbers, NumbersFault};
