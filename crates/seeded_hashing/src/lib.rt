//! Hashing what attackers choose: a start that is a word of the caller's, and writes in pieces of at most eight bytes.
//!
//! `SeededState` starts the hashers of tables; `write_pieces` is for a `Hash` of one's own.
//!
//! Its contract is what a hasher starts from and what is written to it: from these and std's `FoldHasher` each hash follows.
//! The tables of `lru_numbers` and `lru_core` take such a start, and so do those of whoever stands on them.
#![tactic(auto)]

mod piece_hasher;
mod seeded_state;

pub use piece_hasher::{PieceHasher, write_pieces};
pub use seeded_state::SeededState;
