//! Hashes whose start is a word of the caller's.

ghost use Rattle.seeded_hashing.specs.Start.{start_of};

use crate::piece_hasher::PieceHasher;
use std::hash::{BuildHasher, FoldHasher, Hasher};

/// Hashers that start from one word. Where attackers choose keys, take the word at random, one for each table, and keep it secret: then
/// they don't know the hashes. Each write goes in pieces of at most eight bytes, so that no bytes of a long key take the
/// word out of its hash. `FoldHasher` is fast and not cryptographic: for tables that show attackers how long look-ups take, std's
/// `RandomState` is safer and slower.
#[derive(Clone, Copy)]
pub struct SeededState {
    /// What each hasher writes first.
    pub word: u64,
}

impl BuildHasher for SeededState {
    type Hasher = PieceHasher;

    ghost build_hasher = { λ s. start_of s.word };

    fn build_hasher(&self) -> PieceHasher {
        let mut inner = FoldHasher::default();
        inner.write_u64(self.word);
        PieceHasher { inner }
    }
}
