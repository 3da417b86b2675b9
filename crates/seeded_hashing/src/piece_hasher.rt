//! Hashing what attackers choose.

ghost use Rattle.std.specs.Prelude.{◌≡◌};
ghost use Rattle.std.specs.List.{fold};
ghost use Rattle.seeded_hashing.specs.Pieces.{pieces};

use std::hash::{FoldHasher, Hasher};

// The most bytes of a piece.
const PIECE: usize = 8;

/// Writes bytes to a hasher in pieces of at most eight, for bytes that attackers choose.
///
/// Of a longer write `FoldHasher` multiplies one word by another, both of which are the writer's: whoever makes one of them 0
/// makes the product 0, whatever the start was. A piece of at most eight bytes is one word, to which the state is added before
/// it is multiplied by an odd constant. So no piece that is chosen without the state makes the product known, and two pieces of one
/// length differ by different amounts at different states.
pub fn write_pieces<H: Hasher>(bytes: &[u8], state: &mut H)
    ensures { state.new ≡ fold H.write state.old (pieces bytes.now) }
{
    for piece in bytes.chunks(PIECE) {
        state.write(piece);
    }
}

/// `FoldHasher`, to which each write goes in pieces of at most eight bytes, as `write_pieces` cuts them.
#[derive(Clone, Copy)]
pub struct PieceHasher {
    /// What the pieces are written to.
    pub inner: FoldHasher,
}

impl Hasher for PieceHasher {
    ghost use Rattle.std.specs.Hash.FoldHasher.{write, finish};

    ghost write = { λ h bytes. record { inner = fold write h.inner (pieces bytes) } };

    ghost finish = { λ h. finish h.inner };

    fn finish(&self) -> u64 {
        self.inner.finish()
    }

    fn write(&mut self, bytes: &[u8]) {
        write_pieces(bytes, &mut self.inner);
    }
}
