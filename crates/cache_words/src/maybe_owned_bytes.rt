//! Bytes, borrowed or owned. A contract sees the bytes.
ghost use Rattle.std.specs.Prelude.{◌≡◌, nat_eq, refl, Some};
ghost use Rattle.std.specs.Ordering.{nat_cmp};
ghost use Rattle.std.specs.Cmp.Lexicographic.{pointwise, slice_cmp, nat_list_eq_equiv, nat_list_cmp_total, texts_ties, texts_po};
ghost use Rattle.std.specs.Cmp.{partial_equiv_from_equiv};

use std::cmp::Ordering;
use std::marker::Model;

/// Bytes, borrowed or owned, compared by their bytes.
#[derive(Drop)]
pub struct MaybeOwnedBytes<'a> {
    part: Part<'a>,
}

#[derive(Drop)]
enum Part<'a> {
    Borrowed(&'a [u8]),
    Owned(Vec<u8>),
}

impl<'a> Model for MaybeOwnedBytes<'a> {
    ghost use Rattle.std.specs.Prelude.{ℕ, List};

    ghost Value = { List ℕ };

    ghost use Rattle.cache_words.specs.MaybeOwnedBytes.{part_bytes};

    ghost view = { λ p. part_bytes p.part };
}

impl<'a> MaybeOwnedBytes<'a> {
    /// Borrowed bytes.
    pub fn borrowed(bytes: &'a [u8]) -> MaybeOwnedBytes<'a>
        ensures { result ≡ bytes.now }
    {
        MaybeOwnedBytes {
            part: Part::Borrowed(bytes),
        }
    }

    /// Owned bytes.
    pub fn owned(bytes: Vec<u8>) -> MaybeOwnedBytes<'a>
        ensures { result ≡ bytes.items }
    {
        MaybeOwnedBytes {
            part: Part::Owned(bytes),
        }
    }

    /// The bytes.
    pub fn as_slice(&self) -> &[u8]
        ensures { result.now ≡ self.now }
    {
        match &self.part {
            Part::Borrowed(bytes) => bytes,
            Part::Owned(bytes) => bytes.as_slice(),
        }
    }
}

impl<'a> PartialEq for MaybeOwnedBytes<'a> {
    ghost eq = { pointwise nat_eq };

    ghost laws = { partial_equiv_from_equiv nat_list_eq_equiv };

    fn eq(&self, other: &Self) -> bool {
        self.as_slice() == other.as_slice()
    }
}

impl<'a> Eq for MaybeOwnedBytes<'a> {
    ghost laws = { nat_list_eq_equiv };
}

impl<'a> PartialOrd for MaybeOwnedBytes<'a> {
    ghost partial_cmp = { λ x y. Some (slice_cmp nat_cmp x y) };

    ghost laws = { texts_po };

    fn partial_cmp(&self, other: &Self) -> Option<Ordering> {
        Some(self.cmp(other))
    }
}

impl<'a> Ord for MaybeOwnedBytes<'a> {
    ghost cmp = { slice_cmp nat_cmp };

    ghost total = { nat_list_cmp_total };

    ghost matches_partial_cmp = { λ x y. refl };

    ghost matches_eq = { texts_ties };

    fn cmp(&self, other: &Self) -> Ordering {
        self.as_slice().cmp(other.as_slice())
    }
}
