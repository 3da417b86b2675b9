//! Tags of writes: a number as big-endian bytes, which are kept so that they can be lent.
ghost use Rattle.std.specs.Prelude.{◌≡◌, ◌↔◌, IfOk, IsOk, length};
ghost use Rattle.std.specs.Int.{w32, w64, to_be_bytes, from_be_bytes};
ghost use Rattle.cache_store.specs.WriteTag.{bytes_of};

use std::array::TryFromSliceError;
use std::convert::{From, TryFrom};

/// A write's tag of `N` bytes.
#[derive(Clone, Copy, PartialEq, Eq, Debug)]
pub struct WriteId<const N: usize>([u8; N]);

/// A write's tag of eight bytes.
pub type U64WriteId = WriteId<8>;

/// A write's tag of four bytes.
pub type U32WriteId = WriteId<4>;

impl<const N: usize> WriteId<N> {
    /// Lends the bytes.
    pub fn as_bytes(&self) -> &[u8]
        ensures { result.now ≡ bytes_of self.now }
    {
        &self.0
    }
}

impl<const N: usize> TryFrom<&[u8]> for WriteId<N> {
    type Error = TryFromSliceError;

    ghost try_from_gives = { λ bytes r. IfOk r (λ id. bytes_of id ≡ bytes.now) × (IsOk r ↔ (length bytes.now ≡ N)) };

    fn try_from(value: &[u8]) -> Result<WriteId<N>, TryFromSliceError> {
        Ok(WriteId(<[u8; N]>::try_from(value)?))
    }
}

impl From<u64> for U64WriteId {
    ghost from_gives = { λ number id. bytes_of id ≡ to_be_bytes w64 number };

    fn from(value: u64) -> U64WriteId {
        WriteId(value.to_be_bytes())
    }
}

impl From<U64WriteId> for u64 {
    ghost from_gives = { λ id number. number ≡ from_be_bytes w64 (bytes_of id) };

    fn from(value: U64WriteId) -> u64 {
        u64::from_be_bytes(value.0)
    }
}

impl From<u32> for U32WriteId {
    ghost from_gives = { λ number id. bytes_of id ≡ to_be_bytes w32 number };

    fn from(value: u32) -> U32WriteId {
        WriteId(value.to_be_bytes())
    }
}

impl From<U32WriteId> for u32 {
    ghost from_gives = { λ id number. number ≡ from_be_bytes w32 (bytes_of id) };

    fn from(value: U32WriteId) -> u32 {
        u32::from_be_bytes(value.0)
    }
}
