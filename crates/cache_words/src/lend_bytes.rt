//! What lends bytes for longer than one call.
ghost use Rattle.std.specs.Prelude.{◌≡◌, List, ℕ, string_bytes};

/// A reference to bytes: a text, a slice, an array, a `String` or a `Vec`.
pub trait LendBytes<'a> {
    // The bytes that are lent.
    ghost bytes: { Self → List ℕ };

    /// The bytes, for as long as the reference lasts.
    fn lend_bytes(self) -> &'a [u8]
        ensures { result.now ≡ bytes self };
}

impl<'a> LendBytes<'a> for &'a str {
    ghost bytes = { λ s. s.now };

    fn lend_bytes(self) -> &'a [u8] {
        self.as_bytes()
    }
}

impl<'a> LendBytes<'a> for &'a [u8] {
    ghost bytes = { λ s. s.now };

    fn lend_bytes(self) -> &'a [u8] {
        self
    }
}

impl<'a, const N: usize> LendBytes<'a> for &'a [u8; N] {
    ghost bytes = { λ s. s.now };

    fn lend_bytes(self) -> &'a [u8] {
        self.as_slice()
    }
}

impl<'a> LendBytes<'a> for &'a String {
    ghost bytes = { λ s. string_bytes s.now };

    fn lend_bytes(self) -> &'a [u8] {
        self.as_bytes()
    }
}

impl<'a> LendBytes<'a> for &'a Vec<u8> {
    ghost bytes = { λ s. s.now.items };

    fn lend_bytes(self) -> &'a [u8] {
        self.as_slice()
    }
}
