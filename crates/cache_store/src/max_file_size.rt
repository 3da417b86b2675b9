//! The limit on the size of a body.
ghost use Rattle.std.specs.Prelude.{◌≡◌, ◌+◌, ◌-◌, ◌^◌, ◌≤◌, ◌↔◌, min, IsTrue};

use cache_heads::ErrorType;

/// What a response past the limit is refused with.
pub const ERR_RESPONSE_TOO_LARGE: ErrorType = ErrorType::Custom("response too large");

/// Counts the bytes of a body against a limit, also while nothing is cached.
#[derive(Clone, Copy, PartialEq, Eq, Debug)]
pub struct MaxFileSizeTracker {
    /// The bytes so far, at most `usize::MAX`.
    pub body_bytes: usize,
    /// The most bytes that a body may have.
    pub max_size: usize,
}

impl MaxFileSizeTracker {
    /// Makes a tracker of no bytes.
    pub fn new(max_size: usize) -> MaxFileSizeTracker
        ensures { result ≡ record { body_bytes = 0; max_size = max_size } }
    {
        MaxFileSizeTracker {
            body_bytes: 0,
            max_size,
        }
    }

    /// Adds bytes, and returns whether all of them are within the limit.
    pub fn add_body_bytes(&mut self, bytes: usize) -> bool
        ensures counted { self.new ≡ record self.old { body_bytes = min (self.old.body_bytes + bytes) (2 ^ 64 - 1) } }
        ensures allowed { IsTrue result ↔ (self.new.body_bytes ≤ self.new.max_size) }
    {
        self.body_bytes = self.body_bytes.saturating_add(bytes);
        self.allow_caching()
    }

    /// Returns the most bytes that a body may have.
    pub fn max_file_size_bytes(&self) -> usize
        ensures { result ≡ self.now.max_size }
    {
        self.max_size
    }

    /// Returns whether the bytes so far are within the limit.
    pub fn allow_caching(&self) -> bool
        ensures { IsTrue result ↔ (self.now.body_bytes ≤ self.now.max_size) }
    {
        self.body_bytes <= self.max_size
    }
}
