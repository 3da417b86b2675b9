//! How many bytes a body may have outside the cache.
ghost use Rattle.std.specs.Prelude.{◌≡◌, ◌<◌, ◌^◌, nat_lt, if◌then◌else◌, Some, None};

use std::marker::Model;

// From so many bytes on a weight could not be counted.
const TOO_MUCH: u64 = 1 << 62;

/// A number of bytes below 2^62.
#[derive(Clone, Copy, PartialEq, Eq, Debug)]
pub(crate) struct Outside {
    count: u64,
}

impl Model for Outside {
    ghost use Rattle.std.specs.Prelude.{ℕ, ◌<◌, ◌^◌};

    ghost Value = { ℕ };

    ghost view = { λ o. o.count };

    ghost invariant = { λ o. o.count < 2 ^ 62 };

    ghost inverse = { λ n. record { count = n } };
}

impl Outside {
    pub(crate) fn nothing() -> Outside
        ensures { result ≡ 0 }
    {
        Outside { count: 0 }
    }

    /// That many bytes; `None` from 2^62 on.
    pub(crate) fn new(count: u64) -> Option<Outside>
        ensures { result ≡ (if nat_lt count (2 ^ 62) then Some count else None) }
    {
        if count < TOO_MUCH {
            Some(Outside { count })
        } else {
            None
        }
    }

    pub(crate) fn count(self) -> u64
        ensures value { result ≡ self }
        ensures below { result < 2 ^ 62 }
    {
        self.count
    }
}
