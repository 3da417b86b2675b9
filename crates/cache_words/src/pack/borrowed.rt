//! Kept keys whose tag is borrowed.
ghost use Rattle.std.specs.Prelude.{◌≡◌, IfOk};
ghost use Rattle.cache_words.specs.BorrowedKey.{borrowed_view};
ghost use Rattle.cache_words.specs.CompactKey.{compact_view};

use super::BorrowedKey;
use crate::key::CompactCacheKey;
use crate::text::Text;
use std::alloc::{AllocError, Global};

impl<'a> BorrowedKey<'a> {
    /// The key with a tag of its own.
    pub fn to_compact(&self, alloc: Global) -> Result<CompactCacheKey, AllocError>
        ensures { IfOk result (λ key. compact_view key ≡ borrowed_view self.now) }
    {
        Ok(CompactCacheKey {
            primary: self.primary,
            variance: self.variance,
            user_tag: Text::from_string(String::from_str(alloc, self.user_tag)?),
        })
    }
}
