//! The entry of a key alone, by the key's parts.

ghost use Rattle.std.specs.Prelude.{◌≡◌};
ghost use Rattle.cache_entries.specs.BorrowedEntry.{borrowed_entry};
ghost use Rattle.lru_numbers.specs.Parts.{entry_with_parts, key_with_parts};

use cache_entries::pack::BorrowedEntry;
use cache_words::key::{CacheHashKey, HashBinary};
use cache_words::pack::BorrowedKey;

/// The entry of a key alone, by the key's parts. So an entry is found by a key that is requested without a copy of its tag.
#[derive(Clone, Copy, Debug)]
pub struct KeyParts<'a> {
    /// The hash of what is requested.
    pub primary: HashBinary,
    /// The hash of what the response varies by, if it does.
    pub variance: Option<HashBinary>,
    /// The owner's tag.
    pub user_tag: &'a str,
}

impl<'a> KeyParts<'a> {
    // The entry that they stand for.
    pub(crate) fn to_borrowed(self) -> BorrowedEntry<'a>
        ensures { borrowed_entry result ≡ entry_with_parts self.entry }
    {
        BorrowedEntry {
            key: BorrowedKey {
                primary: self.primary,
                variance: self.variance,
                user_tag: self.user_tag,
            },
            id: None,
        }
    }
}

impl<'a> CacheHashKey for KeyParts<'a> {
    ghost key = { key_with_parts };

    fn primary_bin(&self) -> HashBinary {
        self.primary
    }

    fn variance_bin(&self) -> Option<HashBinary> {
        self.variance
    }

    fn user_tag(&self) -> &str {
        self.user_tag
    }
}
