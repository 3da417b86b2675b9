//! Entries by short names.

use cache_entries::entry::{CacheEntryId, CacheEntryKey};
use cache_words::key::CacheKey;
use std::alloc::{AllocError, Global};

/// The bytes of a key, and the id of one body of it.
pub type Name = (&'static [u8], Option<u64>);

pub const A: Name = (b"a", None);

pub const B: Name = (b"b", None);

pub const C: Name = (b"c", None);

pub const D: Name = (b"d", None);

pub const E: Name = (b"e", None);

pub const F: Name = (b"f", None);

/// The entry of a name, with the tag `1`.
pub fn entry(alloc: Global, name: Name) -> Result<CacheEntryKey, AllocError> {
    let primary = Vec::from_slice(alloc, name.0)?;
    let key = CacheKey::new(primary, String::from_str(alloc, "1")?).to_compact()?;
    Ok(match name.1 {
        Some(id) => CacheEntryKey::from_entry_id(key, Some(CacheEntryId::new(id))),
        None => CacheEntryKey::from_entry_id(key, None),
    })
}

/// The same, or the empty entry when out of memory.
pub fn item(alloc: Global, name: Name) -> CacheEntryKey {
    match entry(alloc, name) {
        Ok(item) => item,
        Err(AllocError) => CacheEntryKey::empty(alloc),
    }
}

/// Whether there is the entry of a name, or none.
pub fn is(alloc: Global, found: Option<&CacheEntryKey>, name: Option<Name>) -> bool {
    match (found, name) {
        (Some(found), Some(name)) => *found == item(alloc, name),
        (None, None) => true,
        _ => false,
    }
}

/// Whether the entries are those of the names, in order.
pub fn are(alloc: Global, entries: &[CacheEntryKey], names: &[Name]) -> bool {
    let mut number = 0usize;
    for &name in names {
        if !is(alloc, entries.get(number), Some(name)) {
            return false;
        }
        number = number.wrapping_add(1);
    }
    entries.len() == names.len()
}
