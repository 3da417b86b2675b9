//! Each small type once.
use bytes::Bytes;
use cache_entries::entry::CacheEntryKey;
use cache_words::key::CompactCacheKey;
use cache_words::text::Text;
use std::alloc::Global;
use tier_model::event::{Entries, Pieces};

// The entry of a primary hash of this byte alone.
pub(crate) fn entry(alloc: Global, last: u8) -> CacheEntryKey {
    CacheEntryKey::key_only(CompactCacheKey {
        primary: [last; 16],
        variance: None,
        user_tag: Text::from_string(String::new(alloc)),
    })
}

// Whether two pieces, and two entries, stay two, with the first as it was put in.
fn are_kept(alloc: Global) -> Option<bool> {
    let pieces = vec![in alloc; Bytes::from_static(b"ab"), Bytes::from_static(b"c")].ok()?;
    let pieces = Pieces::from_vec(pieces);
    let entries = vec![in alloc; entry(alloc, 1), entry(alloc, 2)].ok()?;
    let entries = Entries::from_vec(entries);
    let pieces = match pieces.as_slice() {
        [first, _] => first.as_slice() == b"ab".as_slice(),
        _ => false,
    };
    let entries = match entries.as_slice() {
        [first, _] => *first == entry(alloc, 1),
        _ => false,
    };
    Some(pieces && entries && Entries::new(alloc).as_slice().is_empty())
}

#[test]
fn pieces_and_entries_keep_their_order(rt: HostRuntime) {
    assert!(rt; are_kept(rt.alloc()) == Some(true));
}
