// Writers. Each adds the shortest form of a value to a sink. An `Err` leaves the sink as it was.
ghost use Rattle.std.specs.Prelude.{◌≡◌, ◌+◌, ◌<◌, ◌≤◌, ◌^◌, ◌↔◌, ℕ, length, OnOk, OnErr, IsOk, IsErrOf, Some};
ghost use Rattle.cache_words.specs.Hasher.{Holds};
ghost use Rattle.cache_entries.specs.Entry.{owned_of, key_of};
ghost use Rattle.cache_entries.specs.RowText.{row_text};
ghost use Rattle.cache_entries.specs.EntryText.{entry_text, entry_hash, HasText};

use crate::entry::CacheEntryKeyRef;
use cache_words::blake::Blake2b128;
use cache_words::pack::{PackWriteFault, Sink, writing};

/// The most bytes of an entry beside those of its tag.
pub const ENTRY_ROOM: usize = 86;

/// The most bytes of a row beside those of its tag.
pub const ROW_ROOM: usize = 96;

// An entry, for which there is room.
fn add_entry<S: Sink>(out: &mut S, entry: CacheEntryKeyRef<'_>)
    requires text { HasText (owned_of entry) }
    requires room { S.has_room out.old (ENTRY_ROOM + length (key_of (owned_of entry)).user_tag) }
    ensures adds { S.adds out.old (entry_text (owned_of entry.entry)) out.new }
    ensures room { (n : ℕ) → S.has_room out.old (ENTRY_ROOM + length (key_of (owned_of entry.entry)).user_tag + n) → S.has_room out.new n }
{
    match entry {
        CacheEntryKeyRef::KeyOnly(key) => writing::add_key(out, key),
        CacheEntryKeyRef::Identified { key, id } => {
            writing::add_array(out, 2);
            writing::add_key(out, key);
            writing::add_number(out, id.get());
        }
    }
}

/// Adds an entry: its key, or an array of its key and its id. One whose tag has 2^32 bytes or more is `TooLong`, since no
/// form counts its bytes.
pub fn put_entry<S: Sink>(out: &mut S, entry: CacheEntryKeyRef<'_>) -> Result<(), PackWriteFault>
    ensures ok { OnOk result (S.adds out.old (entry_text (owned_of entry.entry)) out.new) }
    ensures err { OnErr result (S.same out.old out.new) }
    ensures long { IsErrOf result PackWriteFault.TooLong ↔ (2 ^ 32 ≤ length (key_of (owned_of entry.entry)).user_tag) }
    ensures succeeds { HasText (owned_of entry.entry) → S.has_room out.old (ENTRY_ROOM + length (key_of (owned_of entry.entry)).user_tag) → IsOk result }
{
    let tag_len = entry.key().user_tag.as_str().len();
    if tag_len > u32::MAX as usize {
        return Err(PackWriteFault::TooLong);
    }
    out.reserve(ENTRY_ROOM + tag_len)?;
    add_entry(out, entry);
    Ok(())
}

/// Adds a row of an order of use: an array of its entry and its weight. One whose tag has 2^32 bytes or more is `TooLong`.
pub fn put_row<S: Sink>(
    out: &mut S,
    entry: CacheEntryKeyRef<'_>,
    weight: usize,
) -> Result<(), PackWriteFault>
    ensures ok { OnOk result (S.adds out.old (row_text (record { entry = owned_of entry.entry; weight = weight })) out.new) }
    ensures err { OnErr result (S.same out.old out.new) }
    ensures long { IsErrOf result PackWriteFault.TooLong ↔ (2 ^ 32 ≤ length (key_of (owned_of entry.entry)).user_tag) }
    ensures succeeds { HasText (owned_of entry.entry) → S.has_room out.old (ROW_ROOM + length (key_of (owned_of entry.entry)).user_tag) → IsOk result }
{
    let tag_len = entry.key().user_tag.as_str().len();
    if tag_len > u32::MAX as usize {
        return Err(PackWriteFault::TooLong);
    }
    out.reserve(ROW_ROOM + tag_len)?;
    writing::add_array(out, 2);
    add_entry(out, entry);
    writing::add_number(out, weight as u64);
    Ok(())
}

/// The hash by which an entry gets its shard and its number: the first eight bytes of the digest of its MessagePack, high
/// byte first. It takes no memory. An entry without a text, whose tag has 2^32 bytes or more, has the hash of nothing.
pub fn entry_hash(entry: CacheEntryKeyRef<'_>) -> u64
    ensures { result ≡ entry_hash (owned_of entry.entry) }
{
    let mut hasher = Blake2b128::new();
    // Refused only for such a tag, and then the hasher holds nothing.
    let _ = put_entry(&mut hasher, entry);
    let [a, b, c, d, e, f, g, h, ..] = hasher.finalize();
    u64::from_be_bytes([a, b, c, d, e, f, g, h])
}
