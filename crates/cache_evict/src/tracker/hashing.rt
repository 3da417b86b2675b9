//! Hashes that lead to the shards of entries.

ghost use Rattle.std.specs.Prelude.{◌≡◌, ◌<◌, ◌^◌, ◌++◌, ℕ, List, length};
ghost use Rattle.cache_words.specs.BorrowedKey.{borrowed_view};
ghost use Rattle.cache_words.specs.Hasher.{Holds};
ghost use Rattle.cache_words.specs.Pack.{key_text_of};
ghost use Rattle.cache_entries.specs.Entry.{owned_of};
ghost use Rattle.cache_entries.specs.BorrowedEntry.{borrowed_entry};
ghost use Rattle.cache_entries.specs.EntryText.{entry_hash, entry_text};
ghost use Rattle.cache_evict.specs.Numbered.{LeadsHome};

use cache_entries::entry::CacheEntryKeyRef;
use cache_entries::pack::{BorrowedEntry, entry_hash};
use cache_words::blake::Blake2b128;
use cache_words::pack::{BorrowedKey, writing};
use lru_numbers::Numbers;
use std::hash::BuildHasher;

// A hash that leads to the shard of an entry, and with which the search for its number starts. With one shard each hash leads
// to it, so that of the tables serves and no digest is taken: under a secret start attackers don't know from which number the
// search for an entry's begins.
pub(super) fn number_hash<const N: usize, S: BuildHasher>(
    numbers: &Numbers<N, S>,
    entry: CacheEntryKeyRef<'_>,
) -> u64
    ensures { LeadsHome N (owned_of entry.entry) result }
{
    if N == 1 {
        return numbers.hash_of(entry);
    }
    entry_hash(entry)
}

// The hash of the entry that a borrowed one stands for. It takes no memory.
pub(super) fn borrowed_hash(entry: BorrowedEntry<'_>) -> u64
    ensures { result ≡ entry_hash (borrowed_entry entry.entry) }
{
    let mut hasher = Blake2b128::new();
    if entry.key.user_tag.len() <= u32::MAX as usize {
        add_entry(&mut hasher, entry);
    }
    let [a, b, c, d, e, f, g, h, ..] = hasher.finalize();
    u64::from_be_bytes([a, b, c, d, e, f, g, h])
}

// Adds the text of an entry.
fn add_entry(out: &mut Blake2b128, entry: BorrowedEntry<'_>)
    requires { length entry.key.user_tag.now < 2 ^ 32 }
    ensures { (m : List ℕ) → Holds out.old m → Holds out.new (m ++ entry_text (borrowed_entry entry.entry)) }
{
    match entry.id {
        Some(id) => {
            let _ = writing::put_array(out, 2);
            add_key(out, entry.key);
            let _ = writing::put_number(out, id.get());
        }
        None => add_key(out, entry.key),
    }
}

// Adds the text of a key.
fn add_key(out: &mut Blake2b128, key: BorrowedKey<'_>)
    requires { length key.user_tag.now < 2 ^ 32 }
    ensures { (m : List ℕ) → Holds out.old m → Holds out.new (m ++ key_text_of (borrowed_view key.entry)) }
{
    let _ = writing::put_array(out, 3);
    let _ = writing::put_hash(out, &key.primary);
    let _ = writing::put_optional_hash(out, key.variance);
    let _ = writing::put_text(out, key.user_tag);
}
