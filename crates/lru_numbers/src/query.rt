//! Look-ups by an entry whose tag is borrowed.

ghost use Rattle.std.specs.Prelude.{◌≡◌, option_map};
ghost use Rattle.std.specs.List.{fold};
ghost use Rattle.cache_words.specs.BorrowedKey.{borrowed_view};
ghost use Rattle.cache_entries.specs.BorrowedEntry.{borrowed_entry};
ghost use Rattle.cache_entries.specs.Entry.{owned_of, number_of, same_entry};
ghost use Rattle.cache_entries.specs.EntryText.{kept_key};
ghost use Rattle.cache_entries.specs.Keys.{same_key};
ghost use Rattle.cache_entries.specs.SameEntry.{entries_equivalence, same-hashed, same_entry-tells};
ghost use Rattle.lru_numbers.specs.Hashed.{halves, halves_if_any, id_writes, table_writes};

use crate::table_key::TableKey;
use cache_entries::entry::{CacheEntryId, CacheEntryKey, CacheEntryKeyRef};
use cache_entries::pack::BorrowedEntry;
use cache_words::key::{CompactCacheKey, HashBinary};
use cache_words::pack::BorrowedKey;
use indexmap::Equivalent;
use seeded_hashing::write_pieces;
use std::hash::{Hash, Hasher};

// An entry whose tag is borrowed, which is compared and hashed as the entry that it stands for.
#[derive(Clone, Copy)]
pub(crate) struct Query<'a> {
    pub(crate) entry: BorrowedEntry<'a>,
}

impl<'a> Query<'a> {
    // The same entry, whose tag is borrowed.
    pub(crate) fn of(entry: CacheEntryKeyRef<'a>) -> Query<'a>
        ensures { borrowed_entry result.entry ≡ owned_of entry.entry }
    {
        let key = entry.key();
        Query {
            entry: BorrowedEntry {
                key: BorrowedKey {
                    primary: key.primary,
                    variance: key.variance,
                    user_tag: key.user_tag.as_str(),
                },
                id: entry.entry_id(),
            },
        }
    }
}

impl<'a> PartialEq for Query<'a> {
    ghost use Rattle.std.specs.Cmp.{partial_equiv_from_equiv, on_per};

    ghost eq = { λ a b. same_entry (borrowed_entry a.entry) (borrowed_entry b.entry) };

    ghost laws = { on_per (λ q. borrowed_entry q.entry) (partial_equiv_from_equiv entries_equivalence) };

    fn eq(&self, other: &Query<'a>) -> bool {
        let same = self.entry.key.primary == other.entry.key.primary
            && self.entry.key.variance == other.entry.key.variance
            && self.entry.key.user_tag == other.entry.key.user_tag;
        match (self.entry.id, other.entry.id) {
            (None, None) => same,
            (Some(id), Some(wanted)) => same && id.get() == wanted.get(),
            _ => false,
        }
    }
}

impl<'a> Eq for Query<'a> {
    ghost use Rattle.std.specs.Cmp.{on_equiv};

    ghost laws = { on_equiv (λ q. borrowed_entry q.entry) entries_equivalence };
}

// Hashes sixteen bytes in two writes, as `write_pieces` would.
fn hash_halves<H: Hasher>(bytes: &HashBinary, state: &mut H)
    ensures { state.new ≡ fold H.write state.old (halves bytes.now) }
{
    let (front, back) = bytes.split_at(8);
    state.write(front);
    state.write(back);
}

// Hashes what a response varies by.
fn hash_variance<H: Hasher>(variance: &Option<HashBinary>, state: &mut H)
    ensures { state.new ≡ fold H.write state.old (halves_if_any variance.now) }
{
    if let Some(bytes) = variance {
        hash_halves(bytes, state);
    }
}

// Hashes an id.
fn hash_id<H: Hasher>(id: Option<CacheEntryId>, state: &mut H)
    ensures { state.new ≡ fold H.write state.old (id_writes (option_map number_of id)) }
{
    if let Some(id) = id {
        state.write_u64(id.get());
    }
}

impl<'a> Hash for Query<'a> {
    ghost hash_input = { λ query. table_writes (borrowed_entry query.entry) };

    ghost respects_eq = { λ a b. same-hashed same_entry same_entry-tells table_writes (borrowed_entry a.entry) (borrowed_entry b.entry) };

    // No write has more than eight bytes, since attackers choose the tag: `write_pieces` says what they could do to a longer one.
    fn hash<H: Hasher>(&self, state: &mut H) {
        hash_halves(&self.entry.key.primary, state);
        hash_variance(&self.entry.key.variance, state);
        write_pieces(self.entry.key.user_tag.as_bytes(), state);
        hash_id(self.entry.id, state);
    }
}

impl<'a> Equivalent<TableKey> for Query<'a> {
    ghost equivalent = { λ query entry. same_entry (borrowed_entry query.entry) entry };

    ghost respects_hash = { λ query entry. same-hashed same_entry same_entry-tells table_writes (borrowed_entry query.entry) entry };

    ghost respects_eq = { λ query a b. entries_equivalence.congr (borrowed_entry query.entry) a b };

    fn equivalent(&self, other: &TableKey) -> bool {
        match (self.entry.id, other.entry()) {
            (None, CacheEntryKey::KeyOnly(key)) => is_of(self.entry.key, key),
            (Some(wanted), CacheEntryKey::Identified { key, id }) => {
                is_of(self.entry.key, key) && wanted.get() == id.get()
            }
            _ => false,
        }
    }
}

// Whether both are one key.
fn is_of(wanted: BorrowedKey<'_>, key: &CompactCacheKey) -> bool
    ensures { result ≡ same_key (kept_key (borrowed_view wanted.entry)) key.now }
{
    wanted.primary == key.primary
        && wanted.variance == key.variance
        && wanted.user_tag == key.user_tag.as_str()
}
