// Each reader takes a value from the front of a cursor. After a fault the cursor is as before.
ghost use Rattle.std.specs.Prelude.{◌≡◌, ◌<◌, ℕ, slice_index};
ghost use Rattle.cache_words.specs.Cursor.{IsTaken, StepsAs};
ghost use Rattle.cache_entries.specs.BorrowedEntry.{borrowed_entry};
ghost use Rattle.cache_entries.specs.BorrowedRow.{borrowed_row};
ghost use Rattle.cache_entries.specs.RowText.{SpellsRow, row_at};
ghost use Rattle.cache_entries.specs.EntryText.{SpellsEntry, entry_at, pair_at, alone_at};

use super::{BorrowedEntry, BorrowedRow};
use crate::entry::CacheEntryId;
use cache_words::pack::{Cursor, PackFault};

#[tactic(auto, unfolding(crate::specs::EntryText::pair_at))]
fn pair<'a>(bytes: &mut Cursor<'a>) -> Result<BorrowedEntry<'a>, PackFault>
    ensures { StepsAs borrowed_entry pair_at bytes.old.rest.now bytes.new.rest.now result }
{
    let key = bytes.key()?;
    let id = match bytes.optional_number()? {
        Some(id) => Some(CacheEntryId::new(id)),
        None => None,
    };
    Ok(BorrowedEntry { key, id })
}

#[tactic(auto, unfolding(crate::specs::EntryText::alone_at))]
fn alone<'a>(bytes: &mut Cursor<'a>) -> Result<BorrowedEntry<'a>, PackFault>
    ensures { StepsAs borrowed_entry alone_at bytes.old.rest.now bytes.new.rest.now result }
{
    let key = bytes.key()?;
    Ok(BorrowedEntry { key, id: None })
}

// An entry; after a fault the cursor may be anywhere.
#[tactic(auto, unfolding(crate::specs::EntryText::entry_at))]
fn entry<'a>(bytes: &mut Cursor<'a>) -> Result<BorrowedEntry<'a>, PackFault>
    ensures { StepsAs borrowed_entry entry_at bytes.old.rest.now bytes.new.rest.now result }
{
    let mut items = *bytes;
    if items.array()? == 2 {
        *bytes = items;
        pair(bytes)
    } else {
        alone(bytes)
    }
}

/// Takes an entry: a key, or an array of a key, and an id or nil. Its tag is borrowed from the bytes.
///
/// # Errors
///
/// The first fault from the left; nothing is taken then.
pub fn take_entry<'a>(bytes: &mut Cursor<'a>) -> Result<BorrowedEntry<'a>, PackFault>
    ensures { IsTaken borrowed_entry entry_at SpellsEntry bytes.old.rest.now bytes.new.rest.now result }
{
    let mut after = Cursor {
        rest: checked(bytes.rest),
    };
    match entry(&mut after) {
        Ok(entry) => {
            *bytes = after;
            Ok(entry)
        }
        Err(fault) => Err(fault),
    }
}

// A row; after a fault the cursor may be anywhere.
#[tactic(auto, unfolding(crate::specs::RowText::row_at))]
fn row<'a>(bytes: &mut Cursor<'a>) -> Result<BorrowedRow<'a>, PackFault>
    ensures { StepsAs borrowed_row row_at bytes.old.rest.now bytes.new.rest.now result }
{
    bytes.array_of(2)?;
    let entry = entry(bytes)?;
    let weight = bytes.number()?;
    Ok(BorrowedRow {
        entry,
        weight: weight as usize,
    })
}

/// Takes a row of an order of use: an array of an entry and its weight.
///
/// # Errors
///
/// The first fault from the left; nothing is taken then.
pub fn take_row<'a>(bytes: &mut Cursor<'a>) -> Result<BorrowedRow<'a>, PackFault>
    ensures { IsTaken borrowed_row row_at SpellsRow bytes.old.rest.now bytes.new.rest.now result }
{
    let mut after = Cursor {
        rest: checked(bytes.rest),
    };
    match row(&mut after) {
        Ok(row) => {
            *bytes = after;
            Ok(row)
        }
        Err(fault) => Err(fault),
    }
}

// The bytes, with the fact that each is below 256.
fn checked(bytes: &[u8]) -> &[u8]
    ensures same { result.now ≡ bytes.now }
    ensures fits { (i : ℕ) → slice_index result.now i < 256 }
{
    bytes
}
