//! The writes that have readers.
ghost use Rattle.std.specs.Prelude.{◌≡◌, ℕ, List, ◌==◌, is_some, true, cond, option_map, Some, IfOk, IfErr, OnOk, OnErr};
ghost use Rattle.std.specs.Ordering.{nat_cmp};
ghost use Rattle.std.specs.BTreeMap.{get};
ghost use Rattle.cache_store.specs.declared.storage.StoreFault.{StoreFault as Fault};
ghost use Rattle.cache_store.specs.StoreState.{left_with};
ghost use Rattle.cache_changes.specs.Store.{empty_store};
ghost use Rattle.cache_store.specs.Readers.{left_at, whole_past};
ghost use Rattle.store_memory.specs.Kept.{bytes_in, readings_of, IsShare, counted, joined, parted};

use crate::flight::{Buffer, Readers};
use bytes::Bytes;
use cache_store::storage::StoreFault;
use std::alloc::AllocError;
use std::collections::BTreeMap;

pub(crate) type AllReaders = BTreeMap<u64, Readers>;

// Leaves the readers of a write its bytes, which are all of it or not.
pub(crate) fn leave_bytes(readers: &mut AllReaders, number: u64, buffer: Buffer, whole: bool)
    ensures { readings_of readers.new.entries ≡ left_with number (bytes_in buffer) whole (readings_of readers.old.entries) }
{
    if readers.contains_key(&number) {
        put_bytes(readers, number, buffer, whole);
    }
}

// Leaves bytes to readers who are there.
fn put_bytes(readers: &mut AllReaders, number: u64, buffer: Buffer, whole: bool)
    requires { is_some (get nat_cmp readers.old number) ≡ true }
    ensures { readings_of readers.new.entries ≡ left_with number (bytes_in buffer) whole (readings_of readers.old.entries) }
{
    let reading = readers.get_mut(&number).unwrap();
    reading.left = Some(buffer);
    reading.whole = whole;
}

// Shares bytes with the readers of a write, if it has some.
pub(crate) fn share_for(
    readers: &AllReaders,
    number: u64,
    bytes: &Bytes,
) -> Result<Option<Bytes>, AllocError>
    ensures { IfOk result (λ share. IsShare share (is_some (get nat_cmp readers.now number)) bytes.now) }
{
    if !readers.contains_key(&number) {
        return Ok(None);
    }
    let share = bytes.clone()?;
    Ok(Some(share))
}

// Leaves the readers of a write what was shared with them: all of it.
pub(crate) fn leave_share(readers: &mut AllReaders, number: u64, share: Option<Bytes>)
    ensures { (bytes : List ℕ) → IsShare share (is_some (get nat_cmp readers.old number)) bytes → readings_of readers.new.entries ≡ left_with number bytes true (readings_of readers.old.entries) }
{
    let Some(bytes) = share else {
        return;
    };
    leave_bytes(readers, number, Buffer::Whole(bytes), true);
}

// Returns the bytes that readers of a write were left with.
pub(crate) fn left_of(readers: &AllReaders, number: u64) -> Option<&Buffer>
    ensures { option_map (λ b. bytes_in b.now) result ≡ left_at number (readings_of readers.now.entries) }
{
    match readers.get(&number) {
        Some(reading) => reading.left.as_ref(),
        None => None,
    }
}

// Returns whether all of a write that is in flight no more came, where a reader at that place has read what there is.
pub(crate) fn whole_left(readers: &AllReaders, number: u64, place: usize) -> Option<bool>
    ensures { result ≡ whole_past number place (record { store = empty_store; next = 0; readings = readings_of readers.now.entries }) }
{
    let Some(reading) = readers.get(&number) else {
        return Some(false);
    };
    match &reading.left {
        Some(buffer) => {
            if place < buffer.len() {
                None
            } else {
                Some(reading.whole)
            }
        }
        None => Some(reading.whole),
    }
}

// Returns how many readers a write has beside one, if it has any.
fn others_of(readers: &AllReaders, number: u64) -> Option<u64>
    ensures { result ≡ option_map (λ r. r.others) (get nat_cmp readers.now number) }
{
    Some(readers.get(&number)?.others)
}

// Sets how many readers a write has beside one.
fn set_others(readers: &mut AllReaders, number: u64, others: u64)
    requires { is_some (get nat_cmp readers.old number) ≡ true }
    ensures { (m : ℕ) → get nat_cmp readers.new m ≡ cond (number == m) (option_map (counted others) (get nat_cmp readers.old number)) (get nat_cmp readers.old m) }
{
    let reading = readers.get_mut(&number).unwrap();
    reading.others = others;
}

// Counts one more reader of a write.
pub(crate) fn attach(readers: &mut AllReaders, number: u64) -> Result<(), StoreFault>
    ensures fault { IfErr result (λ f. f ≡ Fault.Memory) }
    ensures ok { OnOk result ((m : ℕ) → get nat_cmp readers.new m ≡ cond (number == m) (Some (joined (get nat_cmp readers.old number))) (get nat_cmp readers.old m)) }
    ensures err { OnErr result (readers.new.entries ≡ readers.old.entries) }
{
    match others_of(readers, number) {
        None => match readers.insert(
            number,
            Readers {
                others: 0,
                left: None,
                whole: false,
            },
        ) {
            Ok(_) => Ok(()),
            Err(_) => Err(StoreFault::Memory),
        },
        Some(before) => match before.checked_add(1) {
            None => Err(StoreFault::Memory),
            Some(others) => {
                set_others(readers, number, others);
                Ok(())
            }
        },
    }
}

// Counts one reader of a write less.
pub(crate) fn detach(readers: &mut AllReaders, number: u64)
    ensures { (m : ℕ) → get nat_cmp readers.new m ≡ cond (number == m) (parted (get nat_cmp readers.old number)) (get nat_cmp readers.old m) }
{
    match others_of(readers, number) {
        None => {}
        Some(others) => {
            if others > 0 {
                set_others(readers, number, others - 1);
            } else {
                readers.remove(&number);
            }
        }
    }
}
