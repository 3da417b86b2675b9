//! Texts of entries with their weights.

ghost use Rattle.std.specs.Prelude.{◌≡◌, ◌++◌, ◌≤◌, ◌^◌, List, length, map, flat_map, Err, IfOk, IfErr, OnOk, IsErrOf};
ghost use Rattle.cache_entries.specs.RowText.{row_text, recency_text};
ghost use Rattle.cache_entries.specs.declared.rows.Tracked.{Tracked};
ghost use Rattle.cache_evict.specs.Loads.{CantBeWritten, HasLongTag};
ghost use Rattle.lru_async_manager.specs.Faults.{unasked};
ghost use Rattle.lru_async_manager.specs.Texts.{row_of_pair};

use crate::fault::TextFault;
use cache_entries::entry::{CacheEntryKey, CacheEntryKeyRef};
use cache_entries::pack::put_row;
use cache_words::pack::{PackWriteFault, writing};
use lru_async::SendFault;
use std::alloc::Global;

/// Returns the text of entries with their weights, in their order.
///
/// # Errors
///
/// No memory for the text; or no form counts the entries or the bytes of a tag, which is `TooLong`.
pub fn text_of(alloc: Global, pairs: &[(CacheEntryKey, usize)]) -> Result<Vec<u8>, PackWriteFault>
    ensures ok { IfOk result (λ v. v.items ≡ recency_text (map row_of_pair pairs.now)) }
    ensures fits { OnOk result (CantBeWritten (map row_of_pair pairs.now) → ⊥) }
    ensures long { IsErrOf result PackWriteFault.TooLong → CantBeWritten (map row_of_pair pairs.now) }
    ensures many { 2 ^ 32 ≤ length pairs.now → IsErrOf result PackWriteFault.TooLong }
{
    let Ok(count) = u32::try_from(pairs.len()) else {
        return Err(PackWriteFault::TooLong);
    };
    let mut out = Vec::new(alloc);
    if writing::put_array(&mut out, count).is_err() {
        return Err(PackWriteFault::Memory);
    }
    match put_rows(&mut out, pairs) {
        Ok(()) => Ok(out),
        Err(fault) => Err(fault),
    }
}

// Returns the text of a snapshot, or why there is none: the question was refused, or the rows were not written.
pub(crate) fn text_of_snapshot(
    alloc: Global,
    snapshot: Result<Vec<(CacheEntryKey, usize)>, SendFault<()>>,
) -> Result<Vec<u8>, TextFault>
    ensures unasked { IfErr snapshot (λ fault. result ≡ Err (unasked fault)) }
    ensures ok { IfOk snapshot (λ pairs. IfOk result (λ v. v.items ≡ recency_text (map row_of_pair pairs.items))) }
    ensures fits { IfOk snapshot (λ pairs. OnOk result (CantBeWritten (map row_of_pair pairs.items) → ⊥)) }
    ensures long { IfOk snapshot (λ pairs. IsErrOf result TextFault.TooLong → CantBeWritten (map row_of_pair pairs.items)) }
    ensures many { IfOk snapshot (λ pairs. 2 ^ 32 ≤ length pairs.items → IsErrOf result TextFault.TooLong) }
    ensures asked { IfOk snapshot (λ pairs. IsErrOf result TextFault.Closed → ⊥) }
    ensures some_text { IfOk result (λ v. (rows : List Tracked) × (v.items ≡ recency_text rows) × (CantBeWritten rows → ⊥)) }
{
    let pairs = match snapshot {
        Ok(pairs) => pairs,
        Err(SendFault::Memory(())) => return Err(TextFault::Memory),
        Err(SendFault::Closed(())) => return Err(TextFault::Closed),
    };
    match text_of(alloc, pairs.as_slice()) {
        Ok(text) => Ok(text),
        Err(PackWriteFault::Memory) => Err(TextFault::Memory),
        Err(PackWriteFault::TooLong) => Err(TextFault::TooLong),
    }
}

// Adds the rows of entries with their weights.
fn put_rows(out: &mut Vec<u8>, pairs: &[(CacheEntryKey, usize)]) -> Result<(), PackWriteFault>
    ensures ok { OnOk result (out.new.items ≡ out.old.items ++ flat_map row_text (map row_of_pair pairs.now)) }
    ensures fits { OnOk result (HasLongTag (map row_of_pair pairs.now) → ⊥) }
    ensures long { IsErrOf result PackWriteFault.TooLong → HasLongTag (map row_of_pair pairs.now) }
{
    'rows: for pair in pairs {
        put_row(out, CacheEntryKeyRef::from(&pair.0), pair.1)?;
    }
    Ok(())
}
