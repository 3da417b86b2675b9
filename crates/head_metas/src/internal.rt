//! The moments and numbers of a meta as MessagePack. All three forms are read; the latest is written.
ghost use Rattle.std.specs.Prelude.{◌≡◌, ◌≢◌, ◌≤◌, ◌++◌, ◌∷◌, ◌↔◌, length, Ok, IsTrue, IfOk, IfSome, OnOk, IsErrOf};
ghost use Rattle.head_metas.specs.declared.versions.InternalMetaV2.{InternalMetaV2};
ghost use Rattle.cache_words.specs.Items.{Steps};
ghost use Rattle.cache_words.specs.Forms.{shortest, arrays};
ghost use Rattle.cache_words.specs.Items.{optional_moment_of};
ghost use Rattle.head_metas.specs.Internal.{BeginsWithMeta, IsSinceEpoch, IsWritable, written_meta, item_count, required_of, optional_of, provenance_of};
ghost use Rattle.head_metas.specs.InternalReading.{early_at, v2_at, versioned_at, form_at, meta_at, value_of};

use crate::fault::MetaFault;
use crate::lengths::{moment_len, optional_hash_len, seconds_len};
use crate::versions::{EarlyInternalMeta, InternalMetaV1, InternalMetaV2};
use cache_words::pack::{Cursor, PackFault, writing};
use cache_words::time::Moment;
use std::alloc::{AllocError, Global};

// A shorter input is refused unread, as the original cache refuses it.
const LEAST_LEN: usize = 10;

// How many items the array of each form has. Of the latest form the seventh to the ninth may be absent.
const V0_ITEMS: u64 = 4;

const V1_ITEMS: u64 = 5;

const V2_FEWEST_ITEMS: u64 = 6;

const V2_MOST_ITEMS: u64 = 9;

// Takes the fields of an early form.
#[tactic(auto, unfolding(crate::specs::InternalReading::early_at))]
fn early<const VERSION: u8>(bytes: &mut Cursor<'_>) -> Result<EarlyInternalMeta<VERSION>, PackFault>
    ensures { Steps (early_at VERSION) bytes.old.rest.now bytes.new.rest.now result }
{
    let fresh_until = bytes.moment()?;
    let created = bytes.moment()?;
    let stale_while_revalidate_sec = bytes.seconds()?;
    let stale_if_error_sec = bytes.seconds()?;
    Ok(EarlyInternalMeta {
        fresh_until,
        created,
        stale_while_revalidate_sec,
        stale_if_error_sec,
    })
}

// Takes the fields of the latest form in an array of this many items.
#[tactic(auto, unfolding(crate::specs::InternalReading::v2_at))]
fn v2(bytes: &mut Cursor<'_>, count: u64) -> Result<InternalMetaV2, PackFault>
    ensures { Steps (v2_at count) bytes.old.rest.now bytes.new.rest.now result }
{
    let fresh_until = bytes.moment()?;
    let created = bytes.moment()?;
    let updated = bytes.moment()?;
    let stale_while_revalidate_sec = bytes.seconds()?;
    let stale_if_error_sec = bytes.seconds()?;
    let variance = bytes.hash_there(6 < count)?;
    let epoch_override = bytes.moment_there(7 < count)?;
    let provenance = bytes.moment_there(8 < count)?;
    Ok(InternalMetaV2 {
        fresh_until,
        created,
        updated,
        stale_while_revalidate_sec,
        stale_if_error_sec,
        variance,
        epoch_override,
        provenance,
    })
}

// Takes the fields that follow the version number in an array of this many items.
#[tactic(auto, unfolding(crate::specs::InternalReading::versioned_at))]
fn versioned(bytes: &mut Cursor<'_>, number: u8, count: u64) -> Result<InternalMetaV2, PackFault>
    ensures { Steps (versioned_at number count) bytes.old.rest.now bytes.new.rest.now result }
{
    match number {
        InternalMetaV1::VERSION => {
            if count != V1_ITEMS {
                return Err(PackFault::Length);
            }
            Ok(InternalMetaV2::from(early::<1>(bytes)?))
        }
        InternalMetaV2::VERSION => {
            if count < V2_FEWEST_ITEMS || count > V2_MOST_ITEMS {
                return Err(PackFault::Length);
            }
            v2(bytes, count)
        }
        _ => Err(PackFault::Range),
    }
}

// Takes a meta in any of its forms.
#[tactic(auto, unfolding(crate::specs::InternalReading::form_at))]
fn form(bytes: &mut Cursor<'_>) -> Result<InternalMetaV2, PackFault>
    ensures { Steps form_at bytes.old.rest.now bytes.new.rest.now result }
{
    let count = bytes.array()?;
    if count == V0_ITEMS {
        return Ok(InternalMetaV2::from(early::<0>(bytes)?));
    }
    let number = bytes.byte()?;
    versioned(bytes, number, count)
}

/// Reads the meta at the front of the bytes, and ignores what follows it.
///
/// # Errors
///
/// `Short` for an input of fewer than ten bytes, and otherwise the first fault from the left.
pub fn read(bytes: &[u8]) -> Result<InternalMetaV2, PackFault>
    ensures found { IfOk result (BeginsWithMeta bytes.now) }
    ensures only { (m : InternalMetaV2) → BeginsWithMeta bytes.now m → result ≡ Ok m }
    ensures exact { result ≡ value_of (meta_at bytes.now) }
{
    if bytes.len() < LEAST_LEN {
        return Err(PackFault::Short);
    }
    let mut cursor = Cursor { rest: bytes };
    form(&mut cursor)
}

// Returns whether the moment, if there is one, is not before 1970.
fn is_since_epoch(moment: &Option<Moment>) -> bool
    ensures { IsTrue result ↔ IfSome moment.now IsSinceEpoch }
{
    match moment {
        Some(moment) => !moment.is_before_epoch(),
        None => true,
    }
}

// Returns whether each moment can be written.
fn is_writable(meta: &InternalMetaV2) -> bool
    ensures { IsTrue result ↔ IsWritable meta.now }
{
    !meta.fresh_until.is_before_epoch()
        && !meta.created.is_before_epoch()
        && !meta.updated.is_before_epoch()
        && is_since_epoch(&meta.epoch_override)
        && is_since_epoch(&meta.provenance)
}

// Returns how many items are written: the provenance is one only if it is set.
fn item_count(provenance: &Option<Moment>) -> u32
    ensures { result ≡ item_count provenance.now }
{
    match provenance {
        Some(_) => 9,
        None => 8,
    }
}

// Writes the items that are always present.
fn put_required(out: &mut Vec<u8>, meta: &InternalMetaV2) -> Result<(), AllocError>
    requires { IsWritable meta.now }
    ensures { OnOk result (out.new.items ≡ out.old.items ++ required_of meta.now) }
{
    writing::put_moment(out, meta.fresh_until)?;
    writing::put_moment(out, meta.created)?;
    writing::put_moment(out, meta.updated)?;
    writing::put_number(out, meta.stale_while_revalidate_sec as u64)?;
    writing::put_number(out, meta.stale_if_error_sec as u64)
}

// Writes the items that may be absent: the first two as nil, the provenance not at all.
fn put_optional(out: &mut Vec<u8>, meta: &InternalMetaV2) -> Result<(), AllocError>
    requires { IsWritable meta.now }
    ensures { OnOk result (out.new.items ≡ out.old.items ++ optional_of meta.now) }
{
    writing::put_optional_hash(out, meta.variance)?;
    match meta.epoch_override {
        Some(epoch) => writing::put_moment(out, epoch)?,
        None => writing::put_nil(out)?,
    }
    match meta.provenance {
        Some(provenance) => writing::put_moment(out, provenance),
        None => Ok(()),
    }
}

#[tactic(auto, unfolding(crate::specs::Internal::written_meta))]
fn written(alloc: Global, meta: &InternalMetaV2) -> Result<Vec<u8>, AllocError>
    requires { IsWritable meta.now }
    ensures { IfOk result (λ text. text.items ≡ written_meta meta.now) }
{
    let mut out = Vec::new(alloc);
    writing::put_array(&mut out, item_count(&meta.provenance))?;
    out.push(InternalMetaV2::VERSION)?;
    put_required(&mut out, meta)?;
    put_optional(&mut out, meta)?;
    Ok(out)
}

/// Writes the meta in the latest form, each item in its shortest.
///
/// # Errors
///
/// `MetaMoment` if and only if one of its moments is before 1970, and otherwise `Memory` if memory runs out.
pub fn write(alloc: Global, meta: &InternalMetaV2) -> Result<Vec<u8>, MetaFault>
    ensures ok { IfOk result (λ text. text.items ≡ written_meta meta.now) }
    ensures moment { IsErrOf result MetaFault.MetaMoment ↔ ¬ (IsWritable meta.now) }
    ensures writable { result ≢ Err MetaFault.MetaMoment → IsWritable meta.now }
{
    if !is_writable(meta) {
        return Err(MetaFault::MetaMoment);
    }
    Ok(written(alloc, meta)?)
}

// How many bytes the items take that are always present.
fn required_len(meta: &InternalMetaV2) -> usize
    requires { IsWritable meta.now }
    ensures len { result ≡ length (required_of meta.now) }
    ensures most { result ≤ 55 }
{
    moment_len(&meta.fresh_until)
        + moment_len(&meta.created)
        + moment_len(&meta.updated)
        + seconds_len(meta.stale_while_revalidate_sec)
        + seconds_len(meta.stale_if_error_sec)
}

// How many bytes a moment takes that is an item only where it is there.
fn there_len(moment: &Option<Moment>) -> usize
    requires { IfSome moment.now IsSinceEpoch }
    ensures len { result ≡ length (provenance_of moment.now) }
    ensures most { result ≤ 15 }
{
    match moment {
        Some(moment) => moment_len(moment),
        None => 0,
    }
}

// How many bytes a moment takes, or nil.
fn nil_or_len(moment: &Option<Moment>) -> usize
    requires { IfSome moment.now IsSinceEpoch }
    ensures len { result ≡ length (optional_moment_of moment.now) }
    ensures most { result ≤ 15 }
{
    match moment {
        Some(moment) => moment_len(moment),
        None => 1,
    }
}

// How many bytes come ahead of the items.
fn start_len(provenance: &Option<Moment>) -> usize
    ensures len { result ≡ length (shortest arrays (item_count provenance.now)) }
    ensures most { result ≤ 1 }
{
    match provenance {
        Some(_) => 1,
        None => 1,
    }
}

/// Returns how many bytes `write` makes of the meta: at most 122.
#[tactic(auto, unfolding(crate::specs::Internal::written_meta))]
pub fn written_len(meta: &InternalMetaV2) -> usize
    requires { IsWritable meta.now }
    ensures len { result ≡ length (written_meta meta.now) }
    ensures most { result ≤ 122 }
{
    1 + start_len(&meta.provenance)
        + required_len(meta)
        + optional_hash_len(&meta.variance)
        + nil_or_len(&meta.epoch_override)
        + there_len(&meta.provenance)
}
