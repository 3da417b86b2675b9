//! Writers. Each adds the shortest form of a value to a sink. An `Err` leaves the sink as it was.
ghost use Rattle.std.specs.Prelude.{◌≡◌, ◌+◌, ◌++◌, ◌<◌, ◌≤◌, ◌^◌, ◌≤ℤ◌, ◌↔◌, ℕ, pos, nat_abs, take, length, OnOk, OnErr, IsOk, IsErrOf};
ghost use Rattle.cache_words.specs.Forms.{shortest, numbers, arrays, texts, byte_strings};
ghost use Rattle.cache_words.specs.Pack.{nil, text_of, bytes_of, hash_of, optional_hash_of, moment_of, key_text_of};
ghost use Rattle.cache_words.specs.CompactKey.{compact_view};

use super::fault::PackWriteFault;
use super::sink::Sink;
use crate::key::{CompactCacheKey, HashBinary};
use crate::time::Moment;
use std::alloc::AllocError;

/// The most bytes of a number.
pub const NUMBER_ROOM: usize = 9;

/// The most bytes ahead of an array's items, a text's bytes or a byte string's bytes.
pub const HEAD_ROOM: usize = 5;

/// The most bytes of a hash.
pub const HASH_ROOM: usize = 35;

/// The most bytes of a moment.
pub const MOMENT_ROOM: usize = 15;

/// The most bytes of a kept key beside those of its tag.
pub const KEY_ROOM: usize = 76;

// A writer `add_..` finds room for what it adds; a writer `put_..` makes it.

/// Adds a number, for which there is room.
pub fn add_number<S: Sink>(out: &mut S, number: u64)
    requires { S.has_room out.old (length (shortest numbers number)) }
    ensures adds { S.adds out.old (shortest numbers number) out.new }
    ensures room { (n : ℕ) → S.has_room out.old (length (shortest numbers number) + n) → S.has_room out.new n }
{
    if number < 1 << 7 {
        out.put(&[number as u8]);
    } else if number < 1 << 8 {
        out.put(&[0xcc, number as u8]);
    } else if number < 1 << 16 {
        let [a, b] = (number as u16).to_be_bytes();
        out.put(&[0xcd, a, b]);
    } else if number < 1 << 32 {
        let [a, b, c, d] = (number as u32).to_be_bytes();
        out.put(&[0xce, a, b, c, d]);
    } else {
        let [a, b, c, d, e, f, g, h] = number.to_be_bytes();
        out.put(&[0xcf, a, b, c, d, e, f, g, h]);
    }
}

/// Adds how many items an array has, for which there is room. The items are to follow.
pub fn add_array<S: Sink>(out: &mut S, count: u32)
    requires { S.has_room out.old (length (shortest arrays count)) }
    ensures adds { S.adds out.old (shortest arrays count) out.new }
    ensures room { (n : ℕ) → S.has_room out.old (length (shortest arrays count) + n) → S.has_room out.new n }
{
    if count < 16 {
        out.put(&[0x90 + count as u8]);
    } else if count < 1 << 16 {
        let [a, b] = (count as u16).to_be_bytes();
        out.put(&[0xdc, a, b]);
    } else {
        let [a, b, c, d] = count.to_be_bytes();
        out.put(&[0xdd, a, b, c, d]);
    }
}

fn add_text_head<S: Sink>(out: &mut S, count: u32)
    requires { S.has_room out.old (length (shortest texts count)) }
    ensures adds { S.adds out.old (shortest texts count) out.new }
    ensures room { (n : ℕ) → S.has_room out.old (length (shortest texts count) + n) → S.has_room out.new n }
{
    if count < 32 {
        out.put(&[0xa0 + count as u8]);
    } else if count < 1 << 8 {
        out.put(&[0xd9, count as u8]);
    } else if count < 1 << 16 {
        let [a, b] = (count as u16).to_be_bytes();
        out.put(&[0xda, a, b]);
    } else {
        let [a, b, c, d] = count.to_be_bytes();
        out.put(&[0xdb, a, b, c, d]);
    }
}

fn add_bytes_head<S: Sink>(out: &mut S, count: u32)
    requires { S.has_room out.old (length (shortest byte_strings count)) }
    ensures adds { S.adds out.old (shortest byte_strings count) out.new }
    ensures room { (n : ℕ) → S.has_room out.old (length (shortest byte_strings count) + n) → S.has_room out.new n }
{
    if count < 1 << 8 {
        out.put(&[0xc4, count as u8]);
    } else if count < 1 << 16 {
        let [a, b] = (count as u16).to_be_bytes();
        out.put(&[0xc5, a, b]);
    } else {
        let [a, b, c, d] = count.to_be_bytes();
        out.put(&[0xc6, a, b, c, d]);
    }
}

fn add_text<S: Sink>(out: &mut S, text: &str)
    requires short { length text.now < 2 ^ 32 }
    requires room { S.has_room out.old (length (text_of text.now)) }
    ensures adds { S.adds out.old (text_of text.now) out.new }
    ensures room { (n : ℕ) → S.has_room out.old (length (text_of text.now) + n) → S.has_room out.new n }
{
    add_text_head(out, text.len() as u32);
    out.put(text.as_bytes());
}

// Writes the form of a byte at that place, and returns where it ends. It has no branch, since a hash's bytes are like random ones.
#[inline(always)]
fn write_byte(forms: &mut [u8; HASH_ROOM], at: usize, byte: u8) -> usize
    requires { at + 2 ≤ HASH_ROOM }
    ensures end { result ≤ at + 2 }
    ensures written { take result forms.new ≡ take at forms.old ++ shortest numbers byte }
{
    let more = if byte < 128 { 0 } else { 1 };
    forms[at] = 0xcc;
    forms[at + more] = byte;
    at + more + 1
}

// The form of a hash at the front of an array, and its length.
fn form_of(hash: &HashBinary) -> ([u8; HASH_ROOM], usize)
    ensures within { result.1 ≤ HASH_ROOM }
    ensures form { take result.1 result.0 ≡ hash_of hash.now }
{
    let mut forms = [0; HASH_ROOM];
    forms[0] = 0xdc;
    forms[2] = 16;
    let mut len = 3;
    'each: for byte in hash {
        len = write_byte(&mut forms, len, *byte);
    }
    (forms, len)
}

// Adds a hash. Its form is made in an array first, since a sink takes one piece in less time than many.
fn add_hash<S: Sink>(out: &mut S, hash: &HashBinary)
    requires { S.has_room out.old HASH_ROOM }
    ensures adds { S.adds out.old (hash_of hash.now) out.new }
    ensures room { (n : ℕ) → S.has_room out.old (HASH_ROOM + n) → S.has_room out.new n }
{
    let (forms, len) = form_of(hash);
    out.put(&forms[..len]);
}

fn add_optional_hash<S: Sink>(out: &mut S, hash: Option<HashBinary>)
    requires { S.has_room out.old HASH_ROOM }
    ensures adds { S.adds out.old (optional_hash_of hash) out.new }
    ensures room { (n : ℕ) → S.has_room out.old (HASH_ROOM + n) → S.has_room out.new n }
{
    match hash {
        Some(hash) => add_hash(out, &hash),
        None => out.put(&[0xc0]),
    }
}

/// Adds a kept key, for which there is room.
pub fn add_key<S: Sink>(out: &mut S, key: &CompactCacheKey)
    requires short { length key.now.user_tag < 2 ^ 32 }
    requires room { S.has_room out.old (KEY_ROOM + length key.now.user_tag) }
    ensures adds { S.adds out.old (key_text_of (compact_view key.now)) out.new }
    ensures room { (n : ℕ) → S.has_room out.old (KEY_ROOM + length key.now.user_tag + n) → S.has_room out.new n }
{
    add_array(out, 3);
    add_hash(out, &key.primary);
    add_optional_hash(out, key.variance);
    add_text(out, key.user_tag.as_str());
}

/// Adds a number.
pub fn put_number<S: Sink>(out: &mut S, number: u64) -> Result<(), AllocError>
    ensures ok { OnOk result (S.adds out.old (shortest numbers number) out.new) }
    ensures err { OnErr result (S.same out.old out.new) }
    ensures succeeds { S.has_room out.old NUMBER_ROOM → IsOk result }
{
    out.reserve(NUMBER_ROOM)?;
    add_number(out, number);
    Ok(())
}

/// Adds how many items an array has. The items are to follow.
pub fn put_array<S: Sink>(out: &mut S, count: u32) -> Result<(), AllocError>
    ensures ok { OnOk result (S.adds out.old (shortest arrays count) out.new) }
    ensures err { OnErr result (S.same out.old out.new) }
    ensures succeeds { S.has_room out.old HEAD_ROOM → IsOk result }
{
    out.reserve(HEAD_ROOM)?;
    add_array(out, count);
    Ok(())
}

/// Adds nil.
pub fn put_nil<S: Sink>(out: &mut S) -> Result<(), AllocError>
    ensures ok { OnOk result (S.adds out.old nil out.new) }
    ensures err { OnErr result (S.same out.old out.new) }
    ensures succeeds { S.has_room out.old 1 → IsOk result }
{
    out.reserve(1)?;
    out.put(&[0xc0]);
    Ok(())
}

/// Adds a text. One of 2^32 bytes or more is `TooLong`, since no form counts its bytes.
pub fn put_text<S: Sink>(out: &mut S, text: &str) -> Result<(), PackWriteFault>
    ensures ok { OnOk result (S.adds out.old (text_of text.now) out.new) }
    ensures err { OnErr result (S.same out.old out.new) }
    ensures long { IsErrOf result PackWriteFault.TooLong ↔ (2 ^ 32 ≤ length text.now) }
    ensures succeeds { length text.now < 2 ^ 32 → S.has_room out.old (HEAD_ROOM + length text.now) → IsOk result }
{
    if text.len() > u32::MAX as usize {
        return Err(PackWriteFault::TooLong);
    }
    out.reserve(HEAD_ROOM + text.len())?;
    add_text(out, text);
    Ok(())
}

/// Adds a byte string. One of 2^32 bytes or more is `TooLong`, since no form counts its bytes.
pub fn put_byte_string<S: Sink>(out: &mut S, bytes: &[u8]) -> Result<(), PackWriteFault>
    ensures ok { OnOk result (S.adds out.old (bytes_of bytes.now) out.new) }
    ensures err { OnErr result (S.same out.old out.new) }
    ensures long { IsErrOf result PackWriteFault.TooLong ↔ (2 ^ 32 ≤ length bytes.now) }
    ensures succeeds { length bytes.now < 2 ^ 32 → S.has_room out.old (HEAD_ROOM + length bytes.now) → IsOk result }
{
    if bytes.len() > u32::MAX as usize {
        return Err(PackWriteFault::TooLong);
    }
    out.reserve(HEAD_ROOM + bytes.len())?;
    add_bytes_head(out, bytes.len() as u32);
    out.put(bytes);
    Ok(())
}

/// Adds a hash.
pub fn put_hash<S: Sink>(out: &mut S, hash: &HashBinary) -> Result<(), AllocError>
    ensures ok { OnOk result (S.adds out.old (hash_of hash.now) out.new) }
    ensures err { OnErr result (S.same out.old out.new) }
    ensures succeeds { S.has_room out.old HASH_ROOM → IsOk result }
{
    out.reserve(HASH_ROOM)?;
    add_hash(out, hash);
    Ok(())
}

/// Adds a hash, or nil for none.
pub fn put_optional_hash<S: Sink>(out: &mut S, hash: Option<HashBinary>) -> Result<(), AllocError>
    ensures ok { OnOk result (S.adds out.old (optional_hash_of hash) out.new) }
    ensures err { OnErr result (S.same out.old out.new) }
    ensures succeeds { S.has_room out.old HASH_ROOM → IsOk result }
{
    out.reserve(HASH_ROOM)?;
    add_optional_hash(out, hash);
    Ok(())
}

// The seconds of a moment that isn't before 1970.
fn seconds_of(moment: &Moment) -> u64
    requires { pos 0 ≤ℤ moment.now.seconds }
    ensures { result ≡ nat_abs moment.now.seconds }
{
    moment.seconds() as u64
}

/// Adds a moment that isn't before 1970 (`is_before_epoch` tests it).
pub fn put_moment<S: Sink>(out: &mut S, moment: Moment) -> Result<(), AllocError>
    requires { pos 0 ≤ℤ moment.seconds }
    ensures ok { OnOk result (S.adds out.old (moment_of moment) out.new) }
    ensures err { OnErr result (S.same out.old out.new) }
    ensures succeeds { S.has_room out.old MOMENT_ROOM → IsOk result }
{
    out.reserve(MOMENT_ROOM)?;
    add_array(out, 2);
    add_number(out, seconds_of(&moment));
    add_number(out, moment.nanoseconds() as u64);
    Ok(())
}

/// Adds a kept key. One whose tag has 2^32 bytes or more is `TooLong`, since no form counts its bytes.
pub fn put_key<S: Sink>(out: &mut S, key: &CompactCacheKey) -> Result<(), PackWriteFault>
    ensures ok { OnOk result (S.adds out.old (key_text_of (compact_view key.now)) out.new) }
    ensures err { OnErr result (S.same out.old out.new) }
    ensures long { IsErrOf result PackWriteFault.TooLong ↔ (2 ^ 32 ≤ length key.now.user_tag) }
    ensures succeeds { length key.now.user_tag < 2 ^ 32 → S.has_room out.old (KEY_ROOM + length key.now.user_tag) → IsOk result }
{
    let user_tag = key.user_tag.as_str();
    if user_tag.len() > u32::MAX as usize {
        return Err(PackWriteFault::TooLong);
    }
    out.reserve(KEY_ROOM + user_tag.len())?;
    add_key(out, key);
    Ok(())
}
