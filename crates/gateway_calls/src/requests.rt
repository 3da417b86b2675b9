//! A request's head, read without a gateway: no lock is needed.

ghost use Rattle.std.specs.Prelude.{◌≡◌};
ghost use Rattle.gateway_calls.specs.Told.{IsRead};

use crate::numbers::{BAD_CALL, DONE, MEMORY, MORE as GOES_ON};
use crate::structs::{RequestShown, lent, nothing};
use cache_words::key::hash_key;
use gateway_rules::values::{RequestHead, text_of};
use rules_ffi::reading::{head_end, read_request, unread};
use rules_ffi_arguments::bad::Bad;
use rules_ffi_arguments::shapes::OptionNumbers;
use rules_ffi_results::marks::{MORE, NO_ROOM};
use std::alloc::Global;

/// What was read, which `start` takes; nothing, where there is no head yet.
#[derive(Drop)]
pub struct HeldRequest {
    pub(crate) head: Option<RequestHead>,
}

// What came of the bytes so far.
enum Reading {
    Goes,
    Read(RequestHead),
}

// The bytes that a text has beside what it is made of.
const ROOM: usize = 2048;

fn text_len(needed: u64) -> usize {
    usize::try_from(needed).unwrap_or(0)
}

fn blank(status: u64) -> RequestShown
    ensures { result.status ≡ status }
{
    RequestShown {
        status,
        used: 0,
        rejected: 0,
        place: 0,
        key: nothing(),
        method: nothing(),
        host: nothing(),
        target: nothing(),
        reserved: [0; 2],
    }
}

// The last four bytes of a digest, as a number.
fn place_of(digest: &[u8; 16]) -> u64 {
    u64::from(u32::from_le_bytes([digest[12], digest[13], digest[14], digest[15]]))
}

fn shown(head: &RequestHead) -> RequestShown
    ensures { result.status ≡ 80 }
{
    let mut told = blank(DONE);
    told.used = head.head_len();
    if head.is_rejected() {
        told.rejected = 1;
        return told;
    }
    let key = head.key();
    let text = head.text.as_slice();
    told.place = place_of(&hash_key(key));
    told.key = lent(key);
    told.method = lent(head.method());
    told.host = lent(text_of(text, head.shape.host));
    told.target = lent(text_of(text, head.shape.target));
    told
}

fn read(
    alloc: Global,
    numbers: &OptionNumbers,
    words: &[u8],
    bytes: &[u8],
    looked: u64,
) -> Result<Reading, Bad> {
    if head_end(bytes, looked) == 0 && bytes.len() as u64 <= numbers.most_head {
        return Ok(Reading::Goes);
    }
    let mut size = bytes.len();
    for _ in 0..2 {
        let room = size.saturating_mul(2).saturating_add(ROOM);
        let mut text = vec![in alloc; 0u8; room]?;
        let mut shape = unread(MORE, 0, 0, 0);
        read_request(
            alloc,
            numbers,
            words,
            bytes,
            text.as_mut_slice(),
            &mut shape,
        );
        match shape.status {
            MORE => return Ok(Reading::Goes),
            MEMORY => return Err(Bad::Memory),
            BAD_CALL => return Err(Bad::Call),
            NO_ROOM => size = text_len(shape.needed),
            _ => {
                text.truncate(text_len(shape.whole.to));
                return Ok(Reading::Read(RequestHead { shape, text }));
            }
        }
    }
    Err(Bad::Call)
}

/// Reads the head of the next request, also of one that is refused. `looked`: so many of these bytes were given before.
pub fn parse(
    alloc: Global,
    numbers: &OptionNumbers,
    words: &[u8],
    bytes: &[u8],
    looked: u64,
    out: &mut RequestShown,
) -> HeldRequest
    ensures { IsRead out.new result }
{
    let (told, head) = match read(alloc, numbers, words, bytes, looked) {
        Ok(Reading::Read(head)) => (shown(&head), Some(head)),
        Ok(Reading::Goes) => (blank(GOES_ON), None),
        Err(Bad::Memory) => (blank(MEMORY), None),
        Err(Bad::Call) => (blank(BAD_CALL), None),
    };
    *out = told;
    HeldRequest { head }
}

/// Lets go of a request that isn't started. Any thread may do so.
pub fn free_request(request: HeldRequest) {
    let _freed = request;
}
