//! Lines of a stream, found in what was read ahead of them.
ghost use Rattle.std.specs.Prelude.{◌≡◌, ◌≢◌, ℕ, List, [], ◌++◌, ◌≤◌, ◌<◌, ◌+◌, ◌-◌, ◌*◌, All, take, drop, length, IfOk, OnOk, OnErr, IfSome};
ghost use Rattle.std.specs.Io.KnownBytes.{Consumes, Keeps, IsAtEnd, prepend_known};
ghost use Rattle.trace_replay.specs.Inputs.{IsLineOf, IsLineBefore};

use memchr::memchr;
use std::alloc::{AllocError, Global};
use std::io::{self, Read};
use std::marker::Model;

// How many bytes the first block has room for.
const BLOCK: usize = 32768;

// After a longer line no room for such lines is kept.
const MOST_KEPT: usize = 1 << 20;

// What was read of a stream and not yet taken. A clause sees these bytes.
#[derive(Drop)]
pub(crate) struct Input {
    // The bytes lie at `start..end`.
    block: Vec<u8>,
    start: usize,
    end: usize,
}

impl Model for Input {
    ghost use Rattle.std.specs.Prelude.{ℕ, List, drop, take, ◌≤◌, ◌-◌, ◌<◌, length};

    ghost Value = { List ℕ };

    ghost view = { λ i. take (i.end - i.start) (drop i.start i.block.items) };

    ghost invariant = { λ i. (i.start ≤ i.end) × (i.end ≤ length i.block.items) × (0 < length i.block.items) };
}

impl Input {
    pub(crate) fn new(alloc: Global) -> Result<Input, AllocError>
        ensures { IfOk result (λ input. input ≡ []) }
    {
        Ok(Input {
            block: vec![in alloc; 0u8; BLOCK]?,
            start: 0,
            end: 0,
        })
    }

    // The bytes that are held.
    fn bytes(&self) -> &[u8]
        ensures { result.now ≡ self.now }
    {
        &self.block.as_slice()[self.start..self.end]
    }

    // The length of the first line, with its line feed, if it is held whole. No line feed is among the first `searched`.
    fn whole_line(&self, searched: usize) -> Option<usize>
        requires within { searched ≤ length self.now }
        requires none { All (λ x. x ≢ 10) (take searched self.now) }
        ensures some { IfSome result (λ n. IsLineOf n self.now) }
        ensures no_line { result ≡ None → All (λ x. x ≢ 10) self.now }
    {
        let at = memchr(b'\n', &self.bytes()[searched..])?;
        Some(searched + at + 1)
    }

    // The length of the first line, with its line feed, if it is held whole.
    pub(crate) fn held_line(&self) -> Option<usize>
        ensures { IfSome result (λ n. IsLineOf n self.now) }
    {
        self.whole_line(0)
    }

    // The first bytes that are held.
    pub(crate) fn front(&self, len: usize) -> &[u8]
        requires { len ≤ length self.now }
        ensures { result.now ≡ take len self.now }
    {
        &self.bytes()[..len]
    }

    // Takes so many bytes.
    pub(crate) fn skip(&mut self, len: usize)
        requires { len ≤ length self.old }
        ensures { self.new ≡ drop len self.old }
    {
        self.start += len;
    }

    // The length of the next line with its line feed, if it has one; 0 at the end of the stream. It reads while no whole
    // line is held.
    pub(crate) fn next_line<R: Read>(&mut self, reader: &mut R) -> io::Result<usize>
        ensures kept { OnOk result (Keeps (prepend_known self.old (R.remaining reader.old)) (prepend_known self.new (R.remaining reader.new))) }
        ensures within { IfOk result (λ n. n ≤ length self.new) }
        ensures line { IfOk result (λ n. IfSome (R.remaining reader.new) (λ rest. IsLineBefore n self.new rest)) }
    {
        let mut searched = 0;
        for _ in 0..u64::MAX {
            if let Some(len) = self.whole_line(searched) {
                return Ok(len);
            }
            searched = self.bytes().len();
            if self.read_more(reader)? == 0 {
                return Ok(searched);
            }
        }
        Err(io::Error::from(io::ErrorKind::Other))
    }

    // One read. At the end of the stream no byte comes.
    fn read_more<R: Read>(&mut self, reader: &mut R) -> io::Result<usize>
        ensures more { IfOk result (λ n. (bytes : List ℕ) × (self.new ≡ self.old ++ bytes) × (length bytes ≡ n)
            × Consumes (R.remaining reader.old) (R.remaining reader.new) bytes) }
        ensures end { IfOk result (λ n. n ≡ 0 → IsAtEnd (R.remaining reader.new)) }
    {
        self.end = move_to_front(self.block.as_mut_slice(), self.start, self.end);
        self.start = 0;
        give_room_back(&mut self.block, self.end);
        make_room(&mut self.block, self.end)?;
        let count = read_after(reader, self.block.as_mut_slice(), self.end)?;
        self.end += count;
        Ok(count)
    }
}

// Moves the bytes at `start..end` to the front, and returns where they end there.
fn move_to_front(block: &mut [u8], start: usize, end: usize) -> usize
    requires { (start ≤ end) × (end ≤ length block.old) }
    ensures end { result ≡ end - start }
    ensures len { length block.new ≡ length block.old }
    ensures bytes { take (end - start) block.new ≡ take (end - start) (drop start block.old) }
{
    if start > 0 {
        block.copy_within(start..end, 0);
    }
    end - start
}

// Gives back the room of a block past `MOST_KEPT`, once the bytes before `end` fit the first block. What std then keeps of it
// no clause says.
fn give_room_back(block: &mut Vec<u8>, end: usize)
    requires { (end ≤ length block.old.items) × (0 < length block.old.items) }
    ensures room { (end ≤ length block.new.items) × (0 < length block.new.items) }
    ensures bytes { take end block.new.items ≡ take end block.old.items }
    ensures kept { length block.old.items ≤ 1048576 → block.new.items ≡ block.old.items }
    ensures long { 32768 < end → block.new.items ≡ block.old.items }
    ensures cut { 1048576 < length block.old.items → end ≤ 32768 → block.new.items ≡ take 32768 block.old.items }
{
    if block.len() > MOST_KEPT && end <= BLOCK {
        block.truncate(BLOCK);
        block.shrink_to(BLOCK);
    }
}

// Takes a larger block where a read would have too little room after `end`, so that few reads are made for a long line.
fn make_room(block: &mut Vec<u8>, end: usize) -> Result<(), AllocError>
    requires { (end ≤ length block.old.items) × (0 < length block.old.items) }
    ensures room { OnOk result ((end < length block.new.items) × (take end block.new.items ≡ take end block.old.items)) }
    ensures same { end + 16384 ≤ length block.old.items → block.new.items ≡ block.old.items }
    ensures size { length block.new.items ≤ 2 * length block.old.items }
    ensures err { OnErr result (block.new.items ≡ block.old.items) }
{
    let len = block.len();
    if len - end < BLOCK / 2 {
        block.resize(len * 2, 0)?;
    }
    Ok(())
}

// One read into the bytes after `end`. Where it succeeds, those before it stay.
fn read_after<R: Read>(reader: &mut R, block: &mut [u8], end: usize) -> io::Result<usize>
    requires { end < length block.old }
    ensures within { IfOk result (λ n. end + n ≤ length block.new) }
    ensures more { IfOk result (λ n. (bytes : List ℕ) × (take (end + n) block.new ≡ take end block.old ++ bytes) × (length bytes ≡ n)
        × Consumes (R.remaining reader.old) (R.remaining reader.new) bytes) }
    ensures end { IfOk result (λ n. n ≡ 0 → IsAtEnd (R.remaining reader.new)) }
{
    let count = read_some(reader, &mut block[end..])?;
    Ok(count)
}

// One read, tried again where a signal interrupted it.
fn read_some<R: Read>(reader: &mut R, buffer: &mut [u8]) -> io::Result<usize>
    requires { 0 < length buffer.old }
    ensures within { IfOk result (λ n. n ≤ length buffer.new) }
    ensures bytes { IfOk result (λ n. Consumes (R.remaining reader.old) (R.remaining reader.new) (take n buffer.new)) }
    ensures end { IfOk result (λ n. n ≡ 0 → IsAtEnd (R.remaining reader.new)) }
{
    for _ in 0..u64::MAX {
        match reader.read(buffer) {
            Ok(count) => return Ok(count),
            Err(error) => {
                if error.kind() != io::ErrorKind::Interrupted {
                    return Err(error);
                }
            }
        }
    }
    Err(io::Error::from(io::ErrorKind::Other))
}
