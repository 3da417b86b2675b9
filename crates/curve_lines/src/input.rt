//! Lines and records, found in what was read of a stream ahead of them.
ghost use Rattle.std.specs.Prelude.{◌≡◌, ◌≢◌, ℕ, List, [], ◌++◌, ◌≤◌, ◌<◌, ◌+◌, ◌-◌, All, None, take, drop, length, IfOk, IfErr, OnOk, IfSome};
ghost use Rattle.std.specs.Io.BufRead.{strip_last, DropsThrough};
ghost use Rattle.std.specs.Io.KnownBytes.{Consumes, Keeps, IsAtEnd, prepend_known};
ghost use Rattle.curve_lines.specs.declared.format.Format.TheVariants.{Text};
ghost use Rattle.curve_lines.specs.declared.input.Next.TheVariants.{End, Held};
ghost use Rattle.curve_lines.specs.Faults.{IsRunFault};
ghost use Rattle.curve_lines.specs.Inputs.{IsLineOf, IsNextBy, IsNext, bare};

use crate::fault::RunFault;
use crate::format::Format;
use memchr::memchr;
use std::alloc::{AllocError, Global};
use std::io::{self, Read};
use std::marker::Model;

/// The longest line that can have a request, in bytes without its line feed.
pub const LONGEST: usize = 65_535;

// How many bytes are held at the most: such a line with its line feed.
const BLOCK: usize = 65_536;

// What comes next in a stream.
#[derive(Clone, Copy)]
pub(crate) enum Next {
    // Nothing.
    End,
    // A line or record of so many bytes, with its line feed: the first of those held.
    Held(usize),
    // A line that doesn't fit.
    TooLong,
}

// What was read of a stream and not yet taken. A clause sees these bytes.
#[derive(Drop)]
pub(crate) struct Input {
    // The bytes lie at `start..end`.
    block: Vec<u8>,
    start: usize,
    end: usize,
}

impl Model for Input {
    ghost use Rattle.std.specs.Prelude.{◌≡◌, ℕ, List, drop, take, ◌≤◌, ◌-◌, length};

    ghost Value = { List ℕ };

    ghost view = { λ i. take (i.end - i.start) (drop i.start i.block.items) };

    // However long a line is, no more is held.
    ghost invariant = { λ i. (i.start ≤ i.end) × (i.end ≤ length i.block.items) × (length i.block.items ≡ 65536) };
}

impl Input {
    pub(crate) fn new(alloc: Global) -> Result<Input, AllocError>
        ensures { IfOk result (λ input. input ≡ []) }
    {
        Ok(Input {
            block: vec![in alloc; 0u8; BLOCK]?,
            start: 0,
            end: 0,
        })
    }

    // The bytes that are held.
    fn bytes(&self) -> &[u8]
        ensures value { result.now ≡ self.now }
        ensures most { length result.now ≤ 65536 }
    {
        &self.block.as_slice()[self.start..self.end]
    }

    // The length of the first line, with its line feed, if it is held whole. No line feed is among the first `searched`.
    fn whole_line(&self, searched: usize) -> Option<usize>
        requires within { searched ≤ length self.now }
        requires none { All (λ x. x ≢ 10) (take searched self.now) }
        ensures some { IfSome result (λ n. (0 < n) × IsLineOf n self.now) }
        ensures no_line { result ≡ None → All (λ x. x ≢ 10) self.now }
    {
        let at = memchr(b'\n', &self.bytes()[searched..])?;
        Some(searched + at + 1)
    }

    // The first bytes that are held.
    pub(crate) fn front(&self, len: usize) -> &[u8]
        requires { len ≤ length self.now }
        ensures { result.now ≡ take len self.now }
    {
        &self.bytes()[..len]
    }

    // Takes so many bytes.
    pub(crate) fn skip(&mut self, len: usize)
        requires { len ≤ length self.old }
        ensures { self.new ≡ drop len self.old }
    {
        self.start += len;
    }

    // What comes next. It reads while no whole line or record is held, as far as there is room.
    pub(crate) fn next<R: Read>(&mut self, reader: &mut R, format: Format) -> Result<Next, RunFault>
        ensures kept { OnOk result (Keeps (prepend_known self.old (R.remaining reader.old)) (prepend_known self.new (R.remaining reader.new))) }
        ensures next { IfOk result (λ it. IsNext format it self.new (R.remaining reader.new)) }
        ensures fault { IfErr result IsRunFault }
    {
        match format {
            Format::Text => self.next_line(reader),
            Format::Records => self.next_record(reader, 16),
            Format::OracleGeneral => self.next_record(reader, 24),
        }
    }

    fn next_line<R: Read>(&mut self, reader: &mut R) -> Result<Next, RunFault>
        ensures kept { OnOk result (Keeps (prepend_known self.old (R.remaining reader.old)) (prepend_known self.new (R.remaining reader.new))) }
        ensures next { IfOk result (λ it. IsNext Text it self.new (R.remaining reader.new)) }
        ensures fault { IfErr result IsRunFault }
    {
        let mut searched = 0;
        for _ in 0..u64::MAX {
            if let Some(len) = self.whole_line(searched) {
                return Ok(Next::Held(len));
            }
            searched = self.bytes().len();
            if searched == BLOCK {
                return Ok(Next::TooLong);
            }
            if self.read_more(reader)? == 0 {
                return Ok(last(searched));
            }
        }
        Err(RunFault::TooMany)
    }

    // A record of so many bytes, or what is left of the last one.
    fn next_record<R: Read>(&mut self, reader: &mut R, size: usize) -> Result<Next, RunFault>
        requires { (0 < size) × (size ≤ 65536) }
        ensures kept { OnOk result (Keeps (prepend_known self.old (R.remaining reader.old)) (prepend_known self.new (R.remaining reader.new))) }
        ensures next { IfOk result (λ it. IsNextBy (take size) (drop size) ⊥ it self.new (R.remaining reader.new)) }
        ensures fault { IfErr result IsRunFault }
    {
        for _ in 0..u64::MAX {
            let held = self.bytes().len();
            if held >= size {
                return Ok(Next::Held(size));
            }
            if self.read_more(reader)? == 0 {
                return Ok(last(held));
            }
        }
        Err(RunFault::TooMany)
    }

    // Takes a line of which only a part without a line feed is held.
    pub(crate) fn skip_line<R: Read>(&mut self, reader: &mut R) -> Result<(), RunFault>
        requires { All (λ x. x ≢ 10) self.old }
        ensures skipped { OnOk result (DropsThrough (prepend_known self.old (R.remaining reader.old)) (prepend_known self.new (R.remaining reader.new)) 10) }
        ensures fault { IfErr result IsRunFault }
    {
        for _ in 0..u64::MAX {
            self.skip(self.bytes().len());
            if self.read_more(reader)? == 0 {
                return Ok(());
            }
            if let Some(len) = self.whole_line(0) {
                self.skip(len);
                return Ok(());
            }
        }
        Err(RunFault::TooMany)
    }

    // One read. At the end of the stream no byte comes.
    fn read_more<R: Read>(&mut self, reader: &mut R) -> io::Result<usize>
        requires { length self.old < 65536 }
        ensures more { IfOk result (λ n. (bytes : List ℕ) × (self.new ≡ self.old ++ bytes) × (length bytes ≡ n)
            × Consumes (R.remaining reader.old) (R.remaining reader.new) bytes) }
        ensures end { IfOk result (λ n. n ≡ 0 → IsAtEnd (R.remaining reader.new)) }
    {
        self.end = move_to_front(self.block.as_mut_slice(), self.start, self.end);
        self.start = 0;
        let count = read_after(reader, self.block.as_mut_slice(), self.end)?;
        self.end += count;
        Ok(count)
    }
}

// What comes last: the bytes that are held, if there are any.
fn last(held: usize) -> Next
    ensures none { held ≡ 0 → result ≡ End }
    ensures some { held ≢ 0 → result ≡ Held held }
{
    if held == 0 {
        Next::End
    } else {
        Next::Held(held)
    }
}

// A line without its line feed, or a record.
pub(crate) fn bare(format: Format, held: &[u8]) -> &[u8]
    ensures { result.now ≡ bare format held.now }
{
    match format {
        Format::Text => without_feed(held),
        Format::Records | Format::OracleGeneral => held,
    }
}

fn without_feed(line: &[u8]) -> &[u8]
    ensures { result.now ≡ strip_last 10 line.now }
{
    match line.split_last() {
        Some((b'\n', front)) => front,
        _ => line,
    }
}

// Moves the bytes at `start..end` to the front, and returns where they end there.
fn move_to_front(block: &mut [u8], start: usize, end: usize) -> usize
    requires { (start ≤ end) × (end ≤ length block.old) }
    ensures end { result ≡ end - start }
    ensures len { length block.new ≡ length block.old }
    ensures bytes { take (end - start) block.new ≡ take (end - start) (drop start block.old) }
{
    if start > 0 {
        block.copy_within(start..end, 0);
    }
    end - start
}

// One read into the bytes after `end`. Where it succeeds, those before it stay.
fn read_after<R: Read>(reader: &mut R, block: &mut [u8], end: usize) -> io::Result<usize>
    requires { end < length block.old }
    ensures within { IfOk result (λ n. end + n ≤ length block.new) }
    ensures len { length block.new ≡ length block.old }
    ensures more { IfOk result (λ n. (bytes : List ℕ) × (take (end + n) block.new ≡ take end block.old ++ bytes) × (length bytes ≡ n)
        × Consumes (R.remaining reader.old) (R.remaining reader.new) bytes) }
    ensures end { IfOk result (λ n. n ≡ 0 → IsAtEnd (R.remaining reader.new)) }
{
    let count = read_some(reader, &mut block[end..])?;
    Ok(count)
}

// One read, tried again where a signal interrupted it.
fn read_some<R: Read>(reader: &mut R, buffer: &mut [u8]) -> io::Result<usize>
    requires { 0 < length buffer.old }
    ensures within { IfOk result (λ n. n ≤ length buffer.new) }
    ensures bytes { IfOk result (λ n. Consumes (R.remaining reader.old) (R.remaining reader.new) (take n buffer.new)) }
    ensures end { IfOk result (λ n. n ≡ 0 → IsAtEnd (R.remaining reader.new)) }
{
    for _ in 0..u64::MAX {
        match reader.read(buffer) {
            Ok(count) => return Ok(count),
            Err(error) => {
                if error.kind() != io::ErrorKind::Interrupted {
                    return Err(error);
                }
            }
        }
    }
    Err(io::Error::from(io::ErrorKind::Other))
}
