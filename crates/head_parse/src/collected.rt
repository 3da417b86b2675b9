//! What came of a body.
ghost use Rattle.std.specs.Prelude.{◌≡◌, ◌++◌, length, IfOk, OnOk, OnErr};
ghost use Rattle.head_parse.specs.Parse.{announced, limited, limited_after, progress_by_length};
ghost use Rattle.head_parse.specs.Heads.{parsed_by_header};

use crate::body::announced;
use crate::response::{Parsed, Progress, Response, Short};
use bytes::Bytes;
use head_lines::ResponseHeader;
use std::alloc::AllocError;
use std::marker::Model;

// A header, and what came of the body that it announces: the last piece is shared, those before it are copied.
#[derive(Drop)]
pub(crate) struct Collected {
    header: ResponseHeader,
    length: Option<usize>,
    copied: Vec<u8>,
    last: Bytes,
}

impl Model for Collected {
    ghost use Rattle.std.specs.Prelude.{◌≡◌, ◌++◌, ℕ, List};
    ghost use Rattle.std.specs.Coded.{coded×, coded_list, coded_ℕ};
    ghost use Rattle.head_lines.specs.declared.header.ResponseHeader.{ResponseHeader};
    ghost use Rattle.head_lines.specs.contracts.header.ResponseHeader.{the_row};
    ghost use Rattle.head_parse.specs.Parse.{announced, limited};

    ghost Value = { ResponseHeader × List ℕ };

    ghost coded = { coded× the_row.coded (coded_list coded_ℕ) };

    ghost view = { λ c. (c.header, c.copied.items ++ c.last) };

    ghost invariant = { λ c. (c.length ≡ announced c.header) × (limited c.length (c.copied.items ++ c.last) ≡ c.copied.items ++ c.last) };
}

// What belongs to a body of that length.
fn cut(length: Option<usize>, bytes: Vec<u8>) -> Vec<u8>
    ensures { result.items ≡ limited length bytes.items }
{
    let mut bytes = bytes;
    if let Some(length) = length {
        bytes.truncate(length);
    }
    bytes
}

// What belongs to it of bytes that come after so many of it.
fn cut_after(length: Option<usize>, before: usize, bytes: Bytes) -> Bytes
    ensures { result ≡ limited_after length before bytes }
{
    let mut bytes = bytes;
    if let Some(length) = length {
        bytes.truncate(length.saturating_sub(before));
    }
    bytes
}

impl Collected {
    // Makes one of what came after a head, in two parts.
    pub(crate) fn new(header: ResponseHeader, first: Vec<u8>, second: Bytes) -> Collected
        ensures { result ≡ (header, limited (announced header) (first.items ++ second)) }
    {
        let length = announced(&header);
        let copied = cut(length, first);
        let last = cut_after(length, copied.len(), second);
        Collected {
            header,
            length,
            copied,
            last,
        }
    }

    // How many bytes of the body came.
    fn len(&self) -> usize
        ensures { result ≡ length self.now.1 }
    {
        self.copied.len() + self.last.len()
    }

    // Adds a piece, as far as the body goes.
    pub(crate) fn push(&mut self, piece: Bytes) -> Result<(), AllocError>
        ensures ok { OnOk result (self.new ≡ (self.old.0, limited (announced self.old.0) (self.old.1 ++ piece))) }
        ensures err { OnErr result (self.new ≡ self.old) }
    {
        let piece = cut_after(self.length, self.len(), piece);
        if piece.is_empty() {
            return Ok(());
        }
        self.copied.extend_from_slice(self.last.as_slice())?;
        self.last = piece;
        Ok(())
    }

    // How far the body has come.
    pub(crate) fn progress(&self) -> Progress
        ensures { result ≡ progress_by_length (announced self.now.0) (length self.now.1) }
    {
        let len = self.len();
        match self.length {
            Some(length) if length <= len => Progress::Done(length),
            _ => Progress::Body(len),
        }
    }

    // What that gives, if nothing more comes.
    pub(crate) fn finish(self) -> Result<Parsed, AllocError>
        ensures { IfOk result (λ parsed. parsed ≡ parsed_by_header self.0 self.1) }
    {
        let progress = self.progress();
        let Collected {
            header,
            length,
            mut copied,
            last,
        } = self;
        if let Progress::Body(len) = progress
            && length.is_some()
        {
            return Ok(Parsed::Incomplete(Some(Short { header, len })));
        }
        if copied.is_empty() {
            return Ok(Parsed::Complete(Response { header, body: last }));
        }
        copied.extend_from_slice(last.as_slice())?;
        copied.shrink_to_fit();
        let body = Bytes::from_vec(copied)?;
        Ok(Parsed::Complete(Response { header, body }))
    }
}
