//! Heads that are kept as text, and shared.
ghost use Rattle.std.specs.Prelude.{◌≡◌, true, length, IfOk, MatchOption};
ghost use Rattle.std.specs.List.{AllByRecursion};
ghost use Rattle.http_header.specs.HeaderMap.{pairs, IsHeaderMap};
ghost use Rattle.head_metas.specs.Head.{written_head};
ghost use Rattle.head_packed.specs.HeadText.{head_text, line_feeds, IsPlainField};

use crate::copying::{MOST_NAMES, copied};
use crate::text::{fields_of, lines_in, lines_of};
use head_lines::ResponseHeader;
use head_metas::head;
use http::StatusCode;
use http_header::HeaderMap;
use std::alloc::{AllocError, Global};
use std::marker::Model;
use std::sync::Arc;

// A head: its lines, how many they are, and how many bytes it takes as MessagePack. Where the lines would not give its fields back, or reading them could
// cost a square, the fields stand beside them. No field remembers the head for clauses alone, as a `Snapshot` would: with one, a proof
// that a tier may be sent to another thread isn't found.
#[derive(Drop)]
struct KeptHead {
    status: StatusCode,
    len: usize,
    text: Vec<u8>,
    lines: u64,
    whole: Option<Box<HeaderMap>>,
}

impl Model for KeptHead {
    ghost use Rattle.head_lines.specs.declared.header.ResponseHeader.{ResponseHeader};
    ghost use Rattle.head_lines.specs.contracts.header.ResponseHeader.{the_row};
    ghost use Rattle.head_packed.specs.Shared.{kept_head, IsKeptHead};

    ghost Value = { ResponseHeader };

    ghost coded = { the_row.coded };

    ghost view = { kept_head };

    ghost invariant = { IsKeptHead };
}

// Returns the fields, unless their lines give them back.
fn whole_of(
    alloc: Global,
    headers: &HeaderMap,
    plain: bool,
) -> Result<Option<Box<HeaderMap>>, AllocError>
    requires { plain ≡ true → AllByRecursion IsPlainField (pairs headers.now) }
    ensures whole { IfOk result (λ whole. MatchOption whole (AllByRecursion IsPlainField (pairs headers.now)) (λ m. m.value ≡ headers.now)) }
    ensures map { IsHeaderMap headers.now }
{
    if headers.keys_len() <= MOST_NAMES && plain {
        return Ok(None);
    }
    let copy = copied(alloc, headers)?;
    match Box::new(alloc, copy) {
        Ok(boxed) => Ok(Some(boxed)),
        Err(_) => Err(AllocError),
    }
}

// Returns a clone of fields.
fn cloned(headers: &HeaderMap) -> Result<HeaderMap, AllocError>
    ensures { IfOk result (λ copy. copy ≡ headers.now) }
{
    headers.clone()
}

impl KeptHead {
    // Keeps a head.
    fn of(alloc: Global, header: &ResponseHeader) -> Result<KeptHead, AllocError>
        ensures { IfOk result (λ kept. kept ≡ header.now) }
    {
        let Some(len) = head::written_len(header) else {
            return Err(AllocError);
        };
        // A line takes no more bytes than as MessagePack, so there is room.
        let (text, plain) = lines_of(alloc, &header.headers, len)?;
        let whole = whole_of(alloc, &header.headers, plain)?;
        let lines = lines_in(text.as_slice());
        Ok(KeptHead {
            status: header.status,
            len,
            text,
            lines,
            whole,
        })
    }

    // Returns the status.
    fn status(&self) -> StatusCode
        ensures { result ≡ self.now.status }
    {
        self.status
    }

    // Lends the lines.
    fn text(&self) -> &[u8]
        ensures { result.now ≡ head_text self.now }
    {
        self.text.as_slice()
    }

    // Returns how many lines there are.
    fn lines(&self) -> u64
        ensures { result ≡ line_feeds (head_text self.now) }
    {
        self.lines
    }

    // Returns how many bytes it takes as MessagePack.
    fn len(&self) -> usize
        ensures { result ≡ length (written_head self.now) }
    {
        self.len
    }

    // Returns the fields.
    fn headers(&self, alloc: Global) -> Result<HeaderMap, AllocError>
        ensures { IfOk result (λ headers. headers ≡ self.now.headers) }
    {
        match &self.whole {
            Some(whole) => cloned(whole),
            None => fields_of(alloc, self.text.as_slice()),
        }
    }
}

/// A head that is kept as text, and shared: a clone copies no byte of it. A contract sees it as the head that it was made from.
#[derive(Drop)]
pub struct SharedHead {
    kept: Arc<KeptHead, Global>,
}

impl Model for SharedHead {
    ghost use Rattle.head_lines.specs.declared.header.ResponseHeader.{ResponseHeader};
    ghost use Rattle.head_lines.specs.contracts.header.ResponseHeader.{the_row};

    ghost Value = { ResponseHeader };

    ghost coded = { the_row.coded };

    ghost view = { λ h. h.kept.value };
}

impl Clone for SharedHead {
    ghost is_clone = { λ head copy. copy ≡ head };

    fn clone(&self) -> Result<SharedHead, AllocError> {
        match Arc::try_clone(&self.kept) {
            Ok(kept) => Ok(SharedHead { kept }),
            Err(fault) => Err(fault),
        }
    }
}

impl SharedHead {
    /// Keeps a head as text. Where a value is marked as sensitive, or the head has more than 256 names, its fields are kept too, as
    /// copies that share no buffer; those of more than 256 names share theirs.
    ///
    /// # Errors
    ///
    /// `AllocError` where memory runs out, or where a `usize` can't count the bytes of the head as it is written.
    pub fn pack(alloc: Global, header: &ResponseHeader) -> Result<SharedHead, AllocError>
        ensures { IfOk result (λ head. head ≡ header.now) }
    {
        let kept = KeptHead::of(alloc, header)?;
        match Arc::new(alloc, kept) {
            Ok(kept) => Ok(SharedHead { kept }),
            Err(_) => Err(AllocError),
        }
    }

    /// Returns the status.
    pub fn status(&self) -> StatusCode
        ensures { result ≡ self.now.status }
    {
        self.kept.status()
    }

    /// Lends the text: a line `name: value`, with CR LF at its end, for each value in the map's order.
    pub fn text(&self) -> &[u8]
        ensures { result.now ≡ head_text self.now }
    {
        self.kept.text()
    }

    /// Returns how many lines the text has.
    pub fn lines(&self) -> u64
        ensures { result ≡ line_feeds (head_text self.now) }
    {
        self.kept.lines()
    }

    /// Returns how many bytes the head takes as it is written as MessagePack.
    pub fn len(&self) -> usize
        ensures { result ≡ length (written_head self.now) }
    {
        self.kept.len()
    }

    /// Returns the head, with its map.
    ///
    /// # Errors
    ///
    /// `AllocError` where there is no memory for it.
    pub fn unpack(&self, alloc: Global) -> Result<ResponseHeader, AllocError>
        ensures { IfOk result (λ header. header ≡ self.now) }
    {
        let headers = self.kept.headers(alloc)?;
        let status = self.kept.status();
        Ok(ResponseHeader { status, headers })
    }
}
