//! Bytes of a body, framed.
ghost use Rattle.std.specs.Prelude.{◌≡◌, ◌++◌, ◌+◌, ◌<◌, ◌≤◌, false, if◌then◌else◌, [], length, OnErr, OnOk};
ghost use Rattle.std.specs.Fmt.{digit_glyph};
ghost use Rattle.gateway_frames.specs.Frames.{is_chunked, line_end, has_chunk, size_line, front, behind, framed, head_text, content_taken};
ghost use Rattle.gateway_frames.specs.Frames.{end_front, end_behind, sent_trailers, end_text};

use std::alloc::AllocError;

/// How a body ends on a connection (RFC 9112, 6.3).
#[derive(Clone, Copy)]
pub enum Framing {
    /// Behind a stated length.
    Length,
    /// With the last chunk.
    Chunked,
    /// With the connection.
    Close,
}

/// What stands in front of a chunk's data: chunk-size, and the end of its line; or nothing.
#[derive(Clone, Copy)]
pub struct ChunkHead {
    text: [u8; 18],
    from: usize,
}

impl ChunkHead {
    /// Its bytes.
    pub fn as_slice(&self) -> &[u8]
        ensures text { result.now ≡ head_text self.now }
        ensures short { length result.now ≤ 18 }
    {
        self.text.get(self.from..).unwrap_or(&[])
    }
}

fn hex_digit(value: u64) -> u8
    requires { value < 16 }
    ensures { result ≡ digit_glyph false value }
{
    let value = value as u8;
    if value < 10 {
        b'0' + value
    } else {
        b'a' - 10 + value
    }
}

/// chunk-size of so many bytes, and the end of its line (7.1).
fn size_line(size: u64) -> ChunkHead
    ensures { head_text result ≡ size_line size }
{
    let mut text = *b"0000000000000000\r\n";
    let mut from = 16;
    let mut left = size;
    loop {
        from -= 1;
        text[from] = hex_digit(left % 16);
        left /= 16;
        if left == 0 {
            return ChunkHead { text, from };
        }
    }
}

fn is_chunked(framing: Framing) -> bool
    ensures { result ≡ is_chunked framing }
{
    matches!(framing, Framing::Chunked)
}

fn has_chunk(framing: Framing, size: u64) -> bool
    ensures { result ≡ has_chunk framing size }
{
    is_chunked(framing) && size > 0
}

/// What stands in front of so many bytes of a body.
pub fn front(framing: Framing, size: u64) -> ChunkHead
    ensures { head_text result ≡ front framing size }
{
    if has_chunk(framing, size) {
        size_line(size)
    } else {
        ChunkHead {
            text: [0; 18],
            from: 18,
        }
    }
}

/// What stands behind them.
pub fn behind(framing: Framing, size: u64) -> &'static [u8]
    ensures { result.now ≡ behind framing size }
{
    line_end_if(has_chunk(framing, size))
}

fn line_end_if(is_sent: bool) -> &'static [u8]
    ensures { result.now ≡ (if is_sent then line_end else []) }
{
    if is_sent { b"\r\n" } else { &[] }
}

/// Of so many bytes that were taken of a piece as it was sent, those of the body: the piece has `size` of these.
pub fn content_taken(framing: Framing, size: u64, sent: u64) -> u64
    ensures { result ≡ content_taken framing size sent }
{
    let head = front(framing, size);
    sent.saturating_sub(head.as_slice().len() as u64).min(size)
}

/// What ends a body, in front of its trailers.
pub fn end_front(framing: Framing) -> &'static [u8]
    ensures { result.now ≡ end_front framing }
{
    if is_chunked(framing) { b"0\r\n" } else { &[] }
}

/// And behind them.
pub fn end_behind(framing: Framing) -> &'static [u8]
    ensures { result.now ≡ end_behind framing }
{
    line_end_if(is_chunked(framing))
}

/// The trailers that are sent: to who says that it takes them (RFC 9110, 6.5.1).
pub fn sent_trailers(framing: Framing, accepts: bool, trailers: &[u8]) -> &[u8]
    ensures { result.now ≡ sent_trailers framing accepts trailers.now }
{
    if is_chunked(framing) && accepts {
        trailers
    } else {
        &[]
    }
}

// Adds a text between two short ones, or nothing.
fn add_between(
    text: &mut Vec<u8>,
    front: &[u8],
    bytes: &[u8],
    behind: &[u8],
) -> Result<(), AllocError>
    requires { length front.now + length behind.now ≤ 20 }
    ensures ok { OnOk result (text.new.items ≡ text.old.items ++ (front.now ++ (bytes.now ++ behind.now))) }
    ensures err { OnErr result (text.new.items ≡ text.old.items) }
{
    text.reserve(front.len() + bytes.len() + behind.len())?;
    text.extend_from_slice(front)?;
    text.extend_from_slice(bytes)?;
    text.extend_from_slice(behind)
}

/// Adds bytes of a body, framed. Without memory nothing is added.
pub fn add_framed(text: &mut Vec<u8>, framing: Framing, bytes: &[u8]) -> Result<(), AllocError>
    ensures ok { OnOk result (text.new.items ≡ text.old.items ++ framed framing bytes.now) }
    ensures err { OnErr result (text.new.items ≡ text.old.items) }
{
    let size = bytes.len() as u64;
    let head = front(framing, size);
    add_between(text, head.as_slice(), bytes, behind(framing, size))
}

/// Adds what ends a body. Without memory nothing is added.
pub fn add_end(text: &mut Vec<u8>, framing: Framing, trailers: &[u8]) -> Result<(), AllocError>
    ensures ok { OnOk result (text.new.items ≡ text.old.items ++ end_text framing trailers.now) }
    ensures err { OnErr result (text.new.items ≡ text.old.items) }
{
    add_between(text, end_front(framing), trailers, end_behind(framing))
}
