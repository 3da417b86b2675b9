//! Texts and bytes of an answer, framed as its head says.
ghost use Rattle.std.specs.Prelude.{◌≡◌, ◌-◌, OnOk};
ghost use Rattle.gateway_rules.specs.Values.{text_of};
ghost use Rattle.gateway_frames.specs.Frames.{framed, sent_trailers};
ghost use Rattle.gateway_frames.specs.Pieces.{relayed_bytes};
ghost use Rattle.gateway_exchanges.specs.Frames.{HasSameButPieces};
ghost use Rattle.gateway_sides.specs.Parts.{framing_of, end_of, Sends, body_end};

use bytes::Bytes;
use gateway_exchanges::exchange::Exchange;
use gateway_exchanges::outs::Out;
use gateway_frames::chunks::{Framing, add_end, add_framed, behind, front, sent_trailers};
use gateway_frames::pieces::relayed_bytes;
use gateway_rules::values::{CHUNKED, CLOSE, text_of};
use gateway_state::state::Gateway;
use rules_ffi_arguments::shapes::PartShape;
use rules_ffi_results::marks::NONE;
use std::alloc::AllocError;

pub(crate) fn framing_of(framing: u64) -> Framing
    ensures { result ≡ framing_of framing }
{
    match framing {
        CHUNKED => Framing::Chunked,
        CLOSE => Framing::Close,
        _ => Framing::Length,
    }
}

pub(crate) fn end_of(part: &PartShape) -> Option<u64>
    ensures { result ≡ end_of part.now }
{
    if part.to == NONE { None } else { Some(part.to) }
}

// A text, unless it is empty.
pub(crate) fn add_text(g: &Gateway, out: &mut Out, text: &[u8]) -> Result<(), AllocError>
    ensures ok { OnOk result (Sends text.now out.old out.new) }
    ensures rest { HasSameButPieces out.old out.new }
{
    if text.is_empty() {
        return Ok(());
    }
    out.add_text(Vec::from_slice(g.alloc, text)?)
}

// A piece of text, framed.
pub(crate) fn add_framed_text(
    g: &Gateway,
    framing: Framing,
    out: &mut Out,
    text: &[u8],
) -> Result<(), AllocError>
    ensures ok { OnOk result (Sends (framed framing text.now) out.old out.new) }
    ensures rest { HasSameButPieces out.old out.new }
{
    if text.is_empty() {
        return Ok(());
    }
    let mut framed = Vec::new(g.alloc);
    add_framed(&mut framed, framing, text)?;
    out.add_text(framed)
}

// Bytes of a body, framed: they aren't copied.
pub(crate) fn add_framed_bytes(
    g: &Gateway,
    framing: Framing,
    out: &mut Out,
    bytes: Bytes,
) -> Result<(), AllocError>
    ensures ok { OnOk result (Sends (framed framing bytes) out.old out.new) }
    ensures rest { HasSameButPieces out.old out.new }
{
    let size = bytes.len() as u64;
    let head = front(framing, size);
    add_text(g, out, head.as_slice())?;
    out.add_shared(bytes)?;
    add_text(g, out, behind(framing, size))
}

// What ends the body.
pub(crate) fn end_body(g: &Gateway, e: &Exchange, out: &mut Out) -> Result<(), AllocError>
    ensures ok { OnOk result (Sends (body_end e.now) out.old out.new) }
    ensures rest { HasSameButPieces out.old out.new }
{
    let framing = framing_of(e.answer.framing);
    let after = text_of(e.answer.texts.as_slice(), e.answer.after);
    add_framed_text(g, framing, out, after)?;
    let accepts = e.request.accepts_trailers();
    let trailers = sent_trailers(framing, accepts, e.answer.trailers.as_slice());
    let mut text = Vec::new(g.alloc);
    add_end(&mut text, framing, trailers)?;
    out.add_text(text)
}
