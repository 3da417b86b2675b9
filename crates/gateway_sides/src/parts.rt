//! What the client is sent of a body, in its framing: of a whole one, and of what is relayed.
ghost use Rattle.std.specs.Prelude.{◌≡◌, ◌++◌, ◌+◌, ◌-◌, ◌<◌, min, length, slice_range, if◌then◌else◌, IfOk, OnOk, OnErr, [], true, false};
ghost use Rattle.gateway_rules.specs.Values.{text_of};
ghost use Rattle.gateway_frames.specs.Frames.{framed, end_text, sent_trailers};
ghost use Rattle.gateway_frames.specs.Pieces.{relayed_bytes};
ghost use Rattle.gateway_frames.specs.Sent.{relayed_slice};
ghost use Rattle.gateway_steps.specs.Phases.{is_sending, is_write};
ghost use Rattle.gateway_exchanges.specs.Frames.{HasSameButWakes, HasSameButPieces};
ghost use Rattle.gateway_exchanges.specs.Replies.{reply_of, with_wake};
ghost use Rattle.gateway_sides.specs.Parts.{framing_of, end_of, Sends, part_front, part_in, part_text, trailers_of, whole_text, has_bytes, relayed_now, relayed_text, is_relayed, is_all_relayed, HasSameButRead, HasSameButReading, HasSameButSent};

use crate::framed::{add_framed_bytes, add_framed_text, end_body, end_of, framing_of};
use crate::reading::send_write;
use bytes::Bytes;
use gateway_exchanges::exchange::Exchange;
use gateway_exchanges::outs::{Out, Piece};
use gateway_frames::chunks::{add_end, add_framed, sent_trailers};
use gateway_frames::pieces::relayed_bytes;
use gateway_rules::values::text_of;
use gateway_state::state::Gateway;
use gateway_steps::state::Source;
use rules_ffi_arguments::shapes::PartShape;
use std::alloc::AllocError;
use std::mem;

/// The part of a body that the client gets, of its next bytes. Whether that is all.
pub fn relay_bytes(e: &mut Exchange, piece: &[u8], out: &mut Out) -> Result<bool, AllocError>
    ensures last { IfOk result (λ last. last ≡ is_all_relayed piece.now e.old) }
    ensures buffer { OnOk result (e.new.answer.buffer.items ≡ e.old.answer.buffer.items ++ relayed_text piece.now e.old) }
    ensures woken { OnOk result (reply_of out.new ≡ (if is_relayed piece.now e.old then with_wake e.old.x (reply_of out.old) else reply_of out.old)) }
    ensures err { OnErr result (e.new.answer.buffer.items ≡ e.old.answer.buffer.items) }
    ensures exchange { e.new ≡ record e.old { answer = record e.old.answer { buffer = e.new.answer.buffer } } }
    ensures reply { HasSameButWakes out.old out.new }
{
    match e.answer.parts.as_slice() {
        [part, ..] => {
            let part = *part;
            relay_part(e, &part, piece, out)
        }
        [] => Ok(false),
    }
}

fn relay_part(
    e: &mut Exchange,
    part: &PartShape,
    piece: &[u8],
    out: &mut Out,
) -> Result<bool, AllocError>
    ensures last { IfOk result (λ last. last ≡ (relayed_now piece.now e.old part.now).is_last) }
    ensures buffer { OnOk result (e.new.answer.buffer.items ≡ e.old.answer.buffer.items
        ++ framed (framing_of e.old.answer.framing) (relayed_slice (relayed_now piece.now e.old part.now) piece.now)) }
    ensures woken { OnOk result (reply_of out.new ≡ (if has_bytes (relayed_now piece.now e.old part.now) then with_wake e.old.x (reply_of out.old) else reply_of out.old)) }
    ensures err { OnErr result (e.new.answer.buffer.items ≡ e.old.answer.buffer.items) }
    ensures exchange { e.new ≡ record e.old { answer = record e.old.answer { buffer = e.new.answer.buffer } } }
    ensures reply { HasSameButWakes out.old out.new }
{
    let size = e.steps.state.origin.size;
    let relayed = relayed_bytes(part.from, end_of(part), size, piece.len() as u64);
    if relayed.from < relayed.to {
        let bytes = bytes_between(piece, relayed.from, relayed.to);
        let framing = framing_of(e.answer.framing);
        out.wake(e.x)?;
        add_framed(&mut e.answer.buffer, framing, bytes)?;
    }
    Ok(relayed.is_last)
}

// The bytes from a place up to, and without, another.
fn bytes_between(bytes: &[u8], from: u64, to: u64) -> &[u8]
    requires start { from < to }
    requires within { to < length bytes.now + 1 }
    ensures { result.now ≡ slice_range bytes.now from to }
{
    &bytes[from as usize..to as usize]
}

/// What ends a body that is relayed.
pub fn end_relay(e: &mut Exchange, out: &mut Out) -> Result<(), AllocError>
    ensures buffer { OnOk result (e.new.answer.buffer.items ≡ e.old.answer.buffer.items ++ end_text (framing_of e.old.answer.framing) (trailers_of e.old)) }
    ensures woken { OnOk result (reply_of out.new ≡ with_wake e.old.x (reply_of out.old)) }
    ensures exchange { e.new ≡ record e.old { answer = record e.old.answer { buffer = e.new.answer.buffer } } }
    ensures err { OnErr result (e.new.answer.buffer.items ≡ e.old.answer.buffer.items) }
    ensures reply { HasSameButWakes out.old out.new }
{
    let framing = framing_of(e.answer.framing);
    let accepts = e.request.accepts_trailers();
    let trailers = sent_trailers(framing, accepts, e.answer.trailers.as_slice());
    out.wake(e.x)?;
    add_end(&mut e.answer.buffer, framing, trailers)
}

/// The parts of the body, as far as they are there; and what ends it.
pub fn send_parts(g: &mut Gateway, e: &mut Exchange, out: &mut Out) -> Result<(), AllocError>
    requires { is_sending e.old.steps.state.client.phase ≡ true }
    ensures whole { is_write e.old.steps.state.client.source ≡ false → OnOk result (Sends (whole_text e.old) out.old out.new × (e.new.answer.parts.items ≡ [])) }
    ensures state { HasSameButReading e.old.steps.state e.new.steps.state }
    ensures exchange { e.new ≡ record e.old {
      steps = e.new.steps;
      answer = record e.old.answer {
        parts = e.new.answer.parts;
        place = e.new.answer.place;
        seen = e.new.answer.seen;
        trailers = e.new.answer.trailers;
      };
      asks = record e.old.asks { flying = e.new.asks.flying };
    } }
    ensures gateway { HasSameButRead g.old g.new }
    ensures reply { HasSameButSent out.old out.new }
{
    if e.is_from(Source::Write) {
        return send_write(g, e, out);
    }
    send_whole(g, e, out)?;
    e.answer.parts.clear();
    Ok(())
}

// Each part of a whole body behind its text, and what ends that.
fn send_whole(g: &Gateway, e: &Exchange, out: &mut Out) -> Result<(), AllocError>
    ensures ok { OnOk result (Sends (whole_text e.now) out.old out.new) }
    ensures rest { HasSameButPieces out.old out.new }
{
    for part in e.answer.parts.as_slice() {
        send_part(g, e, part, out)?;
    }
    end_body(g, e, out)
}

fn send_part(g: &Gateway, e: &Exchange, part: &PartShape, out: &mut Out) -> Result<(), AllocError>
    ensures ok { OnOk result (Sends (part_text e.now part.now) out.old out.new) }
    ensures rest { HasSameButPieces out.old out.new }
{
    send_part_front(g, e, part, out)?;
    send_part_body(g, e, part, out)
}

// The text in front of a part.
fn send_part_front(
    g: &Gateway,
    e: &Exchange,
    part: &PartShape,
    out: &mut Out,
) -> Result<(), AllocError>
    ensures ok { OnOk result (Sends (framed (framing_of e.now.answer.framing) (part_front e.now part.now)) out.old out.new) }
    ensures rest { HasSameButPieces out.old out.new }
{
    let before = text_of(e.answer.texts.as_slice(), part.before);
    add_framed_text(g, framing_of(e.answer.framing), out, before)
}

// Its bytes.
fn send_part_body(
    g: &Gateway,
    e: &Exchange,
    part: &PartShape,
    out: &mut Out,
) -> Result<(), AllocError>
    ensures ok { OnOk result (Sends (framed (framing_of e.now.answer.framing) (part_in e.now.answer.whole part.now)) out.old out.new) }
    ensures rest { HasSameButPieces out.old out.new }
{
    let bytes = part_of(&e.answer.whole, part)?;
    add_framed_bytes(g, framing_of(e.answer.framing), out, bytes)
}

// A place in something of so many bytes.
fn place_in(len: usize, place: u64) -> usize
    ensures { result ≡ min place len }
{
    if place < len as u64 {
        place as usize
    } else {
        len
    }
}

// The bytes of a part.
fn part_of(whole: &Bytes, part: &PartShape) -> Result<Bytes, AllocError>
    ensures { IfOk result (λ bytes. bytes ≡ part_in whole.now part.now) }
{
    let len = whole.len();
    let to = match end_of(part) {
        None => len,
        Some(to) => place_in(len, to),
    };
    let from = place_in(to, part.from);
    whole.slice(from..to)
}

/// What is in the buffer goes out.
pub fn send_buffer(g: &Gateway, e: &mut Exchange, out: &mut Out) -> Result<(), AllocError>
    ensures sent { OnOk result (Sends e.old.answer.buffer.items out.old out.new × (e.new.answer.buffer.items ≡ [])) }
    ensures kept { OnErr result (e.new ≡ e.old) }
    ensures rest { HasSameButPieces out.old out.new }
    ensures exchange { e.new ≡ record e.old { answer = record e.old.answer { buffer = e.new.answer.buffer } } }
{
    if e.answer.buffer.is_empty() {
        return Ok(());
    }
    out.pieces.reserve(1)?;
    let buffer = mem::replace(&mut e.answer.buffer, Vec::new(g.alloc));
    out.pieces.push(Piece::Text(buffer))?;
    Ok(())
}
