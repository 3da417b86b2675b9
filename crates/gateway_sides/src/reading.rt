//! What is read of a body as it comes: of what is being stored, and of its tail.
ghost use Rattle.std.specs.Prelude.{◌≡◌, if◌then◌else◌, length, option_and_then, option_copied, IfOk, OnOk, [], true, false};
ghost use Rattle.gateway_frames.specs.Frames.{framed};
ghost use Rattle.gateway_frames.specs.Pieces.{relayed_bytes};
ghost use Rattle.gateway_frames.specs.Sent.{relayed_slice};
ghost use Rattle.gateway_steps.specs.Questions.{is_reading_from};
ghost use Rattle.gateway_steps.specs.Sides.{capped_sum};
ghost use Rattle.gateway_steps.specs.Steps.{ends_reading};
ghost use Rattle.gateway_steps.specs.Phases.{is_truncated, reads_write};
ghost use Rattle.gateway_exchanges.specs.Frames.{HasSameButPieces};
ghost use Rattle.gateway_exchanges.specs.Replies.{reply_of};
ghost use Rattle.gateway_sides.specs.Parts.{framing_of, Sends, body_end, HasSameButEnding, HasSameButRead, HasSameButReading, HasSameButRoom, HasSameButSent};
ghost use Rattle.gateway_sides.specs.Reading.{ended_as, is_whole, next_for, next_in, tail_of};

use crate::framed::{add_framed_bytes, end_body, end_of, framing_of};
use crate::tails::pass_stored;
use bytes::Bytes;
use gateway_exchanges::exchange::Exchange;
use gateway_exchanges::outs::Out;
use gateway_exchanges::tails::Tail;
use gateway_frames::pieces::relayed_bytes;
use gateway_state::state::Gateway;
use gateway_steps::state::Ending;
use std::alloc::AllocError;
use tier_model::event::Answer;

// One part of what is being stored: nothing of it is kept here, it is read on where the client has taken what came before.
pub(crate) fn send_write(g: &mut Gateway, e: &mut Exchange, out: &mut Out) -> Result<(), AllocError>
    requires { reads_write e.old.steps.state.client ≡ true }
    ensures cut { is_truncated e.old.steps.state.client.ending ≡ true → reply_of out.new ≡ reply_of out.old }
    ensures state { HasSameButReading e.old.steps.state e.new.steps.state }
    ensures exchange { e.new ≡ record e.old { steps = e.new.steps; answer = record e.old.answer { place = e.new.answer.place; seen = e.new.answer.seen; trailers = e.new.answer.trailers }; asks = record e.old.asks { flying = e.new.asks.flying } } }
    ensures gateway { HasSameButRead g.old g.new }
    ensures reply { HasSameButSent out.old out.new }
{
    if is_cut(e) {
        return Ok(());
    }
    let Some(part) = e.answer.parts.first().copied() else {
        return end_write(g, e, out);
    };
    let to = end_of(&part);
    let place = read_on(g, e, e.answer.place.unwrap_or(part.from), to, out)?;
    e.answer.place = Some(place);
    if to == Some(place) || is_whole(e) {
        return end_write(g, e, out);
    }
    Ok(())
}

// Its client has all that it gets of what it reads. Another's trailers may have its cookies.
fn end_write(g: &Gateway, e: &mut Exchange, out: &mut Out) -> Result<(), AllocError>
    requires { reads_write e.old.steps.state.client ≡ true }
    ensures state { e.new.steps.state ≡ ends_reading false e.old.steps.state }
    ensures trailers { e.new.answer.trailers.items ≡ (if is_reading_from e.old.x e.old.steps.state then e.old.answer.trailers.items else []) }
    ensures exchange { e.new ≡ record e.old { steps = e.new.steps; answer = record e.old.answer { trailers = e.new.answer.trailers } } }
    ensures ok { OnOk result (Sends (body_end e.new) out.old out.new) }
    ensures rest { HasSameButPieces out.old out.new }
{
    if !e.steps.is_reading_from(e.x) {
        e.answer.trailers.clear();
    }
    e.steps.end_reading(false);
    end_body(g, e, out)
}

// Whether it has all of what it reads.
fn is_whole(e: &Exchange) -> bool
    ensures { result ≡ is_whole e.now.steps.state.client.ending }
{
    matches!(e.steps.state.client.ending, Ending::Whole)
}

// Whether what it reads broke off.
fn is_cut(e: &Exchange) -> bool
    ensures { result ≡ is_truncated e.now.steps.state.client.ending }
{
    matches!(e.steps.state.client.ending, Ending::Truncated)
}

// Sends what is there of a part, from a place on: the place behind. A read hands out all that is stored, another one all of its tail, and the next one says
// whether that was the end.
fn read_on(
    g: &mut Gateway,
    e: &mut Exchange,
    from: u64,
    to: Option<u64>,
    out: &mut Out,
) -> Result<u64, AllocError>
    requires { reads_write e.old.steps.state.client ≡ true }
    ensures state { HasSameButReading e.old.steps.state e.new.steps.state }
    ensures exchange { e.new ≡ record e.old { steps = e.new.steps; answer = record e.old.answer { seen = e.new.answer.seen }; asks = record e.old.asks { flying = e.new.asks.flying } } }
    ensures gateway { HasSameButRead g.old g.new }
    ensures reply { HasSameButSent out.old out.new }
{
    let mut place = from;
    for _ in 0..3 {
        if !e.goes_on() || to == Some(place) {
            break;
        }
        let Some((piece, at)) = read_write(g, e, place, out)? else {
            break;
        };
        place = send_piece(g, e, piece, at, place, to, out)?;
    }
    Ok(place)
}

// What of a piece at a place is sent, and the place behind that.
fn send_piece(
    g: &Gateway,
    e: &Exchange,
    piece: Bytes,
    at: u64,
    place: u64,
    to: Option<u64>,
    out: &mut Out,
) -> Result<u64, AllocError>
    ensures ok { OnOk result (Sends (framed (framing_of e.now.answer.framing) (relayed_slice (relayed_bytes place to at (length piece)) piece)) out.old out.new) }
    ensures place { IfOk result (λ behind. behind ≡ capped_sum place (length (relayed_slice (relayed_bytes place to at (length piece)) piece))) }
    ensures rest { HasSameButPieces out.old out.new }
{
    let relayed = relayed_bytes(place, to, at, piece.len() as u64);
    if relayed.to <= relayed.from {
        return Ok(place);
    }
    let bytes = piece.slice(relayed.from as usize..relayed.to as usize)?;
    add_framed_bytes(g, framing_of(e.answer.framing), out, bytes)?;
    Ok(place.saturating_add(relayed.to - relayed.from))
}

// Where the next bytes come from.
#[derive(Clone, Copy)]
pub(crate) enum Next {
    // From what is stored.
    Stored,
    // From the tail behind that.
    Tail,
    // From nowhere: they aren't kept any more.
    Lost,
}

fn next_of(g: &Gateway, e: &Exchange, place: u64) -> Next
    ensures { result ≡ next_for place e.now g.now.tails }
{
    match tail_of(g, e) {
        None => Next::Stored,
        Some(tail) if tail.is_lost(place) => Next::Lost,
        Some(tail) if e.answer.seen >= tail.after => Next::Tail,
        Some(_) => Next::Stored,
    }
}

// The tail of what it reads, where that has one.
fn tail_of<'a>(g: &'a Gateway, e: &Exchange) -> Option<&'a Tail>
    ensures { option_copied result ≡ tail_of e.now g.now.tails }
{
    match e.steps.state.tier.writer {
        Some(writer) if e.steps.state.tier.tailed => g.tails.get(writer),
        _ => None,
    }
}

// The next bytes, and their place; none: none are there yet, or it has ended. `place`: what is sent next.
fn read_write(
    g: &mut Gateway,
    e: &mut Exchange,
    place: u64,
    out: &mut Out,
) -> Result<Option<(Bytes, u64)>, AllocError>
    requires { reads_write e.old.steps.state.client ≡ true }
    ensures state { HasSameButReading e.old.steps.state e.new.steps.state }
    ensures exchange { e.new ≡ record e.old { steps = e.new.steps; answer = record e.old.answer { seen = e.new.answer.seen }; asks = record e.old.asks { flying = e.new.asks.flying } } }
    ensures gateway { HasSameButRead g.old g.new }
    ensures reply { HasSameButRoom out.old out.new }
{
    match next_of(g, e, place) {
        Next::Stored => read_stored(g, e, out),
        Next::Tail => {
            pass_stored(g, e, out)?;
            read_tail(g, e, place)
        }
        Next::Lost => {
            e.steps.end_reading(true);
            Ok(None)
        }
    }
}

// Of its tail what there is from a place on; where that is nothing, the tail may have ended.
fn read_tail(g: &Gateway, e: &mut Exchange, place: u64) -> Result<Option<(Bytes, u64)>, AllocError>
    requires { reads_write e.old.steps.state.client ≡ true }
    ensures next { IfOk result (λ r. r ≡ option_and_then (next_in place) (tail_of e.old g.now.tails)) }
    ensures state { HasSameButEnding e.old.steps.state e.new.steps.state }
    ensures rest { e.new ≡ record e.old { steps = e.new.steps } }
{
    let Some(tail) = tail_of(g, e) else {
        return Ok(None);
    };
    let at = place.max(tail.start);
    if at < tail.end() {
        let bytes = Bytes::copy_from_slice(g.alloc, tail.bytes_from(at))?;
        return Ok(Some((bytes, at)));
    }
    end_as(e, tail.ending);
    Ok(None)
}

// It ends as its tail did, if that ended.
fn end_as(e: &mut Exchange, ending: Ending)
    requires { reads_write e.old.steps.state.client ≡ true }
    ensures state { e.new.steps.state ≡ record e.old.steps.state { client = record e.old.steps.state.client { ending = ended_as ending e.old.steps.state.client.ending } } }
    ensures rest { e.new ≡ record e.old { steps = e.new.steps } }
{
    match ending {
        Ending::GoesOn => {}
        Ending::Whole => e.steps.end_reading(false),
        Ending::Truncated => e.steps.end_reading(true),
    }
}

// What was stored since it read the last time, and its place; none: nothing was, or it has ended.
fn read_stored(
    g: &mut Gateway,
    e: &mut Exchange,
    out: &mut Out,
) -> Result<Option<(Bytes, u64)>, AllocError>
    requires { reads_write e.old.steps.state.client ≡ true }
    ensures state { HasSameButReading e.old.steps.state e.new.steps.state }
    ensures exchange { e.new ≡ record e.old { steps = e.new.steps; answer = record e.old.answer { seen = e.new.answer.seen } } }
    ensures gateway { g.new ≡ record g.old { tier = g.new.tier } }
    ensures reply { HasSameButRoom out.old out.new }
{
    match g.read_at(e.x, out)? {
        Some(Answer::Bytes(bytes)) => {
            let at = e.answer.seen;
            e.answer.seen = at.saturating_add(bytes.len() as u64);
            Ok(Some((bytes, at)))
        }
        Some(Answer::End) => {
            let is_whole = g.tier.is_whole(e.x).unwrap_or(false);
            e.steps.end_reading(!is_whole);
            Ok(None)
        }
        Some(_) => Ok(None),
        None => {
            e.steps.end_reading(true);
            Ok(None)
        }
    }
}
