//! Frames: bodies that look drawn, cut anywhere, as they are sent. A CR is shown as `.`, a LF as `/`; what came of it is shown behind a blank.
use crate::drawn::{Drawn, part_of, text_of};
use crate::shown::show_text;
use gateway_frames::chunks::{
    Framing, add_end, add_framed, content_taken, end_behind, end_front, front, sent_trailers,
};
use gateway_frames::parts::{Part, PartPiece, piece_at};
use gateway_frames::pieces::{Came, NextPiece, Sending, next_piece, relayed_bytes};
use std::io;

const CASES: u64 = 150;

const SIZES: [u64; 12] = [
    0,
    1,
    9,
    10,
    15,
    16,
    255,
    256,
    4095,
    65535,
    1 << 32,
    (1 << 63) - 1,
];

const TRAILERS: &[u8] = b"X: 1\r\nY: 2\r\n";

fn framing_of(seed: u64) -> Framing {
    match seed % 3 {
        0 => Framing::Length,
        1 => Framing::Chunked,
        _ => Framing::Close,
    }
}

fn range(body: &[u8], from: u64, to: u64) -> &[u8] {
    body.get(from as usize..to as usize).unwrap_or(&[])
}

/// Adds the end of a body, whose trailers go to every second one that is sent.
fn add_last(text: &mut Vec<u8>, framing: Framing, seed: u64) -> io::Result<()> {
    let trailers = sent_trailers(framing, seed % 2 == 0, TRAILERS);
    add_end(text, framing, trailers)?;
    Ok(())
}

/// What one call sends, with the calls behind it that have nothing new: a letter, of what came of it.
fn step(
    text: &mut Vec<u8>,
    framing: Framing,
    seed: u64,
    body: &[u8],
    sending: &mut Sending,
) -> io::Result<char> {
    for _ in 0..2 {
        match next_piece(sending) {
            NextPiece::Bytes(from, to) => {
                add_framed(text, framing, range(body, from, to))?;
                sending.place = to;
            }
            NextPiece::End => {
                add_last(text, framing, seed)?;
                return Ok('e');
            }
            NextPiece::Truncate => return Ok('t'),
            NextPiece::Wait => return Ok('w'),
        }
    }
    Ok('?')
}

/// A part of a body that is stored while it is sent.
fn stored(rt: &HostRuntime, seed: u64) -> io::Result<()> {
    let alloc = rt.alloc();
    let framing = framing_of(seed);
    let mut drawn = Drawn::new(seed);
    let length = drawn.below(60);
    let body = text_of(alloc, &mut drawn, length)?;
    let part = part_of(&mut drawn, length);
    let breaks = drawn.below(4) == 0;
    let end = if breaks { length / 2 } else { length };
    let mut text = Vec::new(alloc);
    let mut sending = Sending {
        place: part.from,
        to: part.to,
        there: 0,
        came: Came::GoesOn,
        most: u64::MAX,
    };
    let mut said = 'w';
    for _ in 0..100 {
        let more = drawn.below(12) + 1;
        sending.there = sending.there.saturating_add(more).min(end);
        if sending.there == end {
            sending.came = if breaks {
                Came::Truncated
            } else {
                Came::Complete
            };
        }
        said = step(&mut text, framing, seed, body.as_slice(), &mut sending)?;
        if said != 'w' {
            break;
        }
    }
    show_text(rt, text.as_slice(), said)
}

/// A part of a body that is relayed as it comes.
fn relayed(rt: &HostRuntime, seed: u64) -> io::Result<()> {
    let alloc = rt.alloc();
    let framing = framing_of(seed);
    let mut drawn = Drawn::new(seed);
    let length = drawn.below(60);
    let body = text_of(alloc, &mut drawn, length)?;
    let part = part_of(&mut drawn, length);
    let breaks = drawn.below(4) == 0;
    let end = if breaks { length / 2 } else { length };
    let mut text = Vec::new(alloc);
    let mut before = 0;
    let mut said = if breaks { 't' } else { 'e' };
    for _ in 0..100 {
        if before >= end {
            break;
        }
        let len = (drawn.below(12) + 1).min(end - before);
        let got = relayed_bytes(part.from, part.to, before, len);
        let piece = range(body.as_slice(), before, before.saturating_add(len));
        add_framed(&mut text, framing, range(piece, got.from, got.to))?;
        before = before.saturating_add(len);
        if got.is_last {
            said = 'e';
            break;
        }
    }
    if said == 'e' {
        add_last(&mut text, framing, seed)?;
    }
    show_text(rt, text.as_slice(), said)
}

/// Parts of a body that is whole, each with a text in front of it, and a text behind the last.
fn parts(rt: &HostRuntime, seed: u64) -> io::Result<()> {
    let alloc = rt.alloc();
    let framing = framing_of(seed);
    let mut drawn = Drawn::new(seed);
    let length = drawn.below(60);
    let body = text_of(alloc, &mut drawn, length)?;
    let count = drawn.below(4);
    let mut parts: Vec<Part> = Vec::new(alloc);
    let mut befores: Vec<Vec<u8>> = Vec::new(alloc);
    for _ in 0..count {
        let size = drawn.below(6);
        befores.push(text_of(alloc, &mut drawn, size)?)?;
        parts.push(part_of(&mut drawn, length))?;
    }
    let size = drawn.below(6);
    let after = text_of(alloc, &mut drawn, size)?;
    let mut text = Vec::new(alloc);
    for number in 0..20 {
        match piece_at(parts.as_slice(), length, number) {
            PartPiece::Before(at) => {
                if let Some(before) = befores.get(at) {
                    add_framed(&mut text, framing, before.as_slice())?;
                }
            }
            PartPiece::Body(from, to) => {
                add_framed(&mut text, framing, range(body.as_slice(), from, to))?;
            }
            PartPiece::After => add_framed(&mut text, framing, after.as_slice())?,
            PartPiece::End => break,
        }
    }
    add_last(&mut text, framing, seed)?;
    show_text(rt, text.as_slice(), 'e')
}

/// How much of a body was taken of a piece that was sent in part.
fn taken(rt: &HostRuntime, seed: u64) -> io::Result<()> {
    let mut drawn = Drawn::new(seed);
    let size = drawn.below(300);
    let sent = drawn.below(320);
    println!(rt;
        "{size} {sent} {}",
        content_taken(framing_of(seed), size, sent)
    )
}

/// What stands round the bytes of a chunk, and of the last one.
fn lines(rt: &HostRuntime) -> io::Result<()> {
    for size in SIZES {
        show_text(rt, front(Framing::Chunked, size).as_slice(), '-')?;
    }
    show_text(rt, end_front(Framing::Chunked), '-')?;
    show_text(rt, end_behind(Framing::Chunked), '-')
}

pub fn show(rt: &HostRuntime) -> io::Result<()> {
    lines(rt)?;
    for seed in 0..CASES {
        stored(rt, seed)?;
        relayed(rt, seed)?;
        parts(rt, seed)?;
        taken(rt, seed)?;
    }
    Ok(())
}
