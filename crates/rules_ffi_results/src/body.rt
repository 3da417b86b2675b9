//! A body's bytes as they come (RFC 9112, 6.3 and 7.1).
ghost use Rattle.std.specs.Prelude.{◌≡◌, ◌+◌, ◌^◌, ◌<◌, ◌≤◌, [], length, IfOk};
ghost use Rattle.rules_ffi_arguments.specs.Given.{Gives};
ghost use Rattle.rules_ffi_results.specs.Telling.{Writes};
ghost use Rattle.rules_ffi_results.specs.Bodies.{piece, short, broken, handed, of_length, chunk_of, with_chunk, behind_data, in_data};
ghost use Rattle.rules_ffi_results.specs.Bodies.{decoded_of, in_trailers, of_chunks, chunked, decoded, ended, refused_call};

use crate::chunk::{Chunk, Place, lines, number, place_of};
use crate::marks::{BAD_CALL, DATA, MEMORY, MORE, NO_ROOM, NOWHERE, OVER, REFUSED};
use crate::trailers::{Section, trailers};
use rules_ffi_arguments::bad::Bad;
use rules_ffi_arguments::room::put;
use rules_ffi_arguments::shapes::{BodyShape, PieceShape, Span};
use std::alloc::{AllocError, Global};

/// What was read: the text of trailers, what is told, and the body behind it.
#[derive(Drop)]
pub struct Decoded {
    pub text: Vec<u8>,
    pub piece: PieceShape,
    pub body: BodyShape,
}

fn piece(status: u64, from: u64, to: u64, used: u64) -> PieceShape
    ensures { result ≡ piece status from to used }
{
    PieceShape {
        status,
        needed: 0,
        reason: 0,
        from,
        to,
        used,
        trailers: NOWHERE,
    }
}

// Nothing, and what room would do.
fn short(status: u64, needed: u64) -> PieceShape
    ensures { result ≡ short status needed }
{
    PieceShape {
        needed,
        ..piece(status, 0, 0, 0)
    }
}

fn broken(reason: u64) -> PieceShape
    ensures { result ≡ broken reason }
{
    PieceShape {
        reason,
        ..piece(REFUSED, 0, 0, 0)
    }
}

/// The next piece of a body in the bytes that came and weren't done with. Its trailers are written into the room. Without room or memory for
/// these the body is as it was, so that the same call can be made again.
pub fn decode(
    alloc: Global,
    body: &mut BodyShape,
    bytes: &[u8],
    room: &mut [u8],
    out: &mut PieceShape,
)
    ensures { Writes (refused_call body.old) (decoded body.old bytes.now) room.old room.new (out.new, body.new) }
{
    match decoding(alloc, body, bytes) {
        Err(Bad::Memory) => *out = short(MEMORY, 0),
        Err(Bad::Call) => *out = short(BAD_CALL, 0),
        Ok(found) => {
            if put(room, found.text.as_slice()) {
                *out = found.piece;
                *body = found.body;
            } else {
                *out = short(NO_ROOM, found.text.len() as u64);
            }
        }
    }
}

// What is read, by how the body ends.
#[tactic(auto, unfolding(crate::specs::Bodies::decoded))]
fn decoding(alloc: Global, body: &BodyShape, bytes: &[u8]) -> Result<Decoded, Bad>
    ensures { Gives decoded_of result (decoded body.now bytes.now) }
{
    if body.reserved != 0 {
        return Err(Bad::Call);
    }
    match body.framing {
        0 => Ok(without_text(alloc, (piece(OVER, 0, 0, 0), *body))),
        1 => Ok(without_text(alloc, of_length(*body, bytes.len() as u64))),
        2 => chunked(alloc, body, bytes),
        3 => Ok(without_text(alloc, (handed(0, bytes.len() as u64), *body))),
        _ => Err(Bad::Call),
    }
}

fn without_text(alloc: Global, told: (PieceShape, BodyShape)) -> Decoded
    ensures { decoded_of result ≡ ([], (told.0, told.1)) }
{
    Decoded {
        text: Vec::new(alloc),
        piece: told.0,
        body: told.1,
    }
}

// So many bytes from a place on; without any, there are more to come.
fn handed(from: u64, len: u64) -> PieceShape
    requires { from + len < 2 ^ 64 }
    ensures { result ≡ handed from len }
{
    if len == 0 {
        piece(MORE, 0, 0, from)
    } else {
        piece(DATA, from, from + len, from + len)
    }
}

fn of_length(body: BodyShape, len: u64) -> (PieceShape, BodyShape)
    ensures { (result.0, result.1) ≡ of_length body len }
{
    if body.length == 0 {
        return (piece(OVER, 0, 0, 0), body);
    }
    let taken = body.length.min(len);
    let left = BodyShape {
        length: body.length - taken,
        ..body
    };
    (handed(0, taken), left)
}

fn chunk_of(body: &BodyShape, place: Place) -> Chunk
    ensures { result ≡ chunk_of body.now place }
{
    Chunk {
        place,
        size: body.size,
        extensions: body.extensions,
    }
}

fn with_chunk(body: &BodyShape, chunk: Chunk) -> BodyShape
    ensures { result ≡ with_chunk body.now chunk }
{
    BodyShape {
        state: number(chunk.place),
        size: chunk.size,
        extensions: chunk.extensions,
        ..*body
    }
}

fn chunked(alloc: Global, body: &BodyShape, bytes: &[u8]) -> Result<Decoded, Bad>
    ensures { Gives decoded_of result (chunked body.now bytes.now) }
{
    match place_of(body.state) {
        None => Err(Bad::Call),
        Some(place) => {
            let (chunk, at) = lines(body.most, chunk_of(body, place), bytes);
            Ok(of_chunks(alloc, body, bytes, chunk, at)?)
        }
    }
}

// What stands behind the lines of chunks, which end at a place.
fn of_chunks(
    alloc: Global,
    body: &BodyShape,
    bytes: &[u8],
    chunk: Chunk,
    at: usize,
) -> Result<Decoded, AllocError>
    requires { at ≤ length bytes.now }
    ensures { IfOk result (λ d. decoded_of d ≡ of_chunks chunk.place body.now bytes.now chunk at) }
{
    let left = with_chunk(body, chunk);
    match chunk.place {
        Place::Data => Ok(without_text(alloc, in_data(body, chunk, at, bytes.len()))),
        Place::Trailers => in_trailers(alloc, left, &bytes[at..], at),
        Place::Over => Ok(without_text(alloc, (piece(OVER, 0, 0, 0), left))),
        Place::Broken => Ok(without_text(alloc, (broken(40), left))),
        _ => Ok(without_text(alloc, (handed(bytes.len() as u64, 0), left))),
    }
}

fn behind_data(left: u64) -> Place
    ensures { result ≡ behind_data left }
{
    if left == 0 {
        Place::DataCr
    } else {
        Place::Data
    }
}

fn in_data(body: &BodyShape, chunk: Chunk, at: usize, len: usize) -> (PieceShape, BodyShape)
    requires { at ≤ len }
    ensures { (result.0, result.1) ≡ in_data body.now chunk at len }
{
    let taken = chunk.size.min((len - at) as u64);
    let left = chunk.size - taken;
    let behind = Chunk {
        place: behind_data(left),
        size: left,
        ..chunk
    };
    (handed(at as u64, taken), with_chunk(body, behind))
}

fn in_trailers(
    alloc: Global,
    body: BodyShape,
    rest: &[u8],
    at: usize,
) -> Result<Decoded, AllocError>
    requires { at + length rest.now < 2 ^ 64 }
    ensures { IfOk result (λ d. decoded_of d ≡ in_trailers body rest.now at) }
{
    let scanned = usize::try_from(body.scanned).unwrap_or(usize::MAX);
    match trailers(alloc, rest, scanned, body.most)? {
        Section::More => Ok(without_text(
            alloc,
            (
                handed(at as u64, 0),
                BodyShape {
                    scanned: rest.len() as u64,
                    ..body
                },
            ),
        )),
        Section::Bad => Ok(without_text(
            alloc,
            (
                broken(41),
                BodyShape {
                    state: number(Place::Broken),
                    ..body
                },
            ),
        )),
        Section::Whole(text, used) => Ok(ended(body, text, at as u64 + used as u64)),
    }
}

fn ended(body: BodyShape, text: Vec<u8>, used: u64) -> Decoded
    ensures { decoded_of result ≡ ended body text.items used }
{
    let trailers = Span {
        from: 0,
        to: text.len() as u64,
    };
    Decoded {
        text,
        piece: PieceShape {
            trailers,
            ..piece(OVER, 0, 0, used)
        },
        body: BodyShape {
            state: number(Place::Over),
            ..body
        },
    }
}
