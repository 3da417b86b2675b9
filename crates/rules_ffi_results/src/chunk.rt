//! The lines of a chunked body, byte by byte (RFC 9112, 7.1).
ghost use Rattle.std.specs.Prelude.{◌≡◌, ◌<◌, ◌≤◌, length};
ghost use Rattle.rules_ffi_results.specs.Chunks.{number, place_of, is_line, only, behind_size, with_digit, at_start, in_size, in_extension};
ghost use Rattle.rules_ffi_results.specs.Chunks.{behind_line, after, lines_from, lines};

use httparse::{is_header_value_token, is_space_or_tab, parse_hex_digit};

/// Where in a chunked body the next byte stands.
#[derive(Clone, Copy, Debug)]
pub enum Place {
    /// The first digit of chunk-size.
    Start,
    /// More of chunk-size, or what follows it.
    Size,
    /// Blanks behind chunk-size.
    Blank,
    /// chunk-ext.
    Extension,
    /// The LF behind these.
    SizeEnd,
    /// chunk-data.
    Data,
    /// The CR behind chunk-data, and its LF.
    DataCr,
    DataLf,
    /// trailer-section, behind the last chunk.
    Trailers,
    /// The body is over.
    Over,
    /// It is broken.
    Broken,
}

/// What is known of a chunk: where its next byte stands, the size so far or that is left, and the bytes of the extensions of all chunks.
#[derive(Clone, Copy, Debug)]
pub struct Chunk {
    pub place: Place,
    pub size: u64,
    pub extensions: u64,
}

/// The number of a place.
pub fn number(place: Place) -> u64
    ensures { result ≡ number place }
{
    match place {
        Place::Start => 0,
        Place::Size => 1,
        Place::Blank => 2,
        Place::Extension => 3,
        Place::SizeEnd => 4,
        Place::Data => 5,
        Place::DataCr => 6,
        Place::DataLf => 7,
        Place::Trailers => 8,
        Place::Over => 9,
        Place::Broken => 10,
    }
}

/// The place of a number, or none.
pub fn place_of(number: u64) -> Option<Place>
    ensures { result ≡ place_of number }
{
    match number {
        0 => Some(Place::Start),
        1 => Some(Place::Size),
        2 => Some(Place::Blank),
        3 => Some(Place::Extension),
        4 => Some(Place::SizeEnd),
        5 => Some(Place::Data),
        6 => Some(Place::DataCr),
        7 => Some(Place::DataLf),
        8 => Some(Place::Trailers),
        9 => Some(Place::Over),
        10 => Some(Place::Broken),
        _ => None,
    }
}

// Whether a byte there belongs to a line.
fn is_line(place: Place) -> bool
    ensures { result ≡ is_line place }
{
    match place {
        Place::Data | Place::Trailers | Place::Over | Place::Broken => false,
        _ => true,
    }
}

// Goes on with one byte alone.
fn only(wanted: u8, next: Place, b: u8) -> Place
    ensures { result ≡ only wanted next b }
{
    if b == wanted { next } else { Place::Broken }
}

fn behind_size(b: u8) -> Place
    ensures { result ≡ behind_size b }
{
    if is_space_or_tab(b) {
        Place::Blank
    } else if b == b';' {
        Place::Extension
    } else {
        only(b'\r', Place::SizeEnd, b)
    }
}

// A greater size is refused when one more digit comes.
const MOST_SIZE: u64 = 1 << 59;

fn with_digit(chunk: Chunk, digit: u64) -> Chunk
    requires { digit < 16 }
    ensures { result ≡ with_digit chunk digit }
{
    if chunk.size < MOST_SIZE {
        Chunk {
            place: Place::Size,
            size: chunk.size * 16 + digit,
            ..chunk
        }
    } else {
        Chunk {
            place: Place::Broken,
            ..chunk
        }
    }
}

fn at_start(chunk: Chunk, b: u8) -> Chunk
    ensures { result ≡ at_start chunk b }
{
    match parse_hex_digit(b) {
        Some(digit) => with_digit(Chunk { size: 0, ..chunk }, digit),
        None => Chunk {
            place: Place::Broken,
            ..chunk
        },
    }
}

fn in_size(chunk: Chunk, b: u8) -> Chunk
    ensures { result ≡ in_size chunk b }
{
    match parse_hex_digit(b) {
        Some(digit) => with_digit(chunk, digit),
        None => Chunk {
            place: behind_size(b),
            ..chunk
        },
    }
}

// A byte of an extension is passed over, as long as all of them aren't too many.
fn in_extension(most: u64, chunk: Chunk, b: u8) -> Chunk
    ensures { result ≡ in_extension most chunk b }
{
    if b == b'\r' {
        return Chunk {
            place: Place::SizeEnd,
            ..chunk
        };
    }
    if is_header_value_token(b) && chunk.extensions < most {
        Chunk {
            extensions: chunk.extensions + 1,
            ..chunk
        }
    } else {
        Chunk {
            place: Place::Broken,
            ..chunk
        }
    }
}

// What follows the line of a chunk: the last chunk has size 0.
fn behind_line(size: u64) -> Place
    ensures { result ≡ behind_line size }
{
    if size == 0 {
        Place::Trailers
    } else {
        Place::Data
    }
}

/// What a byte makes of a chunk; `most` bytes may be in extensions.
pub fn after(most: u64, chunk: Chunk, b: u8) -> Chunk
    ensures { result ≡ after most chunk b }
{
    let place = match chunk.place {
        Place::Start => return at_start(chunk, b),
        Place::Size => return in_size(chunk, b),
        Place::Extension => return in_extension(most, chunk, b),
        Place::Blank => behind_size(b),
        Place::SizeEnd => only(b'\n', behind_line(chunk.size), b),
        Place::DataCr => only(b'\r', Place::DataLf, b),
        Place::DataLf => only(b'\n', Place::Start, b),
        other => other,
    };
    Chunk { place, ..chunk }
}

/// Goes over the bytes of lines: what is known behind them, and how many they are.
pub fn lines(most: u64, chunk: Chunk, bytes: &[u8]) -> (Chunk, usize)
    ensures is { (result.0, result.1) ≡ lines most chunk bytes.now }
    ensures within { result.1 ≤ length bytes.now }
{
    let mut now = chunk;
    for (i, b) in bytes.iter().enumerate() {
        if !is_line(now.place) {
            return (now, i);
        }
        now = after(most, now, *b);
    }
    (now, bytes.len())
}
