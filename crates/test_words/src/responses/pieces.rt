//! What pieces give as they are cut, joined, and byte by byte.
use crate::responses::rows::ROWS;
use bytes::Bytes;
use head_parse::{Parsed, Progress, Response, ResponseParse, read_response};
use std::alloc::{AllocError, Global};
use std::fmt::Write;

/// What bytes give at the end.
#[derive(Clone, Copy)]
pub(crate) enum Want {
    /// A status, how many fields, and the body.
    Whole(u16, usize, &'static str),
    /// A status, and how many bytes of a body that ends too early.
    Short(u16, usize),
    /// A head that ends too early.
    Begun,
    BadHead,
}

fn is_whole(found: &Response, status: u16, fields: usize, body: &str) -> bool {
    found.header.status.as_u16() == status
        && found.header.headers.len() == fields
        && found.body.as_slice() == body.as_bytes()
}

fn is_so(parsed: &Parsed, want: Want) -> bool {
    match (parsed, want) {
        (Parsed::Complete(found), Want::Whole(status, fields, body)) => {
            is_whole(found, status, fields, body)
        }
        (Parsed::Incomplete(Some(short)), Want::Short(status, len)) => {
            short.header.status.as_u16() == status && short.len == len
        }
        (Parsed::Incomplete(None), Want::Begun) | (Parsed::BadHead, Want::BadHead) => true,
        _ => false,
    }
}

fn gives(parsed: Result<Parsed, AllocError>, want: Want) -> bool {
    match parsed {
        Ok(parsed) => is_so(&parsed, want),
        Err(AllocError) => false,
    }
}

fn inject(alloc: Global, parser: &mut ResponseParse, piece: &[u8]) -> Result<Progress, AllocError> {
    parser.inject_data(Bytes::copy_from_slice(alloc, piece)?)
}

// Writes how far the parser has come after each piece.
fn inject_pieces(
    alloc: Global,
    parser: &mut ResponseParse,
    pieces: &[&str],
    text: &mut String,
) -> Result<(), AllocError> {
    for piece in pieces {
        let progress = inject(alloc, parser, piece.as_bytes())?;
        write!(text, "{progress:?} ")?;
    }
    Ok(())
}

fn inject_bytes(alloc: Global, parser: &mut ResponseParse, bytes: &[u8]) -> Result<(), AllocError> {
    for &byte in bytes {
        inject(alloc, parser, &[byte])?;
    }
    Ok(())
}

// Whether these are the answers after each piece, and what all of them give.
fn are_cut_so(alloc: Global, pieces: &[&str], answers: &str, want: Want) -> bool {
    let mut parser = ResponseParse::new(alloc);
    let mut text = String::new(alloc);
    let injected = inject_pieces(alloc, &mut parser, pieces, &mut text);
    let given = gives(parser.finish(), want);
    injected.is_ok() && text.as_str() == answers && given
}

fn are_by_bytes(alloc: Global, bytes: &[u8], want: Want) -> bool {
    let mut parser = ResponseParse::new(alloc);
    let injected = inject_bytes(alloc, &mut parser, bytes);
    let given = gives(parser.finish(), want);
    injected.is_ok() && given
}

fn read(alloc: Global, bytes: &[u8]) -> Result<Parsed, AllocError> {
    read_response(alloc, Bytes::copy_from_slice(alloc, bytes)?)
}

/// Whether bytes give this at once, and one by one.
pub(crate) fn are_read_so(alloc: Global, bytes: &[u8], want: Want) -> bool {
    gives(read(alloc, bytes), want) && are_by_bytes(alloc, bytes, want)
}

fn join(all: &mut Vec<u8>, pieces: &[&str]) -> Result<(), AllocError> {
    for piece in pieces {
        all.extend_from_slice(piece.as_bytes())?;
    }
    Ok(())
}

fn are_joined_so(alloc: Global, pieces: &[&str], want: Want) -> bool {
    let mut all = Vec::new(alloc);
    join(&mut all, pieces).is_ok() && are_read_so(alloc, all.as_slice(), want)
}

#[test]
fn pieces_give_what_they_give_joined(rt: HostRuntime) {
    for &(pieces, answers, want) in ROWS {
        assert!(rt; are_cut_so(rt.alloc(), pieces, answers, want));
        assert!(rt; are_joined_so(rt.alloc(), pieces, want));
    }
}
