//! Heads as bytes.
use crate::made::{self, Field};
use cache_words::pack::PackFault;
use head_lines::ResponseHeader;
use head_metas::fault::MetaReadFault;
use head_metas::{head, laws};
use std::alloc::{AllocError, Global};

// Names in any case, forms that are not the shortest, and bytes after the head.
const ANY_FORM: &[u8] =
    b"\xdc\0\x02\xcd\0\xc8\xdd\0\0\0\x01\xdc\0\x02\xd9\x01A\xc5\0\x011and what follows";

// Fields, the bytes that their head is read from, and whether it is written so: the values of a name are together, in the map's
// order.
const HEADS: &[(&[Field], &[u8], bool)] = &[
    (&[], b"\x92\xcc\xc8\x90", true),
    (
        &[("cache-control", b"max-age=10")],
        b"\x92\xcc\xc8\x91\x92\xadcache-control\xc4\x0amax-age=10",
        true,
    ),
    (
        &[("b", b"1"), ("a", b""), ("B", b"\xff")],
        b"\x92\xcc\xc8\x93\x92\xa1b\xc4\x011\x92\xa1b\xc4\x01\xff\x92\xa1a\xc4\0",
        true,
    ),
    (&[("a", b"1")], ANY_FORM, false),
    (
        &[("a", b"1")],
        b"\x92\xcc\xc8\xdc\0\x01\x92\xa1a\xc4\x011",
        false,
    ),
];

fn is_read_as(alloc: Global, text: &[u8], header: &ResponseHeader) -> bool {
    match head::read(alloc, text) {
        Ok(read) => read.status == header.status && read.headers == header.headers,
        Err(_) => false,
    }
}

fn is_written_as(alloc: Global, text: &[u8], header: &ResponseHeader) -> bool {
    match head::write(alloc, header) {
        Ok(written) => written.as_slice() == text,
        Err(_) => false,
    }
}

fn is_head(alloc: Global, fields: &[Field], text: &[u8], written: bool) -> bool {
    let header = made::head(alloc, fields);
    is_read_as(alloc, text, &header) && (!written || is_written_as(alloc, text, &header))
}

#[test]
fn heads_are_written_and_read(rt: HostRuntime) {
    laws::head_is_read_again();
    laws::one_head();
    laws::map_of_its_lines();
    for &(fields, text, written) in HEADS {
        assert!(rt; is_head(rt.alloc(), fields, text, written));
    }
}

const FAULTS: &[(&[u8], PackFault)] = &[
    (b"", PackFault::Short),
    (b"\xc0", PackFault::Kind),
    (b"\x93\xcc\xc8\x90", PackFault::Length),
    (b"\x92", PackFault::Short),
    (b"\x92\xc0", PackFault::Kind),
    (b"\x92\x63\x90", PackFault::Range),
    (b"\x92\xcd\x03\xe8\x90", PackFault::Range),
    (b"\x92\xcc\xc8", PackFault::Short),
    (b"\x92\xcc\xc8\x91", PackFault::Short),
    (b"\x92\xcc\xc8\x91\x93", PackFault::Length),
    (b"\x92\xcc\xc8\x91\x92\xc4\x01a", PackFault::Kind),
    (b"\x92\xcc\xc8\x91\x92\xa1\xff", PackFault::Utf8),
    (b"\x92\xcc\xc8\x91\x92\xa1 ", PackFault::Kind),
    (b"\x92\xcc\xc8\x91\x92\xa1a\xa11", PackFault::Kind),
    (b"\x92\xcc\xc8\x91\x92\xa1a\xc4\x01\n", PackFault::Kind),
    (b"\x92\xcc\xc8\xdd\xff\xff\xff\xff", PackFault::Short),
];

/// How many names are read.
pub(super) fn names_of(alloc: Global, text: &[u8]) -> Result<usize, MetaReadFault> {
    match head::read(alloc, text) {
        Ok(header) => Ok(header.headers.keys_len()),
        Err(fault) => Err(fault),
    }
}

#[test]
fn the_first_fault_of_a_head_is_returned(rt: HostRuntime) {
    for &(bytes, fault) in FAULTS {
        assert!(rt; names_of(rt.alloc(), bytes) == Err(MetaReadFault::Pack(fault)));
    }
}

fn letter(number: u32) -> u8 {
    b'a' + (number % 26) as u8
}

// Writes a head of this many names, each of four letters.
fn put_names(text: &mut Vec<u8>, count: u32) -> Result<(), AllocError> {
    text.extend_from_slice(b"\x92\xcc\xc8\xdd")?;
    text.extend_from_slice(&count.to_be_bytes())?;
    for i in 0..count {
        let third = letter(i / 26);
        let pair = [
            0x92,
            0xa4,
            letter(i / 17576),
            letter(i / 676),
            third,
            letter(i),
            0xc4,
            0,
        ];
        text.extend_from_slice(&pair)?;
    }
    Ok(())
}

// Whether so many names are read of a head of this many.
fn names_are_read(alloc: Global, count: u32, want: Result<usize, MetaReadFault>) -> bool {
    let mut text = Vec::new(alloc);
    put_names(&mut text, count).is_ok() && names_of(alloc, text.as_slice()) == want
}

#[test]
fn a_map_holds_24576_names(rt: HostRuntime) {
    let full = MetaReadFault::Pack(PackFault::Length);
    assert!(rt; names_are_read(rt.alloc(), 24576, Ok(24576)));
    assert!(rt; names_are_read(rt.alloc(), 24577, Err(full)));
}
