//! Values as MessagePack, read in any form.
use cache_words::key::HashBinary;
use cache_words::pack::{Cursor, PackFault};
use cache_words::time::Moment;

pub(super) const HASH: HashBinary = [0, 128, 1, 2, 3, 4, 5, 6, 7, 8, 9, 10, 11, 12, 13, 14];

pub(super) const HASH_TEXT: &[u8] =
    b"\xdc\x00\x10\x00\xcc\x80\x01\x02\x03\x04\x05\x06\x07\x08\x09\x0a\x0b\x0c\x0d\x0e";

fn moment(seconds: i64, nanoseconds: u32) -> Moment {
    Moment::new(seconds, nanoseconds).unwrap()
}

// What is read of the bytes, and how many are left. After a fault the cursor is where it was.
fn read<T, F: FnOnce(&mut Cursor<'static>) -> Result<T, PackFault>>(
    bytes: &'static [u8],
    ask: F,
) -> Result<(T, usize), PackFault> {
    let mut cursor = Cursor { rest: bytes };
    match ask(&mut cursor) {
        Ok(found) => Ok((found, cursor.rest.len())),
        Err(fault) if cursor.rest.len() == bytes.len() => Err(fault),
        Err(_) => unreachable!(),
    }
}

#[test]
fn numbers_are_read(rt: HostRuntime) {
    assert!(rt; read(b"\xcd\x00\x05", |c| c.number()) == Ok((5, 0)));
    assert!(rt; read(b"", |c| c.number()) == Err(PackFault::Short));
    assert!(rt; read(b"\xcd\x00", |c| c.number()) == Err(PackFault::Short));
    assert!(rt; read(b"\xd0\x05", |c| c.number()) == Err(PackFault::Kind));
    assert!(rt; read(b"\x05", |c| c.number_below(6)) == Ok((5, 0)));
    assert!(rt; read(b"\x05", |c| c.number_below(5)) == Err(PackFault::Range));
    assert!(rt; read(b"\xc0\x07", |c| c.optional_number()) == Ok((None, 1)));
    assert!(rt; read(b"\xcc\x80", |c| c.optional_number()) == Ok((Some(128), 0)));
    assert!(rt; read(b"", |c| c.optional_number()) == Err(PackFault::Short));
    assert!(rt; read(b"\xa0", |c| c.optional_number()) == Err(PackFault::Kind));
    assert!(rt; read(b"", |c| c.array()) == Err(PackFault::Short));
    assert!(rt; read(b"\xc0", |c| c.array()) == Err(PackFault::Kind));
    assert!(rt; read(b"\xdd\xff\xff\xff\xff", |c| c.array()) == Ok((u32::MAX as u64, 0)));
    assert!(rt; read(b"\xdc\x00\x03\x07", |c| c.array()) == Ok((3, 1)));
    assert!(rt; read(b"\xdc\x00", |c| c.array()) == Err(PackFault::Short));
    assert!(rt; read(b"\xdd\xff\xff\xff\xff", |c| c.array_of(3)) == Err(PackFault::Length));
    assert!(rt; read(b"\xdc\x00\x03", |c| c.array_of(3)) == Ok(((), 0)));
    assert!(rt; read(b"\x7f", |c| c.byte()) == Ok((127, 0)));
    assert!(rt; read(b"\xcc\x05", |c| c.byte()) == Err(PackFault::Kind));
    assert!(rt; read(b"\xce\xff\xff\xff\xff", |c| c.seconds()) == Ok((u32::MAX, 0)));
    assert!(rt; read(b"\xcf\0\0\0\x01\0\0\0\0", |c| c.seconds()) == Err(PackFault::Range));
}

#[test]
fn texts_are_read(rt: HostRuntime) {
    assert!(rt; read(b"\xa1h\x07", |c| c.text()) == Ok(("h", 1)));
    assert!(rt; read(b"\xd9\x01h", |c| c.text()) == Ok(("h", 0)));
    assert!(rt; read(b"\xda\0\x01h", |c| c.text()) == Ok(("h", 0)));
    assert!(rt; read(b"\xdb\0\0\0\x01h", |c| c.text()) == Ok(("h", 0)));
    assert!(rt; read(b"\xa1\xff", |c| c.text()) == Err(PackFault::Utf8));
    assert!(rt; read(b"\xa2h", |c| c.text()) == Err(PackFault::Short));
    assert!(rt; read(b"\xc4\x01h", |c| c.text()) == Err(PackFault::Kind));
    assert!(rt; read(b"\xc4\x01\x05\x07", |c| c.byte_string()) == Ok((b"\x05".as_slice(), 1)));
    assert!(rt; read(b"\xc5\0\x01\x05", |c| c.byte_string()) == Ok((b"\x05".as_slice(), 0)));
    assert!(rt; read(b"\xc6\0\0\0\x01\x05", |c| c.byte_string()) == Ok((b"\x05".as_slice(), 0)));
    assert!(rt; read(b"\xa1\x05", |c| c.byte_string()) == Err(PackFault::Kind));
    assert!(rt; read(b"\xc0", |c| c.nil()) == Ok(((), 0)));
    assert!(rt; read(b"\x00", |c| c.nil()) == Err(PackFault::Kind));
}

#[test]
fn hashes_are_read(rt: HostRuntime) {
    assert!(rt; read(HASH_TEXT, |c| c.hash()) == Ok((HASH, 0)));
    assert!(rt; read(b"\x9f", |c| c.hash()) == Err(PackFault::Length));
    assert!(rt; read(b"\xdc\x00\x10\xcd\x01\x00", |c| c.hash()) == Err(PackFault::Range));
    assert!(rt; read(b"\xc0", |c| c.hash()) == Err(PackFault::Kind));
    assert!(rt; read(b"\xc0", |c| c.optional_hash()) == Ok((None, 0)));
    assert!(rt; read(HASH_TEXT, |c| c.optional_hash()) == Ok((Some(HASH), 0)));
    assert!(rt; read(b"\xc0", |c| c.hash_there(true)) == Ok((None, 0)));
    assert!(rt; read(HASH_TEXT, |c| c.hash_there(true)) == Ok((Some(HASH), 0)));
    assert!(rt; read(b"", |c| c.hash_there(true)) == Err(PackFault::Short));
    assert!(rt; read(b"\xc0", |c| c.hash_there(false)) == Ok((None, 1)));
}

#[test]
fn moments_are_read(rt: HostRuntime) {
    assert!(rt; read(b"\x92\xcd\x03\xe8\x00", |c| c.moment()) == Ok((moment(1000, 0), 0)));
    assert!(rt; read(b"\x92\x05\xce\x3b\x9a\xca\x00", |c| c.moment()) == Ok((moment(6, 0), 0)));
    assert!(rt; read(b"\x92\x05\xcf\0\0\0\x01\0\0\0\0", |c| c.moment()) == Err(PackFault::Range));
    assert!(rt;
        read(
            b"\x92\xcf\x7f\xff\xff\xff\xff\xff\xff\xff\x01",
            |c| c.moment()
        ) == Ok((moment(i64::MAX, 1), 0))
    );
    assert!(rt; read(b"\x92\xcf\x80\0\0\0\0\0\0\0\x00", |c| c.moment()) == Err(PackFault::Range));
    assert!(rt; read(b"\xc0", |c| c.optional_moment()) == Ok((None, 0)));
    assert!(rt; read(b"\x92\x05\x06", |c| c.optional_moment()) == Ok((Some(moment(5, 6)), 0)));
    assert!(rt; read(b"\x92\x05", |c| c.moment_there(true)) == Err(PackFault::Short));
    assert!(rt; read(b"", |c| c.moment_there(false)) == Ok((None, 0)));
}
