//! How a row of calls is played.
use crate::made::{answer, counts, entry, file, found, meta};
use tier_calls::held::TierHandle;
use tier_calls::keeps::release;

#[derive(Clone, Copy)]
pub(crate) enum Call {
    Open,
    OpenWithLock,
    LookUp,
    Poll,
    Begin,
    BeginGiven,
    Revalidate,
    Piece,
    LastPiece,
    Finish,
    Drop,
    Purge,
    PurgeDigested,
    Put,
    PutGiven,
    Hit,
    Find,
    Read,
    Kept,
    Evicted,
    List,
    Listed,
    Save,
    File,
    Start,
    HandFile,
}

/// A call, its moment, its request or place, its key, head or bytes, and the status that it answers.
pub(crate) type Row = (Call, u64, u64, &'static [u8], u64);

// The bytes of a head before a body, and of a body.
const HEAD: &[u8] = b"HTTP/1.1 200 OK\r\nCache-Control: max-age=60\r\n\r\n";

fn of_request(held: &mut TierHandle, row: &Row) -> u64 {
    let (call, seconds, id, bytes, _) = *row;
    let mut out = answer();
    match call {
        Call::Open => held.open(id, 0, 0, bytes, b"", &mut out),
        Call::OpenWithLock => held.open(id, 1, 0, bytes, b"tag", &mut out),
        Call::LookUp => held.look_up(seconds, 0, id, &mut out),
        Call::Poll => held.poll(seconds, 0, id, &mut out),
        Call::Begin => held.begin(seconds, 0, id, bytes, 0, &meta(0), &mut out),
        Call::BeginGiven => held.begin(seconds, 0, id, bytes, 1, &meta(2000), &mut out),
        Call::Revalidate => held.revalidate(seconds, 0, id, bytes, 0, &meta(0), &mut out),
        Call::Piece => held.piece(id, 0, bytes, &mut out),
        Call::LastPiece => held.piece(id, 1, bytes, &mut out),
        Call::Finish => held.finish(id, &mut out),
        _ => held.drop_request(id, &mut out),
    }
    out.status
}

fn of_key(held: &mut TierHandle, row: &Row) -> u64 {
    let (call, seconds, id, bytes, _) = *row;
    let mut out = answer();
    match call {
        Call::Purge => held.purge(0, bytes, b"", &mut out),
        Call::PurgeDigested => held.purge(1, bytes, b"", &mut out),
        Call::Put => held.put(
            seconds,
            0,
            0,
            bytes,
            b"",
            HEAD,
            b"abc",
            0,
            &meta(0),
            &mut out,
        ),
        Call::PutGiven => {
            held.put(
                seconds,
                0,
                0,
                bytes,
                b"tag",
                HEAD,
                b"abcd",
                1,
                &meta(2000),
                &mut out,
            )
        }
        Call::List => held.list(id, &mut out),
        Call::Save => held.save(&mut out),
        Call::Start => held.start(&mut out),
        _ => held.hand_file(id, bytes, &mut out),
    }
    out.status
}

fn of_found(held: &mut TierHandle, row: &Row) -> u64 {
    let (call, seconds, id, bytes, _) = *row;
    let mut out = found();
    let keep = match call {
        Call::Hit => held.hit(seconds, 0, 0, bytes, b"", &mut out),
        Call::Find => held.find(seconds, 0, id, &mut out),
        Call::Read => held.read(id, &mut out),
        _ => held.kept(0, bytes, &mut out),
    };
    release(keep);
    out.answer.status
}

fn of_shown(held: &mut TierHandle, row: &Row) -> u64 {
    let (call, _, id, _, _) = *row;
    if let Call::File = call {
        let mut out = file();
        held.file(id, &mut out);
        return out.status;
    }
    let mut out = entry();
    match call {
        Call::Evicted => held.evicted(id, &mut out),
        _ => held.listed(id, &mut out),
    }
    out.status
}

fn status_of(held: &mut TierHandle, row: &Row) -> u64 {
    match row.0 {
        Call::Purge
        | Call::PurgeDigested
        | Call::Put
        | Call::PutGiven
        | Call::List
        | Call::Save
        | Call::Start
        | Call::HandFile => of_key(held, row),
        Call::Hit | Call::Find | Call::Read | Call::Kept => of_found(held, row),
        Call::File | Call::Evicted | Call::Listed => of_shown(held, row),
        _ => of_request(held, row),
    }
}

/// Which row is answered otherwise, if one is.
pub(crate) fn other(held: &mut TierHandle, rows: &[Row]) -> Option<usize> {
    for (place, row) in rows.iter().enumerate() {
        if status_of(held, row) != row.4 {
            return Some(place);
        }
    }
    None
}

/// What a read answers, and whether it tells of a whole body.
pub(crate) fn told_by_read(held: &mut TierHandle, id: u64) -> (u64, u64) {
    let mut out = found();
    release(held.read(id, &mut out));
    (out.answer.status, out.answer.complete)
}

/// How many bodies there are, and how many look-ups found something.
pub(crate) fn bodies_and_found(held: &mut TierHandle) -> (u64, u64) {
    let mut out = counts();
    held.report(&mut out);
    (out.bodies, out.found)
}
