//! Which columns of a line say what, by the command line.
use crate::fault::Fault;
use crate::words::has;
use clap::ArgMatches;
use curve_words::{Columns, digits};
use std::alloc::{AllocError, Global};

const WRONG_COLUMNS: &str =
    "--columns: time=N,key=N[+N..],bytes=N[+N..] are wanted, and perhaps op=N, ttl=N and times=N, by numbers from 1 on";

const WRONG_DELIMITER: &str = "--delimiter: one byte is wanted, or \\t";

const WRONG_ASKS: &str =
    "--columns: op=N wants --get-ops, and --get-ops and --delete-ops are words of op, apart by commas";

const WRONG_ALONE: &str = "--delimiter, --get-ops and --delete-ops belong to --columns";

// Columns by name, as far as they are told.
#[derive(Drop)]
struct Named {
    time: Option<usize>,
    key: Option<Vec<usize>>,
    bytes: Option<Vec<usize>>,
    op: Option<usize>,
    ttl: Option<usize>,
    times: Option<usize>,
}

// A column's place, from 0 on, by its number.
fn place(word: &[u8]) -> Option<usize> {
    let number = digits(word)?;
    usize::try_from(number.checked_sub(1)?).ok()
}

// The places of columns that a plus joins.
fn places(alloc: Global, word: &[u8]) -> Result<Option<Vec<usize>>, AllocError> {
    let mut all = Vec::new(alloc);
    for part in word.split(|byte| *byte == b'+') {
        let Some(place) = place(part) else {
            return Ok(None);
        };
        all.push(place)?;
    }
    Ok(Some(all))
}

// Notes one column that stands alone, and returns whether it has such a name and none yet.
fn note_one(named: &mut Named, name: &[u8], place: Option<usize>) -> bool {
    let slot = match name.len() {
        2 if name == b"op".as_slice() => &mut named.op,
        3 if name == b"ttl".as_slice() => &mut named.ttl,
        4 if name == b"time".as_slice() => &mut named.time,
        5 if name == b"times".as_slice() => &mut named.times,
        _ => return false,
    };
    let is_new = slot.is_none() && place.is_some();
    *slot = place;
    is_new
}

// Notes what a word such as bytes=3+4 tells, and returns whether it tells anything new.
fn note(alloc: Global, named: &mut Named, word: &[u8]) -> Result<bool, AllocError> {
    let mut parts = word.split(|byte| *byte == b'=');
    let (Some(name), Some(value), None) = (parts.next(), parts.next(), parts.next()) else {
        return Ok(false);
    };
    if name == b"key".as_slice() {
        let is_new = named.key.is_none();
        named.key = places(alloc, value)?;
        return Ok(is_new && named.key.is_some());
    }
    if name == b"bytes".as_slice() {
        let is_new = named.bytes.is_none();
        named.bytes = places(alloc, value)?;
        return Ok(is_new && named.bytes.is_some());
    }
    Ok(note_one(named, name, place(value)))
}

// The words of a list, apart by commas.
fn words(alloc: Global, text: Option<&str>) -> Result<Vec<Vec<u8>>, AllocError> {
    let mut all = Vec::new(alloc);
    let Some(text) = text else {
        return Ok(all);
    };
    for word in text.as_bytes().split(|byte| *byte == b',') {
        let mut own = Vec::new(alloc);
        own.extend_from_slice(word)?;
        all.push(own)?;
    }
    Ok(all)
}

// What stands between columns.
fn delimiter(text: Option<&str>) -> Result<Option<u8>, Fault> {
    let Some(text) = text else {
        return Ok(None);
    };
    let bytes = text.as_bytes();
    match bytes.len() {
        1 => Ok(Some(bytes[0])),
        2 if bytes == b"\\t".as_slice() => Ok(Some(b'\t')),
        _ => Err(Fault::Wrong(WRONG_DELIMITER)),
    }
}

// The columns that a list names.
fn read_named(alloc: Global, text: &str) -> Result<Named, Fault> {
    let mut named = Named {
        time: None,
        key: None,
        bytes: None,
        op: None,
        ttl: None,
        times: None,
    };
    for word in text.as_bytes().split(|byte| *byte == b',') {
        if !note(alloc, &mut named, word)? {
            return Err(Fault::Wrong(WRONG_COLUMNS));
        }
    }
    Ok(named)
}

// The columns of names, of which time, key and bytes are wanted.
fn columns_of(alloc: Global, named: Named, matches: &ArgMatches<'_>) -> Result<Columns, Fault> {
    let Some(time) = named.time else {
        return Err(Fault::Wrong(WRONG_COLUMNS));
    };
    let (Some(key), Some(bytes)) = (named.key, named.bytes) else {
        return Err(Fault::Wrong(WRONG_COLUMNS));
    };
    let Some((first, more)) = key.as_slice().split_first() else {
        return Err(Fault::Wrong(WRONG_COLUMNS));
    };
    let Some((last, before)) = bytes.as_slice().split_last() else {
        return Err(Fault::Wrong(WRONG_COLUMNS));
    };
    let mut key_more = Vec::new(alloc);
    key_more.extend_from_slice(more)?;
    let mut bytes_before = Vec::new(alloc);
    bytes_before.extend_from_slice(before)?;
    Ok(Columns {
        delimiter: delimiter(matches.get_str("delimiter"))?,
        time,
        key: *first,
        key_more,
        bytes: *last,
        bytes_before,
        op: named.op,
        ttl: named.ttl,
        times: named.times,
        asks: words(alloc, matches.get_str("get-ops"))?,
        removes: words(alloc, matches.get_str("delete-ops"))?,
    })
}

/// The columns that are asked for; without them a line is three words.
pub(crate) fn columns_in(
    alloc: Global,
    matches: &ArgMatches<'_>,
) -> Result<Option<Columns>, Fault> {
    let Some(text) = matches.get_str("columns") else {
        if has(matches, "delimiter") || has(matches, "get-ops") || has(matches, "delete-ops") {
            return Err(Fault::Wrong(WRONG_ALONE));
        }
        return Ok(None);
    };
    let named = read_named(alloc, text)?;
    let has_words = has(matches, "get-ops") || has(matches, "delete-ops");
    if named.op.is_some() != has(matches, "get-ops") || has_words && named.op.is_none() {
        return Err(Fault::Wrong(WRONG_ASKS));
    }
    let columns = columns_of(alloc, named, matches)?;
    Ok(Some(columns))
}
