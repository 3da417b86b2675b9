//! The fields of a line.
ghost use Rattle.std.specs.Prelude.{◌≡◌, ◌++◌, map, option_map, IfOk, string_bytes};
ghost use Rattle.trace_lines.specs.Lines.{moment_in, moment_of, id_of, tag_of, lock_of, key_of, head_of, part_of, end_of, spelled_in, flag_in, bytes_of, all_bytes_of, pieces_of, operation_named, operation_of, IsRead, IsReadAs};
ghost use Rattle.trace_lines.specs.Trees.{seen, items_seen};

use crate::hex_text::decode;
use crate::line::{FieldName, Operation, Refusal, Stop};
use crate::tree;
use bytes::Bytes;
use cache_words::key::CacheKey;
use cache_words::time::Moment;
use json::Value;
use std::alloc::{AllocError, Global};
use tier_model::event::Pieces;

// A moment's seconds fit in 63 bits.
const MOMENT_END: u64 = 1 << 63;

// The operation that the line names.
pub(crate) fn operation(value: &Value<'_>) -> Result<Operation, Refusal>
    ensures { result ≡ operation_of (seen value.now) }
{
    tree::member(value, "op")
        .and_then(tree::text)
        .and_then(operation_named)
        .ok_or(Refusal::Op)
}

// The most frequent name comes first.
fn operation_named(name: &str) -> Option<Operation>
    ensures { result ≡ operation_named name.now }
{
    match name {
        "put" => Some(Operation::Put),
        "open" => Some(Operation::Open),
        "look" => Some(Operation::LookUp),
        "read" => Some(Operation::Read),
        "drop" => Some(Operation::Drop),
        "piece" => Some(Operation::Piece),
        "begin" => Some(Operation::Begin),
        "finish" => Some(Operation::Finish),
        "revalidate" => Some(Operation::Revalidate),
        "poll" => Some(Operation::Poll),
        "purge" => Some(Operation::Purge),
        "put-given" => Some(Operation::PutGiven),
        "begin-given" => Some(Operation::BeginGiven),
        "revalidate-given" => Some(Operation::RevalidateGiven),
        "restore" => Some(Operation::Restore),
        _ => None,
    }
}

// The moment of the event.
pub(crate) fn moment(value: &Value<'_>) -> Result<Moment, Refusal>
    ensures { result ≡ moment_of (seen value.now) }
{
    moment_in(FieldName::At, tree::member(value, "at"))
}

pub(crate) fn moment_in(field: FieldName, value: Option<&Value<'_>>) -> Result<Moment, Refusal>
    ensures { result ≡ moment_in field (option_map (λ v. seen v.now) value.entry) }
{
    match value.and_then(tree::whole_number) {
        Some(seconds) if seconds < MOMENT_END => Ok(Moment::from_seconds(seconds as i64)),
        _ => Err(Refusal::Field(field)),
    }
}

// The number of the request.
pub(crate) fn id(value: &Value<'_>) -> Result<u64, Refusal>
    ensures { result ≡ id_of (seen value.now) }
{
    tree::member(value, "id")
        .and_then(tree::whole_number)
        .ok_or(Refusal::Field(FieldName::Id))
}

// The key: the bytes that it names, and its tag.
pub(crate) fn key(alloc: Global, value: &Value<'_>) -> Result<CacheKey, Stop>
    ensures { IsRead result (key_of (seen value.now)) }
{
    let primary = spelled(alloc, FieldName::Key, tree::member(value, "key"))?;
    let tag = tag(alloc, value)?;
    Ok(CacheKey::new(primary, tag))
}

// The owner's tag.
pub(crate) fn tag(alloc: Global, value: &Value<'_>) -> Result<String, Stop>
    ensures { IsReadAs string_bytes result (tag_of (seen value.now)) }
{
    let Some(tag) = tree::member(value, "tag") else {
        return Ok(String::new(alloc));
    };
    match tree::text(tag) {
        Some(text) => Ok(String::from_str(alloc, text)?),
        None => Err(Stop::Refused(Refusal::Field(FieldName::Tag))),
    }
}

// Whether the request asks for the permit to write.
pub(crate) fn lock(value: &Value<'_>) -> Result<bool, Refusal>
    ensures { result ≡ lock_of (seen value.now) }
{
    flag(FieldName::Lock, tree::member(value, "lock"))
}

// The head of a response.
pub(crate) fn head(alloc: Global, value: &Value<'_>) -> Result<Bytes, Stop>
    ensures { IsRead result (head_of (seen value.now)) }
{
    shared(alloc, FieldName::Head, tree::member(value, "head"))
}

// The bytes of a part of a body.
pub(crate) fn part(alloc: Global, value: &Value<'_>) -> Result<Bytes, Stop>
    ensures { IsRead result (part_of (seen value.now)) }
{
    shared(alloc, FieldName::Bytes, tree::member(value, "bytes"))
}

// Whether the part is the last.
pub(crate) fn end(value: &Value<'_>) -> Result<bool, Refusal>
    ensures { result ≡ end_of (seen value.now) }
{
    flag(FieldName::End, tree::member(value, "end"))
}

fn flag(field: FieldName, value: Option<&Value<'_>>) -> Result<bool, Refusal>
    ensures { result ≡ flag_in field (option_map (λ v. seen v.now) value.entry) }
{
    match value {
        Some(value) => tree::flag(value).ok_or(Refusal::Field(field)),
        None => Ok(false),
    }
}

fn shared(alloc: Global, field: FieldName, value: Option<&Value<'_>>) -> Result<Bytes, Stop>
    ensures { IsRead result (spelled_in field (option_map (λ v. seen v.now) value.entry)) }
{
    let bytes = spelled(alloc, field, value)?;
    match Bytes::from_vec(bytes) {
        Ok(bytes) => Ok(bytes),
        Err(_) => Err(Stop::Memory),
    }
}

fn spelled(alloc: Global, field: FieldName, value: Option<&Value<'_>>) -> Result<Vec<u8>, Stop>
    ensures { IsReadAs (λ bytes. bytes.items) result (spelled_in field (option_map (λ v. seen v.now) value.entry)) }
{
    let Some(text) = value.and_then(tree::text) else {
        return Err(Stop::Refused(Refusal::Field(field)));
    };
    match decode(alloc, text)? {
        Some(bytes) => Ok(bytes),
        None => Err(Stop::Refused(Refusal::Field(field))),
    }
}

// The pieces of a response.
pub(crate) fn pieces(alloc: Global, value: &Value<'_>) -> Result<Pieces, Stop>
    ensures { IsRead result (pieces_of (seen value.now)) }
{
    let Some(values) = tree::member(value, "pieces").and_then(tree::items) else {
        return Err(Stop::Refused(Refusal::Field(FieldName::Pieces)));
    };
    match all_bytes(alloc, values)? {
        Some(pieces) => Ok(Pieces::from_vec(pieces)),
        None => Err(Stop::Refused(Refusal::Field(FieldName::Pieces))),
    }
}

fn all_bytes(alloc: Global, values: &Vec<Value<'_>>) -> Result<Option<Vec<Bytes>>, AllocError>
    ensures { IfOk result (λ found. option_map (λ v. v.items) found ≡ all_bytes_of (items_seen values.now.items)) }
{
    let mut all = Vec::new(alloc);
    for value in values {
        match bytes(alloc, value)? {
            Some(piece) => all.push(piece)?,
            None => return Ok(None),
        }
    }
    Ok(Some(all))
}

fn bytes(alloc: Global, value: &Value<'_>) -> Result<Option<Bytes>, AllocError>
    ensures { IfOk result (λ found. found ≡ bytes_of (seen value.now)) }
{
    let Some(text) = tree::text(value) else {
        return Ok(None);
    };
    match decode(alloc, text)? {
        Some(bytes) => Ok(Some(Bytes::from_vec(bytes)?)),
        None => Ok(None),
    }
}
