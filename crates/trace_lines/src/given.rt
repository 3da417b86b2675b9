//! What a line says of a response in place of the judgement by its lines, and a key by its hashes.
ghost use Rattle.std.specs.Prelude.{◌≡◌, ◌<◌, ◌^◌, option_map, IfOk};
ghost use Rattle.std.specs.Result.{result_ok};
ghost use Rattle.hex.specs.Hex.{decode_sized};
ghost use Rattle.trace_lines.specs.Lines.{moment_or, count_in, given_of, hash_in, variance_in, stored_key_of, IsRead};
ghost use Rattle.trace_lines.specs.Trees.{seen};

use crate::line::{FieldName, Refusal, Stop};
use crate::{fields, tree};
use cache_heads::GivenMeta;
use cache_words::key::{CacheKey, HashBinary};
use cache_words::time::Moment;
use hex::FromHex;
use json::Value;
use std::alloc::Global;

// A window takes 32 bits.
const WINDOW_END: u64 = 1 << 32;

// From so many bytes on a weight could not be counted.
const EXTERNAL_END: u64 = 1 << 62;

// What is said of the response of an event at this moment.
pub(crate) fn given(value: &Value<'_>, at: Moment) -> Result<GivenMeta, Refusal>
    ensures { result ≡ given_of at (seen value.now) }
{
    let fresh_until = fields::moment_in(FieldName::Until, tree::member(value, "until"))?;
    let created = moment_or(FieldName::Created, at, tree::member(value, "created"))?;
    let updated = moment_or(FieldName::Updated, at, tree::member(value, "updated"))?;
    let provenance = moment_or(
        FieldName::Provenance,
        created,
        tree::member(value, "provenance"),
    )?;
    let revalidate = window(FieldName::While, tree::member(value, "while"))?;
    let error = window(FieldName::Error, tree::member(value, "error"))?;
    let external = count(
        FieldName::External,
        EXTERNAL_END,
        tree::member(value, "external"),
    )?;
    let mut given = GivenMeta::new(fresh_until, created, revalidate, error);
    given.updated = updated;
    given.provenance = provenance;
    match given.with_external(external) {
        Some(given) => Ok(given),
        None => Err(Refusal::Field(FieldName::External)),
    }
}

fn moment_or(field: FieldName, usual: Moment, value: Option<&Value<'_>>) -> Result<Moment, Refusal>
    ensures { result ≡ moment_or field usual (option_map (λ v. seen v.now) value.entry) }
{
    match value {
        Some(_) => fields::moment_in(field, value),
        None => Ok(usual),
    }
}

fn window(field: FieldName, value: Option<&Value<'_>>) -> Result<u32, Refusal>
    ensures { result ≡ count_in field (2 ^ 32) (option_map (λ v. seen v.now) value.entry) }
{
    match count(field, WINDOW_END, value) {
        Ok(seconds) => Ok(seconds as u32),
        Err(refusal) => Err(refusal),
    }
}

fn count(field: FieldName, bound: u64, value: Option<&Value<'_>>) -> Result<u64, Refusal>
    requires { 0 < bound }
    ensures value { result ≡ count_in field bound (option_map (λ v. seen v.now) value.entry) }
    ensures below { IfOk result (λ n. n < bound) }
{
    let Some(value) = value else {
        return Ok(0);
    };
    match tree::whole_number(value) {
        Some(number) if number < bound => Ok(number),
        _ => Err(Refusal::Field(field)),
    }
}

// The key by its hashes, and its tag.
pub(crate) fn stored_key(alloc: Global, value: &Value<'_>) -> Result<CacheKey, Stop>
    ensures { IsRead result (stored_key_of (seen value.now)) }
{
    let digest = hash(FieldName::Digest, tree::member(value, "digest"))?;
    let variance = variance(tree::member(value, "variance"))?;
    let tag = fields::tag(alloc, value)?;
    let mut key = CacheKey::new(Vec::new(alloc), tag);
    key.set_primary_bin_override(digest);
    if let Some(variance) = variance {
        key.set_variance_key(variance);
    }
    Ok(key)
}

fn variance(value: Option<&Value<'_>>) -> Result<Option<HashBinary>, Refusal>
    ensures { result ≡ variance_in (option_map (λ v. seen v.now) value.entry) }
{
    match value {
        Some(_) => Ok(Some(hash(FieldName::Variance, value)?)),
        None => Ok(None),
    }
}

fn hash(field: FieldName, value: Option<&Value<'_>>) -> Result<HashBinary, Refusal>
    ensures { result ≡ hash_in field (option_map (λ v. seen v.now) value.entry) }
{
    let Some(text) = value.and_then(tree::text) else {
        return Err(Refusal::Field(field));
    };
    digest_of(text).ok_or(Refusal::Field(field))
}

fn digest_of(text: &str) -> Option<HashBinary>
    ensures { result ≡ result_ok (decode_sized text.now 16) }
{
    <HashBinary as FromHex>::from_hex(text).ok()
}
