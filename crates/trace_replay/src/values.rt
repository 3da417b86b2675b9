//! What the values of options are read as.
ghost use Rattle.std.specs.Prelude.{◌≡◌, codes, IfOk};
ghost use Rattle.clap.specs.Values.{kind_of};
ghost use Rattle.clap.specs.Matches.{found_of, first_value};
ghost use Rattle.trace_replay.specs.CommandLine.{name_of, IsWrongValue, IsReadNumber, IsReadShards, IsReadDirectory, shards_named};

use crate::command::fault;
use crate::options::{OptionName, OptionsError, ShardCount};
use clap::ArgMatches;
use clap::error::ErrorKind;
use std::alloc::{AllocError, Global};

const A_NUMBER: &str = "a number from 0 to 18446744073709551615";

const A_DIRECTORY: &str = "the path of a directory";

pub(crate) fn number(
    alloc: Global,
    matches: &ArgMatches<'_>,
    name: OptionName,
) -> Result<Option<u64>, OptionsError>
    ensures { IsReadNumber name (first_value (found_of matches.now) (name_of name)) result }
{
    let Some(text) = matches.get_str(name.as_str()) else {
        return Ok(None);
    };
    match text.parse::<u64>() {
        Ok(number) => Ok(Some(number)),
        Err(_) => Err(wrong_value(alloc, name, text, A_NUMBER)),
    }
}

pub(crate) fn directory(
    alloc: Global,
    matches: &ArgMatches<'_>,
) -> Result<Option<String>, OptionsError>
    ensures { IsReadDirectory (first_value (found_of matches.now) (codes "recency")) result }
{
    let Some(text) = matches.get_str("recency") else {
        return Ok(None);
    };
    if text.is_empty() {
        return Err(wrong_value(alloc, OptionName::Recency, text, A_DIRECTORY));
    }
    match String::from_str(alloc, text) {
        Ok(copy) => Ok(Some(copy)),
        Err(AllocError) => Err(OptionsError::Memory),
    }
}

pub(crate) fn shards(alloc: Global, matches: &ArgMatches<'_>) -> Result<ShardCount, OptionsError>
    ensures { IsReadShards (first_value (found_of matches.now) (codes "shards")) result }
{
    let Some(text) = matches.get_str("shards") else {
        return Ok(ShardCount::One);
    };
    match shards_named(text) {
        Some(count) => Ok(count),
        None => Err(wrong_value(alloc, OptionName::Shards, text, "1, 4 or 16")),
    }
}

fn shards_named(text: &str) -> Option<ShardCount>
    ensures { result ≡ shards_named text.now }
{
    match text {
        "1" => Some(ShardCount::One),
        "4" => Some(ShardCount::Four),
        "16" => Some(ShardCount::Sixteen),
        _ => None,
    }
}

fn wrong_value(alloc: Global, name: OptionName, text: &str, wanted: &str) -> OptionsError
    ensures { IsWrongValue name result }
{
    match value_fault(alloc, name.as_str(), text, wanted) {
        Ok(error) => OptionsError::WrongValue(name, error),
        Err(AllocError) => OptionsError::Memory,
    }
}

fn value_fault(
    alloc: Global,
    name: &str,
    text: &str,
    wanted: &str,
) -> Result<clap::Error, AllocError>
    ensures { IfOk result (λ error. kind_of error ≡ ErrorKind.ValueValidation) }
{
    let message = format!(in alloc; "invalid value '{text}' for '--{name}': {wanted} is wanted")?;
    fault(alloc, ErrorKind::ValueValidation, message.as_str())
}
