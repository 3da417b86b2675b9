//! Records of requests.
ghost use Rattle.std.specs.Prelude.{◌≡◌, ◌==◌, Some, None, IfOk, OnOk, is_some, length, take, drop, if◌then◌else◌};
ghost use Rattle.std.specs.Int.{from_le_bytes, w32, w64};
ghost use Rattle.curve_keys.specs.Shares.{AreReady, AddsLine};
ghost use Rattle.curve_lines.specs.Lines.{weighed, when_at};
ghost use Rattle.curve_lines.specs.Formats.{said_of_word, record_line, oracle_line, line_by, line_of};
ghost use Rattle.curve_lines.specs.declared.format.Format.TheVariants.{Text};

use crate::column_line::add_columns;
use crate::format::{Format, Rules};
use crate::line::{add, add_line, weighed};
use crate::when::when_at;
use curve_keys::{Readings, Said};
use curve_sizes::{CurveFault, When};
use std::alloc::Global;

// The number of 8 bytes.
fn word(bytes: &[u8]) -> Option<u64>
    ensures { result ≡ (if length bytes.now == 8 then Some (from_le_bytes w64 bytes.now) else None) }
{
    match <[u8; 8]>::try_from(bytes) {
        Ok(array) => Some(u64::from_le_bytes(array)),
        Err(_) => None,
    }
}

// The number of 4 bytes.
fn short_word(bytes: &[u8]) -> Option<u32>
    ensures { result ≡ (if length bytes.now == 4 then Some (from_le_bytes w32 bytes.now) else None) }
{
    match <[u8; 4]>::try_from(bytes) {
        Ok(array) => Some(u32::from_le_bytes(array)),
        Err(_) => None,
    }
}

// What the bytes of a record say.
fn said_of_word(overhead: u64, number: u64) -> Said
    ensures { result ≡ said_of_word overhead number }
{
    if number == u64::MAX {
        return Said::Removal;
    }
    weighed(overhead, Some(number))
}

// Feeds a record of 16 bytes, and returns whether it says anything.
fn add_record(
    readings: &mut Readings,
    alloc: Global,
    rules: &Rules,
    record: &[u8],
) -> Result<bool, CurveFault>
    requires { AreReady readings.old }
    ensures fed { OnOk result (AddsLine (record_line rules.now.overhead record.now) readings.old readings.new) }
    ensures told { IfOk result (λ yes. yes ≡ is_some (record_line rules.now.overhead record.now)) }
{
    if record.len() != 16 {
        return Ok(false);
    }
    let Some(number) = word(&record[8..16]) else {
        return Ok(false);
    };
    let said = said_of_word(rules.overhead, number);
    add(readings, alloc, &record[..8], said, when_at(None, 0), 1)
}

// What the bytes of a record of 24 bytes say.
fn oracle_said(overhead: u64, record: &[u8]) -> Said
    requires { length record.now ≡ 24 }
    ensures { result ≡ weighed overhead (Some (from_le_bytes w32 (take 4 (drop 12 record.now)))) }
{
    match short_word(&record[12..16]) {
        Some(number) => weighed(overhead, Some(u64::from(number))),
        None => Said::Wrong,
    }
}

// When it is asked for.
fn oracle_when(lifetime: Option<u64>, record: &[u8]) -> When
    requires { length record.now ≡ 24 }
    ensures { result ≡ when_at lifetime (from_le_bytes w32 (take 4 record.now)) }
{
    match short_word(&record[..4]) {
        Some(time) => when_at(lifetime, u64::from(time)),
        None => when_at(lifetime, 0),
    }
}

// Feeds a record of 24 bytes, and returns whether it says anything.
fn add_oracle(
    readings: &mut Readings,
    alloc: Global,
    rules: &Rules,
    record: &[u8],
) -> Result<bool, CurveFault>
    requires { AreReady readings.old }
    ensures fed { OnOk result (AddsLine (oracle_line rules.now.overhead rules.now.lifetime record.now) readings.old readings.new) }
    ensures told { IfOk result (λ yes. yes ≡ is_some (oracle_line rules.now.overhead rules.now.lifetime record.now)) }
{
    if record.len() != 24 {
        return Ok(false);
    }
    let said = oracle_said(rules.overhead, record);
    let when = oracle_when(rules.lifetime, record);
    add(readings, alloc, &record[4..12], said, when, 1)
}

// Feeds a line or record, and returns whether it says anything.
pub(crate) fn add_unit(
    readings: &mut Readings,
    alloc: Global,
    rules: &Rules,
    unit: &[u8],
) -> Result<bool, CurveFault>
    requires { AreReady readings.old }
    ensures fed { OnOk result (AddsLine (line_of rules.now unit.now) readings.old readings.new) }
    ensures told { IfOk result (λ yes. yes ≡ is_some (line_of rules.now unit.now)) }
{
    match rules.format {
        Format::Text => add_text(readings, alloc, rules, unit),
        Format::Records => add_record(readings, alloc, rules, unit),
        Format::OracleGeneral => add_oracle(readings, alloc, rules, unit),
    }
}

// Feeds a line of three words, or of columns, and returns whether it is one.
fn add_text(
    readings: &mut Readings,
    alloc: Global,
    rules: &Rules,
    line: &[u8],
) -> Result<bool, CurveFault>
    requires { AreReady readings.old }
    ensures fed { OnOk result (AddsLine (line_by Text rules.now.columns rules.now.overhead rules.now.lifetime line.now) readings.old readings.new) }
    ensures told { IfOk result (λ yes. yes ≡ is_some (line_by Text rules.now.columns rules.now.overhead rules.now.lifetime line.now)) }
{
    match &rules.columns {
        None => add_line(readings, alloc, rules, line),
        Some(columns) => add_columns(readings, alloc, rules, columns, line),
    }
}
