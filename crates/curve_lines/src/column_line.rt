//! Lines of columns.
ghost use Rattle.std.specs.Prelude.{◌≡◌, IfOk, OnOk, is_some};
ghost use Rattle.curve_keys.specs.Shares.{AreReady, AddsLine};
ghost use Rattle.curve_words.specs.Words.{digits_in};
ghost use Rattle.curve_words.specs.Times.{below};
ghost use Rattle.curve_lines.specs.ColumnLines.{of_total, last_said, bytes_said, op_said, said_by, ttl_in, lifetime_in, moment_of, timed_when, when_in, times_in, asking, asking_by, key_line, keyed_line, columns_line};

use crate::format::Rules;
use crate::input::LONGEST;
use crate::line::{add, weighed};
use crate::when::when_at;
use curve_keys::{Readings, Said};
use curve_sizes::{CurveFault, When};
use curve_words::{Columns, Total, digits, moment};
use std::alloc::Global;

// What bytes of that total say.
fn of_total(overhead: u64, total: Total) -> Said
    ensures { result ≡ of_total overhead total }
{
    match total {
        Total::Number(bytes) => weighed(overhead, Some(bytes)),
        Total::Untold => Said::Known,
        Total::Nothing => Said::Wrong,
    }
}

// What the bytes of a line say, of which the last column says this.
fn last_said(overhead: u64, columns: &Columns, line: &[u8], last: &[u8]) -> Said
    ensures { result ≡ last_said overhead columns.now line.now last.now }
{
    if columns.bytes_before.is_empty() {
        if last == b"-".as_slice() {
            return Said::Removal;
        }
    } else if digits(last) == Some(0) {
        return Said::Known;
    }
    of_total(overhead, columns.sum_in(line, last))
}

// What the bytes of a line say.
fn bytes_said(overhead: u64, columns: &Columns, line: &[u8]) -> Said
    ensures { result ≡ bytes_said overhead columns.now line.now }
{
    match columns.word(columns.bytes, line) {
        None => Said::Wrong,
        Some(last) => last_said(overhead, columns, line, last),
    }
}

// What a line says by its word of `op`.
fn op_said(overhead: u64, columns: &Columns, line: &[u8], op: &[u8]) -> Said
    ensures { result ≡ op_said overhead columns.now line.now op.now }
{
    if columns.is_ask(op) {
        return bytes_said(overhead, columns, line);
    }
    if columns.is_removal(op) {
        return Said::Removal;
    }
    if columns.ttl.is_some() {
        Said::Told
    } else {
        Said::Other
    }
}

// What a line says of its key.
fn said_by(overhead: u64, columns: &Columns, line: &[u8]) -> Said
    ensures { result ≡ said_by overhead columns.now line.now }
{
    let Some(op) = columns.op else {
        return bytes_said(overhead, columns, line);
    };
    match columns.word(op, line) {
        None => Said::Wrong,
        Some(word) => op_said(overhead, columns, line, word),
    }
}

// For how many seconds a body is fresh whose column says this.
fn ttl_in(lifetime: Option<u64>, word: &[u8]) -> Option<u64>
    ensures { result ≡ ttl_in lifetime word.now }
{
    if word.is_empty() || word == b"-".as_slice() {
        return lifetime;
    }
    let seconds = digits(word)?;
    if seconds < 1 << 62 {
        Some(seconds)
    } else {
        None
    }
}

// For how many seconds the body of a line is fresh.
fn lifetime_in(lifetime: Option<u64>, columns: &Columns, line: &[u8]) -> Option<u64>
    ensures { result ≡ lifetime_in lifetime columns.now line.now }
{
    let Some(ttl) = columns.ttl else {
        return lifetime;
    };
    match columns.word(ttl, line) {
        None => None,
        Some(word) => ttl_in(lifetime, word),
    }
}

// The moment of a line.
fn moment_of(columns: &Columns, line: &[u8]) -> Option<u64>
    ensures { result ≡ moment_of columns.now line.now }
{
    match columns.word(columns.time, line) {
        None => None,
        Some(word) => moment(word),
    }
}

// When a line asks, where bodies have lifetimes.
fn timed_when(lifetime: Option<u64>, columns: &Columns, line: &[u8]) -> Option<When>
    ensures { result ≡ timed_when lifetime columns.now line.now }
{
    let Some(moment) = moment_of(columns, line) else {
        return None;
    };
    match lifetime_in(lifetime, columns, line) {
        None => None,
        Some(lifetime) => Some(When { moment, lifetime }),
    }
}

// When a line asks.
fn when_in(rules: &Rules, columns: &Columns, line: &[u8]) -> Option<When>
    ensures { result ≡ when_in rules.now.lifetime columns.now line.now }
{
    if rules.lifetime.is_none() && columns.ttl.is_none() {
        return Some(when_at(None, 0));
    }
    timed_when(rules.lifetime, columns, line)
}

// For how many requests a line stands whose column says this: at most a million, since each is one more walk through the curve.
fn times_of(word: &[u8]) -> Option<u64>
    ensures { result ≡ below 1000001 (digits_in word.now) }
{
    let times = digits(word)?;
    if times < 1_000_001 { Some(times) } else { None }
}

// For how many requests a line stands.
fn times_in(columns: &Columns, line: &[u8]) -> Option<u64>
    ensures { result ≡ times_in columns.now line.now }
{
    let Some(times) = columns.times else {
        return Some(1);
    };
    match columns.word(times, line) {
        None => None,
        Some(word) => times_of(word),
    }
}

// When a line asks, and how often.
fn asking(rules: &Rules, columns: &Columns, line: &[u8]) -> Option<(When, u64)>
    ensures { result ≡ asking rules.now.lifetime columns.now line.now }
{
    let Some(when) = when_in(rules, columns, line) else {
        return None;
    };
    match times_in(columns, line) {
        None => None,
        Some(times) => Some((when, times)),
    }
}

// The same of a line that says this: nothing is read of one that doesn't ask.
fn asking_by(rules: &Rules, columns: &Columns, said: Said, line: &[u8]) -> Option<(When, u64)>
    ensures { result ≡ asking_by rules.now.lifetime columns.now said line.now }
{
    match said {
        Said::Wrong => None,
        Said::Removal | Said::Other => Some((when_at(None, 0), 1)),
        Said::Weight(_) | Said::Known | Said::Told => asking(rules, columns, line),
    }
}

// Feeds a line of that key, unless that is empty, and returns whether it says anything.
fn add_key(
    readings: &mut Readings,
    alloc: Global,
    key: &[u8],
    said: Said,
    when: When,
    times: u64,
) -> Result<bool, CurveFault>
    requires { AreReady readings.old }
    ensures fed { OnOk result (AddsLine (key_line key.now said when times) readings.old readings.new) }
    ensures told { IfOk result (λ yes. yes ≡ is_some (key_line key.now said when times)) }
{
    if key.is_empty() {
        return Ok(false);
    }
    add(readings, alloc, key, said, when, times)
}

// Feeds what a line says of its key, and returns whether it has one.
fn add_keyed(
    readings: &mut Readings,
    alloc: Global,
    rules: &Rules,
    columns: &Columns,
    line: &[u8],
    said: Said,
    when: When,
    times: u64,
) -> Result<bool, CurveFault>
    requires { AreReady readings.old }
    ensures fed { OnOk result (AddsLine (keyed_line columns.now line.now said when times) readings.old readings.new) }
    ensures told { IfOk result (λ yes. yes ≡ is_some (keyed_line columns.now line.now said when times)) }
{
    if columns.key_more.is_empty() {
        return match columns.word(columns.key, line) {
            None => Ok(false),
            Some(key) => add_key(readings, alloc, key, said, when, times),
        };
    }
    match columns.key_of(alloc, line)? {
        None => Ok(false),
        Some(key) => add_key(readings, alloc, key.as_slice(), said, when, times),
    }
}

// Feeds a line of columns, and returns whether it is one.
pub(crate) fn add_columns(
    readings: &mut Readings,
    alloc: Global,
    rules: &Rules,
    columns: &Columns,
    line: &[u8],
) -> Result<bool, CurveFault>
    requires { AreReady readings.old }
    ensures fed { OnOk result (AddsLine (columns_line rules.now.overhead rules.now.lifetime columns.now line.now) readings.old readings.new) }
    ensures told { IfOk result (λ yes. yes ≡ is_some (columns_line rules.now.overhead rules.now.lifetime columns.now line.now)) }
{
    if line.is_empty() || line.len() > LONGEST {
        return Ok(false);
    }
    let said = said_by(rules.overhead, columns, line);
    match asking_by(rules, columns, said, line) {
        None => Ok(false),
        Some((when, times)) => {
            add_keyed(readings, alloc, rules, columns, line, said, when, times)
        }
    }
}
