//! Lines of requests.
ghost use Rattle.std.specs.Prelude.{◌≡◌, IfOk, OnOk, is_some};
ghost use Rattle.curve_keys.specs.Pasts.{line_for};
ghost use Rattle.curve_keys.specs.Shares.{AreReady, AddsLine};
ghost use Rattle.curve_lines.specs.Lines.{weighed, said_in, line_in};

use crate::format::Rules;
use crate::input::LONGEST;
use crate::when::when_of;
use curve_keys::{Readings, Said};
use curve_sizes::{CurveFault, When};
use curve_words::{after_blanks, after_word, number, word_of};
use std::alloc::Global;

// What an entry of so many bytes weighs.
pub(crate) fn weighed(overhead: u64, bytes: Option<u64>) -> Said
    ensures { result ≡ weighed overhead bytes }
{
    let Some(bytes) = bytes else {
        return Said::Wrong;
    };
    match overhead.checked_add(bytes) {
        None => Said::Wrong,
        Some(weight) => Said::Weight(weight.max(1)),
    }
}

// What the last word of a line says.
fn said_in(overhead: u64, word: &[u8]) -> Said
    ensures { result ≡ said_in overhead word.now }
{
    if word == b"-".as_slice() {
        return Said::Removal;
    }
    if word == b"?".as_slice() {
        return Said::Known;
    }
    weighed(overhead, number(word))
}

// Feeds a line of that key, and returns whether it says anything.
pub(crate) fn add(
    readings: &mut Readings,
    alloc: Global,
    key: &[u8],
    said: Said,
    when: When,
    times: u64,
) -> Result<bool, CurveFault>
    requires { AreReady readings.old }
    ensures fed { OnOk result (AddsLine (line_for key.now said when times) readings.old readings.new) }
    ensures told { IfOk result (λ yes. yes ≡ is_some (line_for key.now said when times)) }
{
    readings.feed(alloc, key, said, when, times)
}

// Feeds a line of three words, and returns whether it is one.
pub(crate) fn add_line(
    readings: &mut Readings,
    alloc: Global,
    rules: &Rules,
    line: &[u8],
) -> Result<bool, CurveFault>
    requires { AreReady readings.old }
    ensures fed { OnOk result (AddsLine (line_in rules.now.overhead rules.now.lifetime line.now) readings.old readings.new) }
    ensures told { IfOk result (λ yes. yes ≡ is_some (line_in rules.now.overhead rules.now.lifetime line.now)) }
{
    if line.len() > LONGEST {
        return Ok(false);
    }
    let first = after_blanks(line);
    let second = after_word(first);
    let third = after_word(second);
    if third.is_empty() || !after_word(third).is_empty() {
        return Ok(false);
    }
    let Some(when) = when_of(rules.lifetime, word_of(first)) else {
        return Ok(false);
    };
    let said = said_in(rules.overhead, word_of(third));
    add(readings, alloc, word_of(second), said, when, 1)
}
