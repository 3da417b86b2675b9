//! Values of directives.
ghost use Rattle.std.specs.Prelude.{◌≡◌, MatchResult, IfErr};
ghost use Rattle.std.specs.Result.{result_ok};
ghost use Rattle.std.specs.Str.{IsUtf8};
ghost use Rattle.head_directives.specs.Seconds.{unquoted, seconds_from, digits, seconds_of, delta_seconds};

use crate::DELTA_SECONDS_OVERFLOW_VALUE;
use head_lines::{Error, ErrorType};
use std::str;

/// A directive's value as it is written, with its quotes.
#[derive(Clone, Debug, Drop)]
pub struct DirectiveValue(pub Vec<u8>);

// The number that a text of digits says; none without digits.
fn number(text: &[u8]) -> Option<u32>
    ensures { result ≡ digits text.now }
{
    if text.is_empty() {
        return None;
    }
    let mut n: u32 = 0;
    for b in text {
        if !b.is_ascii_digit() {
            return None;
        }
        let next = 10 * n as u64 + (*b - b'0') as u64;
        let Ok(next) = u32::try_from(next) else {
            return Some(DELTA_SECONDS_OVERFLOW_VALUE);
        };
        n = next;
    }
    Some(n)
}

// The number that digits say after a `+`, which may be left out.
fn signed(text: &[u8]) -> Option<u32>
    ensures { result ≡ seconds_of text.now }
{
    match text.split_first() {
        Some((b'+', digits)) => number(digits),
        _ => number(text),
    }
}

impl DirectiveValue {
    /// The value as it is written.
    pub fn as_ref(&self) -> &[u8]
        ensures { result.now ≡ self.now.0.items }
    {
        self.0.as_slice()
    }

    /// The value without one pair of enclosing quotes.
    pub fn parse_as_bytes(&self) -> &[u8]
        ensures { result.now ≡ unquoted self.now.0.items }
    {
        unquoted(self.as_ref())
    }

    /// The value without its quotes, as text.
    ///
    /// # Errors
    ///
    /// `InternalError` where it is not UTF-8.
    pub fn parse_as_str(&self) -> Result<&str, Error>
        ensures value { let value = unquoted self.now.0.items in MatchResult result (λ text. (text.now ≡ value) × IsUtf8 value) (λ e. ¬ (IsUtf8 value)) }
        ensures kind { IfErr result (λ e. e.etype ≡ ErrorType.InternalError) }
    {
        text(self.as_ref())
    }

    /// The seconds that the value says (RFC 9111, 1.2.2).
    ///
    /// # Errors
    ///
    /// `InternalError` where it says none.
    pub fn parse_as_delta_seconds(&self) -> Result<u32, Error>
        ensures value { result_ok result ≡ delta_seconds self.now.0.items }
        ensures kind { IfErr result (λ e. e.etype ≡ ErrorType.InternalError) }
    {
        delta_seconds(self.as_ref())
    }
}

// A value without one pair of enclosing quotes.
fn unquoted(value: &[u8]) -> &[u8]
    ensures { result.now ≡ unquoted value.now }
{
    if value.len() >= 2 && value[0] == b'"' && value[value.len() - 1] == b'"' {
        &value[1..value.len() - 1]
    } else {
        value
    }
}

// A value without its quotes, as text.
fn text(value: &[u8]) -> Result<&str, Error>
    ensures value { let value = unquoted value.now in MatchResult result (λ text. (text.now ≡ value) × IsUtf8 value) (λ e. ¬ (IsUtf8 value)) }
    ensures kind { IfErr result (λ e. e.etype ≡ ErrorType.InternalError) }
{
    match str::from_utf8(unquoted(value)) {
        Ok(text) => Ok(text),
        Err(_) => Err(unreadable()),
    }
}

// The seconds that a value says.
#[tactic(auto, using(crate::proofs::Digits::read_text, crate::proofs::Texts::is_text, crate::proofs::Texts::no_text))]
pub(crate) fn delta_seconds(value: &[u8]) -> Result<u32, Error>
    ensures value { result_ok result ≡ delta_seconds value.now }
    ensures kind { IfErr result (λ e. e.etype ≡ ErrorType.InternalError) }
{
    let Some(seconds) = signed(unquoted(value)) else {
        return Err(unreadable());
    };
    if seconds != DELTA_SECONDS_OVERFLOW_VALUE {
        return Ok(seconds);
    }
    // What follows a number past 32 bits was not read, so it may be no text.
    match text(value) {
        Ok(_) => Ok(seconds),
        Err(error) => Err(error),
    }
}

fn unreadable() -> Error
    ensures { result.etype ≡ ErrorType.InternalError }
{
    Error {
        etype: ErrorType::InternalError,
    }
}
