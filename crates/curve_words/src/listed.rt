//! What several columns of a line say together.
ghost use Rattle.std.specs.Prelude.{◌≡◌, IfOk, option_map, Some, None};
ghost use Rattle.std.specs.Bool.{MatchBool};
ghost use Rattle.curve_words.specs.Columns.{glue, glued, key_of, key_after, sum_of, added, sum_in, column, is_listed};
ghost use Rattle.curve_words.specs.declared.listed.Total.TheVariants.{Number};

use crate::columns::{Columns, column};
use crate::sizes::digits;
use std::alloc::{AllocError, Global};

/// What columns add up to.
#[derive(Clone, Copy, PartialEq, Eq, Debug)]
pub enum Total {
    /// A number.
    Number(u64),
    /// A column doesn't tell.
    Untold,
    /// A column is missing or no number, or the sum is 2^64 or more.
    Nothing,
}

// A sum and one number more.
fn sum_of(sum: u64, number: Option<u64>) -> Total
    ensures { result ≡ sum_of sum number }
{
    let Some(number) = number else {
        return Total::Nothing;
    };
    match sum.checked_add(number) {
        None => Total::Nothing,
        Some(sum) => Total::Number(sum),
    }
}

// A number and one column more.
fn number_added(sum: u64, word: &[u8]) -> Total
    ensures { result ≡ added (Number sum) (Some word.now) }
{
    if word == b"?".as_slice() {
        return Total::Untold;
    }
    sum_of(sum, digits(word))
}

// A sum and one column more.
fn added(sum: Total, word: Option<&[u8]>) -> Total
    ensures { result ≡ added sum (option_map (λ w. w.now) word.entry) }
{
    let Some(word) = word else {
        return Total::Nothing;
    };
    match sum {
        Total::Number(sum) => number_added(sum, word),
        Total::Untold => Total::Untold,
        Total::Nothing => Total::Nothing,
    }
}

// Whether a word is one of these.
fn is_listed(word: &[u8], words: &[Vec<u8>]) -> bool
    ensures { result ≡ is_listed word.now words.now }
{
    for other in words {
        if word == other.as_slice() {
            return true;
        }
    }
    false
}

// Adds a column to a key, and returns whether the line has it.
fn glued(key: &mut Vec<u8>, glue: u8, word: Option<&[u8]>) -> Result<bool, AllocError>
    ensures { IfOk result (λ yes. MatchBool yes (glued glue key.old.items (option_map (λ w. w.now) word.entry) ≡ Some key.new.items) (option_map (λ w. w.now) word.entry ≡ None)) }
{
    let Some(word) = word else {
        return Ok(false);
    };
    key.push(glue)?;
    key.extend_from_slice(word)?;
    Ok(true)
}

impl Columns {
    /// A column of a line.
    pub fn word<'a>(&self, n: usize, line: &'a [u8]) -> Option<&'a [u8]>
        ensures { option_map (λ w. w.now) result ≡ column self.now.delimiter n line.now }
    {
        column(self.delimiter, n, line)
    }

    /// The key of a line: its columns, joined.
    pub fn key_of(&self, alloc: Global, line: &[u8]) -> Result<Option<Vec<u8>>, AllocError>
        ensures { IfOk result (λ key. option_map (λ k. k.items) key ≡ key_of self.now.delimiter line.now self.now.key self.now.key_more.items) }
    {
        let Some(word) = self.word(self.key, line) else {
            return Ok(None);
        };
        let mut key = Vec::new(alloc);
        key.extend_from_slice(word)?;
        self.join(key, self.key_more.as_slice(), line)
    }

    // A key, and other columns behind it.
    fn join(
        &self,
        key: Vec<u8>,
        columns: &[usize],
        line: &[u8],
    ) -> Result<Option<Vec<u8>>, AllocError>
        ensures { IfOk result (λ joined. option_map (λ k. k.items) joined ≡ key_after self.now.delimiter line.now (Some key.items) columns.now) }
    {
        let glue = self.delimiter.unwrap_or(b' ');
        let mut key = key;
        for n in columns {
            if !glued(&mut key, glue, self.word(*n, line))? {
                return Ok(None);
            }
        }
        Ok(Some(key))
    }

    /// What the columns of the bytes add up to, of which the last one says this.
    pub fn sum_in(&self, line: &[u8], last: &[u8]) -> Total
        ensures { result ≡ sum_in self.now.delimiter line.now self.now.bytes_before.items last.now }
    {
        let mut sum = Total::Number(0);
        for n in &self.bytes_before {
            sum = added(sum, self.word(*n, line));
        }
        added(sum, Some(last))
    }

    /// Whether a word of `op` asks.
    pub fn is_ask(&self, word: &[u8]) -> bool
        ensures { result ≡ is_listed word.now self.now.asks.items }
    {
        is_listed(word, self.asks.as_slice())
    }

    /// Whether a word of `op` removes.
    pub fn is_removal(&self, word: &[u8]) -> bool
        ensures { result ≡ is_listed word.now self.now.removes.items }
    {
        is_listed(word, self.removes.as_slice())
    }
}
