//! The rules as a gateway calls them: with the options that an operator chose, over what was read, each into a room of its own.
#![tactic(auto)]

ghost use Rattle.std.specs.Prelude.{◌≡◌, IfOk};
ghost use Rattle.rules_ffi_arguments.specs.Given.{Gives};
ghost use Rattle.rules_ffi_arguments.specs.Options.{scheme_by};
ghost use Rattle.gateway_rules.specs.Options.{options_of, options_in, one_range, with_secret};

pub mod bodies;
pub mod laws;
mod messages;
pub mod moments;
mod reading;
pub mod requests;
pub mod responses;
mod rooms;
mod sending;
mod serving;
pub mod stored;
mod urls;
pub mod values;
pub mod varying;

use rules_ffi_arguments::bad::Bad;
use rules_ffi_arguments::options::has_mark;
use rules_ffi_arguments::prepared::prepared;
use rules_ffi_arguments::shapes::OptionNumbers;
use std::alloc::{AllocError, Global};

/// The options, prepared.
#[derive(Drop)]
pub struct Rules {
    alloc: Global,
    numbers: OptionNumbers,
    words: Vec<u8>,
    // The same without the secret: of what is in flight, of which one range alone is sent.
    one_words: Vec<u8>,
}

impl Rules {
    /// The options by their numbers, their words as an operator writes them, and a secret of 16 bytes or more.
    pub fn new(
        alloc: Global,
        numbers: OptionNumbers,
        words: &[u8],
        secret: &[u8],
    ) -> Result<Rules, Bad>
        ensures { Gives options_of result (options_in numbers words.now secret.now) }
    {
        let all = with_secret(alloc, words, secret)?;
        Ok(Rules {
            alloc,
            numbers,
            words: prepared(alloc, all.as_slice())?,
            one_words: prepared(alloc, words)?,
        })
    }

    pub fn max_head_bytes(&self) -> u64
        ensures { result ≡ (options_of self.now).numbers.most_head }
    {
        self.numbers.most_head
    }

    pub fn scheme(&self) -> &'static [u8]
        ensures { result.now ≡ scheme_by (options_of self.now).numbers.flags }
    {
        if has_mark(self.numbers.flags, HTTPS) {
            b"https"
        } else {
            b"http"
        }
    }

    // The numbers with one range.
    fn one_range(&self) -> OptionNumbers
        ensures { result ≡ one_range (options_of self.now).numbers }
    {
        OptionNumbers {
            most_ranges: 1,
            ..self.numbers
        }
    }
}

// The mark of an operator whose clients speak TLS.
const HTTPS: u64 = 1024;

// The secret's line, and the operator's.
fn with_secret(alloc: Global, words: &[u8], secret: &[u8]) -> Result<Vec<u8>, AllocError>
    ensures { IfOk result (λ v. v.items ≡ with_secret words.now secret.now) }
{
    let digits = hex::encode(alloc, secret)?;
    let mut text = Vec::from_slice(alloc, b"secret: ")?;
    text.extend_from_slice(digits.as_bytes())?;
    text.extend_from_slice(b"\r\n")?;
    text.extend_from_slice(words)?;
    Ok(text)
}
