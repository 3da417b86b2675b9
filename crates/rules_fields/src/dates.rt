//! HTTP dates in any case of letters (RFC 9110, 5.6.7; RFC 9111, 4.2).
ghost use Rattle.std.specs.Prelude.{◌≡◌, ◌++◌, false, IfOk, OnOk};
ghost use Rattle.rules_fields.specs.Dates.{date_of, in_case, words_from};

use crate::blanks::trimmed;
use httpdate::HttpDate;
use std::alloc::{AllocError, Global};

/// The second that a date shows; `None` for any other text, also one with a zone but GMT or a wrong day of the week.
#[tactic(auto, unfolding(crate::specs::Dates::date_of))]
pub fn date_of(alloc: Global, text: &[u8]) -> Result<Option<u64>, AllocError>
    ensures { IfOk result (λ date. date ≡ date_of text.now) }
{
    let cased = in_case(alloc, trimmed(text))?;
    match HttpDate::parse_ascii(cased.as_slice()) {
        Ok(date) => Ok(Some(date.unix_secs())),
        Err(_) => Ok(None),
    }
}

// A text with its letters in the case of the formats.
#[tactic(auto, unfolding(crate::specs::Dates::in_case))]
fn in_case(alloc: Global, text: &[u8]) -> Result<Vec<u8>, AllocError>
    ensures { IfOk result (λ cased. cased.items ≡ in_case text.now) }
{
    let (words, zone) = text.split_at(text.len().saturating_sub(3));
    let mut cased = Vec::with_capacity(alloc, text.len())?;
    add_words(&mut cased, words)?;
    for b in zone {
        cased.push(b.to_ascii_uppercase())?;
    }
    Ok(cased)
}

// Adds words, each with its first letter large.
fn add_words(cased: &mut Vec<u8>, words: &[u8]) -> Result<(), AllocError>
    ensures { OnOk result (cased.new.items ≡ cased.old.items ++ words_from false words.now) }
{
    let mut inside = false;
    for b in words {
        cased.push(if inside {
            b.to_ascii_lowercase()
        } else {
            b.to_ascii_uppercase()
        })?;
        inside = b.is_ascii_alphabetic();
    }
    Ok(())
}
