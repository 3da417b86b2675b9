//! Words prepared: once, at the start, so that no call reads and checks them anew.
ghost use Rattle.std.specs.Prelude.{◌≡◌, ◌++◌, OnOk, IfOk, map, ℕ, List, Some, true, is_some};
ghost use Rattle.http1_message_parts.specs.Lines.{lines_of};
ghost use Rattle.rules_ffi_arguments.specs.Given.{Gives};
ghost use Rattle.rules_ffi_arguments.specs.Words.{said, wrong_row};
ghost use Rattle.rules_ffi_arguments.specs.Options.{lists_in};
ghost use Rattle.rules_ffi_arguments.specs.Prepared.{prepared_line, prepared_lines, prepared};

use crate::bad::Bad;
use crate::words::{Said, all_said};
use std::alloc::{AllocError, Global};

// Adds a word: its letter, its value, and the end of a line.
fn add_word(text: &mut Vec<u8>, word: &Said<'_>) -> Result<(), AllocError>
    ensures { OnOk result (text.new.items ≡ text.old.items ++ prepared_line (said word.now)) }
{
    text.push(word.word.letter())?;
    text.extend_from_slice(word.value)?;
    text.push(b'\n')?;
    Ok(())
}

fn add_words(text: &mut Vec<u8>, words: &[Said<'_>]) -> Result<(), AllocError>
    ensures { OnOk result (text.new.items ≡ text.old.items ++ prepared_lines (map said words.now)) }
{
    for word in words {
        add_word(text, word)?;
    }
    Ok(())
}

/// Words as the calls read them fastest: they take the place of those that they were made of. Only words as an operator writes them are prepared.
pub fn prepared(alloc: Global, words: &[u8]) -> Result<Vec<u8>, Bad>
    ensures { Gives (λ v. v.items) result (prepared words.now) }
{
    let all = all_said(alloc, false, words)?;
    let mut text = Vec::new(alloc);
    text.push(0)?;
    add_words(&mut text, all.as_slice())?;
    Ok(text)
}

/// Law: words without a wrong line are prepared, and say the same in the form that they have then. No code runs.
pub fn prepared_words_say_the_same()
    ensures are_prepared { (words : List ℕ) → wrong_row 1 (lines_of words) ≡ 0 → is_some (prepared words) ≡ true }
    ensures say_the_same { (words text : List ℕ) → prepared words ≡ Some text → lists_in text ≡ lists_in words }
{}
