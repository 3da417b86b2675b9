//! The words of the options: lines `name: value`, as an operator writes them, or as `prepare` writes them for the calls.
//!
//! A word stands in one place. **To add one**, here and in `specs/Words`: a variant of `Word`, and in `WORDS`; its name in `name`; a
//! letter that no other word has in `letter`; in `takes` what its value may be, by `values.rt`, which is its only check. Then in `options.rt` and `specs/Options` what its lines say:
//! a field of `Lists`, and its line in `lists_from`, by `text_or` (the first line counts), `listed_or` (a list, a value a line, once empty
//! for none) or a function over `valued`. Nothing else knows of words: prepared words have the letter and the value of each.
ghost use Rattle.std.specs.Prelude.{◌≡◌, ◌==◌, [], map, find, bytes_eq, option_map};
ghost use Rattle.std.specs.Option.{option_map_or};
ghost use Rattle.http1_message_parts.specs.Lines.{lines_of};
ghost use Rattle.rules_ffi_arguments.specs.Given.{Gives};
ghost use Rattle.rules_ffi_arguments.specs.Words.{name_of, letter_of, takes, word_named, word_lettered, said, says, said_by, said_in_row, said_with, said_in_line, said_in, all_said, words_in, is_end, wrong_row};

use crate::bad::Bad;
use crate::values::{
    are_encodings, are_query_bytes, is_droppable, is_prefix, is_secret, is_short_token,
    is_small_token, is_yes_or_no, lifetime_in, status_in,
};
use http1_message_parts::host::is_host;
use http1_message_parts::rows::{field_of, first_line, row_of};
use httparse::is_token;
use rules_fields::blanks::is_small;
use std::alloc::Global;

/// A word of the options.
#[derive(Clone, Copy, Debug)]
pub enum Word {
    /// The name in Via and Cache-Status.
    Name,
    /// The hexadecimal digits of what boundaries of several parts are made by.
    Secret,
    /// A targeted field, in order of preference.
    Targeted,
    /// A field of requests that doesn't reach the origin.
    Drop,
    /// A host that is served.
    Host,
    /// A method that is refused.
    Refuse,
    /// A lifetime of a status.
    Lifetime,
    /// A status that is never stored.
    NeverStore,
    /// The host that the origin is sent.
    OriginHost,
    /// What stands in front of the target that the origin is sent.
    OriginPrefix,
    /// A part of a query that goes, by its name or by what that begins with.
    QueryDrop,
    /// Whether the parts of a query are put in order.
    QuerySort,
    /// The codings that are asked for, in their order.
    Encodings,
    /// A cookie that stays.
    CookieKeep,
    /// A field of responses that is neither stored nor shown.
    ResponseDrop,
    /// A lifetime of a status, whatever the response says.
    ForceLifetime,
    /// Whether what forbids to store a response is passed over.
    ForcePrivate,
}

const WORDS: &[Word] = &[
    Word::Name,
    Word::Secret,
    Word::Targeted,
    Word::Drop,
    Word::Host,
    Word::Refuse,
    Word::Lifetime,
    Word::NeverStore,
    Word::OriginHost,
    Word::OriginPrefix,
    Word::QueryDrop,
    Word::QuerySort,
    Word::Encodings,
    Word::CookieKeep,
    Word::ResponseDrop,
    Word::ForceLifetime,
    Word::ForcePrivate,
];

impl Word {
    #[tactic(auto, unfolding(crate::specs::Words::name_of))]
    fn name(self) -> &'static [u8]
        ensures { result.now ≡ name_of self }
    {
        match self {
            Word::Name => b"name",
            Word::Secret => b"secret",
            Word::Targeted => b"targeted",
            Word::Drop => b"drop",
            Word::Host => b"host",
            Word::Refuse => b"refuse",
            Word::Lifetime => b"lifetime",
            Word::NeverStore => b"never-store",
            Word::OriginHost => b"origin-host",
            Word::OriginPrefix => b"origin-prefix",
            Word::QueryDrop => b"query-drop",
            Word::QuerySort => b"query-sort",
            Word::Encodings => b"encodings",
            Word::CookieKeep => b"cookie-keep",
            Word::ResponseDrop => b"response-drop",
            Word::ForceLifetime => b"force-lifetime",
            Word::ForcePrivate => b"force-private",
        }
    }

    /// What it is in prepared words: neither 0 nor a line's end.
    #[tactic(auto, unfolding(crate::specs::Words::letter_of))]
    pub fn letter(self) -> u8
        ensures { result ≡ letter_of self }
    {
        match self {
            Word::Name => b'n',
            Word::Secret => b'k',
            Word::Targeted => b't',
            Word::Drop => b'd',
            Word::Host => b'h',
            Word::Refuse => b'r',
            Word::Lifetime => b'l',
            Word::NeverStore => b's',
            Word::OriginHost => b'o',
            Word::OriginPrefix => b'p',
            Word::QueryDrop => b'q',
            Word::QuerySort => b'u',
            Word::Encodings => b'e',
            Word::CookieKeep => b'c',
            Word::ResponseDrop => b'w',
            Word::ForceLifetime => b'f',
            Word::ForcePrivate => b'v',
        }
    }

    // Whether this may be its value.
    fn takes(self, value: &[u8]) -> bool
        ensures { result ≡ takes self value.now }
    {
        match self {
            Word::Name => is_short_token(value),
            Word::Secret => is_secret(value),
            Word::Targeted | Word::Drop => value.is_empty() || is_small_token(value),
            Word::Host => is_small(value, value) && is_host(value),
            Word::Refuse => value.is_empty() || is_token(value),
            Word::Lifetime | Word::ForceLifetime => lifetime_in(value).is_some(),
            Word::NeverStore => value.is_empty() || status_in(value).is_some(),
            Word::OriginHost => !value.is_empty() && is_host(value),
            Word::OriginPrefix => is_prefix(value),
            Word::QueryDrop => are_query_bytes(value),
            Word::QuerySort | Word::ForcePrivate => is_yes_or_no(value),
            Word::Encodings => are_encodings(value),
            Word::CookieKeep => value.is_empty() || is_token(value),
            Word::ResponseDrop => value.is_empty() || is_droppable(value),
        }
    }
}

// The first of words that has a name. (Over the words as an argument: a proof over all of them by their names would unroll them.)
fn named_in(words: &[Word], name: &[u8]) -> Option<Word>
    ensures { result ≡ find (λ w. bytes_eq (name_of w) name.now) words.now }
{
    for word in words {
        if word.name() == name {
            return Some(*word);
        }
    }
    None
}

fn word_named(name: &[u8]) -> Option<Word>
    ensures { result ≡ word_named name.now }
{
    named_in(WORDS, name)
}

// The first of words that has a letter.
fn lettered_in(words: &[Word], letter: u8) -> Option<Word>
    ensures { result ≡ find (λ w. letter_of w == letter) words.now }
{
    for word in words {
        if word.letter() == letter {
            return Some(*word);
        }
    }
    None
}

fn word_lettered(letter: u8) -> Option<Word>
    ensures { result ≡ word_lettered letter }
{
    lettered_in(WORDS, letter)
}

/// A word, and what a line gives it.
#[derive(Clone, Copy, Debug)]
pub struct Said<'a> {
    /// The word.
    pub word: Word,
    /// Its value.
    pub value: &'a [u8],
}

impl Said<'_> {
    /// Whether it is this word.
    pub fn says(&self, word: Word) -> bool
        ensures { result ≡ says word (said self.now) }
    {
        self.word.letter() == word.letter()
    }
}

// A word of this name and value.
fn said_by<'a>(name: &[u8], value: &'a [u8]) -> Option<Said<'a>>
    ensures { option_map said result ≡ said_by name.now value.now }
{
    match word_named(name) {
        Some(word) if word.takes(value) => Some(Said { word, value }),
        _ => None,
    }
}

// The word that a row is.
fn said_in_row(row: &[u8]) -> Option<Said<'_>>
    ensures { option_map said result ≡ said_in_row row.now }
{
    match field_of(row) {
        Err(_) => None,
        Ok(line) => said_by(line.name, line.value),
    }
}

// The word that a line of prepared words is: its letter, and its value.
fn said_in_line(line: &[u8]) -> Option<Said<'_>>
    ensures { option_map said result ≡ said_in_line line.now }
{
    match line {
        [] => None,
        [letter, value @ ..] => said_with(*letter, value),
    }
}

fn said_with(letter: u8, value: &[u8]) -> Option<Said<'_>>
    ensures { option_map said result ≡ said_with letter value.now }
{
    match word_lettered(letter) {
        None => None,
        Some(word) => Some(Said { word, value }),
    }
}

// The word that a line is.
fn said_in(is_prepared: bool, line: &[u8]) -> Option<Said<'_>>
    ensures { option_map said result ≡ said_in is_prepared line.now }
{
    if is_prepared {
        said_in_line(line)
    } else {
        said_in_row(row_of(line))
    }
}

// Whether nothing is left behind the end of the last line.
fn is_end(row: &[u8], rest: Option<&[u8]>) -> bool
    ensures { result ≡ is_end row.now (option_map_or (λ text. lines_of text.now) rest.entry []) }
{
    match rest {
        None => row.is_empty(),
        Some(_) => false,
    }
}

/// The words that lines are, each of which is right.
pub fn all_said<'a>(alloc: Global, is_prepared: bool, text: &'a [u8]) -> Result<Vec<Said<'a>>, Bad>
    ensures { Gives (λ v. map said v.items) result (all_said is_prepared (lines_of text.now)) }
{
    let mut found = Vec::new(alloc);
    let mut left = Some(text);
    while let Some(text) = left {
        let (line, rest) = first_line(text);
        match said_in(is_prepared, line) {
            Some(said) => found.push(said)?,
            None => {
                return if is_end(row_of(line), rest) {
                    Ok(found)
                } else {
                    Err(Bad::Call)
                };
            }
        }
        left = rest;
    }
    Ok(found)
}

/// The words that are said. Those that `prepare` wrote begin with a 0, which begins no line that is right.
pub fn words_in<'a>(alloc: Global, words: &'a [u8]) -> Result<Vec<Said<'a>>, Bad>
    ensures { Gives (λ v. map said v.items) result (words_in words.now) }
{
    match words {
        [0, text @ ..] => all_said(alloc, true, text),
        _ => all_said(alloc, false, words),
    }
}

/// The number of the first line that is wrong, from 1 on; 0 where all are right. What stands behind an empty line is not passed over: that line is wrong.
pub fn wrong_row(words: &[u8]) -> u64
    ensures { result ≡ wrong_row 1 (lines_of words.now) }
{
    let mut count: u64 = 1;
    let mut left = Some(words);
    while let Some(text) = left {
        let (line, rest) = first_line(text);
        let row = row_of(line);
        if said_in_row(row).is_none() {
            return if is_end(row, rest) { 0 } else { count };
        }
        left = rest;
        count += 1;
    }
    0
}
