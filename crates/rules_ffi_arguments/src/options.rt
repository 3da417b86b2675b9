//! The options: numbers, and words.
ghost use Rattle.std.specs.Prelude.{◌≡◌, ◌<◌, ◌∷◌, ◌++◌, [], map, filter, option_map, IfOk, OnOk};
ghost use Rattle.rules_fields.specs.Texts.{is_filled};
ghost use Rattle.rules_fields.specs.Types.{chosen};
ghost use Rattle.rules_ffi_arguments.specs.Given.{Gives, NeedsNoMemory};
ghost use Rattle.rules_ffi_arguments.specs.Words.{said, valued, first_of};
ghost use Rattle.rules_ffi_arguments.specs.Options.{has_mark, names_view, listed_or, lifetimes_in, statuses_view, statuses_in, never_stored, lists_view, text_or, elements_in, chosen_names, says_yes, lists_from, lists_in, are_numbers, scheme_by, chosen_by};

use crate::bad::Bad;
use crate::shapes::OptionNumbers;
use crate::values::{is_yes, lifetime_in, status_in};
use crate::words::{Said, Word, words_in};
use rules_fields::lines::add_elements;
use rules_fields::types::{NEVER_STORED, Options, StatusLifetime};
use std::alloc::{AllocError, Global};

/// Names that an option lists.
#[derive(Drop)]
pub enum Names<'a> {
    /// The usual ones.
    Usual(&'a [&'a [u8]]),
    /// Those that words give.
    Own(Vec<&'a [u8]>),
}

impl<'a> Names<'a> {
    fn as_slice(&self) -> &[&'a [u8]]
        ensures { map (λ t. t.now) result.now ≡ names_view self.now }
    {
        match self {
            Names::Usual(names) => names,
            Names::Own(names) => names.as_slice(),
        }
    }
}

/// What the words of the options say.
#[derive(Drop)]
pub struct OptionLists<'a> {
    name: &'a [u8],
    secret: &'a [u8],
    targeted: Names<'a>,
    drops: Names<'a>,
    hosts: Names<'a>,
    refuses: Names<'a>,
    lifetimes: Vec<StatusLifetime>,
    never_stored: Statuses,
    origin_host: &'a [u8],
    origin_prefix: &'a [u8],
    query_drops: Names<'a>,
    query_sorts: bool,
    encodings: Vec<&'a [u8]>,
    cookie_keeps: Option<Vec<&'a [u8]>>,
    response_drops: Names<'a>,
    forced_lifetimes: Vec<StatusLifetime>,
    forces_private: bool,
}

impl<'a> OptionLists<'a> {
    fn cookies_kept(&self) -> Option<&[&'a [u8]]>
        ensures { option_map (λ ns. map (λ t. t.now) ns.now) result ≡ (lists_view self.now).cookie_keeps }
    {
        match &self.cookie_keeps {
            None => None,
            Some(names) => Some(names.as_slice()),
        }
    }
}

/// Statuses that an option lists.
#[derive(Drop)]
pub enum Statuses {
    /// The usual ones.
    Usual,
    /// Those that words give.
    Own(Vec<u16>),
}

impl Statuses {
    fn as_slice(&self) -> &[u16]
        ensures { result.now ≡ statuses_view self.now }
    {
        match self {
            Statuses::Usual => NEVER_STORED,
            Statuses::Own(statuses) => statuses.as_slice(),
        }
    }
}

/// Whether a mark is set in a word of marks.
pub fn has_mark(marks: u64, mark: u64) -> bool
    requires { 0 < mark }
    ensures { result ≡ has_mark marks mark }
{
    marks / mark % 2 == 1
}

// Adds a text that isn't empty.
fn add_filled<'a>(found: &mut Vec<&'a [u8]>, text: &'a [u8]) -> Result<(), AllocError>
    ensures { OnOk result (map (λ t. t.now) found.new.items ≡ map (λ t. t.now) found.old.items ++ filter is_filled (text.now ∷ [])) }
{
    if !text.is_empty() {
        found.push(text)?;
    }
    Ok(())
}

// The values of a word that aren't empty.
fn filled<'a>(alloc: Global, words: &[Said<'a>], word: Word) -> Result<Vec<&'a [u8]>, AllocError>
    ensures { IfOk result (λ v. map (λ t. t.now) v.items ≡ filter is_filled (valued word (map said words.now))) }
{
    let mut found = Vec::new(alloc);
    for s in words {
        if s.says(word) {
            add_filled(&mut found, s.value)?;
        }
    }
    Ok(found)
}

// The first value of a word.
fn first_of<'a>(words: &[Said<'a>], word: Word) -> Option<&'a [u8]>
    ensures { option_map (λ t. t.now) result ≡ first_of word (map said words.now) }
{
    for s in words {
        if s.says(word) {
            return Some(s.value);
        }
    }
    None
}

// The values of a word that aren't empty, or the usual ones where no line says it.
fn listed_or<'a>(
    alloc: Global,
    words: &[Said<'a>],
    word: Word,
    usual: &'a [&'a [u8]],
) -> Result<Names<'a>, AllocError>
    ensures { IfOk result (λ ns. names_view ns ≡ listed_or (map said words.now) word (map (λ t. t.now) usual.now)) }
{
    match first_of(words, word) {
        None => Ok(Names::Usual(usual)),
        Some(_) => Ok(Names::Own(filled(alloc, words, word)?)),
    }
}

// A lifetime for each line of a word.
fn lifetimes_in(
    alloc: Global,
    words: &[Said<'_>],
    word: Word,
) -> Result<Vec<StatusLifetime>, AllocError>
    ensures { IfOk result (λ v. v.items ≡ lifetimes_in word (map said words.now)) }
{
    let mut rows = Vec::new(alloc);
    for s in words {
        if s.says(word)
            && let Some(row) = lifetime_in(s.value)
        {
            rows.push(row)?;
        }
    }
    Ok(rows)
}

// The statuses that lines of a word give.
fn statuses_in(alloc: Global, words: &[Said<'_>]) -> Result<Vec<u16>, AllocError>
    ensures { IfOk result (λ v. v.items ≡ statuses_in (map said words.now)) }
{
    let mut found = Vec::new(alloc);
    for s in words {
        if s.says(Word::NeverStore)
            && let Some(status) = status_in(s.value)
        {
            found.push(status)?;
        }
    }
    Ok(found)
}

// Those that are never stored: the usual ones where no line says any.
fn never_stored(alloc: Global, words: &[Said<'_>]) -> Result<Statuses, AllocError>
    ensures { IfOk result (λ ss. statuses_view ss ≡ never_stored (map said words.now)) }
{
    match first_of(words, Word::NeverStore) {
        None => Ok(Statuses::Usual),
        Some(_) => Ok(Statuses::Own(statuses_in(alloc, words)?)),
    }
}

// The targeted field that counts, and the methods that are refused, where no word names any.
const TARGETED: &[&[u8]] = &[b"cdn-cache-control"];

const REFUSES: &[&[u8]] = &[b"CONNECT", b"TRACE"];

fn text_or<'a>(words: &[Said<'a>], word: Word, usual: &'static [u8]) -> &'a [u8]
    ensures { result.now ≡ text_or (map said words.now) word usual.now }
{
    match first_of(words, word) {
        None => usual,
        Some(text) => text,
    }
}

// The elements of the first value of a word.
fn elements_in<'a>(
    alloc: Global,
    words: &[Said<'a>],
    word: Word,
) -> Result<Vec<&'a [u8]>, AllocError>
    ensures { IfOk result (λ v. map (λ t. t.now) v.items ≡ elements_in (map said words.now) word) }
{
    let mut found = Vec::new(alloc);
    if let Some(text) = first_of(words, word) {
        add_elements(&mut found, text)?;
    }
    Ok(found)
}

// The values of a word that aren't empty, where a line says it.
fn chosen_names<'a>(
    alloc: Global,
    words: &[Said<'a>],
    word: Word,
) -> Result<Option<Vec<&'a [u8]>>, AllocError>
    ensures { IfOk result (λ ns. option_map (λ v. map (λ t. t.now) v.items) ns ≡ chosen_names (map said words.now) word) }
{
    match first_of(words, word) {
        None => Ok(None),
        Some(_) => Ok(Some(filled(alloc, words, word)?)),
    }
}

// Whether the first line of a word says yes.
fn says_yes(words: &[Said<'_>], word: Word) -> bool
    ensures { result ≡ says_yes (map said words.now) word }
{
    match first_of(words, word) {
        None => false,
        Some(text) => is_yes(text),
    }
}

// What the lines of each word say.
fn lists_from<'a>(alloc: Global, words: &[Said<'a>]) -> Result<OptionLists<'a>, AllocError>
    ensures { IfOk result (λ l. lists_view l ≡ lists_from (map said words.now)) }
{
    Ok(OptionLists {
        name: text_or(words, Word::Name, b"cache-tier"),
        secret: text_or(words, Word::Secret, b""),
        targeted: listed_or(alloc, words, Word::Targeted, TARGETED)?,
        drops: listed_or(alloc, words, Word::Drop, &[])?,
        hosts: listed_or(alloc, words, Word::Host, &[])?,
        refuses: listed_or(alloc, words, Word::Refuse, REFUSES)?,
        lifetimes: lifetimes_in(alloc, words, Word::Lifetime)?,
        never_stored: never_stored(alloc, words)?,
        origin_host: text_or(words, Word::OriginHost, b""),
        origin_prefix: text_or(words, Word::OriginPrefix, b""),
        query_drops: listed_or(alloc, words, Word::QueryDrop, &[])?,
        query_sorts: says_yes(words, Word::QuerySort),
        encodings: elements_in(alloc, words, Word::Encodings)?,
        cookie_keeps: chosen_names(alloc, words, Word::CookieKeep)?,
        response_drops: listed_or(alloc, words, Word::ResponseDrop, &[])?,
        forced_lifetimes: lifetimes_in(alloc, words, Word::ForceLifetime)?,
        forces_private: says_yes(words, Word::ForcePrivate),
    })
}

/// What the words of the options say.
pub fn lists_in<'a>(alloc: Global, words: &'a [u8]) -> Result<OptionLists<'a>, Bad>
    ensures { Gives lists_view result (lists_in words.now) }
{
    let said = words_in(alloc, words)?;
    Ok(lists_from(alloc, said.as_slice())?)
}

/// Whether the numbers of the options are in their ranges.
pub fn are_numbers(numbers: &OptionNumbers) -> bool
    ensures { result ≡ are_numbers numbers.now }
{
    let [a, b] = numbers.reserved;
    numbers.flags < 4096
        && numbers.most_ranges != 0
        && numbers.most_ranges <= 16
        && a == 0
        && b == 0
}

fn scheme_by(flags: u64) -> &'static [u8]
    ensures { result.now ≡ scheme_by flags }
{
    if has_mark(flags, 1024) {
        b"https"
    } else {
        b"http"
    }
}

/// The options, over what their words say.
pub fn options<'a>(numbers: &OptionNumbers, lists: &'a OptionLists<'_>) -> Result<Options<'a>, Bad>
    ensures gives { Gives chosen result (chosen_by numbers.now (lists_view lists.now)) }
    ensures memory { NeedsNoMemory result }
{
    if !are_numbers(numbers) {
        return Err(Bad::Call);
    }
    let flags = numbers.flags;
    Ok(Options {
        name: lists.name,
        scheme: scheme_by(flags),
        most_head: numbers.most_head,
        most_target: numbers.most_target,
        most_lines: numbers.most_lines,
        most_line: numbers.most_line,
        heeds_requests: has_mark(flags, 1),
        authorized_reads: has_mark(flags, 2),
        stores_cookies: has_mark(flags, 4),
        fills_ranges: has_mark(flags, 8),
        fills_heads: has_mark(flags, 16),
        fills_conditions: has_mark(flags, 32),
        folds_percent: has_mark(flags, 64),
        targeted: lists.targeted.as_slice(),
        heuristic_tenth: has_mark(flags, 128),
        most_heuristic: numbers.most_heuristic,
        lifetimes: lists.lifetimes.as_slice(),
        never_stored: lists.never_stored.as_slice(),
        stale_while_revalidate: numbers.stale_while_revalidate,
        stale_if_error: numbers.stale_if_error,
        stale_if_down: numbers.stale_if_down,
        s_maxage_lets_stale: has_mark(flags, 256),
        most_ranges: numbers.most_ranges,
        drops: lists.drops.as_slice(),
        hosts: lists.hosts.as_slice(),
        refuses: lists.refuses.as_slice(),
        forwards_for: has_mark(flags, 512),
        secret: lists.secret,
        origin_host: lists.origin_host,
        origin_prefix: lists.origin_prefix,
        trusts_date: has_mark(flags, 2048),
        query_drops: lists.query_drops.as_slice(),
        query_sorts: lists.query_sorts,
        encodings: lists.encodings.as_slice(),
        cookie_keeps: lists.cookies_kept(),
        response_drops: lists.response_drops.as_slice(),
        forced_lifetimes: lists.forced_lifetimes.as_slice(),
        forces_private: lists.forces_private,
    })
}
