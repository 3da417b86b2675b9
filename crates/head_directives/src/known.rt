//! What the lines of a response say under the names that have a variant of their own: read in one pass, and without memory.
ghost use Rattle.std.specs.Prelude.{◌≡◌, ◌<◌, [], List, ℕ, Some, false, None, IfSome, MatchOption, codes, map, option_map};
ghost use Rattle.std.specs.Char.{to_ascii_lowercase};
ghost use Rattle.http_header.specs.HeaderMap.{Entries};
ghost use Rattle.http_header.specs.FieldValue.{FieldValue};
ghost use Rattle.cache_words.specs.Time.{span_of};
ghost use Rattle.head_directives.specs.Written.{Written};
ghost use Rattle.head_directives.specs.Found.{written};
ghost use Rattle.head_directives.specs.Names.{place_of};
ghost use Rattle.head_directives.specs.Keeps.{keep, keep_line, value_named, value_under, has, is_alone};
ghost use Rattle.head_directives.specs.Control.{lines_under, named};
ghost use Rattle.head_directives.specs.Seconds.{delta_seconds};
ghost use Rattle.head_directives.specs.Lifetime.{forbids_storing, lifetime, forbids_stale, stale_window, lists_fields, stripped};
ghost use Rattle.head_directives.specs.Known.{said_in, Knows};

use crate::line::{RawDirective, Scan};
use crate::value::delta_seconds;
use cache_words::time::Duration;
use head_lines::ResponseHeader;
use std::str;

// How many names have a variant of their own.
const NAMES: usize = 14;

// Those names, in the order of their places.
const OWN_NAMES: [&str; NAMES] = [
    "max-age",
    "s-maxage",
    "no-cache",
    "no-store",
    "private",
    "public",
    "must-revalidate",
    "proxy-revalidate",
    "must-understand",
    "no-transform",
    "immutable",
    "stale-while-revalidate",
    "stale-if-error",
    "only-if-cached",
];

// The places of those that a shared cache asks for.
const MAX_AGE: usize = 0;

const S_MAXAGE: usize = 1;

const NO_CACHE: usize = 2;

const NO_STORE: usize = 3;

const PRIVATE: usize = 4;

const MUST_REVALIDATE: usize = 6;

const PROXY_REVALIDATE: usize = 7;

const STALE_WHILE_REVALIDATE: usize = 11;

const STALE_IF_ERROR: usize = 12;

// The place of a name in any case.
#[tactic(auto, using(crate::proofs::Knowing::first_place))]
fn place_in_any_case(name: &str) -> Option<usize>
    ensures is { result ≡ place_of (map to_ascii_lowercase name.now) }
    ensures within { IfSome result (λ place. place < 14) }
{
    OWN_NAMES
        .iter()
        .position(|own| name.eq_ignore_ascii_case(own))
}

// The seconds that a value says, if it can be read.
fn seconds(value: &[u8]) -> Option<Duration>
    ensures { result ≡ option_map span_of (delta_seconds value.now) }
{
    match delta_seconds(value) {
        Ok(seconds) => Some(Duration::from_seconds(seconds as u64)),
        Err(_) => None,
    }
}

/// What the lines of a response's Cache-Control say under the names that have a variant of their own: of each the last value, borrowed
/// from the lines. It answers what a shared cache asks, as [`CacheControl`](crate::CacheControl) does, and takes no memory.
#[derive(Clone, Copy)]
pub struct KnownDirectives<'a> {
    // What is said under each name, by its place: nothing, that it is there, or its value.
    said: [Option<Option<&'a [u8]>>; NAMES],
}

impl<'a> KnownDirectives<'a> {
    /// What a response's Cache-Control says; `None` without such a line.
    pub fn from_resp_headers(resp_header: &'a ResponseHeader) -> Option<KnownDirectives<'a>>
        ensures { let lines = named (lines_under (codes "cache-control") resp_header.now.headers) in
            MatchOption result (lines ≡ None) (λ known. (ds : List Written) × (lines ≡ Some ds) × Knows known ds) }
    {
        let lines = resp_header.headers.get_all("cache-control");
        lines.iter().next()?;
        let mut known = KnownDirectives {
            said: [None; NAMES],
        };
        for line in lines.iter() {
            known.note_line(line.as_bytes());
        }
        Some(known)
    }

    // Notes the directives of one more line.
    fn note_line(&mut self, line: &'a [u8])
        ensures { (ds : List Written) → Knows self.old ds → Knows self.new (keep_line ds line.now) }
    {
        for found in Scan::of(line) {
            self.note(found);
        }
    }

    // Notes one more directive.
    #[tactic(auto, using(crate::proofs::Texts::is_text, crate::proofs::Texts::no_text, crate::proofs::Knowing::known_unchanged, crate::proofs::Knowing::known_without, crate::proofs::Knowing::known_next))]
    fn note(&mut self, found: RawDirective<'a>)
        ensures { (ds : List Written) → Knows self.old ds → Knows self.new (keep ds (written found.entry)) }
    {
        let Ok(name) = str::from_utf8(found.name) else {
            return;
        };
        if let Some(place) = place_in_any_case(name) {
            self.said[place] = Some(found.value);
        }
    }

    // What is said under the name in a place.
    fn under(&self, place: usize) -> Option<Option<&'a [u8]>>
        requires { place < 14 }
        ensures { (ds : List Written) (name : List ℕ) → Knows self.now ds → place_of name ≡ Some place → said_in result ≡ value_named name ds }
    {
        self.said[place]
    }

    // The value under the name in a place, where it has one.
    fn value(&self, place: usize) -> Option<&'a [u8]>
        requires { place < 14 }
        ensures { (ds : List Written) (name : List ℕ) → Knows self.now ds → place_of name ≡ Some place
            → option_map (λ v. v.now) result ≡ value_under name ds }
    {
        self.under(place)?
    }

    // Whether the name in a place is there.
    fn has(&self, place: usize) -> bool
        requires { place < 14 }
        ensures { (ds : List Written) (name : List ℕ) → Knows self.now ds → place_of name ≡ Some place → result ≡ has name ds }
    {
        self.under(place).is_some()
    }

    // Whether the name in a place is there without a value.
    fn is_alone(&self, place: usize) -> bool
        requires { place < 14 }
        ensures { (ds : List Written) (name : List ℕ) → Knows self.now ds → place_of name ≡ Some place → result ≡ is_alone name ds }
    {
        matches!(self.under(place), Some(None))
    }

    /// Returns whether nothing of the response may be stored (RFC 9111, 3).
    pub fn forbids_storing(&self) -> bool
        ensures { (ds : List Written) → Knows self.now ds → result ≡ forbids_storing ds }
    {
        self.has(NO_STORE) || self.is_alone(PRIVATE)
    }

    /// Returns how long the response is fresh (RFC 9111, 4.2.1); `None` where the directives don't say.
    pub fn fresh_duration(&self) -> Option<Duration>
        ensures { (ds : List Written) → Knows self.now ds → result ≡ option_map span_of (lifetime ds) }
    {
        if self.is_alone(NO_CACHE) {
            return Some(Duration::zero());
        }
        match self.value(S_MAXAGE) {
            Some(value) => seconds(value),
            None => seconds(self.value(MAX_AGE)?),
        }
    }

    // Whether stale responses may not be served at all (RFC 9111, 4.2.4).
    fn forbids_stale(&self) -> bool
        ensures { (ds : List Written) → Knows self.now ds → result ≡ forbids_stale ds }
    {
        self.has(MUST_REVALIDATE) || self.has(PROXY_REVALIDATE) || self.has(S_MAXAGE)
    }

    // How long a stale response may be served by the name in a place; `None` where the directives don't say.
    fn stale_duration(&self, place: usize) -> Option<Duration>
        requires { place < 14 }
        ensures { (ds : List Written) (name : List ℕ) → Knows self.now ds → place_of name ≡ Some place
            → result ≡ option_map span_of (stale_window name ds) }
    {
        if self.forbids_stale() {
            return Some(Duration::zero());
        }
        seconds(self.value(place)?)
    }

    /// Returns how long a stale response may be served while it is validated (RFC 5861, 3).
    pub fn serve_stale_while_revalidate_duration(&self) -> Option<Duration>
        ensures { (ds : List Written) → Knows self.now ds → result ≡ option_map span_of (stale_window (codes "stale-while-revalidate") ds) }
    {
        self.stale_duration(STALE_WHILE_REVALIDATE)
    }

    /// Returns how long a stale response may be served on errors (RFC 5861, 4).
    pub fn serve_stale_if_error_duration(&self) -> Option<Duration>
        ensures { (ds : List Written) → Knows self.now ds → result ≡ option_map span_of (stale_window (codes "stale-if-error") ds) }
    {
        self.stale_duration(STALE_IF_ERROR)
    }

    /// Returns whether `private` or `no-cache` lists fields, which are removed from what is kept (RFC 9111, 5.2.2.4 and 5.2.2.7).
    pub fn lists_fields(&self) -> bool
        ensures exact { (ds : List Written) → Knows self.now ds → result ≡ lists_fields ds }
        ensures none { result ≡ false → (ds : List Written) → Knows self.now ds → (head : Entries FieldValue) → stripped head ds ≡ head }
    {
        self.value(PRIVATE).is_some() || self.value(NO_CACHE).is_some()
    }
}
