//! A final head of the origin's: what is known of it, and what is done with it.

use crate::states::Fetch;

/// What is known once a final head was read.
#[derive(Clone, Copy)]
pub struct Heard {
    /// What was asked.
    pub fetch: Fetch,
    /// The status.
    pub status: u16,
    /// It is a 304, and nobody had a condition.
    pub unasked: bool,
    /// What is stored answers in the place of this error.
    pub stale_answers: bool,
    /// What was found is good: no error replaces it.
    pub good: bool,
    /// It speaks of what is stored: a 304, or a 200 to HEAD, after that was asked about.
    pub revalidates: bool,
    /// It may be stored, and is to be.
    pub stores: bool,
}

/// What is done with a final head.
#[derive(Clone, Copy)]
pub enum ResponseVerdict {
    /// It is no answer: 502.
    Bad,
    /// The client gets it, and what it changes is purged.
    RelayAndPurge,
    /// The client gets it, and it teaches whether the next one is stored.
    RelayUnstored,
    /// What is stale answers in its place.
    StaleOnError,
    /// The client gets it, and what is stored stays.
    Relay,
    /// The rows of what it says of what is stored.
    Revalidate,
    /// It is stored, and answers as it comes.
    Store,
    /// The client gets it, and what was found goes where the rules say so.
    RelayAndRemove,
}

/// What is known of what the rules would keep.
#[derive(Clone, Copy)]
pub struct Keeping {
    /// The rules keep it.
    pub kept: bool,
    /// A purge named its key since it was asked for.
    pub purged: bool,
    /// The answer to what was asked later has come.
    pub superseded: bool,
    /// Its stated length is past what is stored of one body.
    pub too_long: bool,
    /// With it there would be too much in flight.
    pub too_much: bool,
}

/// What is known of a response about what is stored.
#[derive(Clone, Copy)]
pub struct Revalidation {
    /// The status.
    pub status: u16,
    /// It is about another response.
    pub other: bool,
    /// The stored head may take its fields.
    pub may_freshen: bool,
}

/// What is done with it.
#[derive(Clone, Copy)]
pub enum RevalidateVerdict {
    /// The origin is asked again, without conditions.
    Again,
    /// The stored head takes its fields, and what is stored answers.
    FreshenAndAnswer,
    /// The stored head takes its fields, and the client gets the response.
    FreshenAndRelay,
    /// What is stored answers.
    Answer,
    /// The client gets the response.
    Relay,
}
