//! A wait for another's fetch: what is known of it, and how it ends.

use crate::looks::{LookVerdict, Reuse};

/// How the tier says that a wait ended.
#[derive(Clone, Copy)]
pub enum Ended {
    /// What was fetched is stored, or being stored.
    Done,
    /// What was fetched won't be stored.
    GiveUp,
    /// Whoever fetched let go.
    Dangling,
    /// The fetch met a passing fault.
    TransientError,
    /// The permit is past its age.
    AgeTimeout,
    /// The waits took as long as a request may wait.
    WaitTimeout,
}

/// What is known of a wait.
#[derive(Clone, Copy)]
pub struct Waiting {
    /// Whoever fetched got no answer, or was answered by what is stale.
    pub shares: bool,
    /// The whole of its time is over.
    pub over: bool,
    /// What it waits for has begun, or goes on under another key.
    pub moved: bool,
    /// The tier had no memory to say how it goes.
    pub refused: bool,
    /// How the tier says that it ended.
    pub ended: Option<Ended>,
}

/// What becomes of a wait.
#[derive(Clone, Copy)]
pub enum WaitVerdict {
    /// It ends as the fetch did.
    Share,
    /// It looks up without a permit.
    Alone,
    /// It looks up again, and asks for the permit.
    Again,
    /// It goes on.
    Wait,
}

/// What is known of who waited for a fetch that failed, and looked up itself.
#[derive(Clone, Copy)]
pub struct Sharing {
    /// What its own look-up says, without a permit.
    pub look: LookVerdict,
    /// How what it found may answer.
    pub reuse: Reuse,
    /// What it found may answer in the place of the error.
    pub stale_answers: bool,
    /// The origin did answer, by an error.
    pub is_response: bool,
}

/// What is done for it.
#[derive(Clone, Copy)]
pub enum ShareVerdict {
    /// What its own look-up says.
    AsFound,
    /// What is stale answers.
    StaleOnError,
    /// It fetches, without a permit.
    Alone,
    /// The answer that the fetch ended by.
    Generated,
}
