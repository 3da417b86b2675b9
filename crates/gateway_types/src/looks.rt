//! A look-up: what is found, and what is done by that.

/// What is found under the key.
#[derive(Clone, Copy)]
pub enum Found {
    /// Nothing.
    Nothing,
    /// What is stored just now, as far as it is there.
    InFlight,
    /// A whole response.
    Whole,
}

/// How what is found may answer the request, by the rules.
#[derive(Clone, Copy)]
pub enum Reuse {
    /// Not at all: the request passes it by.
    Bypass,
    /// It is fresh.
    Fresh,
    /// It is stale, and the request takes that.
    Stale,
    /// It is stale, and answers while it is fetched anew.
    WhileRevalidating,
    /// Once the origin said that it is still right.
    AfterValidation,
}

/// The tier's permit to fetch a key, of which there is one.
#[derive(Clone, Copy)]
pub enum Permit {
    /// It wasn't asked for.
    None,
    /// Another has it.
    Wait,
    /// It is given.
    Write,
}

/// What is known once a request was looked up.
#[derive(Clone, Copy)]
pub struct Look {
    /// What is found.
    pub found: Found,
    /// How it may answer; where nothing is found it says nothing.
    pub reuse: Reuse,
    /// The tier calls it fresh.
    pub fresh: bool,
    /// It was looked up as if nothing were fresh.
    pub past: bool,
    /// Who may fetch.
    pub permit: Permit,
    /// The request takes nothing but what is stored.
    pub only_if_cached: bool,
    /// The last response of this key wasn't stored, and nor will the next one be.
    pub predicted: bool,
    /// It is older than a purge that names it.
    pub too_old: bool,
}

/// What is done.
#[derive(Clone, Copy)]
pub enum LookVerdict {
    /// It answers.
    Hit,
    /// It answers, and is asked about behind.
    HitAndValidate,
    /// It answers as it comes.
    Collapse,
    /// It is looked up again, as if nothing were fresh.
    LookPast,
    /// The request passes.
    Pass,
    /// 504: nothing may answer, and nothing may be asked.
    Unavailable,
    /// The request goes on as it is, and nothing of the response is stored.
    Unstored,
    /// Another fetches: that is waited for.
    Wait,
    /// The origin is asked about it.
    Conditional,
    /// The origin is asked for it.
    Full,
}
