//! The two sides of an exchange, and what the origin is asked.

/// The client's side.
#[derive(Clone, Copy)]
pub enum Client {
    /// For another's permit to fetch.
    Waiting,
    /// The head of what its own origin's side fetches.
    Awaiting,
    /// Its head was made: what follows is sent as it comes.
    Sending,
    /// It was answered to the end, or went away.
    Done,
}

/// The origin's side.
#[derive(Clone, Copy)]
pub enum Origin {
    /// Nothing is asked.
    Idle,
    /// A request was sent, and its final head hasn't come.
    AwaitingHead,
    /// A body comes, and is stored.
    Storing,
    /// A body comes, and is for the client alone.
    Relaying,
}

/// What the origin is asked.
#[derive(Clone, Copy)]
pub enum Fetch {
    /// The client's request as it is: nothing is looked up or stored.
    Pass,
    /// The same, since the last response of this key wasn't stored.
    Unstored,
    /// What is to be stored.
    Full,
    /// Whether what is stored is still right.
    Conditional,
    /// What is to be stored, without any condition, since a 304 was about something else.
    Unconditional,
}
