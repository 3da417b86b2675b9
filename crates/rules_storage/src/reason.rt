//! Why a response is not stored.
ghost use Rattle.std.specs.Prelude.{◌≡◌};
ghost use Rattle.rules_storage.specs.Good.{is_of_the_exchange};

/// Why a response is not stored. The first that holds counts.
#[derive(Clone, Copy, Debug, PartialEq, Eq)]
pub enum Reason {
    /// The method that was sent isn't GET.
    Method,
    /// The status is below 200 or above 599.
    Status,
    /// A part.
    Partial,
    /// A 304.
    NotModified,
    /// A status that an odd request causes.
    NeverStore,
    /// The request has no-store (RFC 9111, 5.2.1.5).
    RequestNoStore,
    /// must-understand, and a status that this cache doesn't know (5.2.2.3).
    NotUnderstood,
    /// no-store (5.2.2.5).
    NoStore,
    /// private (5.2.2.7).
    Private,
    /// `Vary: *` (4.1).
    VaryAny,
    /// The request has Authorization, and nothing opens it (3.5).
    Authorization,
    /// What would be stored has more than 256 lines.
    TooManyLines,
    /// What would be stored has Set-Cookie (7.3).
    SetCookie,
    /// Nothing says how long it is fresh (3).
    NoFreshness,
    /// It could answer nothing.
    NeverUsable,
    /// What was found is good for others, and keeps its place.
    StoredIsGood,
}

/// Whether a reason is of the exchange, and says nothing of what is stored already.
pub fn is_of_the_exchange(reason: Reason) -> bool
    ensures { result ≡ is_of_the_exchange reason }
{
    match reason {
        Reason::Method
        | Reason::RequestNoStore
        | Reason::Authorization
        | Reason::SetCookie
        | Reason::NotModified => true,
        _ => false,
    }
}
