//! Why a head is refused.
ghost use Rattle.std.specs.Prelude.{◌≡◌};
ghost use Rattle.http1_message_parts.specs.Reasons.{status_of};

/// Why a head is refused. Of those that hold the first counts.
#[derive(Clone, Copy, Debug, PartialEq, Eq)]
pub enum Reason {
    /// The start line is longer than the options let it be.
    TargetTooLong,
    /// The head is.
    HeadTooLong,
    /// A CR or LF stands alone (RFC 9112, 2.2).
    BareLineEnd,
    /// It isn't `method SP target SP HTTP/d.d` (3).
    BadRequestLine,
    /// The version is neither 1.0 nor 1.1.
    Version,
    /// The options refuse the method.
    Method,
    /// It has more field lines than the options let it have.
    TooManyFields,
    /// A line begins with a blank (5.2).
    Folded,
    /// Blanks stand before a colon (5.1).
    BlankBeforeColon,
    /// A line isn't `name ":" value` (5).
    BadField,
    /// Content-Length beside Transfer-Encoding (6.3).
    LengthAndCoding,
    /// Lengths that aren't digits, or differ, or are 2^63 and more.
    BadLength,
    /// Transfer-Encoding in HTTP/1.0 (6.1).
    CodingIn10,
    /// A coding beside `chunked`.
    UnknownCoding,
    /// `chunked` isn't the last coding, or a coding is no token.
    BadCoding,
    /// Host stands twice (3.2).
    SeveralHosts,
    /// HTTP/1.1 without a Host.
    NoHost,
    /// A Host that is none.
    BadHost,
    /// Another scheme than the listener's.
    OtherScheme,
    /// A host that isn't served (RFC 9110, 7.4).
    OtherHost,
    /// The target has none of the forms, or a `#` (3.2).
    BadTarget,
    /// It isn't `HTTP/1.d SP ddd` (4).
    BadStatusLine,
    /// A 101 that nobody asked for.
    Switched,
    /// A field line of a request is longer than the options let it be.
    FieldTooLong,
}

impl Reason {
    /// The status with which a request is refused.
    pub fn status(self) -> u16
        ensures { result ≡ status_of self }
    {
        match self {
            Reason::TargetTooLong => 414,
            Reason::HeadTooLong | Reason::TooManyFields | Reason::FieldTooLong => 431,
            Reason::Version => 505,
            Reason::Method | Reason::UnknownCoding => 501,
            Reason::OtherScheme | Reason::OtherHost => 421,
            _ => 400,
        }
    }
}
