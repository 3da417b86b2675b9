//! What the rules read and write, with the texts that it stands in.

ghost use Rattle.std.specs.Prelude.{◌≡◌, ◌==◌, not};
ghost use Rattle.gateway_rules.specs.Values.{text_of, request_of, key_of, method_of, is_rejected, has_body, is_idempotent, is_get_or_head, code_of, length_of, hit, forwarded};
ghost use Rattle.gateway_rules.specs.Messages.{says_close};
ghost use Rattle.rules_ffi_arguments.specs.Options.{has_mark};
ghost use Rattle.rules_ffi_results.specs.Keeping.{no_head};
ghost use Rattle.rules_ffi_results.specs.Numbers.{nowhere};

use rules_ffi_arguments::options::has_mark;
use rules_ffi_arguments::shapes::{
    BodyShape, HeadShape, How, KeptShape, Out as Told, PartShape, RequestShape, ResponseShape, Span,
};
use rules_ffi_arguments::spans::text_in;
use rules_ffi_results::marks::{
    CLOSES, EXPECTS, IS_HEAD, KEPT, NONE, NOWHERE, ONLY_IF_CACHED, READ, REFUSED, TAKES_TRAILERS,
};

/// Framings, by their numbers.
pub const NO_BODY: u64 = 0;

pub const LENGTH: u64 = 1;

pub const CHUNKED: u64 = 2;

pub const CLOSE: u64 = 3;

/// Reasons, by their numbers; those from 1000 on have none in the rules yet.
pub const NO_ANSWER: u64 = 50;

pub const ONLY_IF_CACHED_REASON: u64 = 51;

pub const WHILE_REVALIDATING: u64 = 52;

pub const STALE_IF_ERROR: u64 = 53;

pub const STALE_IF_DOWN: u64 = 54;

pub const PURGED: u64 = 55;

pub const UNSTORED: u64 = 56;

pub const BODY_TOO_LONG: u64 = 57;

pub const TOO_BUSY: u64 = 58;

pub const METHOD: u64 = 6;

pub const NOT_MODIFIED: u64 = 30;

pub const AUTHORIZATION: u64 = 35;

pub const STORED_IS_GOOD: u64 = 42;

pub const PREDICTED: u64 = 1000;

pub const TOO_MANY_INTERIM: u64 = 1001;

pub const UNREADABLE: u64 = 1002;

/// Why a request went to the origin, by the numbers of Cache-Status.
pub const URI_MISS: u64 = 1;

pub const VARY_MISS: u64 = 2;

pub const MISS: u64 = 3;

pub const STALE: u64 = 4;

pub const REQUEST: u64 = 5;

pub const BY_METHOD: u64 = 6;

pub const BYPASS: u64 = 7;

/// Plans, by their numbers.
pub const LOOK: u64 = 1;

pub const PASS: u64 = 2;

/// The bytes that a span names; none where it doesn't lie in the text.
pub fn text_of(text: &[u8], span: Span) -> &[u8]
    ensures { result.now ≡ text_of text.now span }
{
    match text_in(text, span) {
        Ok(text) => text,
        Err(_) => &[],
    }
}

/// The head of a request, also of one that is refused.
#[derive(Drop)]
pub struct RequestHead {
    pub shape: RequestShape,
    pub text: Vec<u8>,
}

impl RequestHead {
    /// Whether it is refused.
    pub fn is_rejected(&self) -> bool
        ensures { result ≡ is_rejected (request_of self.now) }
    {
        self.shape.status != READ
    }

    /// How many bytes it has.
    pub fn head_len(&self) -> u64
        ensures { result ≡ self.now.shape.used }
    {
        self.shape.used
    }

    pub fn key(&self) -> &[u8]
        ensures { result.now ≡ key_of (request_of self.now) }
    {
        text_of(self.text.as_slice(), self.shape.key)
    }

    pub fn method(&self) -> &[u8]
        ensures { result.now ≡ method_of (request_of self.now) }
    {
        text_of(self.text.as_slice(), self.shape.method)
    }

    /// Whether its client awaits a 100 before it sends the body.
    pub fn expects_continue(&self) -> bool
        ensures { result ≡ has_mark self.now.shape.marks 4 }
    {
        has_mark(self.shape.marks, EXPECTS)
    }

    /// Whether a body follows.
    pub fn has_body(&self) -> bool
        ensures { result ≡ has_body self.now.shape }
    {
        match self.shape.framing {
            NO_BODY => false,
            LENGTH => self.shape.length != 0,
            _ => true,
        }
    }

    pub fn only_if_cached(&self) -> bool
        ensures { result ≡ has_mark self.now.shape.marks 16 }
    {
        has_mark(self.shape.marks, ONLY_IF_CACHED)
    }

    pub fn accepts_trailers(&self) -> bool
        ensures { result ≡ has_mark self.now.shape.marks 2 }
    {
        has_mark(self.shape.marks, TAKES_TRAILERS)
    }

    /// Whether it may be sent twice (RFC 9110, 9.2.2).
    pub fn is_idempotent(&self) -> bool
        ensures { result ≡ is_idempotent (method_of (request_of self.now)) }
    {
        is_idempotent(self.method())
    }

    pub fn is_get_or_head(&self) -> bool
        ensures { result ≡ is_get_or_head (method_of (request_of self.now)) }
    {
        let method = self.method();
        method == b"GET".as_slice() || method == b"HEAD".as_slice()
    }
}

fn is_idempotent(method: &[u8]) -> bool
    ensures { result ≡ is_idempotent method.now }
{
    method == b"GET".as_slice()
        || method == b"HEAD".as_slice()
        || method == b"OPTIONS".as_slice()
        || method == b"TRACE".as_slice()
        || method == b"PUT".as_slice()
        || method == b"DELETE".as_slice()
}

/// The head of a response.
#[derive(Drop)]
pub struct ResponseHead {
    pub shape: ResponseShape,
    pub text: Vec<u8>,
}

impl ResponseHead {
    pub fn status_code(&self) -> u64
        ensures { result ≡ self.now.shape.code }
    {
        self.shape.code
    }

    /// The same, which is at most 999.
    pub fn code(&self) -> u16
        ensures { result ≡ code_of self.now.shape }
    {
        let code = self.status_code();
        if code < 65536 { code as u16 } else { 0 }
    }

    pub fn closes(&self) -> bool
        ensures { result ≡ has_mark self.now.shape.marks 1 }
    {
        has_mark(self.shape.marks, CLOSES)
    }

    /// The length that is stated of its body.
    pub fn length(&self) -> Option<u64>
        ensures { result ≡ length_of self.now.shape }
    {
        if self.shape.framing == LENGTH && self.shape.length != NONE {
            Some(self.shape.length)
        } else {
            None
        }
    }
}

/// A head that was read, or why it wasn't.
#[derive(Drop)]
pub enum Read {
    Head(ResponseHead),
    Refused(u64),
}

/// What is sent: a text with a head, what stands in front of parts, and what follows them; and the parts.
#[derive(Drop)]
pub struct Message {
    pub text: Vec<u8>,
    pub head: Span,
    pub tail: Span,
    pub parts: Vec<PartShape>,
    pub status_code: u64,
    pub framing: u64,
    pub closes: bool,
}

/// The head of a request to the origin.
#[derive(Drop)]
pub struct SentRequest {
    pub head: Vec<u8>,
    /// 1 pass, 2 full, 3 conditional, 4 unconditional.
    pub fetch: u64,
    pub framing: u64,
    pub is_head: bool,
    pub is_conditional: bool,
    pub has_range: bool,
}

/// Whether a response is stored, and as what.
#[derive(Drop)]
pub struct StoreDecision {
    pub told: KeptShape,
    pub text: Vec<u8>,
}

impl StoreDecision {
    pub fn is_kept(&self) -> bool
        ensures { result ≡ (self.now.told.status == 68) }
    {
        self.told.status == KEPT
    }

    /// Whether what was found goes.
    pub fn removes(&self) -> bool
        ensures { result ≡ not (self.now.told.removes == 0) }
    {
        self.told.removes != 0
    }

    pub fn head(&self) -> &[u8]
        ensures { result.now ≡ text_of self.now.text.items self.now.told.head }
    {
        text_of(self.text.as_slice(), self.told.head)
    }

    pub fn block(&self) -> &[u8]
        ensures { result.now ≡ text_of self.now.text.items self.now.told.block }
    {
        text_of(self.text.as_slice(), self.told.block)
    }
}

/// A body as it is decoded, and its trailers once it is over.
#[derive(Drop)]
pub struct Body {
    pub shape: BodyShape,
    pub trailers: Vec<u8>,
}

/// How an answer came, of a hit.
pub fn hit() -> How
    ensures { result ≡ hit }
{
    How {
        hit: 1,
        forward: 0,
        forward_status: 0,
        stored: 0,
        collapsed: 0,
        detail: 0,
        fetch: 0,
        closes: 0,
    }
}

/// How an answer came for which the origin was asked.
pub fn forwarded(why: u64, status: u64) -> How
    ensures { result ≡ forwarded why status }
{
    How {
        hit: 0,
        forward: why,
        forward_status: status,
        ..hit()
    }
}

/// A refused request's own status, or another's that is to be answered.
pub fn is_refused(status: u64) -> bool
    ensures { result ≡ (status == 66) }
{
    status == REFUSED
}

/// Whether what is sent has no body because the method is HEAD.
pub fn is_head(marks: u64) -> bool
    ensures { result ≡ has_mark marks 8 }
{
    has_mark(marks, IS_HEAD)
}

/// Whether it says that the connection closes.
pub fn says_close(told: &Told) -> bool
    ensures { result ≡ says_close told.now }
{
    has_mark(told.marks, CLOSES)
}

/// No head.
pub fn no_head() -> HeadShape
    ensures { result ≡ no_head }
{
    rules_ffi_results::keeping::no_head()
}

/// No text.
pub fn nowhere() -> Span
    ensures { result ≡ nowhere }
{
    NOWHERE
}
