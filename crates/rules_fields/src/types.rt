//! What the rules take and give: options, requests, responses, and what is kept of a response. All of it is lent: nothing here owns memory.
ghost use Rattle.std.specs.Prelude.{◌≡◌};
ghost use Rattle.rules_fields.specs.Types.{stated, chosen, usual};

use crate::Line;

/// A lifetime for a status whose responses say nothing of one.
#[derive(Clone, Copy, Debug)]
pub struct StatusLifetime {
    /// The status.
    pub status: u16,
    /// The seconds.
    pub seconds: u64,
}

/// What an operator may choose.
#[derive(Clone, Copy, Debug)]
pub struct Options<'a> {
    /// The name in Via and Cache-Status, a token.
    pub name: &'a [u8],
    /// What the listener speaks; a part of each key.
    pub scheme: &'a [u8],
    /// The most bytes of a head, else 431, of a response 502.
    pub most_head: u64,
    /// The most bytes of a start line, else 414.
    pub most_target: u64,
    /// The most field lines, else 431, of a response 502.
    pub most_lines: u64,
    /// The most bytes of a field line of a request: its name, the colon and its value; else 431.
    pub most_line: u64,
    /// Directives of requests and Pragma count (RFC 9111, 5.2.1: they may be passed over).
    pub heeds_requests: bool,
    /// Whatever is stored may answer a request with Authorization; else only what RFC 9111, 3.5 lets.
    pub authorized_reads: bool,
    /// What is stored may have Set-Cookie, where freshness is explicit.
    pub stores_cookies: bool,
    /// A Range that finds nothing fetches the whole.
    pub fills_ranges: bool,
    /// A HEAD that finds nothing is fetched as GET.
    pub fills_heads: bool,
    /// A client's conditions are left off where nothing is found, but If-Range, which goes where Range goes.
    pub fills_conditions: bool,
    /// `%61` and `a` are one in keys (RFC 3986, 6.2.2).
    pub folds_percent: bool,
    /// Targeted fields in order of preference, in small letters (RFC 9213).
    pub targeted: &'a [&'a [u8]],
    /// A tenth of Date - Last-Modified is a lifetime where nothing is said (RFC 9111, 4.2.2).
    pub heuristic_tenth: bool,
    /// And at most these seconds.
    pub most_heuristic: u64,
    /// Lifetimes by status, where the response says nothing: the first of a status counts.
    pub lifetimes: &'a [StatusLifetime],
    /// Statuses that an odd request causes: never stored, unless an operator says for how long.
    pub never_stored: &'a [u16],
    /// The seconds for use while it is fetched anew, where the response says nothing and allows it (RFC 5861, 3).
    pub stale_while_revalidate: u64,
    /// The seconds for use after an error, likewise (RFC 5861, 4).
    pub stale_if_error: u64,
    /// The seconds for use where the origin gives no answer (RFC 9111, 4.2.4).
    pub stale_if_down: u64,
    /// Windows beside s-maxage count, against RFC 9111, 5.2.2.10.
    pub s_maxage_lets_stale: bool,
    /// The most parts of a 206; where more are asked for the whole is sent.
    pub most_ranges: u64,
    /// Names of request fields that don't reach the origin, in small letters.
    pub drops: &'a [&'a [u8]],
    /// The hosts that are served, in small letters; none: any.
    pub hosts: &'a [&'a [u8]],
    /// Methods that are answered by 501.
    pub refuses: &'a [&'a [u8]],
    /// X-Forwarded-For is added.
    pub forwards_for: bool,
    /// The hexadecimal digits of what boundaries of several parts are made by; empty: several parts are answered by the whole.
    pub secret: &'a [u8],
    /// The Host that the origin is sent; empty: the request's.
    pub origin_host: &'a [u8],
    /// What stands in front of the target that the origin is sent.
    pub origin_prefix: &'a [u8],
    /// Date counts for the age of a response (RFC 9111, 4.2.3); else its Age alone does.
    pub trusts_date: bool,
    /// Names of parts of a query that go; with a `*` at the end what a name begins with.
    pub query_drops: &'a [&'a [u8]],
    /// The parts of a query are put in the order of their names.
    pub query_sorts: bool,
    /// The codings that Accept-Encoding may name, in the order in which it then names them; none: it goes on as it came.
    pub encodings: &'a [&'a [u8]],
    /// The names of the cookies that stay; none is chosen: all.
    pub cookie_keeps: Option<&'a [&'a [u8]]>,
    /// Names of response fields that are neither stored nor shown, in small letters.
    pub response_drops: &'a [&'a [u8]],
    /// Lifetimes by status, whatever the response says: the first of a status counts.
    pub forced_lifetimes: &'a [StatusLifetime],
    /// private, no-store and no-cache of a response don't keep it from being stored.
    pub forces_private: bool,
}

impl Options<'_> {
    /// What holds where an operator chooses nothing.
    pub fn usual() -> Options<'static>
        ensures { chosen result ≡ usual }
    {
        Options {
            name: b"cache-tier",
            scheme: b"http",
            most_head: 65536,
            most_target: 16384,
            most_lines: 250,
            most_line: 8192,
            heeds_requests: true,
            authorized_reads: false,
            stores_cookies: false,
            fills_ranges: true,
            fills_heads: true,
            fills_conditions: true,
            folds_percent: false,
            targeted: TARGETED,
            heuristic_tenth: true,
            most_heuristic: 86400,
            lifetimes: &[],
            never_stored: NEVER_STORED,
            stale_while_revalidate: 0,
            stale_if_error: 0,
            stale_if_down: 0,
            s_maxage_lets_stale: false,
            most_ranges: 8,
            drops: &[],
            hosts: &[],
            refuses: REFUSES,
            forwards_for: false,
            secret: b"",
            origin_host: b"",
            origin_prefix: b"",
            trusts_date: true,
            query_drops: &[],
            query_sorts: false,
            encodings: &[],
            cookie_keeps: None,
            response_drops: &[],
            forced_lifetimes: &[],
            forces_private: false,
        }
    }
}

// The targeted field that counts where an operator names none.
const TARGETED: &[&[u8]] = &[b"cdn-cache-control"];

/// The statuses that are never stored where an operator names none.
pub const NEVER_STORED: &[u16] = &[
    400, 405, 406, 408, 411, 412, 413, 414, 415, 416, 417, 421, 425, 426, 428, 429, 431, 505,
];

// The methods that are refused where an operator names none.
const REFUSES: &[&[u8]] = &[b"CONNECT", b"TRACE"];

/// How a body ends (RFC 9112, 6.3).
#[derive(Clone, Copy, Debug, PartialEq, Eq)]
pub enum Framing {
    /// There is no body.
    None,
    /// After so many bytes.
    Length(u64),
    /// By its chunks.
    Chunked,
    /// When the connection closes.
    Close,
    /// There is none, since HEAD was sent; that of a GET would have so many bytes.
    HeadLength(u64),
}

impl Framing {
    /// The length that it states.
    pub fn stated(self) -> Option<u64>
        ensures { result ≡ stated self }
    {
        match self {
            Framing::Length(n) | Framing::HeadLength(n) => Some(n),
            _ => None,
        }
    }
}

/// A request's head as it was read. Its lines are end to end: without Connection, what that names, and the fields of the hop.
#[derive(Clone, Copy, Debug)]
pub struct Request<'a> {
    /// The method, byte for byte.
    pub method: &'a [u8],
    /// The scheme, in small letters.
    pub scheme: &'a [u8],
    /// The host, in small letters and without the scheme's own port; empty where HTTP/1.0 had none.
    pub host: &'a [u8],
    /// The target: a path with its query, or `*`.
    pub target: &'a [u8],
    /// The minor version of HTTP/1.
    pub minor: u8,
    /// The lines, end to end.
    pub lines: &'a [Line<'a>],
    /// How its body ends.
    pub framing: Framing,
    /// TE has `trailers`.
    pub takes_trailers: bool,
}

/// A response's head as it was read. Its lines are end to end, and without Content-Length.
#[derive(Clone, Copy, Debug)]
pub struct Response<'a> {
    /// The status.
    pub status: u16,
    /// The minor version of HTTP/1.
    pub minor: u8,
    /// The lines, end to end, without Content-Length.
    pub lines: &'a [Line<'a>],
    /// How its body ends.
    pub framing: Framing,
}

/// What is kept of a response, beside its body.
#[derive(Clone, Copy, Debug)]
pub struct Kept<'a> {
    /// The status.
    pub status: u16,
    /// The lines as they are stored; Content-Length is one of them.
    pub lines: &'a [Line<'a>],
    /// The moment at which its age was 0, in nanoseconds since 1970. It may lie before.
    pub arrival: i128,
    /// The seconds for which it is fresh.
    pub lifetime: u64,
    /// The seconds after that in which it may be used while it is fetched anew.
    pub stale_while_revalidate: u64,
    /// The seconds after that in which it may be used in the place of an error.
    pub stale_if_error: u64,
}
