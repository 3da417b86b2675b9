//! The tables of names, methods and statuses that the rules speak of. A name that is asked for may be in any case.
ghost use Rattle.std.specs.Prelude.{◌≡◌, map};
ghost use Rattle.rules_fields.specs.Texts.{small};
ghost use Rattle.rules_fields.specs.Tables.{among, is_safe, is_heuristic, is_understood, is_error, hop, asked, needed, small_valued, list_valued, in_seconds};

use crate::blanks::is_small;

/// The directives that the rules ask of a response (RFC 9111, 5.2.2; RFC 5861).
pub const DIRECTIVES: &[&[u8]] = &[
    b"max-age",
    b"s-maxage",
    b"no-cache",
    b"no-store",
    b"private",
    b"public",
    b"must-revalidate",
    b"proxy-revalidate",
    b"must-understand",
    b"stale-while-revalidate",
    b"stale-if-error",
];

/// Whether a name is one of these, which are in small letters.
pub fn among(names: &[&[u8]], name: &[u8]) -> bool
    ensures { result ≡ among (map (λ n. n.now) names.now) (small name.now) }
{
    for n in names {
        if is_small(name, n) {
            return true;
        }
    }
    false
}

/// The fields of one hop (RFC 9110, 7.6.1; RFC 9111, 3.1).
pub const HOP: &[&[u8]] = &[
    b"connection",
    b"keep-alive",
    b"proxy-connection",
    b"proxy-authenticate",
    b"proxy-authorization",
    b"proxy-authentication-info",
    b"te",
    b"transfer-encoding",
    b"upgrade",
    b"http2-settings",
];

/// Whether it is a field of one hop.
pub fn is_hop(name: &[u8]) -> bool
    ensures { result ≡ among hop (small name.now) }
{
    among(HOP, name)
}

/// The fields that a proxy writes itself.
pub const FRAMES: &[&[u8]] = &[b"content-length", b"host", b"expect"];

/// The fields of conditions (RFC 9110, 13.1).
pub const CONDITIONS: &[&[u8]] = &[
    b"if-none-match",
    b"if-modified-since",
    b"if-match",
    b"if-unmodified-since",
    b"if-range",
];

/// The fields of ranges (RFC 9110, 13.1.5 and 14.2).
pub const RANGE_FIELDS: &[&[u8]] = &[b"range", b"if-range"];

/// The conditions that go along with the whole.
pub const WHOLE_CONDITIONS: &[&[u8]] = &[
    b"if-none-match",
    b"if-modified-since",
    b"if-match",
    b"if-unmodified-since",
];

/// The fields of a request that decide whether and how what is stored answers (RFC 9110, 13.1 and 14; RFC 9111, 3.5 and 5.2.1). No other is read
/// by `use_of`, `may_spare`, `matches`, `range_counts` and `chosen_parts`.
pub const ASKED: &[&[u8]] = &[
    b"authorization",
    b"cache-control",
    b"pragma",
    b"if-none-match",
    b"if-modified-since",
    b"range",
    b"if-range",
];

/// Whether what is stored answers by this field.
pub fn is_asked(name: &[u8]) -> bool
    ensures { result ≡ among asked (small name.now) }
{
    among(ASKED, name)
}

/// The fields that a cache itself reads: where `private` or `no-cache` lists one, that counts as unlisted.
pub const NEEDED: &[&[u8]] = &[
    b"cache-control",
    b"cdn-cache-control",
    b"surrogate-control",
    b"vary",
    b"date",
    b"age",
    b"expires",
    b"etag",
    b"last-modified",
    b"content-type",
    b"content-encoding",
    b"content-range",
    b"content-length",
];

/// Whether a cache itself reads this field.
pub fn is_needed(name: &[u8]) -> bool
    ensures { result ≡ among needed (small name.now) }
{
    among(NEEDED, name)
}

/// The fields that a 304 doesn't update, since the stored body depends on them (RFC 9111, 3.2).
pub const NOT_UPDATED: &[&[u8]] = &[
    b"content-length",
    b"content-encoding",
    b"content-range",
    b"trailer",
];

/// The fields that an own 304 leaves out (RFC 9110, 15.4.5).
pub const NOT_IN_304: &[&[u8]] = &[
    b"content-type",
    b"content-encoding",
    b"content-language",
    b"content-length",
    b"content-range",
];

/// The fields whose values are the same in any case.
pub const SMALL: &[&[u8]] = &[b"accept-encoding", b"accept-language", b"accept-charset"];

/// Whether this field's values are the same in any case.
pub fn is_small_valued(name: &[u8]) -> bool
    ensures { result ≡ among small_valued (small name.now) }
{
    among(SMALL, name)
}

/// The request fields whose lines are one list, of which blanks round commas are no part (RFC 9110, 5.6.1).
pub const LISTED: &[&[u8]] = &[
    b"accept",
    b"accept-charset",
    b"accept-encoding",
    b"accept-language",
    b"access-control-request-headers",
    b"cache-control",
    b"pragma",
    b"prefer",
    b"te",
    b"x-forwarded-for",
];

/// Whether this field's lines are one list.
pub fn is_list_valued(name: &[u8]) -> bool
    ensures { result ≡ among list_valued (small name.now) }
{
    among(LISTED, name)
}

/// The directives whose value is a number of seconds.
pub const IN_SECONDS: &[&[u8]] = &[
    b"max-age",
    b"s-maxage",
    b"stale-while-revalidate",
    b"stale-if-error",
];

/// Whether this directive's value is a number of seconds.
pub fn is_in_seconds(name: &[u8]) -> bool
    ensures { result ≡ among in_seconds (small name.now) }
{
    among(IN_SECONDS, name)
}

/// Whether a method, byte for byte, changes nothing at the origin (RFC 9110, 9.2.1).
pub fn is_safe(method: &[u8]) -> bool
    ensures { result ≡ is_safe method.now }
{
    method == b"GET".as_slice()
        || method == b"HEAD".as_slice()
        || method == b"OPTIONS".as_slice()
        || method == b"TRACE".as_slice()
}

/// Whether a cache may guess how long responses of this status are fresh (RFC 9110, 15.1, but for 206).
pub fn is_heuristic(status: u16) -> bool
    ensures { result ≡ is_heuristic status }
{
    matches!(
        status,
        200 | 203 | 204 | 300 | 301 | 308 | 404 | 405 | 410 | 414 | 501
    )
}

/// Whether a cache knows what a status means (RFC 9110, 15, but for 206 and 304).
pub fn is_understood(status: u16) -> bool
    ensures { result ≡ is_understood status }
{
    matches!(
        status,
        200..=205 | 300..=303 | 305 | 307..=308 | 400..=417 | 421..=422 | 426 | 500..=505
    )
}

/// Whether a status is an error in whose place something stale may answer (RFC 5861, 4).
pub fn is_error(status: u16) -> bool
    ensures { result ≡ is_error status }
{
    matches!(status, 500 | 502 | 503 | 504)
}
