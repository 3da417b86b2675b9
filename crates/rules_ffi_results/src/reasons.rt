//! The numbers of reasons, and their names.
ghost use Rattle.std.specs.Prelude.{◌≡◌, map};
ghost use Rattle.rules_ffi_results.specs.Reasons.{refusal_number, reason_number, named, reason_name};

use http1_message_parts::reason::Reason as Refusal;
use rules_storage::reason::Reason;

/// The number of a refusal of a head.
pub fn refusal_number(reason: Refusal) -> u64
    ensures { result ≡ refusal_number reason }
{
    match reason {
        Refusal::TargetTooLong => 1,
        Refusal::HeadTooLong => 2,
        Refusal::BareLineEnd => 3,
        Refusal::BadRequestLine => 4,
        Refusal::Version => 5,
        Refusal::Method => 6,
        Refusal::TooManyFields => 7,
        Refusal::Folded => 8,
        Refusal::BlankBeforeColon => 9,
        Refusal::BadField => 10,
        Refusal::LengthAndCoding => 11,
        Refusal::BadLength => 12,
        Refusal::CodingIn10 => 13,
        Refusal::UnknownCoding => 14,
        Refusal::BadCoding => 15,
        Refusal::SeveralHosts => 16,
        Refusal::NoHost => 17,
        Refusal::BadHost => 18,
        Refusal::OtherScheme => 19,
        Refusal::OtherHost => 20,
        Refusal::BadTarget => 21,
        Refusal::BadStatusLine => 22,
        Refusal::Switched => 23,
        Refusal::FieldTooLong => 44,
    }
}

/// The number of why a response isn't stored.
pub fn reason_number(reason: Reason) -> u64
    ensures { result ≡ reason_number reason }
{
    match reason {
        Reason::Method => 6,
        Reason::NoStore => 27,
        Reason::Status => 28,
        Reason::Partial => 29,
        Reason::NotModified => 30,
        Reason::RequestNoStore => 31,
        Reason::NotUnderstood => 32,
        Reason::Private => 33,
        Reason::VaryAny => 34,
        Reason::Authorization => 35,
        Reason::SetCookie => 36,
        Reason::NoFreshness => 37,
        Reason::NeverUsable => 38,
        Reason::TooManyLines => 39,
        Reason::StoredIsGood => 42,
        Reason::NeverStore => 43,
    }
}

// The names of the reasons from 1 on.
const OF_HEADS: &[&[u8]] = &[
    b"target-too-long",
    b"head-too-long",
    b"bare-line-end",
    b"bad-request-line",
    b"version",
    b"method",
    b"too-many-fields",
    b"folded",
    b"blank-before-colon",
    b"bad-field",
    b"length-and-coding",
    b"bad-length",
    b"coding-in-1-0",
    b"unknown-coding",
    b"bad-coding",
    b"several-hosts",
    b"no-host",
    b"bad-host",
    b"other-scheme",
    b"other-host",
    b"bad-target",
    b"bad-status-line",
    b"switched",
    b"last-forward",
    b"content",
    b"precondition",
    b"no-store",
    b"status",
    b"partial",
    b"not-modified",
    b"request-no-store",
    b"not-understood",
    b"private",
    b"vary-any",
    b"authorization",
    b"set-cookie",
    b"no-freshness",
    b"never-usable",
    b"too-many-lines",
    b"bad-chunk",
    b"bad-trailer",
    b"stored-is-good",
    b"never-store",
    b"field-too-long",
];

// And from 50 on.
const OF_CALLERS: &[&[u8]] = &[
    b"no-answer",
    b"only-if-cached",
    b"stale-while-revalidate",
    b"stale-if-error",
    b"stale-if-down",
    b"purged",
    b"unstored",
    b"body-too-long",
    b"too-busy",
];

#[tactic(auto, using(crate::proofs::Named::named_at))]
fn named(names: &[&'static [u8]], place: u64) -> &'static [u8]
    ensures { result.now ≡ named (map (λ n. n.now) names.now) place }
{
    match names.get(place as usize) {
        None => b"",
        Some(name) => name,
    }
}

/// The name of a reason; empty of a number that is none.
pub fn reason_name(reason: u64) -> &'static [u8]
    ensures { result.now ≡ reason_name reason }
{
    match reason {
        0 => b"",
        1..=49 => named(OF_HEADS, reason - 1),
        _ => named(OF_CALLERS, reason - 50),
    }
}
