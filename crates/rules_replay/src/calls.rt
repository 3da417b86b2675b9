//! Which calls there are.

/// A call over texts and lines alone.
#[derive(Clone, Copy)]
pub enum TextCall {
    HeadEnd,
    Digits,
    Seconds,
    Date,
    Tag,
    Tags,
    Elements,
    Directives,
    Targeted,
    Selecting,
    Listing,
    Arrival,
    Ranges,
    ReadRequest,
    ReadResponse,
    TwiceRequest,
    TwiceResponse,
    ErrorOf,
}

/// A call over a request.
#[derive(Clone, Copy)]
pub enum RequestCall {
    Key,
    Plan,
    IsReload,
    OnlyIfCached,
    Secondary,
    SecondKeys,
    Target,
    Forward,
    Fill,
}

/// A call over a request and what is kept.
#[derive(Clone, Copy)]
pub enum KeptCall {
    Use,
    MaySpare,
    Validate,
    Answer,
}

/// A call over a request and a response.
#[derive(Clone, Copy)]
pub enum ResponseCall {
    Judge,
    Moves,
    Told,
    Invalidates,
    Freshen,
    FreshenByHead,
    Renew,
}

/// A call.
#[derive(Clone, Copy)]
pub enum Call {
    OfText(TextCall),
    OfRequest(RequestCall),
    OfKept(KeptCall),
    OfResponse(ResponseCall),
    Unknown,
}

const NAMES: &[(&str, Call)] = &[
    ("head_end", Call::OfText(TextCall::HeadEnd)),
    ("digits", Call::OfText(TextCall::Digits)),
    ("seconds", Call::OfText(TextCall::Seconds)),
    ("date_of", Call::OfText(TextCall::Date)),
    ("tag_of", Call::OfText(TextCall::Tag)),
    ("tags_of", Call::OfText(TextCall::Tags)),
    ("elements", Call::OfText(TextCall::Elements)),
    ("directives", Call::OfText(TextCall::Directives)),
    ("targeted", Call::OfText(TextCall::Targeted)),
    ("selecting", Call::OfText(TextCall::Selecting)),
    ("listing", Call::OfText(TextCall::Listing)),
    ("arrival", Call::OfText(TextCall::Arrival)),
    ("ranges", Call::OfText(TextCall::Ranges)),
    ("read_request", Call::OfText(TextCall::ReadRequest)),
    ("read_response", Call::OfText(TextCall::ReadResponse)),
    ("twice_request", Call::OfText(TextCall::TwiceRequest)),
    ("twice_response", Call::OfText(TextCall::TwiceResponse)),
    ("error_of", Call::OfText(TextCall::ErrorOf)),
    ("key", Call::OfRequest(RequestCall::Key)),
    ("plan", Call::OfRequest(RequestCall::Plan)),
    ("is_reload", Call::OfRequest(RequestCall::IsReload)),
    ("only_if_cached", Call::OfRequest(RequestCall::OnlyIfCached)),
    ("secondary", Call::OfRequest(RequestCall::Secondary)),
    ("second_keys", Call::OfRequest(RequestCall::SecondKeys)),
    ("target_of", Call::OfRequest(RequestCall::Target)),
    ("forward", Call::OfRequest(RequestCall::Forward)),
    ("fill", Call::OfRequest(RequestCall::Fill)),
    ("use", Call::OfKept(KeptCall::Use)),
    ("may_spare", Call::OfKept(KeptCall::MaySpare)),
    ("validate", Call::OfKept(KeptCall::Validate)),
    ("answer", Call::OfKept(KeptCall::Answer)),
    ("judge", Call::OfResponse(ResponseCall::Judge)),
    ("moves", Call::OfResponse(ResponseCall::Moves)),
    ("told", Call::OfResponse(ResponseCall::Told)),
    ("invalidates", Call::OfResponse(ResponseCall::Invalidates)),
    ("freshen", Call::OfResponse(ResponseCall::Freshen)),
    (
        "freshen_by_head",
        Call::OfResponse(ResponseCall::FreshenByHead),
    ),
    ("renew", Call::OfResponse(ResponseCall::Renew)),
];

/// The call of a name.
pub fn call_of(name: &str) -> Call {
    for row in NAMES {
        if row.0 == name {
            return row.1;
        }
    }
    Call::Unknown
}
