//! Reading heads, and calls over a request and a response.
use crate::calls::ResponseCall;
use crate::requests::refused;
use crate::values::{bytes, kept, list, number, plain, rows};
use crate::{answers, judged, show};
use http1_message::request::{HeardRequest, RequestHead, read_request};
use http1_message::response::{HeardResponse, ResponseHead, read_response};
use http1_message_parts::reason::Reason;
use http1_message_parts::text::lines_of;
use rules_ffi_results::reasons::{reason_name, refusal_number};
use rules_fields::lines::without;
use rules_fields::types::{Kept, Options, Request, Response};
use rules_forward::purge::invalidates;
use rules_response::confirming::{Merged, freshen, freshen_by_head, stored_from};
use rules_response::telling::{Fetch, told_reply};
use serde_json::Value;
use std::alloc::{AllocError, Global};

/// Reads a request.
pub fn request(
    alloc: Global,
    value: &Value,
    options: &Options<'_>,
    out: &mut String,
) -> Result<(), AllocError> {
    let text = bytes(alloc, value, "request")?;
    match read_request(alloc, text.bytes(), options)? {
        HeardRequest::Read(head, len) => request_read(alloc, out, &head, len),
        HeardRequest::More => show::word(out, "more"),
        HeardRequest::Refused(reason) => refused(out, reason),
    }
}

fn request_read(
    alloc: Global,
    out: &mut String,
    head: &RequestHead<'_>,
    len: usize,
) -> Result<(), AllocError> {
    let lines = head.lines(alloc)?;
    show::begin(out, "request")?;
    show::add_text(out, head.method)?;
    show::add_text(out, head.scheme)?;
    show::add_text(out, head.host.as_slice())?;
    show::add_text(out, head.target.bytes())?;
    show::add_number(out, head.minor as u64)?;
    show::add_lines(out, lines.as_slice())?;
    show::add_framing(out, head.framing)?;
    show::add_names(out, head.connection.as_slice())?;
    show::add_number(out, head.takes_trailers as u64)?;
    show::add_number(out, len as u64)?;
    show::end(out)
}

/// Reads a response.
pub fn response(
    alloc: Global,
    value: &Value,
    options: &Options<'_>,
    out: &mut String,
) -> Result<(), AllocError> {
    let text = bytes(alloc, value, "response")?;
    let method = plain(value, "method");
    match read_response(alloc, text.bytes(), method, number(value, "came"), options)? {
        HeardResponse::Read(head, len) => response_read(alloc, out, &head, len),
        HeardResponse::More => show::word(out, "more"),
        HeardResponse::Refused(reason) => refused_response(out, reason),
    }
}

fn refused_response(out: &mut String, reason: Reason) -> Result<(), AllocError> {
    show::begin(out, "refused")?;
    show::add_number(out, 502)?;
    show::add_text(out, reason_name(refusal_number(reason)))?;
    show::end(out)
}

fn response_read(
    alloc: Global,
    out: &mut String,
    head: &ResponseHead<'_>,
    len: usize,
) -> Result<(), AllocError> {
    let lines = head.lines(alloc)?;
    show::begin(out, "response")?;
    show::add_number(out, head.status as u64)?;
    show::add_number(out, head.minor as u64)?;
    show::add_lines(out, lines.as_slice())?;
    show::add_framing(out, head.framing)?;
    show::add_number(out, head.closes as u64)?;
    show::add_number(out, len as u64)?;
    show::end(out)
}

/// What a call over a request and a response gives.
pub fn answer(
    alloc: Global,
    call: ResponseCall,
    value: &Value,
    options: &Options<'_>,
    out: &mut String,
) -> Result<(), AllocError> {
    let text = bytes(alloc, value, "request")?;
    match read_request(alloc, text.bytes(), options)? {
        HeardRequest::Read(head, _) => {
            let lines = head.lines(alloc)?;
            let request = head.request(lines.as_slice());
            over_response(alloc, call, value, &request, options, out)
        }
        HeardRequest::More => show::word(out, "more"),
        HeardRequest::Refused(reason) => refused(out, reason),
    }
}

fn over_response(
    alloc: Global,
    call: ResponseCall,
    value: &Value,
    request: &Request<'_>,
    options: &Options<'_>,
    out: &mut String,
) -> Result<(), AllocError> {
    let text = bytes(alloc, value, "response")?;
    let method = plain(value, "method");
    match read_response(alloc, text.bytes(), method, number(value, "came"), options)? {
        HeardResponse::Read(head, _) => over_head(alloc, call, value, request, &head, options, out),
        HeardResponse::More => show::word(out, "more"),
        HeardResponse::Refused(reason) => refused_response(out, reason),
    }
}

fn over_head(
    alloc: Global,
    call: ResponseCall,
    value: &Value,
    request: &Request<'_>,
    head: &ResponseHead<'_>,
    options: &Options<'_>,
    out: &mut String,
) -> Result<(), AllocError> {
    let lines = head.lines(alloc)?;
    let response = head.response(lines.as_slice());
    match call {
        ResponseCall::Judge | ResponseCall::Moves => {
            judged::answer(alloc, call, value, request, &response, options, out)
        }
        ResponseCall::Told => handed_on(alloc, value, request, &response, options, out),
        ResponseCall::Invalidates => purged(alloc, request, &response, options, out),
        _ => over_kept(alloc, call, value, request, &response, options, out),
    }
}

fn handed_on(
    alloc: Global,
    value: &Value,
    request: &Request<'_>,
    response: &Response<'_>,
    options: &Options<'_>,
    out: &mut String,
) -> Result<(), AllocError> {
    let drops = match fetch_of(plain(value, "fetch")) {
        Fetch::PassOn => false,
        _ => !options.response_drops.is_empty(),
    };
    if !drops {
        return told(alloc, value, request, response, options, out);
    }
    let lines = without(alloc, response.lines, options.response_drops)?;
    let shown = Response {
        lines: lines.as_slice(),
        ..*response
    };
    told(alloc, value, request, &shown, options, out)
}

fn told(
    alloc: Global,
    value: &Value,
    request: &Request<'_>,
    response: &Response<'_>,
    options: &Options<'_>,
    out: &mut String,
) -> Result<(), AllocError> {
    let how = list(alloc, value, "how")?;
    let (asked, came) = (number(value, "asked"), number(value, "came"));
    let reply = told_reply(
        alloc,
        fetch_of(plain(value, "fetch")),
        request,
        response,
        asked,
        came,
        how.as_slice(),
        options,
    )?;
    answers::answer(out, &reply)
}

fn fetch_of(word: &[u8]) -> Fetch {
    if word == b"fill".as_slice() {
        Fetch::Fill
    } else if word == b"confirm".as_slice() {
        Fetch::Confirm
    } else if word == b"again".as_slice() {
        Fetch::Again
    } else {
        Fetch::PassOn
    }
}

fn purged(
    alloc: Global,
    request: &Request<'_>,
    response: &Response<'_>,
    options: &Options<'_>,
    out: &mut String,
) -> Result<(), AllocError> {
    let keys = invalidates(alloc, request, response, options)?;
    show::begin(out, "keys")?;
    for key in keys.iter() {
        show::add_text(out, key.as_slice())?;
    }
    show::end(out)
}

fn over_kept(
    alloc: Global,
    call: ResponseCall,
    value: &Value,
    request: &Request<'_>,
    response: &Response<'_>,
    options: &Options<'_>,
    out: &mut String,
) -> Result<(), AllocError> {
    let Some(member) = value.get("kept") else {
        return show::word(out, "none");
    };
    let rows = rows(alloc, member, "lines")?;
    let lines = lines_of(alloc, rows.as_slice())?;
    let kept = kept(member, lines.as_slice());
    match merged(alloc, call, value, &kept, response)? {
        None => show::word(out, "none"),
        Some(merged) => match call {
            ResponseCall::Renew => {
                let stored = stored_from(alloc, &kept, response, &merged, options)?;
                let judged = stored.as_ref().unwrap_or(&merged);
                let code = response.status;
                renewed(alloc, value, request, judged, &kept, code, options, out)
            }
            _ => shown_merged(out, &merged),
        },
    }
}

fn merged<'a>(
    alloc: Global,
    call: ResponseCall,
    value: &Value,
    kept: &Kept<'a>,
    response: &Response<'a>,
) -> Result<Option<Merged<'a>>, AllocError> {
    match call {
        ResponseCall::FreshenByHead => {
            freshen_by_head(alloc, kept, number(value, "length"), response)
        }
        _ => freshen(alloc, kept, response),
    }
}

fn renewed(
    alloc: Global,
    value: &Value,
    request: &Request<'_>,
    merged: &Merged<'_>,
    kept: &Kept<'_>,
    code: u16,
    options: &Options<'_>,
    out: &mut String,
) -> Result<(), AllocError> {
    let (asked, came) = (number(value, "asked"), number(value, "came"));
    let judged = merged.judge(alloc, request, asked, came, kept, code, options)?;
    answers::judged(out, &judged, request)
}

fn shown_merged(out: &mut String, merged: &Merged<'_>) -> Result<(), AllocError> {
    show::begin(out, "response")?;
    show::add_number(out, merged.status as u64)?;
    show::add_number(out, merged.minor as u64)?;
    show::add_lines(out, merged.lines.as_slice())?;
    show::add_framing(out, merged.framing)?;
    show::end(out)
}
