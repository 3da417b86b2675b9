//! Whether a response is stored, and what becomes of what was found.
use crate::calls::ResponseCall;
use crate::values::{bytes, kept, number, plain, rows};
use crate::{answers, show};
use http1_message_parts::text::lines_of;
use rules_ffi::judging::moves;
use rules_fields::types::{Kept, Options, Request, Response};
use rules_storage::judging::judge;
use serde_json::Value;
use std::alloc::{AllocError, Global};

/// What a call over a response and what was found gives.
pub fn answer(
    alloc: Global,
    call: ResponseCall,
    value: &Value,
    request: &Request<'_>,
    response: &Response<'_>,
    options: &Options<'_>,
    out: &mut String,
) -> Result<(), AllocError> {
    let Some(member) = value.get("found") else {
        return by_call(alloc, call, value, request, response, None, options, out);
    };
    let rows = rows(alloc, member, "lines")?;
    let lines = lines_of(alloc, rows.as_slice())?;
    let found = kept(member, lines.as_slice());
    by_call(
        alloc,
        call,
        value,
        request,
        response,
        Some(&found),
        options,
        out,
    )
}

fn by_call(
    alloc: Global,
    call: ResponseCall,
    value: &Value,
    request: &Request<'_>,
    response: &Response<'_>,
    found: Option<&Kept<'_>>,
    options: &Options<'_>,
    out: &mut String,
) -> Result<(), AllocError> {
    match call {
        ResponseCall::Moves => moved(alloc, value, found, response, out),
        _ => judged(alloc, value, request, response, found, options, out),
    }
}

fn moved(
    alloc: Global,
    value: &Value,
    found: Option<&Kept<'_>>,
    response: &Response<'_>,
    out: &mut String,
) -> Result<(), AllocError> {
    let list = bytes(alloc, value, "list")?;
    let came = number(value, "came");
    show::truth(out, moves(alloc, list.bytes(), found, response, came)?)
}

fn judged(
    alloc: Global,
    value: &Value,
    request: &Request<'_>,
    response: &Response<'_>,
    found: Option<&Kept<'_>>,
    options: &Options<'_>,
    out: &mut String,
) -> Result<(), AllocError> {
    let method = plain(value, "method");
    let (asked, came) = (number(value, "asked"), number(value, "came"));
    let code = response.status;
    let judged = judge(
        alloc, request, method, response, asked, came, found, code, options,
    )?;
    answers::judged(out, &judged, request)
}
