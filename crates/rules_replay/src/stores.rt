//! Calls over a request and what is kept.
use crate::calls::KeptCall;
use crate::requests::refused;
use crate::values::{bytes, kept, list, number, optional, rows, status};
use crate::{answers, show};
use http1_message::request::{HeardRequest, read_request};
use http1_message_parts::text::lines_of;
use rules_fields::types::{Kept, Options, Request};
use rules_forward::send::validate;
use rules_response::answering::answer_of;
use rules_reuse::using::{Use, may_spare, use_of};
use serde_json::Value;
use std::alloc::{AllocError, Global};

/// What a call over a request and what is kept gives.
pub fn answer(
    alloc: Global,
    call: KeptCall,
    value: &Value,
    options: &Options<'_>,
    out: &mut String,
) -> Result<(), AllocError> {
    let text = bytes(alloc, value, "request")?;
    match read_request(alloc, text.bytes(), options)? {
        HeardRequest::Read(head, _) => {
            let lines = head.lines(alloc)?;
            over_kept(
                alloc,
                call,
                value,
                &head.request(lines.as_slice()),
                options,
                out,
            )
        }
        HeardRequest::More => show::word(out, "more"),
        HeardRequest::Refused(reason) => refused(out, reason),
    }
}

fn over_kept(
    alloc: Global,
    call: KeptCall,
    value: &Value,
    request: &Request<'_>,
    options: &Options<'_>,
    out: &mut String,
) -> Result<(), AllocError> {
    let Some(member) = value.get("kept") else {
        return show::word(out, "none");
    };
    let rows = rows(alloc, member, "lines")?;
    let lines = lines_of(alloc, rows.as_slice())?;
    let kept = kept(member, lines.as_slice());
    by_call(alloc, call, value, request, &kept, options, out)
}

fn by_call(
    alloc: Global,
    call: KeptCall,
    value: &Value,
    request: &Request<'_>,
    kept: &Kept<'_>,
    options: &Options<'_>,
    out: &mut String,
) -> Result<(), AllocError> {
    let now = number(value, "now");
    match call {
        KeptCall::Use => show::word(out, use_word(use_of(alloc, request, kept, now, options)?)),
        KeptCall::MaySpare => {
            let failure = status(value, "status");
            show::truth(out, may_spare(alloc, request, kept, now, failure, options)?)
        }
        KeptCall::Validate => validation(alloc, request, kept, out),
        KeptCall::Answer => answered(alloc, value, request, kept, options, out),
    }
}

fn use_word(chosen: Use) -> &'static str {
    match chosen {
        Use::Fresh => "fresh",
        Use::Stale => "stale",
        Use::Meanwhile => "meanwhile",
        Use::Validate => "validate",
        Use::Pass => "pass",
    }
}

fn validation(
    alloc: Global,
    request: &Request<'_>,
    kept: &Kept<'_>,
    out: &mut String,
) -> Result<(), AllocError> {
    match validate(alloc, request, kept)? {
        None => show::word(out, "none"),
        Some(lines) => {
            show::begin(out, "lines")?;
            show::add_lines(out, lines.as_slice())?;
            show::end(out)
        }
    }
}

fn answered(
    alloc: Global,
    value: &Value,
    request: &Request<'_>,
    kept: &Kept<'_>,
    options: &Options<'_>,
    out: &mut String,
) -> Result<(), AllocError> {
    let how = list(alloc, value, "how")?;
    let length = optional(value, "length");
    let now = number(value, "now");
    let boundary = match value.get("boundary") {
        Some(member) => member.as_str(),
        None => None,
    };
    let boundary = boundary.map(|text| text.as_bytes());
    let answer = answer_of(
        alloc,
        request,
        kept,
        length,
        now,
        boundary,
        how.as_slice(),
        options,
    )?;
    answers::answer(out, &answer)
}
