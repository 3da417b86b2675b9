//! Calls over a request.
use crate::calls::RequestCall;
use crate::values::{bytes, list, plain};
use crate::{lists, origins, show};
use http1_message::request::{HeardRequest, read_request};
use http1_message_parts::reason::Reason;
use rules_ffi_results::reasons::{reason_name, refusal_number};
use rules_fields::types::{Options, Request};
use rules_forward::purge::target_of;
use rules_reuse::keys::key;
use rules_reuse::planning::{Plan, Why, is_reload, only_if_cached, plan_of};
use rules_reuse::variants::secondary;
use serde_json::Value;
use std::alloc::{AllocError, Global};

/// What a call over a request gives.
pub fn answer(
    alloc: Global,
    call: RequestCall,
    value: &Value,
    options: &Options<'_>,
    out: &mut String,
) -> Result<(), AllocError> {
    let text = bytes(alloc, value, "request")?;
    match read_request(alloc, text.bytes(), options)? {
        HeardRequest::Read(head, _) => {
            let lines = head.lines(alloc)?;
            by_call(
                alloc,
                call,
                value,
                &head.request(lines.as_slice()),
                options,
                out,
            )
        }
        HeardRequest::More => show::word(out, "more"),
        HeardRequest::Refused(reason) => refused(out, reason),
    }
}

/// A request that is refused.
pub fn refused(out: &mut String, reason: Reason) -> Result<(), AllocError> {
    show::begin(out, "refused")?;
    show::add_number(out, reason.status() as u64)?;
    show::add_text(out, reason_name(refusal_number(reason)))?;
    show::end(out)
}

fn by_call(
    alloc: Global,
    call: RequestCall,
    value: &Value,
    request: &Request<'_>,
    options: &Options<'_>,
    out: &mut String,
) -> Result<(), AllocError> {
    match call {
        RequestCall::Key => first_key(alloc, request, options, out),
        RequestCall::Plan => plan(out, plan_of(alloc, request, options)?),
        RequestCall::IsReload => show::truth(out, is_reload(alloc, request, options)?),
        RequestCall::OnlyIfCached => show::truth(out, only_if_cached(alloc, request, options)?),
        RequestCall::Secondary => second_key(alloc, value, request, out),
        RequestCall::SecondKeys => lists::second_keys(alloc, value, request, options, out),
        RequestCall::Target => target(alloc, value, request, options, out),
        RequestCall::Forward => {
            origins::forwarded(alloc, request, plain(value, "peer"), options, out)
        }
        RequestCall::Fill => origins::filled(alloc, request, options, out),
    }
}

fn shown_key(out: &mut String, key: &[u8]) -> Result<(), AllocError> {
    show::begin(out, "key")?;
    show::add_text(out, key)?;
    show::end(out)
}

fn first_key(
    alloc: Global,
    request: &Request<'_>,
    options: &Options<'_>,
    out: &mut String,
) -> Result<(), AllocError> {
    let key = key(alloc, request, options)?;
    shown_key(out, key.as_slice())
}

fn second_key(
    alloc: Global,
    value: &Value,
    request: &Request<'_>,
    out: &mut String,
) -> Result<(), AllocError> {
    let names = list(alloc, value, "names")?;
    let key = secondary(alloc, names.as_slice(), request.lines)?;
    shown_key(out, key.as_slice())
}

fn target(
    alloc: Global,
    value: &Value,
    request: &Request<'_>,
    options: &Options<'_>,
    out: &mut String,
) -> Result<(), AllocError> {
    let text = bytes(alloc, value, "text")?;
    match target_of(alloc, request, text.bytes(), options)? {
        None => show::word(out, "none"),
        Some(key) => shown_key(out, key.as_slice()),
    }
}

fn plan(out: &mut String, plan: Plan) -> Result<(), AllocError> {
    match plan {
        Plan::Look => show::word(out, "look"),
        Plan::Pass(why) => {
            show::begin(out, "pass")?;
            show::add_text(out, why_word(why))?;
            show::end(out)
        }
        Plan::LastForward(status) => {
            show::begin(out, "last-forward")?;
            show::add_number(out, status as u64)?;
            show::end(out)
        }
        Plan::OnlyIfCached => show::word(out, "only-if-cached"),
    }
}

fn why_word(why: Why) -> &'static [u8] {
    match why {
        Why::Method => b"method",
        Why::Content => b"content",
        Why::Precondition => b"precondition",
        Why::NoStore => b"no-store",
    }
}
