//! A head, read by the quick reader and line by line: each number and each byte that either tells.
use crate::show;
use crate::values::{bytes, number};
use http1_message::request::read_request;
use http1_message::response::{date_text, read_dated};
use rules_ffi_arguments::shapes::{RequestShape, ResponseShape, Span};
use rules_fields::types::Options;
use rules_quick::plain::read_plain;
use rules_quick::response::read_plain_response;
use rules_quick::{told_request, told_response};
use serde_json::Value;
use std::alloc::{AllocError, Global};

/// Reads a request.
pub fn request(
    alloc: Global,
    value: &Value,
    options: &Options<'_>,
    out: &mut String,
) -> Result<(), AllocError> {
    let text = bytes(alloc, value, "request")?;
    let Some((quick, shape)) = read_plain(alloc, text.bytes(), options)? else {
        return show::word(out, "left");
    };
    let heard = read_request(alloc, text.bytes(), options)?;
    let (plain, other) = told_request::told(alloc, &heard, options)?;
    show::begin(out, "read")?;
    add_request(out, &shape, quick.as_slice())?;
    add_request(out, &other, plain.as_slice())?;
    show::end(out)
}

/// Reads a response to a GET.
pub fn response(
    alloc: Global,
    value: &Value,
    options: &Options<'_>,
    out: &mut String,
) -> Result<(), AllocError> {
    let text = bytes(alloc, value, "response")?;
    let date = date_text(number(value, "came"));
    let Some((quick, shape)) = read_plain_response(alloc, text.bytes(), date, options)? else {
        return show::word(out, "left");
    };
    let heard = read_dated(alloc, text.bytes(), b"GET", date, options)?;
    let (plain, other) = told_response::told(alloc, &heard)?;
    show::begin(out, "read")?;
    add_response(out, &shape, quick.as_slice())?;
    add_response(out, &other, plain.as_slice())?;
    show::end(out)
}

fn add_numbers(out: &mut String, numbers: &[u64]) -> Result<(), AllocError> {
    for number in numbers {
        show::add_number(out, *number)?;
    }
    Ok(())
}

fn add_spans(out: &mut String, spans: &[Span]) -> Result<(), AllocError> {
    for span in spans {
        add_numbers(out, &[span.from, span.to])?;
    }
    Ok(())
}

fn add_request(out: &mut String, it: &RequestShape, text: &[u8]) -> Result<(), AllocError> {
    add_numbers(
        out,
        &[
            it.status, it.needed, it.used, it.refusal, it.reason, it.plan, it.minor, it.framing,
            it.length, it.marks,
        ],
    )?;
    add_spans(
        out,
        &[
            it.method, it.host, it.target, it.key, it.lines, it.whole, it.asked,
        ],
    )?;
    show::add_text(out, text)
}

fn add_response(out: &mut String, it: &ResponseShape, text: &[u8]) -> Result<(), AllocError> {
    add_numbers(
        out,
        &[
            it.status, it.needed, it.used, it.reason, it.code, it.minor, it.framing, it.length,
            it.marks,
        ],
    )?;
    add_spans(out, &[it.lines, it.whole])?;
    add_numbers(out, &it.reserved)?;
    show::add_text(out, text)
}
