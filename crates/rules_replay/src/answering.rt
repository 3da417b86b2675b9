//! A line's answer.
use crate::calls::{Call, call_of};
use crate::options::{OptionLists, lists, options};
use crate::{reading, requests, show, stores, texts};
use rules_fields::types::Options;
use serde_json::Value;
use std::alloc::{AllocError, Global};

/// What the call of a line gives. The only error is out of memory.
pub fn answer(alloc: Global, line: &str) -> Result<String, AllocError> {
    let mut out = String::new(alloc);
    match Value::from_str(alloc, line) {
        Ok(value) => asked(alloc, &value, &mut out)?,
        Err(error) if error.is_memory() => return Err(AllocError),
        Err(_) => show::word(&mut out, "unreadable")?,
    }
    Ok(out)
}

fn asked(alloc: Global, value: &Value, out: &mut String) -> Result<(), AllocError> {
    match value.get("options") {
        Some(chosen) => called(alloc, value, chosen, out),
        None => called(alloc, value, &Value::Null, out),
    }
}

fn called(
    alloc: Global,
    value: &Value,
    chosen: &Value,
    out: &mut String,
) -> Result<(), AllocError> {
    let lists = lists(alloc, chosen)?;
    with_lists(alloc, value, chosen, &lists, out)
}

fn with_lists(
    alloc: Global,
    value: &Value,
    chosen: &Value,
    lists: &OptionLists<'_>,
    out: &mut String,
) -> Result<(), AllocError> {
    let options = options(chosen, lists);
    by_call(alloc, value, name(value), &options, out)
}

fn name(value: &Value) -> &str {
    match value.get("call") {
        Some(member) => member.as_str().unwrap_or(""),
        None => "",
    }
}

fn by_call(
    alloc: Global,
    value: &Value,
    name: &str,
    options: &Options<'_>,
    out: &mut String,
) -> Result<(), AllocError> {
    match call_of(name) {
        Call::OfText(call) => texts::answer(alloc, call, value, options, out),
        Call::OfRequest(call) => requests::answer(alloc, call, value, options, out),
        Call::OfKept(call) => stores::answer(alloc, call, value, options, out),
        Call::OfResponse(call) => reading::answer(alloc, call, value, options, out),
        Call::Unknown => show::word(out, "unknown"),
    }
}
