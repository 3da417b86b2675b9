//! A line's call, and its answer.

use crate::making::made;
use crate::reading::{bytes, moment, number, text};
use crate::showing::{shown, word};
use gateway::calls;
use gateway_exchanges::outs::Out;
use gateway_rules::requests::ParsedRequest;
use gateway_state::state::Gateway;
use gateway_types::bodies::Why;
use rules_ffi_arguments::bad::Bad;
use serde_json::Value;
use std::alloc::{AllocError, Global};

/// What the call of a line answers. The only error is out of memory.
pub fn answer(alloc: Global, line: &str, held: &mut Option<Gateway>) -> Result<String, AllocError> {
    let mut text = String::new(alloc);
    match Value::from_str(alloc, line) {
        Ok(value) => called(alloc, &value, held, &mut text)?,
        Err(error) if error.is_memory() => return Err(AllocError),
        Err(_) => word(&mut text, "unreadable")?,
    }
    Ok(text)
}

fn called(
    alloc: Global,
    value: &Value,
    held: &mut Option<Gateway>,
    to: &mut String,
) -> Result<(), AllocError> {
    if text(value, "call") == "open" {
        return match made(alloc, value) {
            Ok(gateway) => {
                *held = Some(gateway);
                word(to, "done")
            }
            Err(_) => word(to, "bad_argument"),
        };
    }
    match held {
        Some(gateway) => asked(alloc, value, gateway, to),
        None => word(to, "closed"),
    }
}

fn asked(
    alloc: Global,
    value: &Value,
    gateway: &mut Gateway,
    to: &mut String,
) -> Result<(), AllocError> {
    let given = bytes(alloc, value, "bytes")?;
    match text(value, "call") {
        "parse" => parsed(value, gateway, given.as_slice(), to),
        "start" => started(alloc, value, gateway, given.as_slice(), to),
        "counts" => {
            let open = gateway.exchanges();
            write_number(to, open as u64)
        }
        "purge" => shown(to, &calls::purge(gateway, given.as_slice())),
        "purge_key" => shown(to, &calls::purge_key(gateway, given.as_slice())),
        "purge_all" => shown(to, &calls::purge_all(gateway, moment(value, "now"))),
        "stop" => {
            calls::stop(gateway);
            word(to, "done")
        }
        name => match of_exchange(value, gateway, name, given.as_slice()) {
            Some(out) => shown(to, &out),
            None => word(to, "unknown"),
        },
    }
}

fn write_number(to: &mut String, number: u64) -> Result<(), AllocError> {
    let mut buffer = itoa::Buffer::new();
    to.push_str("{\"exchanges\": ")?;
    to.push_str(buffer.format(number))?;
    to.push_str("}")
}

fn parsed(
    value: &Value,
    gateway: &Gateway,
    given: &[u8],
    to: &mut String,
) -> Result<(), AllocError> {
    match calls::parse_request(gateway, given, number(value, "looked")) {
        Ok(ParsedRequest::More) => word(to, "more"),
        Ok(ParsedRequest::Head(_)) => word(to, "done"),
        Err(Bad::Memory) => Err(AllocError),
        Err(Bad::Call) => word(to, "bad_argument"),
    }
}

fn started(
    alloc: Global,
    value: &Value,
    gateway: &mut Gateway,
    given: &[u8],
    to: &mut String,
) -> Result<(), AllocError> {
    let peer = bytes(alloc, value, "peer")?;
    match calls::parse_request(gateway, given, 0) {
        Ok(ParsedRequest::More) => word(to, "more"),
        Ok(ParsedRequest::Head(head)) => {
            let out = calls::start(gateway, moment(value, "now"), head, peer.as_slice());
            shown(to, &out)
        }
        Err(Bad::Memory) => Err(AllocError),
        Err(Bad::Call) => word(to, "bad_argument"),
    }
}

fn why(value: &Value) -> Option<Why> {
    match text(value, "why") {
        "clean" => Some(Why::Clean),
        "failed" => Some(Why::Failed),
        "timeout" => Some(Why::Timeout),
        "unused" => Some(Why::Unused),
        _ => None,
    }
}

// A call about an exchange.
fn of_exchange(value: &Value, gateway: &mut Gateway, name: &str, given: &[u8]) -> Option<Out> {
    let now = moment(value, "now");
    let x = number(value, "exchange");
    match name {
        "poll" => Some(calls::poll(gateway, now, x)),
        "client_closed" => Some(calls::client_closed(gateway, now, x)),
        "request_data" => Some(calls::request_data(gateway, now, x, given)),
        "response_head" => Some(calls::response_head(gateway, now, x, given)),
        "response_data" => Some(calls::response_data(gateway, now, x, given)),
        "origin_closed" => match why(value) {
            Some(why) => Some(calls::origin_closed(gateway, now, x, why)),
            None => None,
        },
        _ => None,
    }
}
