//! What a line gives.

use gateway_rules::moments::Moment;
use serde_json::Value;
use std::alloc::{AllocError, Global};

/// A member's number, 0 where there is none.
pub fn number(value: &Value, name: &str) -> u64 {
    match value.get(name) {
        Some(member) => member.as_u64().unwrap_or(0),
        None => 0,
    }
}

/// A member's text, which is empty where there is none.
pub fn text<'a>(value: &'a Value, name: &str) -> &'a str {
    match value.get(name) {
        Some(member) => member.as_str().unwrap_or(""),
        None => "",
    }
}

/// The bytes of a member's hexadecimal digits.
pub fn bytes(alloc: Global, value: &Value, name: &str) -> Result<Vec<u8>, AllocError> {
    match hex::decode(alloc, text(value, name)) {
        Ok(bytes) => Ok(bytes),
        Err(hex::FromHexError::OutOfMemory) => Err(AllocError),
        Err(_) => Ok(Vec::new(alloc)),
    }
}

/// A number of a list.
pub fn listed(value: &Value, name: &str, place: usize) -> u64 {
    match value.get(name) {
        Some(member) => number_at(member, place),
        None => 0,
    }
}

fn number_at(value: &Value, place: usize) -> u64 {
    match value.as_array() {
        Some(list) => match list.as_slice().get(place) {
            Some(member) => member.as_u64().unwrap_or(0),
            None => 0,
        },
        None => 0,
    }
}

/// A moment.
pub fn moment(value: &Value, name: &str) -> Moment {
    Moment {
        seconds: listed(value, name, 0),
        nanoseconds: listed(value, name, 1),
    }
}
