//! A gateway as a line says.

use crate::reading::{bytes, listed, moment, text};
use gateway_exchanges::limits::Limits;
use gateway_state::state::{Chosen, Gateway};
use rules_ffi_arguments::bad::Bad;
use rules_ffi_arguments::shapes::OptionNumbers;
use serde_json::Value;
use std::alloc::Global;

fn numbers(value: &Value) -> OptionNumbers {
    OptionNumbers {
        flags: listed(value, "numbers", 0),
        most_head: listed(value, "numbers", 1),
        most_target: listed(value, "numbers", 2),
        most_lines: listed(value, "numbers", 3),
        most_ranges: listed(value, "numbers", 4),
        most_heuristic: listed(value, "numbers", 5),
        stale_while_revalidate: listed(value, "numbers", 6),
        stale_if_error: listed(value, "numbers", 7),
        stale_if_down: listed(value, "numbers", 8),
        most_line: listed(value, "numbers", 9),
        reserved: [0, 0],
    }
}

fn limits(value: &Value) -> Limits {
    Limits {
        max_bytes: listed(value, "limits", 0),
        lock_age: listed(value, "limits", 1),
        lock_timeout: listed(value, "limits", 2),
        max_exchanges: listed(value, "limits", 3),
        max_body_bytes: listed(value, "limits", 4),
        max_relay_bytes: listed(value, "limits", 5),
        max_unread: listed(value, "limits", 6),
        max_interim_responses: listed(value, "limits", 7),
        first_byte_timeout: listed(value, "limits", 8),
        between_bytes_timeout: listed(value, "limits", 9),
        max_predicted: listed(value, "limits", 10),
        predicted_seconds: listed(value, "limits", 11),
        max_tail: listed(value, "limits", 12),
    }
}

/// A new gateway.
pub fn made(alloc: Global, value: &Value) -> Result<Gateway, Bad> {
    let secret = bytes(alloc, value, "secret")?;
    let chosen = Chosen {
        numbers: numbers(value),
        words: text(value, "words").as_bytes(),
        secret: secret.as_slice(),
        started: moment(value, "started"),
        limits: limits(value),
        hash_start: 0,
    };
    Gateway::new(alloc, &chosen)
}
