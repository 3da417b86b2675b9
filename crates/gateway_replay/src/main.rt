//! Replays calls of a gateway: a line of JSON is a call, and what it answers is written as a line of JSON. Bytes are hexadecimal digits; a moment is a list
//! of seconds and nanoseconds.
//!
//!     {"call": "open", "numbers": [flags, most_head, ..], "words": "..", "secret": "..", "started": [s, n], "limits": [max_bytes, lock_age, ..]}
//!     {"call": "parse", "bytes": "..", "looked": n}
//!     {"call": "start", "now": [s, n], "bytes": "..", "peer": ".."}                  the head of a request, which is parsed first
//!     {"call": "poll" or "client_closed", "now": [s, n], "exchange": x}
//!     {"call": "request_data", "response_head" or "response_data", "now": [s, n], "exchange": x, "bytes": ".."}
//!     {"call": "origin_closed", "now": [s, n], "exchange": x, "why": "clean", "failed", "timeout" or "unused"}
//!     {"call": "purge" or "purge_key", "bytes": ".."}
//!     {"call": "purge_all", "now": [s, n]}
//!     {"call": "counts" or "stop"}
//!
//! `open` begins a new gateway. An answer has what a call says: `data` is all that the client is sent, whatever the pieces; keys in `events` and
//! `evicted` are named by their digests.
#![tactic(auto)]

mod calling;
mod making;
mod reading;
mod showing;

use gateway_state::state::Gateway;
use std::io::{self, BufRead, BufReader};

fn main(rt: HostRuntime) -> io::Result<()> {
    let mut held: Option<Gateway> = None;
    for line in BufReader::new(rt.alloc(), rt.reader())?.lines(rt.alloc()) {
        let answer = calling::answer(rt.alloc(), line?.as_str(), &mut held)?;
        println!(rt; "{answer}")?;
    }
    Ok(())
}
