//! Asks HTTP's rules: a line of JSON is a call, and what it gives is written as a line of JSON.
//!
//! Bytes are strings here, a character for each byte.
#![tactic(auto)]

mod answering;
mod answers;
mod calls;
mod judged;
mod lists;
mod options;
mod origins;
mod reading;
mod requests;
mod show;
mod stores;
mod texts;
mod twice;
mod values;

use std::io::{self, BufRead, BufReader};

fn main(rt: HostRuntime) -> io::Result<()> {
    for line in BufReader::new(rt.alloc(), rt.reader())?.lines(rt.alloc()) {
        let answer = answering::answer(rt.alloc(), line?.as_str())?;
        println!(rt; "{answer}")?;
    }
    Ok(())
}
