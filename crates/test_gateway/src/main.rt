//! Each table of `gateway_rows` at all that it may be given: a line a table, a letter a row of what is given, in order. Then what `gateway_frames`
//! sends of bodies that look drawn. `stdout` is written by `tools/reference/gateway/rows_written.py` and `frames_written.py`, from the tables of the
//! gateway's reference and from what its client's side sends.
#![tactic(auto)]

mod bodies;
mod drawn;
mod frames;
mod looks;
mod responses;
mod shown;
mod waits;

use std::io;

fn main(rt: HostRuntime) -> io::Result<()> {
    looks::show(&rt)?;
    waits::show(&rt)?;
    responses::show(&rt)?;
    bodies::show(&rt)?;
    frames::show(&rt)
}
