//! Handing on what was answered.
ghost use Rattle.std.specs.Prelude.{◌≡◌, ℕ, List, [], ◌≤◌, length, take, IfOk, OnOk, OnErr, IfErr};
ghost use Rattle.std.specs.Io.KnownBytes.{Appends, Keeps};
ghost use Rattle.trace_replay.specs.Outputs.{HasBegun};
ghost use Rattle.trace_replay.specs.Errors.{IsOther};

use crate::replay::ReplayError;
use std::io::{self, Write};

// After more bytes that waited no room for as many is kept.
const MOST_KEPT: usize = 1 << 20;

// Writes what is waiting, and hands it on.
pub(crate) fn hand_on<W: Write>(waiting: &mut Vec<u8>, writer: &mut W) -> Result<(), ReplayError>
    ensures written { OnOk result (Appends (W.contents writer.old) (W.contents writer.new) waiting.old.items × (waiting.new.items ≡ [])) }
    ensures begun { OnErr result (HasBegun (W.contents writer.old) (W.contents writer.new) waiting.old.items) }
    ensures other { IfErr result IsOther }
{
    if waiting.is_empty() {
        return Ok(());
    }
    write(writer, waiting.as_slice())?;
    waiting.clear();
    waiting.shrink_to(MOST_KEPT);
    Ok(())
}

// Writes a text whole, and hands it on. What an error leaves is a beginning of the text.
fn write<W: Write>(writer: &mut W, text: &[u8]) -> io::Result<()>
    ensures written { OnOk result (Appends (W.contents writer.old) (W.contents writer.new) text.now) }
    ensures begun { OnErr result (HasBegun (W.contents writer.old) (W.contents writer.new) text.now) }
{
    let mut rest = text;
    for _ in 0..u64::MAX {
        if rest.is_empty() {
            return writer.flush();
        }
        let count = write_some(writer, rest)?;
        if count == 0 {
            return Err(io::Error::from(io::ErrorKind::WriteZero));
        }
        rest = &rest[count..];
    }
    Err(io::Error::from(io::ErrorKind::Other))
}

// One write, tried again where a signal interrupted it.
fn write_some<W: Write>(writer: &mut W, text: &[u8]) -> io::Result<usize>
    ensures within { IfOk result (λ n. n ≤ length text.now) }
    ensures bytes { IfOk result (λ n. Appends (W.contents writer.old) (W.contents writer.new) (take n text.now)) }
    ensures err { OnErr result (Keeps (W.contents writer.old) (W.contents writer.new)) }
{
    for _ in 0..u64::MAX {
        match writer.write(text) {
            Ok(count) => return Ok(count),
            Err(error) => {
                if error.kind() != io::ErrorKind::Interrupted {
                    return Err(error);
                }
            }
        }
    }
    Err(io::Error::from(io::ErrorKind::Other))
}
