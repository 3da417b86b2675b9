//! Replays by a reader and a writer that may fail, over a folder or over none.
use lru_files::persistence::TestFolder;
use seeded_hashing::SeededState;
use std::alloc::{AllocError, Global};
use std::cell::Cell;
use std::io::{self, Read, Write};
use trace_replay::options::{ReplayOptions, ShardCount};
use trace_replay::replay::{ReplayError, run};
use trace_replay::restart::run_in;
use trace_replay::status::status;

// How the reader gives a trace, and how the writer takes what is written.
#[derive(Clone, Copy)]
pub(crate) enum Way {
    // The trace ends, and all is taken.
    Whole,
    // The same, and a read gives so many bytes at most.
    Parts(usize),
    // The reader gives so many bytes at a time, and fails after the last.
    Reads(usize),
    // The writer takes so many bytes, and then fails; a flush fails where that is said.
    Writes(usize, bool),
    // The reader gives lines of these lengths, one at a read, and fails where a line before it isn't answered.
    Talks([usize; 4]),
}

#[derive(Drop)]
struct Source<'a> {
    trace: &'a [u8],
    way: Way,
    reads: usize,
    answered: &'a Cell<usize>,
}

impl Read for Source<'_> {
    fn read(&mut self, buf: &mut [u8]) -> io::Result<usize> {
        let most = match self.way {
            Way::Talks(lines) => {
                if self.answered.get() != self.reads {
                    return Err(io::Error::from(io::ErrorKind::WouldBlock));
                }
                lines.get(self.reads).copied().unwrap_or(0)
            }
            Way::Reads(_) if self.trace.is_empty() => {
                return Err(io::Error::from(io::ErrorKind::ConnectionReset));
            }
            Way::Reads(most) | Way::Parts(most) => most,
            Way::Whole | Way::Writes(_, _) => usize::MAX,
        };
        self.reads = self.reads.wrapping_add(1);
        let most = buf.len().min(most);
        self.trace.read(&mut buf[..most])
    }
}

// Keeps what is written, and counts the lines that were flushed.
#[derive(Drop)]
struct Sink<'a> {
    text: Vec<u8>,
    way: Way,
    // The lines that wait for a flush.
    held: usize,
    answered: &'a Cell<usize>,
}

impl Write for Sink<'_> {
    fn write(&mut self, buf: &[u8]) -> io::Result<usize> {
        let room = match self.way {
            Way::Writes(room, _) => room.saturating_sub(self.text.len()),
            _ => usize::MAX,
        };
        if room == 0 {
            return Err(io::Error::from(io::ErrorKind::StorageFull));
        }
        let taken = buf.len().min(room);
        self.text.extend_from_slice(&buf[..taken])?;
        for &byte in &buf[..taken] {
            if byte == b'\n' {
                self.held = self.held.wrapping_add(1);
            }
        }
        Ok(taken)
    }

    fn flush(&mut self) -> io::Result<()> {
        if matches!(self.way, Way::Writes(_, false)) {
            return Err(io::Error::from(io::ErrorKind::StorageFull));
        }
        self.answered
            .set(self.answered.get().wrapping_add(self.held));
        self.held = 0;
        Ok(())
    }
}

// A trace, what is written for it by a writer that takes all, and the exit status.
#[derive(Clone, Copy)]
pub(crate) struct Replay<'a> {
    pub(crate) limit: u64,
    pub(crate) shards: ShardCount,
    pub(crate) trace: &'a [u8],
    pub(crate) written: &'a [u8],
    pub(crate) status: u8,
}

// How a replay went.
#[derive(Clone, Copy)]
pub(crate) struct Played {
    // Whether it ends with the status, and with a fault of the stream just where a stream fails.
    pub(crate) ends: bool,
    // Whether what is written is as told, up to where the writer fails.
    pub(crate) is_written: bool,
    // Whether it ends well, or out of memory, and what is written is as told up to the first event that is refused memory.
    pub(crate) is_cut: bool,
}

// Whether a text is another up to the line of the first event that was refused memory.
fn is_cut(text: &[u8], whole: &[u8]) -> bool {
    let mut same: usize = 0;
    for (byte, other) in text.iter().zip(whole) {
        if *byte != *other {
            break;
        }
        same = same.saturating_add(1);
    }
    match text.get(same..) {
        Some(rest) => rest.is_empty()
            || rest.starts_with(b"ault 13 Memory".as_slice())
            || rest.starts_with(b"fault 13 Memory".as_slice()),
        None => false,
    }
}

fn outcome_of(
    outcome: Result<(), ReplayError>,
    text: &[u8],
    replay: Replay<'_>,
    way: Way,
) -> Played {
    let is_memory = matches!(&outcome, Err(ReplayError::Memory));
    let is_stream = matches!(&outcome, Err(ReplayError::Stream(_)));
    let status = status(&outcome);
    let (fails, room) = match way {
        Way::Reads(_) => (true, usize::MAX),
        Way::Writes(room, _) => (replay.status == 1, room),
        Way::Whole | Way::Parts(_) | Way::Talks(_) => (false, usize::MAX),
    };
    let room = replay.written.len().min(room);
    Played {
        ends: status == replay.status && is_stream == fails,
        is_written: text == &replay.written[..room],
        is_cut: (is_memory || status == 0) && is_cut(text, replay.written),
    }
}

// How a replay goes; `None` where there was no memory for its options.
pub(crate) fn play(
    alloc: Global,
    folder: Option<&mut TestFolder>,
    hasher: SeededState,
    replay: Replay<'_>,
    way: Way,
) -> Option<Played> {
    let recency = match &folder {
        Some(_) => Some(String::from_str(alloc, "dir").ok()?),
        None => None,
    };
    let options = ReplayOptions {
        limit: replay.limit,
        watermark: None,
        shards: replay.shards,
        seed: 0,
        age: 10,
        wait: None,
        recency,
    };
    let answered = Cell::new(0);
    let mut source = Source {
        trace: replay.trace,
        way,
        reads: 0,
        answered: &answered,
    };
    let mut sink = Sink {
        text: Vec::new(alloc),
        way,
        held: 0,
        answered: &answered,
    };
    let outcome = match folder {
        Some(folder) => run_in(alloc, hasher, folder, &mut source, &mut sink, &options),
        None => run(alloc, hasher, &mut source, &mut sink, &options),
    };
    Some(outcome_of(outcome, sink.text.as_slice(), replay, way))
}
