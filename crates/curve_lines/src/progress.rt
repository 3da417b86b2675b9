//! How far a run has come.
use crate::step::Step;
use curve_keys::Readings;

/// Why a line or record is passed over.
#[derive(Debug, PartialEq, Eq, Clone, Copy)]
pub enum Refusal {
    /// It has no request.
    NoRequest,
    /// It is a line of more than `LONGEST` bytes.
    TooLong,
}

/// What is told while a stream is read.
pub trait Progress {
    /// So many lines or records were read, and there are so many entries.
    fn tell(&mut self, read: u64, entries: usize);

    /// The line or record of that number, from 1 on, is passed over.
    fn refuse(&mut self, number: u64, why: Refusal);
}

/// After each so many lines or records it is told.
pub const EACH: u64 = 1 << 24;

// Tells what is passed over, and now and then how far a run has come.
pub(crate) fn tell_at<P: Progress>(progress: &mut P, step: Step, read: u64, readings: &Readings) {
    let number = read.saturating_add(1);
    match step {
        Step::End | Step::Fed => {}
        Step::Wrong => progress.refuse(number, Refusal::NoRequest),
        Step::TooLong => progress.refuse(number, Refusal::TooLong),
    }
    if number % EACH == 0 {
        progress.tell(number, readings.entries());
    }
}
