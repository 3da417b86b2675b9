//! How calls end. From 1 to 31 a call was refused: 1 to 17 are the tier's faults, by their numbers in a trace's answers, and from 20 on the library
//! refuses the call itself.

pub const READY: u64 = 0;

pub const MEMORY: u64 = 13;

pub const FOLDER: u64 = 14;

/// An argument is out of its range.
pub const BAD_CALL: u64 = 20;

/// The tier took an event.
pub const NOT_NEW: u64 = 21;

/// There is no such entry, file or body.
pub const NOTHING_SHOWN: u64 = 22;

/// The body would have more bytes than the options allow. (23 is of the rules' calls.)
pub const BODY_TOO_LARGE: u64 = 24;

pub const OPENED: u64 = 32;

pub const FOUND: u64 = 33;

pub const ABSENT: u64 = 34;

pub const WAITED: u64 = 35;

pub const WAITING: u64 = 36;

pub const BEGUN: u64 = 37;

pub const WRITTEN: u64 = 38;

pub const BYTES: u64 = 39;

pub const PENDING: u64 = 40;

pub const END: u64 = 41;

pub const DROPPED: u64 = 42;

pub const PURGED: u64 = 43;

pub const NOTHING: u64 = 44;

pub const FINISHED: u64 = 45;

pub const UNCACHEABLE: u64 = 46;

pub const SAVED: u64 = 47;

pub const STARTED: u64 = 48;

pub const SHOWN: u64 = 49;

pub const REVALIDATED: u64 = 50;

pub const NO_HIT: u64 = 51;

/// Why a response isn't kept, where it isn't told more exactly.
pub const OTHER_REASON: u64 = 5;

/// No watermark, or no longest wait.
pub const NONE: u64 = u64::MAX;

/// Of the exports: 1000 times the interface, and its revision.
pub const VERSION: u64 = 1000;
