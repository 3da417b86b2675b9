//! What is done in a store, step by step, and what comes of it.
use cache_store::storage::{PurgeOutcome, StoreFault};

// What is done under one key, by writers and two readers, of which the later one is named by `true`, and what comes of it.
#[derive(Clone, Copy)]
pub(super) enum Step {
    // A write of a meta that is fresh until that second, one of a meta that can't be written, and one under a key that takes its meta.
    Begin(i64),
    Unwritable,
    BeginOwned(&'static [u8]),
    Piece(&'static [u8], bool, Option<StoreFault>),
    // How many bytes were written and what their body weighs, unless it was removed.
    Finish(Option<(usize, usize)>),
    Leave,
    // The writer lends this tag.
    Lends(&'static [u8]),
    Look(bool, bool),
    Misses,
    // The body is stale at 1001, when a stale one may be served.
    Stale,
    // A look-up of a key by a tag, and what a reader of the found write reads; nothing where none is found. A tag that names no number
    // asks for the key.
    Asks(&'static [u8], Option<&'static [u8]>, Option<&'static [u8]>),
    Bytes(bool, &'static [u8]),
    Pending(bool),
    End(bool),
    // What the reader of a write is told: whether all of it came, once it has read to the end.
    Told(bool, Option<bool>),
    Seek(usize, Option<usize>, Option<StoreFault>),
    SeekPart(usize, Option<usize>, Option<StoreFault>),
    // How many bytes the body has that is read, and what it weighs.
    Weighs(bool, usize, usize),
    Purge(Target, PurgeOutcome),
    // The body goes stale at a second.
    Expire(Target, i64, PurgeOutcome),
    // Another meta, which is fresh until that second, and what the body weighs with it, or why it is refused.
    Update(i64, Result<usize, StoreFault>),
    // How many bodies are finished, how many bytes they have and their metas take, and the body of the key.
    Counts(usize, u64, u64, Option<&'static [u8]>),
    // Another store takes the place of the first.
    MoveOn,
}

// The key, its entry without an id, or one with an id.
#[derive(Clone, Copy)]
pub(super) enum Target {
    Key,
    Entry,
    Id,
}

pub(super) const STREAMED: &[Step] = &[
    Step::Begin(1300),
    Step::Look(false, false),
    Step::Weighs(false, 0, 0),
    Step::Seek(0, None, Some(StoreFault::SeekRange)),
    Step::Pending(false),
    Step::Piece(b"test1", false, None),
    Step::Bytes(false, b"test1"),
    Step::Pending(false),
    Step::Piece(b"test2", false, None),
    Step::Bytes(false, b"test2"),
    Step::Look(true, false),
    Step::Bytes(true, b"test1test2"),
    Step::Pending(true),
    Step::Finish(Some((10, 40))),
    Step::End(false),
    Step::End(true),
    Step::Look(true, true),
    Step::Bytes(true, b"test1test2"),
    Step::End(true),
];

// Pieces of several lengths, and one of none, with readers at each end of a piece.
pub(super) const PARTED: &[Step] = &[
    Step::Begin(1300),
    Step::Look(false, false),
    Step::Piece(b"a", false, None),
    Step::Bytes(false, b"a"),
    Step::Piece(b"bc", false, None),
    Step::Look(true, false),
    Step::Bytes(true, b"abc"),
    Step::Piece(b"", false, None),
    Step::Pending(true),
    Step::Piece(b"def", false, None),
    Step::Bytes(false, b"bcdef"),
    Step::Bytes(true, b"def"),
    Step::Finish(Some((6, 36))),
    Step::End(false),
    Step::Look(true, true),
    Step::Bytes(true, b"abcdef"),
];

pub(super) const ENDED: &[Step] = &[
    Step::Begin(1300),
    Step::Look(false, false),
    Step::Piece(b"ab", true, None),
    Step::Piece(b"c", false, Some(StoreFault::AfterEnd)),
    Step::Bytes(false, b"ab"),
    Step::End(false),
    Step::Finish(Some((2, 32))),
    Step::Begin(1300),
    Step::Look(true, false),
    Step::Piece(b"x", false, None),
    Step::Leave,
    Step::Bytes(true, b"x"),
    Step::End(true),
    Step::Look(true, true),
    Step::Bytes(true, b"ab"),
];

pub(super) const PURGED: &[Step] = &[
    Step::Misses,
    Step::Purge(Target::Key, PurgeOutcome::NotFound),
    Step::Begin(1300),
    Step::Leave,
    Step::Purge(Target::Key, PurgeOutcome::NotFound),
    Step::Begin(1300),
    Step::Look(false, false),
    Step::Purge(Target::Id, PurgeOutcome::NotFound),
    Step::Purge(Target::Key, PurgeOutcome::Purged(None)),
    Step::Misses,
    Step::Purge(Target::Key, PurgeOutcome::NotFound),
    Step::Piece(b"abc", false, None),
    Step::Bytes(false, b"abc"),
    Step::Pending(false),
    Step::Finish(None),
    Step::End(false),
    Step::Misses,
    Step::Begin(1300),
    Step::Piece(b"new", true, None),
    Step::Finish(Some((3, 33))),
    Step::Look(false, true),
    Step::Purge(Target::Entry, PurgeOutcome::Purged(None)),
    Step::Bytes(false, b"new"),
    Step::Misses,
];

pub(super) const SOUGHT: &[Step] = &[
    Step::Begin(1300),
    Step::Piece(b"test1test2", true, None),
    Step::Finish(Some((10, 40))),
    Step::Look(false, true),
    Step::Weighs(false, 10, 40),
    Step::Seek(5, None, None),
    Step::Bytes(false, b"test2"),
    Step::Seek(4, Some(5), None),
    Step::Bytes(false, b"1"),
    Step::Seek(5, None, None),
    Step::Bytes(false, b"test2"),
    Step::Seek(4, Some(5), None),
    Step::Seek(10, None, Some(StoreFault::SeekRange)),
    Step::Seek(4, Some(3), Some(StoreFault::SeekRange)),
    Step::Bytes(false, b"1"),
    Step::End(false),
    Step::SeekPart(8, Some(20), None),
    Step::Bytes(false, b"t2"),
];

pub(super) const RENEWED: &[Step] = &[
    Step::Unwritable,
    Step::Expire(Target::Entry, 1000, PurgeOutcome::NotFound),
    Step::Update(1300, Err(StoreFault::NoMeta)),
    Step::Begin(1300),
    Step::Piece(b"abc", true, None),
    Step::Expire(Target::Key, 1000, PurgeOutcome::NotFound),
    Step::Update(1300, Err(StoreFault::NoMeta)),
    Step::Finish(Some((3, 33))),
    Step::Expire(Target::Id, 1000, PurgeOutcome::NotFound),
    Step::Expire(Target::Entry, 1000, PurgeOutcome::Expired),
    Step::Stale,
    Step::Update(1300, Ok(33)),
    Step::Update(-1, Err(StoreFault::MetaMoment)),
    Step::Expire(Target::Key, 1000, PurgeOutcome::Expired),
    Step::Stale,
    Step::Look(false, true),
    Step::Bytes(false, b"abc"),
    Step::End(false),
];

pub(super) const WHOLE: &[Step] = &[
    Step::Misses,
    Step::Begin(1300),
    Step::Piece(b"abc", true, None),
    Step::Finish(Some((3, 33))),
    Step::Look(false, true),
    Step::Bytes(false, b"abc"),
    Step::End(false),
    Step::Begin(1300),
    Step::Piece(b"de", true, None),
    Step::Finish(Some((2, 32))),
    Step::Look(true, true),
    Step::Bytes(true, b"de"),
    Step::Begin(1300),
    Step::Piece(b"", true, None),
    Step::Finish(Some((0, 30))),
    Step::Look(true, true),
    Step::Bytes(true, b""),
    Step::End(true),
];

// What a body weighs as its meta changes: 26 bytes of moments and numbers and 4 of the head, and as many more as a later second takes.
pub(super) const WEIGHED: &[Step] = &[
    Step::Begin(1300),
    Step::Piece(b"abc", true, None),
    Step::Finish(Some((3, 33))),
    Step::Look(false, true),
    Step::Weighs(false, 3, 33),
    Step::Update(70_000, Ok(35)),
    Step::Look(true, true),
    Step::Weighs(true, 3, 35),
    Step::Weighs(false, 3, 33),
    Step::Expire(Target::Key, 127, PurgeOutcome::Expired),
    Step::Look(true, true),
    Step::Weighs(true, 3, 31),
    Step::Expire(Target::Key, -300, PurgeOutcome::Expired),
    Step::Look(true, true),
    Step::Weighs(true, 3, 33),
    Step::Expire(Target::Key, i64::MIN, PurgeOutcome::Expired),
    Step::Look(true, true),
    Step::Weighs(true, 3, 39),
    Step::Begin(70_000),
    Step::Finish(Some((0, 32))),
];

const ZERO: &[u8] = &[0, 0, 0, 0, 0, 0, 0, 0];

const ONE: &[u8] = &[0, 0, 0, 0, 0, 0, 0, 1];

const TWO: &[u8] = &[0, 0, 0, 0, 0, 0, 0, 2];

// Two writes of one key in flight.
pub(super) const TAGGED: &[Step] = &[
    Step::Begin(1300),
    Step::Piece(b"first", false, None),
    Step::Begin(1300),
    Step::Piece(b"second", false, None),
    Step::Asks(b"aa", Some(ZERO), Some(b"first")),
    Step::Asks(b"aa", Some(ONE), Some(b"second")),
    Step::Asks(b"aa", Some(TWO), None),
    Step::Asks(b"aa", Some(&[0]), Some(b"first")),
    Step::Asks(b"aa", None, Some(b"first")),
    Step::Asks(b"bb", None, None),
    Step::Asks(b"bb", Some(ZERO), None),
    Step::Lends(ONE),
];

// Another store ends what this one gave out.
pub(super) const ELSEWHERE: &[Step] = &[
    Step::Begin(1300),
    Step::Piece(b"first", false, None),
    Step::Look(true, false),
    Step::MoveOn,
    Step::End(true),
    Step::Finish(None),
];

// What is counted while another write of the key is in flight.
pub(super) const COUNTED: &[Step] = &[
    Step::BeginOwned(b"bb"),
    Step::Piece(b"de", true, None),
    Step::Finish(Some((2, 32))),
    Step::Begin(1400),
    Step::Counts(1, 2, 30, None),
    Step::Leave,
    Step::BeginOwned(b"aa"),
    Step::Piece(b"abc", true, None),
    Step::Finish(Some((3, 33))),
    Step::Begin(1400),
    Step::Counts(2, 5, 60, Some(b"abc")),
    Step::Leave,
    Step::BeginOwned(b"aa"),
    Step::Piece(b"f", true, None),
    Step::Finish(Some((1, 31))),
    Step::Begin(1400),
    Step::Counts(2, 3, 60, Some(b"f")),
    Step::Leave,
    Step::Purge(Target::Key, PurgeOutcome::Purged(None)),
    Step::Begin(1400),
    Step::Counts(1, 2, 30, None),
    Step::Leave,
];
