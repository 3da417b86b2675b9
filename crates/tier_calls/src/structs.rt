//! The structs that programs in C share: their fields are words of 8 bytes, in this order. Reserved words are 0.

/// What a tier is made with.
#[repr(C)]
#[derive(Drop)]
pub struct Options {
    /// The greatest sum of the entries' weights.
    pub limit: u64,
    /// The greatest number of entries, or `NONE`.
    pub watermark: u64,
    /// For how many seconds a permit holds.
    pub age: u64,
    /// How many seconds a request waits in all, or `NONE`.
    pub wait: u64,
    /// 1, 4 or 16.
    pub shards: u64,
    /// Starts the words that choose the shards of evictions.
    pub seed: u64,
    /// Starts the hashes.
    pub hash_start: u64,
    /// The greatest number of a body's bytes, with those that it has outside; 0: half of `limit`; `NONE`: no bound.
    pub max_body_bytes: u64,
    pub reserved: [u64; 4],
}

/// What a call answers. What it doesn't speak of is 0.
#[repr(C)]
#[derive(Clone, Copy)]
pub struct CallAnswer {
    pub status: u64,
    pub number: u64,
    /// How many entries were evicted.
    pub evicted: u64,
    pub fresh: u64,
    pub complete: u64,
    pub permit: u64,
    /// Of a refusal: the body was stored, or its new meta was, and is removed again.
    pub stored: u64,
    /// Of a refusal: the entry was admitted, or weighed anew, and is removed again.
    pub admitted: u64,
    pub second: u64,
    pub third: u64,
    pub reserved: [u64; 2],
}

/// A moment: seconds since 1970, and nanoseconds.
#[repr(C)]
#[derive(Clone, Copy)]
pub struct MomentWords {
    pub seconds: u64,
    pub nanoseconds: u64,
}

/// Bytes that are lent to a program in C.
#[repr(C)]
#[derive(Drop)]
pub struct Lent {
    pub at: *const u8,
    pub len: usize,
}

/// The head of what was found.
#[repr(C)]
#[derive(Drop)]
pub struct HeadShown {
    /// Of the response.
    pub status: u64,
    pub lines: u64,
    pub fresh_until: MomentWords,
    pub created: MomentWords,
    pub updated: MomentWords,
    pub provenance: MomentWords,
    pub stale_while_revalidate: u64,
    pub stale_if_error: u64,
    /// How many bytes its body has outside the tier.
    pub external: u64,
    /// Its lines, each with CR LF at its end.
    pub block: Lent,
    /// How many bytes its body has here, of a whole one; else `NONE`.
    pub body_len: u64,
}

/// What a hit, a find or a read hands over, beside what keeps the bytes.
#[repr(C)]
#[derive(Drop)]
pub struct FoundShown {
    pub answer: CallAnswer,
    pub head: HeadShown,
    pub body: Lent,
}

/// What a caller says of a response.
#[repr(C)]
#[derive(Clone, Copy)]
pub struct MetaWords {
    pub fresh_until: MomentWords,
    pub created: MomentWords,
    pub updated: MomentWords,
    pub provenance: MomentWords,
    pub stale_while_revalidate: u64,
    pub stale_if_error: u64,
    pub external: u64,
    pub reserved: u64,
}

/// An entry of the order of use.
#[repr(C)]
#[derive(Drop)]
pub struct EntryShown {
    pub status: u64,
    /// 1: it has an id of another program's store.
    pub foreign: u64,
    pub primary: Lent,
    pub variance: Lent,
    pub tag: Lent,
    /// Of an entry of a list: how many bytes the finished body of its key has outside; 0 without one.
    pub external: u64,
}

/// The file of a shard.
#[repr(C)]
#[derive(Drop)]
pub struct FileShown {
    pub status: u64,
    pub bytes: Lent,
}

/// What a tier did and holds.
#[repr(C)]
#[derive(Clone, Copy)]
pub struct Counts {
    pub found: u64,
    pub absent: u64,
    pub bodies: u64,
    pub bytes: u64,
    pub meta: u64,
    pub external: u64,
    pub tracked: u64,
    pub weight: u64,
    pub evicted: u64,
    pub reserved: [u64; 3],
}
