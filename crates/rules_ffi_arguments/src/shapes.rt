//! The structs of the calls. Reserved words are 0.

/// Where a text stands in the bytes beside its struct.
#[repr(C)]
#[derive(Clone, Copy, Debug)]
pub struct Span {
    pub from: u64,
    pub to: u64,
}

/// A moment.
#[repr(C)]
#[derive(Clone, Copy, Debug)]
pub struct Moment {
    pub seconds: u64,
    pub nanoseconds: u64,
}

/// The numbers of the options.
#[repr(C)]
#[derive(Clone, Copy, Debug)]
pub struct OptionNumbers {
    pub flags: u64,
    pub most_head: u64,
    pub most_target: u64,
    pub most_lines: u64,
    pub most_ranges: u64,
    pub most_heuristic: u64,
    pub stale_while_revalidate: u64,
    pub stale_if_error: u64,
    pub stale_if_down: u64,
    pub most_line: u64,
    pub reserved: [u64; 2],
}

/// A request that was read, or why it wasn't.
#[repr(C)]
#[derive(Clone, Copy, Debug)]
pub struct RequestShape {
    pub status: u64,
    pub needed: u64,
    pub used: u64,
    pub refusal: u64,
    pub reason: u64,
    pub plan: u64,
    pub minor: u64,
    pub framing: u64,
    pub length: u64,
    pub marks: u64,
    pub method: Span,
    pub host: Span,
    pub target: Span,
    pub key: Span,
    pub lines: Span,
    pub whole: Span,
    pub asked: Span,
}

/// A response that was read, or why it wasn't.
#[repr(C)]
#[derive(Clone, Copy, Debug)]
pub struct ResponseShape {
    pub status: u64,
    pub needed: u64,
    pub used: u64,
    pub reason: u64,
    pub code: u64,
    pub minor: u64,
    pub framing: u64,
    pub length: u64,
    pub marks: u64,
    pub lines: Span,
    pub whole: Span,
    pub reserved: [u64; 3],
}

/// How an answer came, for Cache-Status.
#[repr(C)]
#[derive(Clone, Copy, Debug)]
pub struct How {
    pub hit: u64,
    pub forward: u64,
    pub forward_status: u64,
    pub stored: u64,
    pub collapsed: u64,
    pub detail: u64,
    pub fetch: u64,
    pub closes: u64,
}

/// A part of a body, and the text in front of it.
#[repr(C)]
#[derive(Clone, Copy, Debug)]
pub struct PartShape {
    pub before: Span,
    pub from: u64,
    pub to: u64,
}

/// What is sent, or decided.
#[repr(C)]
#[derive(Clone, Copy, Debug)]
pub struct Out {
    pub status: u64,
    pub needed: u64,
    pub reason: u64,
    pub code: u64,
    pub framing: u64,
    pub length: u64,
    pub marks: u64,
    pub choice: u64,
    pub parts: u64,
    pub count: u64,
    pub head: Span,
    pub more: Span,
    pub reserved: [u64; 2],
}

/// Bytes that are lent: a caller's own words, which no call here looks at.
#[repr(C)]
#[derive(Clone, Copy, Debug)]
pub struct Lent {
    pub at: usize,
    pub len: u64,
}

/// The head of what is stored.
#[repr(C)]
#[derive(Clone, Copy, Debug)]
pub struct HeadShape {
    pub status: u64,
    pub lines: u64,
    pub fresh_until: Moment,
    pub created: Moment,
    pub updated: Moment,
    pub provenance: Moment,
    pub stale_while_revalidate: u64,
    pub stale_if_error: u64,
    pub external: u64,
    pub block: Lent,
    pub reserved: u64,
}

/// What a tier is told of a response.
#[repr(C)]
#[derive(Clone, Copy, Debug)]
pub struct MetaShape {
    pub fresh_until: Moment,
    pub created: Moment,
    pub updated: Moment,
    pub provenance: Moment,
    pub stale_while_revalidate: u64,
    pub stale_if_error: u64,
    pub external: u64,
    pub reserved: u64,
}

/// What is to be stored.
#[repr(C)]
#[derive(Clone, Copy, Debug)]
pub struct KeptShape {
    pub status: u64,
    pub needed: u64,
    pub reason: u64,
    pub removes: u64,
    pub predicts_uncacheable: u64,
    pub varies: u64,
    pub place: u64,
    pub meta: MetaShape,
    pub shown: HeadShape,
    pub head: Span,
    pub block: Span,
    pub body: Span,
    pub reserved: u64,
}

/// How far a body was read.
#[repr(C)]
#[derive(Clone, Copy, Debug)]
pub struct BodyShape {
    pub framing: u64,
    pub length: u64,
    pub most: u64,
    pub state: u64,
    pub size: u64,
    pub extensions: u64,
    pub scanned: u64,
    pub reserved: u64,
}

/// What of a body came.
#[repr(C)]
#[derive(Clone, Copy, Debug)]
pub struct PieceShape {
    pub status: u64,
    pub needed: u64,
    pub reason: u64,
    pub from: u64,
    pub to: u64,
    pub used: u64,
    pub trailers: Span,
}
