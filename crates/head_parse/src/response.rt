//! What the bytes of a response give.
use bytes::Bytes;
use head_lines::ResponseHeader;

/// A whole response.
#[derive(Debug, Drop)]
pub struct Response {
    /// Its status and its fields.
    pub header: ResponseHeader,
    /// Its body: as many bytes as the header announces, or all that came after the head.
    pub body: Bytes,
}

/// A response whose head is whole, and that ends before its body does.
#[derive(Debug, Drop)]
pub struct Short {
    /// Its status and its fields.
    pub header: ResponseHeader,
    /// How many bytes of its body came: fewer than the header announces.
    pub len: usize,
}

/// What the bytes of a response give.
#[derive(Debug, Drop)]
pub enum Parsed {
    /// A whole response.
    Complete(Response),
    /// The response ends too early: within its body, or, with nothing, within its head.
    Incomplete(Option<Short>),
    /// The bytes are no head, or one that is out of bounds: of more than 256 lines, with a name of more than 65535 bytes or a
    /// status below 100.
    BadHead,
}

/// How far a response has come.
#[derive(Clone, Copy, PartialEq, Eq, Debug)]
pub enum Progress {
    /// Its head hasn't come whole.
    Head,
    /// Its head has come, and so many bytes of its body, whose end isn't there or isn't known.
    Body(usize),
    /// All of it has come: its body has so many bytes, and what comes after them is ignored.
    Done(usize),
    /// The bytes are no head, or one that is out of bounds.
    BadHead,
}

/// The front of a response, with all the bytes after it.
#[derive(Debug, Drop)]
pub enum Split {
    /// A head, and as body all that came after it, whatever it announces.
    Head(Response),
    /// The head isn't whole.
    Begun,
    /// The bytes are no head, or one that is out of bounds.
    BadHead,
}
