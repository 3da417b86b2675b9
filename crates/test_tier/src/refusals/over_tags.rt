//! Each refused growth of a look-up under another tag than that of the put.
use super::row_held;
use crate::asks::Ask;
use crate::outcomes::Outcome;
use crate::trials::{Held, Row};

// A look that finds something fresh takes memory where its entry isn't tracked yet, as that of another tag isn't. A refused one
// leaves it untracked.
const LOOK_TAGGED: Row = Row {
    limit: 208,
    before: &[Ask::Put(b'a', b"xx"), Ask::OpenTagged(1, b'a')],
    ask: Ask::Look(1),
    want: Outcome::Found,
    after: &[
        (Ask::Look(1), Outcome::WrongPhase),
        (Ask::Read(1), Outcome::Read(true)),
    ],
    refused: &[
        (Ask::Read(1), Outcome::WrongPhase),
        (Ask::Look(1), Outcome::Found),
        (Ask::Read(1), Outcome::Read(true)),
    ],
    taken_back: &[],
    evicted: 0,
    cut_short: &[],
};

#[test]
fn a_refused_look_under_another_tag_leaves_all(rt: HostRuntime) {
    assert!(rt; row_held(rt.alloc(), LOOK_TAGGED) != Held::Broken);
}

#[test]
fn ample_memory_meets_no_refusal(rt: HostRuntime) {
    assert!(rt; row_held(rt.alloc(), LOOK_TAGGED) == Held::Answered);
}
