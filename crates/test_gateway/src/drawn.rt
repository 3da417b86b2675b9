//! Bodies and parts that look drawn, the same as in `tools/reference/gateway/frames_written.py`.
use gateway_frames::parts::Part;
use std::alloc::{AllocError, Global};

#[derive(Drop)]
pub struct Drawn {
    now: u64,
}

impl Drawn {
    pub fn new(seed: u64) -> Drawn {
        Drawn { now: seed }
    }

    /// The next number, which is below this bound.
    pub fn below(&mut self, bound: u64) -> u64 {
        let next = self.now.wrapping_mul(6364136223846793005);
        self.now = next.wrapping_add(1442695040888963407);
        (self.now >> 33) % bound.max(1)
    }
}

/// So many small letters.
pub fn text_of(alloc: Global, drawn: &mut Drawn, length: u64) -> Result<Vec<u8>, AllocError> {
    let mut text = Vec::new(alloc);
    for _ in 0..length {
        let letter = (drawn.below(26) % 26) as u8;
        text.push(b'a' + letter)?;
    }
    Ok(text)
}

/// A part of a body of so many bytes: all of it, from a byte on, or up to one.
pub fn part_of(drawn: &mut Drawn, length: u64) -> Part {
    let from = drawn.below(length);
    let rest = length.saturating_sub(from);
    let size = drawn.below(rest);
    match drawn.below(3) {
        0 => Part { from: 0, to: None },
        1 => Part { from, to: None },
        _ => Part {
            from,
            to: Some(length.min(from.saturating_add(size).saturating_add(1))),
        },
    }
}
