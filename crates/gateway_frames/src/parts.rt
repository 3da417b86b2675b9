//! The pieces of an answer whose body is whole: a text in front of each part, the part, and what stands behind the last.
ghost use Rattle.std.specs.Prelude.{◌≡◌, if◌then◌else◌, get_or};
ghost use Rattle.gateway_frames.specs.declared.parts.PartPiece.{PartPiece};
ghost use Rattle.gateway_frames.specs.Parts.{body_piece, part_pieces};

/// The bytes of a body from a place up to, and without, another, or to its end.
#[derive(Clone, Copy)]
pub struct Part {
    /// The place of its first byte.
    pub from: u64,
    /// The place behind its last byte; none: it ends with the body.
    pub to: Option<u64>,
}

/// A piece of an answer.
#[derive(Clone, Copy)]
pub enum PartPiece {
    /// The text in front of the part of this number.
    Before(usize),
    /// Bytes of the body.
    Body(u64, u64),
    /// What stands behind the last part.
    After,
    /// There are no more.
    End,
}

/// The piece of this number, of an answer with these parts of a body of so many bytes: each text and each part counts.
pub fn piece_at(parts: &[Part], length: u64, number: usize) -> PartPiece
    ensures { result ≡ get_or (part_pieces 0 length parts.now) number PartPiece.End }
{
    let at = number / 2;
    let is_text = number % 2 == 0;
    if at < parts.len() {
        return of_part(&parts[at], at, is_text, length);
    }
    if at == parts.len() && is_text {
        PartPiece::After
    } else {
        PartPiece::End
    }
}

fn of_part(part: &Part, at: usize, is_text: bool, length: u64) -> PartPiece
    ensures { result ≡ (if is_text then PartPiece.Before at else body_piece length part.now) }
{
    if is_text {
        return PartPiece::Before(at);
    }
    match part.to {
        Some(to) => PartPiece::Body(part.from, to.min(length)),
        None => PartPiece::Body(part.from, length),
    }
}
