//! Where a byte stands in its line. A head ends with the first empty line after text, so the parser is asked only there.
ghost use Rattle.std.specs.Prelude.{◌≡◌, ◌≢◌, ◌<◌, ◌≤◌, ℕ, length, take};
ghost use Rattle.head_parse.specs.Positions.{position_after_byte, position_after};

// Where the last of some bytes stands.
#[derive(Clone, Copy, PartialEq, Eq)]
pub(crate) enum Position {
    // No byte came but line ends.
    BeforeText,
    // In a line.
    InLine,
    // After a line.
    LineStart,
    // After a line and a CR.
    AfterReturn,
    // After an empty line that came after text.
    AfterEmptyLine,
}

impl Position {
    // The position after one more byte.
    fn after(self, byte: u8) -> Position
        ensures { result ≡ position_after_byte self byte }
    {
        // Most bytes are those of a line.
        if self == Position::InLine && byte != b'\n' {
            return Position::InLine;
        }
        match (self, byte) {
            (Position::BeforeText, b'\n' | b'\r') => Position::BeforeText,
            (Position::InLine, b'\n') => Position::LineStart,
            (Position::LineStart | Position::AfterEmptyLine | Position::AfterReturn, b'\n') => {
                Position::AfterEmptyLine
            }
            (Position::LineStart | Position::AfterEmptyLine, b'\r') => Position::AfterReturn,
            _ => Position::InLine,
        }
    }
}

// Goes over bytes up to the first empty line after text, or over all: over how many, and the position after them.
pub(crate) fn scan(from: Position, bytes: &[u8]) -> (usize, Position)
    ensures within { result.0 ≤ length bytes.now }
    ensures position { result.1 ≡ position_after from (take result.0 bytes.now) }
    ensures some { 0 < length bytes.now → 0 < result.0 }
    ensures all { result.1 ≢ Position.AfterEmptyLine → result.0 ≡ length bytes.now }
    ensures quiet { result.1 ≢ Position.AfterEmptyLine → (n : ℕ) → 0 < n → n ≤ length bytes.now
        → position_after from (take n bytes.now) ≢ Position.AfterEmptyLine }
{
    let mut position = from;
    for i in 0..bytes.len() {
        position = position.after(bytes[i]);
        if position == Position::AfterEmptyLine {
            return (i + 1, position);
        }
    }
    (bytes.len(), position)
}
