//! Bytes and their hex texts.
ghost use Rattle.std.specs.Prelude.{◌≡◌, ◌+◌, ◌*◌, ◌<◌, ◌≤◌, ◌↔◌, ◌++◌, length, take, option_map, slice_index, Some, None, IfOk, if◌then◌else◌};
ghost use Rattle.hex.specs.Hex.{hex_digit_value, decode_pairs, encode_lower, lower_digits};
ghost use Rattle.trace_lines.specs.Lines.{hex_bytes};
ghost use Rattle.trace_lines.specs.Digits.{IsMarked, result_bytes};

use std::alloc::{AllocError, Global};

// What is added to the value of a digit.
const MARK: u8 = 240;

// The bytes that pairs of hex digits of either case spell, if the text is such pairs.
pub(crate) fn decode(alloc: Global, text: &str) -> Result<Option<Vec<u8>>, AllocError>
    ensures { IfOk result (λ found. option_map (λ bytes. bytes.items) found ≡ hex_bytes text.now) }
{
    let digits = text.as_bytes();
    if digits.len() % 2 != 0 {
        return Ok(None);
    }
    let mut bytes = Vec::with_capacity(alloc, digits.len() / 2)?;
    let mut lowest = u8::MAX;
    let mut rest = digits;
    'pairs: for _ in 0..digits.len() / 2 {
        let (pair, after) = rest.split_at(2);
        let high = marked(pair[0]);
        let low = marked(pair[1]);
        lowest = lower(lowest, lower(high, low));
        bytes.push_reserved(high.wrapping_mul(16).wrapping_add(low.wrapping_sub(MARK)));
        rest = after;
    }
    if lowest < MARK {
        return Ok(None);
    }
    Ok(Some(bytes))
}

fn lower(a: u8, b: u8) -> u8
    ensures { (MARK ≤ result) ↔ ((MARK ≤ a) × (MARK ≤ b)) }
{
    a.min(b)
}

// The value of a digit, in either case, plus `MARK`; for another byte a number below `MARK`. Only `0` to `9` come to the ten
// highest bytes at first, and only letters of a digit to the six highest, as `| 32` joins both cases and takes no byte
// to the 16 below them. No table and no branch, so that many bytes are decoded at a time.
fn marked(c: u8) -> u8
    ensures { IsMarked (hex_digit_value c) result }
{
    let digit = c.wrapping_sub(b'9' + 1).saturating_sub(6);
    let letter = (c.wrapping_sub(1) | 32).wrapping_sub(b'f');
    digit.max(letter)
}

// The lower-case digit of a value. No table, so that many bytes are encoded at a time.
fn lower_digit(value: u8) -> u8
    requires { value < 16 }
    ensures { result ≡ slice_index lower_digits value }
{
    if value < 10 {
        value + b'0'
    } else {
        value - 10 + b'a'
    }
}

// Puts two digits for each byte.
fn encode_into(bytes: &[u8], digits: &mut [u8])
    requires { length digits.old ≡ 2 * length bytes.now }
    ensures { digits.new ≡ encode_lower bytes.now }
{
    'bytes: for i in 0..bytes.len() {
        digits[2 * i] = lower_digit(bytes[i] / 16);
        digits[2 * i + 1] = lower_digit(bytes[i] % 16);
    }
}

// The same after the first bytes of a block.
pub(crate) fn encode_after(bytes: &[u8], block: &mut [u8], start: usize)
    requires { length block.old ≡ start + 2 * length bytes.now }
    ensures { block.new ≡ take start block.old ++ encode_lower bytes.now }
{
    encode_into(bytes, &mut block[start..]);
}
