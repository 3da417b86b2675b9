//! Numbers in decimal digits.
ghost use Rattle.std.specs.Prelude.{◌≡◌};
ghost use Rattle.rules_fields.specs.Numbers.{digits, seconds};

/// The number of seconds from which on all count as this one (RFC 9111, 1.2.2).
pub const MOST_SECONDS: u64 = 1 << 31;

/// The number that one or more digits say, from 2^64 - 1 on that; `None` for another text.
pub fn digits(text: &[u8]) -> Option<u64>
    ensures { result ≡ digits text.now }
{
    if text.is_empty() {
        return None;
    }
    let mut n: u64 = 0;
    for b in text {
        if !b.is_ascii_digit() {
            return None;
        }
        n = n.saturating_mul(10).saturating_add((*b - b'0') as u64);
    }
    Some(n)
}

/// The seconds that a text says (delta-seconds).
pub fn seconds(text: &[u8]) -> Option<u64>
    ensures { result ≡ seconds text.now }
{
    let n = digits(text)?;
    Some(n.min(MOST_SECONDS))
}
