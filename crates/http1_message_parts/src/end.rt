//! Where a head ends (RFC 9112, 2.1).
ghost use Rattle.std.specs.Prelude.{◌≡◌, ◌≤◌, length, min, reverse, IfSome};
ghost use Rattle.http1_message_parts.specs.End.{is_filled_line, after_filled_line, ends_head, end_behind};

use memchr::memchr;

fn is_filled_line(before: &[u8]) -> bool
    ensures { result ≡ is_filled_line (reverse before.now) }
{
    match before {
        [] => false,
        [only] => *only != b'\n' && *only != b'\r',
        [.., earlier, last] => *last != b'\n' && !(*last == b'\r' && *earlier == b'\n'),
    }
}

fn after_filled_line(before: &[u8]) -> bool
    ensures { result ≡ after_filled_line (reverse before.now) }
{
    match before {
        [] => false,
        [rest @ .., last] => *last == b'\n' && is_filled_line(rest),
    }
}

fn ends_head(before: &[u8]) -> bool
    ensures { result ≡ ends_head (reverse before.now) }
{
    match before {
        [] => false,
        [rest @ .., b'\n'] => is_filled_line(rest),
        [rest @ .., last] => *last == b'\r' && after_filled_line(rest),
    }
}

/// The place behind the first head that ends behind `from`. An earlier call has looked so far: what stands in front isn't scanned again.
pub fn head_end(bytes: &[u8], from: usize) -> Option<usize>
    ensures is { result ≡ end_behind (min from (length bytes.now)) bytes.now }
    ensures within { IfSome result (λ n. n ≤ length bytes.now) }
{
    let mut at = from.min(bytes.len());
    while let Some(n) = memchr(b'\n', &bytes[at..]) {
        let i = at + n;
        if ends_head(&bytes[..i]) {
            return Some(i + 1);
        }
        at = i + 1;
    }
    None
}
