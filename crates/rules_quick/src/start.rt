//! Request lines as most are: GET or HEAD of a path, in HTTP/1.1.
ghost use Rattle.std.specs.Prelude.{◌≡◌, ◌++◌, true, IfSome, codes};
ghost use Rattle.std.specs.List.{list_all};
ghost use Rattle.rules_quick.specs.Plain.{start_text, is_path_byte, is_plain_target, is_plain_method};

use http1_message_parts::start::is_target_byte;

/// The method and the target of a request line.
#[derive(Clone, Copy, Debug)]
pub struct PlainStart<'a> {
    /// GET or HEAD.
    pub method: &'a [u8],
    /// A path.
    pub target: &'a [u8],
}

// Visible ASCII, and no mark of a fragment.
fn is_path_byte(b: u8) -> bool
    ensures { result ≡ is_path_byte b }
{
    is_target_byte(b) && b != b'#'
}

fn are_path_bytes(text: &[u8]) -> bool
    ensures { result ≡ list_all is_path_byte text.now }
{
    for b in text {
        if !is_path_byte(*b) {
            return false;
        }
    }
    true
}

// A path of visible ASCII without a fragment.
fn is_plain_target(target: &[u8]) -> bool
    ensures { result ≡ is_plain_target target.now }
{
    match target {
        [] => false,
        [first, path @ ..] => *first == b'/' && are_path_bytes(path),
    }
}

// What stands before the version.
fn before_version(text: &[u8]) -> Option<&[u8]>
    ensures { IfSome result (λ target. text.now ≡ target.now ++ codes " HTTP/1.1") }
{
    let at = text.len().checked_sub(9)?;
    let (target, version) = text.split_at(at);
    if version == b" HTTP/1.1".as_slice() {
        Some(target)
    } else {
        None
    }
}

fn start_from<'a>(method: &'a [u8], after: &'a [u8]) -> Option<PlainStart<'a>>
    ensures { IfSome result (λ s. (s.method.now ≡ method.now) × (after.now ≡ s.target.now ++ codes " HTTP/1.1") × (is_plain_target s.target.now ≡ true)) }
{
    let target = before_version(after)?;
    if is_plain_target(target) {
        Some(PlainStart { method, target })
    } else {
        None
    }
}

/// The method and the target of such a line.
pub fn plain_start(row: &[u8]) -> Option<PlainStart<'_>>
    ensures is { IfSome result (λ s. row.now ≡ start_text s.method.now s.target.now) }
    ensures plain { IfSome result (λ s. (is_plain_method s.method.now ≡ true) × (is_plain_target s.target.now ≡ true)) }
{
    match row {
        [b'G', b'E', b'T', b' ', after @ ..] => start_from(b"GET", after),
        [b'H', b'E', b'A', b'D', b' ', after @ ..] => start_from(b"HEAD", after),
        _ => None,
    }
}
