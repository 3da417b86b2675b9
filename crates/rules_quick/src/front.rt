//! The request line and the line of Host, which comes first (RFC 9110, 7.2).
ghost use Rattle.std.specs.Prelude.{◌≡◌, ◌≤◌, ◌++◌, ◌∷◌, length, true, not, map, bytes_eq, codes, is_some, IfSome};
ghost use Rattle.rules_fields.specs.Texts.{small};
ghost use Rattle.rules_fields.specs.Tables.{among};
ghost use Rattle.rules_fields.specs.Fields.{field};
ghost use Rattle.rules_fields.specs.Types.{chosen};
ghost use Rattle.std.specs.List.{list_any};
ghost use Rattle.http1_message_parts.specs.Host.{is_host, normal_host};
ghost use Rattle.http1_message_parts.specs.Target.{names_host};
ghost use Rattle.rules_ffi_arguments.specs.Rooms.{line_text};
ghost use Rattle.rules_quick.specs.Plain.{start_text, is_plain_method, is_plain_target, is_plain_choice, IsPlainBut};

use crate::lines::{cut_line, plain_line};
use crate::start::{PlainStart, plain_start};
use http1_message_parts::host::{is_host, is_host_of};
use rules_fields::Line;
use rules_fields::blanks::is_small;
use rules_fields::types::Options;

/// What comes first in a plain request.
#[derive(Clone, Copy, Debug)]
pub struct Front<'a> {
    /// The request line.
    pub row: &'a [u8],
    /// Its method and target.
    pub start: PlainStart<'a>,
    /// The line of Host.
    pub host: Line<'a>,
    /// What follows the request line.
    pub lines: &'a [u8],
    /// What follows the line of Host.
    pub behind: &'a [u8],
}

// A line of Host in front, and what follows it.
fn host_line(text: &[u8]) -> Option<(Line<'_>, &[u8])>
    ensures is { IfSome result (λ r. text.now ≡ line_text (field r.0) ++ r.1.now) }
    ensures plain { IfSome result (λ r. IsPlainBut (field r.0)) }
    ensures shorter { IfSome result (λ r. length r.1.now ≤ length text.now) }
    ensures host { IfSome result (λ r. (small r.0.name.now ≡ codes "host") × (is_host r.0.value.now ≡ true)) }
{
    let (row, behind) = cut_line(text)?;
    let line = plain_line(row)?;
    if is_small(line.name, b"host") && is_host(line.value) {
        Some((line, behind))
    } else {
        None
    }
}

/// What comes first in bytes.
pub fn front_of(bytes: &[u8]) -> Option<Front<'_>>
    ensures is { IfSome result (λ f. bytes.now ≡ start_text f.start.method.now f.start.target.now ++ (13 ∷ 10 ∷ f.lines.now)) }
    ensures row { IfSome result (λ f. f.row.now ≡ start_text f.start.method.now f.start.target.now) }
    ensures start { IfSome result (λ f. (is_plain_method f.start.method.now ≡ true) × (is_plain_target f.start.target.now ≡ true)) }
    ensures lines { IfSome result (λ f. f.lines.now ≡ line_text (field f.host) ++ f.behind.now) }
    ensures plain { IfSome result (λ f. IsPlainBut (field f.host)) }
    ensures within { IfSome result (λ f. (length f.behind.now ≤ length f.lines.now) × (length f.lines.now ≤ length bytes.now)) }
    ensures host { IfSome result (λ f. (small f.host.name.now ≡ codes "host") × (is_host f.host.value.now ≡ true)) }
{
    let (row, lines) = cut_line(bytes)?;
    let start = plain_start(row)?;
    let (host, behind) = host_line(lines)?;
    Some(Front {
        row,
        start,
        host,
        lines,
        behind,
    })
}

fn keeps_all_cookies(options: &Options<'_>) -> bool
    ensures { result ≡ not (is_some (chosen options.now).cookie_keeps) }
{
    match options.cookie_keeps {
        None => true,
        Some(_) => false,
    }
}

/// Whether nothing that an operator chose changes how a plain request is read, but its hosts and what he drops.
pub fn is_plain_choice(options: &Options<'_>) -> bool
    ensures { result ≡ is_plain_choice (chosen options.now) }
{
    !options.folds_percent
        && options.query_drops.is_empty()
        && !options.query_sorts
        && options.encodings.is_empty()
        && keeps_all_cookies(options)
}

/// Whether a method is one of these, byte for byte.
pub fn is_among(methods: &[&[u8]], method: &[u8]) -> bool
    ensures { result ≡ among (map (λ m. m.now) methods.now) method.now }
{
    for m in methods {
        if method == *m {
            return true;
        }
    }
    false
}

// Whether a host, which is in the form that counts, is one of these.
fn is_word(words: &[&[u8]], host: &[u8], scheme: &[u8]) -> bool
    ensures { result ≡ list_any (λ word. bytes_eq (normal_host scheme.now word) host.now) (map (λ h. h.now) words.now) }
{
    for word in words {
        if is_host_of(word, host, scheme) {
            return true;
        }
    }
    false
}

/// Whether the operator serves a host, which is in the form that counts.
#[tactic(auto, unfolding(http1_message_parts::specs::Target::names_host))]
pub fn is_served(options: &Options<'_>, host: &[u8]) -> bool
    ensures { result ≡ names_host (chosen options.now).hosts options.now.scheme.now host.now }
{
    options.hosts.is_empty() || is_word(options.hosts, host, options.scheme)
}
