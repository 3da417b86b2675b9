//! The names by which a response varies.
ghost use Rattle.std.specs.Prelude.{◌≡◌, map, IfOk};
ghost use Rattle.rules_fields.specs.Fields.{fields};
ghost use Rattle.rules_fields.specs.Texts.{small};
ghost use Rattle.rules_storage.specs.Selecting.{counting, placed_all, selecting, without_host};

use rules_fields::Line;
use rules_fields::lines::elements;
use std::alloc::{AllocError, Global};
use std::collections::BTreeSet;

/// The names that Vary has, in small letters and in the order of the alphabet, each once.
pub fn selecting(alloc: Global, lines: &[Line<'_>]) -> Result<Vec<Vec<u8>>, AllocError>
    ensures { IfOk result (λ names. map (λ n. n.items) names.items ≡ selecting (fields lines.now)) }
{
    let found = elements(alloc, lines, b"vary")?;
    placed_all(alloc, found.as_slice())
}

/// Those that count: `host` is in the first key.
pub fn counting(alloc: Global, lines: &[Line<'_>]) -> Result<Vec<Vec<u8>>, AllocError>
    ensures { IfOk result (λ names. map (λ n. n.items) names.items ≡ counting (fields lines.now)) }
{
    without_host(alloc, selecting(alloc, lines)?)
}

fn without_host(alloc: Global, found: Vec<Vec<u8>>) -> Result<Vec<Vec<u8>>, AllocError>
    ensures { IfOk result (λ left. map (λ n. n.items) left.items ≡ without_host (map (λ n. n.items) found.items)) }
{
    let mut left = Vec::new(alloc);
    for name in found {
        if name.as_slice() != b"host".as_slice() {
            left.push(name)?;
        }
    }
    Ok(left)
}

// These names in the order of the alphabet, each once. A head may name many, so they are sorted by a tree.
fn placed_all(alloc: Global, found: &[&[u8]]) -> Result<Vec<Vec<u8>>, AllocError>
    ensures { IfOk result (λ names. map (λ n. n.items) names.items ≡ placed_all (map (λ e. e.now) found.now)) }
{
    let mut names = BTreeSet::new(alloc);
    for name in found {
        match names.insert(to_small(alloc, name)?) {
            Ok(_) => {}
            Err(_) => return Err(AllocError),
        }
    }
    listed(alloc, names)
}

// The names of a set, in its order.
fn listed(alloc: Global, names: BTreeSet<Vec<u8>>) -> Result<Vec<Vec<u8>>, AllocError>
    ensures { IfOk result (λ list. list.items ≡ names.keys) }
{
    let mut list = Vec::with_capacity(alloc, names.len())?;
    for name in names {
        list.push(name)?;
    }
    Ok(list)
}

/// A text in small letters.
pub fn to_small(alloc: Global, text: &[u8]) -> Result<Vec<u8>, AllocError>
    ensures { IfOk result (λ t. t.items ≡ small text.now) }
{
    let mut cased = Vec::with_capacity(alloc, text.len())?;
    for b in text {
        cased.push(b.to_ascii_lowercase())?;
    }
    Ok(cased)
}
