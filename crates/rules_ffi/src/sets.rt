//! Sets of Vary: what a list's body has.
ghost use Rattle.std.specs.Prelude.{◌≡◌, ◌≤◌, ◌+◌, ◌++◌, [], length, map, take, bytes_eq, IfOk, OnOk};
ghost use Rattle.std.specs.List.{position_or_len};
ghost use Rattle.std.specs.Option.{option_map_or};
ghost use Rattle.rules_fields.specs.Fields.{fields};
ghost use Rattle.http1_message_parts.specs.Lines.{lines_of};
ghost use Rattle.rules_storage.specs.Selecting.{counting};
ghost use Rattle.rules_ffi.specs.Sets.{front, behind_front, sets_of, ended, place_of, has_place, varies, vary_alike};
ghost use Rattle.rules_ffi.specs.SetViews.{set_of};

use http1_message_parts::rows::first_line;
use rules_fields::Line;
use rules_storage::selecting::counting;
use std::alloc::{AllocError, Global};

/// A token, and the names by which the responses vary that are stored under it.
#[derive(Drop)]
pub struct VarySet<'a> {
    /// The token.
    pub token: &'a [u8],
    /// The names.
    pub names: Vec<&'a [u8]>,
}

// The lines up to an empty one, and what is behind that.
fn front<'a>(
    alloc: Global,
    from: Option<&'a [u8]>,
) -> Result<(Vec<&'a [u8]>, Option<&'a [u8]>), AllocError>
    ensures lines { IfOk result (λ r. map (λ l. l.now) r.0.items ≡ front (option_map_or (λ t. lines_of t.now) from.entry [])) }
    ensures behind { IfOk result (λ r. option_map_or (λ t. lines_of t.now) r.1 [] ≡ behind_front (option_map_or (λ t. lines_of t.now) from.entry [])) }
    ensures shorter { IfOk result (λ r. option_map_or (λ t. length t.now + 1) r.1 0 ≤ option_map_or (λ t. length t.now + 1) from.entry 0) }
{
    let mut lines = Vec::new(alloc);
    let mut left = from;
    while let Some(text) = left {
        let (line, rest) = first_line(text);
        left = rest;
        if line.is_empty() {
            return Ok((lines, left));
        }
        lines.push(line)?;
    }
    Ok((lines, left))
}

/// The sets of a list's body: at most four.
pub fn sets_of<'a>(alloc: Global, list: &'a [u8]) -> Result<Vec<VarySet<'a>>, AllocError>
    ensures { IfOk result (λ v. map set_of v.items ≡ sets_of list.now) }
{
    let mut sets = Vec::new(alloc);
    let mut left = Some(list);
    let mut most: u64 = 4;
    while let Some(text) = left {
        let (token, rest) = first_line(text);
        if token.is_empty() || most == 0 {
            return Ok(sets);
        }
        let (names, behind) = front(alloc, rest)?;
        sets.push(VarySet { token, names })?;
        left = behind;
        most -= 1;
    }
    Ok(sets)
}

/// Adds names, each with a LF behind it.
pub fn add_names(text: &mut Vec<u8>, names: &[&[u8]]) -> Result<(), AllocError>
    ensures { OnOk result (text.new.items ≡ text.old.items ++ ended (map (λ n. n.now) names.now)) }
{
    for name in names {
        text.extend_from_slice(name)?;
        text.push(b'\n')?;
    }
    Ok(())
}

/// The names by which lines vary, each with a LF behind it.
pub fn names_text(alloc: Global, lines: &[Line<'_>]) -> Result<Vec<u8>, AllocError>
    ensures { IfOk result (λ text. text.items ≡ ended (counting (fields lines.now))) }
{
    let names = counting(alloc, lines)?;
    made_text(alloc, names.as_slice())
}

/// Names, each with a LF behind it.
pub fn made_text(alloc: Global, names: &[Vec<u8>]) -> Result<Vec<u8>, AllocError>
    ensures { IfOk result (λ text. text.items ≡ ended (map (λ n. n.items) names.now)) }
{
    let mut text = Vec::new(alloc);
    for name in names {
        text.extend_from_slice(name.as_slice())?;
        text.push(b'\n')?;
    }
    Ok(text)
}

// Whether a set has the names of this text.
fn has_names(alloc: Global, set: &VarySet<'_>, wanted: &[u8]) -> Result<bool, AllocError>
    ensures { IfOk result (λ b. b ≡ bytes_eq (ended (set_of set.now).names) wanted.now) }
{
    let mut text = Vec::new(alloc);
    add_names(&mut text, set.names.as_slice())?;
    Ok(text.as_slice() == wanted)
}

/// The place of the set that has the names of this text; as many as there are sets where none has.
pub fn place_of(alloc: Global, sets: &[VarySet<'_>], wanted: &[u8]) -> Result<u64, AllocError>
    ensures { IfOk result (λ n. n ≡ position_or_len (λ s. bytes_eq (ended s.names) wanted.now) (map set_of sets.now)) }
{
    for (i, set) in sets.iter().enumerate() {
        if has_names(alloc, set, wanted)? {
            return Ok(i as u64);
        }
    }
    Ok(sets.len() as u64)
}

/// The place of responses that vary by these names among the sets, and whether they have it: there is such a set, or no list, and they vary by nothing.
pub fn placed(
    alloc: Global,
    names: &[Vec<u8>],
    sets: &[VarySet<'_>],
) -> Result<(u64, bool), AllocError>
    ensures place { IfOk result (λ r. r.0 ≡ place_of (map (λ n. n.items) names.now) (map set_of sets.now)) }
    ensures has { IfOk result (λ r. r.1 ≡ has_place (map (λ n. n.items) names.now) (map set_of sets.now)) }
{
    let wanted = made_text(alloc, names)?;
    let place = place_of(alloc, sets, wanted.as_slice())?;
    let has = place < sets.len() as u64 || sets.is_empty() && names.is_empty();
    Ok((place, has))
}

/// Whether the set of these lines isn't in a list.
pub fn varies(alloc: Global, list: &[u8], lines: &[Line<'_>]) -> Result<bool, AllocError>
    ensures { IfOk result (λ b. b ≡ varies list.now (fields lines.now)) }
{
    let names = counting(alloc, lines)?;
    let sets = sets_of(alloc, list)?;
    let (_, has) = placed(alloc, names.as_slice(), sets.as_slice())?;
    Ok(!has)
}

/// Whether two heads vary by the same names.
pub fn vary_alike(alloc: Global, lines: &[Line<'_>], other: &[Line<'_>]) -> Result<bool, AllocError>
    ensures { IfOk result (λ b. b ≡ vary_alike (fields lines.now) (fields other.now)) }
{
    let mine = names_text(alloc, lines)?;
    let theirs = names_text(alloc, other)?;
    Ok(mine == theirs)
}
