//! The trailers behind the chunks of a body (RFC 9112, 7.1.2).
ghost use Rattle.std.specs.Prelude.{◌≡◌, IfOk};
ghost use Rattle.rules_fields.specs.Fields.{fields};
ghost use Rattle.rules_ffi_results.specs.Trailers.{section_of, is_empty_section, going_on, own_block, whole_section, behind_chunks};

use http1_message_parts::end::head_end;
use http1_message_parts::rows::{has_bare_end, read_fields};
use rules_ffi_arguments::room::add_block;
use rules_fields::Line;
use rules_fields::lines::without;
use rules_fields::tables::{FRAMES, HOP};
use std::alloc::{AllocError, Global};

/// The most lines of trailers.
const MOST_LINES: u64 = 250;

/// What comes behind the last chunk.
#[derive(Drop)]
pub enum Section {
    /// A block of lines, behind so many bytes: those that aren't of the hop.
    Whole(Vec<u8>, usize),
    /// They go on.
    More,
    /// They are none.
    Bad,
}

/// What comes behind the last chunk; `looked` bytes were looked at before. `most` is the most that they may have.
#[tactic(auto, unfolding(crate::specs::Trailers::behind_chunks))]
pub fn trailers(
    alloc: Global,
    bytes: &[u8],
    looked: usize,
    most: u64,
) -> Result<Section, AllocError>
    ensures { IfOk result (λ s. section_of s ≡ behind_chunks bytes.now looked most) }
{
    if is_empty_section(bytes) {
        return Ok(Section::Whole(Vec::new(alloc), 2));
    }
    match head_end(bytes, looked) {
        None => Ok(going_on(bytes.len(), most)),
        Some(end) => whole(alloc, &bytes[..end], most),
    }
}

// No field line at all.
fn is_empty_section(bytes: &[u8]) -> bool
    ensures { result ≡ is_empty_section bytes.now }
{
    match bytes {
        [a, b, ..] => *a == b'\r' && *b == b'\n',
        _ => false,
    }
}

// Not whole yet.
fn going_on(len: usize, most: u64) -> Section
    ensures { section_of result ≡ going_on len most }
{
    if len as u64 > most {
        Section::Bad
    } else {
        Section::More
    }
}

// A whole one.
fn whole(alloc: Global, text: &[u8], most: u64) -> Result<Section, AllocError>
    ensures { IfOk result (λ s. section_of s ≡ whole_section text.now most) }
{
    if text.len() as u64 > most || has_bare_end(text) {
        return Ok(Section::Bad);
    }
    match read_fields(alloc, text, MOST_LINES)? {
        Err(_) => Ok(Section::Bad),
        Ok(lines) => Ok(Section::Whole(own_block(alloc, lines.as_slice())?, text.len())),
    }
}

// The block of the lines that go on.
fn own_block(alloc: Global, lines: &[Line<'_>]) -> Result<Vec<u8>, AllocError>
    ensures { IfOk result (λ v. v.items ≡ own_block (fields lines.now)) }
{
    let kept = without(alloc, lines, HOP)?;
    let own = without(alloc, kept.as_slice(), FRAMES)?;
    let mut block = Vec::new(alloc);
    add_block(&mut block, own.as_slice())?;
    Ok(block)
}
