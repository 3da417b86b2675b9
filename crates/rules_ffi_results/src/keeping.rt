//! What is told of what is stored, or isn't: its head, and the lines that are shown to who fetched it.
ghost use Rattle.std.specs.Prelude.{◌≡◌, ◌++◌, length, IfOk, OnOk};
ghost use Rattle.rules_fields.specs.Types.{answered_of};
ghost use Rattle.rules_storage.specs.Kept.{stored_head};
ghost use Rattle.rules_ffi_arguments.specs.Rooms.{block, behind};
ghost use Rattle.rules_ffi_results.specs.Heads.{length_line};
ghost use Rattle.rules_ffi_results.specs.Keeping.{no_meta, no_head, unkept, stored_text, shown_text};
ghost use Rattle.rules_ffi_results.specs.Keeping.{shown_count, meta_from, keeping, leaving, not_kept};

use crate::heads::{add_counted, add_status};
use crate::marks::{KEPT, NOT_KEPT, NOWHERE, mark};
use crate::reasons::reason_number;
use rules_ffi_arguments::kept::{head_of, meta_of};
use rules_ffi_arguments::room::{add_block, add_lines};
use rules_ffi_arguments::shapes::{HeadShape, KeptShape, Lent, MetaShape, Moment, Span};
use rules_fields::types::Response;
use rules_storage::kept::Stored;
use rules_storage::reason::Reason;
use std::alloc::{AllocError, Global};

const ZERO: Moment = Moment {
    seconds: 0,
    nanoseconds: 0,
};

/// No meta.
pub fn no_meta() -> MetaShape
    ensures { result ≡ no_meta }
{
    MetaShape {
        fresh_until: ZERO,
        created: ZERO,
        updated: ZERO,
        provenance: ZERO,
        stale_while_revalidate: 0,
        stale_if_error: 0,
        external: 0,
        reserved: 0,
    }
}

/// No head.
pub fn no_head() -> HeadShape
    ensures { result ≡ no_head }
{
    HeadShape {
        status: 0,
        lines: 0,
        fresh_until: ZERO,
        created: ZERO,
        updated: ZERO,
        provenance: ZERO,
        stale_while_revalidate: 0,
        stale_if_error: 0,
        external: 0,
        block: Lent { at: 0, len: 0 },
        reserved: 0,
    }
}

// Adds the lines that are stored, with the length that was stated.
fn add_fields(text: &mut Vec<u8>, stored: &Stored<'_>) -> Result<(), AllocError>
    ensures { OnOk result (text.new.items ≡ text.old.items ++ block (stored_head stored.now).lines) }
{
    add_lines(text, stored.lines.as_slice())?;
    add_length(text, stored.length)?;
    Ok(())
}

// Adds the head that is stored.
#[tactic(auto, unfolding(crate::specs::Keeping::stored_text))]
fn add_stored(text: &mut Vec<u8>, stored: &Stored<'_>) -> Result<Span, AllocError>
    ensures text { OnOk result (text.new.items ≡ text.old.items ++ stored_text (stored_head stored.now)) }
    ensures span { IfOk result (λ s. s ≡ behind (length text.old.items) (stored_text (stored_head stored.now))) }
{
    let from = text.len() as u64;
    add_status(text, stored.status)?;
    add_fields(text, stored)?;
    text.extend_from_slice(b"\r\n")?;
    Ok(Span {
        from,
        to: text.len() as u64,
    })
}

fn add_length(text: &mut Vec<u8>, length: Option<u64>) -> Result<(), AllocError>
    ensures { OnOk result (text.new.items ≡ text.old.items ++ length_line length) }
{
    match length {
        None => Ok(()),
        Some(n) => add_counted(text, b"Content-Length", n),
    }
}

// Adds the lines of a response as they came, with the length that it states.
#[tactic(auto, unfolding(crate::specs::Keeping::shown_text))]
fn add_shown(text: &mut Vec<u8>, response: &Response<'_>) -> Result<Span, AllocError>
    ensures text { OnOk result (text.new.items ≡ text.old.items ++ shown_text (answered_of response.now)) }
    ensures span { IfOk result (λ s. s ≡ behind (length text.old.items) (shown_text (answered_of response.now))) }
{
    let block = add_block(text, response.lines)?;
    add_length(text, response.framing.stated())?;
    Ok(Span {
        from: block.from,
        to: text.len() as u64,
    })
}

fn meta_from(stored: &Stored<'_>) -> MetaShape
    ensures { result ≡ meta_from (stored_head stored.now) }
{
    meta_of(
        stored.arrival,
        stored.lifetime,
        stored.stale_while_revalidate,
        stored.stale_if_error,
    )
}

fn count(response: &Response<'_>) -> u64
    ensures { result ≡ shown_count (answered_of response.now) }
{
    let length = mark(response.framing.stated().is_some(), 1);
    (response.lines.len() as u64).saturating_add(length)
}

/// What is to be stored, with the lines as they came, and whether what was found goes.
pub fn keeping(
    alloc: Global,
    stored: &Stored<'_>,
    response: &Response<'_>,
    varies: bool,
    goes: bool,
) -> Result<(Vec<u8>, KeptShape), AllocError>
    ensures { IfOk result (λ t. (t.0.items, t.1) ≡ keeping (stored_head stored.now) (answered_of response.now) varies goes) }
{
    let mut text = Vec::new(alloc);
    let head = add_stored(&mut text, stored)?;
    let block = add_shown(&mut text, response)?;
    let meta = meta_from(stored);
    let told = KeptShape {
        varies: mark(varies, 1),
        removes: mark(goes, 1),
        meta,
        shown: head_of(stored.status, count(response), &meta),
        head,
        block,
        ..unkept(KEPT, 0)
    };
    Ok((text, told))
}

/// What isn't stored, with the lines as they came, from an arrival on; it is stale.
pub fn leaving(
    alloc: Global,
    told: KeptShape,
    arrived: i128,
    response: &Response<'_>,
) -> Result<(Vec<u8>, KeptShape), AllocError>
    ensures { IfOk result (λ t. (t.0.items, t.1) ≡ leaving told arrived (answered_of response.now)) }
{
    let mut text = Vec::new(alloc);
    let block = add_shown(&mut text, response)?;
    let meta = meta_of(arrived, 0, 0, 0);
    let told = KeptShape {
        shown: head_of(response.status, count(response), &meta),
        block,
        ..told
    };
    Ok((text, told))
}

/// What isn't stored, by its reason; whether what was found goes, and whether the next one won't be stored either.
pub fn not_kept(reason: Reason, removes: bool, predicts: bool) -> KeptShape
    ensures { result ≡ not_kept reason removes predicts }
{
    KeptShape {
        reason: reason_number(reason),
        removes: mark(removes, 1),
        predicts_uncacheable: mark(predicts, 1),
        ..unkept(NOT_KEPT, 0)
    }
}

/// Nothing that is to be stored.
pub fn unkept(status: u64, needed: u64) -> KeptShape
    ensures { result ≡ unkept status needed }
{
    KeptShape {
        status,
        needed,
        reason: 0,
        removes: 0,
        predicts_uncacheable: 0,
        varies: 0,
        place: 0,
        meta: no_meta(),
        shown: no_head(),
        head: NOWHERE,
        block: NOWHERE,
        body: NOWHERE,
        reserved: 0,
    }
}
