//! What a client is sent, and a judgement.
use crate::show;
use rules_ffi_results::reasons::{reason_name, reason_number};
use rules_fields::types::Request;
use rules_response::answering::{Answer, Part};
use rules_storage::kept::{Judged, Stored};
use rules_storage::predicting::predicts_uncacheable;
use rules_storage::reason::Reason;
use std::alloc::AllocError;

/// An answer: its status, its lines, and the texts and places of its parts.
pub fn answer(out: &mut String, answer: &Answer<'_>) -> Result<(), AllocError> {
    show::begin(out, "answer")?;
    show::add_number(out, answer.status as u64)?;
    show::add_sent(out, answer.lines.as_slice())?;
    match &answer.parts {
        None => show::add_optional(out, None)?,
        Some(parts) => add_parts(out, parts.as_slice())?,
    }
    show::add_text(out, answer.after.as_slice())?;
    show::end(out)
}

fn add_parts(out: &mut String, parts: &[Part]) -> Result<(), AllocError> {
    show::add_number(out, parts.len() as u64)?;
    for part in parts {
        show::add_text(out, part.before.as_slice())?;
        show::add_number(out, part.from)?;
        show::add_optional(out, part.to)?;
    }
    Ok(())
}

/// A judgement.
pub fn judged(
    out: &mut String,
    judged: &Judged<'_>,
    request: &Request<'_>,
) -> Result<(), AllocError> {
    match judged {
        Judged::Kept(kept) => stored(out, kept),
        Judged::Refused(reason, removes) => {
            show::begin(out, "not_stored")?;
            show::add_text(out, reason_word(*reason))?;
            show::add_number(out, if *removes { 1 } else { 0 })?;
            let predicts = predicts_uncacheable(*reason, request);
            show::add_number(out, if predicts { 1 } else { 0 })?;
            show::end(out)
        }
    }
}

// The status, the lines but for Content-Length, that, and the times.
fn stored(out: &mut String, kept: &Stored<'_>) -> Result<(), AllocError> {
    show::begin(out, "kept")?;
    show::add_number(out, kept.status as u64)?;
    show::add_lines(out, kept.lines.as_slice())?;
    show::add_optional(out, kept.length)?;
    show::add_moment(out, kept.arrival)?;
    show::add_number(out, kept.lifetime)?;
    show::add_number(out, kept.stale_while_revalidate)?;
    show::add_number(out, kept.stale_if_error)?;
    show::end(out)
}

fn reason_word(reason: Reason) -> &'static [u8] {
    reason_name(reason_number(reason))
}
