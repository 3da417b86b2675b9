//! What distinguishes notes.
ghost use Rattle.std.specs.Prelude.{◌≡◌, ◌↔◌, IsTrue};
ghost use Rattle.tier_recorded.specs.declared.note.Note.TheVariants.{Answered, Uncacheable, Refused};
ghost use Rattle.tier_recorded.specs.Seen.{is_custom, seen_reason, seen_note};

use crate::note::{AnswerNote, FaultNote, Note};
use cache_heads::NoCacheReason;

fn is_custom(reason: &NoCacheReason) -> bool
    ensures { result ≡ is_custom reason.now }
{
    match reason {
        NoCacheReason::Custom(_) => true,
        _ => false,
    }
}

fn is_same_reason(a: &NoCacheReason, b: &NoCacheReason) -> bool
    ensures { IsTrue result ↔ (seen_reason a.now ≡ seen_reason b.now) }
{
    a.as_str() == b.as_str() && is_custom(a) == is_custom(b)
}

fn is_same_answer(a: &AnswerNote, b: &AnswerNote) -> bool
    ensures { IsTrue result ↔ (a.now ≡ b.now) }
{
    a == b
}

fn is_same_fault(a: &FaultNote, b: &FaultNote) -> bool
    ensures { IsTrue result ↔ (a.now ≡ b.now) }
{
    a == b
}

fn is_answered(b: &Note, with: &AnswerNote) -> bool
    ensures { IsTrue result ↔ (seen_note (Answered with.now) ≡ seen_note b.now) }
{
    match b {
        Note::Answered(answer) => is_same_answer(with, answer),
        _ => false,
    }
}

fn is_uncacheable(b: &Note, with: &NoCacheReason) -> bool
    ensures { IsTrue result ↔ (seen_note (Uncacheable with.now) ≡ seen_note b.now) }
{
    match b {
        Note::Uncacheable(reason) => is_same_reason(with, reason),
        _ => false,
    }
}

fn is_refused(b: &Note, with: &FaultNote) -> bool
    ensures { IsTrue result ↔ (seen_note (Refused with.now) ≡ seen_note b.now) }
{
    match b {
        Note::Refused(fault) => is_same_fault(with, fault),
        _ => false,
    }
}

/// Returns whether two notes are the same: of reasons, the name, and whether both are the user's own.
pub fn is_same_note(a: &Note, b: &Note) -> bool
    ensures { IsTrue result ↔ (seen_note a.now ≡ seen_note b.now) }
{
    match a {
        Note::Answered(answer) => is_answered(b, answer),
        Note::Uncacheable(reason) => is_uncacheable(b, reason),
        Note::Refused(fault) => is_refused(b, fault),
    }
}
