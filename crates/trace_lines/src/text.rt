//! Writing a line. Each is added to what waits, with the line feed that ends it. The only error is out of memory, which leaves what waits
//! as it was.
ghost use Rattle.std.specs.Prelude.{◌≡◌, ◌++◌, ◌∷◌, ◌+◌, ◌≤◌, [], codes, decimal, IfOk, OnOk, OnErr, IsOk, string_bytes, vec_len, vec_capacity};
ghost use Rattle.trace_lines.specs.Texts.{fault_label, found_text, lock_text, waited_text, bytes_text, answer_text, outcome_text, field_text, reason_text, refusal_text};

use crate::hex_text;
use crate::line::{FieldName, Refusal};
use cache_lock::LockStatus;
use itoa::Buffer;
use std::alloc::{AllocError, Global};
use tier_model::event::{Answer, LockGiven, TierFault};

mod report;

pub use report::add_report_line;

// Room for a usual text.
const USUAL: usize = 64;

// An empty text, which grows to a usual one without another allocation.
fn empty_text(alloc: Global) -> Result<String, AllocError>
    ensures { IfOk result (λ text. string_bytes text ≡ []) }
{
    String::with_capacity(alloc, USUAL)
}

// Adds a text and a line feed.
pub(crate) fn add_line(out: &mut Vec<u8>, text: &str) -> Result<(), AllocError>
    ensures ok { OnOk result (out.new.items ≡ out.old.items ++ (text.now ++ 10 ∷ [])) }
    ensures err { OnErr result (out.new.items ≡ out.old.items) }
{
    out.reserve(text.len() + 1)?;
    out.extend_from_slice(text.as_bytes())?;
    out.push_reserved(b'\n');
    Ok(())
}

/// Adds the line for the outcome of an event.
pub fn add_outcome_line(
    alloc: Global,
    out: &mut Vec<u8>,
    outcome: &Result<Answer, TierFault>,
) -> Result<(), AllocError>
    ensures ok { OnOk result (out.new.items ≡ out.old.items ++ (outcome_text outcome.now ++ 10 ∷ [])) }
    ensures err { OnErr result (out.new.items ≡ out.old.items) }
{
    match outcome {
        Ok(answer) => add_answer_line(alloc, out, answer),
        Err(fault) => {
            let (number, name) = fault_label(fault);
            let mut text = empty_text(alloc)?;
            write!(text, "fault {number} {name}")?;
            add_line(out, text.as_str())
        }
    }
}

fn add_answer_line(alloc: Global, out: &mut Vec<u8>, answer: &Answer) -> Result<(), AllocError>
    ensures ok { OnOk result (out.new.items ≡ out.old.items ++ (answer_text answer.now ++ 10 ∷ [])) }
    ensures err { OnErr result (out.new.items ≡ out.old.items) }
{
    match answer {
        Answer::Opened => add_line(out, "opened"),
        Answer::Found {
            fresh,
            complete,
            lock,
        } => add_look_up_line(out, found_text(*fresh, *complete), *lock),
        Answer::Absent { lock } => add_look_up_line(out, "absent", *lock),
        Answer::Waited(status) => add_line(out, waited_text(*status)),
        Answer::Begun => add_line(out, "begun"),
        Answer::Written => add_line(out, "written"),
        Answer::Bytes(bytes) => add_bytes_line(out, bytes.as_slice()),
        Answer::Pending => add_line(out, "pending"),
        Answer::End => add_line(out, "end"),
        Answer::Dropped => add_line(out, "dropped"),
        Answer::Purged(was_stored) => {
            add_line(out, if *was_stored { "purged" } else { "nothing" })
        }
        Answer::Finished { length, evicted } => {
            add_finished_line(out, *length, evicted.as_slice().len())
        }
        Answer::Uncacheable(reason) => {
            let reason = reason.as_str();
            let mut text = empty_text(alloc)?;
            write!(text, "uncacheable {reason}")?;
            add_line(out, text.as_str())
        }
        Answer::Revalidated { evicted } => {
            let count = evicted.as_slice().len();
            let mut text = empty_text(alloc)?;
            write!(text, "revalidated evicted={count}")?;
            add_line(out, text.as_str())
        }
    }
}

// The numbers are written where they wait, with no text in between, as this answers each body that is stored.
fn add_finished_line(out: &mut Vec<u8>, length: usize, count: usize) -> Result<(), AllocError>
    ensures ok { OnOk result (out.new.items ≡ out.old.items ++ ((codes "finished " ++ (decimal length ++ (codes " evicted=" ++ decimal count))) ++ 10 ∷ [])) }
    ensures err { OnErr result (out.new.items ≡ out.old.items) }
{
    out.reserve(USUAL)?;
    out.extend_from_slice(b"finished ")?;
    add_number(out, length)?;
    out.extend_from_slice(b" evicted=")?;
    add_number(out, count)?;
    out.push_reserved(b'\n');
    Ok(())
}

// Adds the digits of a number, at most 20. It succeeds where there is room for so many.
fn add_number(out: &mut Vec<u8>, number: usize) -> Result<(), AllocError>
    ensures ok { OnOk result (out.new.items ≡ out.old.items ++ decimal number) }
    ensures len { vec_len out.new ≤ vec_len out.old + 20 }
    ensures capacity { vec_capacity out.old ≤ vec_capacity out.new }
    ensures succeeds { vec_len out.old + 20 ≤ vec_capacity out.old → IsOk result }
{
    let mut buffer = Buffer::new();
    out.extend_from_slice(buffer.format(number).as_bytes())
}

fn found_text(fresh: bool, complete: bool) -> &'static str
    ensures { result.now ≡ found_text fresh complete }
{
    match (fresh, complete) {
        (true, true) => "found fresh complete",
        (true, false) => "found fresh partial",
        (false, true) => "found stale complete",
        (false, false) => "found stale partial",
    }
}

// Adds what a look-up found, and what it got of the lock. Both go where the line waits, as this answers each look-up.
fn add_look_up_line(out: &mut Vec<u8>, found: &str, lock: LockGiven) -> Result<(), AllocError>
    ensures ok { OnOk result (out.new.items ≡ out.old.items ++ ((found.now ++ lock_text lock) ++ 10 ∷ [])) }
    ensures err { OnErr result (out.new.items ≡ out.old.items) }
{
    let lock = lock_text(lock);
    out.reserve(found.len() + lock.len() + 1)?;
    out.extend_from_slice(found.as_bytes())?;
    out.extend_from_slice(lock.as_bytes())?;
    out.push_reserved(b'\n');
    Ok(())
}

fn lock_text(lock: LockGiven) -> &'static str
    ensures { result.now ≡ lock_text lock }
{
    match lock {
        LockGiven::None => " lock=none",
        LockGiven::Write => " lock=write",
        LockGiven::Read => " lock=read",
    }
}

fn waited_text(status: Option<LockStatus>) -> &'static str
    ensures { result.now ≡ waited_text status }
{
    match status {
        None => "pending",
        Some(LockStatus::Waiting) => "waited waiting",
        Some(LockStatus::Done) => "waited done",
        Some(LockStatus::TransientError) => "waited transient-error",
        Some(LockStatus::GiveUp) => "waited give-up",
        Some(LockStatus::Dangling) => "waited dangling",
        Some(LockStatus::WaitTimeout) => "waited wait-timeout",
        Some(LockStatus::AgeTimeout) => "waited age-timeout",
    }
}

fn add_bytes_line(out: &mut Vec<u8>, bytes: &[u8]) -> Result<(), AllocError>
    ensures ok { OnOk result (out.new.items ≡ out.old.items ++ ((codes "bytes " ++ bytes_text bytes.now) ++ 10 ∷ [])) }
    ensures err { OnErr result (out.new.items ≡ out.old.items) }
{
    if bytes.is_empty() {
        return add_line(out, "bytes -");
    }
    let digits = bytes.len() * 2;
    let Some(room) = digits.checked_add(7) else {
        return Err(AllocError);
    };
    out.reserve(room)?;
    out.extend_from_slice(b"bytes ")?;
    let start = out.len();
    out.resize(start + digits, 0)?;
    hex_text::encode_after(bytes, out.as_mut_slice(), start);
    out.push_reserved(b'\n');
    Ok(())
}

// A fault's number and name.
fn fault_label(fault: &TierFault) -> (u8, &'static str)
    ensures { (result.0, result.1.now) ≡ fault_label fault.now }
{
    match fault {
        TierFault::NoRequest => (1, "NoRequest"),
        TierFault::IdInUse => (2, "IdInUse"),
        TierFault::WrongPhase => (3, "WrongPhase"),
        TierFault::Waiting => (4, "Waiting"),
        TierFault::AfterEnd => (5, "AfterEnd"),
        TierFault::BadHead => (6, "BadHead"),
        TierFault::WriteRemoved => (7, "WriteRemoved"),
        TierFault::BeforeEpoch => (8, "BeforeEpoch"),
        TierFault::Incomplete => (9, "Incomplete"),
        TierFault::NumbersSpent(_) => (10, "NumbersSpent"),
        TierFault::TooHeavy(_) => (11, "TooHeavy"),
        TierFault::TooLong(_) => (12, "TooLong"),
        TierFault::Memory(_) => (13, "Memory"),
        TierFault::Folder => (14, "Folder"),
        TierFault::NoRecord => (15, "NoRecord"),
        TierFault::NotStored => (17, "NotStored"),
    }
}

/// Adds the line for a refused line.
pub fn add_refusal_line(out: &mut Vec<u8>, refusal: &Refusal) -> Result<(), AllocError>
    ensures ok { OnOk result (out.new.items ≡ out.old.items ++ (refusal_text refusal.now ++ 10 ∷ [])) }
    ensures err { OnErr result (out.new.items ≡ out.old.items) }
{
    match refusal {
        Refusal::NotJson => add_line(out, "refused NotJson"),
        Refusal::NotObject => add_line(out, "refused NotObject"),
        Refusal::Op => add_line(out, "refused Op"),
        Refusal::Field(field) => add_line(out, field_refusal_text(*field)),
    }
}

fn field_refusal_text(field: FieldName) -> &'static str
    ensures { result.now ≡ refusal_text (Refusal.Field field) }
{
    match field {
        FieldName::At => "refused Field at",
        FieldName::Id => "refused Field id",
        FieldName::Key => "refused Field key",
        FieldName::Digest => "refused Field digest",
        FieldName::Variance => "refused Field variance",
        FieldName::Tag => "refused Field tag",
        FieldName::Lock => "refused Field lock",
        FieldName::Head => "refused Field head",
        FieldName::Bytes => "refused Field bytes",
        FieldName::End => "refused Field end",
        FieldName::Pieces => "refused Field pieces",
        FieldName::Until => "refused Field until",
        FieldName::Created => "refused Field created",
        FieldName::Updated => "refused Field updated",
        FieldName::Provenance => "refused Field provenance",
        FieldName::While => "refused Field while",
        FieldName::Error => "refused Field error",
        FieldName::External => "refused Field external",
    }
}
