//! Reading a line.
ghost use Rattle.std.specs.Prelude.{◌≡◌, IfOk};
ghost use Rattle.cache_words.specs.Time.{MomentValue};
ghost use Rattle.trace_lines.specs.Lines.{action_of, event_of, event_in, line_of, IsRead};
ghost use Rattle.trace_lines.specs.Trees.{seen};

use crate::line::{Line, Operation, Refusal, Stop};
use crate::{fields, given, tree};
use cache_words::time::Moment;
use json::{Scratch, Value};
use std::alloc::{AllocError, Global};
use tier_model::event::{Action, Event};

// After a longer line no room for such lines is kept.
const MOST_KEPT: usize = 1 << 20;

/// Reads lines. It keeps what a read needs from line to line: 16 KiB, and room for the longest line, which is given back
/// after a line of more than 1 MiB.
#[derive(Drop)]
pub struct LineReader {
    scratch: Scratch,
}

impl LineReader {
    pub fn new(alloc: Global) -> LineReader {
        LineReader {
            scratch: Scratch::new(alloc),
        }
    }

    /// Reads a line, given without its line feed. The only error is out of memory.
    pub fn read(&mut self, alloc: Global, bytes: &[u8]) -> Result<Line, AllocError>
        ensures { IfOk result (λ line. line ≡ line_of bytes.now) }
    {
        let outcome = event_in(alloc, bytes, &mut self.scratch);
        if bytes.len() > MOST_KEPT {
            self.scratch = Scratch::new(alloc);
        }
        match outcome {
            Ok(event) => Ok(Line::Accepted(event)),
            Err(Stop::Refused(refusal)) => Ok(Line::Refused(refusal)),
            Err(Stop::Memory) => Err(AllocError),
        }
    }
}

fn event_in(alloc: Global, bytes: &[u8], scratch: &mut Scratch) -> Result<Event, Stop>
    ensures { IsRead result (event_in bytes.now) }
{
    let value = tree::parse(alloc, bytes, scratch)?;
    if !tree::is_object(&value) {
        return Err(Stop::Refused(Refusal::NotObject));
    }
    let operation = fields::operation(&value)?;
    event(alloc, operation, &value)
}

fn event(alloc: Global, operation: Operation, value: &Value<'_>) -> Result<Event, Stop>
    ensures { IsRead result (event_of operation (seen value.now)) }
{
    let moment = fields::moment(value)?;
    let action = action(alloc, operation, moment, value)?;
    Ok(Event { moment, action })
}

fn action(
    alloc: Global,
    operation: Operation,
    moment: Moment,
    value: &Value<'_>,
) -> Result<Action, Stop>
    ensures { IsRead result (action_of operation moment (seen value.now)) }
{
    match operation {
        Operation::Open => open(alloc, value),
        Operation::LookUp => Ok(Action::LookUp {
            request: fields::id(value)?,
        }),
        Operation::Poll => Ok(Action::Poll {
            request: fields::id(value)?,
        }),
        Operation::Begin => begin(alloc, value),
        Operation::Revalidate => revalidate(alloc, value),
        Operation::Piece => piece(alloc, value),
        Operation::Finish => Ok(Action::Finish {
            request: fields::id(value)?,
        }),
        Operation::Read => Ok(Action::Read {
            request: fields::id(value)?,
        }),
        Operation::Drop => Ok(Action::Drop {
            request: fields::id(value)?,
        }),
        Operation::Purge => Ok(Action::Purge {
            key: fields::key(alloc, value)?,
        }),
        Operation::Put => put(alloc, value),
        Operation::BeginGiven => begin_given(alloc, moment, value),
        Operation::RevalidateGiven => revalidate_given(alloc, moment, value),
        Operation::PutGiven => put_given(alloc, moment, value),
        Operation::Restore => restore(alloc, moment, value),
    }
}

fn open(alloc: Global, value: &Value<'_>) -> Result<Action, Stop>
    ensures { (moment : MomentValue) → IsRead result (action_of Operation.Open moment (seen value.now)) }
{
    let request = fields::id(value)?;
    let key = fields::key(alloc, value)?;
    let lock = fields::lock(value)?;
    Ok(Action::Open { request, key, lock })
}

fn begin(alloc: Global, value: &Value<'_>) -> Result<Action, Stop>
    ensures { (moment : MomentValue) → IsRead result (action_of Operation.Begin moment (seen value.now)) }
{
    let request = fields::id(value)?;
    let head = fields::head(alloc, value)?;
    Ok(Action::begin(request, head))
}

fn revalidate(alloc: Global, value: &Value<'_>) -> Result<Action, Stop>
    ensures { (moment : MomentValue) → IsRead result (action_of Operation.Revalidate moment (seen value.now)) }
{
    let request = fields::id(value)?;
    let head = fields::head(alloc, value)?;
    Ok(Action::revalidate(request, head))
}

fn piece(alloc: Global, value: &Value<'_>) -> Result<Action, Stop>
    ensures { (moment : MomentValue) → IsRead result (action_of Operation.Piece moment (seen value.now)) }
{
    let request = fields::id(value)?;
    let bytes = fields::part(alloc, value)?;
    let end = fields::end(value)?;
    Ok(Action::Piece {
        request,
        bytes,
        end,
    })
}

fn put(alloc: Global, value: &Value<'_>) -> Result<Action, Stop>
    ensures { (moment : MomentValue) → IsRead result (action_of Operation.Put moment (seen value.now)) }
{
    let key = fields::key(alloc, value)?;
    let pieces = fields::pieces(alloc, value)?;
    Ok(Action::put(key, pieces))
}

fn begin_given(alloc: Global, moment: Moment, value: &Value<'_>) -> Result<Action, Stop>
    ensures { IsRead result (action_of Operation.BeginGiven moment (seen value.now)) }
{
    let request = fields::id(value)?;
    let head = fields::head(alloc, value)?;
    let given = given::given(value, moment)?;
    Ok(Action::Begin {
        request,
        head,
        given: Some(given),
    })
}

fn revalidate_given(alloc: Global, moment: Moment, value: &Value<'_>) -> Result<Action, Stop>
    ensures { IsRead result (action_of Operation.RevalidateGiven moment (seen value.now)) }
{
    let request = fields::id(value)?;
    let head = fields::head(alloc, value)?;
    let given = given::given(value, moment)?;
    Ok(Action::Revalidate {
        request,
        head,
        given: Some(given),
    })
}

fn put_given(alloc: Global, moment: Moment, value: &Value<'_>) -> Result<Action, Stop>
    ensures { IsRead result (action_of Operation.PutGiven moment (seen value.now)) }
{
    let key = fields::key(alloc, value)?;
    let pieces = fields::pieces(alloc, value)?;
    let given = given::given(value, moment)?;
    Ok(Action::Put {
        key,
        pieces,
        given: Some(given),
    })
}

fn restore(alloc: Global, moment: Moment, value: &Value<'_>) -> Result<Action, Stop>
    ensures { IsRead result (action_of Operation.Restore moment (seen value.now)) }
{
    let key = given::stored_key(alloc, value)?;
    let pieces = fields::pieces(alloc, value)?;
    let given = given::given(value, moment)?;
    Ok(Action::Put {
        key,
        pieces,
        given: Some(given),
    })
}
