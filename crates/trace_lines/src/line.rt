//! What a line requests, or why it is refused.
use std::alloc::AllocError;
use tier_model::event::Event;

/// What a line requests of a tier.
#[derive(Debug, Drop)]
pub enum Line {
    /// The line is refused, for the first reason that holds.
    Refused(Refusal),
    /// The line requests this event.
    Accepted(Event),
}

/// Why a line is refused, in the order in which the reasons are looked for.
#[derive(Clone, Copy, PartialEq, Eq, Debug)]
pub enum Refusal {
    /// It is no JSON text in UTF-8 (RFC 8259) whose arrays and objects nest at most 127 deep.
    NotJson,
    /// Its value is no object.
    NotObject,
    /// Its `op` is no operation.
    Op,
    /// The first field of its operation that is missing or bad.
    Field(FieldName),
}

/// A field of a line, in the order in which they are looked at.
#[derive(Clone, Copy, PartialEq, Eq, Debug)]
pub enum FieldName {
    At,
    Id,
    Key,
    Digest,
    Variance,
    Tag,
    Lock,
    Head,
    Bytes,
    End,
    Pieces,
    Until,
    Created,
    Updated,
    Provenance,
    While,
    Error,
    External,
}

/// What an `op` names.
#[derive(Clone, Copy, PartialEq, Eq, Debug)]
pub enum Operation {
    Open,
    LookUp,
    Poll,
    Begin,
    Revalidate,
    Piece,
    Finish,
    Read,
    Drop,
    Purge,
    Put,
    BeginGiven,
    RevalidateGiven,
    PutGiven,
    Restore,
}

// Why no event was read.
#[derive(Debug, Drop)]
pub(crate) enum Stop {
    // The line is refused.
    Refused(Refusal),
    // No memory was left.
    Memory,
}

impl From<Refusal> for Stop {
    ghost use Rattle.std.specs.Prelude.{◌≡◌};
    ghost use Rattle.trace_lines.specs.declared.line.Stop.TheVariants.{Refused};

    ghost from_gives = { λ refusal stop. stop ≡ Refused refusal };

    fn from(refusal: Refusal) -> Stop {
        Stop::Refused(refusal)
    }
}

impl From<AllocError> for Stop {
    ghost use Rattle.std.specs.Prelude.{◌≡◌};
    ghost use Rattle.trace_lines.specs.declared.line.Stop.TheVariants.{Memory};

    ghost from_gives = { λ _ stop. stop ≡ Memory };

    fn from(_error: AllocError) -> Stop {
        Stop::Memory
    }
}
