//! What lines say of their keys.
ghost use Rattle.std.specs.Prelude.{◌≡◌};
ghost use Rattle.curve_keys.specs.Pasts.{is_said};

/// What a line says of a key.
#[derive(Clone, Copy)]
pub enum Said {
    /// It is removed.
    Removal,
    /// It is asked for, and weighs so much.
    Weight(u64),
    /// It is asked for, and its weight isn't told.
    Known,
    /// Its lifetime, and nothing else.
    Told,
    /// Nothing that counts.
    Other,
    /// Nothing: the line isn't one of the trace.
    Wrong,
}

/// Whether a line says anything.
pub fn is_said(said: Said) -> bool
    ensures { result ≡ is_said said }
{
    match said {
        Said::Wrong => false,
        _ => true,
    }
}
