//! What becomes of a line of a response, by its name.
ghost use Rattle.std.specs.Prelude.{◌≡◌, [], ◌∷◌};
ghost use Rattle.rules_fields.specs.Texts.{small};
ghost use Rattle.rules_quick.specs.Kinds.{found};
ghost use Rattle.rules_quick.specs.ResponseKinds.{kind_of};
ghost use Rattle.rules_quick.specs.declared.response_names.Kind.TheVariants.{Kept};

use rules_fields::blanks::is_small;

/// What becomes of a line.
#[derive(Clone, Copy, Debug)]
pub enum Kind {
    /// It goes on.
    Kept,
    /// It goes on, and says when the response was made.
    Date,
    /// It is for this hop alone.
    Hop,
    /// It says what happens to the connection.
    Connection,
    /// It says how long the body is.
    Length,
    /// It says how the body is coded.
    Coding,
    /// It says what isn't known here.
    Watched,
}

fn of_one(name: &[u8], wanted: &[u8], kind: Kind) -> Kind
    ensures { result ≡ found Kept (small name.now) ((wanted.now, kind) ∷ []) }
{
    if is_small(name, wanted) {
        kind
    } else {
        Kind::Kept
    }
}

fn of_two(name: &[u8], first: &[u8], kind: Kind, second: &[u8], other: Kind) -> Kind
    ensures { result ≡ found Kept (small name.now) ((first.now, kind) ∷ (second.now, other) ∷ []) }
{
    if is_small(name, first) {
        kind
    } else {
        of_one(name, second, other)
    }
}

/// What becomes of the line with this name, in any case: the tables are looked at by its length.
pub fn kind_of(name: &[u8]) -> Kind
    ensures { result ≡ kind_of (small name.now) }
{
    match name.len() {
        2 => of_one(name, b"te", Kind::Hop),
        3 => of_one(name, b"via", Kind::Watched),
        4 => of_one(name, b"date", Kind::Date),
        5 => of_one(name, b"close", Kind::Watched),
        7 => of_one(name, b"upgrade", Kind::Hop),
        10 => of_two(
            name,
            b"connection",
            Kind::Connection,
            b"keep-alive",
            Kind::Hop,
        ),
        14 => of_two(
            name,
            b"content-length",
            Kind::Length,
            b"http2-settings",
            Kind::Hop,
        ),
        16 => of_one(name, b"proxy-connection", Kind::Hop),
        17 => of_one(name, b"transfer-encoding", Kind::Coding),
        18 => of_one(name, b"proxy-authenticate", Kind::Hop),
        19 => of_one(name, b"proxy-authorization", Kind::Hop),
        25 => of_one(name, b"proxy-authentication-info", Kind::Hop),
        _ => Kind::Kept,
    }
}
