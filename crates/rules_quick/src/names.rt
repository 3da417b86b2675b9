//! What becomes of a line, by its name.
ghost use Rattle.std.specs.Prelude.{◌≡◌, [], ◌∷◌, codes};
ghost use Rattle.rules_fields.specs.Texts.{small};
ghost use Rattle.rules_quick.specs.Kinds.{found, kind_of};
ghost use Rattle.rules_quick.specs.declared.names.Kind.TheVariants.{Kept, Watched, Asked};

use rules_fields::blanks::is_small;

/// What becomes of a line.
#[derive(Clone, Copy, Debug)]
pub enum Kind {
    /// It goes on.
    Kept,
    /// It goes on, and what is stored answers by it.
    Asked,
    /// It is for this hop alone.
    Hop,
    /// It says what happens to the connection.
    Connection,
    /// It names the host.
    Host,
    /// It says what isn't known here.
    Watched,
}

fn of_one(name: &[u8], wanted: &[u8], kind: Kind) -> Kind
    ensures { result ≡ found Kept (small name.now) ((wanted.now, kind) ∷ []) }
{
    if is_small(name, wanted) {
        kind
    } else {
        Kind::Kept
    }
}

fn of_two(name: &[u8], first: &[u8], kind: Kind, second: &[u8], other: Kind) -> Kind
    ensures { result ≡ found Kept (small name.now) ((first.now, kind) ∷ (second.now, other) ∷ []) }
{
    if is_small(name, first) {
        kind
    } else {
        of_one(name, second, other)
    }
}

/// What becomes of the line with this name, in any case: the tables are looked at by its length.
pub fn kind_of(name: &[u8]) -> Kind
    ensures { result ≡ kind_of (small name.now) }
{
    match name.len() {
        2 => of_one(name, b"te", Kind::Watched),
        4 => of_one(name, b"host", Kind::Host),
        5 => of_two(name, b"range", Kind::Asked, b"close", Kind::Watched),
        6 => of_two(name, b"pragma", Kind::Watched, b"expect", Kind::Watched),
        7 => of_one(name, b"upgrade", Kind::Hop),
        8 => of_two(name, b"if-range", Kind::Asked, b"if-match", Kind::Watched),
        10 => of_two(
            name,
            b"connection",
            Kind::Connection,
            b"keep-alive",
            Kind::Hop,
        ),
        13 => of_thirteen(name),
        14 => of_two(
            name,
            b"content-length",
            Kind::Watched,
            b"http2-settings",
            Kind::Hop,
        ),
        16 => of_one(name, b"proxy-connection", Kind::Hop),
        17 => of_two(
            name,
            b"if-modified-since",
            Kind::Asked,
            b"transfer-encoding",
            Kind::Watched,
        ),
        18 => of_one(name, b"proxy-authenticate", Kind::Hop),
        19 => of_two(
            name,
            b"if-unmodified-since",
            Kind::Watched,
            b"proxy-authorization",
            Kind::Hop,
        ),
        25 => of_one(name, b"proxy-authentication-info", Kind::Hop),
        _ => Kind::Kept,
    }
}

fn of_thirteen(name: &[u8]) -> Kind
    ensures { result ≡ found Kept (small name.now) ((codes "cache-control", Watched) ∷ (codes "if-none-match", Asked) ∷ (codes "authorization", Asked) ∷ []) }
{
    if is_small(name, b"cache-control") {
        Kind::Watched
    } else {
        of_two(
            name,
            b"if-none-match",
            Kind::Asked,
            b"authorization",
            Kind::Asked,
        )
    }
}
