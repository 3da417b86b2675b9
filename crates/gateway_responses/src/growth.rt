//! What a body is with its next bytes, and who reads it.
ghost use Rattle.std.specs.Prelude.{◌≡◌};
ghost use Rattle.std.specs.List.{list_any};
ghost use Rattle.gateway_exchanges.specs.Tables.{numbers_at};
ghost use Rattle.gateway_responses.specs.Bodies.{grows_long, growth_of, has_reader, is_reader};

use cache_words::key::HashBinary;
use gateway_exchanges::exchange::Exchange;
use gateway_state::state::Gateway;
use gateway_steps::state::Piece;

// Whether the exchange of number `y` lacks bytes of what that of number `x` stores.
fn is_reader(g: &Gateway, x: u64, y: u64) -> bool
    ensures { result ≡ is_reader x g.now.table y }
{
    match g.table.get(y) {
        Some(other) => other.reads(x),
        None => false,
    }
}

// Whether one at a key lacks bytes of it.
fn has_reader_at(g: &Gateway, x: u64, key: &HashBinary) -> bool
    ensures { result ≡ list_any (is_reader x g.now.table) (numbers_at key.now g.now.table) }
{
    for place in 0..g.table.count_at(key) {
        let y = g.table.number_at(key, place).unwrap_or(0);
        if is_reader(g, x, y) {
            return true;
        }
    }
    false
}

// Whether anyone lacks bytes of what it stores.
fn has_reader(g: &Gateway, e: &Exchange) -> bool
    ensures { result ≡ has_reader g.now.table e.now }
{
    match &e.key {
        Some(key) => e.reads(e.x) || has_reader_at(g, e.x, key),
        None => e.reads(e.x),
    }
}

/// What there is of a body with its next bytes.
#[derive(Clone, Copy)]
pub(crate) struct Grown {
    pub piece: Piece,
    // Its own client lacks bytes of it.
    pub reads: bool,
    pub unread_past: bool,
    pub past: bool,
}

pub(crate) fn growth_of(g: &Gateway, e: &Exchange, bytes: u64) -> Grown
    ensures { result ≡ growth_of g.now e.now bytes }
{
    let read = has_reader(g, e);
    let limits = &g.limits;
    let others = g.flying.saturating_sub(e.asks.flying);
    let half = limits.max_bytes / 2;
    Grown {
        piece: Piece { bytes, read },
        reads: e.reads(e.x),
        unread_past: !read && e.steps.is_unread_past(bytes, limits.max_unread),
        past: e
            .steps
            .grows_past(bytes, limits.max_body_bytes, others, half),
    }
}

// Whether with these bytes the body is longer than may be stored, and wasn't before.
pub(crate) fn grows_long(g: &Gateway, e: &Exchange, grown: Grown) -> bool
    ensures { result ≡ grows_long grown.piece.bytes g.now.limits.max_body_bytes e.now.steps.state }
{
    let size = e.steps.state.origin.size;
    let most = g.limits.max_body_bytes;
    size <= most && size.saturating_add(grown.piece.bytes) > most
}
