//! The keys at which an exchange is.
ghost use Rattle.std.specs.Prelude.{◌≡◌, Some, OnOk, OnErr};
ghost use Rattle.gateway_tier.specs.Moves.{is_first, leaves_second, moves_to};

use crate::waking::is_at;
use cache_words::key::HashBinary;
use gateway_exchanges::exchange::Exchange;
use gateway_state::state::Gateway;
use std::alloc::AllocError;

/// Whether a key is an exchange's first one.
pub(crate) fn is_first(e: &Exchange, key: &HashBinary) -> bool
    ensures { result ≡ is_first key.now e.now }
{
    match &e.first {
        Some(first) => *first == *key,
        None => false,
    }
}

/// The exchange looks, or stores, under that key from now on. It is noted there, which may lack memory, and then no more at the second key where it was.
pub fn move_to(g: &mut Gateway, e: &mut Exchange, key: &HashBinary) -> Result<(), AllocError>
    ensures table { OnOk result (g.new ≡ record g.old { table = moves_to key.now e.old g.old.table }) }
    ensures key { OnOk result (e.new ≡ record e.old { key = Some key.now }) }
    ensures err { OnErr result ((g.new ≡ g.old) × (e.new ≡ e.old)) }
    ensures gateway { g.new ≡ record g.old { table = g.new.table } }
    ensures rest { e.new ≡ record e.old { key = e.new.key } }
{
    if !is_at(e, key) {
        g.table.join_key(e.x, key)?;
        leave_second(g, e);
    }
    e.key = Some(*key);
    Ok(())
}

fn leave_second(g: &mut Gateway, e: &Exchange)
    ensures { g.new ≡ record g.old { table = leaves_second e.now g.old.table } }
{
    if let Some(key) = &e.key
        && !is_first(e, key)
    {
        g.table.leave_key(e.x, key);
    }
}
