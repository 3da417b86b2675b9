//! Who at a key is woken, and who there may be read from or waited for.
ghost use Rattle.std.specs.Prelude.{◌≡◌, OnOk, Some, None, find, length, option_copied};
ghost use Rattle.gateway_exchanges.specs.Replies.{reply_of};
ghost use Rattle.gateway_exchanges.specs.Frames.{HasSameButWakes};
ghost use Rattle.gateway_exchanges.specs.Tables.{numbers_at};
ghost use Rattle.gateway_tier.specs.Roles.{is_at, is_meant, has_role, plays_at, plays, in_role, with_own, with_wakes, readers_of};

use cache_words::key::HashBinary;
use gateway_exchanges::exchange::Exchange;
use gateway_exchanges::outs::Out;
use gateway_state::state::Gateway;
use std::alloc::AllocError;

/// What an exchange at a key does there.
#[derive(Clone, Copy)]
pub enum Role {
    /// It waits for a permit.
    Waits,
    /// It waits for the permit of the exchange of this number.
    WaitsFor(u64),
    /// It reads what the exchange of this number stores.
    ReadsFrom(u64),
    /// The same, and its client lacks bytes of it.
    Lacks(u64),
    /// Its write is found.
    IsJoinable,
    /// It has the permit.
    HasPermit,
}

/// Whether an exchange looks, or stores, under a key: one that has it as its first key alone isn't meant.
pub fn is_at(e: &Exchange, key: &HashBinary) -> bool
    ensures { result ≡ is_at key.now e.now }
{
    match &e.key {
        Some(own) => *own == *key,
        None => false,
    }
}

// Whether it is one of those at a key, or of any.
pub(crate) fn is_meant(e: &Exchange, key: Option<&HashBinary>) -> bool
    ensures { result ≡ is_meant (option_copied key.entry) e.now }
{
    match key {
        Some(key) => is_at(e, key),
        None => true,
    }
}

fn has_role(e: &Exchange, role: &Role) -> bool
    ensures { result ≡ has_role role.now e.now }
{
    match role {
        Role::Waits => e.is_waiting(),
        Role::WaitsFor(number) => e.steps.is_waiting_for(*number),
        Role::ReadsFrom(number) => e.steps.is_reading_from(*number),
        Role::Lacks(number) => e.reads(*number),
        Role::IsJoinable => e.is_joinable(),
        Role::HasPermit => e.has_permit(),
    }
}

fn plays_at(e: &Exchange, key: &HashBinary, role: &Role) -> bool
    ensures { result ≡ plays_at role.now key.now e.now }
{
    is_at(e, key) && has_role(e, role)
}

// Whether the exchange of a number has a role at a key, unless it is taken out.
fn plays(g: &Gateway, y: u64, key: &HashBinary, role: &Role) -> bool
    ensures { result ≡ plays role.now key.now g.now.table y }
{
    match g.table.get(y) {
        Some(e) => plays_at(e, key, role),
        None => false,
    }
}

// The same; `own`: the one that is taken out, where it counts.
fn plays_with(g: &Gateway, own: Option<&Exchange>, y: u64, key: &HashBinary, role: &Role) -> bool
    ensures { result ≡ plays role.now key.now (with_own (option_copied own.entry) g.now.table) y }
{
    match own {
        None => plays(g, y, key, role),
        Some(e) => {
            if e.x == y {
                plays_at(e, key, role)
            } else {
                plays(g, y, key, role)
            }
        }
    }
}

// ==== who is woken

/// Wakes those at a key who have a role.
pub fn wake_all(
    g: &Gateway,
    own: Option<&Exchange>,
    key: &HashBinary,
    role: &Role,
    out: &mut Out,
) -> Result<(), AllocError>
    ensures ok { OnOk result (reply_of out.new ≡ with_wakes (in_role role.now key.now (option_copied own.entry) g.now.table) (reply_of out.old)) }
    ensures rest { HasSameButWakes out.old out.new }
{
    for place in 0..g.table.count_at(key) {
        let y = g.table.number_at(key, place).unwrap_or(0);
        if plays_with(g, own, y, key, role) {
            out.wake(y)?;
        }
    }
    Ok(())
}

/// The permit of an exchange at this key ended.
pub fn wake_waiters(g: &Gateway, x: u64, key: &HashBinary, out: &mut Out) -> Result<(), AllocError>
    ensures ok { OnOk result (reply_of out.new ≡ with_wakes (in_role (Role.WaitsFor x) key.now None g.now.table) (reply_of out.old)) }
    ensures rest { HasSameButWakes out.old out.new }
{
    wake_all(g, None, key, &Role::WaitsFor(x), out)
}

/// Something came of the write of this exchange, or it ended.
pub fn wake_readers(g: &Gateway, e: &Exchange, out: &mut Out) -> Result<(), AllocError>
    ensures ok { OnOk result (reply_of out.new ≡ with_wakes (readers_of e.now g.now.table) (reply_of out.old)) }
    ensures rest { HasSameButWakes out.old out.new }
{
    match &e.key {
        Some(key) => wake_all(g, Some(e), key, &Role::ReadsFrom(e.x), out),
        None => Ok(()),
    }
}

// ==== who may be read from, or waited for

fn first_at(g: &Gateway, key: &HashBinary, role: &Role) -> Option<u64>
    ensures { result ≡ find (plays role.now key.now g.now.table) (numbers_at key.now g.now.table) }
{
    for place in 0..g.table.count_at(key) {
        let y = g.table.number_at(key, place).unwrap_or(0);
        if plays(g, y, key, role) {
            return Some(y);
        }
    }
    None
}

/// Whose write at a key is found.
pub fn writer_at(g: &Gateway, key: &HashBinary) -> Option<u64>
    ensures { result ≡ find (plays Role.IsJoinable key.now g.now.table) (numbers_at key.now g.now.table) }
{
    first_at(g, key, &Role::IsJoinable)
}

/// Who has the permit at a key.
pub fn holder_at(g: &Gateway, key: &HashBinary) -> Option<u64>
    ensures { result ≡ find (plays Role.HasPermit key.now g.now.table) (numbers_at key.now g.now.table) }
{
    first_at(g, key, &Role::HasPermit)
}

/// How many at a key lack bytes of what the exchange of this number stores, but that which is taken out.
pub fn count_readers(g: &Gateway, x: u64, key: &HashBinary) -> u64
    ensures { result ≡ length (in_role (Role.Lacks x) key.now None g.now.table) }
{
    let mut count = 0;
    for place in 0..g.table.count_at(key) {
        let y = g.table.number_at(key, place).unwrap_or(0);
        if plays(g, y, key, &Role::Lacks(x)) {
            count += 1;
        }
    }
    count
}
