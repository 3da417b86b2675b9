//! What is stored of a response.
ghost use Rattle.std.specs.Prelude.{◌≡◌, ◌≤◌};
ghost use Rattle.rules_fields.specs.Fields.{fields};
ghost use Rattle.rules_fields.specs.Types.{kept_of};
ghost use Rattle.rules_ffi_arguments.specs.Given.{Gives, NeedsNoMemory};
ghost use Rattle.rules_ffi_arguments.specs.Stored.{lifetime_of, kept_by, is_cut, fresh_until, meta_from, meta_of, head_of};

use crate::bad::Bad;
use crate::moments::{SECOND, moment_at, nanoseconds_of};
use crate::response::code_in;
use crate::shapes::{HeadShape, Lent, MetaShape, Moment};
use rules_fields::Line;
use rules_fields::types::Kept;

// The seconds from the arrival up to the moment until which it is fresh, with that.
fn lifetime_of(arrival: u64, fresh_until: u64) -> u64
    ensures { result ≡ lifetime_of arrival fresh_until }
{
    fresh_until.saturating_add(1).saturating_sub(arrival) / SECOND
}

/// What is stored, over its lines.
#[tactic(auto, unfolding(crate::specs::Stored::kept_by))]
pub fn kept<'a>(head: &HeadShape, lines: &'a [Line<'a>]) -> Result<Kept<'a>, Bad>
    ensures gives { Gives kept_of result (kept_by head.now (fields lines.now)) }
    ensures memory { NeedsNoMemory result }
{
    let status = code_in(head.status)?;
    let arrival = nanoseconds_of(head.updated);
    Ok(Kept {
        status,
        lines,
        arrival: arrival as i128,
        lifetime: lifetime_of(arrival, nanoseconds_of(head.fresh_until)),
        stale_while_revalidate: head.stale_while_revalidate,
        stale_if_error: head.stale_if_error,
    })
}

// Where it is fresh until, by an arrival from second 1 on.
fn fresh_until(arrival: u64, lifetime: u64) -> Moment
    requires { 1000000000 ≤ arrival }
    ensures { result ≡ fresh_until arrival lifetime }
{
    if lifetime == 0 {
        return moment_at(0);
    }
    let last = moment_at(arrival - 1);
    Moment {
        seconds: last.seconds + lifetime.min(MOST_LIFETIME),
        nanoseconds: last.nanoseconds,
    }
}

// A longer lifetime is this one.
const MOST_LIFETIME: u64 = 1 << 32;
// And a longer window this one.
const MOST_WINDOW: u64 = (1 << 32) - 1;

/// What a tier is told. An arrival before second 1 is that one, and its lifetime 0.
pub fn meta_of(
    arrival: i128,
    lifetime: u64,
    stale_while_revalidate: u64,
    stale_if_error: u64,
) -> MetaShape
    ensures { result ≡ meta_of arrival lifetime stale_while_revalidate stale_if_error }
{
    if is_cut(arrival) {
        return meta_from(SECOND, 0, stale_while_revalidate, stale_if_error);
    }
    let arrived = u64::try_from(arrival).unwrap_or(u64::MAX);
    meta_from(arrived, lifetime, stale_while_revalidate, stale_if_error)
}

fn is_cut(arrival: i128) -> bool
    ensures { result ≡ is_cut arrival }
{
    arrival < SECOND as i128
}

// The meta by an arrival from second 1 on.
fn meta_from(
    arrived: u64,
    lifetime: u64,
    stale_while_revalidate: u64,
    stale_if_error: u64,
) -> MetaShape
    requires { 1000000000 ≤ arrived }
    ensures { result ≡ meta_from arrived lifetime stale_while_revalidate stale_if_error }
{
    let moment = moment_at(arrived);
    MetaShape {
        fresh_until: fresh_until(arrived, lifetime),
        created: moment,
        updated: moment,
        provenance: moment,
        stale_while_revalidate: stale_while_revalidate.min(MOST_WINDOW),
        stale_if_error: stale_if_error.min(MOST_WINDOW),
        external: 0,
        reserved: 0,
    }
}

/// The head that these times and a status make.
pub fn head_of(status: u16, lines: u64, meta: &MetaShape) -> HeadShape
    ensures { result ≡ head_of status lines meta.now }
{
    HeadShape {
        status: status as u64,
        lines,
        fresh_until: meta.fresh_until,
        created: meta.created,
        updated: meta.updated,
        provenance: meta.provenance,
        stale_while_revalidate: meta.stale_while_revalidate,
        stale_if_error: meta.stale_if_error,
        external: 0,
        block: Lent { at: 0, len: 0 },
        reserved: 0,
    }
}
