//! What exchanges at a key are told of another one there.
ghost use Rattle.std.specs.Prelude.{◌≡◌, ◌∷◌, [], Some, None, option_copied};
ghost use Rattle.gateway_exchanges.specs.Tables.{numbers_at};
ghost use Rattle.gateway_steps.specs.Questions.{is_waiting_for};
ghost use Rattle.gateway_steps.specs.Steps.{overtakes};
ghost use Rattle.gateway_tier.specs.Notices.{overtaken_by, told, shares_told, IsTold, IsToldAt, AreTold, AreEachTold};
ghost use Rattle.gateway_tier.specs.Walks.{AreChanged};
ghost use Rattle.gateway_tier.specs.Writes.{has_writer, IsWriterHidden};

use crate::waking::{is_meant, writer_at};
use cache_words::key::HashBinary;
use gateway_exchanges::exchange::{Exchange, Shared};
use gateway_state::state::Gateway;

/// What of another exchange concerns those at its key.
#[derive(Clone, Copy)]
pub enum Notice {
    /// It took the permit, which was past its age.
    PermitTaken,
    /// What is written there isn't found any more.
    WriteHidden,
    /// Its write has begun, or goes on under another key: who waits looks again.
    WriteBegun,
    /// What is stored there was replaced.
    Replaced,
    /// The answer to what was asked later is stored, where its own would be found too.
    Superseded,
    /// A list of variants stands there now.
    IndexPut,
    /// What is stored was freshened by the answer to its request of this number.
    Freshened(u64),
    /// Its fetch got no answer, which who waits for it shares.
    FetchFailed(u64, Shared),
    /// What the exchange of this number stores grew too long: who lacks bytes of it reads on in its tail.
    TailBegun(u64),
}

// What it validates was freshened, and what was asked earlier won't replace that.
fn overtake_by(e: &mut Exchange, sequence: u64)
    ensures state { e.new.steps.state ≡ overtaken_by sequence e.old.steps.state }
    ensures rest { e.new ≡ record e.old { steps = e.new.steps } }
{
    e.steps.overtake();
    if e.sequence() < sequence {
        e.steps.supersede();
    }
}

// What it validates was replaced.
fn replace(e: &mut Exchange)
    ensures { IsTold Notice.Replaced e.old e.new }
{
    if e.awaits_head() {
        e.steps.overtake();
    }
}

// Who waits for that fetch, and whose wait isn't over by something else, shares its end.
fn share(e: &mut Exchange, number: u64, shared: Shared)
    ensures { IsTold (Notice.FetchFailed number shared) e.old e.new }
{
    if e.steps.is_waiting_for(number) && !e.steps.state.tier.moved {
        e.shares = Some(shared);
    }
}

// Who lacks bytes of that body reads on in its tail.
fn join(e: &mut Exchange, number: u64)
    ensures { IsTold (Notice.TailBegun number) e.old e.new }
{
    if e.reads(number) {
        e.steps.join_tail();
    }
}

// One exchange is told.
fn tell(e: &mut Exchange, notice: &Notice)
    ensures { IsTold notice.now e.old e.new }
{
    match notice {
        Notice::PermitTaken => e.steps.lose_permit(),
        Notice::WriteHidden => e.steps.hide_write(),
        Notice::WriteBegun => e.steps.move_on(),
        Notice::Replaced => replace(e),
        Notice::Superseded => e.steps.supersede(),
        Notice::IndexPut => e.steps.overtake(),
        Notice::Freshened(sequence) => overtake_by(e, *sequence),
        Notice::FetchFailed(number, shared) => share(e, *number, *shared),
        Notice::TailBegun(number) => join(e, *number),
    }
}

// If it is one of those at a key, or of any.
fn tell_if(e: &mut Exchange, key: Option<&HashBinary>, notice: &Notice)
    ensures { IsToldAt (option_copied key.entry) notice.now e.old e.new }
{
    if is_meant(e, key) {
        tell(e, notice);
    }
}

fn tell_at(g: &mut Gateway, y: u64, key: Option<&HashBinary>, notice: &Notice)
    ensures told { AreChanged (IsToldAt (option_copied key.entry) notice.now) (y ∷ []) g.old.table g.new.table }
    ensures rest { g.new ≡ record g.old { table = g.new.table } }
{
    if let Some(mut e) = g.table.take(y) {
        tell_if(&mut e, key, notice);
        g.table.put_back(e);
    }
}

/// Each exchange at a key is told, but that which is taken out.
pub fn tell_all(g: &mut Gateway, key: &HashBinary, notice: &Notice)
    ensures told { AreTold notice.now key.now g.old.table g.new.table }
    ensures rest { g.new ≡ record g.old { table = g.new.table } }
{
    for place in 0..g.table.count_at(key) {
        let y = g.table.number_at(key, place).unwrap_or(0);
        tell_at(g, y, Some(key), notice);
    }
}

/// Those of these numbers are told, but that which is taken out.
pub(crate) fn tell_each(g: &mut Gateway, numbers: &[u64], notice: &Notice)
    ensures told { AreEachTold notice.now numbers.now g.old.table g.new.table }
    ensures rest { g.new ≡ record g.old { table = g.new.table } }
{
    for y in numbers {
        tell_at(g, *y, None, notice);
    }
}

/// What is stored at a key goes, and what is being stored there: who reads on there gets all of it, and nobody finds it.
pub fn purge_writes(g: &mut Gateway, key: &HashBinary)
    ensures told { AreTold Notice.WriteHidden key.now g.old.table g.new.table }
    ensures gateway { g.new ≡ record g.old { tier = g.new.tier; table = g.new.table } }
{
    let _was = g.purge_at(key);
    tell_all(g, key, &Notice::WriteHidden);
}

/// The same, where a write is found there.
pub(crate) fn hide_writer(g: &mut Gateway, key: &HashBinary)
    ensures told { IsWriterHidden key.now g.old.table g.new.table }
    ensures gateway { g.new ≡ record g.old { tier = g.new.tier; table = g.new.table } }
{
    if writer_at(g, key).is_some() {
        purge_writes(g, key);
    }
}
