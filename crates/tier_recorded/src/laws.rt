//! Laws over definitions alone. The functions do nothing: their contracts are the laws.
ghost use Rattle.std.specs.Prelude.{ℕ, ◌+◌, List, []};
ghost use Rattle.rand_core.specs.Stream.{Stream};
ghost use Rattle.tier_model.specs.Calls.{Call, extended};
ghost use Rattle.tier_model.specs.State.{State};
ghost use Rattle.tier_model.specs.Past.{CarriesPast, HasPast};
ghost use Rattle.tier_model.specs.Started.{opening_of};
ghost use Rattle.tier_promise.specs.Promise.{Promise};
ghost use Rattle.tier_single.specs.Takes.{CarriesPromise};
ghost use Rattle.tier_recorded.specs.declared.history.Record.{Record};
ghost use Rattle.tier_recorded.specs.declared.snapshot.Snapshot.{Snapshot};
ghost use Rattle.tier_recorded.specs.Histories.{IsReplay, AreCallsIn};
ghost use Rattle.tier_recorded.specs.Openings.{Opens};

use rand_core::Rng;

/// A replay is of calls that keep the promise: a tier that it leads from with a past, it leads to with that past and these calls, which
/// keep it together.
pub fn replays_keep_the_promise()
    ensures { (old : State) (s : Stream) (history : List Record) (new : State) (rest : Stream) → IsReplay old s history new rest
        → (calls : List Call) × AreCallsIn history calls × CarriesPast old calls new × CarriesPromise old calls }
{}

/// So a recorded tier's whole history keeps the promise, from the opening with the rows that its snapshot has in the texts.
pub fn recorded_histories_keep_the_promise<R: Rng>()
    ensures { (n : ℕ) (opening : Snapshot R) (first : State) (s : Stream) (history : List Record) (tier : State) (rest : Stream)
        → Opens n opening first → IsReplay first s history tier rest
        → (calls : List Call) × AreCallsIn history calls × HasPast (opening_of first) tier (extended [] calls)
        × Promise (opening_of first).settings ((opening_of first).first + (opening_of first).first_core) (opening_of first).loaded (extended [] calls) }
{}
