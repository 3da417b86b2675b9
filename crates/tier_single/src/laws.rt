//! Laws over definitions alone. The functions do nothing: their contracts are the laws.
ghost use Rattle.std.specs.Prelude.{◌≡◌, ℕ, List, [], ◌∷◌, Option, Ok};
ghost use Rattle.rand_core.specs.Stream.{Stream};
ghost use Rattle.tier_model.specs.declared.event.Event.{Event};
ghost use Rattle.tier_model.specs.Calls.{Call, Outcome};
ghost use Rattle.tier_model.specs.Histories.{empty_opening};
ghost use Rattle.tier_model.specs.State.{Settings, State};
ghost use Rattle.tier_model.specs.Past.{HasPast, CarriesPast};
ghost use Rattle.tier_promise.specs.Promise.{Keeps};
ghost use Rattle.tier_single.specs.Takes.{CarriesPromise, Takes};
ghost use Rattle.tier_single.specs.Restarts.{SavesOrder, LoadsOrder};
ghost use Rattle.cache_evict.specs.Managed.{Managed, IsSharded, fresh};
ghost use Rattle.cache_evict.specs.declared.load_fault.LoadFault.{LoadFault};
ghost use Rattle.cache_words.specs.declared.pack.fault.PackWriteFault.{PackWriteFault};
ghost use Rattle.lru_files.specs.Folder.{IsSame};
ghost use Rattle.lru_files.specs.declared.fault.ShardLoadReport.{ShardLoadReport};
ghost use Rattle.lru_files.specs.declared.fault.ShardSaveReport.{ShardSaveReport};

use lru_files::persistence::Folder;

/// What `Tier::step` takes is one call: each past that the tier may have had is one of it still with this call, and keeps the promise.
pub fn steps_keep_the_promise()
    ensures { (old : State) (s : Stream) (e : Event) (o : Outcome) (new : State) (rest : Stream) → Takes old s (e ∷ []) (o ∷ []) new rest
        → (c : Call) × (c.event ≡ e) × (c.outcome ≡ o) × CarriesPast old (c ∷ []) new × CarriesPromise old (c ∷ []) }
{}

/// So the events that a new tier took, with their outcomes, keep the promise from the beginning, and the words that were drawn picked what went.
pub fn new_tiers_keep_the_promise()
    ensures { (x : Settings) (new last : State) (s rest : Stream) (es : List Event) (os : List Outcome) → HasPast (empty_opening x) new [] → Takes new s es os last rest
        → Keeps x es os s rest }
{}

/// What a tier saved, no shard failing, and an empty tier of as many shards then starts from, no file being faulty, is the same
/// order of use, shard by shard, whatever the limits are.
pub fn a_restart_keeps_the_order_of_use<F: Folder>()
    ensures { (n limit : ℕ) (watermark : Option ℕ) (dir words : List ℕ) (m m' : Managed) (old saved start end : F) (report : ShardSaveReport PackWriteFault) (loads : ShardLoadReport LoadFault)
        → F.keeps → IsSharded n m → SavesOrder F.did F.failures_of F.keeps F.files n dir m words old saved (Ok report) → report.failed.items ≡ [] → IsSame (F.files saved) (F.files start)
        → LoadsOrder F.did F.failures_of F.keeps F.files n dir (fresh n limit watermark) m' start end (Ok loads) → loads.errored.items ≡ [] → m'.shards ≡ m.shards }
{}
