//! Laws of managers of one shard. The functions do nothing: their contracts are the laws.
ghost use Rattle.std.specs.Prelude.{◌≡◌, ◌↔◌, ◌≤◌, ℕ, List, [], ◌∷◌, Option, is_some, true};
ghost use Rattle.rand_core.specs.Stream.{Stream};
ghost use Rattle.cache_entries.specs.declared.entry.CacheEntryKey.{CacheEntryKey};
ghost use Rattle.cache_entries.specs.Rows.{weight_of};
ghost use Rattle.cache_evict.specs.Managed.{Managed, rows_at, rows_of};
ghost use Rattle.cache_evict.specs.Runs.{ManagerCall, DoesManagerCall};
ghost use Rattle.curve_loads.specs.Steps.{Step, held};
ghost use Rattle.curve_loads.specs.Loads.{Stays};
ghost use Rattle.curve_loads.specs.Finds.{IsFront, IsAtMost};
ghost use Rattle.tier_loads.specs.Calls.{step_of, IsUniform, IsOfHeld, IsOne, IsRun};

use cache_evict::{EvictionManager, lru, simple_lru};

type Shard = lru::Manager<1>;

type Single = simple_lru::Manager;

/// From empty, a manager of one shard holds what loads report, in that order and with those weights, whatever is drawn. So it tracks
/// the entries that were asked for, not removed since, and whose load was within the limits from then on. `call` is one call.
pub fn one_shard_holds_by_loads()
    ensures call { (weight : CacheEntryKey → ℕ) (limit : ℕ) (watermark : Option ℕ) (c : ManagerCall) (old new : Managed) (gone : List CacheEntryKey) (s rest : Stream) (before : List Step)
        → IsUniform weight ⟦<Shard as EvictionManager>⟧.weighed c → IsOfHeld weight limit watermark c before
        → IsOne limit watermark (held weight limit watermark before) old
        → DoesManagerCall ⟦<Shard as EvictionManager>⟧.pick 1 ⟦<Shard as EvictionManager>⟧.weighed old s c gone new rest
        → IsOne limit watermark (held weight limit watermark (step_of c ∷ before)) new }
    ensures held { (weight : CacheEntryKey → ℕ) (limit : ℕ) (watermark : Option ℕ) (steps : List Step) (m : Managed)
        → IsRun ⟦<Shard as EvictionManager>⟧.pick ⟦<Shard as EvictionManager>⟧.weighed weight limit watermark steps m
        → m.shards ≡ held weight limit watermark steps ∷ [] }
    ensures tracked { (weight : CacheEntryKey → ℕ) (limit : ℕ) (watermark : Option ℕ) (steps : List Step) (m : Managed)
        → IsRun ⟦<Shard as EvictionManager>⟧.pick ⟦<Shard as EvictionManager>⟧.weighed weight limit watermark steps m
        → (e : CacheEntryKey) → (is_some (weight_of e (rows_of 1 e m)) ≡ true) ↔ Stays weight limit watermark e steps }
{}

/// The same of a manager of one list, which draws nothing.
pub fn one_list_holds_by_loads()
    ensures held { (weight : CacheEntryKey → ℕ) (limit : ℕ) (watermark : Option ℕ) (steps : List Step) (m : Managed)
        → IsRun ⟦<Single as EvictionManager>⟧.pick ⟦<Single as EvictionManager>⟧.weighed weight limit watermark steps m
        → m.shards ≡ held weight limit watermark steps ∷ [] }
    ensures tracked { (weight : CacheEntryKey → ℕ) (limit : ℕ) (watermark : Option ℕ) (steps : List Step) (m : Managed)
        → IsRun ⟦<Single as EvictionManager>⟧.pick ⟦<Single as EvictionManager>⟧.weighed weight limit watermark steps m
        → (e : CacheEntryKey) → (is_some (weight_of e (rows_of 1 e m)) ≡ true) ↔ Stays weight limit watermark e steps }
{}

/// Two managers of one shard, from empty, whose calls are the same steps: what is an access for one may be an admission for the
/// other. Where the limits of the second aren't less, the rows of the first are a front of those of the second, and what it
/// tracks the second tracks.
pub fn a_greater_limit_loses_nothing()
    ensures front { (weight : CacheEntryKey → ℕ) (limit limit' : ℕ) (watermark watermark' : Option ℕ) (steps : List Step) (m m' : Managed)
        → limit ≤ limit' → IsAtMost watermark watermark'
        → IsRun ⟦<Shard as EvictionManager>⟧.pick ⟦<Shard as EvictionManager>⟧.weighed weight limit watermark steps m
        → IsRun ⟦<Shard as EvictionManager>⟧.pick ⟦<Shard as EvictionManager>⟧.weighed weight limit' watermark' steps m'
        → IsFront (rows_at m.shards 0) (rows_at m'.shards 0) }
    ensures tracked { (weight : CacheEntryKey → ℕ) (limit limit' : ℕ) (watermark watermark' : Option ℕ) (steps : List Step) (m m' : Managed)
        → limit ≤ limit' → IsAtMost watermark watermark'
        → IsRun ⟦<Shard as EvictionManager>⟧.pick ⟦<Shard as EvictionManager>⟧.weighed weight limit watermark steps m
        → IsRun ⟦<Shard as EvictionManager>⟧.pick ⟦<Shard as EvictionManager>⟧.weighed weight limit' watermark' steps m'
        → (e : CacheEntryKey) → is_some (weight_of e (rows_of 1 e m)) ≡ true → is_some (weight_of e (rows_of 1 e m')) ≡ true }
{}
