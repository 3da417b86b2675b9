//! Laws of curves. The functions do nothing: their contracts are the laws.
ghost use Rattle.std.specs.Prelude.{◌≡◌, ℕ, ◌≤◌, List, [], Option};
ghost use Rattle.cache_entries.specs.declared.entry.CacheEntryKey.{CacheEntryKey};
ghost use Rattle.rand_core.specs.Stream.{Stream};
ghost use Rattle.curve_loads.specs.Steps.{Step};
ghost use Rattle.curve_loads.specs.Finds.{finds};
ghost use Rattle.tier_model.specs.State.{Settings, State};
ghost use Rattle.tier_loads.specs.Requests.{PlainRequest};
ghost use Rattle.tier_loads.specs.Uniform.{weight_in};
ghost use Rattle.tier_served.specs.declared.request.Request.{Request};
ghost use Rattle.tier_pairs.specs.declared.side_by_side.Pair.{Pair};
ghost use Rattle.tier_pairs.specs.Two.{ServesBoth, FindsByLoads, all_seen};
ghost use Rattle.curve_laws.specs.Served.{gets_found, steps_in};

/// Where two tiers served the requests, and found what the law of loads says, as `run_two` ensures of new tiers of one shard and uniform
/// requests, then the gets that found their key in the first tier are as many as a cache of its limits finds of the steps.
pub fn tiers_find_what_curves_count()
    ensures { (a b : Settings) (seen : List (Option PlainRequest)) (requests : List Request) (pairs : List Pair) (l g l' g' : State) (s rest : Stream)
        → ServesBoth l g s requests pairs l' g' rest → FindsByLoads a b seen requests pairs
        → gets_found requests pairs ≡ finds (weight_in (all_seen seen)) a.limit a.watermark (steps_in requests) }
{}

/// A greater limit finds no less.
pub fn greater_limits_find_no_less()
    ensures { (weight : CacheEntryKey → ℕ) (limit limit' : ℕ) (watermark : Option ℕ) (steps : List Step) → limit ≤ limit'
        → finds weight limit watermark steps ≤ finds weight limit' watermark steps }
{}
