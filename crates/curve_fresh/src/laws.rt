//! Laws of fresh finds. The functions do nothing: their contracts are the laws.
ghost use Rattle.std.specs.Prelude.{◌≡◌, ◌≤◌, ℕ, List, [], ◌∷◌, Option, Some, None};
ghost use Rattle.cache_entries.specs.declared.entry.CacheEntryKey.{CacheEntryKey};
ghost use Rattle.curve_loads.specs.Finds.{finds};
ghost use Rattle.curve_fresh.specs.Fresh.{Timed, steps_of, fresh_finds};
ghost use Rattle.curve_fresh.specs.Moments.{HasLifetime, AreInOrder};

/// Fresh finds are finds: no more are fresh than are found, whatever the moments and lifetimes.
pub fn fresh_finds_are_finds()
    ensures { (weight : CacheEntryKey → ℕ) (limit : ℕ) (watermark : Option ℕ) (requests : List Timed)
        → fresh_finds weight limit watermark requests ≤ finds weight limit watermark (steps_of requests) }
{}

/// With one lifetime for all responses, and moments that don't go back, a greater limit finds no less fresh. It may where lifetimes
/// differ.
pub fn greater_limits_find_no_less_fresh()
    ensures { (weight : CacheEntryKey → ℕ) (limit limit' : ℕ) (watermark : Option ℕ) (lifetime : ℕ) (requests : List Timed) → limit ≤ limit' → HasLifetime lifetime requests
        → AreInOrder requests → fresh_finds weight limit watermark requests ≤ fresh_finds weight limit' watermark requests }
{}
