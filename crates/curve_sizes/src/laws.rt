//! Laws of curves. The functions do nothing: their contracts are the laws.
ghost use Rattle.std.specs.Prelude.{ℕ, ◌≤◌, List, Option};
ghost use Rattle.cache_entries.specs.declared.entry.CacheEntryKey.{CacheEntryKey};
ghost use Rattle.curve_loads.specs.Steps.{Step};
ghost use Rattle.curve_sizes.specs.Requests.{found_bytes};

/// A greater limit finds no fewer bytes.
pub fn greater_limits_find_no_fewer_bytes()
    ensures { (weight : CacheEntryKey → ℕ) (limit limit' : ℕ) (watermark : Option ℕ) (steps : List Step) → limit ≤ limit'
        → found_bytes weight limit watermark steps ≤ found_bytes weight limit' watermark steps }
{}
