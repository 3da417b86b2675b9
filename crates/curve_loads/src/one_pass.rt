//! Laws of heights. The function does nothing: its contract is the law.
ghost use Rattle.std.specs.Prelude.{◌≡◌, ℕ, List, Option, option_map};
ghost use Rattle.cache_entries.specs.declared.entry.CacheEntryKey.{CacheEntryKey};
ghost use Rattle.curve_loads.specs.Steps.{Step, has_row, held};
ghost use Rattle.curve_loads.specs.Peaks.{peak};
ghost use Rattle.curve_loads.specs.Cells.{cells_of, height_of, one_each, is_kept};

/// The height of an entry is its greatest load since it was last asked for, by weight, and by number where each entry counts once.
/// So heights say under which limits the entry is held.
pub fn heights_are_peaks()
    ensures weights { (weight : CacheEntryKey → ℕ) (e : CacheEntryKey) (steps : List Step) → height_of e (cells_of weight steps) ≡ option_map (λ most. most.0) (peak weight e steps) }
    ensures numbers { (weight : CacheEntryKey → ℕ) (e : CacheEntryKey) (steps : List Step) → height_of e (cells_of one_each steps) ≡ option_map (λ most. most.1) (peak weight e steps) }
    ensures held { (weight : CacheEntryKey → ℕ) (limit : ℕ) (watermark : Option ℕ) (e : CacheEntryKey) (steps : List Step)
        → has_row e (held weight limit watermark steps) ≡ is_kept limit watermark (height_of e (cells_of weight steps)) (height_of e (cells_of one_each steps)) }
{}
