//! Laws of loads. The functions do nothing: their contracts are the laws.
ghost use Rattle.std.specs.Prelude.{◌≡◌, ◌↔◌, ◌≤◌, ◌||◌, ◌&&◌, not, ℕ, List, [], ◌∷◌, ◌++◌, Option, Some, None, true, false};
ghost use Rattle.std.specs.List.{AllByRecursion};
ghost use Rattle.cache_entries.specs.declared.entry.CacheEntryKey.{CacheEntryKey};
ghost use Rattle.cache_entries.specs.Entry.{same_entry};
ghost use Rattle.cache_entries.specs.Rows.{AreDistinct, is_over};
ghost use Rattle.curve_loads.specs.Steps.{Step, asks, entry_of, has_row, put_first, held};
ghost use Rattle.curve_loads.specs.Loads.{load, is_past, Stays, stays, is_asked, AreAsks, AreWeighed};
ghost use Rattle.curve_loads.specs.Finds.{IsFront, IsAtMost, answers, finds};
ghost use Rattle.curve_loads.specs.Peaks.{peak, keeps, counted};
ghost use Rattle.curve_loads.specs.Worked.{one_each, seven_asks, asked_after_two, asked_after_one};

/// The load of an entry that was asked for, and not removed since, has that entry and those whose latest step since then asks for
/// them. Each is in it once, with its weight.
pub fn loads_count_what_was_asked_since()
    ensures members { (weight : CacheEntryKey → ℕ) (e x : CacheEntryKey) (later before : List Step) → AllByRecursion (λ s. same_entry (entry_of s) e ≡ false) later
        → has_row x (load weight e (later ++ asks e ∷ before)) ≡ (same_entry e x || is_asked x later) }
    ensures once { (weight : CacheEntryKey → ℕ) (e : CacheEntryKey) (steps : List Step) → AreDistinct (load weight e steps) }
    ensures weights { (weight : CacheEntryKey → ℕ) (e : CacheEntryKey) (steps : List Step) → AreWeighed weight (load weight e steps) }
{}

/// An entry is held exactly where it was asked for, not removed since, and its load was within the limits after each step from
/// that last one on. Without removals, where its load is within the limits now.
pub fn loads_tell_what_is_held()
    ensures places { (weight : CacheEntryKey → ℕ) (limit : ℕ) (watermark : Option ℕ) (e : CacheEntryKey) (steps : List Step)
        → (has_row e (held weight limit watermark steps) ≡ true) ↔ Stays weight limit watermark e steps }
    ensures test { (weight : CacheEntryKey → ℕ) (limit : ℕ) (watermark : Option ℕ) (e : CacheEntryKey) (steps : List Step)
        → has_row e (held weight limit watermark steps) ≡ stays weight limit watermark e steps }
    ensures asks { (weight : CacheEntryKey → ℕ) (limit : ℕ) (watermark : Option ℕ) (e : CacheEntryKey) (steps : List Step) → AreAsks steps
        → has_row e (held weight limit watermark steps) ≡ (is_asked e steps && not (is_past weight limit watermark e steps)) }
{}

/// Worked steps of weight 1, whose answers stand latest first. Of the seven asks a limit of 3 finds only the last, and one of 4 the
/// last three. Under a limit of 2 an entry that two others pushed out isn't found once they are removed, since its load was 3; where
/// the first of them was removed in time, it is found.
pub fn a_few_steps_worked()
    ensures three { answers one_each 3 None seven_asks ≡ true ∷ false ∷ false ∷ false ∷ false ∷ false ∷ false ∷ [] }
    ensures four { answers one_each 4 None seven_asks ≡ true ∷ true ∷ true ∷ false ∷ false ∷ false ∷ false ∷ [] }
    ensures watermark { answers one_each 7 (Some 3) seven_asks ≡ answers one_each 3 None seven_asks }
    ensures late { answers one_each 2 None asked_after_two ≡ false ∷ true ∷ true ∷ false ∷ false ∷ false ∷ [] }
    ensures early { answers one_each 2 None asked_after_one ≡ true ∷ true ∷ false ∷ true ∷ false ∷ false ∷ [] }
{}

/// Under lesser limits a cache holds a front of what it holds under greater ones, after the same steps. So a greater limit loses
/// nothing: what the lesser finds the greater finds.
pub fn lesser_lists_are_fronts()
    ensures front { (weight : CacheEntryKey → ℕ) (limit limit' : ℕ) (watermark watermark' : Option ℕ) (steps : List Step) → limit ≤ limit' → IsAtMost watermark watermark'
        → IsFront (held weight limit watermark steps) (held weight limit' watermark' steps) }
    ensures found { (weight : CacheEntryKey → ℕ) (limit limit' : ℕ) (watermark watermark' : Option ℕ) (steps : List Step) → limit ≤ limit' → IsAtMost watermark watermark'
        → (e : CacheEntryKey) → has_row e (held weight limit watermark steps) ≡ true → has_row e (held weight limit' watermark' steps) ≡ true }
    ensures finds { (weight : CacheEntryKey → ℕ) (limit limit' : ℕ) (watermark watermark' : Option ℕ) (steps : List Step) → limit ≤ limit' → IsAtMost watermark watermark'
        → finds weight limit watermark steps ≤ finds weight limit' watermark' steps }
{}

/// What is held is within the limits. So an entry that is held and asked for comes first, and nothing goes. The same ask at once
/// again changes nothing.
pub fn asks_of_what_is_held_evict_nothing()
    ensures within { (weight : CacheEntryKey → ℕ) (limit : ℕ) (watermark : Option ℕ) (steps : List Step) → is_over limit watermark (held weight limit watermark steps) ≡ false }
    ensures stay { (weight : CacheEntryKey → ℕ) (limit : ℕ) (watermark : Option ℕ) (e : CacheEntryKey) (steps : List Step) → has_row e (held weight limit watermark steps) ≡ true
        → held weight limit watermark (asks e ∷ steps) ≡ put_first weight e (held weight limit watermark steps) }
    ensures twice { (weight : CacheEntryKey → ℕ) (limit : ℕ) (watermark : Option ℕ) (e : CacheEntryKey) (steps : List Step)
        → held weight limit watermark (asks e ∷ asks e ∷ steps) ≡ held weight limit watermark (asks e ∷ steps) }
{}

/// The greatest load that an entry had since it was last asked for says under which limits it is held. No limit is in it, so one
/// pass over the steps counts the finds of all limits.
pub fn peaks_count_the_finds()
    ensures held { (weight : CacheEntryKey → ℕ) (limit : ℕ) (watermark : Option ℕ) (e : CacheEntryKey) (steps : List Step)
        → has_row e (held weight limit watermark steps) ≡ keeps limit watermark (peak weight e steps) }
    ensures finds { (weight : CacheEntryKey → ℕ) (limit : ℕ) (watermark : Option ℕ) (steps : List Step) → finds weight limit watermark steps ≡ counted weight limit watermark steps }
{}
