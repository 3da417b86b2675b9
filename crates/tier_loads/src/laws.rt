//! Laws of tiers of one shard. The functions do nothing: their contracts are the laws.
ghost use Rattle.std.specs.Prelude.{◌≡◌, ◌↔◌, ◌≤◌, ℕ, Bool, List, ◌∷◌, Option, Some, None, is_some, true, false};
ghost use Rattle.cache_entries.specs.declared.entry.CacheEntryKey.{CacheEntryKey};
ghost use Rattle.cache_changes.specs.Changes.{stored_key};
ghost use Rattle.cache_evict.specs.Managed.{Managed, rows_at, put_first, use_first, taken_out};
ghost use Rattle.curve_loads.specs.Steps.{Step, asks, removes};
ghost use Rattle.curve_loads.specs.Loads.{Stays};
ghost use Rattle.curve_loads.specs.Finds.{IsFront, IsAtMost};
ghost use Rattle.tier_model.specs.declared.state.Body.{Body};
ghost use Rattle.tier_model.specs.Keys.{Entry, alone};
ghost use Rattle.tier_model.specs.Rows.{Bodies, FinishedBody, body_of, with_body, without_body, without_bodies, weight_for};
ghost use Rattle.tier_model.specs.Evictions.{all_gone, GoInTurn};
ghost use Rattle.tier_loads.specs.Holds.{AreApart, HoldsAfter};
ghost use Rattle.tier_loads.specs.Requests.{PlainRequest, entry_of, step_of, steps_of, ServesRequest, AreServed};
ghost use Rattle.tier_loads.specs.Uniform.{IsUniform, IsWeighed, AreUniform, used_in, weight_in};

/// What each change of order of use and bodies leaves, where they were what loads report: a use of what is found, a body that is
/// stored and the evictions after it, a purge, and a purge that finds nothing.
pub fn changes_are_steps()
    ensures found { (in_use : Entry → Bool) (weight : CacheEntryKey → ℕ) (limit : ℕ) (watermark : Option ℕ) (steps : List Step) (m : Managed) (bodies : Bodies) (k : Entry) (b : Body)
        → AreApart in_use → HoldsAfter in_use weight limit watermark steps m bodies → in_use k ≡ true → body_of (stored_key k) bodies ≡ Some b
        → HoldsAfter in_use weight limit watermark (asks (alone k) ∷ steps) (use_first 1 (alone k) (weight_for b) m) bodies }
    ensures put { (in_use : Entry → Bool) (weight : CacheEntryKey → ℕ) (limit : ℕ) (watermark : Option ℕ) (steps : List Step) (m : Managed) (bodies : Bodies)
        → (n : ℕ) (b : FinishedBody) (es : List CacheEntryKey) → AreApart in_use → HoldsAfter in_use weight limit watermark steps m bodies → in_use b.entry ≡ true
        → weight_for b.body ≡ weight (alone b.entry)
        → GoInTurn 1 false es (put_first 1 (alone b.entry) (weight_for b.body) m)
        → HoldsAfter in_use weight limit watermark (asks (alone b.entry) ∷ steps) (all_gone 1 es (put_first 1 (alone b.entry) (weight_for b.body) m)) (without_bodies es (with_body n b bodies)) }
    ensures purged { (in_use : Entry → Bool) (weight : CacheEntryKey → ℕ) (limit : ℕ) (watermark : Option ℕ) (steps : List Step) (m : Managed) (bodies : Bodies) (k : Entry)
        → AreApart in_use → HoldsAfter in_use weight limit watermark steps m bodies → in_use k ≡ true
        → HoldsAfter in_use weight limit watermark (removes (alone k) ∷ steps) (taken_out 1 (alone k) m) (without_body (stored_key k) bodies) }
    ensures missed { (in_use : Entry → Bool) (weight : CacheEntryKey → ℕ) (limit : ℕ) (watermark : Option ℕ) (steps : List Step) (m : Managed) (bodies : Bodies) (k : Entry)
        → AreApart in_use → HoldsAfter in_use weight limit watermark steps m bodies → in_use k ≡ true → body_of (stored_key k) bodies ≡ None
        → HoldsAfter in_use weight limit watermark (removes (alone k) ∷ steps) m bodies }
    ensures request { (in_use : Entry → Bool) (weight : CacheEntryKey → ℕ) (limit : ℕ) (watermark : Option ℕ) (steps : List Step) (m new : Managed) (bodies after : Bodies) (r : PlainRequest)
        → AreApart in_use → HoldsAfter in_use weight limit watermark steps m bodies → in_use (entry_of r) ≡ true → IsWeighed weight r → ServesRequest r m bodies new after
        → HoldsAfter in_use weight limit watermark (step_of r ∷ steps) new after }
{}

/// A request or a purge, of uniform requests of which none is refused, finds its key exactly where the key was asked for before, not
/// purged since, and its load was within the limits after each request from that last one on.
pub fn requests_find_by_loads()
    ensures found { (in_use : Entry → Bool) (weight : CacheEntryKey → ℕ) (limit : ℕ) (watermark : Option ℕ) (r : PlainRequest) (before : List PlainRequest) (m : Managed) (bodies : Bodies)
        → AreUniform in_use weight (r ∷ before) → AreServed limit watermark before m bodies
        → (is_some (body_of (stored_key (entry_of r)) bodies) ≡ true) ↔ Stays weight limit watermark (alone (entry_of r)) (steps_of before) }
    ensures held { (in_use : Entry → Bool) (weight : CacheEntryKey → ℕ) (limit : ℕ) (watermark : Option ℕ) (requests : List PlainRequest) (m : Managed) (bodies : Bodies)
        → AreUniform in_use weight requests → AreServed limit watermark requests m bodies → HoldsAfter in_use weight limit watermark (steps_of requests) m bodies }
    ensures uniform { (requests : List PlainRequest) → IsUniform requests → AreUniform (used_in requests) (weight_in requests) requests }
{}

/// Of two tiers of one shard that serve the same uniform requests from empty, none refused, the one with greater limits finds what
/// the other finds, and the other's order of use with its weights is a front of its own.
pub fn a_greater_tier_finds_no_less()
    ensures found { (limit limit' : ℕ) (watermark watermark' : Option ℕ) (r : PlainRequest) (before : List PlainRequest) (m m' : Managed) (bodies bodies' : Bodies)
        → limit ≤ limit' → IsAtMost watermark watermark' → IsUniform (r ∷ before) → AreServed limit watermark before m bodies → AreServed limit' watermark' before m' bodies'
        → is_some (body_of (stored_key (entry_of r)) bodies) ≡ true → is_some (body_of (stored_key (entry_of r)) bodies') ≡ true }
    ensures front { (limit limit' : ℕ) (watermark watermark' : Option ℕ) (requests : List PlainRequest) (m m' : Managed) (bodies bodies' : Bodies)
        → limit ≤ limit' → IsAtMost watermark watermark' → IsUniform requests → AreServed limit watermark requests m bodies → AreServed limit' watermark' requests m' bodies'
        → IsFront (rows_at m.shards 0) (rows_at m'.shards 0) }
{}
