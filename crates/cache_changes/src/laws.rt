//! Laws over definitions alone. The functions do nothing: their contracts are the laws.
ghost use Rattle.std.specs.Prelude.{◌≡◌, ◌↔◌, ◌⊎◌, ◌<◌, ℕ, List, [], ◌∷◌, ◌++◌, length, slice_index_or, slice_set, Option, Some, is_some, true, false};
ghost use Rattle.std.specs.List.{sum_by};
ghost use Rattle.cache_entries.specs.declared.entry.CacheEntryKey.{CacheEntryKey};
ghost use Rattle.cache_entries.specs.declared.rows.Tracked.{Tracked};
ghost use Rattle.cache_entries.specs.Rows.{AreDistinct, all_weights, is_over};
ghost use Rattle.cache_changes.specs.Changes.{StoredKey, Write, Change, Changes, appends, finishes, renews, evicts};
ghost use Rattle.cache_changes.specs.Writes.{body_now, bytes_of, HasBegun, IsInFlight, IsBody, IsShown, IsNumberInFlight, MayCome, IsOrderly};
ghost use Rattle.cache_changes.specs.Store.{Stored, Flying, IsStateOf, body_at, flying_at, store_of};
ghost use Rattle.cache_changes.specs.Bound.{TracksBodies, is_settled, IsTrackedBody, AreWithin};
ghost use Rattle.cache_changes.specs.Uses.{IsOrderOfUse, IsLast, IsLawfulEviction, rows_after, rows_of, shard_of, in_shard, changes_shard, entry_changed, AreShardsOf, shards_after, admissions};

/// The state that orderly changes leave of writes is what the changes say.
pub fn the_state_is_what_changes_say<M>()
    ensures { (changes : Changes M) → IsOrderly changes → IsStateOf (store_of changes) changes }
{}

/// That state says which changes may come next: bytes, to a write that has not ended; a finish, of one that was not removed; what
/// else is done to a write, in flight; and another meta, to a write in flight or a body.
pub fn the_state_tells_what_may_come<M>()
    ensures flies { (changes : Changes M) → IsOrderly changes → (n : ℕ) → (is_some (flying_at n (store_of changes)) ≡ true) ↔ IsNumberInFlight n changes }
    ensures appends { (changes : Changes M) → IsOrderly changes → (n : ℕ) (bytes : List ℕ)
        → ((f : Flying M) × (flying_at n (store_of changes) ≡ Some f) × (f.ended ≡ false)) ↔ MayCome (appends n bytes) changes }
    ensures finishes { (changes : Changes M) → IsOrderly changes → (w : Write M)
        → ((f : Flying M) × (flying_at w.number (store_of changes) ≡ Some f) × (f.stored.write ≡ w) × (f.removed ≡ false)) ↔ MayCome (finishes w) changes }
    ensures renews { (changes : Changes M) → IsOrderly changes → (n : ℕ) (meta : M)
        → ((is_some (flying_at n (store_of changes)) ≡ true) ⊎ ((k : StoredKey) × (x : Stored M) × (body_at k (store_of changes) ≡ Some x) × (x.write.number ≡ n)))
        ↔ MayCome (renews n meta) changes }
{}

/// Bytes that come to a write go to the end of those that it has, and none come once it is no longer in flight: what was read
/// of a body stays its bytes, whatever comes later.
pub fn bytes_only_come_in_flight<M>()
    ensures more { (n : ℕ) (since before : Changes M) → bytes_of n (since ++ before) ≡ bytes_of n before ++ bytes_of n since }
    ensures same { (w : Write M) (since before : Changes M) → IsOrderly (since ++ before) → HasBegun w before → (IsInFlight w before → ⊥)
        → bytes_of w.number (since ++ before) ≡ bytes_of w.number before }
{}

/// A key has one body at most, which is found change by change, and shows one write.
pub fn a_key_has_one_body<M>()
    ensures now { (k : StoredKey) (w : Write M) (changes : Changes M) → IsOrderly changes → IsBody k w changes ↔ (body_now k changes ≡ Some w) }
    ensures body { (k : StoredKey) (v w : Write M) (changes : Changes M) → IsOrderly changes → IsBody k v changes → IsBody k w changes → v ≡ w }
    ensures shown { (k : StoredKey) (v w : Write M) (changes : Changes M) → IsOrderly changes → IsShown k v changes → IsShown k w changes → v ≡ w }
{}

/// What changes leave of entries is their order of use, and no other rows are.
pub fn rows_are_the_order_of_use<M>()
    ensures is { (changes : Changes M) → IsOrderOfUse (rows_of changes) changes }
    ensures alone { (changes : Changes M) (rows : List Tracked) → IsOrderOfUse rows changes → rows ≡ rows_of changes }
{}

/// A change of an entry does to its shard's rows what it does to all rows, and nothing to those of another shard. So the
/// shards' lists, changed each alone, are the rows filtered by shard.
pub fn shards_change_alone<M>()
    ensures same { (n s : ℕ) (c : Change M) (rows : List Tracked) → changes_shard n s c ≡ true → in_shard n s (rows_after c rows) ≡ rows_after c (in_shard n s rows) }
    ensures other { (n s : ℕ) (c : Change M) (rows : List Tracked) → changes_shard n s c ≡ false → in_shard n s (rows_after c rows) ≡ in_shard n s rows }
{}

/// Lists that hold the rows by shard still hold them after a change of an entry that was made in its shard's list alone. Together
/// they weigh and count what the rows do. An eviction takes the last row of its shard's list.
pub fn shards_hold_the_rows<M>()
    ensures change { (n : ℕ) (c : Change M) (e : CacheEntryKey) (shards : List (List Tracked)) (rows : List Tracked) → 0 < n → entry_changed c ≡ Some e
        → AreShardsOf n shards rows → AreShardsOf n (shards_after n e c shards) (rows_after c rows) }
    ensures weight { (n : ℕ) (shards : List (List Tracked)) (rows : List Tracked) → 0 < n → AreShardsOf n shards rows → sum_by all_weights shards ≡ all_weights rows }
    ensures count { (n : ℕ) (shards : List (List Tracked)) (rows : List Tracked) → 0 < n → AreShardsOf n shards rows → sum_by length shards ≡ length rows }
    ensures last { (n s w : ℕ) (e : CacheEntryKey) (front : List Tracked) (shards : List (List Tracked)) (before : Changes M) → 0 < n → s < n → AreShardsOf n shards (rows_of before)
        → slice_index_or shards s [] ≡ front ++ record { entry = e; weight = w } ∷ []
        → AreShardsOf n (slice_set shards s front) (rows_of (evicts e ∷ before)) × IsLast e (in_shard n (shard_of n e) (rows_of before)) }
{}

/// Rows that were loaded are kept: their admissions, the last row first, leave just them.
pub fn loaded_rows_are_kept<M>()
    ensures { (rows : List Tracked) → AreDistinct rows → rows_of {M = M} (admissions rows) ≡ rows }
{}

/// An eviction is lawful exactly where the rows that the changes leave are over a limit, and the entry is the last of its shard's.
pub fn lawful_evictions_take_the_last<M>()
    ensures { (n limit : ℕ) (watermark : Option ℕ) (e : CacheEntryKey) (before : Changes M) → IsLawfulEviction n limit watermark e before
        ↔ ((is_over limit watermark (rows_of before) ≡ true) × IsLast e (in_shard n (shard_of n e) (rows_of before))) }
{}

/// A meta counts what `size` says, and a body its bytes and its meta. Where each write that finishes is admitted at once under an
/// entry of its key, and each body that gets another meta has such an entry weighed anew at once, or the key is removed; where an
/// entry is put with at least what the body of its key counts; and where it departs only when its key has no body: there the
/// entry that was last put for a body is tracked, with at least what the body counts. So, while the rows keep the limit and the
/// watermark, the bodies do.
pub fn tracked_bodies_keep_the_limits<M>()
    ensures tracked { (size : M → ℕ) (changes : Changes M) → IsOrderly changes → TracksBodies size changes → is_settled changes ≡ true → (w : Write M) → IsBody w.key w changes
        → IsTrackedBody size w changes }
    ensures within { (size : M → ℕ) (changes : Changes M) → IsOrderly changes → TracksBodies size changes → is_settled changes ≡ true → (limit : ℕ) (watermark : Option ℕ) (rows : List Tracked)
        → IsOrderOfUse rows changes → is_over limit watermark rows ≡ false → AreWithin size limit watermark changes }
{}
