//! Laws over definitions alone. The function does nothing: its contract is the law.
ghost use Rattle.std.specs.Prelude.{◌≡◌, ◌++◌, ℕ, Bool, List, Result, Some};
ghost use Rattle.cache_heads.specs.declared.meta.CacheMeta.{CacheMeta};
ghost use Rattle.cache_changes.specs.Changes.{Changes};
ghost use Rattle.cache_changes.specs.Writes.{bytes_of, IsOrderly};
ghost use Rattle.cache_changes.specs.Store.{Flying, Store, flying_at, store_of};
ghost use Rattle.cache_store.specs.declared.storage.ReadStep.{ReadStep};
ghost use Rattle.cache_store.specs.declared.storage.StoreFault.{StoreFault};
ghost use Rattle.cache_store.specs.Agree.{Agree};
ghost use Rattle.cache_store.specs.Readers.{StreamHit};
ghost use Rattle.store_memory.specs.Hits.{ReadAnswer, moved};
ghost use Rattle.store_memory.specs.Laws.{given, HasRead};

/// What a reader of a write has read, with what a step gives, is a beginning of the write's bytes, and stays one whatever comes
/// later. The bytes of a write in flight are those that came.
pub fn a_reader_reads_a_beginning()
    ensures step { (h : StreamHit) (read bytes : List ℕ) (over : Bool) (r : Result ReadStep StoreFault) → HasRead read h.place bytes
        → ReadAnswer (Some (bytes, over)) h.place r → HasRead (read ++ given r) (moved h r).place bytes }
    ensures later { (n place : ℕ) (read : List ℕ) (since before : Changes CacheMeta) → HasRead read place (bytes_of n before) → HasRead read place (bytes_of n (since ++ before)) }
    ensures came { (n : ℕ) (s : Store CacheMeta) (changes : Changes CacheMeta) (f : Flying CacheMeta) → IsOrderly changes → Agree s (store_of changes)
        → flying_at n s ≡ Some f → f.stored.bytes ≡ bytes_of n changes }
{}
