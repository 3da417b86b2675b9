//! Laws over definitions alone. The functions do nothing: their contracts are the laws.
ghost use Rattle.std.specs.Prelude.{◌≡◌, ◌↔◌, ℕ, Option, Some, [], true, option_map, is_some, IfSome};
ghost use Rattle.cache_heads.specs.declared.meta.CacheMeta.{CacheMeta};
ghost use Rattle.cache_changes.specs.Changes.{StoredKey, Change, Changes, renews};
ghost use Rattle.cache_changes.specs.Writes.{bytes_of, has_ended, IsOrderly};
ghost use Rattle.cache_changes.specs.Store.{Stored, Flying, Store, after, body_at, flying_at, shown_at, store_of};
ghost use Rattle.cache_store.specs.Agree.{Agree};
ghost use Rattle.cache_store.specs.Answers.{left, look_up, in_flight, finished, streamed, IsFinished};
ghost use Rattle.cache_store.specs.StoreState.{Reading, StoreState};
ghost use Rattle.cache_store.specs.Laws.{write_shown, NoneFlies, IsOwnNumber};
ghost use Rattle.cache_store.specs.Looks.{asked};
ghost use Rattle.cache_store.specs.Misses.{IsBegun};
ghost use Rattle.cache_store.specs.Readers.{readable, reading_at, is_whole, IsJoined, IsParted, SameStoreState};
ghost use Rattle.cache_store.specs.Renewals.{IsRenewed};

/// States that agree still agree after a change, and agreement is transitive. So a store that agrees with a state, and makes a
/// change, agrees with the state after that change.
pub fn changes_keep_agreement<M>()
    ensures next { (c : Change M) (s t : Store M) → Agree s t → Agree (after c s) (after c t) }
    ensures joined { (r s t : Store M) → Agree r s → Agree s t → Agree r t }
{}

/// A look-up of a key shows its alive write in flight that began first. It shows the finished body exactly where no alive write of
/// the key is in flight.
pub fn a_look_up_shows_what_it_is_to()
    ensures shown { (k : StoredKey) (s : Store CacheMeta) → option_map write_shown (look_up k s) ≡ shown_at k s }
    ensures whole { (k : StoredKey) (s : Store CacheMeta) (x : Stored CacheMeta) → (look_up k s ≡ Some (finished x)) ↔ (NoneFlies k s × (body_at k s ≡ Some x)) }
{}

/// A body with another meta is what the change of its write leaves, where only that body has the write's number.
pub fn another_meta_is_a_change()
    ensures { (key : StoredKey) (change : CacheMeta → CacheMeta) (x : Stored CacheMeta) (old new : StoreState) → body_at key old.store ≡ Some x
        → IsOwnNumber key x.write.number old.store → IsRenewed key change old new → Agree new.store (after (renews x.write.number (change x.meta)) old.store) }
{}

/// As a write is given up or finished, its readers are left with all of its bytes and its end: those that came, which none follow.
pub fn readers_are_left_with_the_bytes()
    ensures left { (n : ℕ) (h : StoreState) (f : Flying CacheMeta) (r : Reading) (changes : Changes CacheMeta) → IsOrderly changes → Agree h.store (store_of changes)
        → flying_at n h.store ≡ Some f → reading_at n h.readings ≡ Some r → readable n (left n h) ≡ Some (bytes_of n changes, true) }
    ensures landed { (n : ℕ) (x : Stored CacheMeta) (old new : StoreState) (f : Flying CacheMeta) (r : Reading) (changes : Changes CacheMeta) → IsOrderly changes → Agree old.store (store_of changes)
        → flying_at n old.store ≡ Some f → reading_at n old.readings ≡ Some r → IsFinished n x old new → readable n new ≡ Some (bytes_of n changes, true) }
{}

/// All of a write in flight came just where its end did. As it is given up, its readers are told the same from then on, so what they are
/// left with is whole just where the write had its end; as it is finished, that is whole.
pub fn readers_are_told_whether_all_came()
    ensures flying { (n : ℕ) (h : StoreState) (f : Flying CacheMeta) (changes : Changes CacheMeta) → IsOrderly changes → Agree h.store (store_of changes)
        → flying_at n h.store ≡ Some f → is_whole n h ≡ has_ended n changes }
    ensures left { (n : ℕ) (h : StoreState) (f : Flying CacheMeta) (r : Reading) (changes : Changes CacheMeta) → IsOrderly changes → Agree h.store (store_of changes)
        → flying_at n h.store ≡ Some f → reading_at n h.readings ≡ Some r → is_whole n (left n h) ≡ has_ended n changes }
    ensures landed { (n : ℕ) (x : Stored CacheMeta) (old new : StoreState) (f : Flying CacheMeta) (r : Reading) → flying_at n old.store ≡ Some f
        → reading_at n old.readings ≡ Some r → IsFinished n x old new → is_whole n new ≡ true }
{}

/// A reader of a write that is counted, and then spent, leaves all as it was.
pub fn joined_then_parted()
    ensures { (n : ℕ) (old mid new : StoreState) → IsJoined n old mid → IsParted n mid new → SameStoreState old new }
{}

/// A write that began is what its number shows, with no byte yet. So a look-up by its tag reads that write and no other. Where writes in
/// flight are shown, a look-up by a tag that names no number finds something too.
pub fn own_reader()
    ensures own { (k : StoredKey) (meta : CacheMeta) (n : ℕ) (old new : StoreState) → IsBegun k meta n old new
        → streamed k n new.store ≡ Some (in_flight (record { write = record { number = n; key = k; meta = meta }; meta = meta; bytes = [] })) }
    ensures found { (k : StoredKey) (meta : CacheMeta) (n : ℕ) (named : Option ℕ) (old new : StoreState) → IsBegun k meta n old new → IfSome named (λ m. m ≡ n)
        → is_some (asked true k named new.store) ≡ true }
{}
