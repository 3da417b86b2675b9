//! Laws over definitions alone. The functions do nothing: their contracts are the laws.
ghost use Rattle.std.specs.Prelude.{◌≡◌, ◌≢◌, ◌↔◌, ◌≤◌, ℕ, ◌+◌, Bool, true, false, List, [], ◌∷◌, length, map, Option, option_map, is_some, not, Some, None, Ok};
ghost use Rattle.std.specs.List.{sum_by, AllByRecursion};
ghost use Rattle.cache_words.specs.Key.{CacheKeyValue};
ghost use Rattle.cache_entries.specs.Rows.{is_over};
ghost use Rattle.cache_entries.specs.declared.entry.CacheEntryKey.{CacheEntryKey};
ghost use Rattle.cache_entries.specs.declared.rows.Tracked.{Tracked};
ghost use Rattle.cache_changes.specs.Bound.{is_entry_of};
ghost use Rattle.cache_changes.specs.Changes.{StoredKey, stored_key};
ghost use Rattle.cache_changes.specs.Uses.{IsOrderOfUse};
ghost use Rattle.cache_heads.specs.declared.given.GivenMeta.{GivenMeta};
ghost use Rattle.tier_model.specs.declared.event.Action.TheVariants as on;
ghost use Rattle.tier_model.specs.declared.event.Answer.TheVariants as answer;
ghost use Rattle.tier_model.specs.declared.event.LockGiven.{LockGiven};
ghost use Rattle.tier_model.specs.declared.event.LockGiven.TheVariants as lock;
ghost use Rattle.tier_model.specs.declared.state.Body.{Body};
ghost use Rattle.tier_model.specs.declared.whole.PutVerdict.TheVariants as whole;
ghost use Rattle.tier_model.specs.Answers.{is_fresh, is_past, look_for};
ghost use Rattle.tier_model.specs.Standings.{time_waited};
ghost use Rattle.tier_model.specs.Shelf.{look};
ghost use Rattle.tier_model.specs.State as state;
ghost use Rattle.std.specs.FinMap.{get};
ghost use Rattle.cache_words.specs.Time.{MomentValue, at_least, elapsed};
ghost use Rattle.tier_promise.specs.Hits.{head_at, hit_at, hit_in};
ghost use Rattle.tier_model.specs.Keys.{entry_of};
ghost use Rattle.tier_model.specs.Rows.{FinishedBody, size_of};
ghost use Rattle.tier_model.specs.Calls.{Call, History, extended, read_by};
ghost use Rattle.tier_model.specs.Histories.{Opening, changes_of};
ghost use Rattle.tier_model.specs.Locks.{PermitWaits};
ghost use Rattle.tier_model.specs.Past.{IsLawful, HasPast, CarriesPast};
ghost use Rattle.tier_model.specs.State.{Settings, State, Seen};
ghost use Rattle.tier_promise.specs.Promise.{Changes, Permit, Request, waits, Write, put_row, whole_way, rows, rows_with, row_of_call, flying, first_of, shown, body_of, as_body, bytes_of, waiting, gone_by, far_of, now_of, head_found, AreRight, AreApart, Promise};
ghost use Rattle.tier_promise.specs.Readers.{HasRead};
ghost use Rattle.tier_promise.specs.Restores.{all_admitted, put_of, restored};

/// Whatever a tier's state allows, call by call from its opening, keeps the promise: each call is answered by its event's row, by the
/// calls before it; a key is found exactly where a write of it is alive; bodies keep both limits, and each is tracked with what it takes.
pub fn lawful_histories_keep_the_promise()
    ensures { (start : Opening) (h : History) → IsLawful start h → Promise start.settings (start.first + start.first_core) start.loaded h }
{}

/// So `Tier::step` and `Tier::run` carry the promise on: it holds of each past that the tier may have had, with their calls after it
/// (`promise` of `Takes`).
pub fn calls_carry_the_promise_on()
    ensures { (old new : State) (calls : List Call) → CarriesPast old calls new → (start : Opening) (past : History) → HasPast start old past
        → Promise start.settings (start.first + start.first_core) start.loaded (extended past calls) }
{}

/// A permit of a key waits by the changes exactly where one waits by the answers: it was given, its request met no end of it since, and
/// none that waits for it was answered that it is past its age.
pub fn waiting_is_by_splitting()
    ensures { (start : Opening) (h : History) → IsLawful start h → (k : StoredKey) → (waiting k (now_of start.settings start.loaded h).changes ≢ None) ↔ PermitWaits k h }
{}

/// Whatever calls are answered by their rows, a request reads a beginning: what it read of a write as it comes, joined, is a beginning of
/// that write's bytes, up to its reader's place; of a whole body it read nothing, or all, as its look-up found it, whatever came later.
pub fn readers_read_a_beginning()
    ensures { (s : Settings) (used : ℕ) (loaded : List Tracked) (h : History) → AreRight s used loaded h → (id : ℕ) (r : Request) → (now_of s loaded h).request id ≡ Some r
        → HasRead s loaded id r.reader (now_of s loaded h).changes h }
{}

/// The rows are the tracked entries, the latest used first, each with what it weighs, as the history says: its order of use.
pub fn rows_are_the_order_of_use()
    ensures { (start : Opening) (h : History) → IsLawful start h → IsOrderOfUse (rows (now_of start.settings start.loaded h).changes) (changes_of start h) }
{}

/// Right after a purge of a key nothing is found of it, whatever came before.
pub fn what_is_purged_is_absent()
    ensures { (s : Settings) (used : ℕ) (loaded : List Tracked) (h : History) (c : Call) (key : CacheKeyValue) → AreRight s used loaded (c ∷ h) → c.event.action ≡ on.Purge key
        → shown (stored_key (entry_of key)) (now_of s loaded (c ∷ h)).changes ≡ None }
{}

/// An answer that something is found is of what is shown: fresh exactly up to its moment, complete exactly where no write of the key is in flight.
pub fn what_is_found_is_fresh_until_its_moment()
    ensures { (s : Settings) (used : ℕ) (loaded : List Tracked) (h : History) (c : Call) (id : ℕ) (q : Request) (fresh complete : Bool) (given : LockGiven) → AreRight s used loaded (c ∷ h)
        → c.event.action ≡ on.LookUp id → (now_of s loaded h).request id ≡ Some q → c.outcome ≡ Ok (answer.Found fresh complete given)
        → (w : Write) × (shown (stored_key q.entry) (now_of s loaded h).changes ≡ Some w) × (fresh ≡ is_fresh c.event.moment w.meta)
        × (complete ≡ not (is_some (first_of (flying (stored_key q.entry) (now_of s loaded h).changes)))) }
{}

/// A permit is given, for what is absent or stale, only while none of the key waits, and then that one waits.
pub fn one_writer_a_key()
    ensures absent { (s : Settings) (used : ℕ) (loaded : List Tracked) (h : History) (c : Call) (id : ℕ) (q : Request) → AreRight s used loaded (c ∷ h)
        → c.event.action ≡ on.LookUp id → (now_of s loaded h).request id ≡ Some q → c.outcome ≡ Ok (answer.Absent lock.Write)
        → (waiting (stored_key q.entry) (now_of s loaded h).changes ≡ None) × (waiting (stored_key q.entry) (now_of s loaded (c ∷ h)).changes ≢ None) }
    ensures stale { (s : Settings) (used : ℕ) (loaded : List Tracked) (h : History) (c : Call) (id : ℕ) (q : Request) (fresh complete : Bool) → AreRight s used loaded (c ∷ h)
        → c.event.action ≡ on.LookUp id → (now_of s loaded h).request id ≡ Some q → c.outcome ≡ Ok (answer.Found fresh complete lock.Write)
        → (waiting (stored_key q.entry) (now_of s loaded h).changes ≡ None) × (waiting (stored_key q.entry) (now_of s loaded (c ∷ h)).changes ≢ None) }
{}

/// No key is stuck: a poll ends a wait once the permit is past its age, and once all waits of its request took their bound, whoever holds the permit.
pub fn waits_end_in_time()
    ensures age { (s : Settings) (used : ℕ) (loaded : List Tracked) (h : History) (c : Call) (id : ℕ) (q : Request) (p : Permit) (first : Option MomentValue) → AreRight s used loaded (c ∷ h)
        → c.event.action ≡ on.Poll id → (now_of s loaded h).request id ≡ Some q → q.hold ≡ waits p first → at_least (elapsed p.given c.event.moment) s.age ≡ true
        → c.outcome ≢ Ok (answer.Waited None) }
    ensures bound { (s : Settings) (used : ℕ) (loaded : List Tracked) (h : History) (c : Call) (id : ℕ) (q : Request) (p : Permit) (first : Option MomentValue) → AreRight s used loaded (c ∷ h)
        → c.event.action ≡ on.Poll id → (now_of s loaded h).request id ≡ Some q → q.hold ≡ waits p first → is_past s.wait q.waited (time_waited first c.event.moment) ≡ true
        → c.outcome ≢ Ok (answer.Waited None) }
{}

/// The bodies of keys that are apart take, with their heads, no more than the limit.
pub fn bodies_keep_the_limit()
    ensures { (s : Settings) (used : ℕ) (loaded : List Tracked) (h : History) → Promise s used loaded h → (keys : List StoredKey) → AreApart keys → (bodies : List Write)
        → map (λ k. body_of k (now_of s loaded h).changes) keys ≡ map Some bodies → sum_by (λ w. size_of (as_body w (now_of s loaded h).changes)) bodies ≤ s.limit }
{}

/// Right after a put that finished, its body is the key's, unless its own key's entry went to make room.
pub fn what_is_put_is_stored()
    ensures { (s : Settings) (used : ℕ) (loaded : List Tracked) (h : History) (c : Call) (key : CacheKeyValue) (pieces : List (List ℕ)) (given : Option GivenMeta) (size : ℕ) (evicted : List CacheEntryKey) → AreRight s used loaded (c ∷ h)
        → c.event.action ≡ on.Put key pieces given → c.outcome ≡ Ok (answer.Finished size evicted) → AllByRecursion (λ e. is_entry_of (stored_key (entry_of key)) e ≡ false) evicted
        → (b : Body) × (read_by c ≡ Some (whole.Stored b)) × (option_map (λ w. as_body w (now_of s loaded (c ∷ h)).changes) (body_of (stored_key (entry_of key)) (now_of s loaded (c ∷ h)).changes) ≡ Some b) }
{}

/// The head that a complete find gives and the bytes that are read right after it are of one write: that by whose meta the find is fresh.
pub fn head_and_body_are_of_one_write()
    ensures { (s : Settings) (used : ℕ) (loaded : List Tracked) (h : History) (look read : Call) (id : ℕ) (fresh : Bool) (given : LockGiven) (bytes : List ℕ) → AreRight s used loaded (read ∷ look ∷ h)
        → look.event.action ≡ on.LookUp id → look.outcome ≡ Ok (answer.Found fresh true given) → read.event.action ≡ on.Read id → read.outcome ≡ Ok (answer.Bytes bytes)
        → (w : Write) × (head_found id (now_of s loaded h) ≡ Some w.meta) × (fresh ≡ is_fresh look.event.moment w.meta) × (bytes ≡ bytes_of w.number (now_of s loaded h).changes) }
{}

/// A 304, or a head with a given meta, renews just the body that was found, and no byte of any write.
pub fn a_304_renews_just_that_body()
    ensures { (s : Settings) (used : ℕ) (loaded : List Tracked) (h : History) (c : Call) (id : ℕ) (head : List ℕ) (given : Option GivenMeta) (q : Request) (evicted : List CacheEntryKey) → AreRight s used loaded (c ∷ h)
        → c.event.action ≡ on.Revalidate id head given → (now_of s loaded h).request id ≡ Some q → c.outcome ≡ Ok (answer.Revalidated evicted)
        → (x : Seen) × (w : Write) × (q.seen ≡ Some x) × (body_of (stored_key q.entry) (now_of s loaded h).changes ≡ Some w) × (w.number ≡ x.number)
        × ((n : ℕ) → bytes_of n (now_of s loaded (c ∷ h)).changes ≡ bytes_of n (now_of s loaded h).changes) }
{}

/// The first entry that a call's outcome lists went while a limit was passed, with what came in.
pub fn nothing_goes_within_the_limits()
    ensures { (s : Settings) (used : ℕ) (loaded : List Tracked) (h : History) (c : Call) (e : CacheEntryKey) (es : List CacheEntryKey) → AreRight s used loaded (c ∷ h) → gone_by (far_of c.outcome) ≡ e ∷ es
        → is_over s.limit s.watermark (rows_with (row_of_call s c (now_of s loaded h)).needs.entering (now_of s loaded h).changes) ≡ true }
{}

/// What a state finds is what each past of it shows: of a key the body that is whole and fresh, and of an open request the head of what its
/// look-up finds.
pub fn states_find_what_their_pasts_show()
    ensures hit { (start : Opening) (s : State) (past : History) → HasPast start s past → (t : MomentValue) (k : StoredKey)
        → hit_at t (look k s.shelf) ≡ hit_in t k (now_of start.settings start.loaded past).changes }
    ensures head { (start : Opening) (s : State) (past : History) → HasPast start s past → (id : ℕ) (q : state.Request) → get s.requests id ≡ Some q
        → head_at (look_for q s.shelf) ≡ head_found id (now_of start.settings start.loaded past) }
{}

/// A start by puts keeps the order: puts that evict nothing leave their entries tracked as they came, the last one first, each with what its
/// body weighs.
pub fn a_start_by_puts_keeps_the_order()
    ensures rows { (bodies : List FinishedBody) (c : Changes) → rows (restored bodies c) ≡ all_admitted bodies (rows c) }
    ensures put { (b : FinishedBody) (c : Changes) → put_of (length c) b ≡ (put_row b.entry (Some (whole.Stored b.body)) (whole_way []) c).changes }
{}
