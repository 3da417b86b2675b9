//! Laws over definitions alone. The functions do nothing: their contracts are the laws.
ghost use Rattle.tier_model.specs.Calls.{Call, History, nothing_done, done_of, is_revalidation};
ghost use Rattle.tier_model.specs.declared.event.TierFault.{TierFault};
ghost use Rattle.cache_lock.specs.Answers.{IsAsBefore};
ghost use Rattle.cache_lock.specs.Waits as locks;
ghost use Rattle.tier_model.specs.Histories.{Opening, counts, changes_of};
ghost use Rattle.tier_model.specs.Locks.{PermitWaits};
ghost use Rattle.cache_changes.specs.Changes.{StoredKey};
ghost use Rattle.cache_changes.specs.Bound.{TracksBodies};
ghost use Rattle.cache_changes.specs.Writes.{IsFound, IsOrderly};
ghost use Rattle.std.specs.Prelude.{◌≡◌, ◌≢◌, ◌↔◌, ◌&&◌, true, false, Bool, ℕ, List, [], ◌∷◌, Option, Some, None, is_some, Ok, Err};
ghost use Rattle.head_lines.specs.declared.header.ResponseHeader.{ResponseHeader};
ghost use Rattle.tier_model.specs.Answers.{is_fresh, read_answer, whole_read, whole_told};
ghost use Rattle.cache_heads.specs.declared.given.GivenMeta.{GivenMeta};
ghost use Rattle.cache_heads.specs.declared.reason.NoCacheReason.{NoCacheReason};
ghost use Rattle.cache_heads.specs.declared.reason.NoCacheReason.TheVariants.{OriginNotCache};
ghost use Rattle.tier_model.specs.NoStore.{no_store_head};
ghost use Rattle.cache_words.specs.Time.{at_most};
ghost use Rattle.tier_model.specs.declared.whole.PutVerdict.TheVariants.{BadHead};
ghost use Rattle.cache_words.specs.Time.{MomentValue};
ghost use Rattle.head_parse.specs.Response.{IsWellFormed, Reading, IsReading, head_of};
ghost use Rattle.httparse.specs.Grammar.{ResponseHead, status_code};
ghost use Rattle.cache_heads.specs.declared.meta.CacheMeta.{CacheMeta};
ghost use Rattle.tier_model.specs.Response.{kept, not_kept, not_read, has_own_body, as_given, judged_alone, confirmed_alone, whole_of, IsOneHeadOf};
ghost use Rattle.tier_model.specs.State.{Reader, closed, State, shards_of};
ghost use Rattle.tier_model.specs.Shelf.{Shelf};
ghost use Rattle.tier_model.specs.Reads.{HasReadOut};
ghost use Rattle.tier_model.specs.declared.event.Action.TheVariants.{Read};
ghost use Rattle.tier_model.specs.declared.event.Answer.TheVariants.{End};
ghost use Rattle.tier_model.specs.Started.{HasOnlyOrder, IsNew, opening_of};
ghost use Rattle.cache_evict.specs.Managed.{IsSharded, fresh};
ghost use Rattle.tier_model.specs.Past.{HasPast, IsLawful, MatchesHistory, state_of, lock_changes_of};
ghost use Rattle.tier_model.specs.Reports.{IsReport, report_of};

/// Whatever a tier's state allows, call by call from its opening, the changes are orderly: writes begin, get bytes and finish in order, with a number each. And they keep
/// each body tracked: its entry is admitted as it finishes, and departs only when the body's key has none. What it changes in the
/// lock is orderly too: permits come from the lock alone, and each is released under its own key or left.
pub fn lawful_histories_are_orderly()
    ensures orderly { (start : Opening) (h : History) → IsLawful start h → IsOrderly (changes_of start h) }
    ensures tracks { (start : Opening) (h : History) → IsLawful start h → TracksBodies counts (changes_of start h) }
    ensures locks { (start : Opening) (h : History) → IsLawful start h → locks.IsOrderly (lock_changes_of start h) }
{}

/// In such a history a permit of a key waits by the answers exactly where one waits by the changes of the lock.
pub fn a_permit_waits_as_the_lock_says()
    ensures { (start : Opening) (h : History) → IsLawful start h → (k : StoredKey) → locks.Waits k (lock_changes_of start h) ↔ PermitWaits k h }
{}

/// The state after such a history is what it says.
pub fn lawful_states_tell_their_history()
    ensures { (start : Opening) (h : History) → IsLawful start h → MatchesHistory (state_of start h) start h }
{}

/// A refused call leaves the lock as before to all who ask for one or wait, though a look-up may have been given a lock first: that is
/// handed back. A revalidation that is refused after the new meta was stored ends its permit.
pub fn refused_calls_leave_the_lock()
    ensures { (start : Opening) (c : Call) (h : History) (f : TierFault) → c.outcome ≡ Err f → is_revalidation c.event.action && (done_of f).stored ≡ false
        → IsAsBefore (state_of start (c ∷ h)).lock (state_of start h).lock }
{}

/// A refused call that stored nothing had done nothing, and tells so.
pub fn refused_calls_had_done_nothing()
    ensures { (start : Opening) (c : Call) (h : History) (f : TierFault) → IsLawful start (c ∷ h) → c.outcome ≡ Err f → (done_of f).stored ≡ false → done_of f ≡ nothing_done }
{}

/// Whether all of a write came is told at its end: of a request that is told so, its last reader is of a write, as a whole body or as it
/// comes; it has read all bytes of that write, and no more comes; and all of it came just where it is told so: the write had its last
/// piece, or was finished. It is told just where a reader's next answer is the end, and so after a read that was answered the end.
pub fn whole_is_told_at_the_end()
    ensures read { (start : Opening) (s : State) (h : History) (id : ℕ) (all : Bool) → HasPast start s h → whole_told s id ≡ Some all → HasReadOut start id all h }
    ensures at_end { (start : Opening) (s : State) (c : Call) (h : History) (id : ℕ) → HasPast start s (c ∷ h) → c.event.action ≡ Read id → c.outcome ≡ Ok End
        → is_some (whole_told s id) ≡ true }
    ensures told { (r : Reader) (shelf : Shelf) → (is_some (whole_read r shelf) ≡ true) ↔ ((r ≢ closed) × (read_answer r shelf ≡ End)) }
{}

/// The report of a state that matches a history is that of the history.
pub fn reports_tell_the_history()
    ensures { (s : State) (start : Opening) (h : History) → MatchesHistory s start h → IsReport (report_of s) start h }
{}

/// A response whose head the parser's default options read or begin to read, within bounds, is never a bad head.
pub fn well_formed_responses_are_read()
    ensures { (arrival : MomentValue) (bytes : List ℕ) (r : Reading) → IsWellFormed bytes → IsReading bytes r → whole_of arrival r ≢ BadHead }
{}

/// A begin whose bytes are one head that the parser's default options read, within bounds, is never refused as a bad head, whatever meta is
/// given with it; with a given one the head's status speaks of a body of its own.
pub fn well_formed_heads_are_read()
    ensures { (given : Option GivenMeta) (arrival : MomentValue) (bytes : List ℕ) (h : ResponseHead) (r : Reading) → IsOneHeadOf h bytes
        → (is_some given ≡ true → has_own_body (status_code h) ≡ true) → IsReading bytes r → judged_alone given arrival (head_of r) ≢ not_read }
{}

/// Nothing is stored with a given meta under the head of a 304 or of an interim response: so none is ever answered with a body.
pub fn given_heads_have_their_own_body()
    ensures { (s : GivenMeta) (header : ResponseHeader) (meta : CacheMeta) → as_given s header ≡ kept meta → has_own_body header.status ≡ true }
{}

/// A revalidation whose bytes are one head that the parser's default options read, within bounds, of status 304, is never refused as a bad
/// head.
pub fn confirming_heads_are_read()
    ensures { (arrival : MomentValue) (old : CacheMeta) (bytes : List ℕ) (h : ResponseHead) (r : Reading) → IsOneHeadOf h bytes → status_code h ≡ 304 → IsReading bytes r
        → confirmed_alone None arrival old (head_of r) ≢ not_read }
{}

/// The head that stands for a response that no cache may store is read as one, and may not be kept, whenever it comes.
pub fn no_store_heads_are_not_kept()
    ensures { (t : MomentValue) → (r : Reading) × IsReading no_store_head r × (judged_alone None t (head_of r) ≡ not_kept OriginNotCache) }
{}

/// A response with a given meta is never told that it may not be kept.
pub fn given_metas_are_never_uncacheable()
    ensures { (s : GivenMeta) (header : ResponseHeader) (reason : NoCacheReason) → as_given s header ≢ not_kept reason }
{}

/// It is fresh just until the given moment, and its head and what its body has outside are those that were given.
pub fn given_metas_are_kept()
    ensures { (s : GivenMeta) (header : ResponseHeader) (meta : CacheMeta) → as_given s header ≡ kept meta
        → ((t : MomentValue) → is_fresh t meta ≡ at_most t s.fresh_until) × (meta.header ≡ header) × (meta.external ≡ s.external) }
{}

/// What a body has outside stays, whatever renews its meta.
pub fn renewals_keep_what_is_outside()
    ensures { (given : Option GivenMeta) (t : MomentValue) (old : CacheMeta) (sent : Option ResponseHeader) (meta : CacheMeta)
        → confirmed_alone given t old sent ≡ kept meta → meta.external ≡ old.external }
{}

/// A tier that holds nothing but its order of use, and has counted nothing, is what an opening with its rows gives: its past is
/// that opening with no call; and it finds no key.
pub fn tiers_with_only_an_order_are_as_opened()
    ensures past { (s : State) → HasOnlyOrder s → IsSharded (shards_of s) s.managed → HasPast (opening_of s) s [] }
    ensures nothing { (s : State) (k : StoredKey) → ¬ IsFound k (changes_of (opening_of s) []) }
{}

/// A tier that holds nothing, and has counted nothing, has an order of use as it is made.
pub fn new_tiers_track_nothing()
    ensures { (s : State) (n : ℕ) → IsNew s → IsSharded n s.managed → s.managed ≡ fresh n s.managed.limit s.managed.watermark }
{}
