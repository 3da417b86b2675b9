//! Events, answers and faults of a tier.
ghost use Rattle.std.specs.Prelude.{◌≡◌, [], None};

use bytes::Bytes;
use cache_entries::entry::CacheEntryKey;
use cache_heads::{GivenMeta, NoCacheReason};
use cache_lock::LockStatus;
use cache_words::key::CacheKey;
use cache_words::time::Moment;
use std::alloc::Global;
use std::marker::Model;

/// What is asked of a tier, and when.
#[derive(Debug, Drop)]
pub struct Event {
    pub moment: Moment,
    pub action: Action,
}

/// What is asked of a tier. A request is named by a number that the caller chooses.
#[derive(Debug, Drop)]
pub enum Action {
    /// Opens a request for a key. `lock`: where its look-ups find nothing, or something stale, it asks for the permit to write.
    Open {
        request: u64,
        key: CacheKey,
        lock: bool,
    },
    /// Looks up what is stored for the request's key.
    LookUp {
        request: u64,
    },
    /// Asks how the wait for another's permit ended.
    Poll {
        request: u64,
    },
    /// Begins a write under the request's key, with the head of its response. `given`: what is said of it in place of the judgement by its
    /// lines; it is then kept whole.
    Begin {
        request: u64,
        head: Bytes,
        given: Option<GivenMeta>,
    },
    /// Adds bytes to the request's write; `end`: they are its last.
    Piece {
        request: u64,
        bytes: Bytes,
        end: bool,
    },
    /// Ends the request's write: its bytes are a body.
    Finish {
        request: u64,
    },
    /// Renews the meta of the body that the request's last look-up found past its moment, with the head of a response of status 304 that
    /// confirms it. `given`: the head is the whole new one, whatever its status, and this is said of it in place of the judgement; creation,
    /// provenance and what is outside stay the body's own.
    Revalidate {
        request: u64,
        head: Bytes,
        given: Option<GivenMeta>,
    },
    /// Reads on in what the last look-up found, or in what the request writes.
    Read {
        request: u64,
    },
    /// Ends the request.
    Drop {
        request: u64,
    },
    /// Removes what is stored for a key, under whatever tag.
    Purge {
        key: CacheKey,
    },
    /// Stores the body of a whole response, whose bytes come in pieces. `given`: what is said of it in place of the judgement by its lines; its
    /// body is then all that comes after the head.
    Put {
        key: CacheKey,
        pieces: Pieces,
        given: Option<GivenMeta>,
    },
}

impl Action {
    /// Begins a write whose response is judged by its head.
    pub fn begin(request: u64, head: Bytes) -> Action
        ensures { result ≡ Action.Begin request head None }
    {
        Action::Begin {
            request,
            head,
            given: None,
        }
    }

    /// Renews a meta by a head of status 304, which is judged.
    pub fn revalidate(request: u64, head: Bytes) -> Action
        ensures { result ≡ Action.Revalidate request head None }
    {
        Action::Revalidate {
            request,
            head,
            given: None,
        }
    }

    /// Stores a whole response that is judged by its head.
    pub fn put(key: CacheKey, pieces: Pieces) -> Action
        ensures { result ≡ Action.Put key pieces None }
    {
        Action::Put {
            key,
            pieces,
            given: None,
        }
    }
}

/// What a look-up got of the permit to write.
#[derive(Clone, Copy, PartialEq, Eq, Debug)]
pub enum LockGiven {
    /// Nothing: none was asked for.
    None,
    /// The permit.
    Write,
    /// A wait for another's permit.
    Read,
}

/// What a tier answers to an event.
#[derive(PartialEq, Eq, Debug, Drop)]
pub enum Answer {
    Opened,
    /// Something is stored. Fresh: its moment isn't past. Complete: all of the body is there.
    Found {
        fresh: bool,
        complete: bool,
        lock: LockGiven,
    },
    Absent {
        lock: LockGiven,
    },
    /// How the wait ended; none: it goes on.
    Waited(Option<LockStatus>),
    Begun,
    Written,
    /// The bytes that are new to the reader; none is an answer too, of an empty body.
    Bytes(Bytes),
    /// All that came was read, and more may come.
    Pending,
    /// All was read.
    End,
    Dropped,
    /// Whether something was stored.
    Purged(bool),
    /// The body's length in bytes, and the entries that went to make room, in order.
    Finished {
        length: usize,
        evicted: Entries,
    },
    /// The response is whole and may not be kept.
    Uncacheable(NoCacheReason),
    /// The body has a new meta: the entries that went to make room, in order.
    Revalidated {
        evicted: Entries,
    },
}

/// What a call did before it was refused.
#[derive(PartialEq, Eq, Debug, Drop)]
pub struct Done {
    /// The body, or its new meta, was stored; the body is removed again.
    pub stored: bool,
    /// Its entry was admitted to the order of use, or weighed anew in it, and is removed again.
    pub admitted: bool,
    /// The entries evicted, in order.
    pub evicted: Entries,
}

/// Why an event was refused.
#[derive(PartialEq, Eq, Debug, Drop)]
pub enum TierFault {
    /// No request of that number is open.
    NoRequest,
    /// A request of that number is open.
    IdInUse,
    /// The request isn't where the event is allowed.
    WrongPhase,
    /// The request waits for another's permit.
    Waiting,
    /// The write had its last piece.
    AfterEnd,
    /// The bytes are no head, or, where one is to confirm what is stored, none of status 304.
    BadHead,
    /// The write was removed while in flight.
    WriteRemoved,
    /// The event, or the moment up to which its response is fresh, lies before 1970.
    BeforeEpoch,
    /// The response ends too early.
    Incomplete,
    /// No number is left for the entry's hash.
    NumbersSpent(Done),
    /// The weights of the entry's shard can't be counted.
    TooHeavy(Done),
    /// The entry's shard is full.
    TooLong(Done),
    /// The growth of a part was refused.
    Memory(Done),
    /// The folder failed.
    Folder,
    /// The call's record was refused.
    NoRecord,
    /// What the request's last look-up found is not the body of its key: it is in flight, or was removed or replaced.
    NotStored,
}

/// The pieces of a response, in order.
#[derive(Debug, Drop)]
pub struct Pieces {
    items: Vec<Bytes>,
}

impl Model for Pieces {
    ghost use Rattle.std.specs.Prelude.{ℕ, List};

    ghost Value = { List (List ℕ) };

    ghost view = { λ p. p.items.items };
}

impl Pieces {
    /// Makes pieces of a list. It takes no memory.
    pub fn from_vec(items: Vec<Bytes>) -> Pieces
        ensures { result ≡ items.items }
    {
        Pieces { items }
    }

    /// Returns the pieces in order.
    pub fn as_slice(&self) -> &[Bytes]
        ensures { result.now ≡ self.now }
    {
        self.items.as_slice()
    }
}

/// Evicted entries, in order.
#[derive(Debug, Drop)]
pub struct Entries {
    items: Vec<CacheEntryKey>,
}

impl Model for Entries {
    ghost use Rattle.std.specs.Prelude.{List};
    ghost use Rattle.cache_entries.specs.declared.entry.CacheEntryKey.{CacheEntryKey};

    ghost Value = { List CacheEntryKey };

    ghost view = { λ e. e.items.items };
}

impl PartialEq for Entries {
    ghost use Rattle.std.specs.Cmp.Lexicographic.{pointwise, lists_equiv};
    ghost use Rattle.std.specs.Cmp.{partial_equiv_from_equiv};
    ghost use Rattle.cache_entries.specs.SameEntry.{entries_equivalence};
    ghost use Rattle.cache_entries.specs.Entry.{same_entry};

    ghost eq = { pointwise same_entry };

    ghost laws = { partial_equiv_from_equiv (lists_equiv entries_equivalence) };

    fn eq(&self, other: &Entries) -> bool {
        self.as_slice() == other.as_slice()
    }
}

impl Eq for Entries {
    ghost use Rattle.std.specs.Cmp.Lexicographic.{lists_equiv};
    ghost use Rattle.cache_entries.specs.SameEntry.{entries_equivalence};

    ghost laws = { lists_equiv entries_equivalence };
}

impl Entries {
    /// Makes an empty list. It takes no memory.
    pub fn new(alloc: Global) -> Entries
        ensures { result ≡ [] }
    {
        Entries {
            items: Vec::new(alloc),
        }
    }

    /// Makes a list of entries. It takes no memory.
    pub fn from_vec(items: Vec<CacheEntryKey>) -> Entries
        ensures { result ≡ items.items }
    {
        Entries { items }
    }

    /// Returns the entries in order.
    pub fn as_slice(&self) -> &[CacheEntryKey]
        ensures { result.now ≡ self.now }
    {
        &self.items
    }
}
