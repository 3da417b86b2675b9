//! Calls of a shard and their replies, with the rows' data or without.

ghost use Rattle.std.specs.Prelude.{◌≡◌};
ghost use Rattle.pingora_lru.specs.Calls.{bare_call, bare_reply, item_of};

/// A call that changes a shard.
#[derive(Clone, Debug, PartialEq, Eq, Drop)]
pub enum LruCall<T> {
    /// Puts the data under the key at the front, with that weight, of 1 at least, in place of what the key had.
    Admit(u64, T, usize),
    /// Puts the data under a new key at the back, with its weight as it is. Nothing changes if the key is there.
    InsertTail(u64, T, usize),
    /// Adds to the weight of the key, up to a cap, if there is one, but never down, or puts the data under the key with that
    /// weight, of 1 at least. The key moves to the front.
    IncrementWeight(u64, T, usize, Option<usize>),
    /// As `Admit`; the reply says whether the key was there.
    UpdateOrAdmit(u64, T, usize),
    /// Sets the weight of the key, as it is, if the key is there. The order stays.
    SetWeight(u64, usize),
    /// Moves the key to the front.
    Promote(u64),
    /// Moves the key to the front if it is not among so many first.
    PromoteTopN(u64, usize),
    /// Takes the last row out.
    Evict,
    /// Takes the row of the key out.
    Remove(u64),
}

/// What a call returns.
#[derive(Clone, Debug, PartialEq, Eq, Drop)]
pub enum Reply<T> {
    /// The weight that the key had, or 0.
    Admitted(usize),
    /// Whether the row was put.
    Inserted(bool),
    /// The old weight, or 0, the new one, and whether the key was absent.
    Incremented(usize, usize, bool),
    /// The old weight, if the key was there, and the new one.
    Updated(Option<usize>, usize),
    /// The old weight, if the key was there.
    WeightSet(Option<usize>),
    /// Whether the key was there.
    Promoted(bool),
    /// The data and the weight of the row that was taken out.
    Taken(Option<(T, usize)>),
}

/// A call with its reply, as they are kept: keys and weights without data.
#[derive(Clone, Debug, PartialEq, Eq, Drop)]
pub struct Kept {
    pub call: LruCall<()>,
    pub reply: Reply<()>,
}

impl<T> LruCall<T> {
    /// Returns the call without its data.
    pub fn bare(&self) -> LruCall<()>
        ensures { result ≡ bare_call self.now }
    {
        match self {
            LruCall::Admit(key, _, weight) => LruCall::Admit(*key, (), *weight),
            LruCall::InsertTail(key, _, weight) => LruCall::InsertTail(*key, (), *weight),
            LruCall::IncrementWeight(key, _, delta, cap) => {
                LruCall::IncrementWeight(*key, (), *delta, *cap)
            }
            LruCall::UpdateOrAdmit(key, _, weight) => LruCall::UpdateOrAdmit(*key, (), *weight),
            LruCall::SetWeight(key, weight) => LruCall::SetWeight(*key, *weight),
            LruCall::Promote(key) => LruCall::Promote(*key),
            LruCall::PromoteTopN(key, top) => LruCall::PromoteTopN(*key, *top),
            LruCall::Evict => LruCall::Evict,
            LruCall::Remove(key) => LruCall::Remove(*key),
        }
    }
}

impl<T: Drop> LruCall<T> {
    // Returns the data of the call, if it has any.
    pub(crate) fn into_item(self) -> Option<T>
        ensures { result ≡ item_of self }
    {
        match self {
            LruCall::Admit(_, item, _) => Some(item),
            LruCall::InsertTail(_, item, _) => Some(item),
            LruCall::IncrementWeight(_, item, _, _) => Some(item),
            LruCall::UpdateOrAdmit(_, item, _) => Some(item),
            _ => None,
        }
    }
}

impl<T> Reply<T> {
    /// Returns the reply without its data.
    pub fn bare(&self) -> Reply<()>
        ensures { result ≡ bare_reply self.now }
    {
        match self {
            Reply::Admitted(old) => Reply::Admitted(*old),
            Reply::Inserted(added) => Reply::Inserted(*added),
            Reply::Incremented(old, new, absent) => Reply::Incremented(*old, *new, *absent),
            Reply::Updated(old, new) => Reply::Updated(*old, *new),
            Reply::WeightSet(old) => Reply::WeightSet(*old),
            Reply::Promoted(found) => Reply::Promoted(*found),
            Reply::Taken(Some(row)) => Reply::Taken(Some(((), row.1))),
            Reply::Taken(None) => Reply::Taken(None),
        }
    }
}
