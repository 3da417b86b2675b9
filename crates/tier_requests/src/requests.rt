//! The open requests.
ghost use Rattle.std.specs.Prelude.{◌≡◌, ◌↔◌, None, IsTrue, is_some, option_map, OnOk, IfErr};
ghost use Rattle.std.specs.FinMap as finite;
ghost use Rattle.tier_model.specs.Checks.{can_begin};
ghost use Rattle.tier_requests.specs.Shelves.{shelf_of};
ghost use Rattle.tier_requests.specs.Ends.{EndsAll};

use crate::request::TierParts;
use open_request::OpenRequest;
use std::alloc::{AllocFailed, Global};
use std::collections::HashMap;
use std::hash::BuildHasher;
use std::marker::Model;

mod asks;
mod events;
pub mod open_request;
mod revalidations;
mod shown;
mod whole;

/// The open requests by their numbers: a finite map. Numbers are found by their hashes, from a start of the caller's. It can't be
/// dropped: `end_all` ends the requests.
pub struct Requests<S: BuildHasher> {
    pub(crate) table: HashMap<u64, OpenRequest<S>, S>,
}

impl<S: BuildHasher> Model for Requests<S> {
    ghost use Rattle.std.specs.FinMap as finite;
    ghost use Rattle.std.specs.Ordering.{nat_cmp};
    ghost use Rattle.tier_model.specs.State.{Request as Plain};
    ghost use Rattle.tier_requests.specs.Codes.{requests_code};

    ghost Value = { finite.FinMap nat_cmp Plain };

    ghost coded = { requests_code };

    ghost view = { λ r. finite.from_entries r.table.entries };
}

impl<S: BuildHasher> Requests<S> {
    /// Makes an empty map, with hashes of that start. It takes no memory.
    pub fn with_hasher(alloc: Global, hasher: S) -> Requests<S>
        ensures { result ≡ finite.empty }
    {
        Requests {
            table: HashMap::with_hasher(alloc, hasher),
        }
    }

    /// Returns whether no request is open.
    pub fn is_empty(&self) -> bool
        ensures { IsTrue result ↔ (finite.len self.now ≡ 0) }
    {
        self.table.is_empty()
    }

    /// Returns whether a request of that number is open.
    pub fn contains(&self, id: u64) -> bool
        ensures { result ≡ is_some (finite.get self.now id) }
    {
        self.table.contains_key(&id)
    }

    /// Returns whether the request of that number may begin a write, if it is open.
    pub fn can_begin(&self, id: u64) -> Option<bool>
        ensures { result ≡ option_map (λ q. can_begin q.phase q.gave_read) (finite.get self.now id) }
    {
        match self.table.get(&id) {
            Some(kept) => Some(kept.request().can_begin()),
            None => None,
        }
    }

    /// Makes this the open request of that number, where none is open.
    ///
    /// # Errors
    ///
    /// The request, when out of memory: nothing has changed.
    #[inline(always)]
    pub fn insert(&mut self, id: u64, request: OpenRequest<S>) -> Result<(), OpenRequest<S>>
        requires { finite.get self.old id ≡ None }
        ensures ok { OnOk result (self.new ≡ finite.insert self.old id request) }
        ensures err { IfErr result (λ back. (back ≡ request) × (self.new ≡ self.old)) }
    {
        match self.table.insert(id, request) {
            Ok(earlier) => match earlier {
                None => Ok(()),
                Some(_) => unreachable!(),
            },
            Err(failed) => {
                let AllocFailed { value } = failed;
                let (_, back) = value;
                Err(back)
            }
        }
    }

    /// Takes the request of that number out, if it is open.
    #[inline(always)]
    pub fn remove(&mut self, id: u64) -> Option<OpenRequest<S>>
        ensures request { result ≡ finite.get self.old id }
        ensures left { self.new ≡ finite.remove self.old id }
    {
        self.table.remove(&id)
    }

    /// Ends all requests.
    pub fn end_all<E>(self, parts: &mut TierParts<S, E>)
    where
        S: Drop,
        ensures ends { EndsAll self (shelf_of parts.old.store) parts.old.lock (shelf_of parts.new.store) parts.new.lock }
        ensures parts { parts.new ≡ record parts.old { store = parts.new.store; lock = parts.new.lock } }
    {
        let Requests { mut table } = self;
        while let Some(&id) = table.keys().next() {
            match table.remove(&id) {
                Some(request) => request.end(parts),
                None => unreachable!(),
            }
        }
        table.destroy_empty();
    }
}
