//! What a look-up of one of the requests finds.
ghost use Rattle.std.specs.Prelude.{◌≡◌, None, option_map};
ghost use Rattle.std.specs.FinMap as finite;
ghost use Rattle.store_memory.specs.Shown.{meta_shown};
ghost use Rattle.tier_model.specs.After.{by_request};
ghost use Rattle.tier_requests.specs.Shelves.{shelf_of};
ghost use Rattle.tier_requests.specs.Shown.{meta_for_look};

use super::Requests;
use std::hash::BuildHasher;
use store_memory::{MemCache, ShownMeta};

impl<S: BuildHasher> Requests<S> {
    /// Lends the meta of what a look-up of the request of that number finds, if it is open and may look up. No memory is taken.
    pub fn shown<'a>(&self, id: u64, store: &'a MemCache<S>) -> Option<ShownMeta<'a>>
        ensures { option_map meta_shown result ≡ by_request None (finite.get self.now id) (λ q. meta_for_look q (shelf_of store.now)) }
    {
        match self.table.get(&id) {
            Some(kept) => kept.request().shown(store),
            None => None,
        }
    }
}
