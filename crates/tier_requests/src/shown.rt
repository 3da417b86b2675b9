//! The head of what a request's look-up finds.
ghost use Rattle.std.specs.Prelude.{◌≡◌, option_map};
ghost use Rattle.store_memory.specs.Shown.{meta_shown};
ghost use Rattle.tier_requests.specs.Shelves.{shelf_of};
ghost use Rattle.tier_requests.specs.Shown.{meta_for_look};

use crate::request::Request;
use cache_words::key::CacheHashKey;
use std::hash::BuildHasher;
use store_memory::{MemCache, ShownMeta};

impl<S: BuildHasher> Request<S> {
    // Lends the meta of what a look-up of the request finds, if it may look up.
    pub(crate) fn shown<'a>(&self, store: &'a MemCache<S>) -> Option<ShownMeta<'a>>
        ensures { option_map meta_shown result ≡ meta_for_look self.now (shelf_of store.now) }
    {
        if let Some(_fault) = self.look_refusal() {
            return None;
        }
        store.shown_meta(&self.cache.cache_key().combined_bin())
    }
}
