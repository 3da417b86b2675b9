//! Other metas for bodies.
ghost use Rattle.std.specs.Prelude.{◌≡◌, is_some};
ghost use Rattle.cache_changes.specs.Store.{body_at};
ghost use Rattle.cache_store.specs.Renewals.{expired, IsRenewed, PrepareAnswer, UpdateAnswer};
ghost use Rattle.store_memory.specs.Kept.{weigh};

use super::MemCache;
use crate::bodies;
use crate::counted_meta::CountedMeta;
use crate::meta::{NewMeta, written_packed};
use cache_heads::CacheMeta;
use cache_store::storage::StoreFault;
use cache_words::key::HashBinary;
use cache_words::time::Moment;
use std::hash::BuildHasher;

impl<S: BuildHasher> MemCache<S> {
    // Lets the body of a key go stale at a moment, and returns whether there is one.
    pub(crate) fn expire_body(&mut self, key: &HashBinary, moment: Moment) -> bool
        ensures found { result ≡ is_some (body_at key.now self.old.store) }
        ensures renewed { IsRenewed key.now (expired moment) self.old self.new }
    {
        bodies::expire(&mut self.bodies, key, moment)
    }

    // Gives the body of a key another meta, and returns whether there is one.
    fn set_meta(&mut self, key: &HashBinary, meta: CountedMeta) -> bool
        ensures found { result ≡ is_some (body_at key.now self.old.store) }
        ensures renewed { IsRenewed key.now (λ _. meta) self.old self.new }
    {
        bodies::set_meta(&mut self.bodies, key, meta)
    }

    // Returns whether a key has a body.
    fn has_body(&self, key: &HashBinary) -> bool
        ensures { result ≡ is_some (body_at key.now self.now.store) }
    {
        bodies::has(&self.bodies, key)
    }

    // Gives the body of a key a copy of a meta.
    pub(crate) fn replace_meta(
        &mut self,
        key: &HashBinary,
        meta: &CacheMeta,
    ) -> Result<(), StoreFault>
        ensures { UpdateAnswer (body_at key.now self.old.store) key.now meta.now self.old result self.new }
    {
        if !self.has_body(key) {
            return Err(StoreFault::NoMeta);
        }
        match written_packed(self.alloc, meta) {
            Ok(packed) => {
                self.set_meta(key, packed);
                Ok(())
            }
            Err(fault) => Err(fault),
        }
    }

    // Makes a meta ready for the body of a key, and returns it with what that body weighs.
    pub(crate) fn prepare(
        &self,
        key: HashBinary,
        meta: &CacheMeta,
    ) -> Result<(NewMeta, usize), StoreFault>
        ensures { PrepareAnswer (λ n. n.key) (λ n. n.meta) weigh (body_at key self.now.store) key meta.now result }
    {
        let Some(kept) = self.kept(&key) else {
            return Err(StoreFault::NoMeta);
        };
        match written_packed(self.alloc, meta) {
            Ok(meta) => {
                let weight = kept.weight_with(&meta);
                Ok((NewMeta { key, meta }, weight))
            }
            Err(fault) => Err(fault),
        }
    }

    // Gives the body of its key the meta that was made ready, if there is a body.
    pub(crate) fn install(&mut self, new: NewMeta)
        ensures { IsRenewed new.key (λ _. new.meta) self.old self.new }
    {
        let NewMeta { key, meta } = new;
        self.set_meta(&key, meta);
    }
}
