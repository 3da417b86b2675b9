//! Bodies that are there as a whole.
ghost use Rattle.std.specs.Prelude.{◌≡◌, false, IfOk, IfErr, OnOk, OnErr, MatchResult};
ghost use Rattle.head_metas.specs.Internal.{IsWritable};
ghost use Rattle.cache_store.specs.declared.storage.StoreFault.{StoreFault as Fault};
ghost use Rattle.cache_store.specs.Wholes.{Stores, IsWriteFault};
ghost use Rattle.store_memory.specs.Kept.{weight_with};
ghost use Rattle.store_memory.specs.Misses.{are_numbers_spent};

use super::MemCache;
use crate::flight::{Body, Kept};
use crate::meta::written_packed;
use crate::{bodies, readers};
use bytes::Bytes;
use cache_heads::CacheMeta;
use cache_store::storage::StoreFault;
use cache_words::key::HashBinary;
use std::alloc::{AllocError, Global};
use std::hash::BuildHasher;

// Returns the bytes in a buffer of their own that is no longer than they are: the one that they came in where nobody shares it, and
// else a copy.
fn owned(alloc: Global, body: Bytes) -> Result<Bytes, AllocError>
    ensures { IfOk result (λ bytes. bytes ≡ body) }
{
    let whole = match body.try_into_mut() {
        Ok(whole) => whole,
        Err(shared) => return Bytes::copy_from_slice(alloc, shared.as_slice()),
    };
    let Ok(mut whole) = whole.into_vec() else {
        return Err(AllocError);
    };
    whole.shrink_to_fit();
    match Bytes::from_vec(whole) {
        Ok(bytes) => Ok(bytes),
        Err(_) => Err(AllocError),
    }
}

impl<S: BuildHasher> MemCache<S> {
    // Stores a body, in a buffer of its own, under the next number, and returns what it weighs.
    pub(crate) fn put_whole(
        &mut self,
        key: HashBinary,
        meta: &CacheMeta,
        body: Bytes,
    ) -> Result<usize, StoreFault>
        ensures weight { IfOk result (λ weight. weight ≡ weight_with meta.now body) }
        ensures stored { let spent = are_numbers_spent self.old in
            MatchResult result (λ _. Stores spent key meta.now body self.old self.new) (λ fault. IsWriteFault spent meta.now fault self.old self.new) }
    {
        let number = self.next;
        if number == u64::MAX {
            return Err(StoreFault::WriteNumbersSpent);
        }
        let meta = match written_packed(self.alloc, meta) {
            Ok(meta) => meta,
            Err(fault) => return Err(fault),
        };
        let Ok(bytes) = owned(self.alloc, body) else {
            return Err(StoreFault::Memory);
        };
        self.put_body(
            key,
            Body {
                number,
                meta,
                bytes,
            },
        )
    }

    // Stores a body under the next number, and returns what it weighs.
    fn put_body(&mut self, key: HashBinary, body: Body) -> Result<usize, StoreFault>
        requires number { body.number ≡ self.old.next }
        requires left { are_numbers_spent self.old ≡ false }
        requires written { IsWritable body.meta.internal }
        ensures weight { IfOk result (λ weight. weight ≡ weight_with body.meta body.bytes) }
        ensures ok { OnOk result (Stores false key body.meta body.bytes self.old self.new) }
        ensures err { OnErr result (self.new ≡ self.old) }
        ensures fault { IfErr result (λ f. f ≡ Fault.Memory) }
    {
        let number = body.number;
        let Ok(share) = readers::share_for(&self.readers, number, &body.bytes) else {
            return Err(StoreFault::Memory);
        };
        let Ok(kept) = Kept::new(self.alloc, body) else {
            return Err(StoreFault::Memory);
        };
        let weight = kept.weight();
        let Ok(()) = bodies::make_room(&mut self.bodies) else {
            return Err(StoreFault::Memory);
        };
        self.next = number + 1;
        readers::leave_share(&mut self.readers, number, share);
        bodies::put(&mut self.bodies, key, kept);
        Ok(weight)
    }
}
