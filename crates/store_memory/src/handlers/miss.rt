//! Writers.
ghost use Rattle.std.specs.Prelude.{◌≡◌, Some, None};
ghost use Rattle.std.specs.Int.{w64, to_be_bytes};
ghost use Rattle.cache_store.specs.declared.storage.MissFinishType.TheVariants.{Created};
ghost use Rattle.store_memory.specs.Kept.{weigh};

use crate::MemCache;
use bytes::Bytes;
use cache_entries::entry::CacheEntryId;
use cache_store::storage::streaming_write::U64WriteId;
use cache_store::storage::{HandleMiss, MissFault, MissFinishType, StoreFault};
use std::hash::BuildHasher;
use std::marker::Model;

/// The writer of a body. It is spent by `finish` or `leave`.
pub struct MemMissHandler {
    number: u64,
    tag: U64WriteId,
}

impl Model for MemMissHandler {
    ghost use Rattle.std.specs.Prelude.{◌≡◌, ◌<◌, ◌^◌, ℕ};
    ghost use Rattle.std.specs.Int.{w64, to_be_bytes};
    ghost use Rattle.cache_store.specs.WriteTag.{bytes_of};

    ghost Value = { ℕ };

    ghost view = { λ h. h.number };

    ghost invariant = { λ h. (bytes_of h.tag ≡ to_be_bytes w64 h.number) × (h.number < 2 ^ 64) };
}

impl MemMissHandler {
    // Returns the writer of that write.
    pub(crate) fn new(number: u64) -> MemMissHandler
        ensures { result ≡ number }
    {
        MemMissHandler {
            number,
            tag: U64WriteId::from(number),
        }
    }

    /// Returns the number of its write.
    pub fn number(&self) -> u64
        ensures { result ≡ self.now }
    {
        self.number
    }

    // Spends the writer, and returns the number of its write.
    fn spend(self) -> u64
        ensures { result ≡ self }
    {
        let MemMissHandler { number, tag: _tag } = self;
        number
    }
}

impl<S: BuildHasher> HandleMiss<MemCache<S>> for MemMissHandler {
    ghost number = { λ h. h };

    ghost tag = { λ h. Some (to_be_bytes w64 h) };

    ghost id = { λ _. None };

    ghost told = { λ x. Created (weigh x) };

    /// The bytes are kept as they came, with the whole buffer that they share, while the write is in flight; but a later piece of
    /// fewer than 64 bytes is copied. A finished body takes no more than its length.
    fn write_body(
        &mut self,
        store: &mut MemCache<S>,
        more: Bytes,
        eof: bool,
    ) -> Result<(), StoreFault> {
        store.append(self.number, more, eof)
    }

    fn finish(self, store: &mut MemCache<S>) -> Result<MissFinishType, MissFault<MemMissHandler>> {
        let number = self.spend();
        match store.finish(number) {
            Ok(weight) => Ok(MissFinishType::Created(weight)),
            Err(StoreFault::WriteRemoved) => Err(MissFault::WriteRemoved),
            Err(_) => Err(MissFault::Memory(MemMissHandler::new(number))),
        }
    }

    fn len(&self, store: &MemCache<S>) -> usize {
        store.written(self.number)
    }

    fn is_removed(&self, store: &MemCache<S>) -> bool {
        store.key_of(self.number).is_none()
    }

    fn leave(self, store: &mut MemCache<S>) {
        store.leave(self.spend());
    }

    fn streaming_write_tag(&self) -> Option<&[u8]> {
        Some(self.tag.as_bytes())
    }

    fn entry_id(&self) -> Option<CacheEntryId> {
        None
    }
}
