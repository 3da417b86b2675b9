//! What reads and what writes its body.
ghost use Rattle.std.specs.Prelude.{Some, None, false, true, length};
ghost use Rattle.cache_store.specs.declared.storage.MissFinishType.TheVariants.{Appended};
ghost use Rattle.test_requests.specs.OneBody.{id_for, reader_in};

use super::{OneBody, OneHit, OneMiss};
use bytes::Bytes;
use cache_entries::entry::CacheEntryId;
use cache_store::storage::{
    HandleHit, HandleMiss, MissFault, MissFinishType, ReadStep, StoreFault,
};

impl HandleHit<OneBody> for OneHit {
    ghost reader = { reader_in };

    ghost unread = { λ _. false };

    ghost counts = { λ _. true };

    ghost weight = { λ h. length h.body.items };

    ghost id = { λ h. Some (id_for h.number) };

    ghost seekable = { λ _. false };

    ghost head = { λ _. None };

    fn read_body(&mut self, store: &mut OneBody) -> Result<ReadStep, StoreFault> {
        if self.rest.is_empty() {
            return Ok(ReadStep::End);
        }
        match Bytes::copy_from_slice(store.alloc, &self.rest) {
            Ok(bytes) => {
                self.rest.clear();
                Ok(ReadStep::Bytes(bytes))
            }
            Err(_) => Err(StoreFault::Memory),
        }
    }

    fn finish(self, _store: &mut OneBody) {}

    fn can_seek(&self) -> bool {
        false
    }

    fn seek(&mut self, _start: usize, _end: Option<usize>) -> Result<(), StoreFault> {
        Err(StoreFault::SeekRange)
    }

    fn should_count_access(&self) -> bool {
        true
    }

    fn get_eviction_weight(&self) -> usize {
        self.body.len()
    }

    fn entry_id(&self) -> Option<CacheEntryId> {
        Some(CacheEntryId::new(self.number))
    }
}

impl HandleMiss<OneBody> for OneMiss {
    ghost number = { λ m. m.number };

    ghost tag = { λ _. None };

    ghost id = { λ m. Some (id_for m.number) };

    ghost told = { λ x. Appended (length x.bytes) (Some 8) };

    fn write_body(
        &mut self,
        store: &mut OneBody,
        more: Bytes,
        eof: bool,
    ) -> Result<(), StoreFault> {
        store.add(self.number, &more, eof)
    }

    fn finish(self, store: &mut OneBody) -> Result<MissFinishType, MissFault<OneMiss>> {
        if !store.is_alive(self.number) {
            store.give_up(self.number);
            return Err(MissFault::WriteRemoved);
        }
        match store.land(self.number) {
            Some(size) => Ok(MissFinishType::Appended(size, Some(8))),
            None => Err(MissFault::Memory(self)),
        }
    }

    fn len(&self, store: &OneBody) -> usize {
        store.written(self.number)
    }

    fn is_removed(&self, store: &OneBody) -> bool {
        !store.is_alive(self.number)
    }

    fn leave(self, store: &mut OneBody) {
        store.give_up(self.number)
    }

    fn streaming_write_tag(&self) -> Option<&[u8]> {
        None
    }

    fn entry_id(&self) -> Option<CacheEntryId> {
        Some(CacheEntryId::new(self.number))
    }
}
