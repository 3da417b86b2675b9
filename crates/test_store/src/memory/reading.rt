//! What readers of the store read, and how they answer.
use super::bench::{Bench, is_so};
use super::names::Names;
use cache_heads::CacheMeta;
use cache_store::storage::{HandleHit, ReadStep, Storage, StoreFault};
use cache_words::key::CacheKey;
use cache_words::time::Moment;
use store_memory::MemCache;
use store_memory::handlers::MemHitHandler;

// What a look-up must find.
#[derive(Clone, Copy)]
pub(super) enum Want {
    Nothing,
    // A reader, which is kept as the later one or the earlier one, of a finished body or of a write.
    Reader(bool, bool),
    // A body that is stale.
    Stale,
}

pub(super) fn finish(store: &mut MemCache, reader: Option<MemHitHandler>) {
    if let Some(reader) = reader {
        reader.finish(store);
    }
}

// Whether the handler answers as one of a finished body does, or as one of a write.
fn answers_alike(handler: &MemHitHandler, complete: bool) -> bool {
    matches!(handler, MemHitHandler::Complete(_)) == complete
        && handler.can_seek() == complete
        && <MemHitHandler as HandleHit<MemCache>>::can_seek(handler) == complete
        && <MemHitHandler as HandleHit<MemCache>>::can_seek_multipart(handler) == complete
        && <MemHitHandler as HandleHit<MemCache>>::should_count_access(handler) == complete
        && <MemHitHandler as HandleHit<MemCache>>::entry_id(handler).is_none()
}

// Whether a meta is stale from 1001 on, and may then be served on errors.
fn goes_stale(meta: &CacheMeta) -> bool {
    let next = Moment::from_seconds(1001);
    meta.is_fresh(Moment::from_seconds(1000))
        && !meta.is_fresh(next)
        && meta.serve_stale_if_error(next)
}

// Whether a reader read these bytes; with none, whether it must wait or has read all.
fn is_read(step: Result<ReadStep, StoreFault>, bytes: Option<&[u8]>, waits: bool) -> bool {
    match step {
        Ok(ReadStep::Bytes(found)) => bytes == Some(found.as_slice()),
        Ok(ReadStep::Pending) => bytes.is_none() && waits,
        Ok(ReadStep::End) => bytes.is_none() && !waits,
        Err(_) => false,
    }
}

impl Bench {
    pub(super) fn look(&mut self, names: &Names, want: Want) -> bool {
        match self.store.lookup(&names.aa) {
            Ok(Some((meta, reader))) => self.sees(&meta, reader, want),
            Ok(None) => matches!(want, Want::Nothing),
            Err(_) => false,
        }
    }

    // Keeps a reader that is wanted, and finishes the one before.
    fn sees(&mut self, meta: &CacheMeta, reader: MemHitHandler, want: Want) -> bool {
        let is_right = match want {
            Want::Reader(_, complete) => answers_alike(&reader, complete),
            Want::Stale => goes_stale(meta),
            Want::Nothing => false,
        };
        let before = match want {
            Want::Reader(true, _) => self.late.replace(reader),
            Want::Reader(false, _) => self.early.replace(reader),
            Want::Stale | Want::Nothing => Some(reader),
        };
        finish(&mut self.store, before);
        is_right
    }

    // Looks a key up by a tag, and reads these bytes if any.
    pub(super) fn asks(&mut self, key: &CacheKey, tag: Option<&[u8]>, want: Option<&[u8]>) -> bool {
        match self.store.lookup_streaming_write(key, tag) {
            Ok(Some((_meta, mut reader))) => {
                let step = reader.read_body(&mut self.store);
                reader.finish(&mut self.store);
                want.is_some() && is_read(step, want, false)
            }
            Ok(None) => tag.is_none() && want.is_none(),
            Err(fault) => fault == StoreFault::WriteRemoved && want.is_none(),
        }
    }

    // The later reader is read as any store's, the earlier one by its own calls.
    fn read(&mut self, late: bool) -> Result<ReadStep, StoreFault> {
        if late {
            match self.late.as_mut() {
                Some(reader) => reader.read_body(&mut self.store),
                None => Err(StoreFault::Memory),
            }
        } else {
            match self.early.as_mut() {
                Some(MemHitHandler::Complete(hit)) => hit.read(),
                Some(MemHitHandler::Partial(hit)) => hit.read(&self.store),
                None => Err(StoreFault::Memory),
            }
        }
    }

    pub(super) fn reads(&mut self, late: bool, bytes: Option<&[u8]>, waits: bool) -> bool {
        is_read(self.read(late), bytes, waits)
    }

    // Whether the reader of a write is told that about whether all of it came.
    pub(super) fn is_told(&self, late: bool, want: Option<bool>) -> bool {
        let reader = if late { &self.late } else { &self.early };
        match reader {
            Some(MemHitHandler::Partial(hit)) => {
                self.store.whole_past(hit.number(), hit.place()) == want
            }
            _ => false,
        }
    }

    pub(super) fn weighs(&self, late: bool, len: usize, weight: usize) -> bool {
        let reader = if late { &self.late } else { &self.early };
        match reader {
            Some(reader) => {
                let found = match reader {
                    MemHitHandler::Complete(hit) => hit.len(),
                    MemHitHandler::Partial(_) => 0,
                };
                let weighed = <MemHitHandler as HandleHit<MemCache>>::get_eviction_weight(reader);
                found == len && weighed == weight
            }
            None => false,
        }
    }

    // Sets what the earlier reader reads next, as a range or as one of several.
    pub(super) fn seek(
        &mut self,
        is_part: bool,
        start: usize,
        end: Option<usize>,
        fault: Option<StoreFault>,
    ) -> bool {
        match self.early.as_mut() {
            Some(early) => {
                let done = if is_part {
                    <MemHitHandler as HandleHit<MemCache>>::seek_multipart(early, start, end)
                } else {
                    early.seek(start, end)
                };
                is_so(done, fault)
            }
            None => false,
        }
    }
}
