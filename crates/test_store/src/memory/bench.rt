//! A store with writers and readers, and what is done with them.
use super::names::Names;
use super::reading::{Want, finish};
use super::rows::{Step, Target};
use crate::samples::{known, meta};
use bytes::Bytes;
use cache_store::storage::{
    HandleMiss, MissFault, MissFinishType, PurgeOutcome, PurgeType, Storage, StoreFault,
};
use cache_words::key::CacheHashKey;
use cache_words::time::Moment;
use std::alloc::Global;
use std::hash::BuildHasherDefault;
use store_memory::handlers::{MemHitHandler, MemMissHandler};
use store_memory::{MemCache, ShownMeta};

pub(super) struct Bench {
    pub(super) store: MemCache,
    writer: Option<MemMissHandler>,
    // The writer before.
    aside: Option<MemMissHandler>,
    pub(super) early: Option<MemHitHandler>,
    pub(super) late: Option<MemHitHandler>,
}

fn leave(store: &mut MemCache, writer: Option<MemMissHandler>) {
    if let Some(writer) = writer {
        writer.leave(store);
    }
}

// Whether a call is refused so, or done where no fault is named.
pub(super) fn is_so(done: Result<(), StoreFault>, fault: Option<StoreFault>) -> bool {
    match done {
        Ok(()) => fault.is_none(),
        Err(found) => fault == Some(found),
    }
}

impl Bench {
    fn new(alloc: Global) -> Bench {
        Bench {
            store: MemCache::with_hasher(alloc, BuildHasherDefault::new()),
            writer: None,
            aside: None,
            early: None,
            late: None,
        }
    }

    // Another store takes the place of this one.
    fn move_on(&mut self, alloc: Global) -> bool {
        self.store = MemCache::new(alloc);
        true
    }

    // Keeps a writer, and the one before aside.
    fn keep(&mut self, writer: MemMissHandler) {
        if let Some(before) = self.writer.replace(writer) {
            leave(&mut self.store, self.aside.replace(before));
        }
    }

    // Begins a write of a meta that is fresh until that second, or that can't be written.
    fn begin(&mut self, names: &Names, until: i64, fault: Option<StoreFault>) -> bool {
        let meta = meta(names.alloc, until);
        match self.store.get_miss_handler(&names.aa, &meta) {
            Ok(writer) => {
                self.keep(writer);
                fault.is_none() && self.store.support_streaming_partial_write()
            }
            Err(found) => fault == Some(found),
        }
    }

    // Begins a write of a meta that is handed over.
    fn begin_owned(&mut self, alloc: Global, primary: &[u8]) -> bool {
        let key = known(alloc, primary);
        match self.store.get_miss_handler_owned(&key, meta(alloc, 1300)) {
            Ok(writer) => {
                self.keep(writer);
                true
            }
            Err(_) => false,
        }
    }

    fn piece(&mut self, piece: &'static [u8], eof: bool, fault: Option<StoreFault>) -> bool {
        match self.writer.as_mut() {
            Some(writer) => {
                let bytes = Bytes::from_static(piece);
                is_so(writer.write_body(&mut self.store, bytes, eof), fault)
            }
            None => false,
        }
    }

    // Whether a writer has this length and reports this weight as it finishes, or that it was removed.
    fn finish(&mut self, size: Option<(usize, usize)>) -> bool {
        let Some(writer) = self.writer.take() else {
            return false;
        };
        let len = writer.len(&self.store);
        match writer.finish(&mut self.store) {
            Ok(MissFinishType::Created(weight)) => size == Some((len, weight)),
            Ok(_) => false,
            Err(MissFault::WriteRemoved) => size.is_none(),
            Err(MissFault::Memory(writer)) => {
                writer.leave(&mut self.store);
                false
            }
        }
    }

    fn leave(&mut self) -> bool {
        let is_there = self.writer.is_some();
        leave(&mut self.store, self.writer.take());
        is_there
    }

    // Whether the writer lends this tag.
    fn lends(&self, tag: &[u8]) -> bool {
        match &self.writer {
            Some(writer) => {
                <MemMissHandler as HandleMiss<MemCache>>::streaming_write_tag(writer) == Some(tag)
            }
            None => false,
        }
    }

    fn purge(&mut self, names: &Names, target: Target, outcome: PurgeOutcome) -> bool {
        let cause = match target {
            Target::Key => PurgeType::Invalidation,
            Target::Entry | Target::Id => PurgeType::Eviction,
        };
        self.store.purge(names.target(target), cause) == outcome
    }

    // Lets the body go stale at a second.
    fn expire(&mut self, names: &Names, target: Target, at: i64, outcome: PurgeOutcome) -> bool {
        match self
            .store
            .expire(names.target(target), Moment::from_seconds(at))
        {
            Ok(found) => found == outcome,
            Err(_) => false,
        }
    }

    // Gives the body another meta, once that is ready, and with it the weight that the body then has.
    fn update(&mut self, names: &Names, until: i64, want: Result<usize, StoreFault>) -> bool {
        let meta = meta(names.alloc, until);
        match self.store.prepare_meta(&names.aa, &meta) {
            Ok((new, weight)) => {
                self.store.install_meta(new);
                want == Ok(weight)
            }
            Err(fault) => want == Err(fault),
        }
    }

    // Whether there are so many finished bodies with so many bytes in them and their metas, and this one of the key, of a meta that is fresh
    // until 1300.
    fn counts(
        &self,
        names: &Names,
        len: usize,
        (bytes, metas): (u64, u64),
        body: Option<&[u8]>,
    ) -> bool {
        let is_right = match self.store.finished(&names.aa.combined_bin()) {
            Some((meta, found)) => {
                meta.fresh_until() == Moment::from_seconds(1300) && body == Some(found.as_slice())
            }
            None => body.is_none(),
        };
        let key = names.aa.combined_bin();
        let is_shown = match self.store.shown_meta(&key) {
            Some(ShownMeta::Finished(_)) => body.is_some(),
            Some(ShownMeta::InFlight(_)) => true,
            None => body.is_none(),
        };
        is_right
            && is_shown
            && self.store.body_number(&key).is_some() == body.is_some()
            && self.store.finished_len() == len
            && self.store.finished_bytes() == bytes
            && self.store.finished_meta() == metas
    }

    // Whether a step comes out as said.
    fn step(&mut self, names: &Names, step: Step) -> bool {
        match step {
            Step::Begin(until) => self.begin(names, until, None),
            Step::Unwritable => self.begin(names, -1, Some(StoreFault::MetaMoment)),
            Step::BeginOwned(primary) => self.begin_owned(names.alloc, primary),
            Step::Piece(piece, eof, fault) => self.piece(piece, eof, fault),
            Step::Finish(size) => self.finish(size),
            Step::Leave => self.leave(),
            Step::Lends(tag) => self.lends(tag),
            Step::Look(late, complete) => self.look(names, Want::Reader(late, complete)),
            Step::Misses => self.look(names, Want::Nothing),
            Step::Stale => self.look(names, Want::Stale),
            Step::Asks(primary, tag, want) => { self.asks(&known(names.alloc, primary), tag, want) }
            Step::Bytes(late, want) => self.reads(late, Some(want), false),
            Step::Pending(late) => self.reads(late, None, true),
            Step::End(late) => self.reads(late, None, false),
            Step::Told(late, want) => self.is_told(late, want),
            Step::Seek(start, end, fault) => self.seek(false, start, end, fault),
            Step::SeekPart(start, end, fault) => self.seek(true, start, end, fault),
            Step::Weighs(late, len, weight) => self.weighs(late, len, weight),
            Step::Purge(target, outcome) => self.purge(names, target, outcome),
            Step::Expire(target, at, outcome) => self.expire(names, target, at, outcome),
            Step::Update(until, want) => self.update(names, until, want),
            Step::Counts(len, bytes, metas, body) => self.counts(names, len, (bytes, metas), body),
            Step::MoveOn => self.move_on(names.alloc),
        }
    }

    fn all_do(&mut self, names: &Names, steps: &[Step]) -> bool {
        for &step in steps {
            if !self.step(names, step) {
                return false;
            }
        }
        true
    }

    // Ends the writers and the readers.
    fn end(self) {
        let Bench {
            mut store,
            writer,
            aside,
            early,
            late,
        } = self;
        leave(&mut store, writer);
        leave(&mut store, aside);
        finish(&mut store, early);
        finish(&mut store, late);
    }
}

// Whether all steps come out as said.
pub(super) fn run(alloc: Global, steps: &[Step]) -> bool {
    let names = Names::new(alloc);
    let mut bench = Bench::new(alloc);
    let done = bench.all_do(&names, steps);
    bench.end();
    done
}
