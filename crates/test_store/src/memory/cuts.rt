//! A body in pieces of one length, with readers who read after every piece, after every third, and at the end alone.
use super::names::Names;
use super::reading::finish;
use super::rows::Target;
use crate::samples::meta;
use bytes::Bytes;
use cache_store::storage::{HandleHit, HandleMiss, MissFault, PurgeType, ReadStep, Storage};
use std::alloc::Global;
use store_memory::MemCache;
use store_memory::handlers::{MemHitHandler, MemMissHandler};

// What ends a write.
#[derive(Clone, Copy)]
pub(super) enum Ending {
    Finish,
    Leave,
    // A purge, and then a finish that is refused.
    Purge,
}

// How long each piece is, and what ends the write.
pub(super) const CUTS: &[(usize, Ending)] = &[
    (448, Ending::Finish),
    (448, Ending::Leave),
    (224, Ending::Purge),
    (112, Ending::Finish),
    (64, Ending::Leave),
    (7, Ending::Purge),
    (7, Ending::Finish),
    (1, Ending::Finish),
    (1, Ending::Leave),
    (1, Ending::Purge),
];

// 448 bytes: seven times 64, each row begun at another letter.
const TEXT: &[u8] = b"0123456789ABCDEFGHIJKLMNOPQRSTUVWXYZabcdefghijklmnopqrstuvwxyz+/\
    9ABCDEFGHIJKLMNOPQRSTUVWXYZabcdefghijklmnopqrstuvwxyz+/012345678\
    IJKLMNOPQRSTUVWXYZabcdefghijklmnopqrstuvwxyz+/0123456789ABCDEFGH\
    RSTUVWXYZabcdefghijklmnopqrstuvwxyz+/0123456789ABCDEFGHIJKLMNOPQ\
    abcdefghijklmnopqrstuvwxyz+/0123456789ABCDEFGHIJKLMNOPQRSTUVWXYZ\
    jklmnopqrstuvwxyz+/0123456789ABCDEFGHIJKLMNOPQRSTUVWXYZabcdefghi\
    stuvwxyz+/0123456789ABCDEFGHIJKLMNOPQRSTUVWXYZabcdefghijklmnopqr";

// The readers of a write, and how far the one in the middle has read.
struct Readers {
    each: Option<MemHitHandler>,
    third: Option<MemHitHandler>,
    last: Option<MemHitHandler>,
    place: usize,
}

fn reader(store: &mut MemCache, names: &Names) -> Option<MemHitHandler> {
    match store.lookup(&names.aa) {
        Ok(Some((_meta, hit))) => Some(hit),
        _ => None,
    }
}

// Whether a reader who has read up to one place reads all up to another, or nothing where it is there.
fn reads(
    store: &mut MemCache,
    reader: &mut Option<MemHitHandler>,
    from: usize,
    end: usize,
) -> bool {
    match reader.as_mut() {
        Some(hit) => match hit.read_body(store) {
            Ok(ReadStep::Bytes(bytes)) => {
                from < end && TEXT.get(from..end) == Some(bytes.as_slice())
            }
            Ok(_) => from == end,
            Err(_) => false,
        },
        None => false,
    }
}

impl Readers {
    // Whether the pieces are written, and read as they come.
    fn follow(&mut self, store: &mut MemCache, writer: &mut MemMissHandler, len: usize) -> bool {
        let mut right = true;
        let mut place = 0usize;
        let mut count = 0usize;
        for piece in TEXT.chunks(len.max(1)) {
            let end = place.saturating_add(piece.len());
            let bytes = Bytes::from_static(piece);
            right = right && writer.write_body(store, bytes, false).is_ok();
            right = right && reads(store, &mut self.each, place, end);
            count = count.saturating_add(1);
            if count % 3 == 0 {
                right = right && reads(store, &mut self.third, self.place, end);
                self.place = end;
            }
            place = end;
        }
        right
    }

    // Whether each reads what is left to it.
    fn all_end(self, store: &mut MemCache) -> bool {
        let Readers {
            mut each,
            mut third,
            mut last,
            place,
        } = self;
        let right = reads(store, &mut each, TEXT.len(), TEXT.len())
            && reads(store, &mut third, place, TEXT.len())
            && reads(store, &mut last, 0, TEXT.len());
        finish(store, each);
        finish(store, third);
        finish(store, last);
        right
    }
}

// Whether a writer finishes, or is told that its write was removed.
fn is_finished(store: &mut MemCache, writer: MemMissHandler, removed: bool) -> bool {
    match writer.finish(store) {
        Ok(_) => !removed,
        Err(MissFault::WriteRemoved) => removed,
        Err(MissFault::Memory(back)) => {
            back.leave(store);
            false
        }
    }
}

fn is_ended(names: &Names, store: &mut MemCache, writer: MemMissHandler, ending: Ending) -> bool {
    match ending {
        Ending::Finish => is_finished(store, writer, false),
        Ending::Leave => {
            writer.leave(store);
            true
        }
        Ending::Purge => {
            store.purge(names.target(Target::Key), PurgeType::Invalidation);
            is_finished(store, writer, true)
        }
    }
}

fn is_played(
    names: &Names,
    store: &mut MemCache,
    mut writer: MemMissHandler,
    len: usize,
    ending: Ending,
) -> bool {
    let mut readers = Readers {
        each: reader(store, names),
        third: reader(store, names),
        last: reader(store, names),
        place: 0,
    };
    let is_followed = readers.follow(store, &mut writer, len);
    let is_ended = is_ended(names, store, writer, ending);
    readers.all_end(store) && is_followed && is_ended
}

fn is_alike(names: &Names, len: usize, ending: Ending) -> bool {
    let mut store = MemCache::new(names.alloc);
    match store.get_miss_handler(&names.aa, &meta(names.alloc, 1300)) {
        Ok(writer) => is_played(names, &mut store, writer, len, ending),
        Err(_) => false,
    }
}

// Whether all cuts are answered alike.
pub(super) fn are_alike(alloc: Global, cuts: &[(usize, Ending)]) -> bool {
    let names = Names::new(alloc);
    for &(len, ending) in cuts {
        if !is_alike(&names, len, ending) {
            return false;
        }
    }
    true
}
