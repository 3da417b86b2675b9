//! Whether all came of what a request reads.
ghost use Rattle.std.specs.Prelude.{◌≡◌, true, Some, None, is_some, length, option_map, if◌then◌else◌};
ghost use Rattle.tier_model.specs.Answers.{whole_read};
ghost use Rattle.tier_model.specs.Sizes.{unread_len};
ghost use Rattle.tier_requests.specs.Shelves.{shelf_of};

use crate::request::{Request, TierParts};
use bytes::Bytes;
use std::hash::BuildHasher;
use store_memory::handlers::MemHitHandler;

// Of a body whose reader is left: it came whole, but it has to be read first.
fn whole_once_read(unread: &Option<Bytes>) -> Option<bool>
    ensures { result ≡ (if is_some unread.now then None else Some true) }
{
    match unread {
        Some(_) => None,
        None => Some(true),
    }
}

// Where no reader is left: a body was read, or there is nothing to read.
fn whole_without(unread: &Option<Bytes>) -> Option<bool>
    ensures { result ≡ (if is_some unread.now then Some true else None) }
{
    match unread {
        Some(_) => Some(true),
        None => None,
    }
}

fn len_of(bytes: &Option<Bytes>) -> Option<usize>
    ensures { result ≡ option_map (λ b. length b) bytes.now }
{
    match bytes {
        Some(bytes) => Some(bytes.len()),
        None => None,
    }
}

impl<S: BuildHasher> Request<S> {
    /// Returns how many bytes a whole body has that the request found and hasn't read. No memory is taken.
    pub fn unread_len(&self) -> Option<usize>
        ensures { result ≡ unread_len self.now.reader }
    {
        let Some(hit) = self.cache.reader() else {
            return None;
        };
        match hit {
            MemHitHandler::Complete(_read) => len_of(&self.unread),
            MemHitHandler::Partial(_stream) => None,
        }
    }

    /// Returns whether all of a body came, where the request read it to its end: `Some(true)` of a finished body, and of a write that had its
    /// last piece or was finished; `Some(false)` of a write that was given up before. `None` where it reads nothing, or more is there or may
    /// come. It changes nothing, and no memory is taken.
    pub fn is_whole<E>(&self, parts: &TierParts<S, E>) -> Option<bool>
        ensures { result ≡ whole_read self.now.reader (shelf_of parts.now.store) }
    {
        let Some(hit) = self.cache.reader() else {
            return whole_without(&self.unread);
        };
        match hit {
            MemHitHandler::Complete(_read) => whole_once_read(&self.unread),
            MemHitHandler::Partial(stream) => {
                parts.store.whole_past(stream.number(), stream.place())
            }
        }
    }
}
