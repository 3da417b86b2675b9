//! An open request.
ghost use Rattle.std.specs.Prelude.{◌≡◌, false, IfOk};
ghost use Rattle.cache_lock.specs.State.{after_all};
ghost use Rattle.tier_model.specs.Keys.{entry_of};
ghost use Rattle.tier_model.specs.State.{closed};
ghost use Rattle.tier_model.specs.After.{opened_request, leave_of, turned, on_write};
ghost use Rattle.tier_model.specs.Shelf.{landed};
ghost use Rattle.tier_requests.specs.Shelves.{shelf_of};

use crate::keys::kept_key;
use crate::request::{Request, TierParts, opened_request};
use cache_words::key::CacheKey;
use cache_words::time::Duration;
use std::alloc::{AllocError, AllocFailed, Global};
use std::hash::BuildHasher;
use std::marker::Model;

/// An open request. What it holds lies apart, so that it is short to move. It can't be dropped: `end` gives back what it holds.
pub struct OpenRequest<S: BuildHasher> {
    // Its events change it in its place: no function lends it for that, since a `&mut` to what holds a `&'static str` can't be returned.
    pub(super) request: Box<Request<S>>,
}

impl<S: BuildHasher> Model for OpenRequest<S> {
    ghost use Rattle.tier_model.specs.State.{Request as Plain};
    ghost use Rattle.tier_requests.specs.Codes.{request_code};

    ghost Value = { Plain };

    ghost coded = { request_code };

    ghost view = { λ r. r.request.value };
}

impl<S: BuildHasher> OpenRequest<S> {
    /// Opens a request for a key.
    ///
    /// # Errors
    ///
    /// Out of memory.
    // A call of its own: the other events need no room for what is made here.
    #[inline(never)]
    pub fn open<E>(
        alloc: Global,
        parts: &mut TierParts<S, E>,
        key: &CacheKey,
        asks: bool,
        wait: Option<Duration>,
    ) -> Result<OpenRequest<S>, AllocError>
        ensures request { IfOk result (λ q. q ≡ opened_request wait (entry_of key.now) asks) }
        ensures shelf { shelf_of parts.new.store ≡ shelf_of parts.old.store }
        ensures lock { parts.new.lock ≡ parts.old.lock }
        ensures parts { parts.new ≡ record parts.old { store = parts.new.store; lock = parts.new.lock } }
    {
        let kept = kept_key(alloc, key)?;
        let made: Result<Box<Request<S>>, _> = Box::new(alloc, opened_request(kept, asks, wait));
        match made {
            Ok(request) => Ok(OpenRequest { request }),
            Err(failed) => {
                let AllocFailed { value } = failed;
                value.end(parts);
                Err(AllocError)
            }
        }
    }

    // Lends the request.
    #[inline(always)]
    pub(crate) fn request(&self) -> &Request<S>
        ensures { result.now ≡ self.now }
    {
        &self.request
    }

    /// Ends the request: its write is left, its reader is spent, and a permit is dropped or a wait left.
    // A call of its own, as `open`.
    #[inline(never)]
    pub fn end<E>(self, parts: &mut TierParts<S, E>)
        ensures shelf { shelf_of parts.new.store ≡ turned self.reader closed (on_write self.write (landed false) (shelf_of parts.old.store)) }
        ensures lock { parts.new.lock ≡ after_all (leave_of self.held) parts.old.lock }
        ensures parts { parts.new ≡ record parts.old { store = parts.new.store; lock = parts.new.lock } }
    {
        let OpenRequest { request } = self;
        Box::into_inner(request).end(parts);
    }
}
