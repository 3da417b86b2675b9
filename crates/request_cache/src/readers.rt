//! The reader and the writer of a request.
ghost use Rattle.std.specs.Prelude.{◌≡◌, Some, None, true, false, is_some, option_map, if◌then◌else◌};
ghost use Rattle.request_phases.specs.Phases.{is_disabled, can_finish_reader};
ghost use Rattle.request_store.specs.Spends.{Spends};

use crate::request::HttpCache;
use cache_store::storage::{HitHandler, MissHandler, Storage};
use request_store::{CacheParts, finish_reader};

impl<S: Storage> HttpCache<S> {
    /// Returns whether there is a reader.
    pub fn has_reader(&self) -> bool
        ensures { result ≡ is_some self.now.reader }
    {
        self.reader.is_some()
    }

    /// Lends the reader, if there is one.
    pub fn reader(&self) -> Option<&HitHandler<S>>
        ensures { option_map (λ h. h.now) result ≡ self.now.reader }
    {
        self.reader.as_ref()
    }

    /// Lends the writer, if there is one.
    pub fn writer(&self) -> Option<&MissHandler<S>>
        ensures { option_map (λ h. h.now) result ≡ self.now.writer }
    {
        self.writer.as_ref()
    }

    /// Returns whether there is a writer.
    pub fn has_writer(&self) -> bool
        ensures { result ≡ is_some self.now.writer }
    {
        self.writer.is_some()
    }

    /// Takes the reader out, if there is one.
    pub fn take_reader(&mut self) -> Option<HitHandler<S>>
        ensures reader { result ≡ self.old.reader }
        ensures request { self.new ≡ record self.old { reader = None } }
    {
        self.reader.take()
    }

    /// Puts a reader in, where there is none: one that was taken out of this request. A reader doesn't tell its key, so that nothing tests it.
    pub fn put_reader(&mut self, hit: HitHandler<S>)
        requires enabled { is_disabled self.old.phase ≡ false }
        requires none { self.old.reader ≡ None }
        ensures { self.new ≡ record self.old { reader = Some hit } }
    {
        match self.reader.replace(hit) {
            None => {}
            Some(_) => unreachable!(),
        }
    }

    /// Takes the writer out, if there is one.
    pub fn take_writer(&mut self) -> Option<MissHandler<S>>
        ensures writer { result ≡ self.old.writer }
        ensures request { self.new ≡ record self.old { writer = None } }
    {
        self.writer.take()
    }

    /// Puts a writer in, where there is none: one that was taken out of this request. A writer doesn't tell its key, so that nothing tests it:
    /// the finish of another request's writer would admit the entry of this request's key.
    pub fn put_writer(&mut self, miss: MissHandler<S>)
        requires enabled { is_disabled self.old.phase ≡ false }
        requires none { self.old.writer ≡ None }
        ensures { self.new ≡ record self.old { writer = Some miss } }
    {
        match self.writer.replace(miss) {
            None => {}
            Some(_) => unreachable!(),
        }
    }

    /// Spends the reader, if there is one.
    pub fn finish_hit_handler<E, P, L, A>(&mut self, parts: &mut CacheParts<S, E, P, L, A>)
        requires { can_finish_reader self.old.phase ≡ true }
        ensures request { self.new ≡ record self.old { reader = None } }
        ensures store { Spends S.Hit.reader self.old.reader (S.held parts.old.store) (S.held parts.new.store) }
        ensures ids { S.ids parts.new.store ≡ S.ids parts.old.store }
        ensures parts { parts.new ≡ record parts.old { store = parts.new.store } }
    {
        let reader = self.reader.take();
        finish_reader(&mut parts.store, reader);
    }

    /// Returns whether what is written is read while it is written; `None` where the request uses no cache.
    pub fn support_streaming_partial_write(&self, store: &S) -> Option<bool>
        ensures { result ≡ (if is_disabled self.now.phase then None else Some S.streams) }
    {
        if self.phase.is_disabled() {
            None
        } else {
            Some(store.support_streaming_partial_write())
        }
    }
}
