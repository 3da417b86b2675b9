//! The reader and the writer of a request, lent in their places.
ghost use Rattle.std.specs.Prelude.{◌≡◌, ◌&&◌, true, false, Some, None, is_some, if◌then◌else◌};
ghost use Rattle.std.specs.Borrow.{sem};
ghost use Rattle.std.specs.Option.{option_copied_mut};
ghost use Rattle.request_phases.specs.Phases.{is_disabled, has_reader_phase, is_write_phase};
ghost use Rattle.request_cache.specs.Lends.{lends_hit, lends_reader, lends_writer};

use crate::request::HttpCache;
use cache_store::storage::{HitHandler, MissHandler, Storage};

impl<S: Storage> HttpCache<S> {
    fn reader_mut(&mut self) -> Option<&mut HitHandler<S>>
        requires { is_disabled self.old.phase ≡ false }
        ensures* writes_back { sem 𝓛 (lends_reader S.row S.Hit.row S.Miss.row S.NewMeta.row
            (record { is_spent = S.is_spent; streams = S.streams; purged_as = S.purged_as; key_in = S.key_in; meta_in = S.meta_in })
            S.Contents S.Hit.HandleHit S.Miss.HandleMiss self.entry result) }
        ensures value { option_copied_mut result ≡ self.old.reader }
    {
        self.reader.as_mut()
    }

    fn writer_mut(&mut self) -> Option<&mut MissHandler<S>>
        requires { is_disabled self.old.phase ≡ false }
        ensures* writes_back { sem 𝓛 (lends_writer S.row S.Hit.row S.Miss.row S.NewMeta.row
            (record { is_spent = S.is_spent; streams = S.streams; purged_as = S.purged_as; key_in = S.key_in; meta_in = S.meta_in })
            S.Contents S.Hit.HandleHit S.Miss.HandleMiss self.entry result) }
        ensures value { option_copied_mut result ≡ self.old.writer }
    {
        self.writer.as_mut()
    }

    /// Returns the reader of the response that was found.
    pub fn hit_handler(&mut self) -> &mut HitHandler<S>
        requires phase { has_reader_phase self.old.phase ≡ true }
        requires reader { is_some self.old.reader ≡ true }
        ensures* writes_back { sem 𝓛 (lends_hit S.row S.Hit.row S.Miss.row S.NewMeta.row
            (record { is_spent = S.is_spent; streams = S.streams; purged_as = S.purged_as; key_in = S.key_in; meta_in = S.meta_in })
            S.Contents S.Hit.HandleHit S.Miss.HandleMiss self.entry result) }
        ensures value { self.old.reader ≡ Some result.now }
    {
        match &mut self.reader {
            Some(hit) => hit,
            None => unreachable!(),
        }
    }

    /// Returns the writer, where a response is being stored and a write of it has begun.
    pub fn miss_handler(&mut self) -> Option<&mut MissHandler<S>>
        ensures* writes_back { sem 𝓛 (lends_writer S.row S.Hit.row S.Miss.row S.NewMeta.row
            (record { is_spent = S.is_spent; streams = S.streams; purged_as = S.purged_as; key_in = S.key_in; meta_in = S.meta_in })
            S.Contents S.Hit.HandleHit S.Miss.HandleMiss self.entry result) }
        ensures value { option_copied_mut result ≡ (if is_write_phase self.old.phase then self.old.writer else None) }
    {
        if !self.phase.is_write_phase() {
            return None;
        }
        self.writer_mut()
    }

    /// Returns the reader of the response that is being stored, where the store reads what is still written. In another store the reader
    /// that is there is of an earlier response.
    pub fn miss_body_reader(&mut self, store: &S) -> Option<&mut HitHandler<S>>
        ensures* writes_back { sem 𝓛 (lends_reader S.row S.Hit.row S.Miss.row S.NewMeta.row
            (record { is_spent = S.is_spent; streams = S.streams; purged_as = S.purged_as; key_in = S.key_in; meta_in = S.meta_in })
            S.Contents S.Hit.HandleHit S.Miss.HandleMiss self.entry result) }
        ensures value { option_copied_mut result ≡ (if is_write_phase self.old.phase && S.streams then self.old.reader else None) }
    {
        let streams = store.support_streaming_partial_write();
        if !(self.phase.is_write_phase() && streams) {
            return None;
        }
        self.reader_mut()
    }
}
