//! How readers and writers end.
ghost use Rattle.std.specs.Prelude.{◌≡◌};
ghost use Rattle.request_store.specs.Spends.{Spends, Leaves, Ends};

use cache_store::storage::{HandleHit, HandleMiss, Storage};

/// Spends a reader, if there is one.
pub fn finish_reader<S: Storage>(store: &mut S, reader: Option<S::Hit>)
    ensures spends { Spends S.Hit.reader reader (S.held store.old) (S.held store.new) }
    ensures ids { S.ids store.new ≡ S.ids store.old }
{
    if let Some(reader) = reader {
        reader.finish(store);
    }
}

// Leaves a write, if there is one.
fn leave_writer<S: Storage>(store: &mut S, writer: Option<S::Miss>)
    ensures leaves { Leaves S.Miss.number writer (S.held store.old) (S.held store.new) }
    ensures ids { S.ids store.new ≡ S.ids store.old }
{
    if let Some(writer) = writer {
        writer.leave(store);
    }
}

/// Leaves a write and spends a reader, in this order.
pub fn end_handlers<S: Storage>(store: &mut S, reader: Option<S::Hit>, writer: Option<S::Miss>)
    ensures ends { Ends S.Hit.reader S.Miss.number reader writer (S.held store.old) (S.held store.new) }
    ensures ids { S.ids store.new ≡ S.ids store.old }
{
    leave_writer(store, writer);
    finish_reader(store, reader);
}
