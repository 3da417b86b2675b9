//! A store with room for one body and one write in flight. It gives ids, shows no write before its end, and reports each body as an
//! addition: so the manager is told of it by `increment_weight`.
ghost use Rattle.std.specs.Prelude.{◌≡◌, ◌<◌, find, map, filter, not, is_some, if◌then◌else◌, false, Some, None, IfOk, IfErr, length};
ghost use Rattle.cache_entries.specs.Keys.{same_bytes};
ghost use Rattle.cache_changes.specs.Changes.{is_key};
ghost use Rattle.cache_changes.specs.Store.{body_at, flies_for, marked};
ghost use Rattle.cache_store.specs.Answers.{look_of};
ghost use Rattle.cache_store.specs.Ids.{IsGiven, IdsAfter};
ghost use Rattle.cache_store.specs.Looks.{LookAnswer, Tells};
ghost use Rattle.cache_store.specs.Misses.{begun};
ghost use Rattle.cache_store.specs.Purges.{PurgeAnswer};
ghost use Rattle.cache_store.specs.Renewals.{stored_with};
ghost use Rattle.cache_store.specs.declared.storage.StoreFault.{StoreFault as Fault};
ghost use Rattle.test_requests.specs.OneBody.{stored_in, held_in, id_in, id_for, reader_in};

mod copies;
mod handlers;
mod store;
mod writes;

use cache_entries::entry::CacheEntryId;
use cache_heads::CacheMeta;
use cache_store::storage::{Contents, Found, PurgeOutcome, StoreFault};
use cache_words::key::HashBinary;
use copies::copy_of;
use std::alloc::Global;

// A body, or what is written of one.
#[derive(Drop)]
pub struct Row {
    number: u64,
    key: HashBinary,
    meta: CacheMeta,
    bytes: Vec<u8>,
}

#[derive(Drop)]
pub struct Flight {
    row: Row,
    ended: bool,
    removed: bool,
}

/// The store.
#[derive(Drop)]
pub struct OneBody {
    alloc: Global,
    body: Option<Row>,
    flight: Option<Flight>,
    next: u64,
}

/// What reads the body.
#[derive(Drop)]
pub struct OneHit {
    number: u64,
    body: Vec<u8>,
    rest: Vec<u8>,
}

/// What writes a body.
#[derive(Drop)]
pub struct OneMiss {
    number: u64,
}

impl Row {
    // A reader of it.
    fn hit(&self, alloc: Global) -> Result<OneHit, StoreFault>
        ensures hit { IfOk result (λ hit. (hit.number ≡ self.now.number) × (hit.body.items ≡ self.now.bytes.items) × (hit.rest.items ≡ self.now.bytes.items)) }
        ensures fault { IfErr result (λ f. f ≡ Fault.Memory) }
    {
        let Ok(body) = Vec::from_slice(alloc, &self.bytes) else {
            return Err(StoreFault::Memory);
        };
        let Ok(rest) = Vec::from_slice(alloc, &self.bytes) else {
            return Err(StoreFault::Memory);
        };
        Ok(OneHit {
            number: self.number,
            body,
            rest,
        })
    }

    fn found(&self, alloc: Global) -> Result<(CacheMeta, OneHit), StoreFault>
        ensures found { IfOk result (λ found. (found.0 ≡ self.now.meta) × (found.1.number ≡ self.now.number) × (found.1.body.items ≡ self.now.bytes.items)
            × (found.1.rest.items ≡ self.now.bytes.items)) }
        ensures fault { IfErr result (λ f. f ≡ Fault.Memory) }
    {
        let meta = copy_of(&self.meta)?;
        Ok((meta, self.hit(alloc)?))
    }
}

impl Row {
    // Takes another meta, if it is of that key.
    fn renew(&mut self, key: &HashBinary, meta: CacheMeta)
        ensures renewed { stored_in self.new ≡ (if same_bytes self.old.key key.now then stored_with (λ _. meta) (stored_in self.old) else stored_in self.old) }
        ensures same { (self.new.key ≡ self.old.key) × (self.new.number ≡ self.old.number) }
    {
        if self.key == *key {
            self.meta = meta;
        }
    }
}

impl OneBody {
    fn look(&self, key: &HashBinary) -> Result<Found<OneHit>, StoreFault>
        ensures look { LookAnswer reader_in (look_of None (body_at key.now (held_in self.now).store)) (held_in self.now) result (held_in self.now) }
        ensures tells { Tells (λ h. length h.body.items) (λ h. Some (id_for h.number))
            (λ x. length x.bytes) (id_in self.now.body key.now) (look_of None (body_at key.now (held_in self.now).store)) result }
    {
        let Some(row) = &self.body else {
            return Ok(None);
        };
        if row.key != *key {
            return Ok(None);
        }
        match row.found(self.alloc) {
            Ok(found) => Ok(Some(found)),
            Err(fault) => Err(fault),
        }
    }
}

impl Contents for OneBody {
    ghost held = { held_in };

    ghost ids = { λ s. id_in s.body };

    ghost weigh = { λ x. length x.bytes };

    ghost tagged = { λ _. None };
}

impl OneBody {
    fn begin(&mut self, key: HashBinary, meta: CacheMeta) -> OneMiss
        requires idle { self.old.flight ≡ None }
        requires numbered { self.old.next < 18446744073709551615 }
        ensures number { result.number ≡ self.old.next }
        ensures begun { held_in self.new ≡ begun key meta (held_in self.old) }
        ensures body { self.new.body ≡ self.old.body }
    {
        let number = self.next;
        self.next = number + 1;
        self.flight = Some(Flight {
            row: Row {
                number,
                key,
                meta,
                bytes: Vec::new(self.alloc),
            },
            ended: false,
            removed: false,
        });
        OneMiss { number }
    }

    // Whether the body is of that key.
    fn has(&self, key: &HashBinary) -> bool
        ensures { result ≡ is_some (body_at key.now (held_in self.now).store) }
    {
        match &self.body {
            Some(row) => row.key == *key,
            None => false,
        }
    }

    // The id of the body, if it is of that key.
    fn id_at(&self, key: &HashBinary) -> Option<CacheEntryId>
        ensures { result ≡ id_in self.now.body key.now }
    {
        match &self.body {
            Some(row) if row.key == *key => Some(CacheEntryId::new(row.number)),
            _ => None,
        }
    }

    // Whether an alive write is of that key.
    fn is_written(&self, key: &HashBinary) -> bool
        ensures { result ≡ is_some (find (flies_for key.now) (held_in self.now).store.flying) }
    {
        match &self.flight {
            Some(flight) => flight.row.key == *key && !flight.removed,
            None => false,
        }
    }

    // Marks the write where it is of that key.
    fn mark(&mut self, key: &HashBinary)
        ensures flying { (held_in self.new).store.flying ≡ map (marked (Some key.now)) (held_in self.old).store.flying }
        ensures others { (self.new.body ≡ self.old.body) × (self.new.next ≡ self.old.next) }
    {
        match &mut self.flight {
            Some(flight) => flight.mark(key),
            None => {}
        }
    }

    // Lets the body go where it is of that key.
    fn let_go(&mut self, key: &HashBinary)
        ensures bodies { (held_in self.new).store.bodies ≡ filter (λ x. not (is_key x.write.key (Some key.now))) (held_in self.old).store.bodies }
        ensures others { (self.new.flight ≡ self.old.flight) × (self.new.next ≡ self.old.next) }
        ensures ids { IsGiven (Some key.now) None (id_in self.old.body) (id_in self.new.body) }
        ensures kept { is_some (body_at key.now (held_in self.old).store) ≡ false → self.new.body ≡ self.old.body }
    {
        if self.has(key) {
            self.body = None;
        }
    }

    // Removes what is stored under a key.
    fn remove(&mut self, key: &HashBinary) -> PurgeOutcome
        ensures answer { PurgeAnswer (Some key.now) (id_in self.old.body key.now) (held_in self.old) result (held_in self.new) }
        ensures ids { IdsAfter result (Some key.now) (id_in self.old.body) (id_in self.new.body) }
    {
        let id = self.id_at(key);
        let is_written = self.is_written(key);
        let has = self.has(key);
        self.mark(key);
        self.let_go(key);
        if is_written || has {
            PurgeOutcome::Purged(id)
        } else {
            PurgeOutcome::NotFound
        }
    }
}

impl OneBody {
    pub fn new(alloc: Global) -> OneBody {
        OneBody {
            alloc,
            body: None,
            flight: None,
            next: 0,
        }
    }
}
