//! What is kept of writes.
ghost use Rattle.std.specs.Prelude.{◌≡◌, ◌<◌, ◌^◌, ◌++◌, length, IfOk, OnOk, OnErr};
ghost use Rattle.cache_heads.specs.Meta.{meta_length};
ghost use Rattle.cache_store.specs.Renewals.{expired};
ghost use Rattle.store_memory.specs.Kept.{weight_with};

use crate::counted_meta::{CountedMeta, TOO_LONG};
use crate::pieces::Pieces;
use bytes::Bytes;
use cache_words::key::HashBinary;
use cache_words::time::Moment;
use head_packed::PackedMeta;
use std::alloc::{AllocError, Global};
use std::marker::Model;

mod left;

// The bytes that readers of a write are left with.
#[derive(Drop)]
pub(crate) enum Buffer {
    // Of a write that was given up.
    InPieces(Pieces),
    // Shared with the body that the write became.
    Whole(Bytes),
}

// The record of a body whose bytes are to come, with its meta: a write makes it when it begins, so that its end takes no memory for it.
#[derive(Drop)]
pub(crate) struct Reserved {
    body: Box<Body>,
}

impl Model for Reserved {
    ghost use Rattle.cache_heads.specs.declared.meta.CacheMeta.{CacheMeta};
    ghost use Rattle.cache_heads.specs.contracts.meta.CacheMeta.{the_row};

    ghost Value = { CacheMeta };

    ghost coded = { the_row.coded };

    ghost view = { λ r. r.body.value.meta };
}

impl Reserved {
    // Makes the record of a body with a meta.
    pub(crate) fn new(alloc: Global, meta: CountedMeta) -> Result<Reserved, AllocError>
        ensures { IfOk result (λ reserved. reserved ≡ meta) }
    {
        let body = Body {
            number: 0,
            meta,
            bytes: Bytes::new(),
        };
        let body = Box::new(alloc, body)?;
        Ok(Reserved { body })
    }

    // Lends the meta.
    pub(crate) fn packed(&self) -> &PackedMeta
        ensures { result.now ≡ self.now }
    {
        self.body.meta.packed()
    }

    // Returns the body with its number and its bytes, of which there are few enough.
    pub(crate) fn filled(self, number: u64, bytes: Bytes) -> Kept
        requires { length bytes < 2 ^ 62 }
        ensures { result ≡ record { number = number; meta = self; bytes = bytes } }
    {
        let mut body = self.body;
        body.number = number;
        body.bytes = bytes;
        Kept { body }
    }
}

// A write in flight.
#[derive(Drop)]
pub(crate) struct Flight {
    pub(crate) key: HashBinary,
    pub(crate) meta: Reserved,
    pub(crate) pieces: Pieces,
    pub(crate) ended: bool,
}

// A write in flight as the table of writes keeps it: in a box, so that the table moves a pointer with its rows and not a whole write.
#[derive(Drop)]
pub(crate) struct InFlight {
    flight: Box<Flight>,
}

impl Model for InFlight {
    ghost use Rattle.store_memory.specs.declared.flight.Flight.{Flight};
    ghost use Rattle.store_memory.specs.contracts.flight.Flight.{the_row};

    ghost Value = { Flight };

    ghost coded = { the_row.coded };

    ghost view = { λ f. f.flight.value };
}

impl InFlight {
    // Keeps a write.
    pub(crate) fn new(alloc: Global, flight: Flight) -> Result<InFlight, AllocError>
        ensures { IfOk result (λ kept. kept ≡ flight) }
    {
        let flight = Box::new(alloc, flight)?;
        Ok(InFlight { flight })
    }

    // Lends the write.
    pub(crate) fn flight(&self) -> &Flight
        ensures { result.now ≡ self.now }
    {
        &self.flight
    }

    // Returns the write.
    pub(crate) fn into_flight(self) -> Flight
        ensures { result ≡ self }
    {
        Box::into_inner(self.flight)
    }

    // Adds bytes, and marks the end where they are the last.
    pub(crate) fn append(&mut self, alloc: Global, more: Bytes, eof: bool) -> Result<(), AllocError>
        ensures ok { OnOk result (self.new ≡ record self.old { pieces = self.old.pieces ++ more; ended = eof }) }
        ensures err { OnErr result (self.new ≡ self.old) }
    {
        self.flight.pieces.push(alloc, more)?;
        self.flight.ended = eof;
        Ok(())
    }
}

// A finished body.
#[derive(Drop)]
pub(crate) struct Body {
    pub(crate) number: u64,
    pub(crate) meta: CountedMeta,
    pub(crate) bytes: Bytes,
}

// A finished body as the table of bodies keeps it: apart, so that the table's own rows are short. It has few enough bytes that it can be
// weighed with any meta.
#[derive(Drop)]
pub(crate) struct Kept {
    body: Box<Body>,
}

impl Model for Kept {
    ghost use Rattle.std.specs.Prelude.{◌<◌, ◌^◌, length};
    ghost use Rattle.store_memory.specs.declared.flight.Body.{Body};
    ghost use Rattle.store_memory.specs.contracts.flight.Body.{the_row};

    ghost Value = { Body };

    ghost coded = { the_row.coded };

    ghost view = { λ k. k.body.value };

    ghost invariant = { λ k. length k.body.value.bytes < 2 ^ 62 };
}

impl Kept {
    // Keeps a body, unless it has too many bytes.
    pub(crate) fn new(alloc: Global, body: Body) -> Result<Kept, AllocError>
        ensures { IfOk result (λ kept. kept ≡ body) }
    {
        if body.bytes.len() >= TOO_LONG {
            return Err(AllocError);
        }
        let body = Box::new(alloc, body)?;
        Ok(Kept { body })
    }

    // Lends the body.
    pub(crate) fn body(&self) -> &Body
        ensures { result.now ≡ self.now }
    {
        &self.body
    }

    // Returns until when the body is fresh.
    pub(crate) fn fresh_until(&self) -> Moment
        ensures { result ≡ self.now.meta.internal.fresh_until }
    {
        self.body.meta.packed().fresh_until()
    }

    // Returns how many bytes its meta takes as it is written.
    pub(crate) fn meta_len(&self) -> usize
        ensures { result ≡ meta_length self.now.meta }
    {
        self.body.meta.len()
    }

    // Returns how many bytes the body has outside the cache.
    pub(crate) fn external(&self) -> u64
        ensures { result ≡ self.now.meta.external }
    {
        self.body.meta.packed().external()
    }

    // Returns what the body weighs.
    pub(crate) fn weight(&self) -> usize
        ensures { result ≡ weight_with self.now.meta self.now.bytes }
    {
        self.weight_with(&self.body.meta)
    }

    // Returns what the body would weigh with that meta.
    pub(crate) fn weight_with(&self, meta: &CountedMeta) -> usize
        ensures { result ≡ weight_with meta.now self.now.bytes }
    {
        self.body.bytes.len() + meta.weight()
    }

    // Gives the body another meta.
    pub(crate) fn set_meta(&mut self, meta: CountedMeta)
        ensures { self.new ≡ record self.old { meta = meta } }
    {
        self.body.meta = meta;
    }

    // Lets the body go stale at a moment.
    pub(crate) fn expire_at(&mut self, moment: Moment)
        ensures { self.new ≡ record self.old { meta = expired moment self.old.meta } }
    {
        self.body.meta.expire_at(moment);
    }
}

// How many readers a write has beside one, and what they are left with once it is in flight no more; whether that is all of it.
#[derive(Drop)]
pub(crate) struct Readers {
    pub(crate) others: u64,
    pub(crate) left: Option<Buffer>,
    pub(crate) whole: bool,
}

// What a look-up of a key shows: a write in flight, with its number, or a finished body.
#[derive(Clone, Copy)]
pub(crate) enum Shown<'a> {
    Flying(u64, &'a Flight),
    Body(&'a Kept),
}
