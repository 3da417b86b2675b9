//! An exchange: a client's request, and all that is done for it. Its state is that of `gateway_steps`; beside it stand the texts and bodies.
ghost use Rattle.std.specs.Prelude.{◌≡◌, ◌||◌, is_some, option_copied};
ghost use Rattle.gateway_rows.specs.Bodies.{is_idle, is_awaiting, is_storing, is_relaying};
ghost use Rattle.gateway_steps.specs.Phases.{is_waiting, awaits_answer, is_sending, is_done, is_stored_fetch, goes_on};
ghost use Rattle.rules_ffi_arguments.specs.Moments.{nanoseconds_of};
ghost use Rattle.gateway_exchanges.specs.Exchanges.{is_same_source, old_of, lacks_bytes_of, IsNoAnswer, IsNoFetch, IsNewExchange};

use bytes::Bytes;
use cache_words::key::HashBinary;
use gateway_rules::moments::{Moment, nanoseconds_of};
use gateway_rules::stored::Stored;
use gateway_rules::values::{Body, NO_BODY, RequestHead, nowhere};
use gateway_steps::Exchange as Steps;
use gateway_steps::state::{Ending, Source};
use gateway_types::states::{Client, Fetch, Origin};
use rules_ffi_arguments::shapes::{PartShape, Span};
use std::alloc::Global;

/// How the fetch failed that an exchange waited for.
#[derive(Clone, Copy)]
pub struct Shared {
    /// The origin's status, or 0.
    pub status: u64,
    /// Whether that came.
    pub is_response: bool,
    /// An answer's status and reason.
    pub code: u64,
    pub reason: u64,
}

/// What the client is sent.
#[derive(Drop)]
pub struct Answering {
    /// What is sent first.
    pub buffer: Vec<u8>,
    pub framing: u64,
    pub whole: Bytes,
    /// The parts that are left, the texts in front of them, and what follows.
    pub parts: Vec<PartShape>,
    pub texts: Vec<u8>,
    pub after: Span,
    /// Of what is stored as it comes, the next byte that is sent.
    pub place: Option<u64>,
    /// So many bytes of it were read, or passed over.
    pub seen: u64,
    pub trailers: Vec<u8>,
}

/// What goes on with the origin.
#[derive(Drop)]
pub struct Fetching {
    /// The head of the request as it went.
    pub head: Vec<u8>,
    pub is_head: bool,
    pub is_conditional: bool,
    pub has_range: bool,
    /// Why it passes.
    pub reason: u64,
    /// Why it asks, by the numbers of Cache-Status.
    pub cause: u64,
    /// So far its end was sought.
    pub looked: u64,
    pub interims: u64,
    /// What stood under the key when it was asked.
    pub found: Option<Stored>,
    /// Under which that stood.
    pub found_key: Option<HashBinary>,
    /// Its body is whole, and the origin is asked about it.
    pub has_old: bool,
    pub old_body: Bytes,
    pub body: Option<Body>,
    /// Its response could be stored.
    pub storable: bool,
    /// What it counts for among what is in flight.
    pub flying: u64,
}

/// A client's request, and all that is done for it.
#[derive(Drop)]
pub struct Exchange {
    pub x: u64,
    pub request: RequestHead,
    pub peer: Vec<u8>,
    /// The digest of the request's first key, once it has looked.
    pub first: Option<HashBinary>,
    /// Under which it looks or stores: that of the first key, or of a second one.
    pub key: Option<HashBinary>,
    /// The Vary index that stood under the first key when it looked; empty: none did.
    pub index: Bytes,
    pub steps: Steps,
    pub shares: Option<Shared>,
    pub answer: Answering,
    /// The request's body, while it comes.
    pub taking: Option<Body>,
    pub taking_framing: u64,
    pub asks: Fetching,
}

fn new_answer(alloc: Global) -> Answering
    ensures { IsNoAnswer result }
{
    Answering {
        buffer: Vec::new(alloc),
        framing: NO_BODY,
        whole: Bytes::new(),
        parts: Vec::new(alloc),
        texts: Vec::new(alloc),
        after: nowhere(),
        place: None,
        seen: 0,
        trailers: Vec::new(alloc),
    }
}

fn new_fetch(alloc: Global) -> Fetching
    ensures { IsNoFetch result }
{
    Fetching {
        head: Vec::new(alloc),
        is_head: false,
        is_conditional: false,
        has_range: false,
        reason: 0,
        cause: 0,
        looked: 0,
        interims: 0,
        found: None,
        found_key: None,
        has_old: false,
        old_body: Bytes::new(),
        body: None,
        storable: false,
        flying: 0,
    }
}

impl Exchange {
    /// A request of which nothing is done yet, and its body, if more of it comes. It takes no memory.
    pub fn new(
        alloc: Global,
        x: u64,
        request: RequestHead,
        taking: Option<Body>,
        peer: Vec<u8>,
    ) -> Exchange
        ensures new { IsNewExchange x request taking result }
        ensures peer { result.peer ≡ peer }
    {
        let closes = request.is_rejected();
        Exchange {
            x,
            request,
            peer,
            first: None,
            key: None,
            index: Bytes::new(),
            steps: Steps::new(taking.is_some(), closes),
            shares: None,
            answer: new_answer(alloc),
            taking,
            taking_framing: NO_BODY,
            asks: new_fetch(alloc),
        }
    }

    /// Whether its client waits for another's permit.
    pub fn is_waiting(&self) -> bool
        ensures { result ≡ is_waiting self.now.steps.state.client.phase }
    {
        matches!(self.steps.state.client.phase, Client::Waiting)
    }

    /// Whether its client has no answer yet.
    pub fn is_awaiting(&self) -> bool
        ensures { result ≡ awaits_answer self.now.steps.state.client.phase }
    {
        matches!(self.steps.state.client.phase, Client::Awaiting)
    }

    /// Whether its client is sent an answer.
    pub fn is_sending(&self) -> bool
        ensures { result ≡ is_sending self.now.steps.state.client.phase }
    {
        matches!(self.steps.state.client.phase, Client::Sending)
    }

    /// Whether its client was answered, or left.
    pub fn is_done(&self) -> bool
        ensures { result ≡ is_done self.now.steps.state.client.phase }
    {
        matches!(self.steps.state.client.phase, Client::Done)
    }

    /// Whether nothing is asked of the origin.
    pub fn is_idle(&self) -> bool
        ensures { result ≡ is_idle self.now.steps.state.origin.phase }
    {
        matches!(self.steps.state.origin.phase, Origin::Idle)
    }

    /// Whether it awaits a head from the origin.
    pub fn awaits_head(&self) -> bool
        ensures { result ≡ is_awaiting self.now.steps.state.origin.phase }
    {
        matches!(self.steps.state.origin.phase, Origin::AwaitingHead)
    }

    /// Whether what comes is stored.
    pub fn is_storing(&self) -> bool
        ensures { result ≡ is_storing self.now.steps.state.origin.phase }
    {
        matches!(self.steps.state.origin.phase, Origin::Storing)
    }

    /// Whether what comes goes to its client alone.
    pub fn is_relaying(&self) -> bool
        ensures { result ≡ is_relaying self.now.steps.state.origin.phase }
    {
        matches!(self.steps.state.origin.phase, Origin::Relaying)
    }

    /// What was asked of the origin.
    pub fn fetch(&self) -> Fetch
        ensures { result ≡ self.now.steps.state.origin.fetch }
    {
        self.steps.state.origin.fetch
    }

    /// Whether its request is open at the tier.
    pub fn is_held(&self) -> bool
        ensures { result ≡ self.now.steps.state.tier.held }
    {
        self.steps.state.tier.held
    }

    /// Whether it has the permit to fetch.
    pub fn has_permit(&self) -> bool
        ensures { result ≡ is_some self.now.steps.state.tier.permit }
    {
        self.steps.state.tier.permit.is_some()
    }

    /// Whether others find its write.
    pub fn is_joinable(&self) -> bool
        ensures { result ≡ self.now.steps.state.tier.joinable }
    {
        self.steps.state.tier.joinable
    }

    /// Which of the gateway's requests to the origin its own was.
    pub fn sequence(&self) -> u64
        ensures { result ≡ self.now.steps.state.origin.sequence }
    {
        self.steps.state.origin.sequence
    }

    /// Whether more of what its client is sent may come.
    pub fn goes_on(&self) -> bool
        ensures { result ≡ goes_on self.now.steps.state.client.ending }
    {
        matches!(self.steps.state.client.ending, Ending::GoesOn)
    }

    /// Whether its client's bytes come from there.
    pub fn is_from(&self, source: Source) -> bool
        ensures { result ≡ is_same_source self.now.steps.state.client.source source }
    {
        match (self.steps.state.client.source, source) {
            (Source::Text, Source::Text)
            | (Source::Body, Source::Body)
            | (Source::Write, Source::Write)
            | (Source::Relay, Source::Relay) => true,
            _ => false,
        }
    }

    /// Whether what it asks may be stored.
    pub fn is_stored_fetch(&self) -> bool
        ensures { result ≡ is_stored_fetch self.now.steps.state.origin.fetch }
    {
        !matches!(self.fetch(), Fetch::Pass | Fetch::Unstored)
    }

    /// What is stored that the origin is asked about.
    pub fn old(&self) -> Option<&Stored>
        ensures { option_copied result ≡ old_of self.now }
    {
        if self.asks.has_old {
            self.asks.found.as_ref()
        } else {
            None
        }
    }

    /// Whether its client lacks bytes of what that exchange stores.
    pub fn reads(&self, writer: u64) -> bool
        ensures { result ≡ lacks_bytes_of writer self.now }
    {
        self.steps.is_reading_from(writer) && !self.answer.parts.is_empty()
    }

    /// Whether its head says that the connection ends: the request wasn't read, or its body isn't over.
    pub fn closes_after(&self) -> bool
        ensures { result ≡ (self.now.steps.state.client.closes || self.now.steps.state.client.owes_body) }
    {
        self.steps.state.client.closes || self.steps.state.client.owes_body
    }
}

/// A moment as the steps have it.
pub fn nanoseconds(moment: Moment) -> u64
    ensures { result ≡ nanoseconds_of moment }
{
    nanoseconds_of(moment)
}
