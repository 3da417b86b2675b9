//! A gateway as a program in C holds it.

ghost use Rattle.std.specs.Prelude.{◌≡◌};
ghost use Rattle.gateway_steps.specs.declared.state.Call.{Call};
ghost use Rattle.gateway_exchanges.specs.Replies.{reply_of, blank_reply};
ghost use Rattle.gateway_calls.specs.Told.{IsTold, IsMade, IsCallOf, IsClosed, IsStarted, IsCounted, IsPurge, IsPurgeOfAll, IsStopped};

use crate::answers::{HeldOut, shown};
use crate::numbers::{BAD_CALL, MEMORY, READY, why_of};
use crate::requests::HeldRequest;
use crate::structs::{GatewayCounts, GatewayOptions, OutShown};
use gateway::calls;
use gateway_exchanges::limits::Limits;
use gateway_exchanges::outs::{Out, Status};
use gateway_rules::moments::{Moment, is_moment};
use gateway_state::state::{Chosen, Gateway};
use rules_ffi_arguments::bad::Bad;
use rules_ffi_arguments::options::are_numbers;
use rules_ffi_arguments::shapes::OptionNumbers;
use std::alloc::Global;

/// A gateway, if one was made.
#[derive(Drop)]
pub struct GatewayHandle {
    alloc: Global,
    gateway: Option<Gateway>,
}

// So many bytes a secret has at least.
const LEAST_SECRET: usize = 16;

// The last number of seconds whose nanoseconds fit.
const MOST_SECONDS: u64 = 18_446_744_072;

fn limits_of(options: &GatewayOptions) -> Limits {
    Limits {
        max_bytes: options.max_bytes,
        lock_age: options.lock_age,
        lock_timeout: options.lock_timeout,
        max_exchanges: options.max_exchanges,
        max_body_bytes: options.max_body_bytes,
        max_relay_bytes: options.max_relay_bytes,
        max_unread: options.max_unread,
        max_interim_responses: options.max_interim_responses,
        first_byte_timeout: options.first_byte_timeout,
        between_bytes_timeout: options.between_bytes_timeout,
        max_predicted: options.max_predicted,
        predicted_seconds: options.predicted_seconds,
        max_tail: options.max_tail,
    }
}

// Whether seconds are so few that a sum with them has its nanoseconds in a word.
fn are_seconds(seconds: u64) -> bool {
    seconds <= MOST_SECONDS / 2
}

fn is_lawful(
    options: &GatewayOptions,
    numbers: &OptionNumbers,
    secret: &[u8],
    started: Moment,
) -> bool {
    secret.len() >= LEAST_SECRET
        && is_moment(started)
        && are_numbers(numbers)
        && options.reserved == [0; 2]
        && are_seconds(options.lock_age)
        && are_seconds(options.lock_timeout)
        && are_seconds(options.first_byte_timeout)
        && are_seconds(options.between_bytes_timeout)
        && are_seconds(options.predicted_seconds)
}

fn gateway_of(
    alloc: Global,
    started: Moment,
    options: &GatewayOptions,
    numbers: &OptionNumbers,
    words: &[u8],
    secret: &[u8],
) -> Result<Gateway, Bad> {
    if !is_lawful(options, numbers, secret, started) {
        return Err(Bad::Call);
    }
    let chosen = Chosen {
        numbers: *numbers,
        words,
        secret,
        started,
        limits: limits_of(options),
        hash_start: options.hash_start,
    };
    Gateway::new(alloc, &chosen)
}

/// Makes a gateway: `READY`, or `MEMORY`, or `BAD_CALL`.
pub fn make(
    alloc: Global,
    seconds: u64,
    nanoseconds: u64,
    options: &GatewayOptions,
    numbers: &OptionNumbers,
    words: &[u8],
    secret: &[u8],
    out: &mut GatewayCounts,
) -> GatewayHandle
    ensures { IsMade out.new result }
{
    let started = Moment {
        seconds,
        nanoseconds,
    };
    let (status, gateway) = match gateway_of(alloc, started, options, numbers, words, secret) {
        Ok(gateway) => (READY, Some(gateway)),
        Err(Bad::Memory) => (MEMORY, None),
        Err(Bad::Call) => (BAD_CALL, None),
    };
    *out = GatewayCounts {
        status,
        exchanges: 0,
        weight: 0,
        tracked: 0,
    };
    GatewayHandle { alloc, gateway }
}

/// Ends a gateway, with all that it holds but what was lent.
pub fn end(held: GatewayHandle) {
    let _ended = held;
}

fn told(answer: Out, out: &mut OutShown) -> HeldOut
    ensures told { IsTold result.out out.new }
    ensures kept { result.out ≡ answer }
{
    *out = shown(&answer);
    HeldOut { out: answer }
}

impl GatewayHandle {
    fn refusal(&self) -> Out
        ensures { reply_of result ≡ blank_reply Status.BadArgument }
    {
        Out::new(self.alloc, Status::BadArgument)
    }

    /// A request begins. Whatever is answered, the request is gone.
    pub fn start(
        &mut self,
        seconds: u64,
        nanoseconds: u64,
        request: HeldRequest,
        peer: &[u8],
        out: &mut OutShown,
    ) -> HeldOut
        ensures { IsStarted self.old seconds nanoseconds request out.new self.new result }
    {
        let now = Moment {
            seconds,
            nanoseconds,
        };
        let answer = match (&mut self.gateway, request.head) {
            (Some(gateway), Some(head)) => calls::start(gateway, now, head, peer),
            _ => self.refusal(),
        };
        told(answer, out)
    }

    /// What the client is sent next, and what is due.
    pub fn poll(&mut self, seconds: u64, nanoseconds: u64, x: u64, out: &mut OutShown) -> HeldOut
        ensures { IsCallOf Call.Poll self.old seconds nanoseconds x out.new self.new result }
    {
        let now = Moment {
            seconds,
            nanoseconds,
        };
        let answer = match &mut self.gateway {
            Some(gateway) => calls::poll(gateway, now, x),
            None => self.refusal(),
        };
        told(answer, out)
    }

    /// Bytes of the request's body.
    pub fn request_data(
        &mut self,
        seconds: u64,
        nanoseconds: u64,
        x: u64,
        bytes: &[u8],
        out: &mut OutShown,
    ) -> HeldOut
        ensures { IsCallOf Call.RequestData self.old seconds nanoseconds x out.new self.new result }
    {
        let now = Moment {
            seconds,
            nanoseconds,
        };
        let answer = match &mut self.gateway {
            Some(gateway) => calls::request_data(gateway, now, x, bytes),
            None => self.refusal(),
        };
        told(answer, out)
    }

    /// Bytes of the origin's connection, from a response's head on.
    pub fn response_head(
        &mut self,
        seconds: u64,
        nanoseconds: u64,
        x: u64,
        bytes: &[u8],
        out: &mut OutShown,
    ) -> HeldOut
        ensures { IsCallOf Call.ResponseHead self.old seconds nanoseconds x out.new self.new result }
    {
        let now = Moment {
            seconds,
            nanoseconds,
        };
        let answer = match &mut self.gateway {
            Some(gateway) => calls::response_head(gateway, now, x, bytes),
            None => self.refusal(),
        };
        told(answer, out)
    }

    /// Bytes of the response's body.
    pub fn response_data(
        &mut self,
        seconds: u64,
        nanoseconds: u64,
        x: u64,
        bytes: &[u8],
        out: &mut OutShown,
    ) -> HeldOut
        ensures { IsCallOf Call.ResponseData self.old seconds nanoseconds x out.new self.new result }
    {
        let now = Moment {
            seconds,
            nanoseconds,
        };
        let answer = match &mut self.gateway {
            Some(gateway) => calls::response_data(gateway, now, x, bytes),
            None => self.refusal(),
        };
        told(answer, out)
    }

    /// The origin's connection ended.
    pub fn origin_closed(
        &mut self,
        seconds: u64,
        nanoseconds: u64,
        x: u64,
        why: u64,
        out: &mut OutShown,
    ) -> HeldOut
        ensures { IsClosed self.old seconds nanoseconds x why out.new self.new result }
    {
        let now = Moment {
            seconds,
            nanoseconds,
        };
        let answer = match (&mut self.gateway, why_of(why)) {
            (Some(gateway), Some(why)) => calls::origin_closed(gateway, now, x, why),
            _ => self.refusal(),
        };
        told(answer, out)
    }

    /// The client went away.
    pub fn client_closed(
        &mut self,
        seconds: u64,
        nanoseconds: u64,
        x: u64,
        out: &mut OutShown,
    ) -> HeldOut
        ensures { IsCallOf Call.ClientClosed self.old seconds nanoseconds x out.new self.new result }
    {
        let now = Moment {
            seconds,
            nanoseconds,
        };
        let answer = match &mut self.gateway {
            Some(gateway) => calls::client_closed(gateway, now, x),
            None => self.refusal(),
        };
        told(answer, out)
    }

    /// Purges a URL.
    pub fn purge(&mut self, url: &[u8], out: &mut OutShown) -> HeldOut
        ensures { IsPurge self.old out.new self.new result }
    {
        let answer = match &mut self.gateway {
            Some(gateway) => calls::purge(gateway, url),
            None => self.refusal(),
        };
        told(answer, out)
    }

    /// Purges a key.
    pub fn purge_key(&mut self, key: &[u8], out: &mut OutShown) -> HeldOut
        ensures { IsPurge self.old out.new self.new result }
    {
        let answer = match &mut self.gateway {
            Some(gateway) => calls::purge_key(gateway, key),
            None => self.refusal(),
        };
        told(answer, out)
    }

    /// Purges everything.
    pub fn purge_all(&mut self, seconds: u64, nanoseconds: u64, out: &mut OutShown) -> HeldOut
        ensures { IsPurgeOfAll self.old seconds nanoseconds out.new self.new result }
    {
        let now = Moment {
            seconds,
            nanoseconds,
        };
        let answer = match &mut self.gateway {
            Some(gateway) => calls::purge_all(gateway, now),
            None => self.refusal(),
        };
        told(answer, out)
    }

    /// It is to end: what begins from now on says that its connection ends.
    pub fn stop(&mut self)
        ensures { IsStopped self.old self.new }
    {
        if let Some(gateway) = &mut self.gateway {
            calls::stop(gateway);
        }
    }

    /// How many exchanges are open, and what the tier holds.
    pub fn counts(&mut self, out: &mut GatewayCounts)
        ensures { IsCounted self.old self.new out.new }
    {
        let (exchanges, (weight, tracked)) = match &self.gateway {
            Some(gateway) => (gateway.exchanges() as u64, gateway.weight()),
            None => (0, (0, 0)),
        };
        *out = GatewayCounts {
            status: READY,
            exchanges,
            weight,
            tracked,
        };
    }
}
