//! Requests as events of a tier.
ghost use Rattle.std.specs.Prelude.{◌≡◌, ◌∷◌, [], None, IfOk, Ok};
ghost use Rattle.rand_core.specs.Stream.{Stream};
ghost use Rattle.tier_model.specs.State.{State};
ghost use Rattle.tier_model.specs.declared.event.Action.TheVariants as action;
ghost use Rattle.tier_single.specs.Takes.{Takes};
ghost use Rattle.tier_served.specs.Courses.{TakesBy, IsPutTold};
ghost use Rattle.tier_served.specs.Leaves.{LeavesBy, IsAside};
ghost use Rattle.tier_served.specs.Serves.{Serves};
ghost use Rattle.tier_served.specs.Looks.{Fills, IsAnswerOfPut};
ghost use Rattle.tier_served.specs.declared.request.Method.TheVariants as method;

use crate::events::take_at;
use crate::look_ups::{Looked, find};
use crate::request::{Method, Request, Served};
use bytes::Bytes;
use cache_words::key::CacheKey;
use cache_words::time::Moment;
use rand_core::Rng;
use std::alloc::{AllocError, Global};
use std::hash::BuildHasher;
use tier_model::event::{Action, Answer, Event, Pieces, TierFault};
use tier_requests::faults::out_of_memory;
use tier_single::Tier;

/// What serves requests by events, as a tier does.
pub trait Serve {
    // What is held: the plain state of a tier.
    ghost state: { Self → State };

    /// Takes one event, and answers it as a tier does.
    fn take<R: Rng>(&mut self, rng: &mut R, event: &Event) -> Result<Answer, TierFault>
        ensures { Takes (state self.old) (R.stream rng.old) (event.now ∷ []) (result ∷ []) (state self.new) (R.stream rng.new) };

    /// Serves a request. A get is looked up under a number of which no request is open, by a request that asks for no lock: what is found fresh and complete is
    /// read whole, and the response is put where nothing such is found, also where a write in flight was found. A purge is the event of that name.
    ///
    /// Numbers are tried from 2^64 - 1 down, so each request that the caller has open there costs one event more.
    ///
    /// # Errors
    ///
    /// The first fault of these events. After the look-up of a get that look-up stays: what was found was used and counted. Before
    /// it all is as it was: there was no memory, or each number has an open request, which is reported as `IdInUse`.
    final fn serve<R: Rng>(
        &mut self,
        alloc: Global,
        rng: &mut R,
        request: &Request,
    ) -> Result<Served, TierFault>
        ensures { Serves (state self.old) (R.stream rng.old) request.now result (state self.new) (R.stream rng.new) }
    {
        let moment = request.moment;
        match &request.method {
            Method::Get { response } => get(self, alloc, rng, moment, &request.key, response),
            Method::Purge => purge(self, alloc, rng, moment, &request.key),
        }
    }
}

impl<const N: usize, S: BuildHasher> Serve for Tier<N, S> {
    ghost state = { λ t. t };

    fn take<R: Rng>(&mut self, rng: &mut R, event: &Event) -> Result<Answer, TierFault> {
        self.step(rng, event)
    }
}

// A response in one piece, which is shared.
fn one_piece(alloc: Global, response: &Bytes) -> Result<Pieces, AllocError>
    ensures { IfOk result (λ pieces. pieces ≡ response.now ∷ []) }
{
    let mut items = Vec::with_capacity(alloc, 1)?;
    items.push(response.clone()?)?;
    Ok(Pieces::from_vec(items))
}

// The put of a response.
fn put_of(alloc: Global, key: &CacheKey, response: &Bytes) -> Result<Action, AllocError>
    ensures { IfOk result (λ put. put ≡ action.Put key.now (response.now ∷ []) None) }
{
    let key = key.clone()?;
    let pieces = one_piece(alloc, response)?;
    Ok(Action::put(key, pieces))
}

// What the answer to a put tells of a get.
fn filled(found: bool, answer: Answer) -> Served
    requires { IsAnswerOfPut answer }
    ensures { IsPutTold found (Ok answer) (Ok result) }
{
    match answer {
        Answer::Finished { length, evicted } => Served::Filled {
            found,
            length,
            evicted,
        },
        Answer::Uncacheable(reason) => Served::Passed { found, reason },
        _ => unreachable!(),
    }
}

// Stores a response, where it may be kept.
fn fill<T: Serve, R: Rng>(
    tier: &mut T,
    alloc: Global,
    rng: &mut R,
    moment: Moment,
    key: &CacheKey,
    response: &Bytes,
    found: bool,
) -> Result<Served, TierFault>
    ensures { Fills (T.state tier.old) (R.stream rng.old) moment key.now response.now found result (T.state tier.new) (R.stream rng.new) }
{
    let Ok(action) = put_of(alloc, key, response) else {
        return Err(out_of_memory(alloc));
    };
    let answer = take_at(tier, rng, moment, action)?;
    Ok(filled(found, answer))
}

// Serves a get.
fn get<T: Serve, R: Rng>(
    tier: &mut T,
    alloc: Global,
    rng: &mut R,
    moment: Moment,
    key: &CacheKey,
    response: &Bytes,
) -> Result<Served, TierFault>
    ensures calls { TakesBy (method.Get response.now) (T.state tier.old) (R.stream rng.old) moment key.now result (T.state tier.new) (R.stream rng.new) }
    ensures leaves { LeavesBy (method.Get response.now) (T.state tier.old) moment key.now result (T.state tier.new) }
    ensures aside { IsAside (T.state tier.old) (T.state tier.new) }
{
    match find(tier, alloc, rng, moment, key)? {
        Looked::Fresh(body) => Ok(Served::Hit { body }),
        Looked::Missed(found) => fill(tier, alloc, rng, moment, key, response, found),
    }
}

// Serves a purge.
fn purge<T: Serve, R: Rng>(
    tier: &mut T,
    alloc: Global,
    rng: &mut R,
    moment: Moment,
    key: &CacheKey,
) -> Result<Served, TierFault>
    ensures calls { TakesBy method.Purge (T.state tier.old) (R.stream rng.old) moment key.now result (T.state tier.new) (R.stream rng.new) }
    ensures leaves { LeavesBy method.Purge (T.state tier.old) moment key.now result (T.state tier.new) }
    ensures aside { IsAside (T.state tier.old) (T.state tier.new) }
{
    let Ok(key) = key.clone() else {
        return Err(out_of_memory(alloc));
    };
    match take_at(tier, rng, moment, Action::Purge { key }) {
        Ok(Answer::Purged(found)) => Ok(Served::Purged(found)),
        _ => unreachable!(),
    }
}
