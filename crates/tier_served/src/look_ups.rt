//! Look-ups of what is stored for a key.
ghost use Rattle.std.specs.Prelude.{◌≡◌, ℕ, List, is_some, true};
ghost use Rattle.std.specs.FinMap.{get};
ghost use Rattle.tier_model.specs.Keys.{Entry};
ghost use Rattle.tier_served.specs.Looks.{is_in_use, hit_of, IsNew, Opens, OpensAt, IsUnread, Reads, Looks, Ends, Finds};

use crate::events::take_at;
use crate::serve::Serve;
use bytes::Bytes;
use cache_words::key::CacheKey;
use cache_words::time::Moment;
use rand_core::Rng;
use std::alloc::Global;
use tier_model::event::{Action, Answer, TierFault};
use tier_requests::faults::out_of_memory;

// What a look-up gave.
#[derive(Drop)]
pub(crate) enum Looked {
    // All bytes of a fresh body.
    Fresh(Bytes),
    // No such body; whether the key was found.
    Missed(bool),
}

// Whether a request of that number is open.
fn is_in_use(fault: &TierFault) -> bool
    ensures { result ≡ is_in_use fault.now }
{
    matches!(fault, TierFault::IdInUse)
}

// Opens a request of that number.
fn open_at<T: Serve, R: Rng>(
    tier: &mut T,
    alloc: Global,
    rng: &mut R,
    moment: Moment,
    key: &CacheKey,
    id: u64,
) -> Result<(), TierFault>
    ensures { OpensAt (T.state tier.old) (R.stream rng.old) moment key.now id result (T.state tier.new) (R.stream rng.new) }
{
    let Ok(key) = key.clone() else {
        return Err(out_of_memory(alloc));
    };
    let action = Action::Open {
        request: id,
        key,
        lock: false,
    };
    take_at(tier, rng, moment, action)?;
    Ok(())
}

// Opens a request of a number of which none is open, and returns the number.
fn open<T: Serve, R: Rng>(
    tier: &mut T,
    alloc: Global,
    rng: &mut R,
    moment: Moment,
    key: &CacheKey,
) -> Result<u64, TierFault>
    ensures { Opens (T.state tier.old) (R.stream rng.old) moment key.now result (T.state tier.new) (R.stream rng.new) }
{
    let mut id = u64::MAX;
    loop {
        let Err(fault) = open_at(tier, alloc, rng, moment, key, id) else {
            return Ok(id);
        };
        if id == 0 {
            return Err(fault);
        }
        if !is_in_use(&fault) {
            return Err(fault);
        }
        id -= 1;
    }
}

// Reads all of what was found.
fn read<T: Serve, R: Rng>(tier: &mut T, rng: &mut R, moment: Moment, id: u64) -> Bytes
    requires { (bytes : List ℕ) × IsUnread (T.state tier.old) id bytes }
    ensures { Reads (T.state tier.old) (R.stream rng.old) moment id result (T.state tier.new) (R.stream rng.new) }
{
    match take_at(tier, rng, moment, Action::Read { request: id }) {
        Ok(Answer::Bytes(body)) => body,
        _ => unreachable!(),
    }
}

// Whether a look-up found all of a fresh body; nothing where it found nothing.
fn hit_of(answer: Answer) -> Option<bool>
    ensures { result ≡ hit_of answer }
{
    match &answer {
        Answer::Found {
            fresh,
            complete,
            lock: _,
        } => Some(*fresh && *complete),
        _ => None,
    }
}

// Looks up what is stored for an open request, and reads it where it is fresh and complete.
fn look_up<T: Serve, R: Rng>(
    tier: &mut T,
    rng: &mut R,
    moment: Moment,
    id: u64,
) -> Result<Looked, TierFault>
    requires { (e : Entry) × IsNew (T.state tier.old) id e }
    ensures { (e : Entry) → IsNew (T.state tier.old) id e → Looks (T.state tier.old) (R.stream rng.old) moment id e result (T.state tier.new) (R.stream rng.new) }
{
    let answer = take_at(tier, rng, moment, Action::LookUp { request: id })?;
    match hit_of(answer) {
        Some(true) => Ok(Looked::Fresh(read(tier, rng, moment, id))),
        Some(false) => Ok(Looked::Missed(true)),
        None => Ok(Looked::Missed(false)),
    }
}

// Ends an open request.
fn end<T: Serve, R: Rng>(tier: &mut T, rng: &mut R, moment: Moment, id: u64)
    requires { is_some (get (T.state tier.old).requests id) ≡ true }
    ensures { Ends (T.state tier.old) (R.stream rng.old) moment id (T.state tier.new) (R.stream rng.new) }
{
    let _dropped = take_at(tier, rng, moment, Action::Drop { request: id });
}

// Looks up what is stored for a key.
pub(crate) fn find<T: Serve, R: Rng>(
    tier: &mut T,
    alloc: Global,
    rng: &mut R,
    moment: Moment,
    key: &CacheKey,
) -> Result<Looked, TierFault>
    ensures { Finds (T.state tier.old) (R.stream rng.old) moment key.now result (T.state tier.new) (R.stream rng.new) }
{
    let id = open(tier, alloc, rng, moment, key)?;
    let looked = look_up(tier, rng, moment, id);
    end(tier, rng, moment, id);
    looked
}
