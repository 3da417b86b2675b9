//! Two tiers that serve the same requests.
ghost use Rattle.std.specs.Prelude.{◌≡◌, List, Option, OnOk};
ghost use Rattle.cache_evict.specs.Managed.{rows_at};
ghost use Rattle.curve_loads.specs.Finds.{IsFront};
ghost use Rattle.tier_model.specs.State.{Settings, empty_state};
ghost use Rattle.tier_loads.specs.Requests.{PlainRequest};
ghost use Rattle.tier_pairs.specs.Two.{RunsTwo, AreComparable, AreUniform, FindsByLoads, pairs_of};

use rand_core::Rng;
use std::alloc::Global;
use tier_model::event::TierFault;
use tier_requests::faults::out_of_memory;
use tier_served::{Request, Serve, Served};

/// What both tiers answered to one request.
#[derive(PartialEq, Eq, Debug, Drop)]
pub struct Pair {
    pub lesser: Served,
    pub greater: Served,
}

/// One of two tiers.
#[derive(Clone, Copy, PartialEq, Eq, Debug)]
pub enum Side {
    Lesser,
    Greater,
}

/// A run that ended at a fault.
#[derive(Debug, Drop)]
pub struct Stopped {
    /// What both answered to each request before.
    pub pairs: Vec<Pair>,
    /// The fault.
    pub fault: TierFault,
    /// Whose it is; nobody's where there was no room for the pairs, and then nothing was served.
    pub side: Option<Side>,
}

// Has two tiers serve requests, in order.
fn run_both<L: Serve, G: Serve, R: Rng>(
    alloc: Global,
    lesser: &mut L,
    greater: &mut G,
    rng: &mut R,
    requests: &[Request],
) -> Result<Vec<Pair>, Stopped>
    ensures { RunsTwo (L.state lesser.old) (G.state greater.old) (R.stream rng.old) requests.now result (L.state lesser.new) (G.state greater.new) (R.stream rng.new) }
{
    let Ok(mut pairs) = Vec::with_capacity(alloc, requests.len()) else {
        return Err(Stopped {
            pairs: Vec::new(alloc),
            fault: out_of_memory(alloc),
            side: None,
        });
    };
    for request in requests {
        let first = match lesser.serve(alloc, rng, request) {
            Ok(served) => served,
            Err(fault) => {
                return Err(Stopped {
                    pairs,
                    fault,
                    side: Some(Side::Lesser),
                });
            }
        };
        let second = match greater.serve(alloc, rng, request) {
            Ok(served) => served,
            Err(fault) => {
                return Err(Stopped {
                    pairs,
                    fault,
                    side: Some(Side::Greater),
                });
            }
        };
        pairs.push_reserved(Pair {
            lesser: first,
            greater: second,
        });
    }
    Ok(pairs)
}

/// Has two tiers serve requests, in order, each request first by the lesser one, and returns what both answered to each. The words of
/// the generator go to both in turn.
///
/// Where both began empty with one shard, no limit of the lesser one is greater than the other's, the requests are uniform (see
/// [`crate::uniform`]) and have plain heads, then each finds a key exactly where the law of loads says, whatever the lesser one finds the greater one
/// finds, and where no request was refused the lesser one's order of use, with its weights, is a front of the greater one's. What is found needn't be fresh in both.
///
/// # Errors
///
/// At the first fault: what both answered until then, the fault, and whose it is. The tier whose fault it is keeps what its request left, and
/// the other may have served one request more or less.
pub fn run_two<L: Serve, G: Serve, R: Rng>(
    alloc: Global,
    lesser: &mut L,
    greater: &mut G,
    rng: &mut R,
    requests: &[Request],
) -> Result<Vec<Pair>, Stopped>
    ensures served { RunsTwo (L.state lesser.old) (G.state greater.old) (R.stream rng.old) requests.now result (L.state lesser.new) (G.state greater.new) (R.stream rng.new) }
    ensures finds { (a b : Settings) (seen : List (Option PlainRequest)) → AreComparable a b → L.state lesser.old ≡ empty_state a → G.state greater.old ≡ empty_state b
        → AreUniform requests.now seen → FindsByLoads a b seen requests.now (pairs_of result) }
    ensures front { (a b : Settings) (seen : List (Option PlainRequest)) → AreComparable a b → L.state lesser.old ≡ empty_state a → G.state greater.old ≡ empty_state b
        → AreUniform requests.now seen → OnOk result (IsFront (rows_at (L.state lesser.new).managed.shards 0) (rows_at (G.state greater.new).managed.shards 0)) }
{
    run_both(alloc, lesser, greater, rng, requests)
}
