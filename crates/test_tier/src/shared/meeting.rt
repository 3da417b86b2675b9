//! Two threads that meet at a barrier, and a caller whose call is refused.
ghost use Rattle.std.specs.Prelude.{◌≡◌};

use crate::shared::asks::Ask;
use crate::shared::threads::{Shared, call, look_at_all, pair, shared};
use std::alloc::Global;
use std::marker::Brand;
use std::sync::ledger::{Blank, Ledger};
use std::sync::{Barrier, Wait};
use std::thread;
use std::thread::Threads;
use tier_shared::{Gathered, LEDGER_PARTS, Pass};

// A thread that puts a key, waits for the other, and looks the other's key up.
fn put_and_meet<L: Ledger, W: Wait>(
    rt: &W,
    alloc: Global,
    tier: &Shared<L>,
    mut pass: Pass<L>,
    barrier: &Barrier,
    names: (u8, u8),
) -> (Pass<L>, usize) {
    let put = call(rt, alloc, tier, &mut pass, Ask::Put(names.0));
    barrier.wait(rt);
    let found = look_at_all(rt, alloc, tier, &mut pass, &[names.1]);
    if put.is_none() {
        return (pass, 0);
    }
    (pass, found)
}

fn two_threads<L: Ledger + Send + Sync, W: Threads + Wait + Sync>(
    rt: &W,
    alloc: Global,
    blank: Blank,
) -> Option<(usize, usize, Gathered)>
    requires { (blank.name ≡ L.name) × (blank.parts ≡ L.parts) × (L.parts ≡ 4294967296) }
{
    let tier: Shared<L> = shared(alloc, blank)?;
    let (a, b) = pair(rt, &tier)?;
    let barrier = Barrier::new(2);
    let (one, meet) = (&tier, &barrier);
    let (a, b) = thread::join(
        rt,
        || put_and_meet(rt, alloc, one, a, meet, (b'a', b'b')),
        || put_and_meet(rt, alloc, one, b, meet, (b'b', b'a')),
    );
    let gathered = tier.gather(rt, vec![in alloc; a.0, b.0].ok()?).ok()?;
    Some((a.1, b.1, gathered))
}

#[test]
fn two_threads_find_each_others_keys(rt: HostRuntime) {
    let met = two_threads::<Brand, HostRuntime>(&rt, rt.alloc(), Blank::new(LEDGER_PARTS));
    assert!(rt;
        met == Some((
            1,
            1,
            Gathered {
                outstanding: 0,
                records: 6
            }
        ))
    );
}

// Whether a look of a request that isn't open is refused.
fn is_look_refused<L: Ledger, W: Wait>(rt: &W, alloc: Global, blank: Blank) -> Option<bool>
    requires { (blank.name ≡ L.name) × (blank.parts ≡ L.parts) × (L.parts ≡ 4294967296) }
{
    let tier: Shared<L> = shared(alloc, blank)?;
    let mut pass = tier.pass(rt).ok()?;
    Some(call(rt, alloc, &tier, &mut pass, Ask::Look(1)).is_none())
}

#[test]
fn a_look_of_no_request_is_refused(rt: HostRuntime) {
    let refused = is_look_refused::<Brand, HostRuntime>(&rt, rt.alloc(), Blank::new(LEDGER_PARTS));
    assert!(rt; refused == Some(true));
}
