//! A caller finds a body, another one puts a second body under the key before the first reads: what a find gave is the head of the bytes
//! that are read, and what the key shows between is another's.
ghost use Rattle.std.specs.Prelude.{◌≡◌};

use crate::shared::asks::key;
use crate::shared::threads::{Shared, Tallied, counted, shared};
use bytes::Bytes;
use cache_words::time::Moment;
use std::alloc::Global;
use std::marker::Brand;
use std::sync::Wait;
use std::sync::ledger::{Blank, Ledger};
use tier_model::event::{Action, Event, Pieces};
use tier_shared::{CallPass, LEDGER_PARTS, Pass};
use tier_single::{Answer, FoundMeta, Hit, TierFault};

const FIRST: &[u8] =
    b"HTTP/1.1 200 OK\r\nCache-Control: max-age=100\r\nContent-Length: 5\r\n\r\nfirst";

const SECOND: &[u8] =
    b"HTTP/1.1 203 OK\r\nCache-Control: max-age=100\r\nContent-Length: 6\r\n\r\nsecond";

const BODY: &[u8] = b"first";

const SECOND_BODY: &[u8] = b"second";

const NOW: i64 = 7;

// What the first caller found and read, and what the key showed between: a status, the bytes, and a status.
type Seen = (u16, Bytes, u16);

fn put(alloc: Global, response: &'static [u8]) -> Option<Event> {
    let key = key(alloc, b'a')?;
    let pieces = vec![in alloc; Bytes::from_static(response)].ok()?;
    let action = Action::put(key, Pieces::from_vec(pieces));
    Some(at(action))
}

fn open(alloc: Global) -> Option<Event> {
    let key = key(alloc, b'a')?;
    let lock = false;
    Some(at(Action::Open {
        request: 1,
        key,
        lock,
    }))
}

fn at(action: Action) -> Event {
    let moment = Moment::from_seconds(NOW);
    Event { moment, action }
}

fn status_by(answer: &Answer, meta: Option<FoundMeta>) -> Option<u16> {
    if !matches!(answer, Answer::Found { .. }) {
        return None;
    }
    match meta {
        Some(meta) => Some(meta.head.status().as_u16()),
        None => None,
    }
}

fn status_of(found: Result<(Answer, Option<FoundMeta>), TierFault>) -> Option<u16> {
    match found {
        Ok(pair) => {
            let (answer, meta) = pair;
            status_by(&answer, meta)
        }
        Err(_) => None,
    }
}

fn bytes_of(read: Result<Answer, TierFault>) -> Option<Bytes> {
    match read {
        Ok(answer) => match answer {
            Answer::Bytes(bytes) => Some(bytes),
            _ => None,
        },
        Err(_) => None,
    }
}

// One call of a pass that is recorded, and one of a pass that is counted.
fn ask<L: Ledger, W: Wait>(
    rt: &W,
    tier: &Shared<L>,
    pass: &mut Pass<L>,
    event: Option<Event>,
) -> Option<Answer> {
    tier.step(rt, pass, event?).ok()
}

fn ask_counted<L: Ledger, W: Wait>(
    rt: &W,
    tier: &Tallied<L>,
    pass: &mut CallPass<L>,
    event: Option<Event>,
) -> Option<Answer> {
    tier.step(rt, pass, &event?).ok()
}

// The status that the key `a` shows.
fn shown_status<L: Ledger, W: Wait>(rt: &W, alloc: Global, tier: &Shared<L>) -> Option<u16> {
    let meta = tier.shown_meta(rt, alloc, &key(alloc, b'a')?).ok()??;
    Some(meta.header.status.as_u16())
}

fn counted_status<L: Ledger, W: Wait>(rt: &W, alloc: Global, tier: &Tallied<L>) -> Option<u16> {
    let meta = tier.shown_meta(rt, alloc, &key(alloc, b'a')?).ok()??;
    Some(meta.header.status.as_u16())
}

fn seen_by<L: Ledger, W: Wait>(
    rt: &W,
    alloc: Global,
    tier: &Shared<L>,
    one: &mut Pass<L>,
    other: &mut Pass<L>,
) -> Option<Seen> {
    let _first = ask(rt, tier, one, put(alloc, FIRST))?;
    let _open = ask(rt, tier, one, open(alloc))?;
    let found = status_of(tier.find(rt, one, Moment::from_seconds(NOW), 1))?;
    let _second = ask(rt, tier, other, put(alloc, SECOND))?;
    let shown = shown_status(rt, alloc, tier)?;
    let read = tier.step(rt, one, at(Action::Read { request: 1 }));
    Some((found, bytes_of(read)?, shown))
}

fn shared_sees<L: Ledger, W: Wait>(rt: &W, alloc: Global, blank: Blank) -> Option<Seen>
    requires { (blank.name ≡ L.name) × (blank.parts ≡ L.parts) × (L.parts ≡ 4294967296) }
{
    let tier: Shared<L> = shared(alloc, blank)?;
    let mut one = tier.pass(rt).ok()?;
    let mut other = tier.pass(rt).ok()?;
    seen_by(rt, alloc, &tier, &mut one, &mut other)
}

fn counted_seen_by<L: Ledger, W: Wait>(
    rt: &W,
    alloc: Global,
    tier: &Tallied<L>,
    one: &mut CallPass<L>,
    other: &mut CallPass<L>,
) -> Option<Seen> {
    let _first = ask_counted(rt, tier, one, put(alloc, FIRST))?;
    let _open = ask_counted(rt, tier, one, open(alloc))?;
    let found = status_of(tier.find(rt, one, Moment::from_seconds(NOW), 1))?;
    let _second = ask_counted(rt, tier, other, put(alloc, SECOND))?;
    let shown = counted_status(rt, alloc, tier)?;
    let read = tier.step(rt, one, &at(Action::Read { request: 1 }));
    Some((found, bytes_of(read)?, shown))
}

fn counted_sees<L: Ledger, W: Wait>(rt: &W, alloc: Global, blank: Blank) -> Option<Seen>
    requires { (blank.name ≡ L.name) × (blank.parts ≡ L.parts) × (L.parts ≡ 4294967296) }
{
    let tier: Tallied<L> = counted(alloc, blank)?;
    let mut one = tier.pass(rt).ok()?;
    let mut other = tier.pass(rt).ok()?;
    counted_seen_by(rt, alloc, &tier, &mut one, &mut other)
}

fn hit_of(hit: Result<Option<Hit>, TierFault>) -> Option<(u16, Bytes)> {
    match hit {
        Ok(Some(hit)) => Some((hit.meta.head.status().as_u16(), hit.body)),
        _ => None,
    }
}

// A hit of a key that was put, and of one that wasn't, and how many calls were made with the put.
fn counted_hit_by<L: Ledger, W: Wait>(
    rt: &W,
    alloc: Global,
    tier: &Tallied<L>,
    pass: &mut CallPass<L>,
) -> Option<(u16, Bytes, bool, u64)> {
    let _put = ask_counted(rt, tier, pass, put(alloc, FIRST))?;
    let now = Moment::from_seconds(NOW);
    let absent = tier.hit(rt, pass, now, 1, &key(alloc, b'b')?).ok()?;
    let (status, body) = hit_of(tier.hit(rt, pass, now, 1, &key(alloc, b'a')?))?;
    Some((status, body, absent.is_none(), pass.calls()))
}

fn counted_hits<L: Ledger, W: Wait>(
    rt: &W,
    alloc: Global,
    blank: Blank,
) -> Option<(u16, Bytes, bool, u64)>
    requires { (blank.name ≡ L.name) × (blank.parts ≡ L.parts) × (L.parts ≡ 4294967296) }
{
    let tier: Tallied<L> = counted(alloc, blank)?;
    let mut pass = tier.pass(rt).ok()?;
    counted_hit_by(rt, alloc, &tier, &mut pass)
}

// A caller looks a key up that was put, another one puts a second body under it, and the first hits it and reads on: what the hit gives, and
// what is read of the first look-up.
fn hit_by<L: Ledger, W: Wait>(
    rt: &W,
    alloc: Global,
    tier: &Shared<L>,
    one: &mut Pass<L>,
    other: &mut Pass<L>,
) -> Option<(u16, Bytes, Bytes)> {
    let _first = ask(rt, tier, one, put(alloc, FIRST))?;
    let _open = ask(rt, tier, one, open(alloc))?;
    let _found = ask(rt, tier, one, Some(at(Action::LookUp { request: 1 })))?;
    let _second = ask(rt, tier, other, put(alloc, SECOND))?;
    let now = Moment::from_seconds(NOW);
    let (status, body) = hit_of(tier.hit(rt, one, now, 2, &key(alloc, b'a')?))?;
    let read = tier.step(rt, one, at(Action::Read { request: 1 }));
    Some((status, body, bytes_of(read)?))
}

fn shared_hits<L: Ledger, W: Wait>(
    rt: &W,
    alloc: Global,
    blank: Blank,
) -> Option<(u16, Bytes, Bytes)>
    requires { (blank.name ≡ L.name) × (blank.parts ≡ L.parts) × (L.parts ≡ 4294967296) }
{
    let tier: Shared<L> = shared(alloc, blank)?;
    let mut one = tier.pass(rt).ok()?;
    let mut other = tier.pass(rt).ok()?;
    hit_by(rt, alloc, &tier, &mut one, &mut other)
}

fn is_whole(seen: Option<Seen>) -> bool {
    match seen {
        Some((found, bytes, shown)) => { found == 200 && bytes.as_slice() == BODY && shown == 203 }
        None => false,
    }
}

#[test]
fn a_find_in_a_shared_tier_is_of_one_body(rt: HostRuntime) {
    let seen = shared_sees::<Brand, HostRuntime>(&rt, rt.alloc(), Blank::new(LEDGER_PARTS));
    assert!(rt; is_whole(seen));
}

#[test]
fn a_find_in_a_counted_tier_is_of_one_body(rt: HostRuntime) {
    let seen = counted_sees::<Brand, HostRuntime>(&rt, rt.alloc(), Blank::new(LEDGER_PARTS));
    assert!(rt; is_whole(seen));
}

#[test]
fn a_hit_in_a_shared_tier_is_of_one_body(rt: HostRuntime) {
    let blank = Blank::new(LEDGER_PARTS);
    match shared_hits::<Brand, HostRuntime>(&rt, rt.alloc(), blank) {
        Some((status, body, read)) => {
            assert!(rt; status == 203 && body.as_slice() == SECOND_BODY && read.as_slice() == BODY);
        }
        None => assert!(rt; false),
    }
}

#[test]
fn a_hit_in_a_counted_tier_is_four_calls(rt: HostRuntime) {
    let blank = Blank::new(LEDGER_PARTS);
    match counted_hits::<Brand, HostRuntime>(&rt, rt.alloc(), blank) {
        Some((status, body, absent, calls)) => {
            assert!(rt; status == 200 && body.as_slice() == BODY && absent && calls == 5);
        }
        None => assert!(rt; false),
    }
}
