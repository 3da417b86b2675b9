//! The calls that a hit makes: their events, their notes and their records.
ghost use Rattle.std.specs.Prelude.{◌≡◌, ◌+◌, ◌<◌, ◌≤◌, ◌++◌, ◌^◌, IfOk, Ok, Some, vec_len, vec_capacity};
ghost use Rattle.tier_recorded.specs.Hits.{hit_events, hit_notes, fault_notes, kept, kept_all, kept_own, kept_all_own, next_turn, last_turn, made, made_all};
ghost use Rattle.tier_single.specs.Hits.{at_moment, is_of_open};

use crate::event::{HeldTwice, SharedEvent};
use crate::history::{CallerRecord, Record};
use crate::note::{AnswerNote, Note, bytes_note, fault_note};
use cache_words::key::CacheKey;
use cache_words::time::Moment;
use std::alloc::{AllocError, Global};
use std::marker::Model;
use tier_model::event::{Action, Event, LockGiven, TierFault};
use tier_single::Hit;

/// The most calls that a hit makes.
pub(crate) const MOST_CALLS: usize = 4;

/// The events of the calls that a hit may make, in order.
#[derive(Drop)]
pub struct CallEvents {
    opening: SharedEvent,
    look_up: SharedEvent,
    reading: SharedEvent,
    ending: SharedEvent,
}

/// The events of the calls that a hit may make, each held for a history and for a pass: they are made before the lock is taken. A contract sees
/// the events.
#[derive(Drop)]
pub struct HitEvents {
    opening: HeldTwice,
    look_up: HeldTwice,
    reading: HeldTwice,
    ending: HeldTwice,
}

impl Model for HitEvents {
    ghost use Rattle.tier_recorded.specs.declared.hits.CallEvents.{CallEvents};

    ghost Value = { CallEvents };

    ghost view = { λ h. record { opening = h.opening; look_up = h.look_up; reading = h.reading; ending = h.ending } };
}

/// The notes of the calls that a hit made; none of a call that it didn't make.
#[derive(Clone, Copy)]
pub struct HitNotes {
    opening: Option<Note>,
    look_up: Option<Note>,
    reading: Option<Note>,
    ending: Option<Note>,
}

fn held(alloc: Global, moment: Moment, action: Action) -> Result<HeldTwice, AllocError>
    ensures { IfOk result (λ held. held ≡ at_moment moment action) }
{
    HeldTwice::new(alloc, Event { moment, action })
}

fn held_opening(
    alloc: Global,
    moment: Moment,
    request: u64,
    key: &CacheKey,
) -> Result<HeldTwice, AllocError>
    ensures { IfOk result (λ held. held ≡ (hit_events moment request key.now).opening) }
{
    match key.clone() {
        Ok(key) => {
            let lock = false;
            held(alloc, moment, Action::Open { request, key, lock })
        }
        Err(fault) => Err(fault),
    }
}

impl HitEvents {
    /// Makes the events of a hit: the opening of a request of that number for that key, which asks for no permit, its look-up, its read and its
    /// drop.
    ///
    /// # Errors
    ///
    /// `AllocError` where there is no memory for them.
    pub fn new(
        alloc: Global,
        moment: Moment,
        request: u64,
        key: &CacheKey,
    ) -> Result<HitEvents, AllocError>
        ensures { IfOk result (λ events. events ≡ hit_events moment request key.now) }
    {
        let opening = held_opening(alloc, moment, request, key)?;
        let look_up = held(alloc, moment, Action::LookUp { request })?;
        let reading = held(alloc, moment, Action::Read { request })?;
        let ending = held(alloc, moment, Action::Drop { request })?;
        Ok(HitEvents {
            opening,
            look_up,
            reading,
            ending,
        })
    }

    // Takes the two holds of each apart.
    pub(crate) fn apart(self) -> (CallEvents, CallEvents)
        ensures { (result.0 ≡ self) × (result.1 ≡ self) }
    {
        let HitEvents {
            opening,
            look_up,
            reading,
            ending,
        } = self;
        let (their_opening, my_opening) = opening.apart();
        let (their_look_up, my_look_up) = look_up.apart();
        let (their_reading, my_reading) = reading.apart();
        let (their_ending, my_ending) = ending.apart();
        let theirs = CallEvents {
            opening: their_opening,
            look_up: their_look_up,
            reading: their_reading,
            ending: their_ending,
        };
        let mine = CallEvents {
            opening: my_opening,
            look_up: my_look_up,
            reading: my_reading,
            ending: my_ending,
        };
        (theirs, mine)
    }
}

// The notes of the calls up to the one that was refused, and of the drop of what was opened.
fn fault_notes(fault: &TierFault) -> HitNotes
    ensures { result ≡ fault_notes (is_of_open fault.now) fault.now }
{
    let refused = Some(Note::Refused(fault_note(fault)));
    match fault {
        TierFault::IdInUse | TierFault::Memory(_) => HitNotes {
            opening: refused,
            look_up: None,
            reading: None,
            ending: None,
        },
        _ => HitNotes {
            opening: Some(Note::Answered(AnswerNote::Opened)),
            look_up: refused,
            reading: None,
            ending: Some(Note::Answered(AnswerNote::Dropped)),
        },
    }
}

// The notes of the calls that found a body.
fn body_notes(hit: &Hit) -> HitNotes
    ensures { result ≡ hit_notes (Ok (Some hit.now)) }
{
    HitNotes {
        opening: Some(Note::Answered(AnswerNote::Opened)),
        look_up: Some(Note::Answered(AnswerNote::Found {
            fresh: true,
            complete: true,
            lock: LockGiven::None,
        })),
        reading: Some(Note::Answered(bytes_note(&hit.body))),
        ending: Some(Note::Answered(AnswerNote::Dropped)),
    }
}

// The notes of the calls of a hit.
pub(crate) fn noted_hit(hit: &Result<Option<Hit>, TierFault>) -> HitNotes
    ensures { result ≡ hit_notes hit.now }
{
    match hit {
        Ok(Some(hit)) => body_notes(hit),
        Ok(None) => HitNotes {
            opening: None,
            look_up: None,
            reading: None,
            ending: None,
        },
        Err(fault) => fault_notes(fault),
    }
}

// Keeps the record of a call, where it was made, and returns its caller's next turn.
fn keep(
    history: &mut Vec<Record>,
    caller: u64,
    turn: u64,
    event: SharedEvent,
    note: Option<Note>,
) -> u64
    requires room { vec_len history.old < vec_capacity history.old }
    requires turn { turn + 1 < 2 ^ 64 }
    ensures items { history.new.items ≡ history.old.items ++ kept caller turn event note }
    ensures length { vec_len history.new ≡ vec_len history.old + made note }
    ensures capacity { vec_capacity history.new ≡ vec_capacity history.old }
    ensures next { result ≡ next_turn turn note }
{
    match note {
        Some(note) => {
            history.push_reserved(Record {
                caller,
                turn,
                event,
                note,
            });
            turn + 1
        }
        None => {
            drop(event);
            turn
        }
    }
}

// Keeps the records of a hit's calls, in order, and returns their caller's next turn.
pub(crate) fn keep_all(
    history: &mut Vec<Record>,
    caller: u64,
    turn: u64,
    events: CallEvents,
    notes: HitNotes,
) -> u64
    requires room { vec_len history.old + 4 ≤ vec_capacity history.old }
    requires turn { turn + 4 < 2 ^ 64 }
    ensures items { history.new.items ≡ kept_all history.old.items caller turn events notes }
    ensures length { vec_len history.new ≡ vec_len history.old + made_all notes }
    ensures capacity { vec_capacity history.new ≡ vec_capacity history.old }
    ensures next { result ≡ last_turn turn notes }
{
    let CallEvents {
        opening,
        look_up,
        reading,
        ending,
    } = events;
    let second = keep(history, caller, turn, opening, notes.opening);
    let third = keep(history, caller, second, look_up, notes.look_up);
    let fourth = keep(history, caller, third, reading, notes.reading);
    keep(history, caller, fourth, ending, notes.ending)
}

// Keeps a caller's own record of a call, where it was made.
fn keep_own(records: &mut Vec<CallerRecord>, event: SharedEvent, note: Option<Note>)
    requires { vec_len records.old < vec_capacity records.old }
    ensures items { records.new.items ≡ records.old.items ++ kept_own event note }
    ensures length { vec_len records.new ≡ vec_len records.old + made note }
    ensures capacity { vec_capacity records.new ≡ vec_capacity records.old }
{
    match note {
        Some(note) => records.push_reserved(CallerRecord { event, note }),
        None => drop(event),
    }
}

// Keeps a caller's own records of a hit's calls, in order.
pub(crate) fn keep_all_own(records: &mut Vec<CallerRecord>, events: CallEvents, notes: HitNotes)
    requires { vec_len records.old + 4 ≤ vec_capacity records.old }
    ensures items { records.new.items ≡ kept_all_own records.old.items events notes }
    ensures length { vec_len records.new ≡ vec_len records.old + made_all notes }
    ensures capacity { vec_capacity records.new ≡ vec_capacity records.old }
{
    let CallEvents {
        opening,
        look_up,
        reading,
        ending,
    } = events;
    keep_own(records, opening, notes.opening);
    keep_own(records, look_up, notes.look_up);
    keep_own(records, reading, notes.reading);
    keep_own(records, ending, notes.ending);
}
