//! Passes compared with a history.
ghost use Rattle.std.specs.Prelude.{◌≡◌, ◌↔◌, IsTrue, IfSome, IfNone};
ghost use Rattle.tier_recorded.specs.Histories.{own_of, records_of, seen_own, AreSame, FirstDiffer};

use crate::history::{CallerRecord, Record};
use crate::same::is_same_event;
use crate::same_note::is_same_note;

// Whether a pass's record is that of the history.
fn is_same_record(own: &CallerRecord, kept: &Record) -> bool
    ensures { IsTrue result ↔ (seen_own own.now ≡ seen_own (own_of kept.now)) }
{
    is_same_note(&own.note, &kept.note) && is_same_event(own.event.event(), kept.event.event())
}

/// Returns the first turn from which a pass's records aren't those of its caller, if there is one.
pub(crate) fn difference(history: &[Record], caller: u64, records: &[CallerRecord]) -> Option<u64>
    ensures same { IfNone result (AreSame records.now (records_of caller history.now)) }
    ensures other { IfSome result (λ turn. FirstDiffer records.now (records_of caller history.now) turn) }
{
    let mut turn = 0;
    for kept in history {
        if kept.caller == caller {
            if turn >= records.len() || !is_same_record(&records[turn], kept) {
                return Some(turn as u64);
            }
            turn += 1;
        }
    }
    if turn < records.len() {
        return Some(turn as u64);
    }
    None
}
