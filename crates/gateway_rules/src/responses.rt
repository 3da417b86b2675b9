//! The origin's response: read, judged, merged into what is stored, relayed.
ghost use Rattle.std.specs.Prelude.{◌≡◌, length, take, option_map, IfOk};
ghost use Rattle.rules_ffi_arguments.specs.Given.{Gives};
ghost use Rattle.rules_ffi_arguments.specs.Moments.{moment_in};
ghost use Rattle.rules_serving.specs.Answers.{told_in};
ghost use Rattle.gateway_rules.specs.Dated.{GivesDated};
ghost use Rattle.gateway_rules.specs.Messages.{message_of};
ghost use Rattle.gateway_rules.specs.Options.{options_of};
ghost use Rattle.gateway_rules.specs.Responses.{pair, heard, read_in, stored_in, freshened_in, relayed_in};
ghost use Rattle.gateway_rules.specs.Rooms.{GivesWithin, Relays};
ghost use Rattle.gateway_rules.specs.Stored.{found_of};
ghost use Rattle.gateway_rules.specs.Values.{request_of, response_of, read_of, decision_of};

use crate::Rules;
use crate::messages::message_of;
use crate::moments::Moment;
use crate::rooms::text_in;
use crate::stored::{Stored, block_len, block_of, shape_of};
use crate::values::{Message, Read, RequestHead, ResponseHead, StoreDecision};
use rules_ffi::judging::judge;
use rules_ffi::renewing::freshen;
use rules_ffi_arguments::bad::Bad;
use rules_ffi_arguments::shapes::{How, PartShape};
use rules_ffi_results::keeping::unkept;
use rules_ffi_results::marks::{MORE, NO_ROOM, NOWHERE, REFUSED, blank, mark};
use rules_ffi_results::sending::Sent;
use rules_serving::telling::told;
use std::alloc::{AllocError, Global};

/// No part.
pub const NO_PART: PartShape = PartShape {
    before: NOWHERE,
    from: 0,
    to: 0,
};

/// When a request was sent, and when its response came.
#[derive(Clone, Copy)]
pub struct Times {
    pub asked: Moment,
    pub came: Moment,
}

fn pair(moment: Moment) -> (u64, u64)
    ensures { (result.0, result.1) ≡ pair moment }
{
    (moment.seconds, moment.nanoseconds)
}

fn heard(head: ResponseHead) -> Read
    ensures { read_of result ≡ heard (response_of head) }
{
    match head.shape.status {
        REFUSED | MORE => Read::Refused(head.shape.reason),
        _ => Read::Head(head),
    }
}

impl Rules {
    /// The head of a response, which is whole; or why it doesn't read.
    pub fn parse_response(&self, head_sent: bool, came: Moment, bytes: &[u8]) -> Result<Read, Bad>
        ensures { GivesDated read_of result (moment_in came.seconds came.nanoseconds) (read_in (options_of self.now) head_sent bytes.now) }
    {
        match self.response(head_sent, came, bytes) {
            Ok(head) => Ok(heard(head)),
            Err(bad) => Err(bad),
        }
    }

    // Whether a response is stored, and as what, in a room for what is made of so many bytes; or how many its text has.
    fn judge_within(
        &self,
        request: &RequestHead,
        head_sent: bool,
        response: &ResponseHead,
        times: Times,
        found: Option<&Stored>,
        index: &[u8],
        size: usize,
    ) -> Result<Result<StoreDecision, u64>, Bad>
        ensures { GivesWithin decision_of result size (stored_in (options_of self.now) (request_of request.now) head_sent (response_of response.now) times
            (found_of (option_map (λ s. s.now) found.entry)) index.now) }
    {
        let mut room = self.room(size)?;
        let mut out = unkept(0, 0);
        judge(
            self.alloc,
            &self.numbers,
            self.words.as_slice(),
            &request.shape,
            request.text.as_slice(),
            mark(head_sent, 1),
            &response.shape,
            response.text.as_slice(),
            pair(times.asked),
            pair(times.came),
            index,
            &shape_of(found),
            block_of(found),
            room.as_mut_slice(),
            &mut out,
        );
        if out.status == NO_ROOM {
            return Ok(Err(out.needed));
        }
        match text_in(room, out.status, out.block.to) {
            Ok(text) => Ok(Ok(StoreDecision { told: out, text })),
            Err(bad) => Err(bad),
        }
    }

    /// Whether a response is stored, and as what; `index`: the body of the Vary index that stood under the first key, empty where none did.
    pub fn decide_store(
        &self,
        request: &RequestHead,
        head_sent: bool,
        response: &ResponseHead,
        times: Times,
        found: Option<&Stored>,
        index: &[u8],
    ) -> Result<StoreDecision, Bad>
        ensures { Gives decision_of result (stored_in (options_of self.now) (request_of request.now) head_sent (response_of response.now) times
            (found_of (option_map (λ s. s.now) found.entry)) index.now) }
    {
        let size = response.text.len();
        match self.judge_within(request, head_sent, response, times, found, index, size)? {
            Ok(decision) => Ok(decision),
            Err(needed) => {
                let size = needed as usize;
                match self.judge_within(request, head_sent, response, times, found, index, size)? {
                    Ok(decision) => Ok(decision),
                    Err(_) => Err(Bad::Call),
                }
            }
        }
    }

    // What is made of what is stored, in a room for what is made of so many bytes; or how many its text has.
    fn freshen_within(
        &self,
        request: &RequestHead,
        stored: Option<&Stored>,
        length: u64,
        response: &ResponseHead,
        times: Times,
        size: usize,
    ) -> Result<Result<StoreDecision, u64>, Bad>
        ensures { GivesWithin decision_of result size (freshened_in (options_of self.now) (request_of request.now) (found_of (option_map (λ s. s.now) stored.entry)) length
            (response_of response.now) times) }
    {
        let mut room = self.room(size)?;
        let mut out = unkept(0, 0);
        freshen(
            self.alloc,
            &self.numbers,
            self.words.as_slice(),
            &request.shape,
            request.text.as_slice(),
            &shape_of(stored),
            block_of(stored),
            length,
            &response.shape,
            response.text.as_slice(),
            pair(times.asked),
            pair(times.came),
            room.as_mut_slice(),
            &mut out,
        );
        if out.status == NO_ROOM {
            return Ok(Err(out.needed));
        }
        match text_in(room, out.status, out.block.to) {
            Ok(text) => Ok(Ok(StoreDecision { told: out, text })),
            Err(bad) => Err(bad),
        }
    }

    /// What a 304 makes of what is stored, or a 200 to HEAD, where the length is that of the stored body.
    pub fn freshen(
        &self,
        request: &RequestHead,
        stored: Option<&Stored>,
        length: u64,
        response: &ResponseHead,
        times: Times,
    ) -> Result<StoreDecision, Bad>
        ensures { Gives decision_of result (freshened_in (options_of self.now) (request_of request.now) (found_of (option_map (λ s. s.now) stored.entry)) length
            (response_of response.now) times) }
    {
        let size = response.text.len().saturating_add(block_len(stored));
        match self.freshen_within(request, stored, length, response, times, size)? {
            Ok(decision) => Ok(decision),
            Err(needed) => {
                let size = needed as usize;
                match self.freshen_within(request, stored, length, response, times, size)? {
                    Ok(decision) => Ok(decision),
                    Err(_) => Err(Bad::Call),
                }
            }
        }
    }

    // What a response is handed on as, in a room for what is made of so many bytes; or how many its text has. It has one part at most, which is told in a table.
    fn relay_within(
        &self,
        request: &RequestHead,
        response: &ResponseHead,
        times: Times,
        how: &How,
        size: usize,
        table: &mut [PartShape],
    ) -> Result<Result<Message, u64>, Bad>
        requires { length table.old ≡ 1 }
        ensures { Relays result size (told_in (options_of self.now).numbers (options_of self.now).words request.now.shape request.now.text.items
            response.now.shape response.now.text.items (pair times.asked) (pair times.came) how.now) }
    {
        let mut room = self.room(size)?;
        let mut out = blank(0, 0);
        told(
            self.alloc,
            &self.numbers,
            self.words.as_slice(),
            &request.shape,
            request.text.as_slice(),
            &response.shape,
            response.text.as_slice(),
            pair(times.asked),
            pair(times.came),
            how,
            room.as_mut_slice(),
            table,
            &mut out,
        );
        if out.status == NO_ROOM {
            return Ok(Err(out.needed));
        }
        match text_in(room, out.status, out.head.to) {
            Ok(text) => Ok(Ok(message_of(Sent {
                text,
                told: out,
                parts: parts_in(self.alloc, table, out.parts)?,
            }))),
            Err(bad) => Err(bad),
        }
    }

    /// The head of a response that isn't stored.
    pub fn relay_response(
        &self,
        request: &RequestHead,
        response: &ResponseHead,
        times: Times,
        how: &How,
    ) -> Result<Message, Bad>
        ensures { Gives message_of result (relayed_in (options_of self.now) (request_of request.now) (response_of response.now) times how.now) }
    {
        let size = request.text.len().saturating_add(response.text.len());
        let mut table = [NO_PART; 1];
        match self.relay_within(request, response, times, how, size, &mut table)? {
            Ok(message) => Ok(message),
            Err(needed) => {
                let size = needed as usize;
                match self.relay_within(request, response, times, how, size, &mut table)? {
                    Ok(message) => Ok(message),
                    Err(_) => Err(Bad::Call),
                }
            }
        }
    }
}

// So many parts at the front of a table.
fn parts_in(alloc: Global, table: &[PartShape], count: u64) -> Result<Vec<PartShape>, AllocError>
    ensures { IfOk result (λ v. v.items ≡ take count table.now) }
{
    let count = table.len().min(count as usize);
    Vec::from_slice(alloc, &table[..count])
}
