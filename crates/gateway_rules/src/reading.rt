//! Heads that are read, each in a room that takes its text.
ghost use Rattle.rules_ffi_arguments.specs.Given.{Gives};
ghost use Rattle.rules_ffi_arguments.specs.Moments.{moment_in};
ghost use Rattle.rules_ffi_results.specs.Numbers.{mark};
ghost use Rattle.rules_ffi.specs.Requests.{asked_in};
ghost use Rattle.rules_ffi.specs.Responses.{answered_in};
ghost use Rattle.gateway_rules.specs.Dated.{GivesDated};
ghost use Rattle.gateway_rules.specs.Options.{options_of};
ghost use Rattle.gateway_rules.specs.Rooms.{GivesWithin, GivesDatedWithin};
ghost use Rattle.gateway_rules.specs.Values.{request_of, response_of};

use crate::Rules;
use crate::moments::Moment;
use crate::rooms::text_in;
use crate::values::{RequestHead, ResponseHead};
use rules_ffi::reading::{read_request, unread as no_request};
use rules_ffi::responses::{read_response, unread as no_response};
use rules_ffi_arguments::bad::Bad;
use rules_ffi_results::marks::{MORE, NO_ROOM, mark};

impl Rules {
    // A request in a room for what is made of so many bytes, or how many its text has.
    fn request_within(&self, bytes: &[u8], size: usize) -> Result<Result<RequestHead, u64>, Bad>
        ensures { GivesWithin request_of result size (asked_in (options_of self.now).numbers (options_of self.now).words bytes.now) }
    {
        let mut room = self.room(size)?;
        let mut shape = no_request(MORE, 0, 0, 0);
        read_request(
            self.alloc,
            &self.numbers,
            self.words.as_slice(),
            bytes,
            room.as_mut_slice(),
            &mut shape,
        );
        if shape.status == NO_ROOM {
            return Ok(Err(shape.needed));
        }
        match text_in(room, shape.status, shape.whole.to) {
            Ok(text) => Ok(Ok(RequestHead { shape, text })),
            Err(bad) => Err(bad),
        }
    }

    // A request, or that more of it is to come.
    pub(crate) fn request(&self, bytes: &[u8]) -> Result<RequestHead, Bad>
        ensures { Gives request_of result (asked_in (options_of self.now).numbers (options_of self.now).words bytes.now) }
    {
        match self.request_within(bytes, bytes.len())? {
            Ok(head) => Ok(head),
            Err(needed) => match self.request_within(bytes, needed as usize)? {
                Ok(head) => Ok(head),
                Err(_) => Err(Bad::Call),
            },
        }
    }

    // A response in a room for what is made of so many bytes, or how many its text has.
    fn response_within(
        &self,
        head_sent: bool,
        came: Moment,
        bytes: &[u8],
        size: usize,
    ) -> Result<Result<ResponseHead, u64>, Bad>
        ensures { GivesDatedWithin response_of result (moment_in came.seconds came.nanoseconds) (answered_in (options_of self.now).numbers (options_of self.now).words (mark head_sent 1) bytes.now) }
    {
        let mut room = self.room(size)?;
        let mut shape = no_response(MORE, 0, 0);
        read_response(
            self.alloc,
            &self.numbers,
            self.words.as_slice(),
            mark(head_sent, 1),
            came.seconds,
            came.nanoseconds,
            bytes,
            room.as_mut_slice(),
            &mut shape,
        );
        if shape.status == NO_ROOM {
            return Ok(Err(shape.needed));
        }
        match text_in(room, shape.status, shape.whole.to) {
            Ok(text) => Ok(Ok(ResponseHead { shape, text })),
            Err(bad) => Err(bad),
        }
    }

    // A response, or why there is none.
    pub(crate) fn response(
        &self,
        head_sent: bool,
        came: Moment,
        bytes: &[u8],
    ) -> Result<ResponseHead, Bad>
        ensures { GivesDated response_of result (moment_in came.seconds came.nanoseconds) (answered_in (options_of self.now).numbers (options_of self.now).words (mark head_sent 1) bytes.now) }
    {
        let most = (self.numbers.most_head as usize).saturating_add(1);
        match self.response_within(head_sent, came, bytes, bytes.len().min(most))? {
            Ok(head) => Ok(head),
            Err(needed) => match self.response_within(head_sent, came, bytes, needed as usize)? {
                Ok(head) => Ok(head),
                // Two texts of a second are equally long: this doesn't come.
                Err(_) => Err(Bad::Memory),
            },
        }
    }
}
